//! The lines of a version.
ghost use Rattle.std.specs.Prelude.{◌≡◌, ◌++◌, OnOk, IfOk};
ghost use Rattle.std.specs.Fmt.{decimal};
ghost use Rattle.cc2_cli.specs.Lines.{truth_text};
ghost use Rattle.cc2_rustc.specs.Shown.{of_cargo, of_rustc};
ghost use Rattle.cc2_answers.specs.VersionLines.{cargo_version_lines, part_line, patch_line, rustc_version_lines, version_lines};

use cargo_config2::{CargoVersion, NoMemory, RustcVersion};
use cc2_cli::text::{Done, push};
use std::alloc::Global;

/// The lines of rustc's version.
pub(crate) fn rustc_version_lines(
    alloc: Global,
    version: &RustcVersion,
) -> Result<Vec<u8>, NoMemory>
    ensures { IfOk result (λ text. text.items ≡ rustc_version_lines (of_rustc version.now)) }
{
    let RustcVersion {
        major,
        minor,
        patch,
        nightly,
    } = *version;
    version_lines(alloc, "rustc-version", major, minor, patch, nightly)
}

/// The lines of cargo's version.
pub(crate) fn cargo_version_lines(
    alloc: Global,
    version: &CargoVersion,
) -> Result<Vec<u8>, NoMemory>
    ensures { IfOk result (λ text. text.items ≡ cargo_version_lines (of_cargo version.now)) }
{
    let CargoVersion {
        major,
        minor,
        patch,
        nightly,
    } = *version;
    version_lines(alloc, "cargo-version", major, minor, Some(patch), nightly)
}

// The lines of a version, each part after the key.
fn version_lines(
    alloc: Global,
    key: &str,
    major: u32,
    minor: u32,
    patch: Option<u32>,
    nightly: bool,
) -> Result<Vec<u8>, NoMemory>
    ensures { IfOk result (λ text. text.items ≡ version_lines key.now
        (record { major = major; minor = minor; patch = patch; nightly = nightly })) }
{
    let mut lines = Vec::new(alloc);
    let out = &mut lines;
    push_number(out, alloc, key, "major", major)?;
    push_number(out, alloc, key, "minor", minor)?;
    push_patch(out, alloc, key, patch)?;
    push_truth(out, alloc, key, "nightly", nightly)?;
    Ok(lines)
}

// Appends the line of the patch version, if there is one.
fn push_patch(out: &mut Vec<u8>, alloc: Global, key: &str, patch: Option<u32>) -> Done
    ensures { OnOk result (out.new.items ≡ out.old.items ++ patch_line key.now patch) }
{
    match patch {
        Some(patch) => push_number(out, alloc, key, "patch", patch),
        None => Ok(()),
    }
}

// Appends the line of a number.
fn push_number(out: &mut Vec<u8>, alloc: Global, key: &str, part: &str, number: u32) -> Done
    ensures { OnOk result (out.new.items ≡ out.old.items
        ++ part_line key.now part.now (decimal number)) }
{
    push(
        out,
        format!(in alloc; "{key}.{part} = {number}\n")?.as_str(),
    )
}

// Appends the line of a truth value.
fn push_truth(out: &mut Vec<u8>, alloc: Global, key: &str, part: &str, truth: bool) -> Done
    ensures { OnOk result (out.new.items ≡ out.old.items
        ++ part_line key.now part.now (truth_text truth)) }
{
    let shown = if truth { "true" } else { "false" };
    push(out, format!(in alloc; "{key}.{part} = {shown}\n")?.as_str())
}
