//! The command for rustc (Cargo Reference, Configuration,
//! [`build.rustc`](https://doc.rust-lang.org/cargo/reference/config.html#buildrustc),
//! [`build.rustc-wrapper`](https://doc.rust-lang.org/cargo/reference/config.html#buildrustc-wrapper)
//! and
//! [`build.rustc-workspace-wrapper`](https://doc.rust-lang.org/cargo/reference/config.html#buildrustc-workspace-wrapper)).
ghost use Rattle.std.specs.Prelude.{◌≡◌, Some, None, IsSome, IsOk, IfOk, IfErr, OnOk, OnErr};
ghost use Rattle.std.specs.Prelude.{option_map, string_bytes};
ghost use Rattle.std.specs.Option.{option_copied};
ghost use Rattle.cc2_error.specs.Commands.{command_of, bare_command};
ghost use Rattle.cc2_error.specs.Outcomes.{IsWantOfMemory};
ghost use Rattle.cc2_base.specs.Told.{WhereTold};
ghost use Rattle.cc2_rustc.specs.Rustc.{is_there, beside_cargo, rustc_program};
ghost use Rattle.cc2_rustc.specs.Rustc.{rustc_command, rustc_command_for_versions};
ghost use Rattle.cc2_rustc.specs.Kept.{IsKeptAs};
ghost use Rattle.cc2_rustc.specs.RustcParts.{settings_of, wrapped_by};

use cc2_base::files::Files;
use cc2_base::path::{join, parent};
use cc2_error::error::{NoMemory, Result};
use cc2_error::path_and_args::PathAndArgs;
use std::alloc::Global;

/// What the command for rustc is made of.
#[derive(Clone, Copy)]
pub struct Parts<'a> {
    /// The command that the caller chose.
    pub chosen: Option<&'a PathAndArgs>,
    /// [`build.rustc`](https://doc.rust-lang.org/cargo/reference/config.html#buildrustc).
    pub rustc: Option<&'a str>,
    /// [`build.rustc-wrapper`](https://doc.rust-lang.org/cargo/reference/config.html#buildrustc-wrapper).
    pub wrapper: Option<&'a str>,
    /// [`build.rustc-workspace-wrapper`](https://doc.rust-lang.org/cargo/reference/config.html#buildrustc-workspace-wrapper).
    pub workspace_wrapper: Option<&'a str>,
    /// The program of Cargo (Cargo Reference,
    /// [environment variables that Cargo sets for subcommands](https://doc.rust-lang.org/cargo/reference/environment-variables.html#environment-variables-cargo-sets-for-3rd-party-subcommands)).
    pub cargo: &'a str,
}

/// The command that was chosen; else the wrapper, the workspace wrapper and rustc, as many as there
/// are, the first as program and the others as its arguments. Without `build.rustc` rustc is the one
/// beside Cargo, where that is there, else `rustc`.
///
/// # Errors
/// `ErrorKind::Memory` where memory ran out.
pub(crate) fn rustc_command<F: Files>(
    alloc: Global,
    parts: &Parts<'_>,
    files: &F,
) -> Result<PathAndArgs>
    ensures told { WhereTold (F.told files.now) (λ fs. IfOk result (λ command.
        command_of command ≡ rustc_command (is_there fs) (settings_of parts.now))) }
    ensures refused { IfErr result IsWantOfMemory }
{
    match parts.chosen {
        Some(command) => Ok(command.try_clone(alloc)?),
        None => {
            let command = found_command(alloc, parts, files)?;
            let command = in_wrapper(alloc, parts.workspace_wrapper, command)?;
            Ok(in_wrapper(alloc, parts.wrapper, command)?)
        }
    }
}

/// The same for asking rustc's version: without the workspace wrapper.
///
/// # Errors
/// `ErrorKind::Memory` where memory ran out.
pub(crate) fn rustc_command_for_versions<F: Files>(
    alloc: Global,
    parts: &Parts<'_>,
    files: &F,
) -> Result<PathAndArgs>
    ensures told { WhereTold (F.told files.now) (λ fs. IfOk result (λ command.
        command_of command ≡ rustc_command_for_versions (is_there fs) (settings_of parts.now))) }
    ensures refused { IfErr result IsWantOfMemory }
{
    let parts = Parts {
        workspace_wrapper: None,
        ..*parts
    };
    rustc_command(alloc, &parts, files)
}

/// Finds the command for rustc, where none is kept yet, and keeps it (Cargo Reference,
/// Configuration,
/// [`build.rustc`](https://doc.rust-lang.org/cargo/reference/config.html#buildrustc),
/// [`build.rustc-wrapper`](https://doc.rust-lang.org/cargo/reference/config.html#buildrustc-wrapper)
/// and
/// [`build.rustc-workspace-wrapper`](https://doc.rust-lang.org/cargo/reference/config.html#buildrustc-workspace-wrapper)).
/// What is kept stays, and then no file is asked.
///
/// # Errors
/// `ErrorKind::Memory` where memory ran out; nothing is then kept, as before.
pub fn find_rustc<F: Files>(
    alloc: Global,
    parts: &Parts<'_>,
    files: &F,
    kept: &mut Option<PathAndArgs>,
) -> Result<()>
    ensures found { WhereTold (F.told files.now) (λ fs. kept.old ≡ None → OnOk result
        (option_map command_of kept.new
        ≡ Some (rustc_command (is_there fs) (settings_of parts.now)))) }
    ensures agrees { WhereTold (F.told files.now) (λ fs.
        IsKeptAs kept.old (rustc_command (is_there fs) (settings_of parts.now))
        → IsKeptAs kept.new (rustc_command (is_there fs) (settings_of parts.now))) }
    ensures keeps { IsSome kept.old → kept.new ≡ kept.old }
    ensures succeeds { IsSome kept.old → IsOk result }
    ensures some { OnOk result (IsSome kept.new) }
    ensures same { OnErr result (kept.new ≡ kept.old) }
    ensures refused { IfErr result IsWantOfMemory }
{
    if kept.is_none() {
        *kept = Some(rustc_command(alloc, parts, files)?);
    }
    Ok(())
}

// rustc without wrappers.
fn found_command<F: Files>(alloc: Global, parts: &Parts<'_>, files: &F) -> Result<PathAndArgs>
    ensures told { WhereTold (F.told files.now) (λ fs. IfOk result (λ command. command_of command
        ≡ bare_command
        (rustc_program (is_there fs) (option_copied parts.now.rustc) parts.now.cargo.now))) }
    ensures refused { IfErr result IsWantOfMemory }
{
    let program = match parts.rustc {
        Some(program) => String::from_str(alloc, program)?,
        None => found_program(alloc, parts.cargo, files)?,
    };
    Ok(PathAndArgs::new(alloc, program))
}

// The rustc beside Cargo, where that is there, else the one that the system finds.
fn found_program<F: Files>(alloc: Global, cargo: &str, files: &F) -> Result<String>
    ensures told { WhereTold (F.told files.now) (λ fs. IfOk result (λ program.
        string_bytes program ≡ rustc_program (is_there fs) None cargo.now)) }
    ensures refused { IfErr result IsWantOfMemory }
{
    let beside = beside_cargo(alloc, cargo)?;
    if files.exists(beside.as_str())? {
        Ok(beside)
    } else {
        Ok(String::from_str(alloc, "rustc")?)
    }
}

/// The path of rustc in the folder of the program Cargo. Without `build.rustc` it is asked whether rustc is there.
///
/// # Errors
/// `NoMemory` if memory runs out.
pub fn beside_cargo(alloc: Global, cargo: &str) -> std::result::Result<String, NoMemory>
    ensures { IfOk result (λ path. string_bytes path ≡ beside_cargo cargo.now) }
{
    let folder = match parent(cargo) {
        Some(folder) => folder,
        None => cargo,
    };
    join(alloc, folder, "rustc")
}

// The command behind a wrapper, where there is one.
fn in_wrapper(
    alloc: Global,
    wrapper: Option<&str>,
    command: PathAndArgs,
) -> std::result::Result<PathAndArgs, NoMemory>
    ensures { IfOk result (λ c.
        command_of c ≡ wrapped_by (option_copied wrapper.entry) (command_of command)) }
{
    let Some(wrapper) = wrapper else {
        return Ok(command);
    };
    let path = String::from_str(alloc, wrapper)?;
    let PathAndArgs {
        path: program,
        mut args,
    } = command;
    args.insert(0, program)?;
    Ok(PathAndArgs { path, args })
}
