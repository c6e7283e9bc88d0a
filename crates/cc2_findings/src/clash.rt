//! What a file sets, and a nearer one too.
ghost use Rattle.std.specs.Prelude.{◌≡◌, ◌++◌, map, flat_map, option_map, string_bytes, IfOk, OnOk};
ghost use Rattle.toml.specs.View.{table_view};
ghost use Rattle.cc2_findings.specs.Clashes.{clashes_of, clash_at, clash_by, first_set, is_told};
ghost use Rattle.cc2_findings.specs.ClashViews.{clash_view, file_view, near_view};
ghost use Rattle.cc2_findings.specs.FindingViews.{finding_view};

use crate::dir::LintedFile;
use crate::finding::{Finding, table_findings};
use crate::form::{Form, form_of};
use cc2_error::error::NoMemory;
use std::alloc::Global;

/// A key that a file sets, and a nearer one too: the file's value isn't used, or the two can't be joined.
#[derive(Debug, Drop)]
pub struct Clash {
    /// The keys that lead to it.
    pub path: Vec<String>,
    /// What the file sets it to.
    pub form: Form,
    /// The nearest file that sets it.
    pub file: String,
    /// What that file sets it to.
    pub nearer: Form,
}

/// The keys of a file that clash with what nearer files set, in the order of its tables; each with the nearest of
/// these files. A value that isn't joined clashes with one of its form, and any two of other forms clash.
///
/// # Errors
/// `NoMemory` where memory ran out.
pub fn clashes(
    alloc: Global,
    nearer: &[LintedFile],
    file: &LintedFile,
) -> Result<Vec<Clash>, NoMemory>
    ensures { IfOk result (λ found.
        map clash_view found.items
        ≡ clashes_of (map file_view nearer.now) (table_view file.now.found.table)) }
{
    if nearer.is_empty() {
        return Ok(Vec::new(alloc));
    }
    let settings = table_findings(alloc, &file.found.table)?;
    clashes_among(alloc, nearer, settings)
}

// Those of these settings that clash.
fn clashes_among(
    alloc: Global,
    nearer: &[LintedFile],
    settings: Vec<Finding<Form>>,
) -> Result<Vec<Clash>, NoMemory>
    ensures { IfOk result (λ found. map clash_view found.items
        ≡ flat_map (clash_at (map file_view nearer.now)) (map finding_view settings.items)) }
{
    let mut found = Vec::new(alloc);
    for setting in settings {
        let near = first_set(setting.path.as_slice(), nearer);
        push_clash(&mut found, alloc, setting, near)?;
    }
    Ok(found)
}

// Appends a setting to the others, where it clashes with the nearest one.
fn push_clash(
    found: &mut Vec<Clash>,
    alloc: Global,
    setting: Finding<Form>,
    near: Option<Near<'_>>,
) -> Result<(), NoMemory>
    ensures { OnOk result (map clash_view found.new.items
        ≡ map clash_view found.old.items
        ++ clash_by (finding_view setting) (option_map near_view near.entry)) }
{
    let Some(near) = near else {
        return Ok(());
    };
    if is_told(near.form, setting.kind) {
        let file = String::from_str(alloc, near.file)?;
        found.push(Clash {
            path: setting.path,
            form: setting.kind,
            file,
            nearer: near.form,
        })?;
    }
    Ok(())
}

// What the nearest file that sets a key sets it to.
#[derive(Clone, Copy, Debug)]
struct Near<'a> {
    file: &'a str,
    form: Form,
}

// The first of the files that sets the key of a path.
fn first_set<'a>(path: &[String], files: &'a [LintedFile]) -> Option<Near<'a>>
    ensures { option_map near_view result
        ≡ first_set (map string_bytes path.now) (map file_view files.now) }
{
    for file in files {
        if let Some(form) = form_of(path, &file.found.table) {
            return Some(Near {
                file: file.path.as_str(),
                form,
            });
        }
    }
    None
}

// Whether it is reported that a nearer file sets a key so, and a farther one so.
fn is_told(nearer: Form, farther: Form) -> bool
    ensures { result ≡ is_told nearer farther }
{
    match (nearer, farther) {
        (Form::List, Form::List) | (Form::Table, Form::Table) => false,
        _ => true,
    }
}
