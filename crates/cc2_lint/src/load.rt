//! The reports of a file as a whole: of its name, and of why it doesn't load.
ghost use Rattle.std.specs.Prelude.{◌≡◌, [], IfOk, OnOk, codes, eqb};
ghost use Rattle.std.specs.List.{ends_with};
ghost use Rattle.cc2_base.specs.Told.{WhereTold};
ghost use Rattle.cc2_reports.specs.declared.lint.Lint.TheVariants as lint;
ghost use Rattle.cc2_lint.specs.Subjects.{Appends, fault_subject, load_subjects, name_subjects};
ghost use Rattle.cc2_reports.specs.Problems.{subject_at, IsAbout};

use cc2_base::files::Files;
use cc2_error::error::NoMemory;
use cc2_findings::{FileFault, FileFindings, TomlFault};
use cc2_reports::{Lint, Report, is_short};
use std::alloc::Global;

/// Appends the report of a file that has the name `config`.
///
/// # Errors
/// `NoMemory` where memory ran out.
pub fn push_name<F: Files>(
    reports: &mut Vec<Report>,
    alloc: Global,
    name: &str,
    files: &F,
) -> Result<(), NoMemory>
    ensures { WhereTold (F.told files.now) (λ fs.
        OnOk result (Appends reports.old.items (name_subjects name.now fs) reports.new.items)) }
{
    if !is_old_name(name) {
        return Ok(());
    }
    let beside = format!(in alloc; "{name}.toml")?;
    if files.exists(beside.as_str())? {
        let message = "this file is read instead of the `config.toml` in its directory";
        let message = String::from_str(alloc, message)?;
        reports.push(Report::new(alloc, name, Lint::ShadowedFile, message)?)?;
    } else {
        let message = String::from_str(alloc, "this file should be called `config.toml`")?;
        reports.push(Report::new(alloc, name, Lint::OldFileName, message)?)?;
    }
    Ok(())
}

// Whether the file is called `config`.
fn is_old_name(name: &str) -> bool
    ensures { result ≡ ends_with eqb name.now (codes "/config") }
{
    name.ends_with("/config")
}

/// Appends the report of why a file doesn't load. If there are reports of its values, they say more: the file's error is
/// that of one of them.
///
/// # Errors
/// `NoMemory` where memory ran out.
pub fn push_fault(
    reports: &mut Vec<Report>,
    alloc: Global,
    name: &str,
    found: &FileFindings,
    text: &str,
) -> Result<(), NoMemory>
    ensures { OnOk result (Appends reports.old.items
        (load_subjects name.now found.now.fault found.now.values.items)
        reports.new.items) }
{
    let Some(fault) = &found.fault else {
        return Ok(());
    };
    if found.values.is_empty() {
        reports.push(fault_report(alloc, name, fault, text)?)?;
    }
    Ok(())
}

// The report of why a file doesn't load.
fn fault_report(
    alloc: Global,
    name: &str,
    fault: &FileFault,
    text: &str,
) -> Result<Report, NoMemory>
    ensures { IfOk result (IsAbout (fault_subject name.now fault.now)) }
{
    match fault {
        FileFault::Unreadable => {
            let message = String::from_str(alloc, "this file can't be read")?;
            Report::new(alloc, name, Lint::Unreadable, message)
        }
        FileFault::NotText => {
            let message = String::from_str(alloc, "this file isn't valid UTF-8")?;
            Report::new(alloc, name, Lint::NotUtf8, message)
        }
        FileFault::NotToml(fault) => toml_report(alloc, name, fault, text),
        FileFault::BadValue(error) => {
            let message = format!(in alloc; "{error}")?;
            Report::new(alloc, name, Lint::BadValue, message)
        }
    }
}

// The report of a file that isn't valid TOML, at the piece that is wrong.
fn toml_report(alloc: Global, name: &str, fault: &TomlFault, text: &str) -> Result<Report, NoMemory>
    ensures { IfOk result (IsAbout (subject_at name.now lint.InvalidToml [])) }
{
    let piece = text.get(fault.start..fault.end).unwrap_or("");
    let key = key_in(piece);
    let is_key = fault.message.as_str() == "duplicate key" && is_short(key);
    let (message, end) = if is_key && piece.starts_with('[') {
        (format!(in alloc; "duplicate key `{key}`")?, fault.end)
    } else if is_key {
        let end = fault.start.saturating_add(key.len());
        (format!(in alloc; "duplicate key `{key}`")?, end)
    } else {
        (String::from_str(alloc, fault.message.as_str())?, fault.end)
    };
    let length = end.saturating_sub(fault.start);
    Ok(Report::new(alloc, name, Lint::InvalidToml, message)?.at_bytes(fault.start, length))
}

// The key with which a piece of a text begins, or that of a header.
fn key_in(piece: &str) -> &str {
    if piece.starts_with('[') {
        return piece.trim_start_matches('[').trim_end_matches(']').trim();
    }
    piece.get(..key_length(piece)).unwrap_or(piece).trim_end()
}

// How many bytes there are before the first `=` outside of quotes.
fn key_length(piece: &str) -> usize {
    let mut quote = None;
    for (at, byte) in piece.as_bytes().iter().enumerate() {
        match quote {
            Some(open) if open == *byte => quote = None,
            Some(_) => (),
            None if *byte == b'=' => return at,
            None if *byte == b'"' || *byte == b'\'' => quote = Some(*byte),
            None => (),
        }
    }
    piece.len()
}
