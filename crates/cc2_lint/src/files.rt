//! The reports of a file.
ghost use Rattle.std.specs.Prelude.{◌≡◌, ◌++◌, ◌&&◌, All, IfOk, OnOk, flat_map, map, take, option_map, string_bytes};
ghost use Rattle.cc2_base.specs.Told.{Tree, WhereTold};
ghost use Rattle.cc2_findings.specs.ClashViews.{clash_view};
ghost use Rattle.cc2_findings.specs.Dirs.{path_of};
ghost use Rattle.cc2_findings.specs.FindingViews.{finding_view};
ghost use Rattle.cc2_findings.specs.KeyFindings.{shown_fault};
ghost use Rattle.cc2_lint_settings.specs.HiddenViews.{hidden_view};
ghost use Rattle.cc2_reports.specs.Positions.{IsPlaced};
ghost use Rattle.cc2_reports.specs.Problems.{subjects_of};
ghost use Rattle.cc2_lint_settings.specs.Views.{table_of};
ghost use Rattle.cc2_lint.specs.Accepted.{is_accepted};
ghost use Rattle.cc2_lint.specs.Files.{all_subjects, checked_in, findings_of, is_in_home, AreReportsOf, IsFileText, subjects_beside};
ghost use Rattle.cc2_lint.specs.Subjects.{Appends, clash_subject, finding_subjects, has_token, hidden_subject, is_of_token, key_subject, unresolved_subject, value_subject};
ghost use Rattle.cc2_lint.specs.Worlds.{WhereSeen};

use crate::accepted::reason_of;
use crate::at_keys::{finding_report, key_report, readable_token_report};
use crate::between_files::{clash_report, hidden_report};
use crate::load::{push_fault, push_name};
use crate::permissions::Permissions;
use crate::rivals::{Rivals, nth_list, push_rivals};
use crate::values::{unresolved_report, value_report};
use cc2_base::files::Files;
use cc2_base::path;
use cc2_error::error::NoMemory;
use cc2_findings::{Clash, Finding, Kind, LintedFile, ValueFault, clashes};
use cc2_lint_settings::{HiddenKey, unresolved_values};
use cc2_reports::{Report, Source, placed, sort};
use std::alloc::Global;

/// Files that are checked together, and what surrounds them.
#[derive(Clone, Copy)]
pub struct Check<'a> {
    /// The directory from which relative values are resolved.
    pub dir: &'a str,
    /// The files, the nearest first.
    pub linted: &'a [LintedFile],
    /// Of each file the keys that variables override.
    pub hidden: &'a [Vec<HiddenKey>],
    /// For each target the keys that match it beside another one.
    pub rivals: &'a [Rivals<'a>],
    /// The cargo home, if it is known.
    pub home: &'a Option<String>,
}

// What is wrong at a file's keys because of what surrounds it: the directories above it, the other files and the
// variables.
#[derive(Drop)]
struct Beside<'a> {
    unresolved: Vec<ValueFault>,
    clashes: Vec<Clash>,
    hidden: &'a [HiddenKey],
}

/// The reports of a file, which is the one of this number among those that are checked, in the order of its lines.
///
/// # Errors
/// `NoMemory` where memory ran out.
pub fn file_reports<F: Files, R: Permissions>(
    alloc: Global,
    check: &Check<'_>,
    number: usize,
    file: &LintedFile,
    files: &F,
    permissions: &R,
) -> Result<Vec<Report>, NoMemory>
    ensures { WhereSeen (F.told files.now) (R.told permissions.now) (λ fs is_open.
        IfOk result (λ reports.
        AreReportsOf (checked_in fs is_open check.now) number file.now reports.items)) }
{
    let nearer = first_of(check.linted, number);
    let beside = Beside {
        unresolved: unresolved_values(alloc, check.dir, file.path.as_str(), &file.found.table)?,
        clashes: clashes(alloc, nearer, file)?,
        hidden: nth_list(check.hidden, number),
    };
    let text = text_of(file);
    let found = found_reports(
        alloc,
        check,
        number,
        file,
        text,
        &beside,
        files,
        permissions,
    )?;
    let mut reports = located(alloc, found, text, &file.found.table)?;
    sort(&mut reports)?;
    Ok(reports)
}

// The text of a file; empty where it isn't UTF-8.
fn text_of(file: &LintedFile) -> &str
    ensures { IsFileText file.now result.now }
{
    match std::str::from_utf8(file.content.as_slice()) {
        Ok(text) => text,
        Err(_) => "",
    }
}

// The same reports with their positions in the text of a file.
fn located(
    alloc: Global,
    reports: Vec<Report>,
    text: &str,
    table: &toml::Table,
) -> Result<Vec<Report>, NoMemory>
    ensures same { IfOk result (λ located. subjects_of located.items ≡ subjects_of reports.items) }
    ensures placed { IfOk result (λ located. All (IsPlaced text.now) located.items) }
{
    if reports.is_empty() {
        return Ok(reports);
    }
    let source = Source::of_table(alloc, text, table)?;
    placed(alloc, reports, &source)
}

// So many of the files, from the first on; all if there are fewer.
fn first_of(files: &[LintedFile], number: usize) -> &[LintedFile]
    ensures { result.now ≡ take number files.now }
{
    match files.get(..number) {
        Some(first) => first,
        None => files,
    }
}

// The same as they are found.
fn found_reports<F: Files, R: Permissions>(
    alloc: Global,
    check: &Check<'_>,
    number: usize,
    file: &LintedFile,
    text: &str,
    beside: &Beside<'_>,
    files: &F,
    permissions: &R,
) -> Result<Vec<Report>, NoMemory>
    ensures { WhereSeen (F.told files.now) (R.told permissions.now) (λ fs is_open.
        IfOk result (λ reports. subjects_of reports.items
        ≡ all_subjects (checked_in fs is_open check.now) number file.now beside.now)) }
{
    let name = file.path.as_str();
    let mut reports = Vec::new(alloc);
    push_name(&mut reports, alloc, name, files)?;
    push_fault(&mut reports, alloc, name, &file.found, text)?;
    push_at_keys(
        &mut reports,
        alloc,
        check,
        number,
        file,
        beside,
        permissions,
    )?;
    Ok(reports)
}

// Appends the reports of what is wrong at a file's keys.
fn push_at_keys<R: Permissions>(
    reports: &mut Vec<Report>,
    alloc: Global,
    check: &Check<'_>,
    number: usize,
    file: &LintedFile,
    beside: &Beside<'_>,
    permissions: &R,
) -> Result<(), NoMemory>
    ensures { (fs : Tree) → WhereTold (R.told permissions.now) (λ is_open.
        OnOk result (Appends reports.old.items
        (subjects_beside (checked_in fs is_open check.now) number file.now beside.now)
        reports.new.items)) }
{
    push_findings(reports, alloc, check, file, permissions)?;
    push_keys(reports, alloc, file)?;
    let clashes = beside.clashes.as_slice();
    push_values(reports, alloc, file, clashes, check.linted)?;
    push_unresolved(reports, alloc, file, beside.unresolved.as_slice())?;
    push_clashes(reports, alloc, file, clashes)?;
    push_hidden(reports, alloc, file, beside.hidden)?;
    push_rivals(reports, alloc, file.path.as_str(), check.rivals, number)
}

// Appends the reports of what is found at a file's keys.
fn push_findings<R: Permissions>(
    reports: &mut Vec<Report>,
    alloc: Global,
    check: &Check<'_>,
    file: &LintedFile,
    permissions: &R,
) -> Result<(), NoMemory>
    ensures { WhereTold (R.told permissions.now) (λ is_open.
        OnOk result (Appends reports.old.items
        (flat_map (finding_subjects (path_of file.now)
        (has_token (findings_of file.now) && is_open (path_of file.now))
        (is_in_home (path_of file.now) (option_map string_bytes check.now.home.now)))
        (findings_of file.now))
        reports.new.items)) }
{
    let name = file.path.as_str();
    let is_open = has_token(file.found.findings.as_slice()) && permissions.others_read(name)?;
    let is_home = is_in_home(name, check.home);
    for finding in &file.found.findings {
        push_finding(reports, alloc, file, finding, is_open, is_home)?;
    }
    Ok(())
}

// Appends the reports of a finding. A token is reported where others can read the file, and where it isn't the cargo
// home's.
fn push_finding(
    reports: &mut Vec<Report>,
    alloc: Global,
    file: &LintedFile,
    finding: &Finding<Kind>,
    is_open: bool,
    is_home: bool,
) -> Result<(), NoMemory>
    ensures { OnOk result (Appends reports.old.items
        (finding_subjects (path_of file.now) is_open is_home (finding_view finding.now))
        reports.new.items) }
{
    let name = file.path.as_str();
    let is_of_token = is_of_token(finding.kind);
    if is_of_token && is_open {
        let path = finding.path.as_slice();
        reports.push(readable_token_report(alloc, name, path)?)?;
    }
    if !(is_of_token && is_home) {
        reports.push(finding_report(alloc, name, finding, &file.found.table)?)?;
    }
    Ok(())
}

fn has_token(findings: &[Finding<Kind>]) -> bool
    ensures { result ≡ has_token (map finding_view findings.now) }
{
    for finding in findings {
        if is_of_token(finding.kind) {
            return true;
        }
    }
    false
}

fn is_of_token(kind: Kind) -> bool
    ensures { result ≡ is_of_token kind }
{
    match kind {
        Kind::Token => true,
        _ => false,
    }
}

// Whether the file is in the cargo home.
fn is_in_home(file: &str, home: &Option<String>) -> bool
    ensures { result ≡ is_in_home file.now (option_map string_bytes home.now) }
{
    match (path::parent(file), home) {
        (Some(folder), Some(home)) => path::same(folder, home.as_str()),
        _ => false,
    }
}

// Appends the reports of what is wrong with the keys of its table `target`.
fn push_keys(reports: &mut Vec<Report>, alloc: Global, file: &LintedFile) -> Result<(), NoMemory>
    ensures { OnOk result (Appends reports.old.items
        (map (λ k. key_subject (path_of file.now) (shown_fault k)) file.now.found.keys.items)
        reports.new.items) }
{
    for finding in &file.found.keys {
        reports.push(key_report(alloc, file.path.as_str(), finding)?)?;
    }
    Ok(())
}

// Appends the reports of its values that a load refuses.
fn push_values(
    reports: &mut Vec<Report>,
    alloc: Global,
    file: &LintedFile,
    clashes: &[Clash],
    files: &[LintedFile],
) -> Result<(), NoMemory>
    ensures { OnOk result (Appends reports.old.items
        (map (value_subject (path_of file.now)
        (is_accepted (table_of file.now) (map table_of files.now) (map clash_view clashes.now)))
        file.now.found.values.items)
        reports.new.items) }
{
    let table = &file.found.table;
    for fault in &file.found.values {
        let accepted = reason_of(fault, table, clashes, files);
        let name = file.path.as_str();
        reports.push(value_report(alloc, name, fault, accepted, table)?)?;
    }
    Ok(())
}

// Appends the reports of its values that can't be resolved.
fn push_unresolved(
    reports: &mut Vec<Report>,
    alloc: Global,
    file: &LintedFile,
    unresolved: &[ValueFault],
) -> Result<(), NoMemory>
    ensures { OnOk result (Appends reports.old.items
        (map (unresolved_subject (path_of file.now)) unresolved.now)
        reports.new.items) }
{
    for fault in unresolved {
        reports.push(unresolved_report(alloc, file.path.as_str(), fault)?)?;
    }
    Ok(())
}

// Appends the reports of its keys that nearer files set too.
fn push_clashes(
    reports: &mut Vec<Report>,
    alloc: Global,
    file: &LintedFile,
    clashes: &[Clash],
) -> Result<(), NoMemory>
    ensures { OnOk result (Appends reports.old.items
        (map (clash_subject (path_of file.now)) (map clash_view clashes.now))
        reports.new.items) }
{
    for clash in clashes {
        reports.push(clash_report(alloc, file.path.as_str(), clash)?)?;
    }
    Ok(())
}

// Appends the reports of its keys that variables override.
fn push_hidden(
    reports: &mut Vec<Report>,
    alloc: Global,
    file: &LintedFile,
    hidden: &[HiddenKey],
) -> Result<(), NoMemory>
    ensures { OnOk result (Appends reports.old.items
        (map (hidden_subject (path_of file.now)) (map hidden_view hidden.now))
        reports.new.items) }
{
    for key in hidden {
        let name = file.path.as_str();
        reports.push(hidden_report(alloc, name, key, &file.found.table)?)?;
    }
    Ok(())
}
