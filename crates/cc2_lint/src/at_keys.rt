//! The reports of what is wrong at a file's keys.
ghost use Rattle.std.specs.Prelude.{◌≡◌, IfOk, map, string_bytes};
ghost use Rattle.cc2_findings.specs.FindingViews.{finding_view};
ghost use Rattle.cc2_findings.specs.KeyFindings.{shown_fault};
ghost use Rattle.cc2_reports.specs.declared.lint.Lint.TheVariants as lint;
ghost use Rattle.cc2_lint.specs.Subjects.{finding_subject, key_subject, lint_for, whole_keys};
ghost use Rattle.cc2_reports.specs.Problems.{subject_at, IsAbout};

use crate::messages::{help_of, lint_for, message_of};
use cc2_error::ParseError;
use cc2_error::error::NoMemory;
use cc2_findings::{CfgFinding, Finding, KeyFault, Kind, nearest_key};
use cc2_reports::{Lint, Part, Report, copied, dotted};
use std::alloc::Global;

/// The report of a token in a file that others can read.
///
/// # Errors
/// `NoMemory` where memory ran out.
pub fn readable_token_report(alloc: Global, file: &str, path: &[String]) -> Result<Report, NoMemory>
    ensures { IfOk result (IsAbout
        (subject_at file.now lint.ReadableToken (map string_bytes path.now))) }
{
    let path = copied(alloc, path)?;
    let message = String::from_str(alloc, "other users can read this token")?;
    Report::new(alloc, file, Lint::ReadableToken, message)?
        .at_key(path)
        .with_help(
            alloc,
            "`chmod 600` makes the file readable by its owner alone",
        )
}

/// The report of a finding at a key of a file's table.
///
/// # Errors
/// `NoMemory` where memory ran out.
pub fn finding_report(
    alloc: Global,
    file: &str,
    finding: &Finding<Kind>,
    table: &toml::Table,
) -> Result<Report, NoMemory>
    ensures { IfOk result (IsAbout (finding_subject file.now (finding_view finding.now))) }
{
    let path = copied(alloc, finding.path.as_slice())?;
    match finding.kind {
        Kind::UnknownKey => unknown_report(alloc, file, path),
        kind => known_report(alloc, file, path, kind, table),
    }
}

// The report of any other finding.
fn known_report(
    alloc: Global,
    file: &str,
    path: Vec<String>,
    kind: Kind,
    table: &toml::Table,
) -> Result<Report, NoMemory>
    ensures { IfOk result (IsAbout
        (subject_at file.now (lint_for (map string_bytes path.items) kind)
        (whole_keys (map string_bytes path.items) kind))) }
{
    let lint = lint_for(path.as_slice(), kind);
    let path = whole_path(alloc, path, kind)?;
    let message = message_of(alloc, path.as_slice(), lint, kind, table)?;
    let report = Report::new(alloc, file, lint, message)?;
    let report = if is_of_value(kind) {
        report.at_value(path)
    } else {
        report.at_key(path)
    };
    match help_of(lint) {
        "" => Ok(report),
        help => report.with_help(alloc, help),
    }
}

// Whether the value is what is wrong, and not the key.
fn is_of_value(kind: Kind) -> bool {
    match kind {
        Kind::ZeroJobs
        | Kind::EmptyDirectory
        | Kind::BadTemplate
        | Kind::EmptyWrapper
        | Kind::JsonTarget
        | Kind::TextInclude => true,
        _ => false,
    }
}

// The path of what is wrong, where that is below the key at which it is found.
fn whole_path(alloc: Global, path: Vec<String>, kind: Kind) -> Result<Vec<String>, NoMemory>
    ensures { IfOk result (λ whole. map string_bytes whole.items
        ≡ whole_keys (map string_bytes path.items) kind) }
{
    let mut path = path;
    match kind {
        Kind::QuietAndVerbose => path.push(String::from_str(alloc, "quiet")?)?,
        Kind::IgnoredDocFlags => path.push(String::from_str(alloc, "rustdocflags")?)?,
        _ => (),
    }
    Ok(path)
}

// The report of an unknown key.
fn unknown_report(alloc: Global, file: &str, path: Vec<String>) -> Result<Report, NoMemory>
    ensures { IfOk result (IsAbout
        (subject_at file.now lint.UnknownKey (map string_bytes path.items))) }
{
    let shown = dotted(alloc, path.as_slice())?;
    let key = shown.as_str();
    let message = format!(in alloc; "unknown key `{key}`")?;
    let near = nearest_key(alloc, path.as_slice())?;
    let report = Report::new(alloc, file, Lint::UnknownKey, message)?.at_key(path);
    match near {
        Some(near) => {
            let help = format!(in alloc; "did you mean `{near}`?")?;
            report.with_help(alloc, help.as_str())
        }
        None => Ok(report),
    }
}

/// The report of a finding at a key of `target`.
///
/// # Errors
/// `NoMemory` where memory ran out.
pub fn key_report(alloc: Global, file: &str, finding: &CfgFinding) -> Result<Report, NoMemory>
    ensures { IfOk result (IsAbout (key_subject file.now (shown_fault finding.now))) }
{
    let mut path = Vec::new(alloc);
    path.push(String::from_str(alloc, "target")?)?;
    path.push(String::from_str(alloc, finding.key.as_str())?)?;
    match &finding.fault {
        KeyFault::NoExpression(error) => bad_key_report(alloc, file, path, error),
        KeyFault::NeverHolds => {
            let message = String::from_str(alloc, "this `cfg(..)` matches no target")?;
            Report::new(alloc, file, Lint::NeverMatches, message)?
                .at_key(path)
                .with_help(alloc, "the table is never used")
        }
        KeyFault::DebugAssertions => {
            let message = String::from_str(alloc, "this `cfg(..)` asks for `debug_assertions`")?;
            Report::new(alloc, file, Lint::DebugAssertions, message)?
                .at_key(path)
                .with_help(
                    alloc,
                    "Cargo takes it as true; this library and cargo-config2 0.1.45 take it as false",
                )
        }
    }
}

// The report of a key that isn't a cfg expression, at the piece of it that is wrong.
fn bad_key_report(
    alloc: Global,
    file: &str,
    path: Vec<String>,
    error: &ParseError,
) -> Result<Report, NoMemory>
    ensures { IfOk result (IsAbout
        (subject_at file.now lint.InvalidCfg (map string_bytes path.items))) }
{
    let reason = error.reason;
    let message = format!(in alloc; "invalid cfg expression: {reason}")?;
    let part = part_of(path.as_slice(), error);
    Report::new(alloc, file, Lint::InvalidCfg, message)?
        .about(path, part)
        .with_help(
            alloc,
            "Cargo ignores the table; this library and cargo-config2 0.1.45 refuse it for every target",
        )
}

// The part of the last key that is wrong.
fn part_of(path: &[String], error: &ParseError) -> Part {
    let key = match path.last() {
        Some(key) => key.as_str(),
        None => "",
    };
    match key.find(error.original.as_str()) {
        Some(before) => Part::PartOfKey {
            offset: error.span.start.saturating_add(before),
            length: error.span.end.saturating_sub(error.span.start),
        },
        None => Part::Key,
    }
}
