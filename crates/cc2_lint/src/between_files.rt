//! The reports of keys that other files or variables set too.
ghost use Rattle.std.specs.Prelude.{◌≡◌, IfOk};
ghost use Rattle.cc2_findings.specs.ClashViews.{clash_view};
ghost use Rattle.cc2_lint_settings.specs.HiddenViews.{hidden_view};
ghost use Rattle.cc2_lint.specs.Subjects.{clash_subject, hidden_subject};
ghost use Rattle.cc2_reports.specs.Problems.{IsAbout};

use crate::accepted::are_same;
use cc2_error::error::NoMemory;
use cc2_findings::{Clash, Form};
use cc2_lint_settings::HiddenKey;
use cc2_reports::{Lint, Report, copied, dotted};
use std::alloc::Global;

/// The report of a key that a nearer file sets too.
///
/// # Errors
/// `NoMemory` where memory ran out.
pub fn clash_report(alloc: Global, file: &str, clash: &Clash) -> Result<Report, NoMemory>
    ensures { IfOk result (IsAbout (clash_subject file.now (clash_view clash.now))) }
{
    let shown = dotted(alloc, clash.path.as_slice())?;
    let key = shown.as_str();
    let nearer = clash.file.as_str();
    let path = copied(alloc, clash.path.as_slice())?;
    if are_same(clash.form, clash.nearer) {
        let message = format!(in alloc; "`{key}` is overridden by {nearer}")?;
        return Ok(Report::new(alloc, file, Lint::Overridden, message)?.at_key(path));
    }
    let here = form_name(clash.form);
    let there = form_name(clash.nearer);
    let message = format!(in alloc; "`{key}` is {here} here and {there} in {nearer}")?;
    Report::new(alloc, file, Lint::MixedTypes, message)?
        .at_key(path)
        .with_help(alloc, "Cargo refuses to merge them")
}

fn form_name(form: Form) -> &'static str {
    match form {
        Form::Single => "a single value",
        Form::Text => "a string",
        Form::List => "an array",
        Form::Table => "a table",
    }
}

/// The report of a key whose setting a variable sets.
///
/// # Errors
/// `NoMemory` where memory ran out.
pub fn hidden_report(
    alloc: Global,
    file: &str,
    hidden: &HiddenKey,
    table: &toml::Table,
) -> Result<Report, NoMemory>
    ensures { IfOk result (IsAbout (hidden_subject file.now (hidden_view hidden.now))) }
{
    let shown = dotted(alloc, hidden.path.as_slice())?;
    let key = shown.as_str();
    let variable = hidden.variable.as_str();
    let message = format!(in alloc;
        "`{key}` is overridden by the environment variable `{variable}`"
    )?;
    let is_joined = is_joined(hidden.path.as_slice(), variable, table);
    let path = copied(alloc, hidden.path.as_slice())?;
    let report = Report::new(alloc, file, Lint::OverriddenByVariable, message)?.at_key(path);
    if is_joined {
        report.with_help(
            alloc,
            "Cargo appends the variable's value; this library and cargo-config2 0.1.45 use it alone",
        )
    } else {
        Ok(report)
    }
}

// Whether Cargo joins what the variable sets with what the file has there.
fn is_joined(path: &[String], variable: &str, table: &toml::Table) -> bool {
    let [section, key] = path else {
        return false;
    };
    if section.as_str() != "build" {
        return false;
    }
    match key.as_str() {
        "rustflags" => variable == "CARGO_BUILD_RUSTFLAGS",
        "rustdocflags" => variable == "CARGO_BUILD_RUSTDOCFLAGS",
        "target" => variable == "CARGO_BUILD_TARGET" && is_array(section, key, table),
        _ => false,
    }
}

fn is_array(section: &String, key: &String, table: &toml::Table) -> bool {
    match table.get(section.as_str()) {
        Some(section) => match section.get(key.as_str()) {
            Some(value) => value.is_array(),
            None => false,
        },
        None => false,
    }
}
