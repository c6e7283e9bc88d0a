//! The reports of what cargo-config2 0.1.45 and Cargo make of the same.
ghost use Rattle.std.specs.Prelude.{◌≡◌, ◌∷◌, [], IfOk, false, map};
ghost use Rattle.std.specs.Result.{result_map_both};
ghost use Rattle.serde_json.specs.View.{view};
ghost use Rattle.serde_json.specs.Written.{has_float};
ghost use Rattle.cc2_error.specs.Causes.{refusal_of};
ghost use Rattle.cc2_reports.specs.Problems.{IsAbout, subject_at, subjects_of};
ghost use Rattle.cc2_reports.specs.declared.lint.Lint.TheVariants as lint;
ghost use Rattle.cc2_value.specs.Rows.{texts_of};
ghost use Rattle.cc2_compare.specs.Between.{AreBetween, AreOfAccepted, AreOfRefused, differing_subject, of_both, part_keys};
ghost use Rattle.cc2_compare.specs.Differences.{differences};

use crate::differences::differences;
use crate::part::Part;
use cc2_cargo_settings::owned;
use cc2_error::error::{Error, NoMemory};
use cc2_findings::no_memory_wanted;
use cc2_json::{Json, at_key};
use cc2_reports::{Lint, Report, dotted};
use std::alloc::Global;

/// What is reported of a part of a directory: at which keys both have different values, or that one alone refuses it.
///
/// # Errors
/// `NoMemory` where memory ran out.
pub(crate) fn reports_between(
    alloc: Global,
    part: Part,
    dir: &str,
    of_crate: Result<Json, Error>,
    of_cargo: Result<Json, Error>,
) -> Result<Vec<Report>, NoMemory>
    requires of_crate { IfOk of_crate (λ json. has_float (view json) ≡ false) }
    requires of_cargo { IfOk of_cargo (λ json. has_float (view json) ≡ false) }
    ensures { IfOk result (λ reports. AreBetween dir.now (part_keys part)
        (result_map_both view refusal_of of_crate) (result_map_both view refusal_of of_cargo)
        (subjects_of reports.items)) }
{
    match of_crate {
        Ok(of_crate) => accepted_by_crate(alloc, part, dir, &of_crate, of_cargo),
        Err(error) => refused_by_crate(alloc, part, dir, &error, of_cargo),
    }
}

// What is reported where cargo-config2 0.1.45 accepts it, by what Cargo makes of it.
fn accepted_by_crate(
    alloc: Global,
    part: Part,
    dir: &str,
    of_crate: &Json,
    of_cargo: Result<Json, Error>,
) -> Result<Vec<Report>, NoMemory>
    requires of_crate { has_float (view of_crate.now) ≡ false }
    requires of_cargo { IfOk of_cargo (λ json. has_float (view json) ≡ false) }
    ensures { IfOk result (λ reports. AreOfAccepted dir.now (part_keys part) (view of_crate.now)
        (result_map_both view refusal_of of_cargo) (subjects_of reports.items)) }
{
    match of_cargo {
        Ok(of_cargo) => differing(alloc, part, dir, of_crate, &of_cargo),
        Err(error) => {
            no_memory_wanted(&error)?;
            cargo_refuses(alloc, part, dir, &error, part.crate_accepts())
        }
    }
}

// The same where it refuses it.
fn refused_by_crate(
    alloc: Global,
    part: Part,
    dir: &str,
    error: &Error,
    of_cargo: Result<Json, Error>,
) -> Result<Vec<Report>, NoMemory>
    ensures { IfOk result (λ reports. AreOfRefused dir.now (part_keys part) (refusal_of error.now)
        (result_map_both view refusal_of of_cargo) (subjects_of reports.items)) }
{
    no_memory_wanted(error)?;
    match of_cargo {
        Ok(_) => only_cargo_accepts(alloc, part, dir, error),
        Err(other) => {
            no_memory_wanted(&other)?;
            both_refuse(alloc, part, dir, &other)
        }
    }
}

// The reports of the key paths at which they differ.
fn differing(
    alloc: Global,
    part: Part,
    dir: &str,
    of_crate: &Json,
    of_cargo: &Json,
) -> Result<Vec<Report>, NoMemory>
    requires of_crate { has_float (view of_crate.now) ≡ false }
    requires of_cargo { has_float (view of_cargo.now) ≡ false }
    ensures { IfOk result (λ reports. subjects_of reports.items
        ≡ map (differing_subject dir.now) (differences (view of_crate.now) (view of_cargo.now))) }
{
    let mut reports = Vec::new(alloc);
    for path in differences(alloc, of_crate, of_cargo)? {
        reports.push(difference(alloc, part, dir, path.as_slice(), of_crate, of_cargo)?)?;
    }
    Ok(reports)
}

// The report of a key path at which they differ.
fn difference(
    alloc: Global,
    part: Part,
    dir: &str,
    path: &[&str],
    of_crate: &Json,
    of_cargo: &Json,
) -> Result<Report, NoMemory>
    ensures { IfOk result (IsAbout (differing_subject dir.now (texts_of path.now))) }
{
    let keys = owned(alloc, path)?;
    let key = dotted(alloc, keys.as_slice())?;
    let key = key.as_str();
    let verb = part.verb();
    let message = match (at_key(of_crate, path, false), at_key(of_cargo, path, false)) {
        (Some(_), None) => format!(in alloc;
            "cargo-config2 0.1.45 {verb} a value for `{key}`, and Cargo {verb} none"
        )?,
        (None, _) => format!(in alloc;
            "Cargo {verb} a value for `{key}`, and cargo-config2 0.1.45 {verb} none"
        )?,
        (Some(_), Some(_)) => format!(in alloc;
            "cargo-config2 0.1.45 {verb} another value for `{key}` than Cargo"
        )?,
    };
    Report::new(alloc, dir, Lint::DiffersFromCargo, message)?
        .at_key(keys)
        .with_help(alloc, part.help())
}

// What is reported where both refuse it: of targets that Cargo does, so that they aren't compared. Of a configuration nothing is,
// since the findings of its files say why.
fn both_refuse(alloc: Global, part: Part, dir: &str, error: &Error) -> Result<Vec<Report>, NoMemory>
    ensures { IfOk result (λ reports.
        subjects_of reports.items ≡ of_both dir.now (part_keys part)) }
{
    match part {
        Part::Config => Ok(Vec::new(alloc)),
        Part::Targets => {
            let help = "cargo-config2 0.1.45 refuses them too, so they aren't compared";
            cargo_refuses(alloc, part, dir, error, help)
        }
    }
}

// The report that Cargo refuses it.
fn cargo_refuses(
    alloc: Global,
    part: Part,
    dir: &str,
    error: &Error,
    help: &str,
) -> Result<Vec<Report>, NoMemory>
    ensures { IfOk result (λ reports. subjects_of reports.items
        ≡ subject_at dir.now lint.CargoRefuses (part_keys part) ∷ []) }
{
    let reason = reason_of(alloc, error)?;
    let reason = first_line(reason.as_str());
    let name = part.name();
    let message = format!(in alloc; "Cargo refuses {name}: {reason}")?;
    let report = Report::new(alloc, dir, Lint::CargoRefuses, message)?
        .at_key(owned(alloc, part.keys())?)
        .with_help(alloc, help)?;
    alone(alloc, report)
}

// The report that Cargo alone accepts it.
fn only_cargo_accepts(
    alloc: Global,
    part: Part,
    dir: &str,
    error: &Error,
) -> Result<Vec<Report>, NoMemory>
    ensures { IfOk result (λ reports. subjects_of reports.items
        ≡ subject_at dir.now lint.CargoAccepts (part_keys part) ∷ []) }
{
    let reason = reason_of(alloc, error)?;
    let reason = first_line(reason.as_str());
    let name = part.name();
    let message = format!(in alloc; "cargo-config2 0.1.45 refuses {name}: {reason}")?;
    let report = Report::new(alloc, dir, Lint::CargoAccepts, message)?
        .at_key(owned(alloc, part.keys())?)
        .with_help(alloc, part.cargo_accepts())?;
    alone(alloc, report)
}

// An error with its cause.
fn reason_of(alloc: Global, error: &Error) -> Result<String, NoMemory> {
    match error.cause() {
        Some(cause) => Ok(format!(in alloc; "{error}: {cause}")?),
        None => Ok(format!(in alloc; "{error}")?),
    }
}

// The first line of a text.
fn first_line(text: &str) -> &str {
    match text.split_once('\n') {
        Some((first, _)) => first,
        None => text,
    }
}

// A report alone.
fn alone(alloc: Global, report: Report) -> Result<Vec<Report>, NoMemory>
    ensures { IfOk result (λ reports. reports.items ≡ report ∷ []) }
{
    let mut reports = Vec::new(alloc);
    reports.push(report)?;
    Ok(reports)
}
