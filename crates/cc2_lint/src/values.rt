//! The reports of keys with values that aren't valid.
ghost use Rattle.std.specs.Prelude.{◌≡◌, IfOk, is_some, map, string_bytes};
ghost use Rattle.cc2_lint.specs.Subjects.{unresolved_subject, value_subject};
ghost use Rattle.cc2_reports.specs.Problems.{IsAbout};

use crate::accepted::Accepted;
use cc2_cli::text::quoted;
use cc2_error::error::{Error, ErrorKind, NoMemory, ParseCause};
use cc2_findings::{ValueFault, Wanted, member, wanted_at};
use cc2_reports::{Lint, Report, copied};
use std::alloc::Global;

// A longer string isn't quoted.
const MOST_CHARACTERS: usize = 40;

/// The report of a key with a value that makes a load fail, and that Cargo may accept.
///
/// # Errors
/// `NoMemory` where memory ran out.
pub fn value_report(
    alloc: Global,
    file: &str,
    fault: &ValueFault,
    accepted: Option<Accepted>,
    table: &toml::Table,
) -> Result<Report, NoMemory>
    ensures { IfOk result (IsAbout (value_subject file.now (λ _. is_some accepted) fault.now)) }
{
    let reason = refusal_text(alloc, &fault.error, table)?;
    let path = copied(alloc, fault.path.as_slice())?;
    let below = copied(alloc, keys_below(path.as_slice(), &fault.error))?;
    match accepted {
        None => Ok(
            Report::new(alloc, file, Lint::BadValue, reason)?
                .at_value(path)
                .below(below),
        ),
        Some(accepted) => {
            let message = String::from_str(alloc, accepted.message())?;
            Report::new(alloc, file, Lint::CargoAccepts, message)?
                .at_value(path)
                .below(below)
                .with_help(alloc, reason.as_str())
        }
    }
}

/// The report of a key with a value that is valid and can't be resolved.
///
/// # Errors
/// `NoMemory` where memory ran out.
pub fn unresolved_report(alloc: Global, file: &str, fault: &ValueFault) -> Result<Report, NoMemory>
    ensures { IfOk result (IsAbout (unresolved_subject file.now fault.now)) }
{
    let error = &fault.error;
    let message = format!(in alloc; "{error}")?;
    let path = copied(alloc, fault.path.as_slice())?;
    Ok(Report::new(alloc, file, Lint::Unresolvable, message)?.at_value(path))
}

// The keys after these that lead to a value of a wrong type.
fn keys_below<'a>(path: &[String], error: &'a Error) -> &'a [String] {
    match fault_path(error) {
        Some(whole) => whole.get(path.len()..).unwrap_or(&[]),
        None => &[],
    }
}

// The keys that lead to a value of a wrong type.
fn fault_path(error: &Error) -> Option<&[String]> {
    match error.kind() {
        ErrorKind::ParseFile(ParseCause::WrongType { path }) => Some(path.as_slice()),
        _ => None,
    }
}

// Why a value isn't valid: what was expected and what was found, or else what the error prints.
fn refusal_text(alloc: Global, error: &Error, table: &toml::Table) -> Result<String, NoMemory> {
    let Some(path) = fault_path(error) else {
        return match error.kind() {
            ErrorKind::EmptyCommand => Ok(String::from_str(alloc, "this command is empty")?),
            _ => Ok(format!(in alloc; "{error}")?),
        };
    };
    match (wanted_at(path), value_at(path, table)) {
        (Some(wanted), Some(value)) => {
            let expected = expected_text(alloc, wanted, value)?;
            let expected = expected.as_str();
            let found = found_text(alloc, wanted, value)?;
            let found = found.as_str();
            Ok(format!(in alloc; "expected {expected}, found {found}")?)
        }
        (Some(_), None) => missing_text(alloc, path),
        _ => Ok(format!(in alloc; "{error}")?),
    }
}

// That the last key of a path is missing.
fn missing_text(alloc: Global, path: &[String]) -> Result<String, NoMemory> {
    let key = match path.last() {
        Some(key) => key.as_str(),
        None => "",
    };
    Ok(format!(in alloc; "missing key `{key}`")?)
}

/// The value at the last key of a path.
pub fn value_at<'a>(path: &[String], table: &'a toml::Table) -> Option<&'a toml::Value> {
    let (first, rest) = path.split_first()?;
    let mut value = member(table, first.as_str())?;
    for key in rest {
        value = value.get(key.as_str())?;
    }
    Some(value)
}

// What a key takes; of a whole number its range, where the value is one.
fn expected_text(alloc: Global, wanted: Wanted, value: &toml::Value) -> Result<String, NoMemory> {
    let text = match wanted {
        Wanted::Integer(least, most) if value.is_integer() => {
            return Ok(format!(in alloc; "an integer from {least} to {most}")?);
        }
        Wanted::Integer(_, _) => "an integer",
        Wanted::Boolean => "a boolean",
        Wanted::Text => "a string",
        Wanted::Choice(words) => words,
        Wanted::TextOrTexts => "a string or an array of strings",
        Wanted::Texts => "an array of strings",
        Wanted::Variable => "a string or a table with `value`",
        Wanted::Table => "a table",
    };
    Ok(String::from_str(alloc, text)?)
}

// What a value is, or which one where that alone is wrong.
fn found_text(alloc: Global, wanted: Wanted, value: &toml::Value) -> Result<String, NoMemory> {
    match (wanted, value) {
        (Wanted::Choice(_), toml::Value::String(text)) => string_text(alloc, text.as_str()),
        (Wanted::Integer(_, _), toml::Value::Integer(number)) => {
            Ok(format!(in alloc; "`{number}`")?)
        }
        (Wanted::TextOrTexts | Wanted::Texts, toml::Value::Array(values)) => {
            array_text(alloc, values.as_slice())
        }
        (Wanted::Variable, toml::Value::Table(_)) => {
            Ok(String::from_str(alloc, "a table without `value`")?)
        }
        _ => Ok(String::from_str(alloc, type_name(value))?),
    }
}

// An array, with the first element that isn't a string.
fn array_text(alloc: Global, values: &[toml::Value]) -> Result<String, NoMemory> {
    for value in values {
        if !value.is_str() {
            let inner = type_name(value);
            return Ok(format!(in alloc; "an array with {inner}")?);
        }
    }
    Ok(String::from_str(alloc, "an array")?)
}

// A string in backticks, its control characters as `\xNN`.
fn string_text(alloc: Global, text: &str) -> Result<String, NoMemory> {
    if text.chars().count() > MOST_CHARACTERS {
        return Ok(String::from_str(alloc, "another string")?);
    }
    let shown = quoted(alloc, text)?;
    let shown = std::str::from_utf8(shown.as_slice()).unwrap_or("");
    let inner = shown
        .strip_prefix('"')
        .and_then(|rest| rest.strip_suffix('"'))
        .unwrap_or("");
    Ok(format!(in alloc; "`{inner}`")?)
}

fn type_name(value: &toml::Value) -> &'static str {
    match value {
        toml::Value::String(_) => "a string",
        toml::Value::Integer(_) => "an integer",
        toml::Value::Float(_) => "a float",
        toml::Value::Boolean(_) => "a boolean",
        toml::Value::Datetime(_) => "a date-time",
        toml::Value::Array(_) => "an array",
        toml::Value::Table(_) => "a table",
    }
}
