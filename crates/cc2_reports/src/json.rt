//! Reports as JSON.
ghost use Rattle.std.specs.Prelude.{◌≡◌, map, option_map, string_bytes, IfOk, OnOk};
ghost use Rattle.serde_json.specs.Data as spec;
ghost use Rattle.serde_json.specs.Data.{string};
ghost use Rattle.serde_json.specs.View.{members_view, view};
ghost use Rattle.cc2_reports.specs.Json.{json_text, problem_data, problem_with, problems_data, span_data, text_data, texts_data};
ghost use Rattle.cc2_reports.specs.Problems.{problem_of, problems_of};

use crate::Span;
use crate::report::Report;
use cc2_error::error::NoMemory;
use serde_json::{Map, Value, json, put};
use std::alloc::Global;

/// The reports as one line of JSON: an object whose member `findings` is a list of objects with `file`, `kind`,
/// `level`, `message` and `path`, with `help`, which is null where there is none, and with `line`, `column`, `endLine`
/// and `endColumn`, which are null where they aren't found. The end column is that after the last character.
///
/// # Errors
/// `NoMemory` where memory ran out.
pub(crate) fn json_of(alloc: Global, reports: &[Report]) -> Result<Vec<u8>, NoMemory>
    ensures { IfOk result (λ text. text.items ≡ json_text (problems_of reports.now)) }
{
    let json = reports_json(alloc, reports)?;
    let mut text = json.to_vec(alloc)?;
    text.push(b'\n')?;
    Ok(text)
}

fn reports_json(alloc: Global, reports: &[Report]) -> Result<Value, NoMemory>
    ensures { IfOk result (λ json. view json ≡ problems_data (problems_of reports.now)) }
{
    let mut findings = Vec::new(alloc);
    for report in reports {
        findings.push(report_json(alloc, report)?)?;
    }
    let findings = Value::Array(findings);
    Ok(json!(in alloc; {"findings": findings})?)
}

fn report_json(alloc: Global, report: &Report) -> Result<Value, NoMemory>
    ensures { IfOk result (λ json. view json ≡ problem_data (problem_of report.now)) }
{
    let place = place_of(report.span);
    let path = texts_json(alloc, report.path.as_slice())?;
    let help = text_json(&report.help)?;
    problem_json(alloc, report, &place, &path, &help)
}

// A problem with its place, its keys and its help.
fn problem_json(
    alloc: Global,
    report: &Report,
    place: &Place,
    path: &Value,
    help: &Value,
) -> Result<Value, NoMemory>
    ensures { IfOk result (λ json. view json
        ≡ problem_with (problem_of report.now) (view place.now.line) (view place.now.column)
        (view place.now.end_line) (view place.now.end_column) (view path.now) (view help.now)) }
{
    let mut members = Map::new(alloc);
    put_copy(&mut members, alloc, "column", &place.column)?;
    put_copy(&mut members, alloc, "endColumn", &place.end_column)?;
    put_copy(&mut members, alloc, "endLine", &place.end_line)?;
    put_text(&mut members, alloc, "file", report.file.as_str())?;
    put_copy(&mut members, alloc, "help", help)?;
    put_text(&mut members, alloc, "kind", report.lint.word())?;
    put_text(&mut members, alloc, "level", report.lint.level().name())?;
    put_copy(&mut members, alloc, "line", &place.line)?;
    put_text(&mut members, alloc, "message", report.message.as_str())?;
    put_copy(&mut members, alloc, "path", path)?;
    Ok(Value::Object(members))
}

// Puts a copy of a value among the members.
fn put_copy(
    members: &mut Map<String, Value>,
    alloc: Global,
    key: &str,
    value: &Value,
) -> Result<(), NoMemory>
    ensures { OnOk result (members_view members.new.entries
        ≡ spec.put key.now (view value.now) (members_view members.old.entries)) }
{
    let value = value.clone()?;
    put(members, alloc, key, value)?;
    Ok(())
}

/// Puts a text among the members.
pub(crate) fn put_text(
    members: &mut Map<String, Value>,
    alloc: Global,
    key: &str,
    text: &str,
) -> Result<(), NoMemory>
    ensures { OnOk result (members_view members.new.entries
        ≡ spec.put key.now (string text.now) (members_view members.old.entries)) }
{
    let text = String::from_str(alloc, text)?;
    put(members, alloc, key, Value::String(text))?;
    Ok(())
}

// A list of texts.
fn texts_json(alloc: Global, texts: &[String]) -> Result<Value, NoMemory>
    ensures { IfOk result (λ json. view json ≡ texts_data (map string_bytes texts.now)) }
{
    let mut list = Vec::new(alloc);
    for text in texts {
        list.push(Value::String(text.clone()?))?;
    }
    Ok(Value::Array(list))
}

// A text; null where there is none.
fn text_json(text: &Option<String>) -> Result<Value, NoMemory>
    ensures { IfOk result (λ json. view json ≡ text_data (option_map string_bytes text.now)) }
{
    match text {
        Some(text) => Ok(Value::String(text.clone()?)),
        None => Ok(Value::Null),
    }
}

// The piece of the file, if that is found.
#[derive(Drop)]
struct Place {
    line: Value,
    column: Value,
    end_line: Value,
    end_column: Value,
}

fn place_of(span: Option<Span>) -> Place
    ensures line { view result.line ≡ span_data (λ s. s.start.line) span }
    ensures column { view result.column ≡ span_data (λ s. s.start.column) span }
    ensures end_line { view result.end_line ≡ span_data (λ s. s.end.line) span }
    ensures end_column { view result.end_column ≡ span_data (λ s. s.end.column) span }
{
    match span {
        Some(span) => Place {
            line: Value::from(span.start.line),
            column: Value::from(span.start.column),
            end_line: Value::from(span.end.line),
            end_column: Value::from(span.end.column),
        },
        None => Place {
            line: Value::Null,
            column: Value::Null,
            end_line: Value::Null,
            end_column: Value::Null,
        },
    }
}
