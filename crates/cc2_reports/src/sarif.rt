//! Reports as SARIF 2.1.0, which services that show findings read.
ghost use Rattle.std.specs.Prelude.{◌≡◌, ◌++◌, filter, map, option_map, string_bytes, IfOk, None, Some};
ghost use Rattle.serde_json.specs.View.{view};
ghost use Rattle.cc2_reports.specs.Lints.{level_of, name_of};
ghost use Rattle.cc2_reports.specs.Problems.{problem_of, problems_of};
ghost use Rattle.cc2_reports.specs.Sarif as spec;

use crate::Span;
use crate::json::put_text;
use crate::lint::{LINTS, Lint};
use crate::report::Report;
use crate::uri::uri_of;
use cc2_error::error::NoMemory;
use serde_json::{Map, Value, json, put};
use std::alloc::Global;

const SCHEMA: &str = "https://json.schemastore.org/sarif-2.1.0.json";

// The program that the findings are of, and its version.
const TOOL: &str = "cargo-config2";

const VERSION: &str = "1.1.0";

/// The reports as one line of SARIF: one run, whose rules are the lints that occur.
///
/// # Errors
/// `NoMemory` where memory ran out.
pub(crate) fn sarif_of(alloc: Global, reports: &[Report]) -> Result<Vec<u8>, NoMemory>
    ensures { IfOk result (λ text. text.items ≡ spec.sarif_text (problems_of reports.now)) }
{
    let results = results_of(alloc, reports)?;
    let rules = rules_of(alloc, LINTS, reports)?;
    let sarif = sarif_json(alloc, results, rules)?;
    let mut text = sarif.to_vec(alloc)?;
    text.push(b'\n')?;
    Ok(text)
}

fn sarif_json(alloc: Global, results: Value, rules: Value) -> Result<Value, NoMemory>
    ensures { IfOk result (λ json.
        view json ≡ spec.sarif_data (view results) (view rules)) }
{
    let run = run_json(alloc, results, rules)?;
    Ok(json!(in alloc; {
        "$schema": SCHEMA,
        "version": "2.1.0",
        "runs": [run],
    })?)
}

// One run, with these results and these rules.
fn run_json(alloc: Global, results: Value, rules: Value) -> Result<Value, NoMemory>
    ensures { IfOk result (λ json.
        view json ≡ spec.run_data (view results) (view rules)) }
{
    let tool = tool_json(alloc, rules)?;
    let mut members = Map::new(alloc);
    put_text(&mut members, alloc, "columnKind", "unicodeCodePoints")?;
    put(&mut members, alloc, "results", results)?;
    put(&mut members, alloc, "tool", tool)?;
    Ok(Value::Object(members))
}

fn tool_json(alloc: Global, rules: Value) -> Result<Value, NoMemory>
    ensures { IfOk result (λ json. view json ≡ spec.tool_data (view rules)) }
{
    let driver = driver_json(alloc, rules)?;
    Ok(json!(in alloc; {"driver": driver})?)
}

// The program that reports, with its rules.
fn driver_json(alloc: Global, rules: Value) -> Result<Value, NoMemory>
    ensures { IfOk result (λ json. view json ≡ spec.driver_data (view rules)) }
{
    Ok(json!(in alloc; {"name": TOOL, "rules": rules, "version": VERSION})?)
}

// The reports, each as a result.
fn results_of(alloc: Global, reports: &[Report]) -> Result<Value, NoMemory>
    ensures { IfOk result (λ json. view json ≡ spec.results_data (problems_of reports.now)) }
{
    let mut results = Vec::new(alloc);
    for report in reports {
        results.push(result_of(alloc, report)?)?;
    }
    Ok(Value::Array(results))
}

// Those of these lints that occur, each as a rule.
fn rules_of(alloc: Global, lints: &[Lint], reports: &[Report]) -> Result<Value, NoMemory>
    ensures { IfOk result (λ json.
        view json ≡ spec.rules_among lints.now (problems_of reports.now)) }
{
    let mut rules = Vec::new(alloc);
    for lint in lints {
        if occurs(reports, lint.word()) {
            rules.push(rule_json(alloc, *lint)?)?;
        }
    }
    Ok(Value::Array(rules))
}

// Whether one of the reports is of the lint of this name.
fn occurs(reports: &[Report], word: &str) -> bool
    ensures { result ≡ spec.occurs (problems_of reports.now) word.now }
{
    for report in reports {
        if report.lint.word() == word {
            return true;
        }
    }
    false
}

fn rule_json(alloc: Global, lint: Lint) -> Result<Value, NoMemory>
    ensures { IfOk result (λ json. view json ≡ spec.rule_data lint) }
{
    Ok(json!(in alloc; {
        "defaultConfiguration": {"level": lint.level().name()},
        "id": lint.word(),
        "shortDescription": {"text": lint.about()},
    })?)
}

fn result_of(alloc: Global, report: &Report) -> Result<Value, NoMemory>
    ensures { IfOk result (λ json. view json ≡ spec.result_data (problem_of report.now)) }
{
    let place = location_of(alloc, report.file.as_str(), report.span)?;
    let message = message_of(alloc, report.message.as_str(), &report.help)?;
    result_with(alloc, report.lint, &place, message.as_str())
}

fn result_with(alloc: Global, lint: Lint, place: &Value, message: &str) -> Result<Value, NoMemory>
    ensures { IfOk result (λ json. view json
        ≡ spec.result_with (level_of lint) (name_of lint) (view place.now) message.now) }
{
    Ok(json!(in alloc; {
        "level": lint.level().name(),
        "locations": [{"physicalLocation": place}],
        "message": {"text": message},
        "ruleId": lint.word(),
    })?)
}

// The message, and the help in a line of its own.
fn message_of(alloc: Global, message: &str, help: &Option<String>) -> Result<String, NoMemory>
    ensures { IfOk result (λ text. string_bytes text
        ≡ spec.message_of message.now (option_map string_bytes help.now)) }
{
    match help {
        Some(help) => {
            let help = help.as_str();
            Ok(format!(in alloc; "{message}\nhelp: {help}")?)
        }
        None => Ok(String::from_str(alloc, message)?),
    }
}

// The file, and the piece of it where that is found.
fn location_of(alloc: Global, file: &str, span: Option<Span>) -> Result<Value, NoMemory>
    ensures { IfOk result (λ json. view json ≡ spec.location_data file.now span) }
{
    let uri = uri_of(alloc, file)?;
    match span {
        None => whole_file(alloc, uri.as_str()),
        Some(span) => piece_of(alloc, uri.as_str(), span),
    }
}

fn whole_file(alloc: Global, uri: &str) -> Result<Value, NoMemory>
    ensures { IfOk result (λ json. view json ≡ spec.place_data uri.now None) }
{
    Ok(json!(in alloc; {"artifactLocation": {"uri": uri}})?)
}

fn piece_of(alloc: Global, uri: &str, span: Span) -> Result<Value, NoMemory>
    ensures { IfOk result (λ json. view json ≡ spec.place_data uri.now (Some span)) }
{
    let region = region_of(alloc, span)?;
    Ok(json!(in alloc; {"artifactLocation": {"uri": uri}, "region": region})?)
}

fn region_of(alloc: Global, span: Span) -> Result<Value, NoMemory>
    ensures { IfOk result (λ json. view json ≡ spec.region_data span) }
{
    Ok(json!(in alloc; {
        "endColumn": span.end.column,
        "endLine": span.end.line,
        "startColumn": span.start.column,
        "startLine": span.start.line,
    })?)
}
