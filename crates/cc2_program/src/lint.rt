//! What `lint` prints: findings, and a summary of them.
ghost use Rattle.std.specs.Prelude.{◌≡◌, ◌⊎◌, ◌++◌, ℕ, List, IfOk, OnOk, map, option_map, string_bytes};
ghost use Rattle.cc2_command_line.specs.CommandViews.{lint_view};
ghost use Rattle.cc2_lint.specs.Answers.{IsAnswerBy};
ghost use Rattle.cc2_lint.specs.Worlds.{WhereAll};
ghost use Rattle.cc2_program.specs.Lints as spec;
ghost use Rattle.cc2_program.specs.Lints.{LintFinds, LintGives, SaysError, SaysFound, SaysThese};
ghost use Rattle.cc2_program.specs.SaidViews.{written};
ghost use Rattle.cc2_program.specs.Streams.{failed, out_of_memory};
ghost use Rattle.cc2_error.specs.Causes.{Refusal};
ghost use Rattle.cc2_reports.specs.Answers.{IsAnswered, IsRefusedBy};
ghost use Rattle.cc2_reports.specs.Lints.{name_of};
ghost use Rattle.cc2_reports.specs.Problems.{Problem};
ghost use Rattle.cc2_reports.specs.Selected.{reported_among};
ghost use Rattle.cc2_reports.specs.declared.answer.Printing.{Printing};

use crate::lint_answer::linted_answer;
use crate::run::Place;
use crate::said::Said;
use cargo_rules::Launcher;
use cc2_base::files::Files;
use cc2_base::programs::Programs;
use cc2_cargo::RealPaths;
use cc2_command_line::{Level, Lint, LintFormat, tip_of};
use cc2_error::error::NoMemory;
use cc2_lint::{Counts, Format, LINTS, Linted, Permissions, Question, is_lint};
use std::alloc::Global;

/// What `lint` writes: findings on standard output, a summary of them on standard error. An unknown lint is an error with
/// the status 2.
pub fn lint_said<F: Files, P: Programs, R: Permissions, L: RealPaths, S: Launcher>(
    alloc: Global,
    lint: &Lint<'_>,
    quiet: bool,
    place: &Place<'_>,
    files: &F,
    programs: &mut P,
    permissions: &R,
    reals: &L,
    launcher: &S,
) -> Said
    ensures always { LintGives place.now.is_coloured (lint_view lint.now) quiet (written result)
        ⊎ (written result ≡ out_of_memory) }
    ensures finds { WhereAll (F.told files.now) (P.told programs.old) (R.told permissions.now)
        (λ fs answers is_open. LintFinds fs answers is_open place.now.machine.now
        (string_bytes place.now.machine.now.current_dir) (map string_bytes place.now.paths.now)
        (L.told reals.now) (S.told_with launcher.now) place.now.is_coloured (lint_view lint.now)
        quiet (written result)
        ⊎ (written result ≡ out_of_memory)) }
{
    if let Some(word) = unknown_lint(lint.allowed.as_slice()) {
        return unknown_said(alloc, word);
    }
    let question = Question {
        dir: place.machine.current_dir.as_str(),
        paths: place.paths,
        deny: level_of(lint.deny),
        allowed: lint.allowed.as_slice(),
        targets: lint.targets.as_slice(),
        format: format_of(lint.format),
        is_coloured: place.is_coloured,
    };
    let linted = linted_answer(
        alloc,
        &question,
        lint.compares,
        place.machine,
        files,
        programs,
        permissions,
        reals,
        launcher,
    );
    said_of(alloc, linted, has_summary(lint.format, quiet))
}

// What was found, with a summary if it is wanted.
fn said_of(alloc: Global, linted: Linted, has_summary: bool) -> Said
    ensures found { (p : Printing) (allowed : List (List ℕ)) → IsAnswerBy p allowed linted
        → SaysFound p allowed has_summary (written result) }
    ensures these { (p : Printing) (allowed : List (List ℕ)) (problems : List Problem)
        → IsAnswered p (reported_among allowed problems) linted
        → SaysThese p allowed has_summary problems (written result) }
    ensures error { (refusal : Refusal) → IsRefusedBy refusal linted
        → SaysError refusal (written result) }
{
    if linted.is_refused() {
        return Said::Error(linted.answer);
    }
    match summary_for(alloc, &linted.counts, has_summary) {
        Ok(summary) => Said::Findings(linted.answer, summary),
        Err(_) => Said::out_of_memory(),
    }
}

// The summary, if it is wanted.
fn summary_for(alloc: Global, counts: &Counts, has_summary: bool) -> Result<Vec<u8>, NoMemory>
    ensures { IfOk result (λ text. text.items ≡ spec.summary_for has_summary counts.now) }
{
    if has_summary {
        summary_of(alloc, counts)
    } else {
        Ok(Vec::new(alloc))
    }
}

// One line that counts the findings; nothing where there are none.
fn summary_of(alloc: Global, counts: &Counts) -> Result<Vec<u8>, NoMemory>
    ensures { IfOk result (λ text. text.items ≡ spec.summary counts.now) }
{
    let mut parts = Vec::new(alloc);
    push_count(&mut parts, alloc, counts.errors, "error")?;
    push_count(&mut parts, alloc, counts.warnings, "warning")?;
    push_count(&mut parts, alloc, counts.notes, "note")?;
    counted_line(alloc, parts.as_slice())
}

// The parts in one line.
fn counted_line(alloc: Global, parts: &[String]) -> Result<Vec<u8>, NoMemory>
    ensures { IfOk result (λ text. text.items ≡ spec.counted_line (map string_bytes parts.now)) }
{
    if parts.is_empty() {
        return Ok(Vec::new(alloc));
    }
    let parts = parts.join(alloc, ", ")?;
    let parts = parts.as_str();
    Ok(format!(in alloc; "{parts}\n")?.into_bytes())
}

// Appends how many findings of a level there are, if there are any.
fn push_count(
    parts: &mut Vec<String>,
    alloc: Global,
    count: usize,
    level: &str,
) -> Result<(), NoMemory>
    ensures { OnOk result (map string_bytes parts.new.items
        ≡ map string_bytes parts.old.items ++ spec.count_part count level.now) }
{
    if count == 0 {
        return Ok(());
    }
    let ending = plural(count);
    parts.push(format!(in alloc; "{count} {level}{ending}")?)?;
    Ok(())
}

// The ending of a word for so many.
fn plural(count: usize) -> &'static str
    ensures { result.now ≡ spec.plural count }
{
    if count == 1 { "" } else { "s" }
}

// The first of these words that isn't the name of a lint.
fn unknown_lint<'a>(words: &[&'a str]) -> Option<&'a str>
    ensures { option_map (λ word. word.now) result
        ≡ spec.first_unknown (map (λ word. word.now) words.now) }
{
    for word in words {
        if !is_lint(*word) {
            return Some(*word);
        }
    }
    None
}

// The error of a word that isn't the name of a lint.
fn unknown_said(alloc: Global, word: &str) -> Said
    ensures { (written result ≡ failed (spec.unknown_lint word.now) 2)
        ⊎ (written result ≡ out_of_memory) }
{
    match unknown_message(alloc, word) {
        Ok(message) => Said::Line(message.into_bytes(), 2),
        Err(_) => Said::out_of_memory(),
    }
}

// The same as a text, with a similar name if there is one.
fn unknown_message(alloc: Global, word: &str) -> Result<String, NoMemory>
    ensures { IfOk result (λ text. string_bytes text ≡ spec.unknown_lint word.now) }
{
    let names = names_of(alloc, LINTS)?;
    let tip = tip_of(alloc, word, names.as_slice())?;
    let tip = tip.as_str();
    Ok(format!(in alloc;
        "error: no such lint: `{word}`\n{tip}\nFor more information, try `cargo config2 lint --help`.\n"
    )?)
}

// The names of lints.
fn names_of(alloc: Global, lints: &[cc2_lint::Lint]) -> Result<Vec<&'static str>, NoMemory>
    ensures { IfOk result (λ names. map (λ name. name.now) names.items ≡ map name_of lints.now) }
{
    let mut names = Vec::new(alloc);
    for lint in lints {
        names.push(lint.word())?;
    }
    Ok(names)
}

// Whether findings are summed up.
fn has_summary(format: LintFormat, quiet: bool) -> bool
    ensures { result ≡ spec.has_summary format quiet }
{
    matches!(format, LintFormat::Text) && !quiet
}

fn level_of(level: Level) -> cc2_lint::Level
    ensures { result ≡ spec.level_of level }
{
    match level {
        Level::Note => cc2_lint::Level::Note,
        Level::Warning => cc2_lint::Level::Warning,
        Level::Error => cc2_lint::Level::Error,
    }
}

fn format_of(format: LintFormat) -> Format
    ensures { result ≡ spec.format_of format }
{
    match format {
        LintFormat::Text => Format::Text,
        LintFormat::Json => Format::Json,
        LintFormat::Sarif => Format::Sarif,
    }
}
