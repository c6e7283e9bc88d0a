//! Reports as rustc prints its diagnostics.
ghost use Rattle.std.specs.Prelude.{◌≡◌, ◌++◌, map, max, length, option_map, replicate, string_bytes, take, IfOk, OnOk};
ghost use Rattle.cc2_reports.specs.Characters.{first_bytes, is_continued, visible_line};
ghost use Rattle.cc2_reports.specs.Problems.{problem_of, problems_of};
ghost use Rattle.cc2_reports.specs.Text as spec;

use crate::Span;
use crate::level::Level;
use crate::report::Report;
use crate::visible::visible_line;
use cc2_error::error::NoMemory;
use std::alloc::Global;

const BLUE: &str = "\x1b[1;34m";

const BOLD: &str = "\x1b[1m";

const PLAIN: &str = "\x1b[0m";

/// The reports, each with an empty line after it: its level, lint and message; its file, with line and column where
/// they are found; the line with carets under the piece that it is about; and its help. It may be coloured, as a
/// terminal shows it. Of what a file or a path has, control characters and the like are written by their numbers.
///
/// # Errors
/// `NoMemory` where memory ran out.
pub(crate) fn text_of(
    alloc: Global,
    is_coloured: bool,
    reports: &[Report],
) -> Result<Vec<u8>, NoMemory>
    ensures { IfOk result (λ text.
        text.items ≡ spec.text_of is_coloured (problems_of reports.now)) }
{
    let mut out = Vec::new(alloc);
    for report in reports {
        push_report(&mut out, alloc, is_coloured, report)?;
    }
    Ok(out)
}

fn push_report(
    out: &mut Vec<u8>,
    alloc: Global,
    is_coloured: bool,
    report: &Report,
) -> Result<(), NoMemory>
    ensures { OnOk result (out.new.items
        ≡ out.old.items ++ spec.problem_text is_coloured (problem_of report.now)) }
{
    let number = number_of(alloc, report.span)?;
    let width = width_of(number.as_str());
    push_title(out, alloc, is_coloured, report)?;
    push_place(
        out,
        alloc,
        is_coloured,
        width,
        report.file.as_str(),
        report.span,
    )?;
    push_quoted(
        out,
        alloc,
        is_coloured,
        report.lint.level(),
        report.span,
        &report.line,
    )?;
    push_help(out, alloc, is_coloured, width, &report.help)?;
    push(out, "\n")
}

// How wide a margin with this number is.
fn width_of(number: &str) -> usize
    ensures { result ≡ max (length number.now) 1 }
{
    number.len().max(1)
}

// The number of the line at which a piece begins; nothing where there is none.
fn number_of(alloc: Global, span: Option<Span>) -> Result<String, NoMemory>
    ensures { IfOk result (λ number. string_bytes number ≡ spec.number_of span) }
{
    match span {
        Some(span) => {
            let line = span.start.line;
            Ok(format!(in alloc; "{line}")?)
        }
        None => Ok(String::new(alloc)),
    }
}

// The level, the lint and the message.
fn push_title(
    out: &mut Vec<u8>,
    alloc: Global,
    is_coloured: bool,
    report: &Report,
) -> Result<(), NoMemory>
    ensures { OnOk result (out.new.items
        ≡ out.old.items ++ spec.title is_coloured (problem_of report.now)) }
{
    let level = report.lint.level().name();
    let word = report.lint.word();
    let title = format!(in alloc; "{level}[{word}]")?;
    push_in(
        out,
        is_coloured,
        report.lint.level().colour(),
        title.as_str(),
    )?;
    let message = visible_line(alloc, report.message.as_str())?;
    let message = message.as_str();
    let message = format!(in alloc; ": {message}")?;
    push_in(out, is_coloured, BOLD, message.as_str())?;
    push(out, "\n")
}

// The file, with the line and the column.
fn push_place(
    out: &mut Vec<u8>,
    alloc: Global,
    is_coloured: bool,
    width: usize,
    file: &str,
    span: Option<Span>,
) -> Result<(), NoMemory>
    ensures { OnOk result (out.new.items
        ≡ out.old.items ++ spec.place is_coloured width file.now span) }
{
    push_spaces(out, width)?;
    push_in(out, is_coloured, BLUE, "-->")?;
    push(out, " ")?;
    push_visible(out, alloc, file)?;
    push_line_and_column(out, alloc, span)?;
    push(out, "\n")
}

fn push_line_and_column(
    out: &mut Vec<u8>,
    alloc: Global,
    span: Option<Span>,
) -> Result<(), NoMemory>
    ensures { OnOk result (out.new.items ≡ out.old.items ++ spec.line_and_column span) }
{
    if let Some(span) = span {
        let line = span.start.line;
        let column = span.start.column;
        let place = format!(in alloc; ":{line}:{column}")?;
        push(out, place.as_str())?;
    }
    Ok(())
}

// The line of a piece, with the piece marked, where the line is quoted.
fn push_quoted(
    out: &mut Vec<u8>,
    alloc: Global,
    is_coloured: bool,
    level: Level,
    span: Option<Span>,
    line: &Option<String>,
) -> Result<(), NoMemory>
    ensures { OnOk result (out.new.items ≡ out.old.items
        ++ spec.quoted is_coloured level span (option_map string_bytes line.now)) }
{
    if let (Some(piece), Some(line)) = (span, line) {
        let number = number_of(alloc, span)?;
        push_line(out, alloc, is_coloured, number.as_str(), line.as_str())?;
        let width = width_of(number.as_str());
        push_carets(out, alloc, is_coloured, width, level, piece, line.as_str())?;
    }
    Ok(())
}

// The quoted line with its number, and an empty one before it.
fn push_line(
    out: &mut Vec<u8>,
    alloc: Global,
    is_coloured: bool,
    number: &str,
    line: &str,
) -> Result<(), NoMemory>
    ensures { OnOk result (out.new.items
        ≡ out.old.items ++ spec.numbered is_coloured number.now line.now) }
{
    push_bar(out, is_coloured, number.len())?;
    push(out, "\n")?;
    let margin = format!(in alloc; "{number} |")?;
    push_in(out, is_coloured, BLUE, margin.as_str())?;
    push_after_space(out, line)?;
    push(out, "\n")
}

// A text after a space, where it isn't empty.
fn push_after_space(out: &mut Vec<u8>, text: &str) -> Result<(), NoMemory>
    ensures { OnOk result (out.new.items ≡ out.old.items ++ spec.after_space text.now) }
{
    if !text.is_empty() {
        push(out, " ")?;
        push(out, text)?;
    }
    Ok(())
}

// The carets under a piece of the line, indented by as many characters as the line has before it.
fn push_carets(
    out: &mut Vec<u8>,
    alloc: Global,
    is_coloured: bool,
    width: usize,
    level: Level,
    span: Span,
    line: &str,
) -> Result<(), NoMemory>
    ensures { OnOk result (out.new.items
        ≡ out.old.items ++ spec.marked is_coloured width level span line.now) }
{
    push_bar(out, is_coloured, width)?;
    push(out, " ")?;
    push_blanks(out, span.start.column.saturating_sub(1), line)?;
    let carets = carets(alloc, span)?;
    push_in(out, is_coloured, level.colour(), carets.as_str())?;
    push(out, "\n")
}

// A caret for each character of a piece, and one for none.
fn carets(alloc: Global, span: Span) -> Result<String, NoMemory>
    ensures { IfOk result (λ carets. string_bytes carets ≡ replicate (spec.caret_count span) 94) }
{
    let count = span.end.column.saturating_sub(span.start.column).max(1);
    let mut carets = String::new(alloc);
    for _ in 0..count {
        carets.push('^')?;
    }
    Ok(carets)
}

// For each of so many characters of a line a space, and for a tab a tab.
fn push_blanks(out: &mut Vec<u8>, count: usize, line: &str) -> Result<(), NoMemory>
    ensures { OnOk result (out.new.items ≡ out.old.items ++ spec.blanks count line.now) }
{
    let mut left = count;
    for byte in line.as_bytes() {
        if left == 0 {
            return Ok(());
        }
        if is_continued(*byte) {
            continue;
        }
        out.push(blank_for(*byte))?;
        left -= 1;
    }
    Ok(())
}

fn blank_for(byte: u8) -> u8
    ensures { result ≡ spec.blank_for byte }
{
    if byte == b'\t' { b'\t' } else { b' ' }
}

// Whether the byte goes on with a character of UTF-8 that an earlier one began.
fn is_continued(byte: u8) -> bool
    ensures { result ≡ is_continued byte }
{
    128 <= byte && byte < 192
}

fn push_help(
    out: &mut Vec<u8>,
    alloc: Global,
    is_coloured: bool,
    width: usize,
    help: &Option<String>,
) -> Result<(), NoMemory>
    ensures { OnOk result (out.new.items
        ≡ out.old.items ++ spec.help_line is_coloured width (option_map string_bytes help.now)) }
{
    if let Some(help) = help {
        push_help_mark(out, is_coloured, width)?;
        push(out, ": ")?;
        push_visible(out, alloc, help.as_str())?;
        push(out, "\n")?;
    }
    Ok(())
}

// The margin and the word before a help.
fn push_help_mark(out: &mut Vec<u8>, is_coloured: bool, width: usize) -> Result<(), NoMemory>
    ensures { OnOk result (out.new.items ≡ out.old.items ++ spec.help_mark is_coloured width) }
{
    push_spaces(out, width)?;
    push(out, " ")?;
    push_in(out, is_coloured, BLUE, "=")?;
    push(out, " ")?;
    push_in(out, is_coloured, BOLD, "help")
}

// The margin without a number.
fn push_bar(out: &mut Vec<u8>, is_coloured: bool, width: usize) -> Result<(), NoMemory>
    ensures { OnOk result (out.new.items ≡ out.old.items ++ spec.bar is_coloured width) }
{
    push_spaces(out, width)?;
    push(out, " ")?;
    push_in(out, is_coloured, BLUE, "|")
}

fn push_spaces(out: &mut Vec<u8>, count: usize) -> Result<(), NoMemory>
    ensures { OnOk result (out.new.items ≡ out.old.items ++ spec.spaces count) }
{
    for _ in 0..count {
        out.push(b' ')?;
    }
    Ok(())
}

// A text in a colour, where there are colours.
fn push_in(out: &mut Vec<u8>, is_coloured: bool, colour: &str, text: &str) -> Result<(), NoMemory>
    ensures { OnOk result (out.new.items
        ≡ out.old.items ++ spec.in_colour is_coloured colour.now text.now) }
{
    if !is_coloured {
        return push(out, text);
    }
    push(out, colour)?;
    push(out, text)?;
    push(out, PLAIN)
}

// A text as a terminal gets it, in one line.
fn push_visible(out: &mut Vec<u8>, alloc: Global, text: &str) -> Result<(), NoMemory>
    ensures { OnOk result (out.new.items ≡ out.old.items ++ visible_line text.now) }
{
    let text = visible_line(alloc, text)?;
    push(out, text.as_str())
}

fn push(out: &mut Vec<u8>, text: &str) -> Result<(), NoMemory>
    ensures { OnOk result (out.new.items ≡ out.old.items ++ text.now) }
{
    out.extend_from_slice(text.as_bytes())?;
    Ok(())
}
