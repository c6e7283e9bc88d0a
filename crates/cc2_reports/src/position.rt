//! The positions of reports in the text of their file.
ghost use Rattle.std.specs.Prelude.{◌≡◌, ◌++◌, true, All, IfOk, IfSome, OnOk, map, slice_range, string_bytes};
ghost use Rattle.cc2_reports.specs.Locations.{IsSpan};
ghost use Rattle.cc2_reports.specs.Scanning.{IsPlace};
ghost use Rattle.cc2_reports.specs.Positions.{BeginsValue, IsAtKey, IsKeyText, IsPlaced, IsPosition, IsWithin, position_keys, source_text};
ghost use Rattle.cc2_reports.specs.Problems.{SaysTheSame, subjects_of};

use crate::key_text::{is_key_and_equals, is_key_text, starts_blank};
use crate::report::Report;
use crate::source::Source;
use crate::{Location, Place, Span};
use cc2_error::error::NoMemory;
use std::alloc::Global;

/// What a report is about.
#[derive(Clone, Copy, Debug)]
pub enum Part {
    /// The file.
    File,
    /// A piece of a file that isn't valid TOML: so many bytes from an offset on.
    Bytes {
        /// The offset in the file.
        offset: usize,
        /// How many bytes.
        length: usize,
    },
    /// The key.
    Key,
    /// A part of the key: so many bytes from an offset in it on.
    PartOfKey {
        /// The offset in the key.
        offset: usize,
        /// How many bytes.
        length: usize,
    },
    /// The value of the key.
    Value,
}

/// The same reports, each with its position in the text of their file, where that is found.
///
/// A position is that of a key as the text spells it, of a part of the key, or of the beginning of its value. A key is
/// looked for by its path, and its spelling is checked; where it is another one, there is no position.
///
/// # Errors
/// `NoMemory` where memory ran out.
pub fn placed(
    alloc: Global,
    reports: Vec<Report>,
    source: &Source<'_>,
) -> Result<Vec<Report>, NoMemory>
    ensures same { IfOk result (λ placed. subjects_of placed.items ≡ subjects_of reports.items) }
    ensures placed { IfOk result (λ placed. All (IsPlaced (source_text source.now)) placed.items) }
{
    let mut placed = Vec::new(alloc);
    for report in reports {
        placed.push(placed_one(alloc, report, source)?)?;
    }
    Ok(placed)
}

fn placed_one(alloc: Global, report: Report, source: &Source<'_>) -> Result<Report, NoMemory>
    ensures same { IfOk result (SaysTheSame report) }
    ensures placed { IfOk result (IsPlaced (source_text source.now)) }
{
    let keys = keys_of(alloc, &report)?;
    let span = match report.part {
        Part::File => None,
        Part::Bytes { offset, length } => file_piece(keys.as_slice(), offset, length, source),
        part => key_position(alloc, keys.as_slice(), part, source)?,
    };
    if span.is_none() && !report.below.is_empty() {
        return placed_above(alloc, report, source);
    }
    with_span(alloc, report, span, source)
}

// The same at its own key, where the keys below aren't found.
fn placed_above(alloc: Global, report: Report, source: &Source<'_>) -> Result<Report, NoMemory>
    ensures same { IfOk result (SaysTheSame report) }
    ensures placed { IfOk result (IsPlaced (source_text source.now)) }
{
    let report = Report {
        below: Vec::new(alloc),
        ..report
    };
    let keys = keys_of(alloc, &report)?;
    let span = key_position(alloc, keys.as_slice(), report.part, source)?;
    with_span(alloc, report, span, source)
}

// The same with this position, and its line, where it may be quoted.
fn with_span(
    alloc: Global,
    report: Report,
    span: Option<Span>,
    source: &Source<'_>,
) -> Result<Report, NoMemory>
    ensures same { IfOk result (SaysTheSame report) }
    ensures span { IfOk result (λ r. r.span ≡ span) }
    ensures keys { IfOk result (λ r. position_keys r ≡ position_keys report) }
{
    let line = match (span, report.part) {
        (Some(span), Part::Bytes { .. }) => source.line_of_fault(alloc, span.start)?,
        (Some(span), _) => source.line(alloc, span.start)?,
        (None, _) => None,
    };
    Ok(Report {
        span,
        line,
        ..report
    })
}

// The keys whose last one a report is about.
fn keys_of(alloc: Global, report: &Report) -> Result<Vec<String>, NoMemory>
    ensures { IfOk result (λ keys. map string_bytes keys.items ≡ position_keys report.now) }
{
    let mut keys = Vec::new(alloc);
    push_copies(alloc, &mut keys, report.path.as_slice())?;
    push_copies(alloc, &mut keys, report.below.as_slice())?;
    Ok(keys)
}

fn push_copies(alloc: Global, keys: &mut Vec<String>, others: &[String]) -> Result<(), NoMemory>
    ensures { OnOk result (map string_bytes keys.new.items
        ≡ map string_bytes keys.old.items ++ map string_bytes others.now) }
{
    for key in others {
        keys.push(String::from_str(alloc, key.as_str())?)?;
    }
    Ok(())
}

// A piece of the file, of a report that is about no key.
fn file_piece(keys: &[String], offset: usize, length: usize, source: &Source<'_>) -> Option<Span>
    ensures { IfSome result (IsPosition (source_text source.now) (map string_bytes keys.now)) }
{
    if keys.is_empty() {
        source.locator.span_at(offset, length)
    } else {
        None
    }
}

// The position of the last of these keys, or of its value.
fn key_position(
    alloc: Global,
    keys: &[String],
    part: Part,
    source: &Source<'_>,
) -> Result<Option<Span>, NoMemory>
    ensures { IfOk result (λ found. IfSome found
        (IsPosition (source_text source.now) (map string_bytes keys.now))) }
{
    let Some(key) = keys.last() else {
        return Ok(None);
    };
    match source.locator.place(alloc, keys)? {
        Some(place) => position_at(alloc, key.as_str(), part, place, source),
        None => Ok(None),
    }
}

// The position of a key that was found at a place, or of its value.
fn position_at(
    alloc: Global,
    key: &str,
    part: Part,
    place: Place,
    source: &Source<'_>,
) -> Result<Option<Span>, NoMemory>
    ensures { IsPlace (source_text source.now) place
        → IfOk result (λ found. IfSome found (IsAtKey (source_text source.now) key.now)) }
{
    let (from, to) = whole_of(place.key, source);
    if !is_key_at(alloc, key, from, to, source)? {
        return Ok(None);
    }
    match (part, place.value) {
        (Part::Value, Some(start)) => {
            if is_value_at(alloc, key, from, start.offset, source)? {
                return Ok(Some(source.locator.value_from(start)));
            }
            Ok(within(place.key, from, to))
        }
        (Part::PartOfKey { offset, length }, _) => {
            Ok(within(part_of(place.key, key, offset, length, source), from, to))
        }
        _ => Ok(within(place.key, from, to)),
    }
}

// The piece, where it is between these offsets.
fn within(piece: Span, from: usize, to: usize) -> Option<Span>
    ensures { IfSome result (λ s. (s ≡ piece) × IsWithin from to s) }
{
    if from <= piece.start.offset && piece.end.offset <= to {
        Some(piece)
    } else {
        None
    }
}

// The offsets from which and up to which a key is spelled, with the quotes around it.
fn whole_of(key: Span, source: &Source<'_>) -> (usize, usize) {
    let from = key.start.offset.saturating_sub(1);
    match source.locator.byte_at(from) {
        Some(b'"' | b'\'') if from < key.start.offset => (from, key.end.offset.saturating_add(1)),
        _ => (key.start.offset, key.end.offset),
    }
}

// Whether the text spells the key from an offset up to another one.
fn is_key_at(
    alloc: Global,
    key: &str,
    from: usize,
    to: usize,
    source: &Source<'_>,
) -> Result<bool, NoMemory>
    ensures { IfOk result (λ yes. yes ≡ true
        → IsKeyText key.now (slice_range (source_text source.now) from to)) }
{
    match source.locator.between(from, to) {
        Some(piece) => is_key_text(alloc, key, piece),
        None => Ok(false),
    }
}

// Whether the value of a key that is spelled from an offset on begins at another one.
fn is_value_at(
    alloc: Global,
    key: &str,
    from: usize,
    start: usize,
    source: &Source<'_>,
) -> Result<bool, NoMemory>
    ensures { (s : Span) → s.start.offset ≡ start → IfOk result (λ yes. yes ≡ true
        → BeginsValue (source_text source.now) key.now from s) }
{
    if starts_blank(source.locator.byte_at(start)) {
        return Ok(false);
    }
    match source.locator.between(from, start) {
        Some(piece) => is_key_and_equals(alloc, key, piece),
        None => Ok(false),
    }
}

// A part of a key that is spelled without escapes, so many bytes from an offset in it on; else the whole key.
fn part_of(key: Span, spelled: &str, offset: usize, length: usize, source: &Source<'_>) -> Span
    ensures { IsSpan (source_text source.now) key → IsSpan (source_text source.now) result }
{
    if key.end.offset.saturating_sub(key.start.offset) != spelled.len() {
        return key;
    }
    let offset = offset.min(spelled.len());
    match source.locator.piece_behind(key.start, offset, length) {
        Some(piece) if piece.end.offset <= key.end.offset => piece,
        _ => key,
    }
}
