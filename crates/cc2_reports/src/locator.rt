//! Looking keys up by their paths.
ghost use Rattle.std.specs.Prelude.{◌≡◌, ◌≤◌, drop, IfOk, IfSome, IsTrue, length, slice_get, slice_range, take};
ghost use Rattle.std.proofs.Props.{props};
ghost use Rattle.cc2_reports.specs.Locations.{IsLocation, IsSpan, mark_of};
ghost use Rattle.cc2_reports.specs.Scanning.{ArePlaces, IsPlace};
ghost use Rattle.cc2_reports.specs.Spelled.{IsLastSpelledAt, IsSpelledAt};

use crate::found::{Found, Place};
use crate::location::{Location, Span};
use crate::path::path_text;
use crate::scanner::Scanner;
use crate::value::value_length;
use std::alloc::{AllocError, Global};

// The bytes of a byte order mark.
const MARK: &str = "\u{feff}";

/// The keys of a TOML text, by their paths (TOML's specification,
/// [Keys](https://toml.io/en/v1.0.0#keys)).
#[derive(Drop)]
pub struct Locator<'a> {
    text: &'a str,
    found: Found,
    ghost places: { ArePlaces text.now found } by { Prim.hlevel props },
}

impl<'a> Locator<'a> {
    /// Reads a text, which is TOML. A key whose path has more than 8 keys or 1,000 bytes isn't found. A text that is no
    /// TOML is read as well, and some of it may be found. A byte order mark at its beginning has no column.
    ///
    /// # Errors
    /// `AllocError` where memory ran out.
    pub fn read(alloc: Global, text: &'a str) -> Result<Locator<'a>, AllocError>
        ensures { IfOk result (λ locator. locator.text.now ≡ text.now) }
    {
        let found = keys_in(alloc, text)?;
        Ok(Locator { text, found })
    }

    /// Where the key of a path was first spelled, if that is found and the key is spelled without escapes. The text
    /// spells the last key of the path there.
    ///
    /// # Errors
    /// `AllocError` where memory ran out.
    pub fn locate(&self, alloc: Global, path: &[String]) -> Result<Option<Location>, AllocError>
        ensures { IfOk result (λ found. IfSome found (λ location.
            IsLastSpelledAt self.now.text.now location.offset path.now)) }
    {
        let Some(key) = path.last() else {
            return Ok(None);
        };
        match self.place(alloc, path)? {
            Some(
                Place {
                    key: Span { start, .. },
                    ..
                },
            ) if is_spelled_at(self.text, start.offset, key.as_str()) => Ok(Some(start)),
            _ => Ok(None),
        }
    }

    /// The value of the key of a path, as far as it is in the line where it begins, if that is found. A key of a
    /// table that a header names has none.
    ///
    /// # Errors
    /// `AllocError` where memory ran out.
    pub fn value_span(&self, alloc: Global, path: &[String]) -> Result<Option<Span>, AllocError>
        ensures { IfOk result (λ found. IfSome found (IsSpan self.now.text.now)) }
    {
        match self.place(alloc, path)? {
            Some(
                Place {
                    value: Some(start),
                    ..
                },
            ) => Ok(Some(self.value_from(start))),
            _ => Ok(None),
        }
    }

    /// The piece of the text that begins after so many bytes and has so many, as far as it is in its line; none
    /// where the text ends before, or where a character goes on there.
    pub fn span_at(&self, offset: usize, length: usize) -> Option<Span>
        ensures { IfSome result (IsSpan self.now.text.now) }
    {
        let start = start_of(self.text);
        self.piece_behind(start, offset.checked_sub(start.offset)?, length)
    }

    /// The piece of the text that begins so many bytes after a location and has so many, as far as it is in its
    /// line; none where the text ends before, or where a character goes on there.
    pub fn piece_behind(&self, start: Location, offset: usize, length: usize) -> Option<Span>
        ensures { IsLocation self.now.text.now start → IfSome result (IsSpan self.now.text.now) }
    {
        let passed = piece_of(self.text, start.offset, offset)?;
        Some(self.piece_at(start.behind_all(passed.as_bytes()), length))
    }

    /// The text from an offset up to another; none where it ends before, or where a character goes on at one of them.
    pub fn between(&self, from: usize, to: usize) -> Option<&'a str>
        ensures { IfSome result (λ piece. piece.now ≡ slice_range self.now.text.now from to) }
    {
        self.text.get(from..to)
    }

    /// The byte at an offset; none where the text ends before.
    pub fn byte_at(&self, offset: usize) -> Option<u8>
        ensures { result ≡ slice_get self.now.text.now offset }
    {
        self.text.as_bytes().get(offset).copied()
    }

    /// The line of a place, without its line break; none where no place of the text is given.
    pub fn line_at(&self, place: Location) -> Option<&'a str> {
        let front = self.text.get(..place.offset)?;
        let begins = match front.rfind('\n') {
            Some(at) => at.saturating_add(1),
            None if front.starts_with(MARK) => MARK.len(),
            None => 0,
        };
        Some(rest_of_line(self.text.get(begins..)?))
    }

    /// Where the key of a path was first found, and its value.
    ///
    /// # Errors
    /// `AllocError` where memory ran out.
    pub fn place(&self, alloc: Global, path: &[String]) -> Result<Option<Place>, AllocError>
        ensures { IfOk result (λ found. IfSome found (IsPlace self.now.text.now)) }
    {
        match path_text(alloc, path)? {
            Some(name) => Ok(self.found.place(name.as_str())),
            None => Ok(None),
        }
    }

    /// The value that begins at a location, as far as it is in that line.
    pub fn value_from(&self, start: Location) -> Span
        ensures span { IsLocation self.now.text.now start → IsSpan self.now.text.now result }
        ensures start { result.start ≡ start }
    {
        let line = line_from(self.text, start.offset);
        self.piece_at(start, value_length(line))
    }

    // The piece that begins at a location and has so many bytes, as far as it is in that line.
    fn piece_at(&self, start: Location, length: usize) -> Span
        ensures span { IsLocation self.now.text.now start → IsSpan self.now.text.now result }
        ensures start { result.start ≡ start }
    {
        let piece = front(line_from(self.text, start.offset), length);
        Span {
            start,
            end: start.behind_all(piece.as_bytes()),
        }
    }
}

// So many bytes of a text from an offset on, where it has them and no character goes on at their ends.
fn piece_of(text: &str, offset: usize, count: usize) -> Option<&str>
    ensures { IfSome result (λ piece. take (length piece.now) (drop offset text.now) ≡ piece.now) }
{
    text.get(offset..offset.checked_add(count)?)
}

// The text from an offset on, up to its first line break.
fn line_from(text: &str, offset: usize) -> &str
    ensures { take (length result.now) (drop offset text.now) ≡ result.now }
{
    match text.get(offset..) {
        Some(rest) => rest_of_line(rest),
        None => "",
    }
}

// So many bytes of a text; all of it where it has fewer, or where a character goes on there.
fn front(text: &str, count: usize) -> &str
    ensures { take (length result.now) text.now ≡ result.now }
{
    match text.get(..count) {
        Some(front) => front,
        None => text,
    }
}

// The text up to its first line break.
fn rest_of_line(text: &str) -> &str
    ensures { take (length result.now) text.now ≡ result.now }
{
    match text.split_once('\n') {
        Some((line, _)) => line.strip_suffix('\r').unwrap_or(line),
        None => text,
    }
}

// The beginning of a text, after its byte order mark.
fn start_of(text: &str) -> Location
    ensures location { IsLocation text.now result }
    ensures offset { result.offset ≡ length (mark_of text.now) }
{
    Location::start(mark_length(text))
}

// How many bytes the byte order mark of a text has, if it has one.
fn mark_length(text: &str) -> usize
    ensures mark { result ≡ length (mark_of text.now) }
    ensures within { result ≤ length text.now }
{
    if text.starts_with(MARK) {
        MARK.len()
    } else {
        0
    }
}

// Where each key of the text was first spelled.
fn keys_in(alloc: Global, text: &str) -> Result<Found, AllocError>
    ensures { IfOk result (ArePlaces text.now) }
{
    let start = start_of(text);
    let mut scanner = Scanner::new(alloc, text, start);
    for byte in bytes_from(text, start.offset) {
        scanner.step(*byte)?;
    }
    Ok(scanner.into_found())
}

// The bytes of a text from an offset on.
fn bytes_from(text: &str, offset: usize) -> &[u8]
    ensures { result.now ≡ drop offset text.now }
{
    match text.as_bytes().split_at_checked(offset) {
        Some((_, rest)) => rest,
        None => &[],
    }
}

// Whether the text spells the key there.
fn is_spelled_at(text: &str, offset: usize, key: &str) -> bool
    ensures { IsTrue result → IsSpelledAt text.now offset key.now }
{
    let Some((_, rest)) = text.as_bytes().split_at_checked(offset) else {
        return false;
    };
    match rest.split_at_checked(key.len()) {
        Some((front, _)) => front == key.as_bytes(),
        None => false,
    }
}
