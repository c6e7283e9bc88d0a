//! The lines that say what was being done when a load was refused.
ghost use Rattle.std.specs.Prelude.{◌≡◌, ◌≢◌, ◌≤◌, IfOk, string_bytes, MatchResult, false};
ghost use Rattle.cc2_error.specs.Causes.{refusal_of, plain, memory};
ghost use Rattle.cc2_de.specs.Contexts.{read_line, parse_line, merge_line, override_line, over_line, IsToldIn};

use cc2_error::error::{Error, ErrorKind, NoMemory};
use std::alloc::Global;

type Line = std::result::Result<String, NoMemory>;

fn read_line(alloc: Global, path: &str) -> Line
    ensures { IfOk result (λ line. string_bytes line ≡ read_line path.now) }
{
    Ok(format!(in alloc; "failed to read `{path}`")?)
}

fn parse_line(alloc: Global, path: &str) -> Line
    ensures { IfOk result (λ line. string_bytes line ≡ parse_line path.now) }
{
    Ok(format!(in alloc; "failed to parse `{path}` as cargo configuration")?)
}

fn merge_line(alloc: Global, from: &str, into: &str) -> Line
    ensures { IfOk result (λ line. string_bytes line ≡ merge_line from.now into.now) }
{
    Ok(format!(in alloc; "failed to merge config from `{from}` into `{into}`")?)
}

fn override_line(alloc: Global, number: usize) -> Line
    ensures { IfOk result (λ line. string_bytes line ≡ override_line number) }
{
    Ok(format!(in alloc; "failed to parse override {number} as cargo configuration")?)
}

fn over_line(alloc: Global, count: usize, place: usize) -> Line
    requires { place ≤ count }
    ensures { IfOk result (λ line. string_bytes line ≡ over_line count place) }
{
    if place == count {
        return Ok(format!(in alloc; "failed to merge config into `--config {count}`")?);
    }
    let from = count - place;
    Ok(format!(in alloc; "failed to merge config from `--config {from}` into `--config {count}`")?)
}

// The error with the line; want of memory has none.
fn told_in(error: Error, line: Line) -> Error
    ensures { MatchResult line (λ text.
        IsToldIn (string_bytes text) (refusal_of error) (refusal_of result)) (λ _.
        refusal_of result ≡ plain memory) }
{
    match line {
        Ok(line) if !wants_memory(&error) => error.with_context(line),
        _ => Error::new(ErrorKind::Memory),
    }
}

// Whether memory was refused.
fn wants_memory(error: &Error) -> bool
    ensures { result ≡ false → (refusal_of error.now).cause ≢ memory }
{
    matches!(error.kind(), ErrorKind::Memory)
}

/// The refusal of a file that wasn't read.
pub fn reading(alloc: Global, path: &str, error: Error) -> Error
    ensures { IsToldIn (read_line path.now) (refusal_of error) (refusal_of result) }
{
    told_in(error, read_line(alloc, path))
}

/// The refusal of a file that is no configuration.
pub fn parsing(alloc: Global, path: &str, error: Error) -> Error
    ensures { IsToldIn (parse_line path.now) (refusal_of error) (refusal_of result) }
{
    told_in(error, parse_line(alloc, path))
}

/// The refusal of a file that doesn't merge with the nearer ones.
pub fn merging(alloc: Global, from: &str, into: &str, error: Error) -> Error
    ensures { IsToldIn (merge_line from.now into.now) (refusal_of error) (refusal_of result) }
{
    told_in(error, merge_line(alloc, from, into))
}

/// The refusal of a text that is no configuration: the override of this number, counted from 1.
pub fn overriding(alloc: Global, number: usize, error: Error) -> Error
    ensures { IsToldIn (override_line number) (refusal_of error) (refusal_of result) }
{
    told_in(error, override_line(alloc, number))
}

/// The refusal of what doesn't merge into the overrides: at a place among so many of them, of which the latest
/// is at 0, or after all of them.
pub fn over_merging(alloc: Global, count: usize, place: usize, error: Error) -> Error
    requires { place ≤ count }
    ensures { IsToldIn (over_line count place) (refusal_of error) (refusal_of result) }
{
    told_in(error, over_line(alloc, count, place))
}
