//! What Cargo reads as a command at a key.
ghost use Rattle.std.specs.Prelude.{◌≡◌, IfOk, map, option_map, string_bytes};
ghost use Rattle.cc2_error.specs.Outcomes.{Gives};
ghost use Rattle.cc2_value.specs.Values.{origin_of};
ghost use Rattle.cc2_cargo.specs.Raw.{raw_members_at, raw_value};
ghost use Rattle.cc2_cargo_settings.specs.Commands.{begins_with_override, command_at, first_is_override, found_or_given, key_line, replaced, with_program, words_beside, words_of_command};
ghost use Rattle.cc2_cargo_settings.specs.Found.{found_view};
ghost use Rattle.cc2_cargo_settings.specs.Shown.{list_view};
ghost use Rattle.cc2_cargo_settings.specs.Variables.{given_shown};

use crate::cell::{items, words_found};
use crate::found::{Found, find};
use crate::program_origin::{first_of, origin_beside, origin_there};
use crate::sources::Sources;
use crate::values::{List, is_override, variable_words};
use crate::variable::{Given, given_by, not_utf8};
use cc2_cargo::{Raw, is_of_override};
use cc2_error::error::{Error, ErrorKind, NoMemory, Result};
use cc2_value::{Definition, Value, defined};
use std::alloc::Global;

/// The words of the command at a path: those of the command line, else those of its variable, else those of the nearest file
/// (Cargo Reference, Configuration,
/// [`target.<triple>.runner`](https://doc.rust-lang.org/cargo/reference/config.html#targettriplerunner)). None where nothing
/// is set. Of an array that a variable replaces no item is read. The program of an array is relative to where the array is set
/// as a whole: where the command line, or a file that includes another one, replaces an array, to where that one is set.
///
/// # Errors
/// `ErrorKind::ParseFile` with the path where something else is there, `ErrorKind::EnvNotText` where nothing but a variable
/// that isn't UTF-8 is set, `ErrorKind::EmptyCommand` where the command has no words, and `ErrorKind::Memory`.
pub fn command(
    alloc: Global,
    sources: Sources<'_>,
    path: &[&str],
    name: &str,
) -> Result<Option<List>>
    ensures { Gives list_view result
        (command_at (raw_members_at sources.entry.settings.now) sources.entry.machine.now
        (map (λ k. k.now) path.now) name.now) }
{
    let given = given_by(sources.machine, name);
    let found = find(sources.settings, path);
    let set = words_of_command(alloc, path, name, given, found)?;
    with_program(alloc, path, set)
}

// The words of a command, where this is at its path.
fn words_of_command(
    alloc: Global,
    path: &[&str],
    name: &str,
    given: Given<'_>,
    found: Found<'_>,
) -> Result<Option<List>>
    ensures { Gives list_view result
        (words_of_command (map (λ k. k.now) path.now) name.now (given_shown given.entry)
        (found_view found.entry)) }
{
    match given {
        Given::Text(text) => words_beside(alloc, path, name, text, found),
        Given::Unset => found_or_given(alloc, path, name, given, found),
        Given::NotUtf8(_) => found_or_given(alloc, path, name, given, found),
    }
}

// The same beside the text of a variable.
fn words_beside(
    alloc: Global,
    path: &[&str],
    name: &str,
    text: &str,
    found: Found<'_>,
) -> Result<Option<List>>
    ensures { Gives list_view result
        (words_beside (map (λ k. k.now) path.now) name.now text.now (found_view found.entry)) }
{
    match found {
        Found::At(Raw::Array(array)) => {
            if first_is_override(array.items.as_slice()) {
                let origin = defined(alloc, array.definition.as_ref())?;
                let origin = origin_beside(alloc, name, origin)?;
                Ok(first_of(origin, items(alloc, path, array.items.as_slice())?))
            } else {
                Ok(Some(variable_words(alloc, name, text)?))
            }
        }
        Found::At(Raw::Single(_)) => found_or_given(alloc, path, name, Given::Text(text), found),
        Found::At(Raw::Table(_)) => found_or_given(alloc, path, name, Given::Text(text), found),
        Found::Nowhere => found_or_given(alloc, path, name, Given::Text(text), found),
        Found::Blocked => found_or_given(alloc, path, name, Given::Text(text), found),
    }
}

// The words of what is found, where a variable doesn't replace them.
fn found_or_given(
    alloc: Global,
    path: &[&str],
    name: &str,
    given: Given<'_>,
    found: Found<'_>,
) -> Result<Option<List>>
    ensures { Gives list_view result (found_or_given (map (λ k. k.now) path.now) name.now
        (given_shown given.entry) (found_view found.entry)) }
{
    let origin = origin_there(alloc, &found)?;
    let set = words_found(alloc, path, found)?;
    replaced(alloc, name, given, origin, set)
}

// Whether the command line sets the first of these values.
fn first_is_override(values: &[Value<toml::Value>]) -> bool
    ensures { result ≡ first_is_override (map raw_value values.now) }
{
    match values {
        [] => false,
        [first, ..] => is_of_override(&first.definition),
    }
}

// The variable's words, unless the command line sets those that are there. The program of these is relative to where they are set
// as a whole.
fn replaced(
    alloc: Global,
    name: &str,
    given: Given<'_>,
    origin: Option<Definition>,
    set: Option<List>,
) -> Result<Option<List>>
    ensures { Gives list_view result (replaced name.now (given_shown given.entry)
        (option_map origin_of origin) (list_view set)) }
{
    match given {
        Given::Unset => Ok(first_of(origin, set)),
        Given::Text(_) if begins_with_override(&set) => Ok(set),
        Given::Text(text) => Ok(Some(variable_words(alloc, name, text)?)),
        Given::NotUtf8(bytes) => {
            if set.is_none() {
                return Err(not_utf8(alloc, name, bytes)?);
            }
            Ok(first_of(origin_beside(alloc, name, origin)?, set))
        }
    }
}

// Whether the command line sets the first word.
fn begins_with_override(set: &Option<List>) -> bool
    ensures { result ≡ begins_with_override (list_view set.now) }
{
    match set {
        None => false,
        Some(words) => match words.first() {
            None => false,
            Some(word) => is_override(word),
        },
    }
}

// A command, which has at least a program.
pub(crate) fn with_program(alloc: Global, path: &[&str], set: Option<List>) -> Result<Option<List>>
    ensures { Gives list_view result
        (with_program (map (λ k. k.now) path.now) (list_view set)) }
{
    match set {
        Some(words) if words.is_empty() => {
            let error = Error::new(ErrorKind::EmptyCommand);
            Err(error.with_context(key_line(alloc, path)?))
        }
        set => Ok(set),
    }
}

// The line that names a key.
fn key_line(alloc: Global, path: &[&str]) -> std::result::Result<String, NoMemory>
    ensures { IfOk result (λ line.
        string_bytes line ≡ key_line (map (λ k. k.now) path.now)) }
{
    let key = path.join(alloc, ".")?;
    Ok(format!(in alloc; "could not load config key `{key}`")?)
}
