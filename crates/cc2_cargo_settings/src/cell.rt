//! What merged settings have at a key, as words or as a text.
ghost use Rattle.std.specs.Prelude.{◌≡◌, IfErr, IfOk, map, option_map, string_bytes};
ghost use Rattle.toml.specs.View.{view};
ghost use Rattle.cc2_error.specs.Causes.{no_memory, plain, refusal_of, wrong_type};
ghost use Rattle.cc2_error.specs.Outcomes.{Gives};
ghost use Rattle.cc2_value.specs.Values.{origin_of, word_of};
ghost use Rattle.cc2_cargo.specs.Raw.{own_cell, raw_members_at, raw_value};
ghost use Rattle.cc2_cargo.specs.declared.raw.Raw.{out-Raw};
ghost use Rattle.cc2_cargo_settings.specs.Found.{found_view, lookup_at};
ghost use Rattle.cc2_cargo_settings.specs.Cells.{text_word, read_as, text_of_cell, typed, array_words, words_of_cell, words_of_text};
ghost use Rattle.cc2_cargo_settings.specs.Shown.{list_view};

use crate::found::{Found, find};
use crate::words::{push_words, text_at};
use cc2_cargo::Raw;
use cc2_error::error::{Error, ErrorKind, NoMemory, ParseCause, Result};
use cc2_value::Value;
use std::alloc::Global;
use std::collections::BTreeMap;

/// The words of the text at a path, or the texts of the array there; none where nothing is there.
///
/// # Errors
/// `ErrorKind::ParseFile` with the path where something else is there, and `ErrorKind::Memory`.
pub(crate) fn words_at(
    alloc: Global,
    settings: &BTreeMap<String, Raw>,
    path: &[&str],
) -> Result<Option<Vec<Value<String>>>>
    ensures { let keys = map (λ k. k.now) path.now in Gives list_view result
        (read_as words_of_cell keys (lookup_at (raw_members_at settings.now) keys)) }
{
    words_found(alloc, path, find(settings, path))
}

/// The words of what is at a path.
///
/// # Errors
/// Those of `words_at`.
pub(crate) fn words_found(
    alloc: Global,
    path: &[&str],
    found: Found<'_>,
) -> Result<Option<Vec<Value<String>>>>
    ensures { Gives list_view result
        (read_as words_of_cell (map (λ k. k.now) path.now) (found_view found.entry)) }
{
    match found {
        Found::Nowhere => Ok(None),
        Found::At(raw) => match words_in(alloc, raw)? {
            Some(words) => Ok(Some(words)),
            None => Err(other_type(alloc, path)?),
        },
        Found::Blocked => Err(other_type(alloc, path)?),
    }
}

/// The texts of an array at a path.
///
/// # Errors
/// `ErrorKind::ParseFile` with the path where one of its values is no text, and `ErrorKind::Memory`.
pub(crate) fn items(
    alloc: Global,
    path: &[&str],
    values: &[Value<toml::Value>],
) -> Result<Option<Vec<Value<String>>>>
    ensures { Gives list_view result
        (typed (map (λ k. k.now) path.now) (array_words (map raw_value values.now))) }
{
    match texts(alloc, values)? {
        Some(words) => Ok(Some(words)),
        None => Err(other_type(alloc, path)?),
    }
}

/// The text at a path; none where nothing is there.
///
/// # Errors
/// `ErrorKind::ParseFile` with the path where something else is there, and `ErrorKind::Memory`.
pub(crate) fn single_at(
    alloc: Global,
    settings: &BTreeMap<String, Raw>,
    path: &[&str],
) -> Result<Option<Value<String>>>
    ensures { let keys = map (λ k. k.now) path.now in Gives (option_map word_of) result
        (read_as text_of_cell keys (lookup_at (raw_members_at settings.now) keys)) }
{
    match find(settings, path) {
        Found::Nowhere => Ok(None),
        Found::At(raw) => match text_in(alloc, raw)? {
            Some(text) => Ok(Some(text)),
            None => Err(other_type(alloc, path)?),
        },
        Found::Blocked => Err(other_type(alloc, path)?),
    }
}

/// The error that something of another type is at a path, or above it.
pub fn other_type(alloc: Global, path: &[&str]) -> std::result::Result<Error, NoMemory>
    ensures { IfOk result (λ error.
        refusal_of error ≡ plain (wrong_type (map (λ k. k.now) path.now))) }
{
    let path = owned(alloc, path)?;
    Ok(Error::new(ErrorKind::ParseFile(ParseCause::WrongType { path })))
}

/// The same texts, owned.
///
/// # Errors
/// `NoMemory` where memory ran out.
pub fn owned(alloc: Global, texts: &[&str]) -> std::result::Result<Vec<String>, NoMemory>
    ensures { IfOk result (λ all.
        map string_bytes all.items ≡ map (λ text. text.now) texts.now) }
{
    let mut all = Vec::new(alloc);
    for text in texts {
        all.push(String::from_str(alloc, *text)?)?;
    }
    Ok(all)
}

// The words of a text, or the texts of an array; none of anything else.
fn words_in(alloc: Global, raw: &Raw) -> Result<Option<Vec<Value<String>>>>
    ensures words { IfOk result (λ words.
        list_view words ≡ words_of_cell (own_cell (out-Raw raw.now))) }
    ensures refused { IfErr result (λ e. e ≡ no_memory) }
{
    match raw {
        Raw::Single(value) => words_of_text(alloc, value),
        Raw::Array(array) => texts(alloc, array.items.as_slice()),
        Raw::Table(_) => Ok(None),
    }
}

// The words of a value that is a text.
fn words_of_text(alloc: Global, value: &Value<toml::Value>) -> Result<Option<Vec<Value<String>>>>
    ensures words { IfOk result (λ words. list_view words
        ≡ words_of_text (view value.now.val) (option_map origin_of value.now.definition)) }
    ensures refused { IfErr result (λ e. e ≡ no_memory) }
{
    match &value.val {
        toml::Value::String(text) => {
            let mut words = Vec::new(alloc);
            push_words(alloc, text.as_str(), value.definition.as_ref(), &mut words)?;
            Ok(Some(words))
        }
        _ => Ok(None),
    }
}

// The texts of an array, where all items are texts.
pub(crate) fn texts(
    alloc: Global,
    values: &[Value<toml::Value>],
) -> Result<Option<Vec<Value<String>>>>
    ensures words { IfOk result (λ words.
        list_view words ≡ array_words (map raw_value values.now)) }
    ensures refused { IfErr result (λ e. e ≡ no_memory) }
{
    let mut words = Vec::new(alloc);
    for value in values {
        match one_text(alloc, value)? {
            Some(text) => words.push(text)?,
            None => return Ok(None),
        }
    }
    Ok(Some(words))
}

// A value that is a text.
pub(crate) fn one_text(alloc: Global, value: &Value<toml::Value>) -> Result<Option<Value<String>>>
    ensures text { IfOk result (λ text. option_map word_of text
        ≡ text_word (view value.now.val) (option_map origin_of value.now.definition)) }
    ensures refused { IfErr result (λ e. e ≡ no_memory) }
{
    match &value.val {
        toml::Value::String(text) => {
            Ok(Some(text_at(alloc, text.as_str(), value.definition.as_ref())?))
        }
        _ => Ok(None),
    }
}

// A single text; none of anything else.
fn text_in(alloc: Global, raw: &Raw) -> Result<Option<Value<String>>>
    ensures text { IfOk result (λ text.
        option_map word_of text ≡ text_of_cell (own_cell (out-Raw raw.now))) }
    ensures refused { IfErr result (λ e. e ≡ no_memory) }
{
    match raw {
        Raw::Single(value) => one_text(alloc, value),
        Raw::Array(_) => Ok(None),
        Raw::Table(_) => Ok(None),
    }
}
