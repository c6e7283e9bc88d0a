//! What Cargo reads at a key whose value is a text or a list of texts.
ghost use Rattle.std.specs.Prelude.{◌≡◌, Ok, Some, map, option_map};
ghost use Rattle.cc2_error.specs.Outcomes.{Gives};
ghost use Rattle.cc2_value.specs.Values.{word_of};
ghost use Rattle.cc2_cargo.specs.Raw.{own_cell, raw_members_at, raw_value};
ghost use Rattle.cc2_cargo.specs.declared.raw.Raw.{out-Raw};
ghost use Rattle.cc2_cargo_settings.specs.Cells.{typed};
ghost use Rattle.cc2_cargo_settings.specs.Found.{at};
ghost use Rattle.cc2_cargo_settings.specs.Shown.{list_view};
ghost use Rattle.cc2_cargo_settings.specs.Values.{list_joined};
ghost use Rattle.cc2_cargo_settings.specs.Variables.{given_shown};
ghost use Rattle.cc2_cargo_settings.specs.TextOrList.{array_and_variable, is_no_text, one_word, set_by_variable};
ghost use Rattle.cc2_cargo_settings.specs.TextOrList.{set_or_none, single_or_variable, text_or_list_at, text_or_list_by};

use crate::cell::{items, one_text, other_type};
use crate::found::{Found, find};
use crate::scalar::{int64_of_text, truth_of_text};
use crate::sources::Sources;
use crate::values::{List, around, words_or_none};
use crate::variable::{Given, given_by, not_utf8};
use cc2_cargo::{Raw, is_of_override};
use cc2_error::error::Result;
use cc2_value::{Definition, Value};
use std::alloc::Global;

/// The text at a path, or the texts of the array there, as one word or as several. A variable's text is taken in the place
/// of a text that no override sets; with an array its words are those of a list, as for `list` (Cargo Reference,
/// Configuration,
/// [`build.target`](https://doc.rust-lang.org/cargo/reference/config.html#buildtarget)). None where nothing is set.
///
/// # Errors
/// `ErrorKind::ParseFile` with the path where something else is there, or a table above it is none, and where Cargo takes
/// the variable's text for a boolean or a whole number; `ErrorKind::EnvNotText` where nothing but a variable that isn't UTF-8
/// is set; `ErrorKind::Memory`.
pub fn text_or_list(
    alloc: Global,
    sources: Sources<'_>,
    path: &[&str],
    name: &str,
) -> Result<Option<List>>
    ensures { Gives list_view result
        (text_or_list_at (raw_members_at sources.entry.settings.now) sources.entry.machine.now
        (map (λ k. k.now) path.now) name.now) }
{
    let given = given_by(sources.machine, name);
    match find(sources.settings, path) {
        Found::Nowhere => set_or_none(alloc, path, name, given),
        Found::At(raw) => read_at(alloc, path, name, given, raw),
        Found::Blocked => Err(other_type(alloc, path)?),
    }
}

// What is read where this value is at the path.
fn read_at(
    alloc: Global,
    path: &[&str],
    name: &str,
    given: Given<'_>,
    raw: &Raw,
) -> Result<Option<List>>
    ensures { Gives list_view result
        (text_or_list_by (map (λ k. k.now) path.now) name.now (given_shown given.entry)
        (at (own_cell (out-Raw raw.now)))) }
{
    match raw {
        Raw::Single(value) => single_or_variable(alloc, path, name, given, value),
        Raw::Array(array) => {
            array_and_variable(alloc, path, name, given, array.items.as_slice())
        }
        Raw::Table(_) => Err(other_type(alloc, path)?),
    }
}

fn set_or_none(alloc: Global, path: &[&str], name: &str, given: Given<'_>) -> Result<Option<List>>
    ensures { Gives list_view result
        (set_or_none (map (λ k. k.now) path.now) name.now (given_shown given.entry)) }
{
    match given {
        Given::Unset => Ok(None),
        Given::Text(text) => set_by_variable(alloc, path, name, text),
        Given::NotUtf8(bytes) => Err(not_utf8(alloc, name, bytes)?),
    }
}

fn set_by_variable(alloc: Global, path: &[&str], name: &str, text: &str) -> Result<Option<List>>
    ensures { Gives list_view result
        (set_by_variable (map (λ k. k.now) path.now) name.now text.now) }
{
    if is_no_text(text) {
        return Err(other_type(alloc, path)?);
    }
    let mut words = Vec::new(alloc);
    words.push(Value {
        val: String::from_str(alloc, text)?,
        definition: Some(Definition::Environment(String::from_str(alloc, name)?)),
    })?;
    Ok(Some(words))
}

fn single_or_variable(
    alloc: Global,
    path: &[&str],
    name: &str,
    given: Given<'_>,
    value: &Value<toml::Value>,
) -> Result<Option<List>>
    ensures { Gives list_view result
        (single_or_variable (map (λ k. k.now) path.now) name.now (raw_value value.now)
        (given_shown given.entry)) }
{
    match given {
        Given::Text(text) if !is_of_override(&value.definition) => {
            set_by_variable(alloc, path, name, text)
        }
        _ => one_word(alloc, path, one_text(alloc, value)?),
    }
}

// A word by itself, where there is one.
fn one_word(alloc: Global, path: &[&str], word: Option<Value<String>>) -> Result<Option<List>>
    ensures { Gives list_view result
        (typed (map (λ k. k.now) path.now) (one_word (option_map word_of word))) }
{
    let Some(word) = word else {
        return Err(other_type(alloc, path)?);
    };
    let mut words = Vec::new(alloc);
    words.push(word)?;
    Ok(Some(words))
}

fn array_and_variable(
    alloc: Global,
    path: &[&str],
    name: &str,
    given: Given<'_>,
    values: &[Value<toml::Value>],
) -> Result<Option<List>>
    ensures { Gives list_view result
        (array_and_variable (map (λ k. k.now) path.now) name.now (map raw_value values.now)
        (given_shown given.entry)) }
{
    match given {
        Given::Text(text) if is_no_text(text) => Err(other_type(alloc, path)?),
        Given::Text(text) => with_words(alloc, name, text, items(alloc, path, values)?),
        _ => items(alloc, path, values),
    }
}

// The words with those of a variable.
fn with_words(alloc: Global, name: &str, text: &str, set: Option<List>) -> Result<Option<List>>
    ensures { Gives list_view result (Ok (list_joined name.now (Some text.now) (list_view set))) }
{
    let words = words_or_none(alloc, set);
    Ok(Some(around(alloc, name, text, words)?))
}

/// Whether Cargo takes a variable's text for a boolean or a whole number.
pub(crate) fn is_no_text(text: &str) -> bool
    ensures { result ≡ is_no_text text.now }
{
    truth_of_text(text).is_some() || int64_of_text(text).is_some()
}
