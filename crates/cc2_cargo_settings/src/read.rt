//! What Cargo reads at a path as a kind of settings, as merged settings have it.
ghost use Rattle.std.specs.Prelude.{◌≡◌, IfErr, IfOk, map, option_map};
ghost use Rattle.toml.specs.Data.{boolean, integer};
ghost use Rattle.cc2_error.specs.Causes.{no_memory};
ghost use Rattle.cc2_error.specs.Outcomes.{Gives};
ghost use Rattle.cc2_value.specs.Values.{word_of, words_of};
ghost use Rattle.cc2_cargo.specs.Raw.{raw_at, raw_members_at, raw_value};
ghost use Rattle.cc2_cargo_settings.specs.Changes.{first_cells, flag_cells, has_array, read_at, single_cells, text_cells};
ghost use Rattle.cc2_cargo_settings.specs.Changes.{word_cells, word_value, words_cells};
ghost use Rattle.cc2_cargo_settings.specs.Found.{lookup_at};
ghost use Rattle.cc2_cargo_settings.specs.Scalars.{scalar_view};
ghost use Rattle.cc2_cargo_settings.specs.Shown.{list_view};
ghost use Rattle.cc2_cargo_settings.specs.declared.setting.Kind.TheVariants.{TextOrWords};

use crate::check::checked_text;
use crate::commands::command;
use crate::found::{Found, find};
use crate::mixed::mixed_value;
use crate::one_or_more::text_or_list;
use crate::scalar::{flag, number};
use crate::setting::Kind;
use crate::sources::Sources;
use crate::values::{List, list, text};
use cc2_cargo::{Raw, RawArray};
use cc2_error::error::{NoMemory, Result};
use cc2_value::{Definition, Value};
use std::alloc::Global;

/// What Cargo reads at a path as this kind, with the variable of this name.
///
/// # Errors
/// Those of the functions that read the kind.
pub(crate) fn read(
    alloc: Global,
    sources: Sources<'_>,
    path: &[&str],
    kind: Kind,
    name: &str,
) -> Result<Option<Raw>>
    ensures { Gives (option_map raw_at) result
        (read_at (raw_members_at sources.entry.settings.now) sources.entry.machine.now kind
        (map (λ k. k.now) path.now) name.now) }
{
    match kind {
        Kind::Text => Ok(text_raw(text(alloc, sources, path, name)?)),
        Kind::Flag => Ok(flag_raw(flag(alloc, sources, path, name)?)),
        Kind::Checked(check) => Ok(text_raw(checked_text(alloc, sources, check, path, name)?)),
        Kind::Number(width) => Ok(number_raw(number(alloc, sources, width, path, name)?)),
        Kind::Mixed(types) => Ok(value_raw(mixed_value(alloc, sources, types, path, name)?)),
        Kind::Words => words_raw(alloc, list(alloc, sources, path, name)?),
        Kind::Command => words_raw(alloc, command(alloc, sources, path, name)?),
        Kind::TextOrWords => text_or_words(alloc, sources, path, name),
        Kind::TextOrList => {
            let words = text_or_list(alloc, sources, path, name)?;
            if has_array(sources, path) {
                words_raw(alloc, words)
            } else {
                first_raw(alloc, words)
            }
        }
    }
}

// What Cargo reads at a path as a text or a list of words.
fn text_or_words(
    alloc: Global,
    sources: Sources<'_>,
    path: &[&str],
    name: &str,
) -> Result<Option<Raw>>
    ensures { Gives (option_map raw_at) result
        (read_at (raw_members_at sources.entry.settings.now) sources.entry.machine.now TextOrWords
        (map (λ k. k.now) path.now) name.now) }
{
    if has_array(sources, path) {
        words_raw(alloc, list(alloc, sources, path, name)?)
    } else {
        Ok(text_raw(text(alloc, sources, path, name)?))
    }
}

// Whether an array is at a path.
fn has_array(sources: Sources<'_>, path: &[&str]) -> bool
    ensures { result ≡ has_array
        (lookup_at (raw_members_at sources.entry.settings.now) (map (λ k. k.now) path.now)) }
{
    match find(sources.settings, path) {
        Found::At(Raw::Array(_)) => true,
        _ => false,
    }
}

// The first word as a text, and no words as an array.
fn first_raw(alloc: Global, words: Option<List>) -> Result<Option<Raw>>
    ensures ok { IfOk result (λ raw.
        option_map raw_at raw ≡ option_map first_cells (list_view words)) }
    ensures refused { IfErr result (λ e. e ≡ no_memory) }
{
    let Some(words) = words else {
        return Ok(None);
    };
    Ok(Some(first_word(alloc, words)?))
}

fn first_word(alloc: Global, words: List) -> Result<Raw>
    ensures ok { IfOk result (λ raw. raw_at raw ≡ first_cells (words_of words.items)) }
    ensures refused { IfErr result (λ e. e ≡ no_memory) }
{
    let mut words = words;
    if words.is_empty() {
        return array(alloc, words);
    }
    let first = words.remove(0);
    Ok(text_single(first))
}

// A single value of any type.
fn value_raw(value: Option<Value<toml::Value>>) -> Option<Raw>
    ensures { option_map raw_at result
        ≡ option_map single_cells (option_map raw_value value) }
{
    match value {
        None => None,
        Some(value) => Some(single(value)),
    }
}

// A text.
fn text_raw(text: Option<Value<String>>) -> Option<Raw>
    ensures { option_map raw_at result ≡ option_map word_cells (option_map word_of text) }
{
    match text {
        None => None,
        Some(text) => Some(text_single(text)),
    }
}

// A single text.
fn text_single(text: Value<String>) -> Raw
    ensures { raw_at result ≡ word_cells (word_of text) }
{
    single(toml_text(text))
}

// A boolean.
fn flag_raw(flag: Option<Value<bool>>) -> Option<Raw>
    ensures { option_map raw_at result
        ≡ option_map single_cells (option_map (scalar_view boolean) flag) }
{
    match flag {
        None => None,
        Some(flag) => Some(single(toml_flag(flag))),
    }
}

// A whole number.
fn number_raw(number: Option<Value<i64>>) -> Option<Raw>
    ensures { option_map raw_at result
        ≡ option_map single_cells (option_map (scalar_view integer) number) }
{
    match number {
        None => None,
        Some(number) => Some(single(toml_number(number))),
    }
}

// A single value.
fn single(value: Value<toml::Value>) -> Raw
    ensures { raw_at result ≡ single_cells (raw_value value) }
{
    Raw::Single(value)
}

// A text, as TOML has it.
fn toml_text(text: Value<String>) -> Value<toml::Value>
    ensures { raw_value result ≡ word_value (word_of text) }
{
    Value {
        val: toml::Value::String(text.val),
        definition: text.definition,
    }
}

// A boolean, as TOML has it.
fn toml_flag(flag: Value<bool>) -> Value<toml::Value>
    ensures { raw_value result ≡ scalar_view boolean flag }
{
    Value {
        val: toml::Value::Boolean(flag.val),
        definition: flag.definition,
    }
}

// A whole number, as TOML has it.
fn toml_number(number: Value<i64>) -> Value<toml::Value>
    ensures { raw_value result ≡ scalar_view integer number }
{
    Value {
        val: toml::Value::Integer(number.val),
        definition: number.definition,
    }
}

// An array of texts.
fn words_raw(alloc: Global, words: Option<List>) -> Result<Option<Raw>>
    ensures ok { IfOk result (λ raw.
        option_map raw_at raw ≡ option_map words_cells (list_view words)) }
    ensures refused { IfErr result (λ e. e ≡ no_memory) }
{
    match words {
        None => Ok(None),
        Some(words) => Ok(Some(array(alloc, words)?)),
    }
}

fn array(alloc: Global, words: List) -> Result<Raw>
    ensures ok { IfOk result (λ raw. raw_at raw ≡ words_cells (words_of words.items)) }
    ensures refused { IfErr result (λ e. e ≡ no_memory) }
{
    let mut items = Vec::new(alloc);
    for word in words {
        items.push(toml_text(word))?;
    }
    Ok(Raw::Array(RawArray {
        items,
        definition: None,
        turn: 0,
    }))
}

/// A boolean that a variable sets.
///
/// # Errors
/// `NoMemory` where memory ran out.
pub(crate) fn flag_by(alloc: Global, name: &str, val: bool) -> std::result::Result<Raw, NoMemory>
    ensures { IfOk result (λ raw. raw_at raw ≡ flag_cells name.now val) }
{
    let definition = Some(Definition::Environment(String::from_str(alloc, name)?));
    Ok(single(toml_flag(Value { val, definition })))
}

/// A text that a variable sets.
///
/// # Errors
/// `NoMemory` where memory ran out.
pub(crate) fn text_by(alloc: Global, name: &str, text: &str) -> std::result::Result<Raw, NoMemory>
    ensures { IfOk result (λ raw. raw_at raw ≡ text_cells name.now text.now) }
{
    let definition = Some(Definition::Environment(String::from_str(alloc, name)?));
    let val = String::from_str(alloc, text)?;
    Ok(single(toml_text(Value { val, definition })))
}
