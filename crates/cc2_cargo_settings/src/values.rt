//! What Cargo reads at a key: what files, its variable and the command line set there.
ghost use Rattle.std.specs.Prelude.{◌≡◌, ◌++◌, IfErr, IfOk, OnOk, Ok, Some, filter, map, option_map};
ghost use Rattle.cc2_error.specs.Causes.{no_memory};
ghost use Rattle.cc2_error.specs.Outcomes.{Gives};
ghost use Rattle.cc2_value.specs.Cells.{variable};
ghost use Rattle.cc2_value.specs.Values.{word_of, words_of};
ghost use Rattle.cc2_cargo.specs.Raw.{raw_members_at};
ghost use Rattle.cc2_cargo_settings.specs.Shown.{list_view};
ghost use Rattle.cc2_cargo_settings.specs.Variables.{given_shown, set_to};
ghost use Rattle.cc2_cargo_settings.specs.Values.{around, beside, is_no_override, is_override, is_override_text, list_at, list_joined};
ghost use Rattle.cc2_cargo_settings.specs.Values.{replaced_text, text_at, variable_words, words_or_none};
ghost use Rattle.cc2_cargo_settings.specs.Words.{words_of_setting};

use crate::cell::{single_at, words_at};
use crate::sources::Sources;
use crate::variable::{Given, given_by, not_utf8, variable_text};
use crate::words::push_words;
use cc2_cargo::is_of_override;
use cc2_error::error::{NoMemory, Result};
use cc2_value::{Definition, Value};
use std::alloc::Global;

/// Words, each with where it was set.
pub type List = Vec<Value<String>>;

/// The words of the list at a path: those of files, those of its variable, and those of the command line (Cargo Reference,
/// Configuration,
/// [environment variables](https://doc.rust-lang.org/cargo/reference/config.html#environment-variables)). None where
/// nothing is set.
///
/// # Errors
/// `ErrorKind::ParseFile` with the path where something else is there, and `ErrorKind::Memory`.
pub fn list(alloc: Global, sources: Sources<'_>, path: &[&str], name: &str) -> Result<Option<List>>
    ensures { Gives list_view result
        (list_at (raw_members_at sources.entry.settings.now) sources.entry.machine.now
        (map (λ k. k.now) path.now) name.now) }
{
    let set = words_at(alloc, sources.settings, path)?;
    match variable_text(sources.machine, name) {
        None => Ok(set),
        Some(text) => Ok(Some(around(alloc, name, text, words_or_none(alloc, set))?)),
    }
}

/// The text at a path: that of the command line, else that of its variable, else that of the nearest file (Cargo Reference,
/// Configuration,
/// [`target.<triple>.linker`](https://doc.rust-lang.org/cargo/reference/config.html#targettriplelinker)). None where nothing
/// is set.
///
/// # Errors
/// `ErrorKind::ParseFile` with the path where something else is there, `ErrorKind::EnvNotText` where nothing but a variable
/// that isn't UTF-8 is set, and `ErrorKind::Memory`.
pub fn text(
    alloc: Global,
    sources: Sources<'_>,
    path: &[&str],
    name: &str,
) -> Result<Option<Value<String>>>
    ensures { Gives (option_map word_of) result
        (text_at (raw_members_at sources.entry.settings.now) sources.entry.machine.now
        (map (λ k. k.now) path.now) name.now) }
{
    let set = single_at(alloc, sources.settings, path)?;
    replaced_text(alloc, name, given_by(sources.machine, name), set)
}

// The words of a list, none without one.
pub(crate) fn words_or_none(alloc: Global, set: Option<List>) -> List
    ensures { words_of result.items ≡ words_or_none (list_view set) }
{
    match set {
        None => Vec::new(alloc),
        Some(words) => words,
    }
}

// The words with those of a variable in front of those of the command line.
pub(crate) fn around(alloc: Global, name: &str, text: &str, words: List) -> Result<List>
    ensures words { IfOk result (λ all.
        words_of all.items ≡ around name.now text.now (words_of words.items)) }
    ensures refused { IfErr result (λ e. e ≡ no_memory) }
{
    let mut all = Vec::new(alloc);
    let mut overrides = Vec::new(alloc);
    for word in words {
        if is_override(&word) {
            overrides.push(word)?;
        } else {
            all.push(word)?;
        }
    }
    push_variable(alloc, name, text, &mut all)?;
    all.append(&mut overrides)?;
    Ok(all)
}

// Appends the words of a variable.
fn push_variable(alloc: Global, name: &str, text: &str, words: &mut List) -> Result<()>
    ensures words { OnOk result (words_of words.new.items
        ≡ words_of words.old.items ++ words_of_setting (Some (variable name.now)) text.now) }
    ensures refused { IfErr result (λ e. e ≡ no_memory) }
{
    let definition = Definition::Environment(String::from_str(alloc, name)?);
    push_words(alloc, text, Some(&definition), words)
}

// Whether the command line sets a word.
pub(crate) fn is_override(word: &Value<String>) -> bool
    ensures { result ≡ is_override (word_of word.now) }
{
    is_of_override(&word.definition)
}

// The words of a variable.
pub(crate) fn variable_words(alloc: Global, name: &str, text: &str) -> Result<List>
    ensures words { IfOk result (λ words.
        words_of words.items ≡ variable_words name.now text.now) }
    ensures refused { IfErr result (λ e. e ≡ no_memory) }
{
    let mut words = Vec::new(alloc);
    push_variable(alloc, name, text, &mut words)?;
    Ok(words)
}

// The variable's text, unless the command line sets the one that is there.
fn replaced_text(
    alloc: Global,
    name: &str,
    given: Given<'_>,
    set: Option<Value<String>>,
) -> Result<Option<Value<String>>>
    ensures { Gives (option_map word_of) result
        (replaced_text name.now (given_shown given.entry) (option_map word_of set)) }
{
    match given {
        Given::Unset => Ok(set),
        Given::Text(text) => Ok(Some(text_or_override(alloc, name, text, set)?)),
        Given::NotUtf8(bytes) => match set {
            Some(word) => Ok(Some(beside(alloc, name, word)?)),
            None => Err(not_utf8(alloc, name, bytes)?),
        },
    }
}

// The text that is there where the command line sets it, else the variable's.
fn text_or_override(
    alloc: Global,
    name: &str,
    text: &str,
    set: Option<Value<String>>,
) -> std::result::Result<Value<String>, NoMemory>
    ensures { IfOk result (λ word.
        Ok (Some (word_of word))
        ≡ replaced_text name.now (set_to text.now) (option_map word_of set)) }
{
    match set {
        Some(word) if is_override(&word) => Ok(word),
        _ => Ok(Value {
            val: String::from_str(alloc, text)?,
            definition: Some(Definition::Environment(String::from_str(alloc, name)?)),
        }),
    }
}

// The word as if the variable had set it, unless the command line sets it.
pub(crate) fn beside(
    alloc: Global,
    name: &str,
    word: Value<String>,
) -> std::result::Result<Value<String>, NoMemory>
    ensures { IfOk result (λ changed. word_of changed ≡ beside name.now (word_of word)) }
{
    if is_override(&word) {
        return Ok(word);
    }
    let definition = Some(Definition::Environment(String::from_str(alloc, name)?));
    Ok(Value {
        val: word.val,
        definition,
    })
}
