//! What Cargo reads at a key whose value has one of several types.
ghost use Rattle.std.specs.Prelude.{◌≡◌, IfErr, IfOk, map, option_map};
ghost use Rattle.toml.specs.View.{view};
ghost use Rattle.cc2_error.specs.Causes.{no_memory};
ghost use Rattle.cc2_error.specs.Outcomes.{Gives};
ghost use Rattle.cc2_value.specs.Values.{origin_of};
ghost use Rattle.cc2_cargo.specs.Raw.{own_cell, raw_members_at, raw_value};
ghost use Rattle.cc2_cargo.specs.declared.raw.Raw.{out-Raw};
ghost use Rattle.cc2_cargo_settings.specs.Mixed.{accepted_data, cell_alone, cell_and_text, data_of_text, is_debug_text, mixed_at, set_by_text};
ghost use Rattle.cc2_cargo_settings.specs.Mixed.{set_by_value, set_if, takes_flag, takes_number, takes_text, where_cell, where_nothing};
ghost use Rattle.cc2_cargo_settings.specs.Variables.{given_shown};

use crate::cell::other_type;
use crate::found::{Found, find};
use crate::one_or_more::is_no_text;
use crate::scalar::{int64_of_text, truth_of_text};
use crate::sources::Sources;
use crate::variable::{Given, given_by, not_utf8};
use cc2_cargo::{Raw, is_of_override};
use cc2_error::error::{NoMemory, Result};
use cc2_value::{Definition, Value, defined};
use std::alloc::Global;

/// Which types a setting takes, and which of their values.
#[derive(Clone, Copy)]
pub(crate) enum Mixed {
    /// Whole numbers in the range of an `i32`, and any text.
    Jobs,
    /// Any whole number, `s` and `z`.
    OptLevel,
    /// Booleans, the numbers 0, 1 and 2, and some words.
    Debug,
    /// Booleans, and any text but `true` and `false`.
    Lto,
    /// Booleans, and any text.
    Strip,
}

/// The value at a path: that of the command line, else that of its variable, else that of the nearest file (Cargo Reference,
/// Configuration, [`build.jobs`](https://doc.rust-lang.org/cargo/reference/config.html#buildjobs) and
/// [`profile.<name>.opt-level`](https://doc.rust-lang.org/cargo/reference/config.html#profilenameopt-level)). None where
/// nothing is set.
///
/// # Errors
/// `ErrorKind::ParseFile` with the path where the value isn't one that the setting takes, whether a file, the command line or
/// the variable sets it; `ErrorKind::EnvNotText` where nothing but a variable that isn't UTF-8 is set; `ErrorKind::Memory`.
pub(crate) fn mixed_value(
    alloc: Global,
    sources: Sources<'_>,
    mixed: Mixed,
    path: &[&str],
    name: &str,
) -> Result<Option<Value<toml::Value>>>
    ensures { Gives (option_map raw_value) result
        (mixed_at (raw_members_at sources.entry.settings.now) sources.entry.machine.now mixed
        (map (λ k. k.now) path.now) name.now) }
{
    let given = given_by(sources.machine, name);
    match find(sources.settings, path) {
        Found::Nowhere => where_nothing(alloc, mixed, path, name, given),
        Found::At(raw) => where_cell(alloc, mixed, path, name, given, raw),
        Found::Blocked => Err(other_type(alloc, path)?),
    }
}

// What is read where nothing is at the path.
fn where_nothing(
    alloc: Global,
    mixed: Mixed,
    path: &[&str],
    name: &str,
    given: Given<'_>,
) -> Result<Option<Value<toml::Value>>>
    ensures { Gives (option_map raw_value) result
        (where_nothing mixed (map (λ k. k.now) path.now) name.now (given_shown given.entry)) }
{
    match given {
        Given::Unset => Ok(None),
        Given::Text(text) => set_by_text(alloc, mixed, path, name, text),
        Given::NotUtf8(bytes) => Err(not_utf8(alloc, name, bytes)?),
    }
}

// What is read where this value is at the path.
fn where_cell(
    alloc: Global,
    mixed: Mixed,
    path: &[&str],
    name: &str,
    given: Given<'_>,
    raw: &Raw,
) -> Result<Option<Value<toml::Value>>>
    ensures { Gives (option_map raw_value) result
        (where_cell mixed (map (λ k. k.now) path.now) name.now (given_shown given.entry)
        (own_cell (out-Raw raw.now))) }
{
    match given {
        Given::Text(text) => cell_and_text(alloc, mixed, path, name, text, raw),
        _ => cell_alone(alloc, mixed, path, raw),
    }
}

// What is read where this value is at the path, and no text of the variable.
fn cell_alone(
    alloc: Global,
    mixed: Mixed,
    path: &[&str],
    raw: &Raw,
) -> Result<Option<Value<toml::Value>>>
    ensures { Gives (option_map raw_value) result
        (cell_alone mixed (map (λ k. k.now) path.now) (own_cell (out-Raw raw.now))) }
{
    match raw {
        Raw::Single(value) => set_by_value(alloc, mixed, path, value),
        Raw::Array(_) => Err(other_type(alloc, path)?),
        Raw::Table(_) => Err(other_type(alloc, path)?),
    }
}

// What is read where this value is at the path, and the variable has this text.
fn cell_and_text(
    alloc: Global,
    mixed: Mixed,
    path: &[&str],
    name: &str,
    text: &str,
    raw: &Raw,
) -> Result<Option<Value<toml::Value>>>
    ensures { Gives (option_map raw_value) result
        (cell_and_text mixed (map (λ k. k.now) path.now) name.now text.now
        (own_cell (out-Raw raw.now))) }
{
    match raw {
        Raw::Single(value) if is_of_override(&value.definition) => {
            set_by_value(alloc, mixed, path, value)
        }
        Raw::Array(_) if !is_no_text(text) => Err(other_type(alloc, path)?),
        _ => set_by_text(alloc, mixed, path, name, text),
    }
}

// What a value sets.
fn set_by_value(
    alloc: Global,
    mixed: Mixed,
    path: &[&str],
    value: &Value<toml::Value>,
) -> Result<Option<Value<toml::Value>>>
    ensures { Gives (option_map raw_value) result
        (set_by_value mixed (map (λ k. k.now) path.now) (raw_value value.now)) }
{
    let taken = taken(alloc, mixed, &value.val)?;
    let definition = defined(alloc, value.definition.as_ref())?;
    set_if(alloc, path, definition, taken)
}

// What a variable's text sets.
fn set_by_text(
    alloc: Global,
    mixed: Mixed,
    path: &[&str],
    name: &str,
    text: &str,
) -> Result<Option<Value<toml::Value>>>
    ensures { Gives (option_map raw_value) result
        (set_by_text mixed (map (λ k. k.now) path.now) name.now text.now) }
{
    let value = value_of_text(alloc, text)?;
    let taken = taken(alloc, mixed, &value)?;
    let definition = Definition::Environment(String::from_str(alloc, name)?);
    set_if(alloc, path, Some(definition), taken)
}

// A value with this definition, where one is taken.
fn set_if(
    alloc: Global,
    path: &[&str],
    definition: Option<Definition>,
    taken: Option<toml::Value>,
) -> Result<Option<Value<toml::Value>>>
    ensures { Gives (option_map raw_value) result
        (set_if (map (λ k. k.now) path.now) (option_map origin_of definition)
        (option_map view taken)) }
{
    match taken {
        Some(val) => Ok(Some(Value { val, definition })),
        None => Err(other_type(alloc, path)?),
    }
}

// A copy of a value, where the setting takes it.
fn taken(alloc: Global, mixed: Mixed, value: &toml::Value) -> Result<Option<toml::Value>>
    ensures ok { IfOk result (λ copy. option_map view copy ≡ accepted_data mixed (view value.now)) }
    ensures refused { IfErr result (λ e. e ≡ no_memory) }
{
    match value {
        toml::Value::Boolean(flag) if mixed.takes_flag() => Ok(Some(toml::Value::Boolean(*flag))),
        toml::Value::Integer(number) if mixed.takes_number(*number) => {
            Ok(Some(toml::Value::Integer(*number)))
        }
        toml::Value::String(text) if mixed.takes_text(text.as_str()) => {
            let text = String::from_str(alloc, text.as_str())?;
            Ok(Some(toml::Value::String(text)))
        }
        _ => Ok(None),
    }
}

// What Cargo takes a variable's text for.
fn value_of_text(alloc: Global, text: &str) -> std::result::Result<toml::Value, NoMemory>
    ensures { IfOk result (λ value. view value ≡ data_of_text text.now) }
{
    if let Some(flag) = truth_of_text(text) {
        return Ok(toml::Value::Boolean(flag));
    }
    match int64_of_text(text) {
        Some(number) => Ok(toml::Value::Integer(number)),
        None => Ok(toml::Value::String(String::from_str(alloc, text)?)),
    }
}

impl Mixed {
    // Whether the setting takes booleans.
    fn takes_flag(self) -> bool
        ensures { result ≡ takes_flag self }
    {
        match self {
            Mixed::Debug | Mixed::Lto | Mixed::Strip => true,
            Mixed::Jobs | Mixed::OptLevel => false,
        }
    }

    // Whether it takes this number.
    fn takes_number(self, number: i64) -> bool
        ensures { result ≡ takes_number self number }
    {
        match self {
            Mixed::Jobs => -2147483648 <= number && number <= 2147483647,
            Mixed::OptLevel => true,
            Mixed::Debug => 0 <= number && number <= 2,
            Mixed::Lto | Mixed::Strip => false,
        }
    }

    // Whether it takes this text.
    fn takes_text(self, text: &str) -> bool
        ensures { result ≡ takes_text self text.now }
    {
        match self {
            Mixed::Jobs | Mixed::Strip => true,
            Mixed::Lto => truth_of_text(text).is_none(),
            Mixed::OptLevel => text == "s" || text == "z",
            Mixed::Debug => is_debug_text(text),
        }
    }
}

fn is_debug_text(text: &str) -> bool
    ensures { result ≡ is_debug_text text.now }
{
    text == "none"
        || text == "line-directives-only"
        || text == "line-tables-only"
        || text == "limited"
        || text == "full"
}
