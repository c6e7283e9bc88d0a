//! The parts of an entry of the table `env`: its value and its marks.
ghost use Rattle.std.specs.Prelude.{◌≡◌, IfOk, codes, option_map, string_bytes};
ghost use Rattle.toml.specs.View.{view};
ghost use Rattle.cc2_error.specs.Outcomes.{Gives};
ghost use Rattle.cc2_value.specs.Copies.{origin_given};
ghost use Rattle.cc2_value.specs.Values.{origin_of};
ghost use Rattle.cc2_cargo.specs.Raw.{is_of_override, own_cell};
ghost use Rattle.cc2_cargo.specs.declared.raw.Raw.{out-Raw};
ghost use Rattle.cc2_cargo_settings.specs.EnvEntries.{mark_in, mark_of_cell, mark_of_data, mark_set, part_text, place_in};
ghost use Rattle.cc2_cargo_settings.specs.EnvEntries.{value_found, value_of_cell, value_of_data, value_or_variable, variable_of_part};
ghost use Rattle.cc2_cargo_settings.specs.Found.{at, found_view};

use crate::cell::other_type;
use crate::found::Found;
use crate::scalar::truth_of_text;
use crate::variable::{is_any_below, variable_text};
use cc2_base::machine::Machine;
use cc2_cargo::Raw;
use cc2_error::error::{NoMemory, Result};
use cc2_value::{Definition, Value};
use std::alloc::Global;

/// The value of an entry that is a table.
///
/// # Errors
/// `ErrorKind::ParseFile` with the path where there is none or it is no text, and `ErrorKind::Memory`.
pub(crate) fn value(
    alloc: Global,
    machine: &Machine,
    name: &str,
    found: Found<'_>,
) -> Result<String>
    ensures { Gives string_bytes result
        (value_found machine.now name.now (found_view found.entry)) }
{
    match found {
        Found::Nowhere => Err(other_type(alloc, &["env", name])?),
        Found::At(raw) => value_of(alloc, machine, name, raw),
        Found::Blocked => Err(other_type(alloc, &["env", name, "value"])?),
    }
}

// The value that is this one.
fn value_of(alloc: Global, machine: &Machine, name: &str, raw: &Raw) -> Result<String>
    ensures { Gives string_bytes result
        (value_of_cell machine.now name.now (own_cell (out-Raw raw.now))) }
{
    match raw {
        Raw::Single(value) => single_value(alloc, machine, name, value),
        Raw::Array(_) => Err(other_type(alloc, &["env", name, "value"])?),
        Raw::Table(_) => Err(other_type(alloc, &["env", name, "value"])?),
    }
}

// The value that is this single one.
fn single_value(
    alloc: Global,
    machine: &Machine,
    name: &str,
    value: &Value<toml::Value>,
) -> Result<String>
    ensures { Gives string_bytes result (value_of_data machine.now name.now
        (view value.now.val) (option_map origin_of value.now.definition)) }
{
    match &value.val {
        toml::Value::String(text) => {
            Ok(value_set(
                alloc,
                machine,
                name,
                text.as_str(),
                value.definition.as_ref(),
            )?)
        }
        _ => Err(other_type(alloc, &["env", name, "value"])?),
    }
}

// A value, unless a variable sets another one.
fn value_set(
    alloc: Global,
    machine: &Machine,
    name: &str,
    own: &str,
    definition: Option<&Definition>,
) -> std::result::Result<String, NoMemory>
    ensures { IfOk result (λ text. string_bytes text
        ≡ value_or_variable (part_text machine.now name.now (codes "value"))
        own.now (origin_given definition.entry)) }
{
    match part_text(alloc, machine, name, "value")? {
        None => Ok(String::from_str(alloc, own)?),
        Some(text) => {
            if is_overridden(definition) {
                Ok(String::from_str(alloc, own)?)
            } else {
                Ok(String::from_str(alloc, text)?)
            }
        }
    }
}

// The text of the variable that sets a part of an entry.
fn part_text<'a>(
    alloc: Global,
    machine: &'a Machine,
    name: &str,
    part: &str,
) -> std::result::Result<Option<&'a str>, NoMemory>
    ensures { IfOk result (λ text.
        option_map (λ t. t.now) text ≡ part_text machine.now name.now part.now) }
{
    if !is_any_below(machine, "CARGO_ENV_") {
        return Ok(None);
    }
    let variable = variable_name(alloc, name, part)?;
    Ok(variable_text(machine, variable.as_str()))
}

// The variable that sets a part of an entry.
fn variable_name(alloc: Global, name: &str, part: &str) -> std::result::Result<String, NoMemory>
    ensures { IfOk result (λ variable. string_bytes variable ≡ variable_of_part name.now part.now) }
{
    Ok(format!(in alloc; "CARGO_ENV_{name}_{part}")?)
}

/// Whether the command line set it.
pub(crate) fn is_overridden(definition: Option<&Definition>) -> bool
    ensures { result ≡ is_of_override (origin_given definition.entry) }
{
    match definition {
        Some(Definition::Cli(_)) => true,
        _ => false,
    }
}

/// Where a part of an entry was set.
pub(crate) fn part_place<'a>(found: Found<'a>) -> Option<&'a Definition>
    ensures { origin_given result ≡ place_in (found_view found.entry) }
{
    match found {
        Found::Nowhere => None,
        Found::At(raw) => own_place(raw),
        Found::Blocked => None,
    }
}

// Where a single value was set.
fn own_place(raw: &Raw) -> Option<&Definition>
    ensures { origin_given result ≡ place_in (at (own_cell (out-Raw raw.now))) }
{
    match raw {
        Raw::Single(value) => value.definition.as_ref(),
        Raw::Array(_) => None,
        Raw::Table(_) => None,
    }
}

/// A mark of an entry that is a table, `force` or `relative`: false where it isn't there.
///
/// # Errors
/// `ErrorKind::ParseFile` with the path where it is neither true nor false, and `ErrorKind::Memory`.
pub(crate) fn mark(
    alloc: Global,
    machine: &Machine,
    name: &str,
    part: &str,
    found: Found<'_>,
) -> Result<bool>
    ensures { Gives (λ b. b) result
        (mark_in machine.now name.now part.now (found_view found.entry)) }
{
    match found {
        Found::Nowhere => Ok(false),
        Found::At(raw) => mark_of(alloc, machine, name, part, raw),
        Found::Blocked => Err(other_type(alloc, &["env", name, part])?),
    }
}

// The mark that is this value.
fn mark_of(alloc: Global, machine: &Machine, name: &str, part: &str, raw: &Raw) -> Result<bool>
    ensures { Gives (λ b. b) result
        (mark_of_cell machine.now name.now part.now (own_cell (out-Raw raw.now))) }
{
    match raw {
        Raw::Single(value) => single_mark(alloc, machine, name, part, value),
        Raw::Array(_) => Err(other_type(alloc, &["env", name, part])?),
        Raw::Table(_) => Err(other_type(alloc, &["env", name, part])?),
    }
}

// The mark that is this single value.
fn single_mark(
    alloc: Global,
    machine: &Machine,
    name: &str,
    part: &str,
    value: &Value<toml::Value>,
) -> Result<bool>
    ensures { Gives (λ b. b) result (mark_of_data machine.now name.now part.now
        (view value.now.val) (option_map origin_of value.now.definition)) }
{
    match &value.val {
        toml::Value::Boolean(own) => {
            mark_set(alloc, machine, name, part, *own, value.definition.as_ref())
        }
        _ => Err(other_type(alloc, &["env", name, part])?),
    }
}

// A mark, unless a variable sets another one.
fn mark_set(
    alloc: Global,
    machine: &Machine,
    name: &str,
    part: &str,
    own: bool,
    definition: Option<&Definition>,
) -> Result<bool>
    ensures { Gives (λ b. b) result (mark_set name.now part.now
        (part_text machine.now name.now part.now) own (origin_given definition.entry)) }
{
    let Some(text) = part_text(alloc, machine, name, part)? else {
        return Ok(own);
    };
    match truth_of_text(text) {
        None => Err(other_type(alloc, &["env", name, part])?),
        Some(set) => {
            if is_overridden(definition) {
                Ok(own)
            } else {
                Ok(set)
            }
        }
    }
}
