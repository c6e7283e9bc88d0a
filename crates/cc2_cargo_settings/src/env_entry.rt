//! The entries of the table `env`.
ghost use Rattle.std.specs.Prelude.{◌≡◌, IfOk, option_map, string_bytes};
ghost use Rattle.toml.specs.View.{view};
ghost use Rattle.cc2_error.specs.Outcomes.{Gives};
ghost use Rattle.cc2_value.specs.Copies.{origin_given};
ghost use Rattle.cc2_cargo.specs.Raw.{own_cell, raw_members_at};
ghost use Rattle.cc2_cargo.specs.declared.raw.Raw.{out-Raw};
ghost use Rattle.cc2_cargo_settings.specs.EnvEntries.{entry_at, entry_of_cell, entry_of_data, entry_of_text, entry_variable};
ghost use Rattle.cc2_cargo_settings.specs.EnvEntries.{entry_view, gives_way, own_entry, parts_view, entry_place, rooted, table_entry};
ghost use Rattle.cc2_cargo_settings.specs.Variables.{variable_text};

use crate::cell::other_type;
use crate::env_found::{Parts, find_entry};
use crate::env_part::{is_overridden, mark, part_place, value};
use crate::env_root::seen_from_root;
use crate::found::Found;
use crate::one_or_more::is_no_text;
use crate::sources::Sources;
use crate::variable::{is_any_below, variable_text};
use cc2_base::machine::Machine;
use cc2_cargo::Raw;
use cc2_error::error::{NoMemory, Result};
use cc2_value::Definition;
use std::alloc::Global;

/// An entry: its text, and whether it replaces what the process has.
#[derive(Drop)]
pub(crate) struct Entry {
    pub(crate) text: String,
    pub(crate) force: bool,
}

/// The entry of a name; none where the table has none.
///
/// # Errors
/// Those of `env_variables`.
pub(crate) fn read_entry(
    alloc: Global,
    sources: Sources<'_>,
    dir: &str,
    name: &str,
) -> Result<Option<Entry>>
    ensures { Gives (option_map entry_view) result
        (entry_at (raw_members_at sources.entry.settings.now) sources.entry.machine.now
        dir.now name.now) }
{
    let found = find_entry(sources.settings, name);
    match found.whole {
        Found::Nowhere => Ok(None),
        Found::At(raw) => {
            let entry = entry_of(alloc, sources.machine, dir, name, raw, found.parts)?;
            Ok(Some(entry))
        }
        Found::Blocked => Err(other_type(alloc, &["env", name])?),
    }
}

// The entry that is this value, unless a variable sets another one.
fn entry_of(
    alloc: Global,
    machine: &Machine,
    dir: &str,
    name: &str,
    raw: &Raw,
    parts: Parts<'_>,
) -> Result<Entry>
    ensures { Gives entry_view result
        (entry_of_cell machine.now dir.now name.now (parts_view parts.entry)
        (variable_text machine.now (entry_variable name.now)) (own_cell (out-Raw raw.now))) }
{
    match entry_text(alloc, machine, name)? {
        Some(text) if gives_way(raw, parts) => entry_of_text(alloc, name, text),
        Some(_) => own_entry(alloc, machine, dir, name, raw, parts),
        None => own_entry(alloc, machine, dir, name, raw, parts),
    }
}

// The text of the variable that sets an entry.
fn entry_text<'a>(
    alloc: Global,
    machine: &'a Machine,
    name: &str,
) -> std::result::Result<Option<&'a str>, NoMemory>
    ensures { IfOk result (λ text.
        option_map (λ t. t.now) text ≡ variable_text machine.now (entry_variable name.now)) }
{
    if !is_any_below(machine, "CARGO_ENV_") {
        return Ok(None);
    }
    let variable = variable_name(alloc, name)?;
    Ok(variable_text(machine, variable.as_str()))
}

// The variable that sets an entry.
fn variable_name(alloc: Global, name: &str) -> std::result::Result<String, NoMemory>
    ensures { IfOk result (λ variable. string_bytes variable ≡ entry_variable name.now) }
{
    Ok(format!(in alloc; "CARGO_ENV_{name}")?)
}

// Whether a variable takes the place of this value.
fn gives_way(raw: &Raw, parts: Parts<'_>) -> bool
    ensures { result ≡ gives_way (parts_view parts.entry) (own_cell (out-Raw raw.now)) }
{
    match raw {
        Raw::Single(value) => !is_overridden(value.definition.as_ref()),
        Raw::Array(_) => false,
        Raw::Table(_) => !is_overridden(place(parts)),
    }
}

// Where the entry was set, of which the value is a part.
fn place(parts: Parts<'_>) -> Option<&Definition>
    ensures { origin_given result ≡ entry_place (parts_view parts.entry) }
{
    let value = part_place(parts.value);
    match part_place(parts.relative) {
        None => value,
        Some(mark) => {
            if is_overridden(value) {
                Some(mark)
            } else {
                value
            }
        }
    }
}

// The entry that a variable sets.
fn entry_of_text(alloc: Global, name: &str, text: &str) -> Result<Entry>
    ensures { Gives entry_view result (entry_of_text name.now text.now) }
{
    if is_no_text(text) {
        return Err(other_type(alloc, &["env", name])?);
    }
    Ok(Entry {
        text: String::from_str(alloc, text)?,
        force: false,
    })
}

// The entry that files and the command line set.
fn own_entry(
    alloc: Global,
    machine: &Machine,
    dir: &str,
    name: &str,
    raw: &Raw,
    parts: Parts<'_>,
) -> Result<Entry>
    ensures { Gives entry_view result
        (own_entry machine.now dir.now name.now (parts_view parts.entry)
        (own_cell (out-Raw raw.now))) }
{
    match raw {
        Raw::Single(value) => single_entry(alloc, name, &value.val),
        Raw::Array(_) => Err(other_type(alloc, &["env", name])?),
        Raw::Table(_) => table_entry(alloc, machine, dir, name, parts),
    }
}

// An entry that is a text.
fn single_entry(alloc: Global, name: &str, value: &toml::Value) -> Result<Entry>
    ensures { Gives entry_view result (entry_of_data name.now (view value.now)) }
{
    match value {
        toml::Value::String(text) => Ok(Entry {
            text: String::from_str(alloc, text.as_str())?,
            force: false,
        }),
        _ => Err(other_type(alloc, &["env", name])?),
    }
}

// An entry that is a table.
fn table_entry(
    alloc: Global,
    machine: &Machine,
    dir: &str,
    name: &str,
    parts: Parts<'_>,
) -> Result<Entry>
    ensures { Gives entry_view result
        (table_entry machine.now dir.now name.now (parts_view parts.entry)) }
{
    let text = value(alloc, machine, name, parts.value)?;
    let force = mark(alloc, machine, name, "force", parts.force)?;
    let relative = mark(alloc, machine, name, "relative", parts.relative)?;
    let text = rooted(alloc, dir, parts, relative, text)?;
    Ok(Entry { text, force })
}

// The text, seen from the folder of its place where it is relative.
fn rooted(
    alloc: Global,
    dir: &str,
    parts: Parts<'_>,
    relative: bool,
    text: String,
) -> Result<String>
    ensures { Gives string_bytes result
        (rooted (entry_place (parts_view parts.entry)) dir.now relative (string_bytes text)) }
{
    if relative {
        seen_from_root(alloc, dir, place(parts), text.as_str())
    } else {
        Ok(text)
    }
}
