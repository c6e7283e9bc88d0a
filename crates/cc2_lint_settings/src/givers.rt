//! At which keys below `target` files give a setting.
ghost use Rattle.std.specs.Prelude.{◌≡◌, ◌++◌, flat_map, map, option_map, IfOk, OnOk};
ghost use Rattle.std.specs.List.{list_any};
ghost use Rattle.toml.specs.View.{table_view, view};
ghost use Rattle.cc2_rustc.specs.Keys.{is_cfg};
ghost use Rattle.cc2_value.specs.Rows.{texts_of};
ghost use Rattle.cc2_lint_settings.specs.Givers.{are_two, cfg_keys, givers_below, givers_in, givers_of, gives, has_below, has_value, is_settled, open_givers, other_than, own_keys, where_true};
ghost use Rattle.cc2_lint_settings.specs.Views.{table_of};

use crate::rival_setting::Setting;
use cc2_base::machine::Machine;
use cc2_base::variable_name::target_variable;
use cc2_error::error::NoMemory;
use cc2_findings::{LintedFile, member};
use std::alloc::Global;

/// The keys `cfg(..)` of these files that give a setting, where it makes a difference which of them hold. None where fewer
/// than two different ones give it, and where the triple has it itself: by its variable, or in a file.
///
/// # Errors
/// `NoMemory` where memory ran out.
pub(crate) fn open_givers<'a>(
    alloc: Global,
    setting: Setting,
    triple: &str,
    machine: &Machine,
    linted: &'a [LintedFile],
) -> Result<Vec<&'a str>, NoMemory>
    ensures { IfOk result (λ keys. texts_of keys.items
        ≡ open_givers setting triple.now machine.now (map table_of linted.now)) }
{
    let givers = givers_of_all(alloc, setting, linted)?;
    let keys = cfg_keys(alloc, givers.as_slice())?;
    if are_two(keys.as_slice()) && !is_settled(alloc, setting, triple, machine, linted)? {
        Ok(keys)
    } else {
        Ok(Vec::new(alloc))
    }
}

// The keys `cfg(..)` of these.
fn cfg_keys<'a>(alloc: Global, keys: &[&'a str]) -> Result<Vec<&'a str>, NoMemory>
    ensures { IfOk result (λ found. texts_of found.items ≡ cfg_keys (texts_of keys.now)) }
{
    let mut found = Vec::new(alloc);
    for key in keys {
        if is_cfg(*key) {
            found.push(*key)?;
        }
    }
    Ok(found)
}

fn is_cfg(key: &str) -> bool
    ensures { result ≡ is_cfg key.now }
{
    key.starts_with("cfg(")
}

// Whether the triple has the setting itself: by its variable, or in one of these files.
fn is_settled(
    alloc: Global,
    setting: Setting,
    triple: &str,
    machine: &Machine,
    linted: &[LintedFile],
) -> Result<bool, NoMemory>
    ensures { IfOk result (λ is.
        is ≡ is_settled setting triple.now machine.now (map table_of linted.now)) }
{
    let keys = own_keys(alloc, setting, triple)?;
    if is_in_any(keys.as_slice(), linted) {
        return Ok(true);
    }
    let variable = target_variable(alloc, triple, setting.variable_end())?;
    Ok(machine.variable(variable.as_str()).is_some())
}

// The keys below `target` that lead to the setting of the triple itself. Cargo cuts a triple at its dots: it looks for
// that of `thumbv8m.main-none-eabi` in `[target.thumbv8m.main-none-eabi]`, a table in a table.
fn own_keys<'a>(alloc: Global, setting: Setting, triple: &'a str) -> Result<Vec<&'a str>, NoMemory>
    ensures { IfOk result (λ keys. texts_of keys.items ≡ own_keys setting triple.now) }
{
    let mut keys: Vec<&'a str> = triple.split('.').collect(alloc)?;
    keys.push(setting.key())?;
    Ok(keys)
}

// Whether one of these files has a value at these keys below `target`.
fn is_in_any(keys: &[&str], linted: &[LintedFile]) -> bool
    ensures { result ≡ list_any (has_below (texts_of keys.now)) (map table_of linted.now) }
{
    for file in linted {
        if has_value(keys, member(&file.found.table, "target")) {
            return true;
        }
    }
    false
}

// Whether there is a value at these keys of a value.
fn has_value(keys: &[&str], value: Option<&toml::Value>) -> bool
    ensures { result ≡ has_value (texts_of keys.now) (option_map (λ v. view v.now) value.entry) }
{
    let mut found = value;
    for key in keys {
        let Some(table) = found else {
            return false;
        };
        found = table.get(*key);
    }
    found.is_some()
}

// Whether there are two different keys.
fn are_two(keys: &[&str]) -> bool
    ensures { result ≡ are_two (texts_of keys.now) }
{
    match keys {
        [] => false,
        [first, others @ ..] => other_than(first, others).is_some(),
    }
}

/// The first of these keys that isn't this one.
pub(crate) fn other_than<'a>(key: &str, keys: &[&'a str]) -> Option<&'a str>
    ensures { option_map (λ other. other.now) result ≡ other_than key.now (texts_of keys.now) }
{
    for other in keys {
        if *other != key {
            return Some(*other);
        }
    }
    None
}

// Of each of these files in turn the keys that give a setting.
fn givers_of_all<'a>(
    alloc: Global,
    setting: Setting,
    linted: &'a [LintedFile],
) -> Result<Vec<&'a str>, NoMemory>
    ensures { IfOk result (λ keys.
        texts_of keys.items ≡ flat_map (givers_of setting) (map table_of linted.now)) }
{
    let mut keys = Vec::new(alloc);
    for file in linted {
        let mut more = givers_of(alloc, setting, &file.found.table)?;
        keys.append(&mut more)?;
    }
    Ok(keys)
}

/// The keys below `target` of a file's table that give a setting, in its order.
///
/// # Errors
/// `NoMemory` where memory ran out.
pub(crate) fn givers_of<'a>(
    alloc: Global,
    setting: Setting,
    table: &'a toml::Table,
) -> Result<Vec<&'a str>, NoMemory>
    ensures { IfOk result (λ keys. texts_of keys.items ≡ givers_of setting (table_view table.now)) }
{
    match member(table, "target") {
        None => Ok(Vec::new(alloc)),
        Some(target) => givers_below(alloc, setting, target),
    }
}

// Those of a value; none where it is no table.
fn givers_below<'a>(
    alloc: Global,
    setting: Setting,
    value: &'a toml::Value,
) -> Result<Vec<&'a str>, NoMemory>
    ensures { IfOk result (λ keys. texts_of keys.items ≡ givers_below setting (view value.now)) }
{
    match value.as_table() {
        None => Ok(Vec::new(alloc)),
        Some(table) => givers_in(alloc, setting, table),
    }
}

// The keys of a table at which a table has the setting.
fn givers_in<'a>(
    alloc: Global,
    setting: Setting,
    table: &'a toml::Table,
) -> Result<Vec<&'a str>, NoMemory>
    ensures { IfOk result (λ keys. texts_of keys.items ≡ givers_in setting (table_view table.now)) }
{
    let mut keys = Vec::new(alloc);
    for (key, value) in table.iter() {
        keep(&mut keys, key.as_str(), gives(setting, value))?;
    }
    Ok(keys)
}

// Whether it is a table with the setting.
fn gives(setting: Setting, value: &toml::Value) -> bool
    ensures { result ≡ gives setting (view value.now) }
{
    value.get(setting.key()).is_some()
}

/// Appends a key to the others, where it is one of them.
///
/// # Errors
/// `NoMemory` where memory ran out.
pub(crate) fn keep<'a>(keys: &mut Vec<&'a str>, key: &'a str, is_one: bool) -> Result<(), NoMemory>
    ensures { OnOk result (texts_of keys.new.items ≡ texts_of keys.old.items
        ++ where_true is_one key.now) }
{
    if is_one {
        keys.push(key)?;
    }
    Ok(())
}
