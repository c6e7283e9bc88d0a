//! The variables that Cargo sets for the programs that it runs: those of the table `env`.
ghost use Rattle.std.specs.Prelude.{◌≡◌, ◌∷◌, [], ℕ, List, IfOk, codes, map, option_map, string_bytes};
ghost use Rattle.std.specs.List.Sorted.{IsStrictlySortedBy};
ghost use Rattle.std.specs.Map.{keys_of};
ghost use Rattle.std.specs.String.{string_cmp};
ghost use Rattle.cc2_cargo.specs.Raw.{raw_members_at};
ghost use Rattle.cc2_error.specs.Causes.{plain, refused_text, refusal_of};
ghost use Rattle.cc2_error.specs.Outcomes.{Gives};
ghost use Rattle.cc2_cargo_settings.specs.EnvEntries.{wrong_at};
ghost use Rattle.cc2_cargo_settings.specs.EnvVariables.{AreNames, env_variables, is_entry, reserved_entry, reserved_text};
ghost use Rattle.cc2_cargo_settings.specs.EnvVariables.{table_variables, variable_at, variables_at, variables_view};

use crate::cell::other_type;
use crate::env_entry::read_entry;
use crate::found::{Found, find};
use crate::sources::Sources;
use cc2_cargo::Raw;
use cc2_error::error::{Error, ErrorKind, NoMemory, ParseCause, Result};
use std::alloc::Global;
use std::collections::BTreeMap;

/// The variables that Cargo 1.95 sets for the programs that it runs, each with its text, in the order of their
/// names (Cargo Reference, Configuration,
/// [`[env]`](https://doc.rust-lang.org/cargo/reference/config.html#env)). An entry is a text, or a table with a
/// `value`. A variable that the process has is kept, unless the entry says `force`. A `relative` value is seen from
/// the folder above the `.cargo` of the file that sets it, or, where the command line does, that sets `relative`;
/// from the directory, where the command line sets both. Cargo sees it from the strongest file that has the entry's
/// table at all: another one where that file doesn't set the value. `CARGO_ENV_NAME` sets an entry as a text, and
/// `CARGO_ENV_NAME_value`, `_force` and `_relative` a part that it has, unless the command line does.
///
/// # Errors
/// - `ErrorKind::ParseFile` with the path where `env` is no table, where an entry is neither a text nor a table with
///   a `value`, where a part is of another type, and where a variable sets an entry to `true`, `false` or a whole
///   number, or `force` or `relative` to anything but `true` and `false`;
/// - `ErrorKind::ParseFile` with a text where there is an entry `CARGO_HOME`, `RUSTUP_HOME` or `RUSTUP_TOOLCHAIN`;
/// - `ErrorKind::NoRoot` where a relative value's file has no folder above its own;
/// - `ErrorKind::Memory` where memory ran out.
///
/// Of several entries with an error it is that of the first name.
pub fn env_variables(
    alloc: Global,
    sources: Sources<'_>,
    dir: &str,
) -> Result<Vec<(String, String)>>
    ensures { let look = raw_members_at sources.entry.settings.now in
        (names : List (List ℕ)) × AreNames look names
        × Gives variables_view result
        (env_variables look sources.entry.machine.now dir.now names) }
{
    match sources.settings.get("env") {
        None => Ok(Vec::new(alloc)),
        Some(raw) => match raw {
            Raw::Table(entries) => table_variables(alloc, sources, dir, entries),
            Raw::Single(_) => no_table(alloc),
            Raw::Array(_) => no_table(alloc),
        },
    }
}

// The error that `env` is no table.
fn no_table(alloc: Global) -> Result<Vec<(String, String)>>
    ensures { Gives variables_view result (wrong_at (codes "env" ∷ [])) }
{
    Err(other_type(alloc, &["env"])?)
}

// The variables of the table's entries, none of which has a reserved name.
fn table_variables(
    alloc: Global,
    sources: Sources<'_>,
    dir: &str,
    entries: &BTreeMap<String, Raw>,
) -> Result<Vec<(String, String)>>
    ensures ascending { IsStrictlySortedBy string_cmp (keys_of entries.now.entries) }
    ensures variables { Gives variables_view result
        (table_variables (raw_members_at sources.entry.settings.now) sources.entry.machine.now
        dir.now (map string_bytes (keys_of entries.now.entries))) }
{
    let variables = variables_of(alloc, sources, dir, entries)?;
    match reserved_entry(
        sources.settings,
        &["CARGO_HOME", "RUSTUP_HOME", "RUSTUP_TOOLCHAIN"],
    ) {
        None => Ok(variables),
        Some(name) => Err(reserved(alloc, name)?),
    }
}

// The variables of the table's entries, one after another.
fn variables_of(
    alloc: Global,
    sources: Sources<'_>,
    dir: &str,
    entries: &BTreeMap<String, Raw>,
) -> Result<Vec<(String, String)>>
    ensures ascending { IsStrictlySortedBy string_cmp (keys_of entries.now.entries) }
    ensures variables { Gives variables_view result
        (variables_at (raw_members_at sources.entry.settings.now) sources.entry.machine.now
        dir.now (map string_bytes (keys_of entries.now.entries))) }
{
    let mut variables = Vec::new(alloc);
    for (name, _raw) in entries.iter() {
        if let Some(text) = text_of(alloc, sources, dir, name.as_str())? {
            let name = String::from_str(alloc, name.as_str())?;
            variables.push((name, text))?;
        }
    }
    Ok(variables)
}

// What the entry of a name sets the variable to: none where the process has it already.
fn text_of(alloc: Global, sources: Sources<'_>, dir: &str, name: &str) -> Result<Option<String>>
    ensures { Gives (option_map string_bytes) result
        (variable_at (raw_members_at sources.entry.settings.now) sources.entry.machine.now
        dir.now name.now) }
{
    let Some(entry) = read_entry(alloc, sources, dir, name)? else {
        return Ok(None);
    };
    if entry.force || sources.machine.variable(name).is_none() {
        Ok(Some(entry.text))
    } else {
        Ok(None)
    }
}

// The first of these names that an entry has.
fn reserved_entry<'a>(settings: &BTreeMap<String, Raw>, names: &[&'a str]) -> Option<&'a str>
    ensures { option_map (λ name. name.now) result
        ≡ reserved_entry (raw_members_at settings.now) (map (λ name. name.now) names.now) }
{
    for name in names {
        if is_entry(settings, *name) {
            return Some(*name);
        }
    }
    None
}

// Whether the table has an entry of this name.
fn is_entry(settings: &BTreeMap<String, Raw>, name: &str) -> bool
    ensures { result ≡ is_entry (raw_members_at settings.now) name.now }
{
    match find(settings, &["env", name]) {
        Found::Nowhere => false,
        Found::At(_) => true,
        Found::Blocked => true,
    }
}

// The error that an entry has a reserved name.
fn reserved(alloc: Global, name: &str) -> std::result::Result<Error, NoMemory>
    ensures { IfOk result (λ error.
        refusal_of error ≡ plain (refused_text (reserved_text name.now))) }
{
    let text = format!(in alloc;
        "setting the `{name}` environment variable is not supported in the `[env]` configuration table"
    )?;
    Ok(Error::new(ErrorKind::ParseFile(ParseCause::Refused { text })))
}
