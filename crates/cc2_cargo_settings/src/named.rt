//! The settings below tables whose keys are names that users choose, as those of aliases and registries.
ghost use Rattle.std.specs.Prelude.{◌≡◌, ◌∷◌, [], All, flat_map, map};
ghost use Rattle.cc2_cargo.specs.Raw.{raw_members_at};
ghost use Rattle.cc2_cargo_settings.specs.Changes.{HasChanges, change_of};
ghost use Rattle.cc2_cargo_settings.specs.Settings.{plain_row};
ghost use Rattle.cc2_cargo_settings.specs.Named.{HasFront, below_view, name_asked, named_rows, names_set, named_table_view, row_below, rows_of_name, rows_of_table};

use crate::change::{Change, one_more};
use crate::named_tables::{Below, NamedTable, tables};
use crate::names::key_variable;
use crate::setting::Kind;
use crate::sources::Sources;
use crate::variable::is_any_below;
use cc2_cargo::Raw;
use cc2_error::error::Result;
use std::alloc::Global;

/// The changes with those that variables make at names: at those that the settings have, at those that there always are, as the
/// profile `dev`, and at the one that a key asks for.
///
/// # Errors
/// The first setting's that can't be read, and `ErrorKind::Memory`.
pub(crate) fn with_names(
    alloc: Global,
    sources: Sources<'_>,
    asked: &[&str],
    changes: Vec<Change>,
) -> Result<Vec<Change>>
    ensures { HasChanges (raw_members_at sources.entry.settings.now) sources.entry.machine.now
        (map (λ k. k.now) asked.now)
        (named_rows sources.entry.settings.now (map (λ k. k.now) asked.now))
        (map change_of changes.items) result }
{
    with_tables(alloc, sources, asked, tables(), changes)
}

// The changes with those at names of these tables.
fn with_tables(
    alloc: Global,
    sources: Sources<'_>,
    asked: &[&str],
    tables: &[NamedTable],
    changes: Vec<Change>,
) -> Result<Vec<Change>>
    requires { All HasFront tables.now }
    ensures { let settings = sources.entry.settings.now in
        HasChanges (raw_members_at settings) sources.entry.machine.now
        (map (λ k. k.now) asked.now)
        (flat_map (rows_of_table settings (map (λ k. k.now) asked.now))
        (map named_table_view tables.now))
        (map change_of changes.items) result }
{
    let mut changes = changes;
    for named in tables {
        changes = with_table(alloc, sources, asked, *named, changes)?;
    }
    Ok(changes)
}

// The changes with those at names of a table. Where no variable is below it, no name is looked at.
fn with_table(
    alloc: Global,
    sources: Sources<'_>,
    asked: &[&str],
    named: NamedTable,
    changes: Vec<Change>,
) -> Result<Vec<Change>>
    requires { HasFront named }
    ensures { let settings = sources.entry.settings.now in
        HasChanges (raw_members_at settings) sources.entry.machine.now
        (map (λ k. k.now) asked.now)
        (rows_of_table settings (map (λ k. k.now) asked.now) (named_table_view named))
        (map change_of changes.items) result }
{
    if !is_any_below(sources.machine, named.front) {
        return Ok(changes);
    }
    let changes = with_names_always(alloc, sources, asked, named, changes)?;
    let changes = with_names_set(alloc, sources, asked, named, changes)?;
    with_name_asked(alloc, sources, asked, named, changes)
}

// The changes with those at the names that there always are in a table.
fn with_names_always(
    alloc: Global,
    sources: Sources<'_>,
    asked: &[&str],
    named: NamedTable,
    changes: Vec<Change>,
) -> Result<Vec<Change>>
    ensures { HasChanges (raw_members_at sources.entry.settings.now) sources.entry.machine.now
        (map (λ k. k.now) asked.now)
        (flat_map (rows_of_name (named_table_view named)) (map (λ name. name.now) named.always.now))
        (map change_of changes.items) result }
{
    let mut changes = changes;
    for name in named.always {
        changes = with_name(alloc, sources, asked, named, *name, changes)?;
    }
    Ok(changes)
}

// The changes with those at the names that the settings have in a table.
fn with_names_set(
    alloc: Global,
    sources: Sources<'_>,
    asked: &[&str],
    named: NamedTable,
    changes: Vec<Change>,
) -> Result<Vec<Change>>
    ensures { let settings = sources.entry.settings.now in
        HasChanges (raw_members_at settings) sources.entry.machine.now
        (map (λ k. k.now) asked.now)
        (flat_map (rows_of_name (named_table_view named)) (names_set settings named.table.now))
        (map change_of changes.items) result }
{
    let Some(Raw::Table(members)) = sources.settings.get(named.table) else {
        return Ok(changes);
    };
    let mut changes = changes;
    for (name, _) in members.iter() {
        changes = with_name(alloc, sources, asked, named, name.as_str(), changes)?;
    }
    Ok(changes)
}

// The changes with those at the name in a table that a key asks for.
fn with_name_asked(
    alloc: Global,
    sources: Sources<'_>,
    asked: &[&str],
    named: NamedTable,
    changes: Vec<Change>,
) -> Result<Vec<Change>>
    ensures { HasChanges (raw_members_at sources.entry.settings.now) sources.entry.machine.now
        (map (λ k. k.now) asked.now)
        (flat_map (rows_of_name (named_table_view named))
        (name_asked named.table.now (map (λ k. k.now) asked.now)))
        (map change_of changes.items) result }
{
    match asked {
        [key, name, ..] if **key == *named.table => {
            with_name(alloc, sources, asked, named, *name, changes)
        }
        _ => Ok(changes),
    }
}

// The changes with those below a name of a table.
fn with_name(
    alloc: Global,
    sources: Sources<'_>,
    asked: &[&str],
    named: NamedTable,
    name: &str,
    changes: Vec<Change>,
) -> Result<Vec<Change>>
    ensures { HasChanges (raw_members_at sources.entry.settings.now) sources.entry.machine.now
        (map (λ k. k.now) asked.now)
        (rows_of_name (named_table_view named) name.now)
        (map change_of changes.items) result }
{
    let mut changes = changes;
    for below in named.below {
        changes = with_below(alloc, sources, asked, named.table, name, *below, changes)?;
    }
    Ok(changes)
}

// The changes with that at a key below a name, or at the name itself.
fn with_below<'a>(
    alloc: Global,
    sources: Sources<'_>,
    asked: &[&str],
    table: &'a str,
    name: &'a str,
    below: Below,
    changes: Vec<Change>,
) -> Result<Vec<Change>>
    ensures { HasChanges (raw_members_at sources.entry.settings.now) sources.entry.machine.now
        (map (λ k. k.now) asked.now)
        (row_below table.now name.now (below_view below) ∷ [])
        (map change_of changes.items) result }
{
    let kind = below.kind;
    match below.key {
        None => with_path(alloc, sources, asked, &[table, name], kind, changes),
        Some(key) => with_key(alloc, sources, asked, table, name, key, kind, changes),
    }
}

// The changes with that at a key below a name.
fn with_key<'a>(
    alloc: Global,
    sources: Sources<'_>,
    asked: &[&str],
    table: &'a str,
    name: &'a str,
    key: &'a str,
    kind: Kind,
    changes: Vec<Change>,
) -> Result<Vec<Change>>
    ensures { HasChanges (raw_members_at sources.entry.settings.now) sources.entry.machine.now
        (map (λ k. k.now) asked.now)
        (plain_row kind (table.now ∷ (name.now ∷ (key.now ∷ []))) ∷ [])
        (map change_of changes.items) result }
{
    with_path(alloc, sources, asked, &[table, name, key], kind, changes)
}

// The changes with that at a path, by the variable of its keys.
fn with_path(
    alloc: Global,
    sources: Sources<'_>,
    asked: &[&str],
    path: &[&str],
    kind: Kind,
    changes: Vec<Change>,
) -> Result<Vec<Change>>
    ensures { HasChanges (raw_members_at sources.entry.settings.now) sources.entry.machine.now
        (map (λ k. k.now) asked.now)
        (plain_row kind (map (λ k. k.now) path.now) ∷ [])
        (map change_of changes.items) result }
{
    let name = key_variable(alloc, path)?;
    let name = name.as_str();
    one_more(alloc, sources, asked, path, name, kind, None, changes)
}
