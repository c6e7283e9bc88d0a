//! What variables set at a setting.
ghost use Rattle.std.specs.Prelude.{◌≡◌, ◌∷◌, [], All, map, option_map, string_bytes};
ghost use Rattle.cc2_error.specs.Outcomes.{Gives};
ghost use Rattle.cc2_cargo.specs.Raw.{raw_at, raw_members_at};
ghost use Rattle.cc2_cargo_settings.specs.Changes.{HasChanges, change_asked, change_at, change_of};
ghost use Rattle.cc2_cargo_settings.specs.Changes.{meets, own_at, own_bytes, own_given, own_text};
ghost use Rattle.cc2_cargo_settings.specs.Names.{key_variable};
ghost use Rattle.cc2_cargo_settings.specs.Settings.{HasName, row, row_of};
ghost use Rattle.cc2_cargo_settings.specs.Variables.{given_shown};

use crate::cell::owned;
use crate::check::unparsed;
use crate::read::{flag_by, read, text_by};
use crate::setting::{Kind, Setting};
use crate::sources::Sources;
use crate::variable::{Given, given_by, not_utf8};
use cc2_base::machine::Machine;
use cc2_cargo::Raw;
use cc2_error::error::Result;
use std::alloc::Global;

/// What variables set at a path.
#[derive(Drop)]
pub(crate) struct Change {
    /// The keys that lead to it.
    pub path: Vec<String>,
    /// What is there then.
    pub raw: Raw,
}

/// The changes with what variables set at these settings.
///
/// # Errors
/// The first setting's that can't be read, and `ErrorKind::Memory`.
pub(crate) fn with_settings(
    alloc: Global,
    sources: Sources<'_>,
    asked: &[&str],
    settings: &[Setting],
    changes: Vec<Change>,
) -> Result<Vec<Change>>
    requires { All HasName settings.now }
    ensures { HasChanges (raw_members_at sources.entry.settings.now) sources.entry.machine.now
        (map (λ k. k.now) asked.now) (map row_of settings.now)
        (map change_of changes.items) result }
{
    let mut changes = changes;
    for setting in settings {
        let Setting {
            path,
            kind,
            variable,
            own,
        } = *setting;
        changes = one_more(alloc, sources, asked, path, variable, kind, own, changes)?;
    }
    Ok(changes)
}

/// The changes with what variables set at a path that is read as this kind: that of this name, and one of its own.
///
/// # Errors
/// `ErrorKind::ParseFile` and `ErrorKind::EnvParse` where a variable is set and the path can't be read, `ErrorKind::EmptyCommand`,
/// and `ErrorKind::Memory`.
pub(crate) fn one_more(
    alloc: Global,
    sources: Sources<'_>,
    asked: &[&str],
    path: &[&str],
    name: &str,
    kind: Kind,
    own: Option<&str>,
    changes: Vec<Change>,
) -> Result<Vec<Change>>
    requires { name.now ≡ key_variable (map (λ k. k.now) path.now) }
    ensures { let row = row (map (λ k. k.now) path.now) kind (option_map (λ n. n.now) own.entry) in
        HasChanges (raw_members_at sources.entry.settings.now) sources.entry.machine.now
        (map (λ k. k.now) asked.now) (row ∷ []) (map change_of changes.items) result }
{
    let mut changes = changes;
    if let Some(raw) = set_if_asked(alloc, sources, asked, path, name, kind, own)? {
        let path = owned(alloc, path)?;
        changes.push(Change { path, raw })?;
    }
    Ok(changes)
}

// What variables set at a path, where a key asks for it.
fn set_if_asked(
    alloc: Global,
    sources: Sources<'_>,
    asked: &[&str],
    path: &[&str],
    name: &str,
    kind: Kind,
    own: Option<&str>,
) -> Result<Option<Raw>>
    requires { name.now ≡ key_variable (map (λ k. k.now) path.now) }
    ensures { let row = row (map (λ k. k.now) path.now) kind (option_map (λ n. n.now) own.entry) in
        Gives (option_map raw_at) result
        (change_asked (raw_members_at sources.entry.settings.now) sources.entry.machine.now
        (map (λ k. k.now) asked.now) row) }
{
    if meets(asked, path) {
        set_at(alloc, sources, path, name, kind, own)
    } else {
        Ok(None)
    }
}

// Whether one of two paths leads to the other or below it.
fn meets(path: &[&str], other: &[&str]) -> bool
    ensures { result ≡ meets (map (λ k. k.now) path.now) (map (λ k. k.now) other.now) }
{
    match path {
        [] => true,
        [key, below @ ..] => match other {
            [] => true,
            [other_key, others @ ..] => **key == **other_key && meets(below, others),
        },
    }
}

// What variables set at a path; none where none of them is set.
fn set_at(
    alloc: Global,
    sources: Sources<'_>,
    path: &[&str],
    name: &str,
    kind: Kind,
    own: Option<&str>,
) -> Result<Option<Raw>>
    requires { name.now ≡ key_variable (map (λ k. k.now) path.now) }
    ensures { let row = row (map (λ k. k.now) path.now) kind (option_map (λ n. n.now) own.entry) in
        Gives (option_map raw_at) result
        (change_at (raw_members_at sources.entry.settings.now) sources.entry.machine.now row) }
{
    if let Some(raw) = set_by_own(alloc, sources.machine, kind, own)? {
        return Ok(Some(raw));
    }
    match given_by(sources.machine, name) {
        Given::Unset => Ok(None),
        _ => read(alloc, sources, path, kind, name),
    }
}

// What a setting's own variable sets; none where it has none, or that isn't set.
fn set_by_own(
    alloc: Global,
    machine: &Machine,
    kind: Kind,
    own: Option<&str>,
) -> Result<Option<Raw>>
    ensures { Gives (option_map raw_at) result
        (own_at machine.now kind (option_map (λ name. name.now) own.entry)) }
{
    match own {
        None => Ok(None),
        Some(name) => own_given(alloc, kind, name, given_by(machine, name)),
    }
}

// What is set by what a setting's own variable gives.
fn own_given(alloc: Global, kind: Kind, name: &str, given: Given<'_>) -> Result<Option<Raw>>
    ensures { Gives (option_map raw_at) result
        (own_given kind name.now (given_shown given.entry)) }
{
    match given {
        Given::Unset => Ok(None),
        Given::Text(text) => own_text(alloc, kind, name, text),
        Given::NotUtf8(bytes) => own_bytes(alloc, kind, name, bytes),
    }
}

// What a text of a setting's own variable sets.
fn own_text(alloc: Global, kind: Kind, name: &str, text: &str) -> Result<Option<Raw>>
    ensures { Gives (option_map raw_at) result (own_text kind name.now text.now) }
{
    match kind {
        Kind::Flag => Ok(Some(flag_by(alloc, name, text == "1")?)),
        Kind::Checked(check) if !check.accepts(text) => {
            Err(unparsed(alloc, check.wanted(), name, text)?)
        }
        _ => Ok(Some(text_by(alloc, name, text)?)),
    }
}

// What bytes of a setting's own variable set that aren't UTF-8.
fn own_bytes(alloc: Global, kind: Kind, name: &str, bytes: &[u8]) -> Result<Option<Raw>>
    ensures { Gives (option_map raw_at) result (own_bytes kind name.now bytes.now) }
{
    match kind {
        Kind::Flag => Ok(Some(flag_by(alloc, name, false)?)),
        Kind::Checked(_) => Err(not_utf8(alloc, name, bytes)?),
        _ => Ok(None),
    }
}
