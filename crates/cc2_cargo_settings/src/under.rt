//! Merged settings under environment variables.
ghost use Rattle.std.specs.Prelude.{◌≡◌, ◌++◌, IfErr, IfOk, map};
ghost use Rattle.cc2_error.specs.Causes.{memory, plain, refusal_of};
ghost use Rattle.cc2_error.specs.Outcomes.{Gives};
ghost use Rattle.cc2_cargo.specs.Raw.{raw_members_at};
ghost use Rattle.cc2_cargo_settings.specs.Changes.{change_of, changes_at};
ghost use Rattle.cc2_cargo_settings.specs.Named.{named_rows};
ghost use Rattle.cc2_cargo_settings.specs.Settings.{rows};
ghost use Rattle.cc2_cargo_settings.specs.Under.{under, under_at};

use crate::change::{Change, with_settings};
use crate::named::with_names;
use crate::put::put_at;
use crate::setting::settings as fixed_settings;
use crate::sources::Sources;
use cc2_base::machine::Machine;
use cc2_cargo::Raw;
use cc2_error::error::Result;
use std::alloc::Global;
use std::collections::BTreeMap;

/// The settings with what environment variables change: where a variable of a setting is set, its path has what Cargo reads there
/// (Cargo Reference, Configuration,
/// [environment variables](https://doc.rust-lang.org/cargo/reference/config.html#environment-variables), and
/// [environment variables Cargo reads](https://doc.rust-lang.org/cargo/reference/environment-variables.html)). Of settings below names
/// that users choose, as those of registries, the names count that the settings have, and the one that a key asks for. Profiles
/// `bench`, `dev`, `release` and `test` always count. Other paths stay, and so do those that the key doesn't ask for; the empty
/// key asks for all.
///
/// # Errors
/// The first setting's that is asked for, whose variable is set, and that can't be read: `ErrorKind::ParseFile` with its path where something of
/// another type is there, or a value that the setting doesn't take; `ErrorKind::EnvParse` where its variable is not a value that
/// the setting takes; `ErrorKind::EnvNotText` where its variable isn't UTF-8 and nothing else sets it; and
/// `ErrorKind::EmptyCommand` where a command has no words. `ErrorKind::Memory`.
pub fn under_variables(
    alloc: Global,
    settings: BTreeMap<String, Raw>,
    machine: &Machine,
    asked: &[&str],
) -> Result<BTreeMap<String, Raw>>
    ensures { Gives raw_members_at result
        (under settings machine.now (map (λ k. k.now) asked.now)) }
{
    let sources = Sources {
        settings: &settings,
        machine,
    };
    let changes = changes(alloc, sources, asked)?;
    changed(alloc, settings, changes)
}

// What variables set.
fn changes(alloc: Global, sources: Sources<'_>, asked: &[&str]) -> Result<Vec<Change>>
    ensures { Gives (λ changes. map change_of changes.items) result
        (changes_at (raw_members_at sources.entry.settings.now) sources.entry.machine.now
        (map (λ k. k.now) asked.now)
        (rows ++ named_rows sources.entry.settings.now (map (λ k. k.now) asked.now))) }
{
    let changes = with_settings(alloc, sources, asked, fixed_settings(), Vec::new(alloc))?;
    with_names(alloc, sources, asked, changes)
}

// The settings with each of these changes, in order.
fn changed(
    alloc: Global,
    settings: BTreeMap<String, Raw>,
    changes: Vec<Change>,
) -> Result<BTreeMap<String, Raw>>
    ensures ok { IfOk result (λ new. raw_members_at new
        ≡ under_at (map change_of changes.items) (raw_members_at settings)) }
    ensures refused { IfErr result (λ e. refusal_of e ≡ plain memory) }
{
    let mut settings = settings;
    for change in changes {
        let Change { path, raw } = change;
        settings = put_at(alloc, settings, path.as_slice(), raw)?;
    }
    Ok(settings)
}
