//! The keys of `[target]`: whether what is below them can be read, and which of them match.
ghost use Rattle.std.specs.Prelude.{◌≡◌, false, IfOk, None, Ok, map, string_bytes};
ghost use Rattle.cc2_error.specs.Causes.{plain, refusal_of, wrong_type};
ghost use Rattle.cc2_error.specs.Outcomes.{Gives};
ghost use Rattle.cc2_cfg.specs.Table.{atom_of};
ghost use Rattle.cc2_rustc.specs.Printed.{atoms_of};
ghost use Rattle.cc2_cargo.specs.Raw.{raw_members_at};
ghost use Rattle.cc2_cargo_target.specs.AtKey.{linker_at, runner_at};
ghost use Rattle.cc2_cargo_target.specs.Keys.{AreMatching, IsMatch, flags_checked, is_left_out, is_set, key_checked, keys_checked, target_keys};

use crate::at_key::{flags_at, linker_at, plain_flags_at, runner_at};
use cc2_cargo::{Raw, key_holds};
use cc2_cargo_settings::{Sources, is_any_inside, other_type};
use cc2_cfg::Predicate;
use cc2_error::error::{NoMemory, Result};
use cc2_rustc::CfgSet;
use std::alloc::Global;
use std::collections::BTreeMap;

/// The keys of `[target]`, in the order of their bytes.
///
/// # Errors
/// `ErrorKind::ParseFile` with the path `target` where no table is there, and `ErrorKind::Memory`.
pub(crate) fn target_keys<'a>(
    alloc: Global,
    settings: &'a BTreeMap<String, Raw>,
) -> Result<Vec<&'a str>>
    ensures { Gives (λ keys. map (λ k. k.now) keys.items) result (target_keys settings.now) }
{
    match settings.get("target") {
        None => Ok(Vec::new(alloc)),
        Some(Raw::Table(table)) => Ok(keys_of(alloc, table)?),
        Some(Raw::Single(_)) => Err(other_type(alloc, &["target"])?),
        Some(Raw::Array(_)) => Err(other_type(alloc, &["target"])?),
    }
}

// The keys of a table.
fn keys_of<'a>(
    alloc: Global,
    table: &'a BTreeMap<String, Raw>,
) -> std::result::Result<Vec<&'a str>, NoMemory>
    ensures { IfOk result (λ keys.
        map (λ k. k.now) keys.items ≡ map (λ e. string_bytes e.0) table.now.entries) }
{
    let mut keys = Vec::new(alloc);
    for (key, _) in table.iter() {
        keys.push(key.as_str())?;
    }
    Ok(keys)
}

/// Reads the linker, the runner and the flags at each of these keys, as Cargo does whether a key matches or not.
///
/// # Errors
/// The first error of `linker_at`, `runner_at` and `flags_at`.
pub(crate) fn check_keys(alloc: Global, sources: Sources<'_>, keys: &[&str]) -> Result<()>
    ensures { Gives (λ done. done) result
        (keys_checked (raw_members_at sources.entry.settings.now) sources.entry.machine.now
        (map (λ k. k.now) keys.now)) }
{
    let linkers = is_any_inside(sources.settings, "target", "linker");
    let runners = is_any_inside(sources.settings, "target", "runner");
    for key in keys {
        check_key(alloc, sources, *key, linkers, runners)?;
    }
    Ok(())
}

// Reads the linker, the runner and the flags at a key, the first two where some key has one.
fn check_key(
    alloc: Global,
    sources: Sources<'_>,
    key: &str,
    linkers: bool,
    runners: bool,
) -> Result<()>
    requires linkers { linkers ≡ false → linker_at (raw_members_at sources.settings.now)
        sources.machine.now key.now ≡ Ok None }
    requires runners { runners ≡ false → runner_at (raw_members_at sources.settings.now)
        sources.machine.now key.now ≡ Ok None }
    ensures { Gives (λ done. done) result
        (key_checked (raw_members_at sources.entry.settings.now) sources.entry.machine.now
        key.now) }
{
    if linkers {
        linker_at(alloc, sources, key)?;
    }
    if runners {
        runner_at(alloc, sources, key)?;
    }
    check_flags(alloc, sources, key)
}

// Reads the flags at a key.
#[tactic(auto, using(crate::proofs::Plain::read_checked))]
fn check_flags(alloc: Global, sources: Sources<'_>, key: &str) -> Result<()>
    ensures { Gives (λ done. done) result (flags_checked
        (raw_members_at sources.entry.settings.now) sources.entry.machine.now key.now) }
{
    if plain_flags_at(alloc, sources, key)?.is_some() {
        return Ok(());
    }
    flags_at(alloc, sources, key)?;
    Ok(())
}

/// Those of the keys that match by what rustc printed, in their order (Cargo Reference, Configuration,
/// [`[target]`](https://doc.rust-lang.org/cargo/reference/config.html#target)).
///
/// # Errors
/// `NoMemory` where memory ran out.
pub(crate) fn matching<'a>(
    alloc: Global,
    keys: &[&'a str],
    set: &CfgSet,
) -> std::result::Result<Vec<&'a str>, NoMemory>
    ensures { IfOk result (λ found. AreMatching (atoms_of set.now)
        (map (λ k. k.now) keys.now) (map (λ k. k.now) found.items)) }
{
    let mut found = Vec::new(alloc);
    for key in keys {
        if matches(alloc, *key, set)? {
            found.push(*key)?;
        }
    }
    Ok(found)
}

// Whether a key matches.
fn matches(alloc: Global, key: &str, set: &CfgSet) -> std::result::Result<bool, NoMemory>
    ensures { IfOk result (IsMatch (atoms_of set.now) key.now) }
{
    Ok(key_holds(alloc, key, |predicate| is_set(set, predicate))?)
}

// Whether what rustc printed makes a predicate true, as Cargo has it: without `proc_macro`.
fn is_set(set: &CfgSet, predicate: &Predicate<'_>) -> bool
    ensures { result ≡ is_set (atoms_of set.now) (atom_of predicate.now) }
{
    if is_left_out(predicate) {
        return false;
    }
    set.has(predicate)
}

fn is_left_out(predicate: &Predicate<'_>) -> bool
    ensures { result ≡ is_left_out (atom_of predicate.now) }
{
    matches!(predicate, Predicate::Flag("proc_macro"))
}
