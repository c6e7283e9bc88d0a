//! What is read at a key of `[target]`.
ghost use Rattle.std.specs.Prelude.{◌≡◌, IfOk, IfSome, Ok, option_map, string_bytes};
ghost use Rattle.cc2_error.specs.Outcomes.{Gives};
ghost use Rattle.cc2_value.specs.Values.{word_of};
ghost use Rattle.cc2_cargo.specs.Raw.{raw_members_at};
ghost use Rattle.cc2_cargo_target.specs.AtKey.{IsNameFor, flags_at, linker_at, runner_at, variable_at_key};
ghost use Rattle.cc2_cargo_target.specs.Flags.{texts_read};
ghost use Rattle.cc2_cargo_settings.specs.Cells.{texts_view};
ghost use Rattle.cc2_cargo_settings.specs.Shown.{list_view};

use cc2_base::machine::Machine;
use cc2_cargo_settings::{
    List, Sources, array_texts, command, is_any_at, is_any_below, list, text,
};
use cc2_error::error::{NoMemory, Result};
use cc2_value::Value;
use std::alloc::Global;

/// The linker at a key (Cargo Reference, Configuration,
/// [`target.<cfg>.linker`](https://doc.rust-lang.org/cargo/reference/config.html#targettriplelinker)).
///
/// # Errors
/// Those of `text`.
pub(crate) fn linker_at(
    alloc: Global,
    sources: Sources<'_>,
    key: &str,
) -> Result<Option<Value<String>>>
    ensures { Gives (option_map word_of) result
        (linker_at (raw_members_at sources.entry.settings.now) sources.entry.machine.now key.now) }
{
    let path = &["target", key, "linker"];
    if !is_any_at(sources.settings, path) {
        return Ok(None);
    }
    let name = name_at(alloc, sources.machine, key, "linker")?;
    text(alloc, sources, path, name.as_str())
}

/// The runner at a key (Cargo Reference, Configuration,
/// [`target.<cfg>.runner`](https://doc.rust-lang.org/cargo/reference/config.html#targetcfgrunner)).
///
/// # Errors
/// Those of `command`.
pub(crate) fn runner_at(alloc: Global, sources: Sources<'_>, key: &str) -> Result<Option<List>>
    ensures { Gives list_view result
        (runner_at (raw_members_at sources.entry.settings.now) sources.entry.machine.now key.now) }
{
    let path = &["target", key, "runner"];
    if !is_any_at(sources.settings, path) {
        return Ok(None);
    }
    let name = name_at(alloc, sources.machine, key, "runner")?;
    command(alloc, sources, path, name.as_str())
}

/// The flags for rustc at a key (Cargo Reference, Configuration,
/// [`target.<cfg>.rustflags`](https://doc.rust-lang.org/cargo/reference/config.html#targetcfgrustflags)).
///
/// # Errors
/// Those of `list`.
pub(crate) fn flags_at(alloc: Global, sources: Sources<'_>, key: &str) -> Result<Option<List>>
    ensures { Gives list_view result
        (flags_at (raw_members_at sources.entry.settings.now) sources.entry.machine.now key.now) }
{
    let path = &["target", key, "rustflags"];
    if !is_any_at(sources.settings, path) {
        return Ok(None);
    }
    let name = name_at(alloc, sources.machine, key, "rustflags")?;
    list(alloc, sources, path, name.as_str())
}

/// The flags for rustc at a key as texts, where they are an array of texts, or there are none. None of other flags, and where some
/// variable of a target is set: then `flags_at` answers.
///
/// # Errors
/// `NoMemory` where memory ran out.
pub(crate) fn plain_flags_at(
    alloc: Global,
    sources: Sources<'_>,
    key: &str,
) -> std::result::Result<Option<Vec<String>>, NoMemory>
    ensures { IfOk result (λ flags. IfSome flags (λ texts.
        texts_read (flags_at (raw_members_at sources.entry.settings.now)
        sources.entry.machine.now key.now) ≡ Ok (texts_view texts))) }
{
    if is_any_below(sources.machine, FRONT) {
        return Ok(None);
    }
    array_texts(alloc, sources.settings, &["target", key, "rustflags"])
}

// What the name of each variable of a target begins with.
const FRONT: &str = "CARGO_TARGET_";

// The name of the variable of a setting at a key: both as they are written. Where no variable of a target is set, it is what they begin with.
fn name_at(
    alloc: Global,
    machine: &Machine,
    key: &str,
    what: &str,
) -> std::result::Result<String, NoMemory>
    ensures { IfOk result (λ name.
        IsNameFor machine.now (variable_at_key key.now what.now) (string_bytes name)) }
{
    if is_any_below(machine, FRONT) {
        Ok(format!(in alloc; "CARGO_TARGET_{key}_{what}")?)
    } else {
        Ok(String::from_str(alloc, FRONT)?)
    }
}
