//! The flags of a triple.
ghost use Rattle.std.specs.Prelude.{◌≡◌, ◌++◌, ◌∷◌, [], IfErr, IfOk, OnOk, codes, map, option_map, string_bytes};
ghost use Rattle.std.specs.List.{slice_split};
ghost use Rattle.cc2_error.specs.Causes.{no_memory};
ghost use Rattle.cc2_error.specs.Outcomes.{Gives};
ghost use Rattle.cc2_cargo.specs.Raw.{raw_members_at};
ghost use Rattle.cc2_resolved.specs.ShownFlags.{flag_texts};
ghost use Rattle.cc2_base.specs.Paths.{is_dot};
ghost use Rattle.cc2_cargo_target.specs.Flags.{build_flags, flags_of, keyed_flags, own_flags, set_flags, texts_read, triple_path, set_texts};
ghost use Rattle.cc2_cargo_target.specs.AtKey.{flags_at};
ghost use Rattle.cc2_cargo_settings.specs.Shown.{list_view};

use crate::at_key::{flags_at, plain_flags_at};
use crate::tool::Tool;
use cc2_base::machine::Machine;
use cc2_base::variable_name::target_variable;
use cc2_cargo_settings::{List, Sources, list, variable_text};
use cc2_error::error::{NoMemory, Result};
use cc2_resolved::flags::Flags;
use std::alloc::Global;

/// The flags of a triple for a tool, where these keys of `[target]` match (Cargo Reference, Configuration,
/// [`build.rustflags`](https://doc.rust-lang.org/cargo/reference/config.html#buildrustflags)).
///
/// # Errors
/// `ErrorKind::ParseFile` with the path where something of another type is at a key, and `ErrorKind::Memory`.
pub(crate) fn flags_of(
    alloc: Global,
    sources: Sources<'_>,
    tool: Tool,
    triple: &str,
    matching: &[&str],
) -> Result<Flags>
    ensures { Gives flag_texts result
        (flags_of (raw_members_at sources.entry.settings.now) sources.entry.machine.now
        tool triple.now (map (λ k. k.now) matching.now)) }
{
    if let Some(flags) = set_flags(alloc, sources.machine, tool)? {
        return Ok(flags);
    }
    let mut texts = own_flags(alloc, sources, tool, triple)?;
    let mut keyed = keyed_flags(alloc, sources, tool.keys_for(matching))?;
    texts.append(&mut keyed)?;
    if texts.is_empty() {
        texts = build_flags(alloc, sources, tool)?;
    }
    Ok(Flags { flags: texts })
}

// The flags of a variable that overrides everything.
fn set_flags(alloc: Global, machine: &Machine, tool: Tool) -> Result<Option<Flags>>
    ensures flags { IfOk result (λ flags.
        option_map flag_texts flags ≡ set_flags machine.now tool) }
    ensures refused { IfErr result (λ e. e ≡ no_memory) }
{
    if let Some(text) = variable_text(machine, tool.encoded_variable()) {
        return Ok(Some(Flags::from_encoded(alloc, text)?));
    }
    if let Some(text) = variable_text(machine, tool.plain_variable()) {
        return Ok(Some(Flags::from_space_separated(alloc, text)?));
    }
    Ok(None)
}

// The flags of the triple's table and of its variable.
fn own_flags(alloc: Global, sources: Sources<'_>, tool: Tool, triple: &str) -> Result<Vec<String>>
    ensures { Gives (λ flags. map string_bytes flags.items) result
        (own_flags (raw_members_at sources.entry.settings.now) sources.entry.machine.now tool
        triple.now) }
{
    let path = triple_path(alloc, triple, tool.flags_key())?;
    let name = target_variable(alloc, triple, tool.flags_suffix())?;
    let set = list(alloc, sources, path.as_slice(), name.as_str())?;
    Ok(word_texts(alloc, set)?)
}

// The flags at keys, one after another.
fn keyed_flags(alloc: Global, sources: Sources<'_>, keys: &[&str]) -> Result<Vec<String>>
    ensures { Gives (λ flags. map string_bytes flags.items) result
        (keyed_flags (raw_members_at sources.entry.settings.now) sources.entry.machine.now
        (map (λ k. k.now) keys.now)) }
{
    let mut flags = Vec::new(alloc);
    for key in keys {
        let mut own = key_flags(alloc, sources, *key)?;
        flags.append(&mut own)?;
    }
    Ok(flags)
}

// The flags at a key.
fn key_flags(alloc: Global, sources: Sources<'_>, key: &str) -> Result<Vec<String>>
    ensures { Gives (λ flags. map string_bytes flags.items) result
        (texts_read (flags_at (raw_members_at sources.entry.settings.now)
        sources.entry.machine.now key.now)) }
{
    if let Some(texts) = plain_flags_at(alloc, sources, key)? {
        return Ok(texts);
    }
    let set = flags_at(alloc, sources, key)?;
    Ok(word_texts(alloc, set)?)
}

// The flags of `[build]`.
fn build_flags(alloc: Global, sources: Sources<'_>, tool: Tool) -> Result<Vec<String>>
    ensures { Gives (λ flags. map string_bytes flags.items) result
        (build_flags (raw_members_at sources.entry.settings.now) sources.entry.machine.now tool) }
{
    let path = ["build", tool.flags_key()];
    let set = list(alloc, sources, &path, tool.build_variable())?;
    Ok(word_texts(alloc, set)?)
}

/// The texts of words.
///
/// # Errors
/// `NoMemory` where memory ran out.
pub(crate) fn word_texts(
    alloc: Global,
    set: Option<List>,
) -> std::result::Result<Vec<String>, NoMemory>
    ensures { IfOk result (λ texts.
        map string_bytes texts.items ≡ set_texts (list_view set)) }
{
    let mut texts = Vec::new(alloc);
    if let Some(words) = set {
        for word in words {
            texts.push(word.val)?;
        }
    }
    Ok(texts)
}

/// The path of a setting of a triple. A dot in the triple leads to a table below: `thumbv8m.main-none-eabi` is the table
/// `main-none-eabi` of `thumbv8m`.
///
/// # Errors
/// `NoMemory` where memory ran out.
pub(crate) fn triple_path<'a>(
    alloc: Global,
    triple: &'a str,
    what: &'a str,
) -> std::result::Result<Vec<&'a str>, NoMemory>
    ensures { IfOk result (λ path.
        map (λ k. k.now) path.items ≡ triple_path triple.now what.now) }
{
    let mut path = Vec::new(alloc);
    path.push("target")?;
    push_pieces(triple, &mut path)?;
    path.push(what)?;
    Ok(path)
}

// Appends the pieces of a text between dots.
fn push_pieces<'a>(text: &'a str, pieces: &mut Vec<&'a str>) -> std::result::Result<(), NoMemory>
    ensures { OnOk result (map (λ k. k.now) pieces.new.items
        ≡ map (λ k. k.now) pieces.old.items ++ slice_split is_dot text.now) }
{
    let mut left = text;
    'pieces: while let Some((piece, rest)) = left.split_once('.') {
        pieces.push(piece)?;
        left = rest;
    }
    pieces.push(left)?;
    Ok(())
}
