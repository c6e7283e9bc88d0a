//! Writing the state of a load as bytes.
ghost use Rattle.std.specs.BTreeMap.{IsOrdered};
ghost use Rattle.std.specs.Prelude.{IsTrue, ◌↔◌, IfOk, OnOk, map, option_map, string_bytes};
ghost use Rattle.std.specs.String.{string_cmp};
ghost use Rattle.cc2_ask.specs.Fields.{list_at};
ghost use Rattle.cc2_ask.specs.Written.{IsAppended, listed_at};
ghost use Rattle.cc2_state.specs.Shown.{AreFlatTables, saved_entry, saved_table};
ghost use Rattle.cc2_state.specs.State.{entry_front, mark_front, optional_front, state_of_parts, parts_front, table_front, texts_front};
ghost use Rattle.cc2_state.specs.Views.{IsStateWritten, state_view, texts_lent};
ghost use Rattle.cc2_ask.specs.Written.{made_at};

use crate::state::StateParts;
use crate::write_slots::{push_flags, push_kind, push_linker, push_runner, push_tagged};
use cc2_ask::{push_list, push_number, push_text};
use cc2_error::error::NoMemory;
use cc2_target_table::TargetConfig;
use std::alloc::{AllocError, Global};
use std::collections::BTreeMap;

/// The bytes of a state, from which `State::read` reads it. None where some table below `target` holds another table, or
/// a value that doesn't read as one.
///
/// # Errors
/// `NoMemory` where memory ran out, or where a text or a list is too long for four bytes.
pub fn state_bytes(alloc: Global, parts: &StateParts<'_>) -> Result<Option<Vec<u8>>, NoMemory>
    ensures { IfOk result (IsStateWritten parts.now) }
{
    if !are_flat(parts.target) {
        return Ok(None);
    }
    let mut out = Vec::new(alloc);
    push_state(&mut out, parts)?;
    Ok(Some(out))
}

// Whether no table of these holds another one.
fn are_flat(tables: &BTreeMap<String, TargetConfig>) -> bool
    ensures flat { IsTrue result ↔ AreFlatTables tables.now }
    ensures ordered { IsOrdered string_cmp tables.now }
{
    for (_, table) in tables.iter() {
        if !table.nested.is_empty() {
            return false;
        }
    }
    true
}

// Appends a state.
fn push_state(out: &mut Vec<u8>, parts: &StateParts<'_>) -> Result<(), AllocError>
    ensures { OnOk result (IsAppended (made_at state_of_parts parts_front)
        (state_view parts.now) out.old.items out.new.items) }
{
    push_mark(out, parts.flags_overridden)?;
    push_mark(out, parts.doc_flags_overridden)?;
    push_optional(out, parts.rustc)?;
    push_optional(out, parts.rustc_wrapper)?;
    push_optional(out, parts.rustc_workspace_wrapper)?;
    push_texts(out, parts.rustflags)?;
    push_texts(out, parts.rustdocflags)?;
    push_tables(out, parts.target)
}

// Appends false or true.
fn push_mark(out: &mut Vec<u8>, mark: bool) -> Result<(), AllocError>
    ensures { OnOk result (IsAppended mark_front mark out.old.items out.new.items) }
{
    push_kind(out, if mark { 1 } else { 0 })
}

// Appends a text, or none.
fn push_optional(out: &mut Vec<u8>, text: Option<&str>) -> Result<(), AllocError>
    ensures { OnOk result (IsAppended optional_front
        (option_map (λ t. t.now) text.entry) out.old.items out.new.items) }
{
    match text {
        None => push_tagged(out, 0, ""),
        Some(text) => push_tagged(out, 1, text),
    }
}

// Appends texts, or none.
fn push_texts(out: &mut Vec<u8>, texts: Option<&[String]>) -> Result<(), AllocError>
    ensures { OnOk result
        (IsAppended texts_front (texts_lent texts.entry) out.old.items out.new.items) }
{
    match texts {
        None => {
            push_kind(out, 0)?;
            push_all(out, &[])
        }
        Some(texts) => {
            push_kind(out, 1)?;
            push_all(out, texts)
        }
    }
}

// Appends a list of texts.
fn push_all(out: &mut Vec<u8>, texts: &[String]) -> Result<(), AllocError>
    ensures { OnOk result
        (IsAppended list_at (map string_bytes texts.now) out.old.items out.new.items) }
{
    push_number(out, texts.len())?;
    for text in texts {
        push_text(out, text.as_str())?;
    }
    Ok(())
}

// Appends tables, each after its key.
fn push_tables(out: &mut Vec<u8>, tables: &BTreeMap<String, TargetConfig>) -> Result<(), AllocError>
    ensures { OnOk result (IsAppended (listed_at entry_front)
        (map saved_entry tables.now.entries) out.old.items out.new.items) }
{
    push_number(out, tables.len())?;
    for (key, table) in tables.iter() {
        push_text(out, key.as_str())?;
        push_table(out, table)?;
    }
    Ok(())
}

// Appends a table.
fn push_table(out: &mut Vec<u8>, table: &TargetConfig) -> Result<(), AllocError>
    ensures { OnOk result
        (IsAppended table_front (saved_table table.now) out.old.items out.new.items) }
{
    push_linker(out, &table.linker)?;
    push_runner(out, &table.runner)?;
    push_flags(out, &table.rustflags)?;
    push_flags(out, &table.rustdocflags)
}
