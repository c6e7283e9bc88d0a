//! Reading a state from the bytes that were handed back.
ghost use Rattle.std.specs.BTreeMap.{IsOrdered};
ghost use Rattle.std.specs.Prelude.{option_map, string_bytes, map};
ghost use Rattle.std.specs.String.{string_cmp};
ghost use Rattle.cc2_ask.specs.Views.{IsRead};
ghost use Rattle.cc2_ask.specs.Written.{listed_at, many_at};
ghost use Rattle.cc2_state.specs.Shown.{saved_table};
ghost use Rattle.cc2_state.specs.State.{entry_front, mark_front, optional_front, table_front, texts_front, state_in};
ghost use Rattle.cc2_state.specs.Views.{IsFlatOnOk, IsPutFirst, IsReadState, IsReadMap};

use crate::read_slots::{flags, kind, linker, runner};
use crate::state::State;
use cc2_ask::{Fault, Reader};
use cc2_target_table::TargetConfig;
use std::alloc::Global;
use std::collections::BTreeMap;

impl State {
    /// The state that these bytes are.
    ///
    /// # Errors
    /// `Fault::Malformed` where they are no state, `Fault::Memory` where memory ran out.
    pub fn read(alloc: Global, bytes: &[u8]) -> Result<State, Fault>
        ensures { IsReadState (state_in bytes.now) result }
    {
        let mut reader = Reader::new(bytes);
        let flags_overridden = mark(&mut reader)?;
        let doc_flags_overridden = mark(&mut reader)?;
        let rustc = optional(alloc, &mut reader)?;
        let rustc_wrapper = optional(alloc, &mut reader)?;
        let rustc_workspace_wrapper = optional(alloc, &mut reader)?;
        let rustflags = texts(alloc, &mut reader)?;
        let rustdocflags = texts(alloc, &mut reader)?;
        let target = tables(alloc, &mut reader)?;
        if !reader.is_at_end() {
            return Err(Fault::Malformed);
        }
        Ok(State {
            flags_overridden,
            doc_flags_overridden,
            rustc,
            rustc_wrapper,
            rustc_workspace_wrapper,
            rustflags,
            rustdocflags,
            target,
        })
    }
}

// False or true.
fn mark(reader: &mut Reader<'_>) -> Result<bool, Fault>
    ensures { IsRead (λ b. b) (mark_front reader.old.rest.now) result reader.new.rest.now }
{
    match kind(reader)? {
        0 => Ok(false),
        1 => Ok(true),
        _ => Err(Fault::Malformed),
    }
}

// A text, or none.
fn optional(alloc: Global, reader: &mut Reader<'_>) -> Result<Option<String>, Fault>
    ensures { IsRead (λ t. option_map string_bytes t)
        (optional_front reader.old.rest.now) result reader.new.rest.now }
{
    let kind = kind(reader)?;
    let text = reader.text(alloc)?;
    match kind {
        0 => Ok(None),
        1 => Ok(Some(text)),
        _ => Err(Fault::Malformed),
    }
}

// Texts, or none.
fn texts(alloc: Global, reader: &mut Reader<'_>) -> Result<Option<Vec<String>>, Fault>
    ensures { IsRead (λ t. option_map (λ ts. map string_bytes ts.items) t)
        (texts_front reader.old.rest.now) result reader.new.rest.now }
{
    let kind = kind(reader)?;
    let texts = reader.texts(alloc)?;
    match kind {
        0 => Ok(None),
        1 => Ok(Some(texts)),
        _ => Err(Fault::Malformed),
    }
}

// A table below `target`.
fn table(alloc: Global, reader: &mut Reader<'_>) -> Result<TargetConfig, Fault>
    ensures read { IsRead saved_table (table_front reader.old.rest.now) result reader.new.rest.now }
    ensures flat { IsFlatOnOk result }
{
    let linker = linker(alloc, reader)?;
    let runner = runner(alloc, reader)?;
    let rustflags = flags(alloc, reader)?;
    let rustdocflags = flags(alloc, reader)?;
    Ok(TargetConfig {
        linker,
        runner,
        rustflags,
        rustdocflags,
        nested: BTreeMap::new(alloc),
    })
}

// A number, and so many tables, each after its key.
fn tables(alloc: Global, reader: &mut Reader<'_>) -> Result<BTreeMap<String, TargetConfig>, Fault>
    ensures { IsReadMap (listed_at entry_front reader.old.rest.now) result reader.new.rest.now }
{
    match reader.number() {
        Some(count) => so_many_tables(alloc, reader, count),
        None => Err(Fault::Malformed),
    }
}

// So many tables, each after its key. Of two with the same key the first is kept.
fn so_many_tables(
    alloc: Global,
    reader: &mut Reader<'_>,
    count: usize,
) -> Result<BTreeMap<String, TargetConfig>, Fault>
    ensures { IsReadMap (many_at entry_front count reader.old.rest.now) result reader.new.rest.now }
{
    let mut tables = BTreeMap::new(alloc);
    for _ in 0..count {
        let key = reader.text(alloc)?;
        let table = table(alloc, reader)?;
        put_first(&mut tables, key, table)?;
    }
    Ok(tables)
}

// Puts a table at a key that has none.
fn put_first(
    tables: &mut BTreeMap<String, TargetConfig>,
    key: String,
    table: TargetConfig,
) -> Result<(), Fault>
    ensures put { IsPutFirst tables.old tables.new key table result }
    ensures ordered { IsOrdered string_cmp tables.old → IsOrdered string_cmp tables.new }
{
    if tables.contains_key(key.as_str()) {
        return Ok(());
    }
    match tables.insert(key, table) {
        Ok(_) => Ok(()),
        Err(_) => Err(Fault::Memory),
    }
}
