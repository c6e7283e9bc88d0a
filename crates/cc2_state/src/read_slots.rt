//! Reading the fields of a table below `target`: each is a kind and words.
ghost use Rattle.std.specs.Prelude.{◌≡◌, [], option_map, string_bytes};
ghost use Rattle.cc2_value.specs.Singles.{text_value};
ghost use Rattle.cc2_value.specs.Values as values;
ghost use Rattle.cc2_leaf.specs.Commands.{command_value};
ghost use Rattle.cc2_leaf.specs.Lists.{flags_value};
ghost use Rattle.cc2_ask.specs.Views.{IsRead};
ghost use Rattle.cc2_ask.specs.Written.{byte_at, listed_at, many_at};
ghost use Rattle.cc2_state.specs.Slots.{slot_in, IsSlotMade};
ghost use Rattle.cc2_state.specs.State.{flags_front, flags_in_slot, linker_front, linker_in_slot, origin_front, runner_front, runner_in_slot, slot_front, text_cell, command_cell, word_front};

use cc2_ask::{Fault, Reader};
use cc2_leaf::{Definition, Flags, PathAndArgs, Value};
use std::alloc::Global;

// A kind, and the words that belong to it.
#[derive(Drop)]
pub(crate) struct Slot {
    kind: u8,
    words: Vec<Value<String>>,
}

/// A byte.
pub(crate) fn kind(reader: &mut Reader<'_>) -> Result<u8, Fault>
    ensures { IsRead (λ b. b) (byte_at reader.old.rest.now) result reader.new.rest.now }
{
    match reader.byte() {
        Some(byte) => Ok(byte),
        None => Err(Fault::Malformed),
    }
}

// Where a value was set.
fn origin(alloc: Global, reader: &mut Reader<'_>) -> Result<Option<Definition>, Fault>
    ensures { IsRead (λ d. option_map values.origin_of d)
        (origin_front reader.old.rest.now) result reader.new.rest.now }
{
    let kind = kind(reader)?;
    let text = reader.text(alloc)?;
    match kind {
        0 => Ok(None),
        1 => Ok(Some(Definition::Path(text))),
        2 => Ok(Some(Definition::Environment(text))),
        3 => Ok(Some(Definition::Cli(None))),
        4 => Ok(Some(Definition::Cli(Some(text)))),
        _ => Err(Fault::Malformed),
    }
}

// A text and where it was set.
fn word(alloc: Global, reader: &mut Reader<'_>) -> Result<Value<String>, Fault>
    ensures { IsRead values.word_of (word_front reader.old.rest.now) result reader.new.rest.now }
{
    let val = reader.text(alloc)?;
    let definition = origin(alloc, reader)?;
    Ok(Value { val, definition })
}

// A number, and so many words.
fn words(alloc: Global, reader: &mut Reader<'_>) -> Result<Vec<Value<String>>, Fault>
    ensures { IsRead (λ ws. values.words_of ws.items)
        (listed_at word_front reader.old.rest.now) result reader.new.rest.now }
{
    match reader.number() {
        Some(count) => so_many_words(alloc, reader, count),
        None => Err(Fault::Malformed),
    }
}

// So many words.
fn so_many_words(
    alloc: Global,
    reader: &mut Reader<'_>,
    count: usize,
) -> Result<Vec<Value<String>>, Fault>
    ensures { IsRead (λ ws. values.words_of ws.items)
        (many_at word_front count reader.old.rest.now) result reader.new.rest.now }
{
    let mut words = Vec::new(alloc);
    for _ in 0..count {
        words.push(word(alloc, reader)?)?;
    }
    Ok(words)
}

// A kind and its words.
fn read_slot(alloc: Global, reader: &mut Reader<'_>) -> Result<Slot, Fault>
    ensures { IsRead slot_in (slot_front reader.old.rest.now) result reader.new.rest.now }
{
    let kind = kind(reader)?;
    let words = words(alloc, reader)?;
    Ok(Slot { kind, words })
}

/// A linker, or none.
pub(crate) fn linker(alloc: Global, reader: &mut Reader<'_>) -> Result<Option<Value<String>>, Fault>
    ensures { IsRead (λ l. text_value l [])
        (linker_front reader.old.rest.now) result reader.new.rest.now }
{
    linker_in(read_slot(alloc, reader)?)
}

// The linker of a slot.
fn linker_in(slot: Slot) -> Result<Option<Value<String>>, Fault>
    ensures { IsSlotMade (λ l. text_value l []) (linker_in_slot (slot_in slot)) result }
{
    match slot.kind {
        0 => Ok(None),
        1 => only_word(slot.words),
        _ => Err(Fault::Malformed),
    }
}

// The one word of a list of one.
fn only_word(words: Vec<Value<String>>) -> Result<Option<Value<String>>, Fault>
    ensures { IsSlotMade (λ l. text_value l []) (text_cell (values.words_of words.items)) result }
{
    let mut words = words;
    match words.pop() {
        Some(word) => {
            if words.is_empty() {
                Ok(Some(word))
            } else {
                Err(Fault::Malformed)
            }
        }
        None => Err(Fault::Malformed),
    }
}

/// A runner, or none.
pub(crate) fn runner(alloc: Global, reader: &mut Reader<'_>) -> Result<Option<PathAndArgs>, Fault>
    ensures { IsRead (λ r. command_value r [])
        (runner_front reader.old.rest.now) result reader.new.rest.now }
{
    runner_in(read_slot(alloc, reader)?)
}

// The runner of a slot.
fn runner_in(slot: Slot) -> Result<Option<PathAndArgs>, Fault>
    ensures { IsSlotMade (λ r. command_value r []) (runner_in_slot (slot_in slot)) result }
{
    match slot.kind {
        0 => Ok(None),
        1 => command(slot.words, false),
        2 => command(slot.words, true),
        _ => Err(Fault::Malformed),
    }
}

// The command of a program and its arguments.
fn command(words: Vec<Value<String>>, array: bool) -> Result<Option<PathAndArgs>, Fault>
    ensures { IsSlotMade (λ r. command_value r [])
        (command_cell array (values.words_of words.items)) result }
{
    if words.is_empty() {
        return Err(Fault::Malformed);
    }
    let mut args = words;
    let path = args.remove(0);
    Ok(Some(PathAndArgs::of_values(path, args, array)))
}

/// Flags, or none.
pub(crate) fn flags(alloc: Global, reader: &mut Reader<'_>) -> Result<Option<Flags>, Fault>
    ensures { IsRead (λ f. flags_value f [])
        (flags_front reader.old.rest.now) result reader.new.rest.now }
{
    flags_in(read_slot(alloc, reader)?)
}

// The flags of a slot.
fn flags_in(slot: Slot) -> Result<Option<Flags>, Fault>
    ensures { IsSlotMade (λ f. flags_value f []) (flags_in_slot (slot_in slot)) result }
{
    match slot.kind {
        0 => Ok(None),
        1 => Ok(Some(Flags::of_values(slot.words, false))),
        2 => Ok(Some(Flags::of_values(slot.words, true))),
        _ => Err(Fault::Malformed),
    }
}
