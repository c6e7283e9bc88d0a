//! Writing the fields of a table below `target`: each is a kind and words.
ghost use Rattle.std.specs.Prelude.{◌≡◌, ◌∷◌, ◌++◌, [], OnOk, option_map, length};
ghost use Rattle.cc2_value.specs.Singles.{text_value};
ghost use Rattle.cc2_value.specs.Values.{origin_of, word_of, words_of};
ghost use Rattle.cc2_leaf.specs.Commands.{command_value};
ghost use Rattle.cc2_leaf.specs.Lists.{flags_value};
ghost use Rattle.cc2_ask.specs.Written.{byte_at, AreAppended, IsAppended};
ghost use Rattle.cc2_state.specs.State.{flags_front, linker_front, origin_front, runner_front, slot_front, tagged_front, word_front};

use cc2_ask::{push_number, push_text};
use cc2_leaf::{Definition, Flags, PathAndArgs, Value};
use std::alloc::AllocError;

/// Appends a byte.
pub(crate) fn push_kind(out: &mut Vec<u8>, kind: u8) -> Result<(), AllocError>
    ensures { OnOk result (IsAppended byte_at kind out.old.items out.new.items) }
{
    out.push(kind)?;
    Ok(())
}

/// Appends a kind and the text that belongs to it.
pub(crate) fn push_tagged(out: &mut Vec<u8>, kind: u8, text: &str) -> Result<(), AllocError>
    ensures { OnOk result (IsAppended tagged_front (kind, text.now) out.old.items out.new.items) }
{
    push_kind(out, kind)?;
    push_text(out, text)
}

// Appends where a value was set.
fn push_origin(out: &mut Vec<u8>, definition: &Option<Definition>) -> Result<(), AllocError>
    ensures { OnOk result (IsAppended origin_front
        (option_map origin_of definition.now) out.old.items out.new.items) }
{
    match definition {
        None => push_tagged(out, 0, ""),
        Some(Definition::Path(path)) => push_tagged(out, 1, path.as_str()),
        Some(Definition::Environment(name)) => push_tagged(out, 2, name.as_str()),
        Some(Definition::Cli(None)) => push_tagged(out, 3, ""),
        Some(Definition::Cli(Some(path))) => push_tagged(out, 4, path.as_str()),
    }
}

// Appends a text and where it was set.
fn push_word(out: &mut Vec<u8>, value: &Value<String>) -> Result<(), AllocError>
    ensures { OnOk result
        (IsAppended word_front (word_of value.now) out.old.items out.new.items) }
{
    push_text(out, value.val.as_str())?;
    push_origin(out, &value.definition)
}

// Appends words.
fn push_words(out: &mut Vec<u8>, values: &[Value<String>]) -> Result<(), AllocError>
    ensures { OnOk result
        (AreAppended word_front (words_of values.now) out.old.items out.new.items) }
{
    for value in values {
        push_word(out, value)?;
    }
    Ok(())
}

// Appends a kind without words.
fn push_nothing(out: &mut Vec<u8>) -> Result<(), AllocError>
    ensures { OnOk result (IsAppended slot_front (0, []) out.old.items out.new.items) }
{
    push_kind(out, 0)?;
    push_number(out, 0)
}

// Appends a kind and words.
fn push_slot(out: &mut Vec<u8>, kind: u8, values: &[Value<String>]) -> Result<(), AllocError>
    ensures { OnOk result
        (IsAppended slot_front (kind, words_of values.now) out.old.items out.new.items) }
{
    push_kind(out, kind)?;
    push_number(out, values.len())?;
    push_words(out, values)
}

// Appends a kind, and a word with others after it.
fn push_command(
    out: &mut Vec<u8>,
    kind: u8,
    first: &Value<String>,
    others: &[Value<String>],
) -> Result<(), AllocError>
    ensures { OnOk result (IsAppended slot_front
        (kind, word_of first.now ∷ words_of others.now) out.old.items out.new.items) }
{
    push_kind(out, kind)?;
    let Some(count) = others.len().checked_add(1) else {
        return Err(AllocError);
    };
    push_number(out, count)?;
    push_word(out, first)?;
    push_words(out, others)
}

/// Appends a linker, or none.
pub(crate) fn push_linker(
    out: &mut Vec<u8>,
    linker: &Option<Value<String>>,
) -> Result<(), AllocError>
    ensures { OnOk result
        (IsAppended linker_front (text_value linker.now []) out.old.items out.new.items) }
{
    match linker {
        None => push_nothing(out),
        Some(linker) => push_one(out, linker),
    }
}

// Appends one word as a linker.
fn push_one(out: &mut Vec<u8>, word: &Value<String>) -> Result<(), AllocError>
    ensures { OnOk result
        (IsAppended slot_front (1, word_of word.now ∷ []) out.old.items out.new.items) }
{
    push_kind(out, 1)?;
    push_number(out, 1)?;
    push_word(out, word)
}

/// Appends a runner, or none.
pub(crate) fn push_runner(out: &mut Vec<u8>, runner: &Option<PathAndArgs>) -> Result<(), AllocError>
    ensures { OnOk result
        (IsAppended runner_front (command_value runner.now []) out.old.items out.new.items) }
{
    match runner {
        None => push_nothing(out),
        Some(runner) => push_command(
            out,
            if runner.is_array() { 2 } else { 1 },
            runner.path.value(),
            runner.args.as_slice(),
        ),
    }
}

/// Appends flags, or none.
pub(crate) fn push_flags(out: &mut Vec<u8>, flags: &Option<Flags>) -> Result<(), AllocError>
    ensures { OnOk result
        (IsAppended flags_front (flags_value flags.now []) out.old.items out.new.items) }
{
    match flags {
        None => push_nothing(out),
        Some(flags) => push_slot(
            out,
            if flags.is_array() { 2 } else { 1 },
            flags.flags.as_slice(),
        ),
    }
}
