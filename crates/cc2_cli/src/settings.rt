//! The lines of the settings of the table `build`, each with where it was set.
ghost use Rattle.std.specs.Prelude.{◌≡◌, ◌++◌, ℕ, List, OnOk, [], codes, option_map};
ghost use Rattle.cc2_value.specs.Values.{origin_of, words_of, word_of};
ghost use Rattle.cc2_value.specs.Singles.{whole_number, text_value, truth_value};
ghost use Rattle.cc2_leaf.specs.Lists.{flags_value};
ghost use Rattle.cc2_leaf.specs.Wholes.{whole_value};
ghost use Rattle.cc2_cli.specs.Lines.{quoted, origin_part, line, place, list_lines, cell_lines, whole_lines};

use crate::list::push_place;
use crate::text::{Done, push, push_quoted, push_shown};
use cc2_leaf::{Definition, Flags, StringOrArray, Value};

/// A setting of the table `build` that may be absent, as lines.
pub trait PushLines {
    /// Its lines at a key.
    ghost lines: { List ℕ → Self → List ℕ };

    /// Appends its lines; none where it is absent.
    ///
    /// # Errors
    /// `NoMemory` where memory ran out.
    fn push_lines(&self, out: &mut Vec<u8>, key: &str) -> Done
        ensures { OnOk result (out.new.items ≡ out.old.items ++ lines key.now self.now) };
}

// Appends the key of a value.
fn push_key(out: &mut Vec<u8>, key: &str) -> Done
    ensures { OnOk result (out.new.items ≡ out.old.items
        ++ (codes "build." ++ (key.now ++ codes " = "))) }
{
    push(out, "build.")?;
    push(out, key)?;
    push(out, " = ")
}

// Appends where a value was set, and ends the line.
fn push_end(out: &mut Vec<u8>, definition: &Option<Definition>) -> Done
    ensures { OnOk result (out.new.items
        ≡ out.old.items ++ (origin_part (option_map origin_of definition.now) ++ codes "\n")) }
{
    if let Some(definition) = definition {
        push(out, " # ")?;
        push_shown(out, definition)?;
    }
    push(out, "\n")
}

// Appends the line of a value.
fn push_line(out: &mut Vec<u8>, key: &str, value: &[u8], definition: &Option<Definition>) -> Done
    ensures { OnOk result (out.new.items ≡ out.old.items ++ line key.now value.now
        (option_map origin_of definition.now)) }
{
    push_key(out, key)?;
    out.extend_from_slice(value)?;
    push_end(out, definition)
}

// Appends the line of a text.
fn push_word(out: &mut Vec<u8>, key: &str, word: &Value<String>) -> Done
    ensures { OnOk result (out.new.items ≡ out.old.items ++ line key.now
        (quoted (word_of word.now).text) (word_of word.now).origin) }
{
    push_key(out, key)?;
    push_quoted(out, word.val.as_str())?;
    push_end(out, &word.definition)
}

/// The line of a number.
impl PushLines for Option<Value<i32>> {
    ghost lines = { λ key value. cell_lines key (whole_number value []) };

    fn push_lines(&self, out: &mut Vec<u8>, key: &str) -> Done {
        if let Some(value) = self {
            push_key(out, key)?;
            push_shown(out, value.val)?;
            push_end(out, &value.definition)?;
        }
        Ok(())
    }
}

/// The line of a truth value.
impl PushLines for Option<Value<bool>> {
    ghost lines = { λ key value. cell_lines key (truth_value value []) };

    fn push_lines(&self, out: &mut Vec<u8>, key: &str) -> Done {
        if let Some(value) = self {
            let shown = if value.val { "true" } else { "false" };
            push_line(out, key, shown.as_bytes(), &value.definition)?;
        }
        Ok(())
    }
}

/// The line of a text.
impl PushLines for Option<Value<String>> {
    ghost lines = { λ key value. cell_lines key (text_value value []) };

    fn push_lines(&self, out: &mut Vec<u8>, key: &str) -> Done {
        if let Some(value) = self {
            push_word(out, key, value)?;
        }
        Ok(())
    }
}

// Appends the line of an item at a place.
fn push_item(out: &mut Vec<u8>, key: &str, at: usize, item: &Value<String>) -> Done
    ensures { OnOk result (out.new.items ≡ out.old.items ++ line (key.now ++ place at)
        (quoted (word_of item.now).text) (word_of item.now).origin) }
{
    push(out, "build.")?;
    push(out, key)?;
    push_place(out, at)?;
    push(out, " = ")?;
    push_quoted(out, item.val.as_str())?;
    push_end(out, &item.definition)
}

// Appends the lines of a list.
fn push_list(out: &mut Vec<u8>, key: &str, items: &[Value<String>]) -> Done
    ensures { OnOk result (out.new.items ≡ out.old.items
        ++ list_lines key.now (words_of items.now)) }
{
    if items.is_empty() {
        return push_line(out, key, b"[]", &None);
    }
    for (at, item) in items.iter().enumerate() {
        push_item(out, key, at, item)?;
    }
    Ok(())
}

/// The lines of flags.
impl PushLines for Option<Flags> {
    ghost lines = { λ key flags. cell_lines key (flags_value flags []) };

    fn push_lines(&self, out: &mut Vec<u8>, key: &str) -> Done {
        if let Some(flags) = self {
            push_list(out, key, flags.flags.as_slice())?;
        }
        Ok(())
    }
}

/// The line of a text, or the lines of an array.
impl PushLines for Option<StringOrArray> {
    ghost lines = { λ key value. whole_lines key (whole_value value []) };

    fn push_lines(&self, out: &mut Vec<u8>, key: &str) -> Done {
        match self {
            Some(StringOrArray::String(text)) => push_word(out, key, text),
            Some(StringOrArray::Array(items)) => push_list(out, key, items.as_slice()),
            None => Ok(()),
        }
    }
}
