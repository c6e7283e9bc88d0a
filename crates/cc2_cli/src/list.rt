//! The lines of texts in a list, each with its place.
ghost use Rattle.std.specs.Prelude.{◌≡◌, ◌++◌, OnOk, map, string_bytes};
ghost use Rattle.cc2_cli.specs.CommandLines.{text_line, texts_lines};
ghost use Rattle.cc2_cli.specs.Lines.{place};

use crate::text::{Done, push, push_quoted, push_shown};

// Appends a place of a list.
pub(crate) fn push_place(out: &mut Vec<u8>, at: usize) -> Done
    ensures { OnOk result (out.new.items ≡ out.old.items ++ place at) }
{
    push(out, "[")?;
    push_shown(out, at)?;
    push(out, "]")
}

// Appends the line of a text at a place of a list.
pub(crate) fn push_text(out: &mut Vec<u8>, key: &str, at: usize, text: &str) -> Done
    ensures { OnOk result (out.new.items ≡ out.old.items ++ text_line key.now at text.now) }
{
    push(out, key)?;
    push_place(out, at)?;
    push(out, " = ")?;
    push_quoted(out, text)?;
    push(out, "\n")
}

/// Appends a line for each text of a list, or one that says that there is none.
///
/// # Errors
/// `NoMemory` where memory ran out.
pub fn push_texts(out: &mut Vec<u8>, key: &str, texts: &[String]) -> Done
    ensures { OnOk result (out.new.items ≡ out.old.items
        ++ texts_lines key.now (map string_bytes texts.now)) }
{
    if texts.is_empty() {
        push(out, key)?;
        return push(out, " = []\n");
    }
    for (at, text) in texts.iter().enumerate() {
        push_text(out, key, at, text.as_str())?;
    }
    Ok(())
}
