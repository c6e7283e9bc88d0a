//! Texts in bytes, and lists of them.
ghost use Rattle.std.specs.Prelude.{◌≡◌, ◌++◌, OnOk, map};
ghost use Rattle.cc2_ask.specs.Fields.{fields_bytes, AreShort};
ghost use Rattle.cc2_error.specs.Commands.{command_of};
ghost use Rattle.cc2_resolved.specs.ShownTargets.{target_at};
ghost use Rattle.cc2_resolved.specs.Targets.{command_text};
ghost use Rattle.cc2_resolved.specs.Texts.{texts_of};
ghost use Rattle.cc2_resolved_cells.specs.Bytes.{item_bytes};
ghost use Rattle.cc2_resolved_cells.specs.Short.{IsShortItem};
ghost use Rattle.cc2_resolved_cells.specs.Values as item;
ghost use Rattle.cc2_resolved_cells.specs.Values.{command_words};

use cc2_ask::{push_field, push_fields, push_list, push_number};
use cc2_error::path_and_args::PathAndArgs;
use cc2_resolved::target_triple::TargetTriple;
use std::alloc::AllocError;

/// Appends a text.
///
/// # Errors
/// `AllocError` where memory ran out, or where the text is too long for four bytes.
pub fn push_text(out: &mut Vec<u8>, text: &str) -> Result<(), AllocError>
    ensures bytes { OnOk result (out.new.items ≡ out.old.items ++ item_bytes (item.text text.now)) }
    ensures short { OnOk result (IsShortItem (item.text text.now)) }
{
    out.push(b't')?;
    push_field(out, text.as_bytes())
}

/// Appends a list of texts.
///
/// # Errors
/// `AllocError` where memory ran out, or where a text or the list is too long for four bytes.
pub fn push_texts(out: &mut Vec<u8>, texts: &[String]) -> Result<(), AllocError>
    ensures bytes { OnOk result
        (out.new.items ≡ out.old.items ++ item_bytes (item.list (texts_of texts.now))) }
    ensures short { OnOk result (IsShortItem (item.list (texts_of texts.now))) }
{
    out.push(b'a')?;
    push_list(out, texts)
}

/// Appends a program and its arguments, as a list.
///
/// # Errors
/// `AllocError` where memory ran out, or where a text or the list is too long for four bytes.
pub fn push_command(out: &mut Vec<u8>, command: &PathAndArgs) -> Result<(), AllocError>
    ensures bytes { OnOk result (out.new.items
        ≡ out.old.items ++ item_bytes (item.list (command_words (command_of command.now)))) }
    ensures short { OnOk result
        (IsShortItem (item.list (command_words (command_of command.now)))) }
{
    out.push(b'a')?;
    push_number(out, command.args.len() + 1)?;
    push_words(out, command)
}

/// Appends a field for a program and one for each argument.
///
/// # Errors
/// `AllocError` where memory ran out, or where a text is too long for four bytes.
pub fn push_words(out: &mut Vec<u8>, command: &PathAndArgs) -> Result<(), AllocError>
    ensures bytes { OnOk result (out.new.items
        ≡ out.old.items ++ fields_bytes (command_words (command_of command.now))) }
    ensures short { OnOk result (AreShort (command_words (command_of command.now))) }
{
    push_field(out, command.path.as_bytes())?;
    push_fields(out, command.args.as_slice())
}

/// Appends the texts of targets as Cargo takes them, as a list.
///
/// # Errors
/// `AllocError` where memory ran out, or where a text or the list is too long for four bytes.
pub fn push_targets(out: &mut Vec<u8>, targets: &[TargetTriple]) -> Result<(), AllocError>
    ensures bytes { OnOk result (out.new.items
        ≡ out.old.items ++ item_bytes (item.list (map command_text (map target_at targets.now)))) }
    ensures short { OnOk result
        (IsShortItem (item.list (map command_text (map target_at targets.now)))) }
{
    out.push(b'a')?;
    push_number(out, targets.len())?;
    push_target_fields(out, targets)
}

// Appends a field for each target.
fn push_target_fields(out: &mut Vec<u8>, targets: &[TargetTriple]) -> Result<(), AllocError>
    ensures bytes { OnOk result (out.new.items
        ≡ out.old.items ++ fields_bytes (map command_text (map target_at targets.now))) }
    ensures short { OnOk result (AreShort (map command_text (map target_at targets.now))) }
{
    for target in targets {
        push_field(out, target.as_command_text().as_bytes())?;
    }
    Ok(())
}
