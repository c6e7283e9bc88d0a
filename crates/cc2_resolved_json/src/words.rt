//! Texts as JSON: lists, commands and targets are arrays of them.
ghost use Rattle.std.specs.Prelude.{◌≡◌, ◌++◌, false, Some, IfOk, OnOk, map};
ghost use Rattle.serde_json.specs.View.{view};
ghost use Rattle.cc2_error.specs.Commands.{command_of};
ghost use Rattle.cc2_value.specs.Cells.{Items};
ghost use Rattle.cc2_value.specs.Rows.{texts_of};
ghost use Rattle.cc2_json.specs.Forms.{cell_data, command_texts, payload_data, word_texts};
ghost use Rattle.cc2_resolved.specs.ShownTargets.{target_at};
ghost use Rattle.cc2_resolved.specs.Targets.{command_text};
ghost use Rattle.cc2_resolved.specs.Texts as owned;
ghost use Rattle.cc2_resolved_json.specs.Plain.{bare_word, bare_words, command_payload};

use cc2_error::path_and_args::PathAndArgs;
use cc2_json::{Json, words_json};
use cc2_resolved::target_triple::TargetTriple;
use std::alloc::{AllocError, Global};

/// Texts, as an array.
pub fn texts_json(alloc: Global, texts: &[String]) -> Result<Json, AllocError>
    ensures { IfOk result (λ json.
        Some (view json) ≡ cell_data false (Items (bare_words (owned.texts_of texts.now)))) }
{
    let mut words = Vec::new(alloc);
    push_texts(&mut words, texts)?;
    words_json(alloc, true, words.as_slice())
}

/// The texts of targets as Cargo takes them, as an array.
pub fn targets_json(alloc: Global, targets: &[TargetTriple]) -> Result<Json, AllocError>
    ensures { IfOk result (λ json. Some (view json)
        ≡ cell_data false (Items (bare_words (map command_text (map target_at targets.now))))) }
{
    let words = target_words(alloc, targets)?;
    words_json(alloc, true, words.as_slice())
}

fn target_words(alloc: Global, targets: &[TargetTriple]) -> Result<Vec<&str>, AllocError>
    ensures { IfOk result (λ words. texts_of words.items
        ≡ word_texts (bare_words (map command_text (map target_at targets.now)))) }
{
    let mut words = Vec::new(alloc);
    for target in targets {
        words.push(target.as_command_text())?;
    }
    Ok(words)
}

/// A program and its arguments, as an array.
pub fn command_json(alloc: Global, command: &PathAndArgs) -> Result<Json, AllocError>
    ensures { IfOk result (λ json.
        view json ≡ payload_data (command_payload (command_of command.now))) }
{
    let mut words = Vec::new(alloc);
    push_command(&mut words, command)?;
    words_json(alloc, true, words.as_slice())
}

/// Appends the words of a command: its program and its arguments.
pub fn push_command<'a>(
    words: &mut Vec<&'a str>,
    command: &'a PathAndArgs,
) -> Result<(), AllocError>
    ensures { OnOk result (texts_of words.new.items ≡ texts_of words.old.items
        ++ command_texts (bare_word (command_of command.now).program)
        (bare_words (command_of command.now).args)) }
{
    words.push(command.path.as_str())?;
    push_texts(words, command.args.as_slice())
}

// Appends texts.
fn push_texts<'a>(words: &mut Vec<&'a str>, texts: &'a [String]) -> Result<(), AllocError>
    ensures { OnOk result (texts_of words.new.items
        ≡ texts_of words.old.items ++ word_texts (bare_words (owned.texts_of texts.now))) }
{
    for text in texts {
        words.push(text.as_str())?;
    }
    Ok(())
}
