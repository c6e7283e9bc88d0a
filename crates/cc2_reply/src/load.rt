//! What a load gives: the cells of the resolved configuration, and the state for later questions.
ghost use Rattle.std.specs.Prelude.{◌≡◌, IfOk, map, option_map, string_bytes};
ghost use Rattle.std.specs.Option.{option_copied};
ghost use Rattle.cc2_base.specs.Told.{WhereTold};
ghost use Rattle.cargo_config2.specs.Config.{shown, tables_of};
ghost use Rattle.cc2_resolved.specs.ShownFlags.{flag_texts};
ghost use Rattle.cc2_resolved_cells.specs.Cells.{ShowExactly};
ghost use Rattle.cc2_resolved_cells.specs.Reading.{AreBytesOf};
ghost use Rattle.cc2_resolved_cells.specs.Tables.{cells_of_tables};
ghost use Rattle.cc2_reply.specs.Answered.{IsLoadAnswer, IsLoadedOrMemory};
ghost use Rattle.cc2_reply.specs.States.{AreBytesFor, AreCellsOf, IsLent};
ghost use Rattle.cc2_state.specs.Views.{texts_lent};

use crate::by_state::no_answer;
use cargo_config2::Config;
use cc2_answers::load_chosen;
use cc2_base::files::Files;
use cc2_base::machine::Machine;
use cc2_cli::{Answer, are_pairs, refusal_answer};
use cc2_error::error::NoMemory;
use cc2_resolved::flags::Flags;
use cc2_resolved_cells::write_tables;
use cc2_state::{StateParts, state_bytes};
use std::alloc::Global;

/// An answer, or what a load gives.
#[derive(Debug, Drop)]
pub enum Answered {
    /// An answer.
    Answer(Answer),
    /// The cells of the resolved configuration in bytes, and the state for later questions; the latter is empty where some
    /// table below `target` holds another one.
    Loaded(Vec<u8>, Vec<u8>),
}

/// What the load of a directory gives, under the overrides of these words; an empty answer with the status 2 where they are
/// no pairs.
pub fn load_answer<F: Files>(
    alloc: Global,
    dir: &str,
    words: &[String],
    machine: &Machine,
    files: &F,
) -> Answered
    ensures { WhereTold (F.told files.now) (λ fs.
        IsLoadAnswer fs machine.now dir.now (map string_bytes words.now) result) }
{
    if !are_pairs(words) {
        return Answered::Answer(no_answer(alloc));
    }
    match load_chosen(alloc, dir, words, machine, files) {
        Ok(config) => {
            let loaded = loaded(alloc, &config);
            drop(config);
            loaded_or_memory(loaded)
        }
        Err(error) => Answered::Answer(refusal_answer(alloc, &error)),
    }
}

// What was loaded, or that memory ran out.
fn loaded_or_memory(loaded: Result<(Vec<u8>, Vec<u8>), NoMemory>) -> Answered
    ensures { IsLoadedOrMemory loaded result }
{
    match loaded {
        Ok((cells, state)) => Answered::Loaded(cells, state),
        Err(_) => Answered::Answer(Answer {
            text: None,
            status: 1,
        }),
    }
}

// The cells of a configuration, and its state.
fn loaded(alloc: Global, config: &Config) -> Result<(Vec<u8>, Vec<u8>), NoMemory>
    ensures cells { IfOk result (λ r. AreCellsOf config.now r.0.items) }
    ensures state { IfOk result (λ r. AreBytesFor config.now r.1.items) }
{
    let cells = config_cells(alloc, config)?;
    let state = state_of(alloc, config)?;
    Ok((cells, state))
}

// The cells of a configuration's tables.
fn config_cells(alloc: Global, config: &Config) -> Result<Vec<u8>, NoMemory>
    ensures bytes { IfOk result (λ bytes.
        AreBytesOf (cells_of_tables (tables_of config.now)) bytes.items) }
    ensures shown { IfOk result (λ bytes.
        ShowExactly (cells_of_tables (tables_of config.now)) (shown config.now)) }
{
    write_tables!(alloc, config)
}

// The bytes of a configuration's state; none where some table below `target` holds another one.
fn state_of(alloc: Global, config: &Config) -> Result<Vec<u8>, NoMemory>
    ensures { IfOk result (λ state. AreBytesFor config.now state.items) }
{
    let written = state_bytes(alloc, &parts_of(config))?;
    match written {
        Some(bytes) => Ok(bytes),
        None => Ok(Vec::new(alloc)),
    }
}

// What queries read of a configuration, lent.
fn parts_of(config: &Config) -> StateParts<'_>
    ensures { IsLent config.now result }
{
    StateParts {
        flags_overridden: config.has_overridden_flags(),
        doc_flags_overridden: config.has_overridden_doc_flags(),
        rustc: text_of(&config.build.rustc),
        rustc_wrapper: text_of(&config.build.rustc_wrapper),
        rustc_workspace_wrapper: text_of(&config.build.rustc_workspace_wrapper),
        rustflags: flags_of(&config.build.rustflags),
        rustdocflags: flags_of(&config.build.rustdocflags),
        target: config.target_tables(),
    }
}

// A text that may be absent, lent.
fn text_of(text: &Option<String>) -> Option<&str>
    ensures { option_copied result ≡ option_map string_bytes text.now }
{
    match text {
        Some(text) => Some(text.as_str()),
        None => None,
    }
}

// Flags that may be absent, lent.
fn flags_of(flags: &Option<Flags>) -> Option<&[String]>
    ensures { texts_lent result ≡ option_map flag_texts flags.now }
{
    match flags {
        Some(flags) => Some(flags.flags.as_slice()),
        None => None,
    }
}
