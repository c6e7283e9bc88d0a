//! The linker and the runner of a triple.
ghost use Rattle.std.specs.Prelude.{◌≡◌, ◌∷◌, [], IfErr, IfOk, None, codes, map, option_map};
ghost use Rattle.cc2_error.specs.Causes.{no_memory, refusal_of};
ghost use Rattle.cc2_error.specs.Outcomes.{Gives};
ghost use Rattle.cc2_base.specs.VariableNames.{target_variable};
ghost use Rattle.cc2_value.specs.Values.{word_of};
ghost use Rattle.cc2_cargo.specs.Raw.{raw_members_at};
ghost use Rattle.cc2_cargo_target.specs.Chosen.{both_match, chosen_from, one_more_choice, program_key, program_of, runner_by, set_at_key, set_for_triple};
ghost use Rattle.cc2_cargo_target.specs.declared.program.Program.TheVariants as program;
ghost use Rattle.cc2_cargo_target.specs.Flags.{triple_path};
ghost use Rattle.cc2_cargo_settings.specs.Values.{text_at};
ghost use Rattle.cc2_cargo_settings.specs.Shown.{list_view};
ghost use Rattle.cc2_cargo_target.specs.Shown.{choice_view};

use crate::at_key::{linker_at, runner_at};
use crate::flags::triple_path;
use cc2_base::variable_name::target_variable;
use cc2_cargo_settings::{List, Sources, command, is_any_inside, joined_command, text};
use cc2_error::error::{Error, ErrorKind, NoMemory, ParseCause, Result};
use cc2_value::Value;
use std::alloc::Global;

/// A program of a triple.
#[derive(Clone, Copy, Debug, PartialEq, Eq)]
pub(crate) enum Program {
    /// What links.
    Linker,
    /// What runs programs that were built.
    Runner,
}

// A key with what it sets.
#[derive(Drop)]
pub(crate) struct Choice<'a> {
    pub(crate) key: &'a str,
    pub(crate) words: List,
}

/// The words of a program of a triple, where these keys of `[target]` match: those for the triple, else those of the one key
/// that has some (Cargo Reference, Configuration,
/// [`target.<cfg>.linker`](https://doc.rust-lang.org/cargo/reference/config.html#targetcfglinker)).
///
/// # Errors
/// `ErrorKind::ParseFile` with the path where something of another type is at a key, and where two keys have some;
/// `ErrorKind::EmptyCommand`, and `ErrorKind::Memory`.
pub(crate) fn program_of(
    alloc: Global,
    sources: Sources<'_>,
    program: Program,
    triple: &str,
    matching: &[&str],
) -> Result<Option<List>>
    ensures { Gives list_view result
        (program_of (raw_members_at sources.entry.settings.now) sources.entry.machine.now program
        triple.now (map (λ k. k.now) matching.now)) }
{
    if let Some(words) = set_for(alloc, sources, program, triple)? {
        return Ok(Some(words));
    }
    match chosen(alloc, sources, program, matching)? {
        None => Ok(None),
        Some(choice) => Ok(Some(choice.words)),
    }
}

// The choice among keys.
fn chosen<'a>(
    alloc: Global,
    sources: Sources<'_>,
    program: Program,
    matching: &[&'a str],
) -> Result<Option<Choice<'a>>>
    ensures { Gives choice_view result
        (chosen_from (raw_members_at sources.entry.settings.now) sources.entry.machine.now program
        None (map (λ k. k.now) matching.now)) }
{
    if !is_any_inside(sources.settings, "target", program_key(program)) {
        return Ok(None);
    }
    let mut choice = None;
    for key in matching {
        let set = set_at_key(alloc, sources, program, *key)?;
        choice = one_more(alloc, program, choice, *key, set)?;
    }
    Ok(choice)
}

// The choice so far, with what one key more sets.
fn one_more<'a>(
    alloc: Global,
    program: Program,
    choice: Option<Choice<'a>>,
    key: &'a str,
    set: Option<List>,
) -> Result<Option<Choice<'a>>>
    ensures { Gives choice_view result
        (one_more_choice program (choice_view choice.entry) key.now (list_view set)) }
{
    match set {
        None => Ok(choice),
        Some(words) => match choice {
            None => Ok(Some(Choice { key, words })),
            Some(first) => Err(both_match(alloc, program, first.key, key)?),
        },
    }
}

// The error that two keys set a program.
fn both_match(
    alloc: Global,
    program: Program,
    first: &str,
    second: &str,
) -> std::result::Result<Error, NoMemory>
    ensures { IfOk result (λ error.
        refusal_of error ≡ both_match program first.now second.now) }
{
    let setting = program_key(program);
    let text = format!(in alloc;
        "several matching instances of `target.'cfg(..)'.{setting}`: `{first}` and `{second}`"
    )?;
    Ok(Error::new(ErrorKind::ParseFile(ParseCause::Refused { text })))
}

fn program_key(program: Program) -> &'static str
    ensures { result.now ≡ program_key program }
{
    match program {
        Program::Linker => "linker",
        Program::Runner => "runner",
    }
}

// What is set for the triple.
fn set_for(
    alloc: Global,
    sources: Sources<'_>,
    program: Program,
    triple: &str,
) -> Result<Option<List>>
    ensures { Gives list_view result
        (set_for_triple (raw_members_at sources.entry.settings.now) sources.entry.machine.now
        program triple.now) }
{
    match program {
        Program::Linker => one_word(alloc, linker_for(alloc, sources, triple)?),
        Program::Runner => runner_for(alloc, sources, triple),
    }
}

fn linker_for(alloc: Global, sources: Sources<'_>, triple: &str) -> Result<Option<Value<String>>>
    ensures { Gives (option_map word_of) result
        (text_at (raw_members_at sources.entry.settings.now) sources.entry.machine.now
        (triple_path triple.now (codes "linker"))
        (target_variable triple.now (codes "_LINKER"))) }
{
    let path = triple_path(alloc, triple, "linker")?;
    let name = target_variable(alloc, triple, "_LINKER")?;
    text(alloc, sources, path.as_slice(), name.as_str())
}

fn runner_for(alloc: Global, sources: Sources<'_>, triple: &str) -> Result<Option<List>>
    ensures { Gives list_view result
        (set_for_triple (raw_members_at sources.entry.settings.now) sources.entry.machine.now
        program.Runner triple.now) }
{
    let path = triple_path(alloc, triple, "runner")?;
    let name = target_variable(alloc, triple, "_RUNNER")?;
    runner_by(alloc, sources, path.as_slice(), name.as_str())
}

// The runner at a path: a command of three keys, else a list of words, as that of a triple with a dot.
fn runner_by(alloc: Global, sources: Sources<'_>, path: &[&str], name: &str) -> Result<Option<List>>
    ensures { Gives list_view result
        (runner_by (raw_members_at sources.entry.settings.now) sources.entry.machine.now
        (map (λ k. k.now) path.now) name.now) }
{
    if path.len() == 3 {
        command(alloc, sources, path, name)
    } else {
        joined_command(alloc, sources, path, name)
    }
}

// What is set at a key.
fn set_at_key(
    alloc: Global,
    sources: Sources<'_>,
    program: Program,
    key: &str,
) -> Result<Option<List>>
    ensures { Gives list_view result
        (set_at_key (raw_members_at sources.entry.settings.now) sources.entry.machine.now program
        key.now) }
{
    match program {
        Program::Linker => one_word(alloc, linker_at(alloc, sources, key)?),
        Program::Runner => runner_at(alloc, sources, key),
    }
}

// A text as a command of one word.
fn one_word(alloc: Global, set: Option<Value<String>>) -> Result<Option<List>>
    ensures words { IfOk result (λ words.
        list_view words ≡ option_map (λ w. w ∷ []) (option_map word_of set)) }
    ensures refused { IfErr result (λ e. e ≡ no_memory) }
{
    let Some(word) = set else {
        return Ok(None);
    };
    let mut words = Vec::new(alloc);
    words.push(word)?;
    Ok(Some(words))
}
