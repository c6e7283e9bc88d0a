//! The whole command line.
ghost use Rattle.std.specs.Prelude.{◌≡◌, Err, Ok, map, string_bytes, IfOk, IfErr};
ghost use Rattle.cc2_command_line.specs.FaultViews.{IsFaultOf, fault_view};
ghost use Rattle.cc2_command_line.specs.Lines as spec;
ghost use Rattle.cc2_command_line.specs.LineViews.{invocation_view, line_view};
ghost use Rattle.cc2_command_line.specs.Parts.{part_view};

use crate::choice::{Color, chosen};
use crate::command::{Command, Verb, command_of, verb_named};
use crate::fault::Fault;
use crate::option::{Flag, Setting};
use crate::part::{Part, parts_of};
use crate::selected::{has_flag, operands, single, values};
use std::alloc::Global;

/// A command, and the options that every command has.
#[derive(Debug, Drop)]
pub struct Line<'a> {
    /// The command with its own options.
    pub command: Command<'a>,
    /// The directory to start in.
    pub directory: Option<&'a str>,
    /// The overrides, the strongest last.
    pub configs: Vec<&'a str>,
    /// Whether output is coloured.
    pub color: Color,
    /// Whether the summary is left out.
    pub quiet: bool,
    /// Whether no program is run.
    pub no_programs: bool,
}

/// What a command line means.
#[derive(Debug, Drop)]
pub enum Invocation<'a> {
    /// Help for the program, or for one of its commands.
    Help(Option<Verb>),
    /// The program's version.
    Version,
    /// A command.
    Run(Line<'a>),
}

/// What the arguments after the program's name mean. Options may precede or follow the command. No arguments mean the
/// program's help. A first argument `config2` is skipped: Cargo puts it there when it runs a subcommand.
///
/// # Errors
/// A `Fault` that says what is wrong with the line; `Fault::Memory` where memory ran out.
pub fn parse_args<'a>(alloc: Global, words: &'a [String]) -> Result<Invocation<'a>, Fault<'a>>
    ensures ok { IfOk result (λ invocation.
        spec.invocation_of (map string_bytes words.now) ≡ Ok (invocation_view invocation)) }
    ensures wrong { IfErr result (λ fault. IsFaultOf fault
        (spec.invocation_of (map string_bytes words.now))) }
{
    let parts = parts_of(alloc, own_words(words))?;
    invocation_by(alloc, parts.as_slice())
}

// The arguments without the subcommand's own name.
fn own_words(words: &[String]) -> &[String]
    ensures { map string_bytes result.now ≡ spec.own_words (map string_bytes words.now) }
{
    match words {
        [name, behind @ ..] if name.as_str() == "config2" => behind,
        _ => words,
    }
}

// What these parts mean.
fn invocation_by<'a>(alloc: Global, parts: &[Part<'a>]) -> Result<Invocation<'a>, Fault<'a>>
    ensures ok { IfOk result (λ invocation.
        spec.invocation_by (map part_view parts.now) ≡ Ok (invocation_view invocation)) }
    ensures wrong { IfErr result (λ fault. IsFaultOf fault
        (spec.invocation_by (map part_view parts.now))) }
{
    let operands = operands(alloc, parts)?;
    if has_flag(parts, Flag::Help) {
        return help_on(operands.as_slice());
    }
    if has_flag(parts, Flag::Version) {
        return Ok(Invocation::Version);
    }
    match operands.as_slice() {
        [] => no_command(parts),
        [word, behind @ ..] => named(alloc, *word, behind, parts),
    }
}

// Without a command: help if there is no option either, else an error.
fn no_command<'a>(parts: &[Part<'a>]) -> Result<Invocation<'a>, Fault<'a>>
    ensures ok { IfOk result (λ invocation.
        spec.no_command (map part_view parts.now) ≡ Ok (invocation_view invocation)) }
    ensures wrong { IfErr result (λ fault.
        spec.no_command (map part_view parts.now) ≡ Err (fault_view fault)) }
{
    match parts {
        [] => Ok(Invocation::Help(None)),
        _ => Err(Fault::NoCommand),
    }
}

// Help for the command that the first word names; for the program if there is no word, and for `help`.
fn help_on<'a>(words: &[&'a str]) -> Result<Invocation<'a>, Fault<'a>>
    ensures ok { IfOk result (λ invocation.
        spec.help_on (map (λ w. w.now) words.now) ≡ Ok (invocation_view invocation)) }
    ensures wrong { IfErr result (λ fault.
        spec.help_on (map (λ w. w.now) words.now) ≡ Err (fault_view fault)) }
{
    match words {
        [] => Ok(Invocation::Help(None)),
        [word, ..] if *word == "help" => Ok(Invocation::Help(None)),
        [word, ..] => match verb_named(*word) {
            Some(verb) => Ok(Invocation::Help(Some(verb))),
            None => Err(Fault::UnknownCommand(*word)),
        },
    }
}

// The command of this name with these operands and the options of these parts.
fn named<'a>(
    alloc: Global,
    word: &'a str,
    operands: &[&'a str],
    parts: &[Part<'a>],
) -> Result<Invocation<'a>, Fault<'a>>
    ensures ok { IfOk result (λ invocation.
        spec.named word.now (map (λ o. o.now) operands.now) (map part_view parts.now)
        ≡ Ok (invocation_view invocation)) }
    ensures wrong { IfErr result (λ fault. IsFaultOf fault
        (spec.named word.now (map (λ o. o.now) operands.now) (map part_view parts.now))) }
{
    if word == "help" {
        return help_on(operands);
    }
    match verb_named(word) {
        Some(verb) => Ok(Invocation::Run(line_of(alloc, verb, operands, parts)?)),
        None => Err(Fault::UnknownCommand(word)),
    }
}

// A command with these operands and the options of these parts, and those that every command has.
fn line_of<'a>(
    alloc: Global,
    verb: Verb,
    operands: &[&'a str],
    parts: &[Part<'a>],
) -> Result<Line<'a>, Fault<'a>>
    ensures ok { IfOk result (λ line.
        spec.line_of verb (map (λ o. o.now) operands.now) (map part_view parts.now)
        ≡ Ok (line_view line)) }
    ensures wrong { IfErr result (λ fault. IsFaultOf fault
        (spec.line_of verb (map (λ o. o.now) operands.now) (map part_view parts.now))) }
{
    let directory = single(alloc, parts, Setting::Directory)?;
    let color = chosen(alloc, parts, Setting::Color, Color::Auto)?;
    let configs = values(alloc, parts, Setting::Config)?;
    let quiet = has_flag(parts, Flag::Quiet);
    let no_programs = has_flag(parts, Flag::NoPrograms);
    let command = command_of(alloc, verb, operands, parts)?;
    Ok(Line {
        command,
        directory,
        configs,
        color,
        quiet,
        no_programs,
    })
}
