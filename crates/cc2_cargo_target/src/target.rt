//! What Cargo uses for a target.
ghost use Rattle.std.specs.Prelude.{◌≡◌, Err, IfOk, Ok, map, option_map, string_bytes};
ghost use Rattle.cc2_error.specs.Causes.{Refusal};
ghost use Rattle.cc2_error.specs.Commands.{command_of};
ghost use Rattle.cc2_error.specs.Outcomes.{Gives};
ghost use Rattle.cc2_base.specs.Told.{Keeps, WhereTold};
ghost use Rattle.cc2_cargo_target.specs.Outcomes.{GivesOne};
ghost use Rattle.cc2_cargo_settings.specs.Shown.{list_view};
ghost use Rattle.cc2_cargo_target.specs.Shown.{settled_view};
ghost use Rattle.cc2_resolved.specs.TargetConfigs.{shown};
ghost use Rattle.cc2_resolved.specs.Answers.{flags_answer};
ghost use Rattle.cc2_resolved.specs.ShownFlags.{flag_texts};
ghost use Rattle.cc2_cargo_target.specs.Target.{IsTarget, checked_keys, finished, if_any, resolved_words};

use crate::flags::{flags_of, word_texts};
use crate::keys::{check_keys, target_keys};
use crate::program::{Program, program_of};
use crate::program_path::program_path;
use crate::settle::{Settled, settle};
use crate::tool::Tool;
use cc2_base::programs::Programs;
use cc2_cargo_settings::{List, Sources};
use cc2_error::error::Result;
use cc2_error::path_and_args::PathAndArgs;
use cc2_resolved::flags::Flags;
use cc2_resolved::target_config::TargetConfig;
use std::alloc::Global;

/// What Cargo 1.95 uses for a target in a directory: for what it builds for this triple, with `--target` or as the host (Cargo
/// Reference, Configuration,
/// [`[target]`](https://doc.rust-lang.org/cargo/reference/config.html#target)). Where some key begins with `cfg(`, rustc is run
/// once, and once more if the flags of matching keys change its flags. A directory is absolute.
///
/// # Errors
/// - `ErrorKind::ParseFile` with the path where something of another type is at a key of `[target]` or `[build]` that is read, and
///   where two keys that match have a linker, or a runner;
/// - `ErrorKind::EmptyCommand` where a runner has no words;
/// - `ErrorKind::NotRun`, `ProgramFailed` and `OutputNotText` by rustc's answer;
/// - `ErrorKind::NoRoot` where a relative program is set by a file that has no root;
/// - `ErrorKind::Memory` where memory ran out.
///
/// # Example
/// ```ignore
/// let sources = Sources { settings: &settings, machine: &machine };
/// let rustc = rustc_command(alloc, sources, "/p")?;
/// let target = target_by_cargo(alloc, sources, "/p", &rustc, "x86_64-unknown-linux-gnu", &mut programs)?;
/// ```
pub fn target_by_cargo<P: Programs>(
    alloc: Global,
    sources: Sources<'_>,
    dir: &str,
    rustc: &PathAndArgs,
    triple: &str,
    programs: &mut P,
) -> Result<TargetConfig>
    ensures target { WhereTold (P.told programs.old) (λ answers. GivesOne shown result
        (IsTarget sources.entry.settings.now sources.entry.machine.now dir.now triple.now
        (command_of rustc.now) answers)) }
    ensures exact { WhereTold (P.told programs.old) (λ answers. IfOk result (λ _.
        (refusal : Refusal) → ¬ (IsTarget sources.entry.settings.now sources.entry.machine.now
        dir.now triple.now (command_of rustc.now) answers (Err refusal)))) }
    ensures same { Keeps (P.told programs.old) (P.told programs.new) }
{
    let keys = checked_keys(alloc, sources)?;
    let plain = flags_of(alloc, sources, Tool::Rustc, triple, &[])?;
    let settled = settle(
        alloc,
        sources,
        rustc,
        triple,
        keys.as_slice(),
        plain,
        programs,
    )?;
    finished(alloc, sources, dir, triple, settled)
}

/// The keys of `[target]`, where what is below each can be read.
///
/// # Errors
/// Those of `target_keys` and `check_keys`.
pub(crate) fn checked_keys<'a>(alloc: Global, sources: Sources<'a>) -> Result<Vec<&'a str>>
    ensures { Gives (λ keys. map (λ k. k.now) keys.items) result
        (checked_keys sources.entry.settings.now sources.entry.machine.now) }
{
    let keys = target_keys(alloc, sources.settings)?;
    check_keys(alloc, sources, keys.as_slice())?;
    Ok(keys)
}

/// The settings with the flags and the keys that match.
///
/// # Errors
/// - `ErrorKind::ParseFile` with the path where something of another type is at a key, and where two keys that match have a
///   linker, or a runner;
/// - `ErrorKind::EmptyCommand`, `ErrorKind::NoRoot`, and `ErrorKind::Memory`.
pub(crate) fn finished(
    alloc: Global,
    sources: Sources<'_>,
    dir: &str,
    triple: &str,
    settled: Settled<'_>,
) -> Result<TargetConfig>
    ensures { Gives shown result
        (finished sources.entry.settings.now sources.entry.machine.now dir.now triple.now
        (settled_view settled.entry)) }
{
    let Settled { flags, matching } = settled;
    let matching = matching.as_slice();
    let linker = program_of(alloc, sources, Program::Linker, triple, matching)?;
    let linker = resolved(alloc, dir, linker)?;
    let runner = program_of(alloc, sources, Program::Runner, triple, matching)?;
    let runner = resolved(alloc, dir, runner)?;
    let rustdocflags = flags_of(alloc, sources, Tool::Rustdoc, triple, matching)?;
    Ok(TargetConfig {
        linker: program_in(linker),
        runner,
        rustflags: if_any(flags),
        rustdocflags: if_any(rustdocflags),
    })
}

fn program_in(command: Option<PathAndArgs>) -> Option<String>
    ensures { option_map string_bytes result
        ≡ option_map (λ c. c.program) (option_map command_of command) }
{
    match command {
        None => None,
        Some(command) => Some(command.path),
    }
}

// Flags, where there are any.
fn if_any(flags: Flags) -> Option<Flags>
    ensures { option_map flags_answer result ≡ if_any (flag_texts flags) }
{
    if flags.flags.is_empty() {
        None
    } else {
        Some(flags)
    }
}

// Words as a command, its program as Cargo runs it.
fn resolved(alloc: Global, dir: &str, words: Option<List>) -> Result<Option<PathAndArgs>>
    ensures { Gives (option_map command_of) result (resolved_words dir.now (Ok (list_view words))) }
{
    let Some(words) = words else {
        return Ok(None);
    };
    let mut words = words;
    if words.is_empty() {
        return Ok(None);
    }
    let first = words.remove(0);
    let path = program_path(alloc, dir, first)?;
    let args = word_texts(alloc, Some(words))?;
    Ok(Some(PathAndArgs { path, args }))
}
