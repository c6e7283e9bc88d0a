//! Which keys of `[target]` match for a triple, and its flags: each depends on the other.
ghost use Rattle.std.specs.Prelude.{◌≡◌, IfOk, Ok, map, string_bytes};
ghost use Rattle.cc2_error.specs.Commands.{command_of};
ghost use Rattle.cc2_error.specs.Outcomes.{Gives};
ghost use Rattle.cc2_base.specs.Told.{Keeps, WhereTold};
ghost use Rattle.cc2_rustc.specs.Printed.{printed};
ghost use Rattle.cc2_rustc.specs.Said.{said};
ghost use Rattle.cc2_resolved.specs.ShownFlags.{flag_texts};
ghost use Rattle.cc2_cargo.specs.Raw.{raw_members_at};
ghost use Rattle.cc2_cargo_target.specs.Keys.{AreMatching};
ghost use Rattle.cc2_cargo_target.specs.Outcomes.{GivesOne};
ghost use Rattle.cc2_cargo_target.specs.Settling.{MatchWith, Settles, cfg_command_with, have_cfg, question};
ghost use Rattle.cc2_cargo_target.specs.Shown.{settled_view};

use crate::flags::flags_of;
use crate::keys::matching as matching_set;
use crate::tool::Tool;
use cc2_base::programs::Programs;
use cc2_cargo_settings::Sources;
use cc2_error::error::{NoMemory, Result};
use cc2_error::path_and_args::PathAndArgs;
use cc2_resolved::flags::Flags;
use cc2_rustc::{CfgSet, said};
use std::alloc::Global;

/// The flags for rustc, and the keys that match.
#[derive(Drop)]
pub(crate) struct Settled<'a> {
    pub(crate) flags: Flags,
    pub(crate) matching: Vec<&'a str>,
}

// What rustc printed, and the keys that match by it.
#[derive(Drop)]
struct Asked<'a> {
    printed: String,
    matching: Vec<&'a str>,
}

/// The flags of a triple and the keys that match, from its flags without keys. rustc is run with these; by what it prints keys
/// match; with their flags it is run once more, where they differ. Where it prints the same, the same keys match. It isn't run
/// where no key begins with `cfg(`.
///
/// # Errors
/// - `ErrorKind::NotRun`, `ProgramFailed` and `OutputNotText` by rustc's answer;
/// - `ErrorKind::ParseFile` with the path where something of another type is at a key;
/// - `ErrorKind::Memory` where memory ran out.
pub(crate) fn settle<'a, P: Programs>(
    alloc: Global,
    sources: Sources<'_>,
    rustc: &PathAndArgs,
    triple: &str,
    keys: &[&'a str],
    plain: Flags,
    programs: &mut P,
) -> Result<Settled<'a>>
    ensures settles { WhereTold (P.told programs.old) (λ answers. GivesOne settled_view result
        (Settles (raw_members_at sources.entry.settings.now) sources.entry.machine.now
        (command_of rustc.now) answers triple.now (map (λ k. k.now) keys.now)
        (flag_texts plain))) }
    ensures same { Keeps (P.told programs.old) (P.told programs.new) }
{
    if !have_cfg(keys) {
        return Ok(Settled {
            flags: plain,
            matching: Vec::new(alloc),
        });
    }
    let Asked { printed, matching } = ask(alloc, rustc, triple, &plain, keys, programs)?;
    let flags = flags_of(alloc, sources, Tool::Rustc, triple, matching.as_slice())?;
    if flags == plain {
        return Ok(Settled { flags, matching });
    }
    let again = printed_with(alloc, rustc, triple, &flags, programs)?;
    if again == printed {
        return Ok(Settled { flags, matching });
    }
    let matching = matching_by(alloc, keys, again.as_str())?;
    Ok(Settled { flags, matching })
}

// What rustc prints with these flags, and the keys that match by it.
fn ask<'a, P: Programs>(
    alloc: Global,
    rustc: &PathAndArgs,
    triple: &str,
    flags: &Flags,
    keys: &[&'a str],
    programs: &mut P,
) -> Result<Asked<'a>>
    ensures told { WhereTold (P.told programs.old) (λ answers.
        Gives (λ a. string_bytes a.printed) result
        (said answers (cfg_command_with (command_of rustc.now) triple.now
        (flag_texts flags.now)))) }
    ensures matching { IfOk result (λ a. AreMatching (printed (string_bytes a.printed))
        (map (λ k. k.now) keys.now) (map (λ k. k.now) a.matching.items)) }
    ensures same { Keeps (P.told programs.old) (P.told programs.new) }
{
    let printed = printed_with(alloc, rustc, triple, flags, programs)?;
    let matching = matching_by(alloc, keys, printed.as_str())?;
    Ok(Asked { printed, matching })
}

/// Whether some key may match.
pub(crate) fn have_cfg(keys: &[&str]) -> bool
    ensures { result ≡ have_cfg (map (λ k. k.now) keys.now) }
{
    for key in keys {
        if key.starts_with("cfg(") {
            return true;
        }
    }
    false
}

/// Those of the keys that match by what rustc prints with these flags.
///
/// # Errors
/// `ErrorKind::NotRun`, `ProgramFailed` and `OutputNotText` by rustc's answer, and `ErrorKind::Memory`.
pub(crate) fn matching_with<'a, P: Programs>(
    alloc: Global,
    rustc: &PathAndArgs,
    triple: &str,
    flags: &Flags,
    keys: &[&'a str],
    programs: &mut P,
) -> Result<Vec<&'a str>>
    ensures matches { WhereTold (P.told programs.old) (λ answers.
        GivesOne (λ keys. map (λ k. k.now) keys.items) result
        (MatchWith (command_of rustc.now) answers triple.now (map (λ k. k.now) keys.now)
        (flag_texts flags.now))) }
    ensures same { Keeps (P.told programs.old) (P.told programs.new) }
{
    let Asked { matching, .. } = ask(alloc, rustc, triple, flags, keys, programs)?;
    Ok(matching)
}

// Those of the keys that match by what rustc printed.
fn matching_by<'a>(
    alloc: Global,
    keys: &[&'a str],
    text: &str,
) -> std::result::Result<Vec<&'a str>, NoMemory>
    ensures { IfOk result (λ found. AreMatching (printed text.now)
        (map (λ k. k.now) keys.now) (map (λ k. k.now) found.items)) }
{
    let set = CfgSet::read(alloc, text)?;
    matching_set(alloc, keys, &set)
}

// What rustc prints with these flags.
fn printed_with<P: Programs>(
    alloc: Global,
    rustc: &PathAndArgs,
    triple: &str,
    flags: &Flags,
    programs: &mut P,
) -> Result<String>
    ensures told { WhereTold (P.told programs.old) (λ answers. Gives string_bytes result
        (said answers (cfg_command_with (command_of rustc.now) triple.now
        (flag_texts flags.now)))) }
    ensures same { Keeps (P.told programs.old) (P.told programs.new) }
{
    let command = cfg_command(alloc, rustc, triple, flags)?;
    said(alloc, programs, &command)
}

// rustc with flags, and after them the question for the triple.
fn cfg_command(
    alloc: Global,
    rustc: &PathAndArgs,
    triple: &str,
    flags: &Flags,
) -> std::result::Result<PathAndArgs, NoMemory>
    ensures { IfOk result (λ command. command_of command
        ≡ cfg_command_with (command_of rustc.now) triple.now (flag_texts flags.now)) }
{
    let mut command = rustc.try_clone(alloc)?;
    for flag in flags.flags.iter() {
        command.push_arg(flag.clone()?)?;
    }
    command.push_args(question(alloc, triple)?)?;
    Ok(command)
}

fn question(alloc: Global, triple: &str) -> std::result::Result<Vec<String>, NoMemory>
    ensures { IfOk result (λ args. map string_bytes args.items ≡ question triple.now) }
{
    let mut args = Vec::new(alloc);
    args.push(String::from_str(alloc, "--print")?)?;
    args.push(String::from_str(alloc, "cfg")?)?;
    args.push(String::from_str(alloc, "--target")?)?;
    args.push(String::from_str(alloc, triple)?)?;
    Ok(args)
}
