//! What rustc prints for a target with `--print cfg`, asked once and kept.
ghost use Rattle.std.specs.Prelude.{◌≡◌, ◌≤◌, ◌+◌, ℕ, List, is_some, IfOk, IfErr, IsOk, IsSome, OnOk};
ghost use Rattle.std.specs.BTreeMap.{get_by_text};
ghost use Rattle.cc2_error.specs.Commands.{command_of, with_args};
ghost use Rattle.cc2_error.specs.Outcomes.{Gives, IsRefusal, IsWantOfMemory};
ghost use Rattle.cc2_base.specs.Told.{Keeps, WhereTold};
ghost use Rattle.cc2_rustc.specs.Printed.{atoms_of};
ghost use Rattle.cc2_resolved.specs.ShownTargets.{target_at};
ghost use Rattle.cc2_resolved.specs.Targets.{command_text};
ghost use Rattle.cc2_resolved.specs.Texts.{lent_texts};
ghost use Rattle.cc2_rustc.specs.ByName.{AtMostAdds, KeepsNames};
ghost use Rattle.cc2_rustc.specs.CfgSets.{cfg_command, unstable_args, set_said, kept_set, AgreesOnSets};

use crate::by_target::{has_kept, keep};
use crate::{CfgSet, said};
use cc2_base::programs::Programs;
use cc2_error::error::Result;
use cc2_error::path_and_args::PathAndArgs;
use cc2_resolved::string_list::StringList;
use cc2_resolved::target_triple::TargetTripleRef;
use cc2_value::put;
use std::alloc::Global;
use std::collections::BTreeMap;

/// Finds what rustc prints for the target, and keeps it by the target's text. What is kept stays, and
/// then rustc isn't asked.
///
/// # Errors
/// `ErrorKind::NotRun`, `ProgramFailed` and `OutputNotText` by rustc's answer, and `ErrorKind::Memory`
/// where memory ran out; nothing is then kept for the target.
pub(crate) fn find_cfg_set<P: Programs>(
    alloc: Global,
    rustc: &PathAndArgs,
    target: &TargetTripleRef<'_>,
    programs: &mut P,
    sets: &mut BTreeMap<String, CfgSet>,
) -> Result<()>
    ensures agrees { WhereTold (P.told programs.old) (λ answers.
        AgreesOnSets (command_of rustc.now) answers sets.old
        → AgreesOnSets (command_of rustc.now) answers sets.new) }
    ensures keeps { KeepsNames sets.old sets.new }
    ensures found { OnOk result
        (IsSome (get_by_text sets.new (command_text (target_at target.now)))) }
    ensures refused { WhereTold (P.told programs.old) (λ answers.
        IfErr result (IsRefusal (set_said (command_of rustc.now) answers (target_at target.now)))) }
    ensures same { Keeps (P.told programs.old) (P.told programs.new) }
    ensures few { P.runs programs.new ≤ P.runs programs.old + 1 }
    ensures none { IsSome (get_by_text sets.old (command_text (target_at target.now)))
        → (P.runs programs.new ≡ P.runs programs.old) × IsOk result }
{
    if has_kept(sets, target) {
        return Ok(());
    }
    let set = ask(alloc, rustc, target, programs)?;
    Ok(keep(alloc, target, set, sets)?)
}

// What rustc prints for the target.
fn ask<P: Programs>(
    alloc: Global,
    rustc: &PathAndArgs,
    target: &TargetTripleRef<'_>,
    programs: &mut P,
) -> Result<CfgSet>
    ensures told { WhereTold (P.told programs.old) (λ answers. Gives atoms_of result
        (set_said (command_of rustc.now) answers (target_at target.now))) }
    ensures same { Keeps (P.told programs.old) (P.told programs.new) }
    ensures few { P.runs programs.new ≤ P.runs programs.old + 1 }
{
    let command = cfg_command(alloc, rustc, target)?;
    let text = said(alloc, programs, &command)?;
    Ok(CfgSet::read(alloc, text.as_str())?)
}

// The command for rustc, and after it the question for the target.
fn cfg_command(
    alloc: Global,
    rustc: &PathAndArgs,
    target: &TargetTripleRef<'_>,
) -> Result<PathAndArgs>
    ensures told { IfOk result (λ c.
        command_of c ≡ cfg_command (command_of rustc.now) (target_at target.now)) }
    ensures refused { IfErr result IsWantOfMemory }
{
    let mut command = rustc.try_clone(alloc)?;
    push_args(alloc, &mut command, unstable_args(target))?;
    let name = target.as_command_text();
    push_args(alloc, &mut command, &["--print", "cfg", "--target", name])?;
    Ok(command)
}

// Files that describe targets are taken with these alone.
fn unstable_args(target: &TargetTripleRef<'_>) -> &'static [&'static str]
    ensures { lent_texts result.now ≡ unstable_args (target_at target.now).spec_path }
{
    match target.spec_path() {
        Some(_) => &["-Z", "unstable-options"],
        None => &[],
    }
}

// Adds the arguments after those of the command.
fn push_args(alloc: Global, command: &mut PathAndArgs, args: &[&str]) -> Result<()>
    ensures added { OnOk result (command_of command.new
        ≡ with_args (command_of command.old) (lent_texts args.now)) }
    ensures refused { IfErr result IsWantOfMemory }
{
    let args = StringList::from_strs(alloc, args)?;
    command.push_args(args.list)?;
    Ok(())
}

/// The same sets once more.
///
/// # Errors
/// `ErrorKind::Memory` where a copy finds no memory.
pub(crate) fn copied_sets(
    alloc: Global,
    sets: &BTreeMap<String, CfgSet>,
) -> Result<BTreeMap<String, CfgSet>>
    ensures same { IfOk result (λ copies.
        (name : List ℕ) → kept_set copies name ≡ kept_set sets.now name) }
    ensures refused { IfErr result IsWantOfMemory }
{
    let mut copies = BTreeMap::new(alloc);
    for (name, set) in sets.iter() {
        let set = set.try_clone(alloc)?;
        put(&mut copies, String::from_str(alloc, name.as_str())?, set)?;
    }
    Ok(copies)
}
