//! The settings of a target: found by what is loaded and by what rustc prints for it, and kept.
ghost use Rattle.std.specs.Prelude.{◌≡◌, ◌≤◌, ◌+◌, ℕ, List, map, IfErr, IsSome, OnOk};
ghost use Rattle.std.specs.BTreeMap.{get_by_text};
ghost use Rattle.cc2_base.specs.Told.{Keeps};
ghost use Rattle.cc2_error.specs.Causes.{Refusal, refusal_of};
ghost use Rattle.cc2_error.specs.Outcomes.{Answered, IsWantOfMemory};
ghost use Rattle.cc2_rustc.specs.Asking.{entries_by_text, shown_asking, AreAsking, SomeKeyAsks};
ghost use Rattle.cc2_resolved.specs.ShownTargets.{target_at};
ghost use Rattle.cc2_resolved.specs.Targets.{command_text};
ghost use Rattle.cc2_target_table.specs.declared.target.TargetConfig.{TargetConfig as Table};
ghost use Rattle.cc2_target.specs.Asked.{AreTrue, IsAnswer, IsCause};
ghost use Rattle.cc2_target.specs.Given.{given_in};
ghost use Rattle.cc2_resolved.specs.TargetConfigs.{shown};
ghost use Rattle.cc2_rustc.specs.CfgSets.{set_said};
ghost use Rattle.cc2_rustc.specs.Kept.{WhereBothTold};
ghost use Rattle.cc2_rustc.specs.Lists.{AgreesOnLists, KeepsLists};
ghost use Rattle.cc2_rustc.specs.Rustc.{is_there, rustc_command};
ghost use Rattle.cc2_rustc.specs.RustcParts.{settings_of};

use cc2_base::files::Files;
use cc2_base::programs::Programs;
use cc2_error::error::Result;
use cc2_resolved::target_config::TargetConfig;
use cc2_resolved::target_triple::TargetTripleRef;
use cc2_rustc::{Asking, Kept, Parts, asking_keys, asks, find_set, true_values};
use cc2_target::given::Given;
use cc2_target::triple::judge_triple;
use cc2_target::variables::TargetVariables;
use std::alloc::Global;

/// The settings of the target, by what is given and what rustc prints for it. All keys are judged and
/// all four variables read in every case. Rustc is asked where some key asks what it prints and that
/// isn't kept; it is kept then.
///
/// # Errors
/// - `ErrorKind::NotTriple` where the triple begins with `cfg(`;
/// - `ErrorKind::CfgParse` where some key that begins with `cfg(` isn't blank and has no tree;
/// - `ErrorKind::EnvNotText` where one of the target's variables isn't UTF-8, and `EmptyCommand` where
///   the runner's is blank;
/// - where some key asks, `ErrorKind::NotRun`, `ProgramFailed` and `OutputNotText` by rustc's answer;
/// - `ErrorKind::NoRoot` where the chosen linker or runner must be joined to a root and its file has
///   none;
/// - `ErrorKind::Memory` where memory ran out.
///
/// What was found before a refusal stays.
pub(crate) fn settings<F: Files, P: Programs>(
    alloc: Global,
    given: &Given<'_>,
    parts: &Parts<'_>,
    target: &TargetTripleRef<'_>,
    files: &F,
    programs: &mut P,
    kept: &mut Kept,
) -> Result<TargetConfig>
    ensures agrees { WhereBothTold (F.told files.now) (P.told programs.old) (λ fs answers.
        AgreesOnLists (rustc_command (is_there fs) (settings_of parts.now)) answers kept.old
        → AgreesOnLists (rustc_command (is_there fs) (settings_of parts.now)) answers kept.new) }
    ensures keeps { KeepsLists kept.old kept.new }
    ensures answer { WhereBothTold (F.told files.now) (P.told programs.old) (λ fs answers.
        AgreesOnLists (rustc_command (is_there fs) (settings_of parts.now)) answers kept.old
        → (let said = set_said (rustc_command (is_there fs) (settings_of parts.now)) answers
        (target_at target.now) in
        Answered shown result (IsAnswer (given_in given.now) (target_at target.now).triple said)
        (IsCause (given_in given.now) (target_at target.now).triple said))) }
    ensures used { OnOk result (SomeKeyAsks (entries_by_text given.now.tables.now)
        → IsSome (get_by_text kept.new.cfg_sets (command_text (target_at target.now)))) }
    ensures same { Keeps (P.told programs.old) (P.told programs.new) }
    ensures few { P.runs programs.new ≤ P.runs programs.old + 1 }
    ensures none_unasked { ¬ (SomeKeyAsks (entries_by_text given.now.tables.now))
        → P.runs programs.new ≡ P.runs programs.old }
    ensures none_listed { IsSome
        (get_by_text kept.old.cfg_sets (command_text (target_at target.now)))
        → P.runs programs.new ≡ P.runs programs.old }
{
    judge_triple(alloc, target.triple())?;
    let asking = asking_keys(alloc, given.tables)?;
    let variables = TargetVariables::read(alloc, given.context, target.triple())?;
    let trues = true_tables(
        alloc,
        asking.as_slice(),
        parts,
        target,
        files,
        programs,
        kept,
    )?;
    Ok(given.settings(alloc, target.triple(), &variables, trues.as_slice())?)
}

// The tables at the keys that are true for the target. Rustc is asked where some key asks what it
// prints and that isn't kept.
fn true_tables<'a, F: Files, P: Programs>(
    alloc: Global,
    asking: &[Asking<'a, cc2_de::TargetConfig>],
    parts: &Parts<'_>,
    target: &TargetTripleRef<'_>,
    files: &F,
    programs: &mut P,
    kept: &mut Kept,
) -> Result<Vec<&'a cc2_de::TargetConfig>>
    ensures agrees { WhereBothTold (F.told files.now) (P.told programs.old) (λ fs answers.
        AgreesOnLists (rustc_command (is_there fs) (settings_of parts.now)) answers kept.old
        → AgreesOnLists (rustc_command (is_there fs) (settings_of parts.now)) answers kept.new) }
    ensures keeps { KeepsLists kept.old kept.new }
    ensures told { WhereBothTold (F.told files.now) (P.told programs.old) (λ fs answers.
        AgreesOnLists (rustc_command (is_there fs) (settings_of parts.now)) answers kept.old
        → (entries : List (List ℕ × Table)) → AreAsking entries (map shown_asking asking.now)
        → (let said = set_said (rustc_command (is_there fs) (settings_of parts.now)) answers
        (target_at target.now) in
        Answered (λ trues. map (λ t. t.now) trues.items) result (AreTrue entries said)
        (λ refusal. SomeKeyAsks entries × (said ≡ Err refusal)))) }
    ensures used { (entries : List (List ℕ × Table))
        → AreAsking entries (map shown_asking asking.now)
        → OnOk result (SomeKeyAsks entries
        → IsSome (get_by_text kept.new.cfg_sets (command_text (target_at target.now)))) }
    ensures same { Keeps (P.told programs.old) (P.told programs.new) }
    ensures few { P.runs programs.new ≤ P.runs programs.old + 1 }
    ensures none_unasked { (entries : List (List ℕ × Table))
        → AreAsking entries (map shown_asking asking.now)
        → ¬ (SomeKeyAsks entries) → P.runs programs.new ≡ P.runs programs.old }
    ensures none_listed { IsSome
        (get_by_text kept.old.cfg_sets (command_text (target_at target.now)))
        → P.runs programs.new ≡ P.runs programs.old }
{
    if !asks(asking) {
        return Ok(Vec::new(alloc));
    }
    find_set(alloc, parts, target, files, programs, kept)?;
    match kept.cfg_sets.get(target.as_command_text()) {
        Some(set) => Ok(true_values(alloc, asking, set)?),
        None => unreachable!(),
    }
}
