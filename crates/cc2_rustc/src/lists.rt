//! What rustc prints for a target, under the command for rustc: both are found once and kept.
ghost use Rattle.std.specs.Prelude.{◌≡◌, ◌≤◌, ◌+◌, IfErr, IsOk, IsSome, OnOk};
ghost use Rattle.std.specs.BTreeMap.{get_by_text};
ghost use Rattle.cc2_base.specs.Told.{Keeps};
ghost use Rattle.cc2_error.specs.Outcomes.{IsRefusal};
ghost use Rattle.cc2_resolved.specs.ShownTargets.{target_at};
ghost use Rattle.cc2_resolved.specs.Targets.{command_text};
ghost use Rattle.cc2_rustc.specs.CfgSets.{set_said};
ghost use Rattle.cc2_rustc.specs.Kept.{WhereBothTold};
ghost use Rattle.cc2_rustc.specs.Lists.{AgreesOnLists, KeepsLists};
ghost use Rattle.cc2_rustc.specs.Rustc.{is_there, rustc_command};
ghost use Rattle.cc2_rustc.specs.RustcParts.{settings_of};

use crate::by_target::has_kept;
use crate::cfg_sets::find_cfg_set;
use crate::kept::Kept;
use crate::rustc::{Parts, find_rustc};
use cc2_base::files::Files;
use cc2_base::programs::Programs;
use cc2_error::error::Result;
use cc2_resolved::target_triple::TargetTripleRef;
use std::alloc::Global;
use std::collections::BTreeMap;
use std::mem::replace;

/// Finds what rustc prints for the target, and keeps it, with the command for rustc (rustc's book,
/// Print options,
/// [`--print cfg`](https://doc.rust-lang.org/rustc/command-line-arguments/print-options.html#cfg)).
/// What is kept stays, and then neither a file nor rustc is asked.
///
/// # Errors
/// `ErrorKind::NotRun`, `ProgramFailed` and `OutputNotText` by rustc's answer, and `ErrorKind::Memory`
/// where memory ran out. What was found before a refusal stays.
pub fn find_set<F: Files, P: Programs>(
    alloc: Global,
    parts: &Parts<'_>,
    target: &TargetTripleRef<'_>,
    files: &F,
    programs: &mut P,
    kept: &mut Kept,
) -> Result<()>
    ensures agrees { WhereBothTold (F.told files.now) (P.told programs.old) (λ fs answers.
        AgreesOnLists (rustc_command (is_there fs) (settings_of parts.now)) answers kept.old
        → AgreesOnLists (rustc_command (is_there fs) (settings_of parts.now)) answers kept.new) }
    ensures keeps { KeepsLists kept.old kept.new }
    ensures found { OnOk result
        (IsSome (get_by_text kept.new.cfg_sets (command_text (target_at target.now)))) }
    ensures refused { WhereBothTold (F.told files.now) (P.told programs.old) (λ fs answers.
        AgreesOnLists (rustc_command (is_there fs) (settings_of parts.now)) answers kept.old
        → IfErr result (IsRefusal (set_said (rustc_command (is_there fs) (settings_of parts.now))
        answers (target_at target.now)))) }
    ensures same { Keeps (P.told programs.old) (P.told programs.new) }
    ensures few { P.runs programs.new ≤ P.runs programs.old + 1 }
    ensures none { IsSome (get_by_text kept.old.cfg_sets (command_text (target_at target.now)))
        → (P.runs programs.new ≡ P.runs programs.old) × IsOk result }
{
    if has_kept(&kept.cfg_sets, target) {
        return Ok(());
    }
    find_rustc(alloc, parts, files, &mut kept.rustc)?;
    let mut sets = replace(&mut kept.cfg_sets, BTreeMap::new(alloc));
    let found = match &kept.rustc {
        Some(rustc) => find_cfg_set(alloc, rustc, target, programs, &mut sets),
        None => unreachable!(),
    };
    kept.cfg_sets = sets;
    found
}
