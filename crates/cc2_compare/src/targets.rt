//! The settings of targets by both rules, and where they differ.
ghost use Rattle.std.specs.Prelude.{◌≡◌, [], IfOk, false};
ghost use Rattle.std.specs.Result.{result_map_both};
ghost use Rattle.serde_json.specs.View.{view};
ghost use Rattle.serde_json.specs.Written.{has_float};
ghost use Rattle.cc2_error.specs.Causes.{refusal_of};
ghost use Rattle.cc2_reports.specs.Problems.{subjects_of};
ghost use Rattle.cc2_rustc.specs.Kept.{WhereBothTold};
ghost use Rattle.cc2_target_answers.specs.Worlds.{WhereRun};
ghost use Rattle.cc2_value.specs.Rows.{texts_of};
ghost use Rattle.cc2_compare.specs.TargetSettings.{AreTargetsCompared, IsOfCargo, IsOfCrate};

use crate::between::reports_between;
use crate::part::Part;
use cargo_rules::Launcher;
use cc2_base::files::Files;
use cc2_base::machine::Machine;
use cc2_base::programs::Programs;
use cc2_cargo::RealPaths;
use cc2_cargo_target::WithVariables;
use cc2_error::error::{NoMemory, Result};
use cc2_json::{Json, alone_at};
use cc2_reports::Report;
use cc2_target_answers::{cargo_targets, crate_targets};
use std::alloc::Global;

/// What is reported of the settings of these targets in a directory: where they differ, or that one alone refuses the targets.
///
/// # Errors
/// `NoMemory` where memory ran out.
pub(crate) fn target_reports<F: Files, L: RealPaths, S: Launcher>(
    alloc: Global,
    dir: &str,
    targets: &[&str],
    machine: &Machine,
    files: &F,
    reals: &L,
    launcher: &S,
) -> std::result::Result<Vec<Report>, NoMemory>
    ensures { WhereRun (F.told files.now) (L.told reals.now) (S.told_with launcher.now)
        (λ fs real_paths own. IfOk result (λ reports. AreTargetsCompared fs real_paths own
        machine.now dir.now (texts_of targets.now) (subjects_of reports.items))) }
{
    let mut programs = launcher.launch(alloc)?;
    let of_crate = crate_settings(alloc, dir, targets, machine, files, &mut programs);
    let mut programs = launcher.launch(alloc)?;
    let of_cargo = cargo_settings(alloc, dir, targets, machine, files, reals, &mut programs);
    reports_between(alloc, Part::Targets, dir, of_crate, of_cargo)
}

// What cargo-config2 0.1.45 resolves for targets, in a table `target`.
fn crate_settings<F: Files, P: Programs>(
    alloc: Global,
    dir: &str,
    targets: &[&str],
    machine: &Machine,
    files: &F,
    programs: &mut P,
) -> Result<Json>
    ensures free { IfOk result (λ json. has_float (view json) ≡ false) }
    ensures told { WhereBothTold (F.told files.now) (P.told programs.old) (λ fs answers.
        IsOfCrate fs answers machine.now dir.now (texts_of targets.now)
        (result_map_both view refusal_of result)) }
{
    let found = crate_targets(alloc, dir, targets, &[], machine, files, programs)?;
    Ok(alone_at(alloc, &["target"], found)?)
}

// What Cargo uses for them, in a table `target`.
fn cargo_settings<F: Files, L: RealPaths, P: WithVariables>(
    alloc: Global,
    dir: &str,
    targets: &[&str],
    machine: &Machine,
    files: &F,
    reals: &L,
    programs: &mut P,
) -> Result<Json>
    ensures free { IfOk result (λ json. has_float (view json) ≡ false) }
    ensures told { WhereRun (F.told files.now) (L.told reals.now) (P.told_with programs.old)
        (λ fs real_paths own. IsOfCargo fs real_paths own machine.now dir.now
        (texts_of targets.now) (result_map_both view refusal_of result)) }
{
    let found = cargo_targets(
        alloc,
        dir,
        targets,
        false,
        &[],
        machine,
        files,
        reals,
        programs,
    )?;
    Ok(alone_at(alloc, &["target"], found)?)
}
