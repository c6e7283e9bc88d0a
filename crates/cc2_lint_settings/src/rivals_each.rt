//! The rivals in each of several files.
ghost use Rattle.std.specs.Prelude.{◌≡◌, ◌⊎◌, IfErr, IfOk, map};
ghost use Rattle.cc2_error.specs.Causes.{refusal_of};
ghost use Rattle.cc2_base.specs.Told.{Keeps};
ghost use Rattle.cc2_error.specs.Outcomes.{IsWantOfMemory};
ghost use Rattle.cc2_resolved.specs.ShownTargets.{target_at};
ghost use Rattle.cc2_rustc.specs.Kept.{WhereBothTold};
ghost use Rattle.cc2_value.specs.Rows.{texts_of};
ghost use Rattle.cc2_lint_settings.specs.Asked.{AreRivals, IsUntold};
ghost use Rattle.cc2_lint_settings.specs.Rivals.{rivals_of};
ghost use Rattle.cc2_lint_settings.specs.Views.{rival_views, table_of};

use crate::givers::open_givers;
use crate::held::held;
use crate::rival::{Rival, rivals_of};
use crate::rival_cfg_set::cfg_set;
use crate::rival_setting::Setting;
use cargo_config2::{Result, TargetTripleRef};
use cc2_base::files::Files;
use cc2_base::machine::Machine;
use cc2_base::programs::Programs;
use cc2_error::error::NoMemory;
use cc2_findings::LintedFile;
use std::alloc::Global;

/// Of each of the files of a directory in turn, the linkers and the runners at keys `cfg(..)` of `[target]` that hold for a
/// target beside another key which gives one too. Cargo refuses to build for the target then; this library takes the
/// first of the keys in byte order. See the Cargo Reference, Configuration,
/// [`target.<cfg>.linker`](https://doc.rust-lang.org/cargo/reference/config.html#targetcfglinker).
///
/// There is none where the triple has a linker itself, and so with a runner: by its variable, or in a file. Cargo cuts a
/// triple at its dots, so `[target.thumbv8m.main-none-eabi]` is its table, and the same in quotes isn't. Rustc is asked only
/// where two different keys give one of the two, and the triple doesn't. There is none where the load of the directory's
/// configuration is refused.
///
/// # Errors
/// `ErrorKind::NotRun`, `ProgramFailed` and `OutputNotText` by rustc's answer; `Memory` where memory ran out.
pub fn rivals_in_each<F: Files, P: Programs>(
    alloc: Global,
    dir: &str,
    target: &TargetTripleRef<'_>,
    machine: &Machine,
    linted: &[LintedFile],
    files: &F,
    programs: &mut P,
) -> Result<Vec<Vec<Rival>>>
    ensures ok { WhereBothTold (F.told files.now) (P.told programs.old)
        (λ fs answers. IfOk result (λ found.
        AreRivals fs answers machine.now dir.now (target_at target.now) (map table_of linted.now)
        (rival_views found))) }
    ensures refused { WhereBothTold (F.told files.now) (P.told programs.old)
        (λ fs answers. IfErr result (λ e.
        IsWantOfMemory e ⊎ IsUntold fs answers machine.now dir.now (target_at target.now)
        (refusal_of e))) }
    ensures same { Keeps (P.told programs.old) (P.told programs.new) }
{
    let linkers = open_givers(alloc, Setting::Linker, target.triple(), machine, linted)?;
    let runners = open_givers(alloc, Setting::Runner, target.triple(), machine, linted)?;
    if linkers.is_empty() && runners.is_empty() {
        return Ok(in_each(alloc, &[], &[], linted)?);
    }
    match cfg_set(alloc, dir, target, machine, files, programs)? {
        Some(set) => {
            let linkers = held(alloc, linkers, &set)?;
            let runners = held(alloc, runners, &set)?;
            Ok(in_each(alloc, linkers.as_slice(), runners.as_slice(), linted)?)
        }
        None => Ok(in_each(alloc, &[], &[], linted)?),
    }
}

// Those in each of these files, by the keys that hold and give a linker, and a runner.
fn in_each(
    alloc: Global,
    linkers: &[&str],
    runners: &[&str],
    linted: &[LintedFile],
) -> std::result::Result<Vec<Vec<Rival>>, NoMemory>
    ensures { IfOk result (λ found. rival_views found
        ≡ map (rivals_of (texts_of linkers.now) (texts_of runners.now)) (map table_of linted.now)) }
{
    let mut all = Vec::new(alloc);
    for file in linted {
        all.push(rivals_of(alloc, linkers, runners, &file.found.table)?)?;
    }
    Ok(all)
}
