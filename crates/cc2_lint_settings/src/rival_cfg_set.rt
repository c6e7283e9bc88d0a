//! What rustc prints for a target, by the configuration of a directory.
ghost use Rattle.std.specs.Prelude.{◌⊎◌, IfErr, IfOk, option_map};
ghost use Rattle.cc2_base.specs.Told.{Keeps};
ghost use Rattle.cc2_rustc.specs.Printed.{atoms_of};
ghost use Rattle.cc2_error.specs.Causes.{refusal_of};
ghost use Rattle.cc2_error.specs.Outcomes.{Gives, IsWantOfMemory};
ghost use Rattle.cc2_resolved.specs.ShownTargets.{target_at};
ghost use Rattle.cc2_rustc.specs.CfgSets.{set_said};
ghost use Rattle.cc2_rustc.specs.Kept.{WhereBothTold};
ghost use Rattle.cargo_config2.specs.Kept.{Agrees};
ghost use Rattle.cargo_config2.specs.RustcKept.{rustc_command_of};
ghost use Rattle.cc2_lint_settings.specs.Asked.{IsSetOf, IsUntold};

use cargo_config2::{Config, Result, TargetTripleRef};
use cc2_base::files::Files;
use cc2_base::machine::Machine;
use cc2_base::programs::Programs;
use cc2_findings::no_memory_wanted;
use cc2_rustc::CfgSet;
use std::alloc::Global;

/// What rustc prints for a target, by the command of the directory's configuration; none where the load of that is
/// refused.
///
/// # Errors
/// `ErrorKind::NotRun`, `ProgramFailed` and `OutputNotText` by rustc's answer; `Memory` where memory ran out.
pub(crate) fn cfg_set<F: Files, P: Programs>(
    alloc: Global,
    dir: &str,
    target: &TargetTripleRef<'_>,
    machine: &Machine,
    files: &F,
    programs: &mut P,
) -> Result<Option<CfgSet>>
    ensures ok { WhereBothTold (F.told files.now) (P.told programs.old)
        (λ fs answers. IfOk result (λ set.
        IsSetOf fs answers machine.now dir.now (target_at target.now) (option_map atoms_of set))) }
    ensures refused { WhereBothTold (F.told files.now) (P.told programs.old)
        (λ fs answers. IfErr result (λ e.
        IsWantOfMemory e ⊎ IsUntold fs answers machine.now dir.now (target_at target.now)
        (refusal_of e))) }
    ensures same { Keeps (P.told programs.old) (P.told programs.new) }
{
    match Config::load_with_cwd(alloc, dir, machine, files) {
        Ok(mut config) => {
            let set = set_by(alloc, &mut config, target, files, programs);
            drop(config);
            Ok(Some(set?))
        }
        Err(error) => {
            no_memory_wanted(&error)?;
            Ok(None)
        }
    }
}

// The same by a configuration.
fn set_by<F: Files, P: Programs>(
    alloc: Global,
    config: &mut Config,
    target: &TargetTripleRef<'_>,
    files: &F,
    programs: &mut P,
) -> Result<CfgSet>
    ensures answer { WhereBothTold (F.told files.now) (P.told programs.old) (λ fs answers.
        Agrees fs answers config.old
        → Gives atoms_of result (set_said (rustc_command_of fs config.old) answers
        (target_at target.now))) }
    ensures same { Keeps (P.told programs.old) (P.told programs.new) }
{
    config.find_cfg_set(alloc, target, files, programs)?;
    match config.known_cfg_set(target) {
        Some(set) => Ok(set.try_clone(alloc)?),
        None => unreachable!(),
    }
}
