//! What single calls of the library promise, each said once more by a function that hands the call on.
ghost use Rattle.std.specs.Prelude.{◌≡◌, IfOk, OnOk, map, option_map, Some};
ghost use Rattle.cargo_config2.specs.Answers.{text_answer};
ghost use Rattle.cargo_config2.specs.BuildTarget.{targets_for_config, targets_shown};
ghost use Rattle.cargo_config2.specs.CfgSets.{set_said, values_said};
ghost use Rattle.cargo_config2.specs.Kept.{Agrees, asked_by};
ghost use Rattle.cargo_config2.specs.KeptOfRustc.{WhereBothTold};
ghost use Rattle.cargo_config2.specs.Loads.{IsConfig, IsConfigCause};
ghost use Rattle.cargo_config2.specs.Outcomes.{Answered, Gives};
ghost use Rattle.cargo_config2.specs.RustcKept.{rustc_command_of};
ghost use Rattle.cargo_config2.specs.ShownTargets.{target_at};
ghost use Rattle.cargo_config2.specs.TargetQueries.{kept_of};
ghost use Rattle.cargo_config2.specs.Told.{WhereTold};
ghost use Rattle.cargo_config2.specs.VersionsAsked.{host_said};

use cargo_config2::cfg::Cfg;
use cargo_config2::{
    Config, Files, Machine, Programs, ResolveOptions, Result, TargetTriple, TargetTripleRef,
};
use std::alloc::Global;

/// `Config::load_with_options`: what the options choose counts.
///
/// # Errors
/// Those of `Config::load_with_options`.
pub fn loaded<F: Files>(
    alloc: Global,
    cwd: &str,
    options: ResolveOptions,
    machine: &Machine,
    files: &F,
) -> Result<Config>
    ensures { WhereTold (F.told files.now) (λ fs.
        Answered (λ c. c) result (IsConfig fs machine.now cwd.now options)
        (IsConfigCause fs machine.now cwd.now options)) }
{
    Config::load_with_options(alloc, cwd, options, machine, files)
}

/// `Config::cfg`: what rustc prints counts, and the default only where it prints nothing.
///
/// # Errors
/// Those of `Config::cfg`.
pub fn cfg_of<C: Cfg, F: Files, P: Programs>(
    alloc: Global,
    config: &mut Config,
    target: &TargetTripleRef<'_>,
    files: &F,
    programs: &mut P,
) -> Result<C::Output>
    ensures { WhereBothTold (F.told files.now) (P.told programs.old) (λ fs answers.
        Agrees fs answers config.old → WhereTold C.told (λ reading. Gives C.shown result
        (values_said C.named C.MAX reading
        (set_said (rustc_command_of fs config.old) answers (target_at target.now))))) }
{
    config.cfg::<C, F, P>(alloc, target, files, programs)
}

/// `Config::build_target_for_config`: an empty list is no list.
///
/// # Errors
/// Those of `Config::build_target_for_config`.
pub fn build_targets_of<F: Files, P: Programs>(
    alloc: Global,
    config: &mut Config,
    given: &[TargetTripleRef<'_>],
    files: &F,
    programs: &mut P,
) -> Result<Vec<TargetTriple>>
    ensures { WhereBothTold (F.told files.now) (P.told programs.old) (λ fs answers.
        Agrees fs answers config.old → Gives (λ targets. map target_at targets.items) result
        (targets_for_config (map target_at given.now) (targets_shown config.old.build.target)
        (host_said (asked_by fs config.old) answers))) }
{
    config.build_target_for_config(alloc, given, files, programs)
}

/// `Config::linker`: what it answers is kept.
///
/// # Errors
/// Those of `Config::linker`.
pub fn linker_of<F: Files, P: Programs>(
    alloc: Global,
    config: &mut Config,
    target: &TargetTripleRef<'_>,
    files: &F,
    programs: &mut P,
) -> Result<Option<String>>
    ensures { IfOk result (λ answer.
        option_map (λ a. a.linker) (kept_of config.new (target_at target.now))
        ≡ Some (option_map text_answer answer)) }
{
    config.linker(alloc, target, files, programs)
}
