//! What is read from programs, how often they are run, and what is kept of that.
ghost use Rattle.std.specs.Prelude.{◌≡◌, ◌≤◌, ◌+◌, ℕ, List, Option, Some, None, is_some, IsSome, IsOk, IfOk, IfErr, OnOk, option_map};
ghost use Rattle.std.specs.BTreeMap.{get_by_text};
ghost use Rattle.std.specs.Option.{option_copied};
ghost use Rattle.cc2_base.specs.Told.{WhereTold};
ghost use Rattle.cc2_error.specs.Commands.{command_of};
ghost use Rattle.cc2_error.specs.Outcomes.{IsRefusal};
ghost use Rattle.cc2_resolved.specs.ShownTargets.{target_at};
ghost use Rattle.cc2_resolved.specs.Targets.{command_text};
ghost use Rattle.cc2_rustc.specs.Asked.{asks, asked_for};
ghost use Rattle.cc2_rustc.specs.AskedVersions.{asked_of, rustc_version_said};
ghost use Rattle.cc2_rustc.specs.ByName.{AtMostAdds};
ghost use Rattle.cc2_rustc.specs.Rustc.{is_there, rustc_command};
ghost use Rattle.cc2_rustc.specs.RustcParts.{settings_of};

use cc2_base::files::Files;
use cc2_base::programs::Programs;
use cc2_error::error::{NoMemory, Result};
use cc2_error::path_and_args::PathAndArgs;
use cc2_resolved::target_triple::TargetTripleRef;
use cc2_rustc::{Asked, Commands, Kept, Parts, Versions};
use std::alloc::Global;
use std::collections::BTreeMap;

/// `find_rustc`: rustc in both wrappers.
///
/// # Errors
/// Those of `find_rustc`.
pub fn rustc<F: Files>(
    alloc: Global,
    parts: &Parts<'_>,
    files: &F,
    kept: &mut Option<PathAndArgs>,
) -> Result<()>
    ensures { WhereTold (F.told files.now) (λ fs. kept.old ≡ None → OnOk result
        (option_map command_of kept.new
        ≡ Some (rustc_command (is_there fs) (settings_of parts.now)))) }
{
    cc2_rustc::find_rustc(alloc, parts, files, kept)
}

/// `Commands::of`: the command for versions is without the workspace wrapper.
///
/// # Errors
/// Those of `Commands::of`.
pub fn commands<F: Files>(
    alloc: Global,
    parts: &Parts<'_>,
    bootstrap: Option<&[u8]>,
    files: &F,
) -> Result<Commands>
    ensures { WhereTold (F.told files.now) (λ fs. IfOk result (λ commands.
        (host : Option (List ℕ)) → asks host commands
        ≡ asked_for fs host (settings_of parts.now) (option_copied bootstrap.entry))) }
{
    Commands::of(alloc, parts, bootstrap, files)
}

/// `find_rustc_version`: an error is that of rustc's own answer.
///
/// # Errors
/// Those of `find_rustc_version`.
pub fn rustc_version<P: Programs>(
    alloc: Global,
    asked: &Asked<'_>,
    programs: &mut P,
    kept: &mut Versions,
) -> Result<()>
    ensures { WhereTold (P.told programs.old) (λ answers.
        IfErr result (IsRefusal (rustc_version_said (asked_of asked.now) answers))) }
{
    cc2_rustc::find_rustc_version(alloc, asked, programs, kept)
}

/// `find_set`: one run for a target that is new, and none for one that is kept.
///
/// # Errors
/// Those of `find_set`.
pub fn cfg_set<F: Files, P: Programs>(
    alloc: Global,
    parts: &Parts<'_>,
    target: &TargetTripleRef<'_>,
    files: &F,
    programs: &mut P,
    kept: &mut Kept,
) -> Result<()>
    ensures few { P.runs programs.new ≤ P.runs programs.old + 1 }
    ensures none { IsSome (get_by_text kept.old.cfg_sets (command_text (target_at target.now)))
        → (P.runs programs.new ≡ P.runs programs.old) × IsOk result }
{
    cc2_rustc::find_set(alloc, parts, target, files, programs, kept)
}

/// `has_kept`: whether something is cached for what Cargo passes to rustc as this target.
pub fn is_kept<V>(kept: &BTreeMap<String, V>, target: &TargetTripleRef<'_>) -> bool
    ensures { result ≡ is_some (get_by_text kept.now (command_text (target_at target.now))) }
{
    cc2_rustc::has_kept(kept, target)
}

/// `keep`: what is kept of other targets stays.
///
/// # Errors
/// Those of `keep`.
pub fn keep<V: Drop>(
    alloc: Global,
    target: &TargetTripleRef<'_>,
    value: V,
    kept: &mut BTreeMap<String, V>,
) -> std::result::Result<(), NoMemory>
    ensures { AtMostAdds kept.old kept.new (command_text (target_at target.now)) value }
{
    cc2_rustc::keep(alloc, target, value, kept)
}
