//! What targets come to by the rules of cargo-config2 0.1.45.
ghost use Rattle.std.specs.Prelude.{◌≡◌, false, IfOk, OnOk, map, ok_or, string_bytes};
ghost use Rattle.std.specs.Result.{result_map_both};
ghost use Rattle.serde_json.specs.View.{members_view, view};
ghost use Rattle.serde_json.specs.Written.{has_float, members_have_float};
ghost use Rattle.cc2_answers.specs.Left.{IsAsked, IsReady};
ghost use Rattle.cc2_cli.specs.Choices.{choices_of};
ghost use Rattle.cc2_error.specs.Causes.{plain, refusal_of, spec_name};
ghost use Rattle.cc2_error.specs.Outcomes.{Gives};
ghost use Rattle.cc2_resolved.specs.ShownTargets.{target_at};
ghost use Rattle.cc2_rustc.specs.Kept.{WhereBothTold};
ghost use Rattle.cc2_target_answers.specs.CrateTargets.{AreCrateTargets, AreSettings, IsPut, IsTargetsOutcome, all_targets};
ghost use Rattle.cc2_target_answers.specs.Outcomes.{Comes};
ghost use Rattle.cargo_config2.specs.Kept.{given_of};
ghost use Rattle.cargo_config2.specs.RustcKept.{rustc_command_of};

use crate::settings::settings_json;
use cargo_config2::{Config, Result, TargetTriple, TargetTripleRef};
use cc2_answers::load_chosen;
use cc2_base::files::Files;
use cc2_base::machine::Machine;
use cc2_base::programs::Programs;
use cc2_json::Json;
use serde_json::{Map, put};
use std::alloc::Global;
use std::mem::forget;

/// The settings of targets by the configuration of a directory under the overrides of these choices: an object of triples. If
/// no target is given, they are those of `build.target`, else the host. What was loaded is not freed.
///
/// # Errors
/// Those of `load_chosen`, of `Config::build_target_for_config` and of `Config::target`; `ErrorKind::SpecName` where a text
/// isn't a target.
pub fn crate_targets<F: Files, P: Programs>(
    alloc: Global,
    dir: &str,
    texts: &[&str],
    choices: &[String],
    machine: &Machine,
    files: &F,
    programs: &mut P,
) -> Result<Json>
    ensures free { IfOk result (λ json. has_float (view json) ≡ false) }
    ensures told { WhereBothTold (F.told files.now) (P.told programs.old) (λ fs answers.
        AreCrateTargets fs answers machine.now dir.now (choices_of (map string_bytes choices.now))
        (map (λ text. text.now) texts.now) (result_map_both view refusal_of result)) }
{
    let mut config = load_chosen(alloc, dir, choices, machine, files)?;
    let found = settings_of_all(alloc, &mut config, texts, files, programs);
    forget(config);
    found
}

// The settings for the targets of these texts, or for those of the configuration: an object of the targets.
fn settings_of_all<F: Files, P: Programs>(
    alloc: Global,
    config: &mut Config,
    texts: &[&str],
    files: &F,
    programs: &mut P,
) -> Result<Json>
    ensures free { IfOk result (λ json. has_float (view json) ≡ false) }
    ensures told { WhereBothTold (F.told files.now) (P.told programs.old) (λ fs answers.
        IsReady fs answers config.old
        → Comes view (IsTargetsOutcome fs answers config.old (map (λ text. text.now) texts.now))
        result) }
{
    let given = given_targets(alloc, texts)?;
    let targets = config.build_target_for_config(alloc, given.as_slice(), files, programs)?;
    settings_of(alloc, config, targets.as_slice(), files, programs)
}

// The targets of texts.
fn given_targets<'a>(alloc: Global, texts: &[&'a str]) -> Result<Vec<TargetTripleRef<'a>>>
    ensures { Gives (λ targets. map target_at targets.items) result
        (ok_or (all_targets (map (λ text. text.now) texts.now)) (plain spec_name)) }
{
    let mut given = Vec::new(alloc);
    let mut rest = texts;
    while let [text, behind @ ..] = rest {
        given.push(TargetTripleRef::new(*text)?)?;
        rest = behind;
    }
    Ok(given)
}

// The settings for targets, in turn by one configuration: an object of the targets.
fn settings_of<F: Files, P: Programs>(
    alloc: Global,
    config: &mut Config,
    targets: &[TargetTriple],
    files: &F,
    programs: &mut P,
) -> Result<Json>
    ensures free { IfOk result (λ json. has_float (view json) ≡ false) }
    ensures told { WhereBothTold (F.told files.now) (P.told programs.old) (λ fs answers.
        IsReady fs answers config.old
        → Comes view (AreSettings (given_of config.old) (rustc_command_of fs config.old) answers
        (Ok (map target_at targets.now))) result) }
{
    let mut members = Map::new(alloc);
    let mut rest = targets;
    while let [target, behind @ ..] = rest {
        put_target(&mut members, alloc, config, target, files, programs)?;
        rest = behind;
    }
    Ok(Json::Object(members))
}

// Puts the settings for a target among the members, at its triple.
fn put_target<F: Files, P: Programs>(
    members: &mut Map<String, Json>,
    alloc: Global,
    config: &mut Config,
    target: &TargetTriple,
    files: &F,
    programs: &mut P,
) -> Result<()>
    ensures free { OnOk result (members_have_float (members_view members.old.entries) ≡ false
        → members_have_float (members_view members.new.entries) ≡ false) }
    ensures asked { IsAsked (F.told files.now) (P.told programs.old) (P.told programs.new)
        config.old config.new
        (λ fs answers. IsPut (given_of config.old) (rustc_command_of fs config.old) answers
        (target_at target.now) (members_view members.old.entries)
        (members_view members.new.entries) result) }
{
    let settings = config.target(alloc, target, files, programs)?;
    let json = settings_json(alloc, &settings)?;
    put(members, alloc, target.triple(), json)?;
    Ok(())
}
