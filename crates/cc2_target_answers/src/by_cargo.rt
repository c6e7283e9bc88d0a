//! What targets come to by the rules of Cargo 1.95 itself.
ghost use Rattle.std.specs.Prelude.{◌≡◌, false, IfOk, OnOk, map, string_bytes};
ghost use Rattle.std.specs.Result.{result_map_both};
ghost use Rattle.serde_json.specs.Data.{no_members};
ghost use Rattle.serde_json.specs.View.{members_view, view};
ghost use Rattle.serde_json.specs.Written.{has_float, members_have_float};
ghost use Rattle.cc2_base.specs.Told.{Keeps, WhereTold};
ghost use Rattle.cc2_error.specs.Causes.{refusal_of};
ghost use Rattle.cc2_error.specs.Commands.{command_of};
ghost use Rattle.cc2_target_answers.specs.CargoTargets.{AreAsked, AreCargoTargets, ArePut, AreTargets, IsCargoPut};
ghost use Rattle.cc2_target_answers.specs.Outcomes.{Comes};
ghost use Rattle.cc2_target_answers.specs.Worlds.{WhereRun};
ghost use Rattle.cargo_rules.specs.WithEnv.{IsWithEnv};

use crate::build_scripts::artifacts_of;
use crate::cargo_load::load_by_cargo;
use crate::settings::settings_json;
use cargo_config2::{PathAndArgs, Result};
use cc2_base::files::Files;
use cc2_base::machine::Machine;
use cc2_base::programs::Programs;
use cc2_cargo::RealPaths;
use cc2_cargo_settings::{Sources, env_variables};
use cc2_cargo_target::{WithVariables, rustc_command, target_by_cargo, targets_by_cargo};
use cc2_error::error::NoMemory;
use cc2_json::Json;
use serde_json::{Map, put};
use std::alloc::Global;
use std::mem::forget;

/// What Cargo itself uses for targets by the configuration of a directory under these overrides: an object of triples. If no
/// target is given, they are those of `build.target`, else the host (Cargo Reference, Configuration,
/// [`[target]`](https://doc.rust-lang.org/cargo/reference/config.html#target)). With `build_scripts` it is what build scripts
/// and procedural macros get where these targets are built: an object of the host. What was loaded is not freed.
///
/// # Errors
/// Those of `load_by_cargo`, `env_variables`, `rustc_command`, `targets_by_cargo` and `target_by_cargo`; with `build_scripts`
/// those of `host_artifacts_by_cargo` in place of the last two.
pub fn cargo_targets<F: Files, P: WithVariables, L: RealPaths>(
    alloc: Global,
    dir: &str,
    texts: &[&str],
    build_scripts: bool,
    overrides: &[&str],
    machine: &Machine,
    files: &F,
    reals: &L,
    programs: &mut P,
) -> Result<Json>
    ensures free { IfOk result (λ json. has_float (view json) ≡ false) }
    ensures told { WhereRun (F.told files.now) (L.told reals.now) (P.told_with programs.old)
        (λ fs real_paths own. AreTargets fs real_paths own machine.now dir.now
        (map (λ text. text.now) overrides.now) (map (λ text. text.now) texts.now)
        build_scripts (result_map_both view refusal_of result)) }
{
    let settings = load_by_cargo(alloc, dir, overrides, machine, files, reals)?;
    let sources = Sources {
        settings: &settings,
        machine,
    };
    let json = targets_with_env(alloc, sources, dir, texts, build_scripts, programs);
    forget(settings);
    json
}

// The same by settings, where rustc is run with the variables of `[env]`.
fn targets_with_env<P: WithVariables>(
    alloc: Global,
    sources: Sources<'_>,
    dir: &str,
    texts: &[&str],
    build_scripts: bool,
    programs: &mut P,
) -> Result<Json>
    ensures free { IfOk result (λ json. has_float (view json) ≡ false) }
    ensures told { WhereTold (P.told_with programs.old) (λ own. Comes view
        (IsWithEnv (λ answers o. AreAsked sources.entry.settings.now sources.entry.machine.now
        dir.now (map (λ text. text.now) texts.now) answers build_scripts o)
        sources.entry.settings.now sources.entry.machine.now dir.now own) result) }
{
    let variables = env_variables(alloc, sources, dir)?;
    programs.set_variables(variables);
    asked_of(alloc, sources, dir, texts, build_scripts, programs)
}

// What targets have, or build scripts in their place.
fn asked_of<P: Programs>(
    alloc: Global,
    sources: Sources<'_>,
    dir: &str,
    texts: &[&str],
    build_scripts: bool,
    programs: &mut P,
) -> Result<Json>
    ensures free { IfOk result (λ json. has_float (view json) ≡ false) }
    ensures told { WhereTold (P.told programs.old) (λ answers. Comes view
        (AreAsked sources.entry.settings.now sources.entry.machine.now dir.now
        (map (λ text. text.now) texts.now) answers build_scripts) result) }
{
    if build_scripts {
        artifacts_of(alloc, sources, dir, texts, programs)
    } else {
        targets_of(alloc, sources, dir, texts, programs)
    }
}

// What the targets that are asked for have: an object of them.
fn targets_of<P: Programs>(
    alloc: Global,
    sources: Sources<'_>,
    dir: &str,
    texts: &[&str],
    programs: &mut P,
) -> Result<Json>
    ensures free { IfOk result (λ json. has_float (view json) ≡ false) }
    ensures told { WhereTold (P.told programs.old) (λ answers. Comes view
        (AreCargoTargets sources.entry.settings.now sources.entry.machine.now dir.now
        (map (λ text. text.now) texts.now) answers) result) }
{
    let rustc = rustc_command(alloc, sources, dir)?;
    let triples = targets_by_cargo(alloc, sources, &rustc, texts, programs)?;
    let triples = lent(alloc, triples.as_slice())?;
    settings_of(alloc, sources, dir, &rustc, triples.as_slice(), programs)
}

// The same texts, lent.
fn lent<'a>(alloc: Global, texts: &'a [String]) -> std::result::Result<Vec<&'a str>, NoMemory>
    ensures { IfOk result (λ all.
        map (λ text. text.now) all.items ≡ map string_bytes texts.now) }
{
    let mut all = Vec::new(alloc);
    for text in texts {
        all.push(text.as_str())?;
    }
    Ok(all)
}

// The settings of targets, one after another: an object of the targets.
fn settings_of<P: Programs>(
    alloc: Global,
    sources: Sources<'_>,
    dir: &str,
    rustc: &PathAndArgs,
    triples: &[&str],
    programs: &mut P,
) -> Result<Json>
    ensures free { IfOk result (λ json. has_float (view json) ≡ false) }
    ensures told { WhereTold (P.told programs.old) (λ answers. Comes view
        (ArePut sources.entry.settings.now sources.entry.machine.now dir.now
        (command_of rustc.now) answers (map (λ triple. triple.now) triples.now) no_members)
        result) }
{
    let mut members = Map::new(alloc);
    for triple in triples {
        put_target(&mut members, alloc, sources, dir, rustc, *triple, programs)?;
    }
    Ok(Json::Object(members))
}

// Puts the settings of a target among the members, at its triple.
fn put_target<P: Programs>(
    members: &mut Map<String, Json>,
    alloc: Global,
    sources: Sources<'_>,
    dir: &str,
    rustc: &PathAndArgs,
    triple: &str,
    programs: &mut P,
) -> Result<()>
    ensures free { OnOk result (members_have_float (members_view members.old.entries) ≡ false
        → members_have_float (members_view members.new.entries) ≡ false) }
    ensures told { WhereTold (P.told programs.old) (λ answers.
        IsCargoPut sources.entry.settings.now sources.entry.machine.now dir.now
        (command_of rustc.now) answers triple.now (members_view members.old.entries)
        (members_view members.new.entries) result) }
    ensures same { Keeps (P.told programs.old) (P.told programs.new) }
{
    let settings = target_by_cargo(alloc, sources, dir, rustc, triple, programs)?;
    let json = settings_json(alloc, &settings)?;
    put(members, alloc, triple, json)?;
    Ok(())
}
