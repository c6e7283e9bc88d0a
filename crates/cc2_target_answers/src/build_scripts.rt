//! What build scripts and procedural macros get by the rules of Cargo 1.95 itself.
ghost use Rattle.std.specs.Prelude.{◌≡◌, false, true, IfOk, map};
ghost use Rattle.serde_json.specs.View.{view};
ghost use Rattle.serde_json.specs.Written.{has_float};
ghost use Rattle.cc2_base.specs.Told.{WhereTold};
ghost use Rattle.cc2_cargo_target.specs.HostArtifacts.{artifacts_view};
ghost use Rattle.cc2_target_answers.specs.CargoTargets.{AreAsked, artifacts_object};
ghost use Rattle.cc2_target_answers.specs.Outcomes.{Comes};

use crate::settings::settings_json;
use cargo_config2::Result;
use cc2_base::programs::Programs;
use cc2_cargo_settings::Sources;
use cc2_cargo_target::{HostArtifacts, host_artifacts_by_cargo, rustc_command};
use cc2_error::error::NoMemory;
use cc2_json::Json;
use serde_json::{Map, put};
use std::alloc::Global;

/// The linker and the flags of build scripts and procedural macros where the targets of these texts are built, as JSON: an object
/// of the host (Cargo Reference, Configuration,
/// [`build.rustflags`](https://doc.rust-lang.org/cargo/reference/config.html#buildrustflags)).
///
/// # Errors
/// Those of `rustc_command` and of `host_artifacts_by_cargo`.
pub(crate) fn artifacts_of<P: Programs>(
    alloc: Global,
    sources: Sources<'_>,
    dir: &str,
    texts: &[&str],
    programs: &mut P,
) -> Result<Json>
    ensures free { IfOk result (λ json. has_float (view json) ≡ false) }
    ensures told { WhereTold (P.told programs.old) (λ answers. Comes view
        (AreAsked sources.entry.settings.now sources.entry.machine.now dir.now
        (map (λ text. text.now) texts.now) answers true) result) }
{
    let rustc = rustc_command(alloc, sources, dir)?;
    let artifacts = host_artifacts_by_cargo(alloc, sources, dir, &rustc, texts, programs)?;
    Ok(artifacts_json(alloc, &artifacts)?)
}

// An object of the host with their settings.
fn artifacts_json(alloc: Global, artifacts: &HostArtifacts) -> std::result::Result<Json, NoMemory>
    ensures free { IfOk result (λ json. has_float (view json) ≡ false) }
    ensures json { IfOk result (λ json.
        view json ≡ artifacts_object (artifacts_view artifacts.now)) }
{
    let mut members = Map::new(alloc);
    let json = settings_json(alloc, &artifacts.settings)?;
    put(&mut members, alloc, artifacts.host.as_str(), json)?;
    Ok(Json::Object(members))
}
