//! The two configurations of a directory as JSON.
ghost use Rattle.std.specs.Prelude.{◌≡◌, ◌⊎◌, [], IfErr, IfOk, false};
ghost use Rattle.serde_json.specs.View.{view};
ghost use Rattle.serde_json.specs.Written.{has_float};
ghost use Rattle.cc2_error.specs.Causes.{refusal_of};
ghost use Rattle.cc2_error.specs.Outcomes.{Answered, IsWantOfMemory};
ghost use Rattle.cc2_answers.specs.Environments.{IsBuiltCause};
ghost use Rattle.cc2_base.specs.Told.{WhereTold};
ghost use Rattle.cc2_compare.specs.Maps.{IsCargoJson, IsCargoRefusal, IsCrateJson};

use cc2_answers::load_built;
use cc2_base::files::Files;
use cc2_base::machine::Machine;
use cc2_cargo::RealPaths;
use cc2_cargo_answers::{Layers, raw_to_json, settings_of};
use cc2_error::error::Result;
use cc2_json::{Form, Json, to_json};
use std::alloc::Global;

// Values alone, tokens among them: a token may differ too.
const FORM: Form = Form {
    origins: false,
    tokens: true,
};

/// What cargo-config2 0.1.45 has in a directory: its files under the environment variables.
///
/// # Errors
/// Those of `load_built`.
pub(crate) fn crate_json<F: Files>(
    alloc: Global,
    dir: &str,
    machine: &Machine,
    files: &F,
) -> Result<Json>
    ensures told { WhereTold (F.told files.now) (λ fs.
        Answered view result (IsCrateJson fs machine.now dir.now)
        (IsBuiltCause fs machine.now dir.now [])) }
    ensures free { IfOk result (λ json. has_float (view json) ≡ false) }
{
    let configured = load_built(alloc, dir, &[], machine, files)?;
    Ok(to_json(alloc, configured.config, FORM)?)
}

/// What Cargo has in a directory: its files, with those that they include, under the environment variables.
///
/// # Errors
/// Those of `settings_of`.
pub(crate) fn cargo_json<F: Files, L: RealPaths>(
    alloc: Global,
    dir: &str,
    machine: &Machine,
    files: &F,
    reals: &L,
) -> Result<Json>
    ensures ok { WhereTold (F.told files.now) (λ fs. WhereTold (L.told reals.now) (λ real_paths.
        IfOk result (λ json. IsCargoJson fs real_paths machine.now dir.now (view json)))) }
    ensures refused { WhereTold (F.told files.now) (λ fs.
        WhereTold (L.told reals.now) (λ real_paths. IfErr result (λ e. IsWantOfMemory e
        ⊎ IsCargoRefusal fs real_paths machine.now dir.now (refusal_of e)))) }
    ensures free { IfOk result (λ json. has_float (view json) ≡ false) }
{
    let settings = settings_of(alloc, dir, Layers::All(&[]), &[], machine, files, reals)?;
    Ok(raw_to_json(alloc, &settings, FORM)?)
}
