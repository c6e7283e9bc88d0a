//! Options of a command that exclude each other.
ghost use Rattle.std.specs.Prelude.{◌≡◌, ◌⊎◌, None, Some, map, IfErr, OnOk};
ghost use Rattle.cc2_command_line.specs.Commands as spec;
ghost use Rattle.cc2_command_line.specs.CommandViews.{get_view, targets_view};
ghost use Rattle.cc2_command_line.specs.FaultViews.{fault_view};
ghost use Rattle.cc2_command_line.specs.Parts.{part_view};
ghost use Rattle.cc2_command_line.specs.declared.fault.Fault.TheVariants.{Memory};

use crate::choice::{Rules, Stage, ValueFormat};
use crate::command::{Get, Targets};
use crate::fault::Fault;
use crate::option::Setting;
use crate::part::Part;
use crate::selected::values;
use std::alloc::Global;

/// Nothing, where the options of `get` don't exclude each other: what isn't merged has no JSON and isn't resolved, and
/// what is resolved has no origins.
///
/// # Errors
/// `Fault::Conflict` with the two options.
pub(crate) fn expect_agreement(get: &Get<'_>) -> Result<(), Fault<'static>>
    ensures ok { OnOk result (spec.disagreement (get_view get.now) ≡ None) }
    ensures wrong { IfErr result (λ fault.
        spec.disagreement (get_view get.now) ≡ Some (fault_view fault)) }
{
    if !get.merged && !matches!(get.format, ValueFormat::Toml) {
        return Err(Fault::Conflict("--merged no", "--format json"));
    }
    if !get.merged && matches!(get.stage, Stage::Resolved) {
        return Err(Fault::Conflict("--merged no", "--resolved"));
    }
    if get.origins && matches!(get.stage, Stage::Resolved) {
        return Err(Fault::Conflict("--show-origin", "--resolved"));
    }
    Ok(())
}

/// Nothing, where the rules of `get` are the crate's, or those of Cargo for what is merged and isn't resolved.
///
/// # Errors
/// `Fault::Conflict` with the two options.
pub(crate) fn expect_rules(get: &Get<'_>) -> Result<(), Fault<'static>>
    ensures ok { OnOk result (spec.misfit_of_rules (get_view get.now) ≡ None) }
    ensures wrong { IfErr result (λ fault.
        spec.misfit_of_rules (get_view get.now) ≡ Some (fault_view fault)) }
{
    let by_cargo = matches!(get.rules, Rules::Cargo);
    if by_cargo && matches!(get.stage, Stage::Resolved) {
        return Err(Fault::Conflict("--rules cargo", "--resolved"));
    }
    if by_cargo && !get.merged {
        return Err(Fault::Conflict("--rules cargo", "--merged no"));
    }
    Ok(())
}

/// Nothing, where no override is given for the files alone.
///
/// # Errors
/// `Fault::Conflict` with the two options, and `Fault::Memory` where memory ran out.
pub(crate) fn expect_files_alone<'a>(
    alloc: Global,
    get: &Get<'a>,
    parts: &[Part<'a>],
) -> Result<(), Fault<'a>>
    ensures ok { OnOk result
        (spec.override_of_files (get_view get.now) (map part_view parts.now) ≡ None) }
    ensures wrong { IfErr result (λ fault. (fault ≡ Memory)
        ⊎ (spec.override_of_files (get_view get.now) (map part_view parts.now)
        ≡ Some (fault_view fault))) }
{
    if !matches!(get.stage, Stage::Files) {
        return Ok(());
    }
    match values(alloc, parts, Setting::Config)?.as_slice() {
        [] => Ok(()),
        _ => Err(Fault::Conflict("--files", "--config")),
    }
}

/// Nothing, where the settings of build scripts are asked for by Cargo's rules, or not at all.
///
/// # Errors
/// `Fault::Conflict` with the two options.
pub(crate) fn expect_rules_of_cargo(targets: &Targets<'_>) -> Result<(), Fault<'static>>
    ensures ok { OnOk result (spec.misfit_of_targets (targets_view targets.now) ≡ None) }
    ensures wrong { IfErr result (λ fault.
        spec.misfit_of_targets (targets_view targets.now) ≡ Some (fault_view fault)) }
{
    if targets.build_scripts && matches!(targets.rules, Rules::Crate) {
        return Err(Fault::Conflict("--build-scripts", "--rules crate"));
    }
    Ok(())
}
