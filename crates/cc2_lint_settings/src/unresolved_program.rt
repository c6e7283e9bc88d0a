//! Whether a target's linker or runner can be resolved.
ghost use Rattle.std.specs.Prelude.{◌∷◌, [], IfOk, map, string_bytes};
ghost use Rattle.cc2_value.specs.Shown.{map_at};
ghost use Rattle.cc2_de.specs.Config.{config_at};
ghost use Rattle.cc2_target_table.specs.Target.{target_at};
ghost use Rattle.cc2_lint_settings.specs.Programs.{IsProgramRefusal, program_at, program_below, program_under};

use crate::unresolved::refused;
use cc2_de::{Config, Nested, TargetConfig};
use cc2_error::error::{Error, NoMemory};
use cc2_target::programs::{linker_of, runner_of};
use std::alloc::Global;
use std::collections::BTreeMap;

// Why the program to which these keys of a configuration lead is refused, if it is.
pub(crate) fn program_refusal(
    alloc: Global,
    directory: &str,
    keys: &[String],
    config: &Config,
) -> Result<Option<Error>, NoMemory>
    ensures { IfOk result (IsProgramRefusal directory.now
        (program_at (map string_bytes keys.now) (config_at config.now))) }
{
    match keys {
        [key, path @ ..] if key.as_str() == "target" => {
            refusal_under(alloc, directory, path, &config.target)
        }
        _ => Ok(None),
    }
}

// The same of keys that lead from the tables of targets.
fn refusal_under(
    alloc: Global,
    directory: &str,
    keys: &[String],
    tables: &BTreeMap<String, TargetConfig>,
) -> Result<Option<Error>, NoMemory>
    ensures { IfOk result (IsProgramRefusal directory.now
        (program_under (map string_bytes keys.now) (map_at target_at tables.now))) }
{
    match keys {
        [] => Ok(None),
        [target, path @ ..] => match tables.get(target.as_str()) {
            Some(table) => refusal_below(alloc, directory, path, table),
            None => Ok(None),
        },
    }
}

// The same of keys that lead from one of these tables.
fn refusal_below(
    alloc: Global,
    directory: &str,
    keys: &[String],
    table: &TargetConfig,
) -> Result<Option<Error>, NoMemory>
    ensures { IfOk result (IsProgramRefusal directory.now
        (program_below (map string_bytes keys.now) (target_at table.now))) }
{
    match keys {
        [] => Ok(None),
        [key, path @ ..] => refusal_behind(alloc, directory, key, path, table),
    }
}

// The same of a key and those after it.
fn refusal_behind(
    alloc: Global,
    directory: &str,
    key: &String,
    path: &[String],
    table: &TargetConfig,
) -> Result<Option<Error>, NoMemory>
    ensures { IfOk result (IsProgramRefusal directory.now
        (program_below (string_bytes key.now ∷ map string_bytes path.now) (target_at table.now))) }
{
    match path {
        [] => refusal_at(alloc, directory, key.as_str(), table),
        [next, rest @ ..] => match table.nested(key.as_str()) {
            Some(Nested::Table(inner)) => refusal_behind(alloc, directory, next, rest, inner),
            Some(Nested::Undecoded) => Ok(None),
            None => Ok(None),
        },
    }
}

// The same of a key of one.
fn refusal_at(
    alloc: Global,
    directory: &str,
    key: &str,
    table: &TargetConfig,
) -> Result<Option<Error>, NoMemory>
    ensures { IfOk result (IsProgramRefusal directory.now (program_below (key.now
        ∷ []) (target_at table.now))) }
{
    match key {
        "linker" => refused(linker_of(alloc, directory, table.linker.as_ref())),
        "runner" => refused(runner_of(alloc, directory, table.runner.as_ref())),
        _ => Ok(None),
    }
}
