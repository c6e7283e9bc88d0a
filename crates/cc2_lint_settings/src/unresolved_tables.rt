//! Whether a configuration can be resolved.
ghost use Rattle.std.specs.Prelude.{◌≡◌, IfOk, map, string_bytes};
ghost use Rattle.cc2_de.specs.Config.{config_at};
ghost use Rattle.cc2_lint_settings.specs.Resolving.{IsRefusalAt, IsTablesRefusal};

use crate::unresolved::refused;
use crate::unresolved_program::program_refusal;
use cargo_config2::{Config, Configured, Machine, ResolveContext, ResolveOptions};
use cc2_error::error::{Error, NoMemory};
use std::alloc::Global;

/// Why resolution refuses a configuration in a directory, or the program of a target to which these keys lead, if it does.
///
/// # Errors
/// `NoMemory` where memory ran out.
pub(crate) fn refusal_at(
    alloc: Global,
    directory: &str,
    keys: &[String],
    config: cc2_de::Config,
) -> Result<Option<Error>, NoMemory>
    ensures { IfOk result (IsRefusalAt directory.now (map string_bytes keys.now)
        (config_at config)) }
{
    match program_refusal(alloc, directory, keys, &config)? {
        Some(error) => Ok(Some(error)),
        None => tables_refusal(alloc, directory, config),
    }
}

// Why resolution refuses the tables of a configuration but those of targets, if it does.
fn tables_refusal(
    alloc: Global,
    directory: &str,
    config: cc2_de::Config,
) -> Result<Option<Error>, NoMemory>
    ensures { IfOk result (IsTablesRefusal directory.now (config_at config)) }
{
    let context = context_in(alloc, directory)?;
    refused(Config::resolve(alloc, Configured { config, context }))
}

// What resolution looks at in a directory, beside the configuration: nothing of a machine.
fn context_in(alloc: Global, directory: &str) -> Result<ResolveContext, NoMemory>
    ensures { IfOk result (λ context. string_bytes context.current_dir ≡ directory.now) }
{
    let machine = Machine {
        current_dir: String::new(alloc),
        env: Vec::new(alloc),
        home: None,
    };
    let place = String::from_str(alloc, directory)?;
    match ResolveOptions::default().into_context(alloc, place, &machine) {
        Ok(context) => Ok(context),
        Err(_) => Err(NoMemory),
    }
}
