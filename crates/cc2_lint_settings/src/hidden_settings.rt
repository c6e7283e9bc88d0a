//! What the variables of a machine set by themselves, as JSON.
ghost use Rattle.std.specs.Prelude.{IfOk, option_map};
ghost use Rattle.serde_json.specs.View.{view};
ghost use Rattle.cc2_de.specs.Config.{config_at};
ghost use Rattle.cc2_json.specs.Json.{IsObjectOf};
ghost use Rattle.cc2_lint_settings.specs.Settings.{IsSetJson, with_origins};

use cc2_base::machine::Machine;
use cc2_de::{Config, set_by_variables};
use cc2_error::error::NoMemory;
use cc2_findings::no_memory_wanted;
use cc2_json::{Form, Json, to_json};
use std::alloc::Global;

// What the machine's variables set by themselves, as JSON that has each value with its variable, and no token. None
// where one of them is refused. See the Cargo Reference, Configuration,
// [environment variables](https://doc.rust-lang.org/cargo/reference/config.html#environment-variables).
pub(crate) fn settings_json(alloc: Global, machine: &Machine) -> Result<Option<Json>, NoMemory>
    ensures { IfOk result (λ json. IsSetJson machine.now (option_map view json)) }
{
    match set_by_variables(alloc, machine) {
        Ok(config) => Ok(Some(told(alloc, config)?)),
        Err(error) => {
            no_memory_wanted(&error)?;
            Ok(None)
        }
    }
}

// A configuration as JSON with where each value was set, and without tokens.
fn told(alloc: Global, config: Config) -> Result<Json, NoMemory>
    ensures { IfOk result (λ json. IsObjectOf with_origins (config_at config) (view json)) }
{
    let form = Form {
        origins: true,
        tokens: false,
    };
    to_json(alloc, config, form)
}
