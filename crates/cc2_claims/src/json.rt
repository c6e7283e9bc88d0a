//! A configuration as JSON.
ghost use Rattle.std.specs.Prelude.{IfOk};
ghost use Rattle.serde_json.specs.View.{view};
ghost use Rattle.cc2_de.specs.Config.{config_at};
ghost use Rattle.cc2_json.specs.Reader.{IsJsonOfLook};

use cc2_de::Config;
use cc2_error::error::NoMemory;
use cc2_json::{Form, Json, to_json};
use std::alloc::Global;

/// `to_json`: each value and each table that the configuration shows, and nothing else.
///
/// # Errors
/// Those of `to_json`.
pub fn json_of(alloc: Global, config: Config, form: Form) -> Result<Json, NoMemory>
    ensures { IfOk result (λ json. IsJsonOfLook form (config_at config) (view json)) }
{
    to_json(alloc, config, form)
}
