//! Where a value was set, as JSON.
ghost use Rattle.std.specs.Prelude.{◌≡◌, IfOk, option_map};
ghost use Rattle.serde_json.specs.View.{view};
ghost use Rattle.cc2_value.specs.Values.{origin_of};
ghost use Rattle.cc2_json.specs.Forms.{origin_data, placed};

use crate::Json;
use crate::form::Form;
use cc2_leaf::Definition;
use serde_json::json;
use std::alloc::{AllocError, Global};

// `null`, or an object with the file, the variable or the command line.
fn origin_json(alloc: Global, definition: &Option<Definition>) -> Result<Json, AllocError>
    ensures { IfOk result (λ json. view json ≡ origin_data (option_map origin_of definition.now)) }
{
    match definition {
        None => Ok(Json::Null),
        Some(Definition::Path(path)) => json!(in alloc; {"file": path.as_str()}),
        Some(Definition::Environment(name)) => json!(in alloc; {"variable": name.as_str()}),
        Some(Definition::Cli(Some(path))) => json!(in alloc; {"command-line": path.as_str()}),
        Some(Definition::Cli(None)) => json!(in alloc; {"command-line": null}),
    }
}

/// A value, beside where it was set in a form with origins.
///
/// # Errors
/// `AllocError` where memory ran out.
pub fn placed(
    alloc: Global,
    form: Form,
    definition: &Option<Definition>,
    value: Json,
) -> Result<Json, AllocError>
    ensures { IfOk result (λ json.
        view json ≡ placed form.origins (option_map origin_of definition.now) (view value)) }
{
    if !form.origins {
        return Ok(value);
    }
    let origin = origin_json(alloc, definition)?;
    json!(in alloc; {"origin": origin, "value": value})
}
