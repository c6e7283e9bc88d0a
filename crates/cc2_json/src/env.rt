//! Values of the table `env` as JSON.
ghost use Rattle.std.specs.Prelude.{Some, IfOk};
ghost use Rattle.cc2_leaf.specs.Env.{env_fields};
ghost use Rattle.cc2_value.specs.Shown.{entry_at};
ghost use Rattle.cc2_json.specs.Json.{IsJsonOf};

use crate::Json;
use crate::form::Form;
use crate::into_json::{IntoJson, JsonMember, object};
use crate::leaf::text_json;
use crate::row::JsonRow;
use cc2_leaf::{EnvConfigValue, One, Pair, Three, Value};
use serde_json::Map;
use std::alloc::{AllocError, Global};

/// A text, or a table.
impl IntoJson for EnvConfigValue {
    fn into_json(self, alloc: Global, form: Form) -> Result<Option<Json>, AllocError> {
        match self {
            EnvConfigValue::Value(text) => Ok(Some(text_json(alloc, form, &text)?)),
            EnvConfigValue::Table {
                value,
                force,
                relative,
            } => table_json(alloc, form, value, force, relative),
        }
    }
}

impl JsonMember for EnvConfigValue {
    ghost use Rattle.cc2_json.specs.CellLaws.{env_own};

    ghost own = { env_own };
}

fn table_json(
    alloc: Global,
    form: Form,
    value: Value<String>,
    force: Option<Value<bool>>,
    relative: Option<Value<bool>>,
) -> Result<Option<Json>, AllocError>
    ensures { IfOk result (IsJsonOf form (entry_at env_fields
        (record { value = Some value; force = force; relative = relative }))) }
{
    let mut members = Map::new(alloc);
    let row: Three<_, _, _> = Pair {
        front: Pair {
            front: One { part: Some(value) },
            back: One { part: force },
        },
        back: One { part: relative },
    };
    row.put_into(alloc, form, &["value", "force", "relative"], &mut members)?;
    Ok(Some(object(members)))
}
