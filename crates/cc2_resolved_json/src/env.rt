//! Variables of the table `env`, as JSON.
ghost use Rattle.std.specs.Prelude.{◌≡◌, None};

use crate::form::without_origins;
use crate::to_json::{PlainMember, ToJson};
use cc2_json::{IntoJson, Json};
use cc2_leaf::Value;
use cc2_resolved::env::EnvConfigValue;
use std::alloc::{AllocError, Global};

/// A table of the variable's value and its marks.
impl ToJson for EnvConfigValue {
    ghost use Rattle.cc2_resolved.specs.Env.{variable_shown};

    ghost shown = { variable_shown };

    ghost member = { variable_shown };

    fn to_json(&self, alloc: Global, tokens: bool) -> Result<Option<Json>, AllocError> {
        let value = String::from_str(alloc, self.value.as_str())?;
        let variable = cc2_leaf::EnvConfigValue::Table {
            value: bare(value),
            force: Some(bare(self.force)),
            relative: Some(bare(self.relative)),
        };
        variable.into_json(alloc, without_origins(tokens))
    }
}

impl PlainMember for EnvConfigValue {
    ghost use Rattle.std.specs.Prelude.{refl};

    ghost own = { λ v. refl };
}

// A value that is set nowhere.
fn bare<T>(val: T) -> Value<T>
    ensures value { result.val ≡ val }
    ensures nowhere { result.definition ≡ None }
{
    Value {
        val,
        definition: None,
    }
}
