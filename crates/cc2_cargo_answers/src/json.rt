//! Tables of raw values as JSON.
ghost use Rattle.std.specs.Prelude.{◌≡◌, false, IfOk, OnOk};
ghost use Rattle.serde_json.specs.View.{view, members_view};
ghost use Rattle.serde_json.specs.Written.{has_float};
ghost use Rattle.cc2_cargo.specs.Raw.{raw_members_at, raw_at};
ghost use Rattle.cc2_cargo_answers.specs.RawJson.{IsJson, IsJsonPut, as_table, told};

use crate::json_value::{array_json, value_json};
use crate::secret::is_secret_at;
use cc2_cargo::Raw;
use cc2_error::error::NoMemory;
use cc2_json::{Form, Json, object, shown};
use serde_json::{Map, put};
use std::alloc::{AllocError, Global};
use std::collections::BTreeMap;

/// What is at each key as JSON: an object of the keys in the order of their bytes, for each table below it another one.
/// A value at or below a key `token` or `secret-key`, also in an item of an array, isn't written, unless the form has tokens.
///
/// # Errors
/// `NoMemory` where memory ran out.
pub fn raw_to_json(
    alloc: Global,
    settings: &BTreeMap<String, Raw>,
    form: Form,
) -> Result<Json, NoMemory>
    ensures json { IfOk result (λ json.
        IsJson form false (as_table (raw_members_at settings.now)) (view json)) }
    ensures free { IfOk result (λ json. has_float (view json) ≡ false) }
{
    Ok(table_json(alloc, form, false, settings)?)
}

// A table, below a secret key or not.

#[cycle(json)]
fn table_json(
    alloc: Global,
    form: Form,
    secret: bool,
    members: &BTreeMap<String, Raw>,
) -> Result<Json, AllocError>
    ensures json { IfOk result (λ json.
        IsJson form secret (as_table (raw_members_at members.now)) (view json)) }
    ensures free { IfOk result (λ json. has_float (view json) ≡ false) }
{
    let mut map = Map::new(alloc);
    for (key, raw) in members.iter() {
        let key = key.as_str();
        put_raw(alloc, form, key, is_secret_at(secret, key), raw, &mut map)?;
    }
    Ok(object(map))
}

// Puts a value at its key, which is secret or not.
#[cycle(json)]
fn put_raw(
    alloc: Global,
    form: Form,
    key: &str,
    secret: bool,
    raw: &Raw,
    map: &mut Map<String, Json>,
) -> Result<(), AllocError>
    ensures { OnOk result (IsJsonPut form key.now secret (raw_at raw.now)
        (members_view map.old.entries) (members_view map.new.entries)) }
{
    match raw {
        Raw::Table(members) => {
            let json = table_json(alloc, form, secret, members)?;
            put(map, alloc, key, json)
        }
        Raw::Array(array) => {
            let items = array_json(alloc, form, array.items.as_slice())?;
            let json = told(alloc, form, secret, items)?;
            put(map, alloc, key, json)
        }
        Raw::Single(value) => {
            let json = told(alloc, form, secret, value_json(alloc, form, value)?)?;
            put(map, alloc, key, json)
        }
    }
}

// What is written of a value that is a secret or not.
fn told(alloc: Global, form: Form, secret: bool, value: Json) -> Result<Json, AllocError>
    ensures { IfOk result (λ json. view json ≡ told form secret (view value)) }
{
    if secret {
        shown(alloc, form, "token", value)
    } else {
        Ok(value)
    }
}
