//! Single values and arrays as JSON.
ghost use Rattle.std.specs.Prelude.{◌≡◌, ◌&&◌, IfOk, map};
ghost use Rattle.serde_json.specs.Data.{array, object};
ghost use Rattle.serde_json.specs.View.{view, items_of, items_view};
ghost use Rattle.toml.specs.View.{view as toml_view, items_view as toml_items, table_view};
ghost use Rattle.cc2_cargo.specs.Raw.{raw_value};
ghost use Rattle.cc2_cargo_answers.specs.RawJson.{is_secret_key, items_json, members_json, or_redacted, setting_json, toml_json};

use crate::secret::is_secret_key;
use cc2_json::{Form, Json, object, placed};
use cc2_value::Value;
use serde_json::{Map, put};
use std::alloc::{AllocError, Global};

/// A value, beside where it was set in a form with origins.
pub(crate) fn value_json(
    alloc: Global,
    form: Form,
    value: &Value<toml::Value>,
) -> Result<Json, AllocError>
    ensures { IfOk result (λ json. view json ≡ setting_json form (raw_value value.now)) }
{
    let json = toml_json(alloc, !form.tokens, &value.val)?;
    placed(alloc, form, &value.definition, json)
}

/// An array, each item beside where it was set in a form with origins.
pub(crate) fn array_json(
    alloc: Global,
    form: Form,
    values: &[Value<toml::Value>],
) -> Result<Json, AllocError>
    ensures { IfOk result (λ json. view json
        ≡ array (items_of (map (setting_json form) (map raw_value values.now)))) }
{
    Ok(Json::Array(values_json(alloc, form, values)?))
}

fn values_json(
    alloc: Global,
    form: Form,
    values: &[Value<toml::Value>],
) -> Result<Vec<Json>, AllocError>
    ensures { IfOk result (λ list. map view list.items
        ≡ map (setting_json form) (map raw_value values.now)) }
{
    let mut list = Vec::new(alloc);
    for value in values {
        list.push(value_json(alloc, form, value)?)?;
    }
    Ok(list)
}

// A TOML value as JSON, in which secrets may be hidden.
#[cycle(toml)]
fn toml_json(alloc: Global, hides: bool, value: &toml::Value) -> Result<Json, AllocError>
    ensures { IfOk result (λ json. view json ≡ toml_json hides (toml_view value.now)) }
{
    match value {
        toml::Value::String(text) => Json::try_from_str(alloc, text.as_str()),
        toml::Value::Integer(number) => Ok(Json::from(*number)),
        toml::Value::Boolean(truth) => Ok(Json::from(*truth)),
        toml::Value::Array(items) => Ok(Json::Array(items_json(alloc, hides, items.as_slice())?)),
        toml::Value::Table(table) => members_json(alloc, hides, table),
        toml::Value::Float(_) => Ok(Json::Null),
        toml::Value::Datetime(_) => Ok(Json::Null),
    }
}

#[cycle(toml)]
fn items_json(alloc: Global, hides: bool, items: &[toml::Value]) -> Result<Vec<Json>, AllocError>
    ensures { IfOk result (λ list.
        items_view list.items ≡ items_json hides (toml_items items.now)) }
{
    let mut list = Vec::new(alloc);
    for item in items {
        list.push(toml_json(alloc, hides, item)?)?;
    }
    Ok(list)
}

#[cycle(toml)]
fn members_json(alloc: Global, hides: bool, table: &toml::Table) -> Result<Json, AllocError>
    ensures { IfOk result (λ json.
        view json ≡ object (members_json hides (table_view table.now))) }
{
    let mut map = Map::new(alloc);
    for (key, value) in table.iter() {
        let key = key.as_str();
        put(&mut map, alloc, key, member_json(alloc, hides, key, value)?)?;
    }
    Ok(object(map))
}

// What is written at a key of such a table.
#[cycle(toml)]
fn member_json(
    alloc: Global,
    hides: bool,
    key: &str,
    value: &toml::Value,
) -> Result<Json, AllocError>
    ensures { IfOk result (λ json. view json ≡ or_redacted (hides && is_secret_key key.now)
        (toml_json hides (toml_view value.now))) }
{
    if hides && is_secret_key(key) {
        Json::try_from_str(alloc, "[REDACTED]")
    } else {
        toml_json(alloc, hides, value)
    }
}
