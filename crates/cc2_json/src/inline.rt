//! Values as TOML writes them on one line: arrays and inline tables within each other.
ghost use Rattle.std.specs.Prelude.{◌≡◌, ◌++◌, OnOk, codes, false};
ghost use Rattle.serde_json.specs.View.{items_view, members_view, view};
ghost use Rattle.serde_json.specs.Written.{has_float, items_have_float, members_have_float};
ghost use Rattle.toml_writer.specs.Text.{key_text};
ghost use Rattle.cc2_json.specs.TomlLines as spec;

use crate::Json;
use crate::toml_text::{Key, Text};
use cc2_error::error::NoMemory;
use serde_json::Map;
use std::alloc::Global;

/// Appends a value on one line.
#[cycle(inline)]
pub(crate) fn push_value(alloc: Global, out: &mut Vec<u8>, value: &Json) -> Result<(), NoMemory>
    ensures { OnOk result (has_float (view value.now) ≡ false
        → out.new.items ≡ out.old.items ++ spec.value_text (view value.now)) }
{
    match value {
        Json::Array(items) => push_array(alloc, out, items.as_slice()),
        Json::Object(members) => push_table(alloc, out, members),
        _ => push_single(alloc, out, value),
    }
}

// Appends an array.
#[cycle(inline)]
fn push_array(alloc: Global, out: &mut Vec<u8>, items: &[Json]) -> Result<(), NoMemory>
    ensures { OnOk result (items_have_float (items_view items.now) ≡ false → out.new.items
        ≡ out.old.items ++ (codes "[" ++ spec.with_commas (codes "") (items_view items.now))) }
{
    push(out, "[")?;
    let mut separator = "";
    for item in items {
        push(out, separator)?;
        push_value(alloc, out, item)?;
        separator = ", ";
    }
    push(out, "]")
}

// Appends an inline table.
#[cycle(inline)]
fn push_table(alloc: Global, out: &mut Vec<u8>, members: &Map<String, Json>) -> Result<(), NoMemory>
    ensures { OnOk result (members_have_float (members_view members.now.entries) ≡ false
        → out.new.items ≡ out.old.items ++ (codes "{"
        ++ spec.pairs (codes " ") (codes "}") (members_view members.now.entries))) }
{
    push(out, "{")?;
    let mut separator = " ";
    let mut end = "}";
    for (name, value) in members.iter() {
        push(out, separator)?;
        push_key(alloc, out, name.as_str())?;
        push_value(alloc, out, value)?;
        separator = ", ";
        end = " }";
    }
    push(out, end)
}

// Appends a key, and the equals sign after it.
#[inline(never)]
fn push_key(alloc: Global, out: &mut Vec<u8>, key: &str) -> Result<(), NoMemory>
    ensures { OnOk result (out.new.items
        ≡ out.old.items ++ (key_text key.now ++ codes " = ")) }
{
    let key = Key(key);
    let shown = format!(in alloc; "{key} = ")?;
    push(out, shown.as_str())
}

// Appends a text, a number or a truth value.
#[inline(never)]
fn push_single(alloc: Global, out: &mut Vec<u8>, value: &Json) -> Result<(), NoMemory>
    ensures { OnOk result (has_float (view value.now) ≡ false
        → out.new.items ≡ out.old.items ++ spec.single_text (view value.now)) }
{
    let shown = match value {
        Json::String(text) => {
            let text = Text(text.as_str());
            format!(in alloc; "{text}")?
        }
        _ => value.to_string(alloc)?,
    };
    push(out, shown.as_str())
}

/// Appends a text.
pub(crate) fn push(out: &mut Vec<u8>, text: &str) -> Result<(), NoMemory>
    ensures { OnOk result (out.new.items ≡ out.old.items ++ text.now) }
{
    Ok(out.extend_from_slice(text.as_bytes())?)
}
