//! The texts of an array, without where each was set.
ghost use Rattle.std.specs.Prelude.{◌≡◌, IfOk, map, option_map, string_bytes};
ghost use Rattle.cc2_cargo.specs.Raw.{raw_members_at, raw_value};
ghost use Rattle.cc2_cargo_settings.specs.Cells.{plain_texts_at, plain_texts, texts_view};
ghost use Rattle.cc2_cargo_settings.specs.Found.{lookup_at};

use crate::found::{Found, find};
use cc2_cargo::Raw;
use cc2_error::error::NoMemory;
use cc2_value::Value;
use std::alloc::Global;
use std::collections::BTreeMap;

/// The texts of the array at a path, and no texts where nothing is there. None where something else is there, or an item is no
/// text.
///
/// # Errors
/// `NoMemory` where memory ran out.
pub fn array_texts(
    alloc: Global,
    settings: &BTreeMap<String, Raw>,
    path: &[&str],
) -> Result<Option<Vec<String>>, NoMemory>
    ensures { IfOk result (λ texts. option_map texts_view texts
        ≡ plain_texts_at (lookup_at (raw_members_at settings.now) (map (λ k. k.now) path.now))) }
{
    match find(settings, path) {
        Found::At(raw) => match raw {
            Raw::Array(array) => plain_texts(alloc, array.items.as_slice()),
            Raw::Single(_) => Ok(None),
            Raw::Table(_) => Ok(None),
        },
        Found::Nowhere => Ok(Some(Vec::new(alloc))),
        Found::Blocked => Ok(None),
    }
}

// The texts of values, where each is one.
fn plain_texts(
    alloc: Global,
    values: &[Value<toml::Value>],
) -> Result<Option<Vec<String>>, NoMemory>
    ensures { IfOk result (λ texts. option_map texts_view texts
        ≡ plain_texts (map raw_value values.now)) }
{
    let mut texts = Vec::new(alloc);
    for value in values {
        match &value.val {
            toml::Value::String(text) => texts.push(text.clone()?)?,
            _ => return Ok(None),
        }
    }
    Ok(Some(texts))
}
