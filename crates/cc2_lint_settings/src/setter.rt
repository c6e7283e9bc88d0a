//! Which variable sets what a file has at a path of keys, by the JSON of what variables set.
ghost use Rattle.std.specs.Prelude.{◌≡◌, map, option_map, string_bytes, IfOk};
ghost use Rattle.serde_json.specs.View.{view, items_view};
ghost use Rattle.cc2_lint_settings.specs.Setters.{all_set, is_browser, setter_at, setter_of, setter_of_items, variable_of};

use cc2_error::error::NoMemory;
use cc2_json::{Json, at_key};
use std::alloc::Global;

// The variable that sets what a file has at a path of keys.
pub(crate) fn setter_at<'a>(
    alloc: Global,
    path: &[String],
    json: &'a Json,
) -> Result<Option<&'a str>, NoMemory>
    ensures { IfOk result (λ found. option_map (λ name. name.now) found
        ≡ setter_at (map string_bytes path.now) (view json.now)) }
{
    if is_browser(path) {
        return Ok(None);
    }
    let pieces = pieces(alloc, path)?;
    match at_key(json, pieces.as_slice(), true) {
        Some(found) => Ok(setter_of(found)),
        None => Ok(None),
    }
}

// Whether these keys lead to the browser: what a file has there takes precedence over the variable.
fn is_browser(path: &[String]) -> bool
    ensures { result ≡ is_browser (map string_bytes path.now) }
{
    match path {
        [table, key] => table.as_str() == "doc" && key.as_str() == "browser",
        _ => false,
    }
}

// The keys of a path as texts.
fn pieces(alloc: Global, path: &[String]) -> Result<Vec<&str>, NoMemory>
    ensures { IfOk result (λ pieces. map (λ p. p.now) pieces.items ≡ map string_bytes path.now) }
{
    let mut pieces = Vec::new(alloc);
    for key in path {
        pieces.push(key.as_str())?;
    }
    Ok(pieces)
}

// The variable that set a value which is written with where it was set. Of a list it is that of the first item, where
// variables set all of its items. None where something else set the value, and where it is a table.
fn setter_of(json: &Json) -> Option<&str>
    ensures { option_map (λ name. name.now) result ≡ setter_of (view json.now) }
{
    match json.as_array() {
        Some(items) => setter_of_items(items.as_slice()),
        None => variable_of(json),
    }
}

// The variable that set the first of these items, where variables set all of them.
fn setter_of_items(items: &[Json]) -> Option<&str>
    ensures { option_map (λ name. name.now) result ≡ setter_of_items (items_view items.now) }
{
    match items {
        [first, others @ ..] if all_set(others) => variable_of(first),
        _ => None,
    }
}

// Whether variables set all of these items.
fn all_set(items: &[Json]) -> bool
    ensures { result ≡ all_set (items_view items.now) }
{
    for item in items {
        if variable_of(item).is_none() {
            return false;
        }
    }
    true
}

// The variable that set a single value.
fn variable_of(json: &Json) -> Option<&str>
    ensures { option_map (λ name. name.now) result ≡ variable_of (view json.now) }
{
    json.get("origin")?.get("variable")?.as_str()
}
