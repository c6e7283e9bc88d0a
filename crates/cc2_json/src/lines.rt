//! A configuration's JSON as lines of TOML: one for each value, with its dotted key.
ghost use Rattle.std.specs.Prelude.{◌≡◌, ◌≤◌, ◌∷◌, ◌++◌, IfOk, OnOk, codes, false, length, map};
ghost use Rattle.std.specs.Prelude.{option_map, string_bytes};
ghost use Rattle.serde_json.specs.Find.{as_object};
ghost use Rattle.serde_json.specs.View.{items_view, members_view, view};
ghost use Rattle.serde_json.specs.Written.{has_float, items_have_float};
ghost use Rattle.cc2_json.specs.TomlLines as spec;
ghost use Rattle.cc2_json.specs.TomlLines.{members_in};
ghost use Rattle.cc2_json.specs.TomlPlaces.{Free, IsWalked, below_of, place_view, places_of};

use crate::Json;
use crate::inline::{push, push_value};
use crate::keyed::is_leaf;
use crate::toml_text::Key;
use cc2_error::error::NoMemory;
use serde_json::Map;
use std::alloc::Global;

// Where a walk is: the dotted key, and what is there.
#[derive(Drop)]
struct Place<'a> {
    key: String,
    json: &'a Json,
}

/// The lines of TOML of what is at these pieces of a key: one for each value, in the order of the keys' bytes. Where
/// the JSON says where a value was set, a comment after the value does, and a list takes a line for each item.
///
/// # Errors
/// `NoMemory` where memory ran out.
pub fn toml_lines(
    alloc: Global,
    pieces: &[&str],
    json: &Json,
    origins: bool,
) -> Result<Vec<u8>, NoMemory>
    ensures { IfOk result (λ lines. has_float (view json.now) ≡ false
        → lines.items ≡ spec.toml_lines origins (map (λ p. p.now) pieces.now) (view json.now)) }
{
    let mut lines = Vec::new(alloc);
    let mut left = Vec::new(alloc);
    let key = dotted(alloc, pieces)?;
    left.push(Place { key, json })?;
    'places: while let Some(place) = left.pop() {
        walk(alloc, &mut lines, &mut left, place, origins)?;
    }
    Ok(lines)
}

// Goes on from a place: to what is below a table, or after the lines of a value.
#[tactic(auto, using(crate::proofs::TomlPlaces::table_walked, crate::proofs::TomlPlaces::value_walked))]
fn walk<'a>(
    alloc: Global,
    lines: &mut Vec<u8>,
    left: &mut Vec<Place<'a>>,
    place: Place<'a>,
    origins: bool,
) -> Result<(), NoMemory>
    ensures { OnOk result (IsWalked origins (place_view place.entry) (places_of left.old.items)
        lines.old.items (places_of left.new.items) lines.new.items) }
{
    match table_in(place.json, origins) {
        Some(members) => {
            let mut below = places_below(alloc, place.key.as_str(), members)?;
            below.reverse();
            Ok(left.append(&mut below)?)
        }
        None => push_line(alloc, lines, place.key.as_str(), place.json, origins),
    }
}

// The members of a table; none of a value.
fn table_in(json: &Json, origins: bool) -> Option<&Map<String, Json>>
    ensures { option_map (λ m. members_view m.now.entries) result
        ≡ members_in origins (view json.now) }
{
    if is_leaf(json, origins) {
        None
    } else {
        json.as_object()
    }
}

// What is directly below a key, each with its dotted key.
fn places_below<'a>(
    alloc: Global,
    key: &str,
    members: &'a Map<String, Json>,
) -> Result<Vec<Place<'a>>, NoMemory>
    ensures { IfOk result (λ places. map place_view places.items
        ≡ below_of key.now (members_view members.now.entries)) }
{
    let mut below = Vec::new(alloc);
    for (name, json) in members.iter() {
        let key = key_below(alloc, key, name.as_str())?;
        below.push(Place { key, json })?;
    }
    Ok(below)
}

// The dotted key of these pieces.
fn dotted(alloc: Global, pieces: &[&str]) -> Result<String, NoMemory>
    ensures { IfOk result (λ key.
        string_bytes key ≡ spec.dotted_from (codes "") (map (λ p. p.now) pieces.now)) }
{
    let mut key = String::new(alloc);
    for piece in pieces {
        key = key_below(alloc, key.as_str(), *piece)?;
    }
    Ok(key)
}

// The dotted key of what is at a name below a key.
fn key_below(alloc: Global, key: &str, name: &str) -> Result<String, NoMemory>
    ensures { IfOk result (λ below. string_bytes below ≡ spec.key_below key.now name.now) }
{
    let name = Key(name);
    if key.is_empty() {
        Ok(format!(in alloc; "{name}")?)
    } else {
        Ok(format!(in alloc; "{key}.{name}")?)
    }
}

// Appends the line of a value, or its lines.
fn push_line(
    alloc: Global,
    out: &mut Vec<u8>,
    key: &str,
    json: &Json,
    origins: bool,
) -> Result<(), NoMemory>
    ensures { OnOk result (has_float (view json.now) ≡ false
        → out.new.items ≡ out.old.items ++ spec.toml_line origins key.now (view json.now)) }
{
    push(out, key)?;
    push(out, " = ")?;
    push_shown(alloc, out, json, origins)?;
    push(out, "\n")
}

// Appends what follows the equals sign.
fn push_shown(alloc: Global, out: &mut Vec<u8>, json: &Json, origins: bool) -> Result<(), NoMemory>
    ensures { OnOk result (has_float (view json.now) ≡ false
        → out.new.items ≡ out.old.items ++ spec.shown_value origins (view json.now)) }
{
    match json {
        Json::Object(_) => push_leaf(alloc, out, json.get("value"), json.get("origin")),
        Json::Array(items) if origins => push_own(alloc, out, items.as_slice()),
        _ => push_value(alloc, out, json),
    }
}

// Appends a value that is written with where it was set.
fn push_leaf(
    alloc: Global,
    out: &mut Vec<u8>,
    value: Option<&Json>,
    origin: Option<&Json>,
) -> Result<(), NoMemory>
    ensures { OnOk result (Free (option_map (λ d. view d.now) value.entry)
        → out.new.items ≡ out.old.items
        ++ spec.leaf_text
        (option_map (λ d. view d.now) value.entry) (option_map (λ d. view d.now) origin.entry)) }
{
    match value {
        Some(Json::Array(items)) => {
            push(out, "[\n")?;
            push_items(alloc, out, items.as_slice(), origin)?;
            push(out, "]")
        }
        Some(value) => {
            push_value(alloc, out, value)?;
            push_comment(out, origin)
        }
        None => {
            push(out, "\"[REDACTED]\"")?;
            push_comment(out, origin)
        }
    }
}

// Appends the lines of items that were set at one place.
fn push_items(
    alloc: Global,
    out: &mut Vec<u8>,
    items: &[Json],
    origin: Option<&Json>,
) -> Result<(), NoMemory>
    ensures { OnOk result (items_have_float (items_view items.now) ≡ false → out.new.items
        ≡ out.old.items ++ spec.listed_lines (option_map (λ d. view d.now) origin.entry)
        (items_view items.now)) }
{
    for item in items {
        push_item(alloc, out, item, origin)?;
    }
    Ok(())
}

// Appends a list whose items are written with where they were set.
fn push_own(alloc: Global, out: &mut Vec<u8>, items: &[Json]) -> Result<(), NoMemory>
    ensures { OnOk result (items_have_float (items_view items.now) ≡ false → out.new.items
        ≡ out.old.items ++ (codes "[\n" ++ (spec.own_lines (items_view items.now) ++ codes "]"))) }
{
    push(out, "[\n")?;
    for item in items {
        push_own_item(alloc, out, item.get("value"), item.get("origin"))?;
    }
    push(out, "]")
}

// Appends the line of an item beside where it was set; nothing of one without a value.
fn push_own_item(
    alloc: Global,
    out: &mut Vec<u8>,
    value: Option<&Json>,
    origin: Option<&Json>,
) -> Result<(), NoMemory>
    ensures { OnOk result (Free (option_map (λ d. view d.now) value.entry) → out.new.items
        ≡ out.old.items ++ spec.own_item_line
        (option_map (λ d. view d.now) value.entry) (option_map (λ d. view d.now) origin.entry)) }
{
    match value {
        Some(value) => push_item(alloc, out, value, origin),
        None => Ok(()),
    }
}

// Appends the line of an item.
fn push_item(
    alloc: Global,
    out: &mut Vec<u8>,
    value: &Json,
    origin: Option<&Json>,
) -> Result<(), NoMemory>
    ensures { OnOk result (has_float (view value.now) ≡ false → out.new.items
        ≡ out.old.items ++ spec.item_line (view value.now)
        (option_map (λ d. view d.now) origin.entry)) }
{
    push(out, "    ")?;
    push_value(alloc, out, value)?;
    push(out, ",")?;
    push_comment(out, origin)?;
    push(out, "\n")
}

// Appends where a value was set; nothing of a value that was set nowhere.
fn push_comment(out: &mut Vec<u8>, origin: Option<&Json>) -> Result<(), NoMemory>
    ensures { OnOk result (out.new.items
        ≡ out.old.items ++ spec.comment (option_map (λ d. view d.now) origin.entry)) }
{
    let Some(origin) = origin else {
        return Ok(());
    };
    if let Some(path) = text_at(origin, "file") {
        push(out, " # ")?;
        push_visible(out, path.as_bytes())
    } else if let Some(variable) = text_at(origin, "variable") {
        push_variable(out, variable)
    } else if let Some(path) = text_at(origin, "command-line") {
        push(out, " # ")?;
        push_visible(out, path.as_bytes())
    } else if origin.is_object() {
        push(out, " # --config cli option")
    } else {
        Ok(())
    }
}

// Appends that a variable set a value.
fn push_variable(out: &mut Vec<u8>, variable: &str) -> Result<(), NoMemory>
    ensures { OnOk result (out.new.items ≡ out.old.items
        ++ (codes " # environment variable `" ++ (spec.printable variable.now ++ codes "`"))) }
{
    push(out, " # environment variable `")?;
    push_visible(out, variable.as_bytes())?;
    push(out, "`")
}

fn text_at<'a>(json: &'a Json, key: &str) -> Option<&'a str>
    ensures { option_map (λ s. s.now) result ≡ spec.place_text key.now (view json.now) }
{
    json.get(key)?.as_str()
}

/// Appends a text with `?` in place of each control character, so that a comment stays on its line.
///
/// # Errors
/// `NoMemory` where memory ran out.
pub fn push_visible(out: &mut Vec<u8>, text: &[u8]) -> Result<(), NoMemory>
    ensures { OnOk result (out.new.items ≡ out.old.items ++ spec.printable text.now) }
{
    let mut rest = text;
    'bytes: while let [first, behind @ ..] = rest {
        let (byte, after) = visible_front(*first, behind);
        out.push(byte)?;
        rest = after;
    }
    Ok(())
}

// The first byte to write of a text, and what follows. A control character from U+0080 on has two bytes.
fn visible_front(first: u8, behind: &[u8]) -> (u8, &[u8])
    ensures front { spec.printable (first ∷ behind.now) ≡ result.0 ∷ spec.printable result.1.now }
    ensures shorter { length result.1.now ≤ length behind.now }
{
    if first.is_ascii_control() {
        return (b'?', behind);
    }
    match behind {
        [second, after @ ..] if first == 0xC2 && *second < 0xA0 => (b'?', after),
        _ => (first, behind),
    }
}
