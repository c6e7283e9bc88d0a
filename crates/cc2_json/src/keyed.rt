//! What is at a key of a configuration's JSON.
ghost use Rattle.std.specs.Prelude.{◌≡◌, IfOk, None, false, if◌then◌else◌, map, option_map};
ghost use Rattle.serde_json.specs.Data.{object, member, no_members};
ghost use Rattle.serde_json.specs.Find.{get};
ghost use Rattle.serde_json.specs.View.{view};
ghost use Rattle.serde_json.specs.Written.{has_float};
ghost use Rattle.cc2_json.specs.AtKey.{alone_at, at_key, is_leaf, is_origin, json_line, tells_place};

use crate::Json;
use cc2_error::error::NoMemory;
use serde_json::{Map, put};
use std::alloc::Global;

/// What is at a key, given by its pieces; none where nothing is. Where values are written with their origins, a value has
/// no keys below it.
pub fn at_key<'a>(json: &'a Json, pieces: &[&str], origins: bool) -> Option<&'a Json>
    ensures { option_map (λ d. view d.now) result
        ≡ at_key origins (map (λ p. p.now) pieces.now) (view json.now) }
{
    let mut found = json;
    for piece in pieces {
        match below(found, *piece, origins) {
            Some(next) => found = next,
            None => return None,
        }
    }
    Some(found)
}

// What is at a name in a table.
fn below<'a>(json: &'a Json, name: &str, origins: bool) -> Option<&'a Json>
    ensures { option_map (λ d. view d.now) result
        ≡ (if is_leaf origins (view json.now) then None else get name.now (view json.now)) }
{
    if is_leaf(json, origins) {
        None
    } else {
        json.get(name)
    }
}

/// The value in an object that has it alone, at a key.
///
/// # Errors
/// `NoMemory` where memory ran out.
pub fn alone_at(alloc: Global, pieces: &[&str], value: Json) -> Result<Json, NoMemory>
    ensures { IfOk result (λ json.
        view json ≡ alone_at (map (λ p. p.now) pieces.now) (view value)) }
{
    let mut json = value;
    for at in (0..pieces.len()).rev() {
        json = alone(alloc, pieces[at], json)?;
    }
    Ok(json)
}

// An object that has a value alone, at a name.
fn alone(alloc: Global, name: &str, value: Json) -> Result<Json, NoMemory>
    ensures { IfOk result (λ json. view json ≡ object (member name.now (view value) no_members)) }
{
    let mut members = Map::new(alloc);
    put(&mut members, alloc, name, value)?;
    Ok(Json::Object(members))
}

/// The value in an object that has it alone, at a key, as one line. Without a key it is the value itself.
///
/// # Errors
/// `NoMemory` where memory ran out.
#[tactic(auto, using(crate::proofs::AtKey::alone_free))]
pub fn alone_line(alloc: Global, pieces: &[&str], found: &Json) -> Result<Vec<u8>, NoMemory>
    ensures { IfOk result (λ line. has_float (view found.now) ≡ false → line.items
        ≡ json_line (alone_at (map (λ p. p.now) pieces.now) (view found.now))) }
{
    if pieces.is_empty() {
        return json_line(alloc, found);
    }
    json_line(alloc, &alone_at(alloc, pieces, found.clone()?)?)
}

/// JSON as one line.
///
/// # Errors
/// `NoMemory` where memory ran out.
pub fn json_line(alloc: Global, json: &Json) -> Result<Vec<u8>, NoMemory>
    ensures { IfOk result (λ line.
        has_float (view json.now) ≡ false → line.items ≡ json_line (view json.now)) }
{
    let mut line = json.to_string(alloc)?.into_bytes();
    line.push(b'\n')?;
    Ok(line)
}

/// Whether it is a value beside its origin, where values are written with their origins.
pub(crate) fn is_leaf(json: &Json, origins: bool) -> bool
    ensures { result ≡ is_leaf origins (view json.now) }
{
    origins && is_origin(json.get("origin"))
}

// Whether it says that a value was set nowhere, or a file, a variable or the command line.
fn is_origin(json: Option<&Json>) -> bool
    ensures { result ≡ is_origin (option_map (λ d. view d.now) json.entry) }
{
    match json {
        Some(origin) => {
            origin.is_null()
                || tells_place(origin.get("file"))
                || tells_place(origin.get("variable"))
                || tells_place(origin.get("command-line"))
        }
        None => false,
    }
}

// Whether a place is a text, or by nothing.
fn tells_place(json: Option<&Json>) -> bool
    ensures { result ≡ tells_place (option_map (λ d. view d.now) json.entry) }
{
    match json {
        Some(place) => place.is_string() || place.is_null(),
        None => false,
    }
}
