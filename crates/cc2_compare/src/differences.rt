//! The keys at which two configurations have different values.
ghost use Rattle.std.specs.Prelude.{◌≡◌, IfOk, IfSome, false, map, option_map};
ghost use Rattle.serde_json.specs.View.{view};
ghost use Rattle.serde_json.specs.Written.{has_float};
ghost use Rattle.cc2_value.specs.Rows.{texts_of};
ghost use Rattle.cc2_compare.specs.Differences.{are_alike, differences, is_of_cargo_alone, is_other, single_value};
ghost use Rattle.cc2_compare.specs.ValuePaths.{path_view};

use crate::read::is_crate_key;
use crate::value_paths::value_paths;
use crate::words::{cargo_words, crate_words, takes_words};
use cc2_error::error::NoMemory;
use cc2_json::{Json, at_key};
use std::alloc::Global;

/// The key paths at which two configurations have different values: those at which cargo-config2 0.1.45 has a value and
/// Cargo another one or none, and those at which Cargo alone has a value that cargo-config2 0.1.45 reads. Values that are read
/// as words are compared as such.
///
/// # Errors
/// `NoMemory` where memory ran out.
pub(crate) fn differences<'a>(
    alloc: Global,
    of_crate: &'a Json,
    of_cargo: &'a Json,
) -> Result<Vec<Vec<&'a str>>, NoMemory>
    requires of_crate { has_float (view of_crate.now) ≡ false }
    requires of_cargo { has_float (view of_cargo.now) ≡ false }
    ensures { IfOk result (λ paths.
        map path_view paths.items ≡ differences (view of_crate.now) (view of_cargo.now)) }
{
    let mut found = Vec::new(alloc);
    for path in value_paths(alloc, of_crate)? {
        if is_other(alloc, of_crate, of_cargo, path.as_slice())? {
            found.push(path)?;
        }
    }
    for path in value_paths(alloc, of_cargo)? {
        if is_of_cargo_alone(of_crate, path.as_slice()) {
            found.push(path)?;
        }
    }
    Ok(found)
}

// Whether the value of the first at a path isn't that of the second.
fn is_other(
    alloc: Global,
    of_crate: &Json,
    of_cargo: &Json,
    path: &[&str],
) -> Result<bool, NoMemory>
    requires of_crate { has_float (view of_crate.now) ≡ false }
    requires of_cargo { has_float (view of_cargo.now) ≡ false }
    ensures { IfOk result (λ is.
        is ≡ is_other (view of_crate.now) (view of_cargo.now) (texts_of path.now)) }
{
    match (single_value(of_crate, path), single_value(of_cargo, path)) {
        (Some(own), Some(other)) => Ok(!are_alike(alloc, takes_words(path), own, other)?),
        (Some(_), None) => Ok(true),
        (None, _) => Ok(false),
    }
}

// Whether the first has no value at a path that is read.
fn is_of_cargo_alone(of_crate: &Json, path: &[&str]) -> bool
    ensures { result ≡ is_of_cargo_alone (view of_crate.now) (texts_of path.now) }
{
    is_crate_key(path) && single_value(of_crate, path).is_none()
}

// The value at a path; none where a table is there, or nothing.
fn single_value<'a>(json: &'a Json, path: &[&str]) -> Option<&'a Json>
    ensures value { option_map (λ d. view d.now) result
        ≡ single_value (texts_of path.now) (view json.now) }
    ensures free { has_float (view json.now) ≡ false
        → IfSome result (λ d. has_float (view d.now) ≡ false) }
{
    let found = at_key(json, path, false)?;
    if found.is_object() { None } else { Some(found) }
}

// Whether two values are printed alike, as their words where they are read as such.
fn are_alike(alloc: Global, is_words: bool, own: &Json, other: &Json) -> Result<bool, NoMemory>
    requires own { has_float (view own.now) ≡ false }
    requires other { has_float (view other.now) ≡ false }
    ensures { IfOk result (λ are. are ≡ are_alike is_words (view own.now) (view other.now)) }
{
    if is_words {
        return Ok(crate_words(alloc, own)?.as_str() == cargo_words(alloc, other)?.as_str());
    }
    Ok(own.to_string(alloc)?.as_str() == other.to_string(alloc)?.as_str())
}
