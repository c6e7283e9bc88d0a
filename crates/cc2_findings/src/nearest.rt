//! The known key that is nearest to an unknown one.
use crate::place::Place;
use cc2_error::error::NoMemory;
use std::alloc::Global;
use strsim::osa_distance;

/// The key that was meant by the last key of a path, which nothing reads: of those that this library or Cargo reads
/// there, the first from which the fewest edits lead to it. These are at most a third of its characters. Two characters
/// that are exchanged are one edit.
///
/// # Errors
/// `NoMemory` where memory ran out.
pub fn nearest_key(alloc: Global, path: &[String]) -> Result<Option<&'static str>, NoMemory> {
    match path.split_last() {
        None => Ok(None),
        Some((key, parents)) => nearest_of(alloc, place_of(parents), key.as_str()),
    }
}

// The place that keys lead to.
fn place_of(path: &[String]) -> Place {
    let mut place = Place::Config;
    for key in path {
        place = place.opened(key.as_str(), true).unwrap_or(Place::Whole);
    }
    place
}

// The nearest of the keys read at a place.
fn nearest_of(alloc: Global, place: Place, key: &str) -> Result<Option<&'static str>, NoMemory> {
    let mut nearest = None;
    let mut fewest = key.chars().count() / 3 + 1;
    for known in place.keys().iter().chain(place.cargo_keys()) {
        let edits = osa_distance(alloc, known, key)?;
        if edits < fewest {
            fewest = edits;
            nearest = Some(*known);
        }
    }
    Ok(nearest)
}
