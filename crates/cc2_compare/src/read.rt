//! The key paths at which cargo-config2 0.1.45 reads a value.
ghost use Rattle.std.specs.Prelude.{◌≡◌};
ghost use Rattle.cc2_value.specs.Rows.{texts_of};
ghost use Rattle.cc2_compare.specs.Reads.{is_crate_key, place_below};

use cc2_findings::Place;

/// Whether cargo-config2 0.1.45 reads a value at a path.
pub(crate) fn is_crate_key(path: &[&str]) -> bool
    ensures { result ≡ is_crate_key (texts_of path.now) }
{
    let mut place = Place::Config;
    let mut left = path;
    while let [key, below @ ..] = left {
        match place_below(place, *key, !below.is_empty()) {
            Some(next) => place = next,
            None => return false,
        }
        left = below;
    }
    true
}

// The place of what is at a key, which is a table or not; none where it isn't read. Tables below one of `[target]` are read as
// that one: a triple may have dots.
fn place_below(place: Place, key: &str, is_table: bool) -> Option<Place>
    ensures { result ≡ place_below place key.now is_table }
{
    match place {
        Place::Target if is_table => Some(Place::Target),
        _ => place.below(key, is_table),
    }
}
