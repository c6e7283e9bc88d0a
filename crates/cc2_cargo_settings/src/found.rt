//! What merged settings have at a path of keys.
ghost use Rattle.std.specs.Prelude.{◌≡◌, ◌∷◌, [], ℕ, List, IfErr, IfOk, Some, false, map};
ghost use Rattle.cc2_cargo.specs.Raw.{raw_at, raw_members_at};
ghost use Rattle.cc2_cargo_settings.specs.Found.{lookup_at, found_view, is_found, reached, through};

use cc2_cargo::Raw;
use std::collections::BTreeMap;

/// What is at a path.
#[derive(Clone, Copy)]
pub(crate) enum Found<'a> {
    /// Nothing.
    Nowhere,
    /// This value.
    At(&'a Raw),
    /// Nothing, since a value on the way is no table.
    Blocked,
}

/// What is at a path of keys.
pub(crate) fn find<'a>(settings: &'a BTreeMap<String, Raw>, path: &[&str]) -> Found<'a>
    ensures { found_view result
        ≡ lookup_at (raw_members_at settings.now) (map (λ k. k.now) path.now) }
{
    let mut table = settings;
    let mut left = path;
    'keys: while let [key, below @ ..] = left {
        match below_key(table, *key, below) {
            Ok(members) => table = members,
            Err(found) => return found,
        }
        left = below;
    }
    Found::Nowhere
}

/// Whether something is at a path, or a value on the way that is no table.
pub fn is_any_at(settings: &BTreeMap<String, Raw>, path: &[&str]) -> bool
    ensures { result
        ≡ is_found (lookup_at (raw_members_at settings.now) (map (λ k. k.now) path.now)) }
{
    match find(settings, path) {
        Found::Nowhere => false,
        _ => true,
    }
}

// The table at a key, where more keys follow it.
//
// # Errors
// What is at the whole path, where that is known.
fn below_key<'a>(
    table: &'a BTreeMap<String, Raw>,
    key: &str,
    below: &[&str],
) -> Result<&'a BTreeMap<String, Raw>, Found<'a>>
    ensures table { IfOk result (λ members.
        lookup_at (raw_members_at table.now) (key.now ∷ map (λ k. k.now) below.now)
        ≡ lookup_at (raw_members_at members.now) (map (λ k. k.now) below.now)) }
    ensures found { IfErr result (λ found.
        lookup_at (raw_members_at table.now) (key.now ∷ map (λ k. k.now) below.now)
        ≡ found_view found) }
{
    let Some(raw) = table.get(key) else {
        return Err(Found::Nowhere);
    };
    if below.is_empty() {
        return Err(Found::At(raw));
    }
    match raw {
        Raw::Table(members) => Ok(members),
        Raw::Single(_) => Err(Found::Blocked),
        Raw::Array(_) => Err(Found::Blocked),
    }
}

/// Whether some table in the table at a key has a key `part`. Yes too where one of them is no table.
pub fn is_any_inside(settings: &BTreeMap<String, Raw>, key: &str, part: &str) -> bool
    ensures { result ≡ false → (name : List ℕ) → is_found (lookup_at (raw_members_at settings.now)
        (key.now ∷ (name ∷ (part.now ∷ [])))) ≡ false }
{
    match settings.get(key) {
        None => false,
        Some(raw) => match raw {
            Raw::Table(tables) => some_has(tables, part),
            Raw::Single(_) => true,
            Raw::Array(_) => true,
        },
    }
}

// Whether some of these tables has the key, or is no table.
fn some_has(tables: &BTreeMap<String, Raw>, part: &str) -> bool
    ensures { result ≡ false → (name : List ℕ) → is_found (lookup_at (raw_members_at tables.now)
        (name ∷ (part.now ∷ []))) ≡ false }
{
    for (_name, raw) in tables.iter() {
        if has(raw, part) {
            return true;
        }
    }
    false
}

// Whether a table has the key; what is no table has it too.
fn has(raw: &Raw, part: &str) -> bool
    ensures { result ≡ is_found (through (raw_at raw.now [])
        (reached (raw_at raw.now (part.now ∷ [])))) }
{
    match raw {
        Raw::Table(members) => members.contains_key(part),
        Raw::Single(_) => true,
        Raw::Array(_) => true,
    }
}
