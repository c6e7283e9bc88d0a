//! What merged settings have at an entry of the table `env`, and at its parts.
ghost use Rattle.std.specs.Prelude.{◌≡◌, ◌∷◌, []};
ghost use Rattle.cc2_cargo.specs.Raw.{raw_at, raw_members_at};
ghost use Rattle.cc2_cargo_settings.specs.EnvEntries.{entry_path, parts_at, parts_by, parts_view};
ghost use Rattle.cc2_cargo_settings.specs.Found.{found_view, lookup_at, reached, through};

use crate::found::Found;
use cc2_cargo::Raw;
use std::collections::BTreeMap;

/// What is at an entry.
#[derive(Clone, Copy)]
pub(crate) struct FoundEntry<'a> {
    pub(crate) whole: Found<'a>,
    pub(crate) parts: Parts<'a>,
}

/// What is at the parts of an entry.
#[derive(Clone, Copy)]
pub(crate) struct Parts<'a> {
    pub(crate) value: Found<'a>,
    pub(crate) force: Found<'a>,
    pub(crate) relative: Found<'a>,
}

/// What is at the entry of a name.
pub(crate) fn find_entry<'a>(settings: &'a BTreeMap<String, Raw>, name: &str) -> FoundEntry<'a>
    ensures whole { found_view result.whole
        ≡ lookup_at (raw_members_at settings.now) (entry_path name.now) }
    ensures parts { parts_view result.parts ≡ parts_at (raw_members_at settings.now) name.now }
{
    match settings.get("env") {
        None => everywhere(Found::Nowhere),
        Some(raw) => match raw {
            Raw::Table(entries) => entry_among(entries, name),
            Raw::Single(_) => everywhere(Found::Blocked),
            Raw::Array(_) => everywhere(Found::Blocked),
        },
    }
}

// What is at the entry of a name among these.
fn entry_among<'a>(entries: &'a BTreeMap<String, Raw>, name: &str) -> FoundEntry<'a>
    ensures whole { found_view result.whole
        ≡ lookup_at (raw_members_at entries.now) (name.now ∷ []) }
    ensures parts { parts_view result.parts
        ≡ parts_by (λ part. lookup_at (raw_members_at entries.now) (name.now ∷ (part ∷ []))) }
{
    match entries.get(name) {
        None => everywhere(Found::Nowhere),
        Some(raw) => FoundEntry {
            whole: Found::At(raw),
            parts: parts_of(raw),
        },
    }
}

// The same at the entry and at all of its parts.
fn everywhere(found: Found<'_>) -> FoundEntry<'_>
    ensures whole { found_view result.whole ≡ found_view found.entry }
    ensures parts { parts_view result.parts ≡ parts_by (λ part. found_view found.entry) }
{
    FoundEntry {
        whole: found,
        parts: Parts {
            value: found,
            force: found,
            relative: found,
        },
    }
}

// What is at the parts of this entry.
fn parts_of(raw: &Raw) -> Parts<'_>
    ensures { parts_view result
        ≡ parts_by (λ part. through (raw_at raw.now []) (reached (raw_at raw.now (part ∷ [])))) }
{
    Parts {
        value: part_of(raw, "value"),
        force: part_of(raw, "force"),
        relative: part_of(raw, "relative"),
    }
}

// What is at a part of this entry.
fn part_of<'a>(raw: &'a Raw, part: &str) -> Found<'a>
    ensures { found_view result
        ≡ through (raw_at raw.now []) (reached (raw_at raw.now (part.now ∷ []))) }
{
    match raw {
        Raw::Table(members) => match members.get(part) {
            None => Found::Nowhere,
            Some(raw) => Found::At(raw),
        },
        Raw::Single(_) => Found::Blocked,
        Raw::Array(_) => Found::Blocked,
    }
}
