//! Putting a value at a path of merged settings.
ghost use Rattle.std.specs.Prelude.{◌≡◌, ◌∷◌, ℕ, IfErr, IfOk, List, map, string_bytes, unwrap_or};
ghost use Rattle.cc2_error.specs.Causes.{memory, plain, refusal_of};
ghost use Rattle.cc2_cargo.specs.Raw.{Path, member_at, raw_at, raw_members_at};
ghost use Rattle.cc2_cargo_settings.specs.Under.{put_at};

use cc2_cargo::Raw;
use cc2_error::error::Result;
use cc2_value::put;
use std::alloc::Global;
use std::collections::BTreeMap;

/// The settings with a value at a path, in place of what is there. Where no table is above it, one is put there.
///
/// # Errors
/// `ErrorKind::Memory`.
pub(crate) fn put_at(
    alloc: Global,
    members: BTreeMap<String, Raw>,
    path: &[String],
    raw: Raw,
) -> Result<BTreeMap<String, Raw>>
    ensures ok { IfOk result (λ new. (p : Path) → raw_members_at new p
        ≡ unwrap_or (put_at (map string_bytes path.now) (raw_at raw) p)
        (raw_members_at members p)) }
    ensures refused { IfErr result (λ e. refusal_of e ≡ plain memory) }
{
    match path.split_first() {
        None => Ok(members),
        Some((key, below)) => put_member(alloc, members, key.as_str(), below, raw),
    }
}

// The same of a path of at least one key.
fn put_member(
    alloc: Global,
    members: BTreeMap<String, Raw>,
    key: &str,
    below: &[String],
    raw: Raw,
) -> Result<BTreeMap<String, Raw>>
    ensures ok { IfOk result (λ new. (p : Path) → raw_members_at new p
        ≡ unwrap_or (put_at (key.now ∷ map string_bytes below.now) (raw_at raw) p)
        (raw_members_at members p)) }
    ensures refused { IfErr result (λ e. refusal_of e ≡ plain memory) }
{
    let mut members = members;
    match below.split_first() {
        None => {
            put(&mut members, String::from_str(alloc, key)?, raw)?;
            Ok(members)
        }
        Some((next, rest)) => {
            let table = table_of(alloc, members.remove(key));
            let inner = put_member(alloc, table, next.as_str(), rest, raw)?;
            put(
                &mut members,
                String::from_str(alloc, key)?,
                Raw::Table(inner),
            )?;
            Ok(members)
        }
    }
}

// The members of a table; none of anything else.
fn table_of(alloc: Global, raw: Option<Raw>) -> BTreeMap<String, Raw>
    ensures { (k : List ℕ) (p : Path) → raw_members_at result (k ∷ p) ≡ member_at raw (k ∷ p) }
{
    match raw {
        None => BTreeMap::new(alloc),
        Some(Raw::Table(members)) => members,
        Some(Raw::Single(_)) => BTreeMap::new(alloc),
        Some(Raw::Array(_)) => BTreeMap::new(alloc),
    }
}
