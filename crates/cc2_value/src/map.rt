//! Maps by name: a table of names that the file picks. They are read and merge name by name.
ghost use Rattle.std.specs.Prelude.{◌≡◌, ℕ, List, [], Some, string_bytes, IfOk, OnOk, IfErr};
ghost use Rattle.std.specs.BTreeMap.{Updates, get_by_text};
ghost use Rattle.std.specs.List.Sorted.{IsStrictlySortedBy};
ghost use Rattle.std.specs.Map.{keys_of};
ghost use Rattle.std.specs.String.{string_cmp};
ghost use Rattle.toml.specs.View.{table_view};
ghost use Rattle.cc2_error.specs.Causes.{refusal_of, plain, memory};
ghost use Rattle.cc2_value.specs.Copies.{origin_given};
ghost use Rattle.cc2_value.specs.Gathered.{IsGathered, IsReversed, IsUngathered};
ghost use Rattle.cc2_value.specs.Maps.{found, named_cells, named_faults};
ghost use Rattle.cc2_value.specs.MapEntries.{IsEntryGathered, IsEntryUngathered};
ghost use Rattle.cc2_value.specs.Shown.{map_at};
ghost use Rattle.cc2_value.specs.Ways.{IsDecoded, IsFaultBehind};

use crate::decode::{Decode, wrong_type};
use crate::definition::Definition;
use crate::merge::MergeFrom;
use cc2_error::error::{Error, ErrorKind, NoMemory, Result};
use std::alloc::{AllocError, Global};
use std::collections::BTreeMap;
use std::collections::btree_map::Entry;
use std::mem::replace;

/// Puts a value in place of what the key has.
#[inline(never)]
pub fn put<V: Drop>(map: &mut BTreeMap<String, V>, key: String, value: V) -> Result<()>
    ensures updates { OnOk result (Updates string_cmp map.old map.new key (Some value)) }
    ensures refused { IfErr result (λ e. refusal_of e ≡ plain memory) }
{
    map.insert(key, value)?;
    Ok(())
}

/// Name by name.
impl<V: MergeFrom> MergeFrom for BTreeMap<String, V> {
    ghost cell_at = { map_at V.cell_at };

    fn gather(&mut self, alloc: Global, low: &mut BTreeMap<String, V>) -> Result<()> {
        gather_map(alloc, self, low)
    }

    #[tactic(auto, using(crate::proofs::GatheredMaps::empty_reversed, crate::proofs::GatheredMaps::unlisted_reversed))]
    fn reverse_lists(&mut self, alloc: Global) -> std::result::Result<(), NoMemory> {
        if self.is_empty() {
            return Ok(());
        }
        if V::has_lists() {
            return reverse_map(alloc, self);
        }
        Ok(())
    }

    fn is_unset(&self) -> bool {
        self.is_empty()
    }
}

// Reverses the lists of each value. A value for which memory ran out goes, so that the map has fewer then.
#[inline(never)]
fn reverse_map<V: MergeFrom>(
    alloc: Global,
    map: &mut BTreeMap<String, V>,
) -> std::result::Result<(), NoMemory>
    ensures { OnOk result (IsReversed (map_at V.cell_at) map.old map.new) }
{
    let count = map.len();
    map.retain(|_name, value| value.reverse_lists(alloc).is_ok());
    if map.len() < count {
        return Err(NoMemory);
    }
    Ok(())
}

// Gathers a weaker map, entry by entry.
fn gather_map<V: MergeFrom>(
    alloc: Global,
    map: &mut BTreeMap<String, V>,
    low: &mut BTreeMap<String, V>,
) -> Result<()>
    ensures ok { OnOk result (IsGathered (map_at V.cell_at) map.old low.old map.new) }
    ensures refused { IfErr result (IsUngathered (map_at V.cell_at) map.old low.old) }
{
    let weaker_ones = replace(low, BTreeMap::new(alloc));
    for (key, weaker) in weaker_ones {
        gather_entry(alloc, map, key, weaker)?;
    }
    Ok(())
}

// Gathers a weaker value into what the key has, or puts it there where it has none.
fn gather_entry<V: MergeFrom>(
    alloc: Global,
    map: &mut BTreeMap<String, V>,
    key: String,
    weaker: V,
) -> Result<()>
    ensures ok { OnOk result (IsEntryGathered V.cell_at map.old (string_bytes key) weaker map.new) }
    ensures refused { IfErr result (IsEntryUngathered V.cell_at map.old (string_bytes key) weaker) }
{
    let mut weaker = weaker;
    match map.entry(key)? {
        Entry::Vacant(place) => {
            weaker.reverse_lists(alloc)?;
            place.insert(weaker);
            Ok(())
        }
        Entry::Occupied(mut place) => match place.get_mut().gather(alloc, &mut weaker) {
            Ok(()) => Ok(()),
            Err(error) => Err(error.below(alloc, place.key().as_str())),
        },
    }
}

/// A table of names that the file picks, each of whose members is read as the map's value.
impl<V: Decode> Decode for BTreeMap<String, V> {
    ghost use Rattle.cc2_value.specs.Maps.{map_way};

    ghost way = { map_way V.way };

    fn read(
        alloc: Global,
        value: toml::Value,
        key: &str,
        definition: Option<&Definition>,
    ) -> Result<BTreeMap<String, V>> {
        match value {
            toml::Value::Table(table) => match read_members(alloc, table, definition) {
                Ok(read) => Ok(read),
                Err(error) => Err(error.below(alloc, key)),
            },
            _ => Err(wrong_type(alloc, key)),
        }
    }
}

/// The map of entries that are sorted by their keys. It is built at once.
pub fn from_sorted<V: Drop>(
    alloc: Global,
    entries: Vec<(String, V)>,
) -> std::result::Result<BTreeMap<String, V>, AllocError>
    requires { IsStrictlySortedBy string_cmp (keys_of entries.items) }
    ensures { IfOk result (λ map. (k : List ℕ) → get_by_text map k ≡ found k entries.items) }
{
    BTreeMap::from_iter(alloc, entries)
}

// The members of a table by their names.
fn read_members<V: Decode>(
    alloc: Global,
    table: toml::Table,
    definition: Option<&Definition>,
) -> Result<BTreeMap<String, V>>
    ensures ok { IfOk result (IsDecoded (map_at V.cell_at)
        (named_cells V.way (origin_given definition.entry) (table_view table))
        (named_faults V.way (table_view table))) }
    ensures refused { IfErr result (IsFaultBehind [] (named_faults V.way (table_view table))) }
{
    let mut members = Vec::with_capacity(alloc, table.len())?;
    for (name, value) in table {
        let read = V::read(alloc, value, name.as_str(), definition)?;
        members.push((name, read))?;
    }
    Ok(from_sorted(alloc, members)?)
}
