//! Copying values.
ghost use Rattle.std.specs.Prelude.{◌≡◌, ℕ, List, length, Option, is_some, option_map, IfOk, IfErr};
ghost use Rattle.std.specs.BTreeMap.{get_by_text};
ghost use Rattle.cc2_error.specs.Causes.{no_memory};
ghost use Rattle.cc2_value.specs.Cells.{KeyPath, Cell};
ghost use Rattle.cc2_value.specs.Copies.{origin_given, origin_set, IsCopied, IsSame};
ghost use Rattle.cc2_value.specs.Shown.{single_at, option_at, list_at, map_at};
ghost use Rattle.cc2_value.specs.Values.{origin_of, setting_of};

use crate::definition::Definition;
use crate::map::from_sorted;
use crate::value::{Plain, Value};
use cc2_error::error::Result;
use std::alloc::Global;
use std::collections::BTreeMap;

/// A value that is copied whole.
pub trait TryClone: Drop {
    /// What a copy keeps: the cell at each key path.
    ghost shown: { Self → KeyPath → Option Cell };

    /// A copy in which each value was set where this definition says; without one, each where it
    /// was. Fails only if memory runs out.
    fn copied(&self, alloc: Global, definition: Option<&Definition>) -> Result<Self>
        ensures ok { IfOk result (IsCopied shown (origin_given definition.entry) self.now) }
        ensures refused { IfErr result (λ e. e ≡ no_memory) };

    /// A copy: the same values, each set where it was. Fails only if memory runs out.
    fn try_clone(&self, alloc: Global) -> Result<Self>
        ensures ok { IfOk result (IsSame shown self.now) }
        ensures refused { IfErr result (λ e. e ≡ no_memory) }
    {
        self.copied(alloc, None)
    }
}

impl<T: Plain> TryClone for Value<T> {
    ghost shown = { single_at (setting_of T.payload) };

    fn copied(&self, alloc: Global, definition: Option<&Definition>) -> Result<Value<T>> {
        let val = self.val.copied(alloc)?;
        let definition = definition_for(alloc, &self.definition, definition)?;
        Ok(Value { val, definition })
    }
}

// A copy of the definition that is given, else of the one that was.
fn definition_for(
    alloc: Global,
    was: &Option<Definition>,
    given: Option<&Definition>,
) -> Result<Option<Definition>>
    ensures ok { IfOk result (λ d.
        option_map origin_of d
        ≡ origin_set (origin_given given.entry) (option_map origin_of was.now)) }
    ensures refused { IfErr result (λ e. e ≡ no_memory) }
{
    match (given, was) {
        (Some(given), _) => Ok(Some(given.try_clone(alloc)?)),
        (None, Some(was)) => Ok(Some(was.try_clone(alloc)?)),
        (None, None) => Ok(None),
    }
}

impl<T: TryClone> TryClone for Option<T> {
    ghost shown = { option_at T.shown };

    fn copied(&self, alloc: Global, definition: Option<&Definition>) -> Result<Option<T>> {
        match self {
            None => Ok(None),
            Some(value) => Ok(Some(value.copied(alloc, definition)?)),
        }
    }
}

/// Item by item, in their order.
impl<T: TryClone> TryClone for Vec<T> {
    ghost shown = { λ list. list_at T.shown list.items };

    fn copied(&self, alloc: Global, definition: Option<&Definition>) -> Result<Vec<T>>
        ensures ok { IfOk result (IsCopied (λ list.
            list_at T.shown list.items) (origin_given definition.entry) self.now) }
        ensures length { IfOk result (λ copy. length copy.items ≡ length self.now.items) }
        ensures refused { IfErr result (λ e. e ≡ no_memory) }
    {
        let mut copies = Vec::new(alloc);
        for item in self {
            copies.push(item.copied(alloc, definition)?)?;
        }
        Ok(copies)
    }
}

/// Name by name.
impl<V: TryClone> TryClone for BTreeMap<String, V> {
    ghost shown = { map_at V.shown };

    fn copied(&self, alloc: Global, definition: Option<&Definition>) -> Result<BTreeMap<String, V>>
        ensures ok { IfOk result
            (IsCopied (map_at V.shown) (origin_given definition.entry) self.now) }
        ensures names { IfOk result (λ copy.
            (name : List ℕ)
            → is_some (get_by_text copy name) ≡ is_some (get_by_text self.now name)) }
        ensures refused { IfErr result (λ e. e ≡ no_memory) }
    {
        let mut copies = Vec::with_capacity(alloc, self.len())?;
        for (key, value) in self.iter() {
            let copy = value.copied(alloc, definition)?;
            copies.push((key.clone()?, copy))?;
        }
        Ok(from_sorted(alloc, copies)?)
    }
}
