//! The values that rustc printed for a name.
ghost use Rattle.std.specs.Prelude.{◌≡◌, ℕ, List, bytes_eq, IfOk, OnOk, map, option_map, string_bytes};
ghost use Rattle.std.specs.List.{list_any};
ghost use Rattle.std.specs.List.Sorted.{IsStrictlySortedBy};
ghost use Rattle.std.specs.Ordering.{nat_cmp};
ghost use Rattle.std.specs.Cmp.Lexicographic.{slice_cmp};
ghost use Rattle.cc2_cfg.specs.Meaning.{PairAtom};
ghost use Rattle.cc2_rustc.specs.Holds.{has};
ghost use Rattle.cc2_rustc.specs.Printed.{atoms_of};
ghost use Rattle.cc2_rustc.specs.Values.{values_of, with_value};

use crate::cfg_set::CfgSet;
use cc2_error::error::NoMemory;
use std::alloc::Global;
use std::collections::BTreeSet;

impl CfgSet {
    /// The values that rustc printed for the name, in byte order, each once: those of its pairs of
    /// this name. See the Rust Reference, Conditional compilation,
    /// [Set configuration options](https://doc.rust-lang.org/reference/conditional-compilation.html#set-configuration-options).
    /// A flag of this name has none.
    ///
    /// # Errors
    /// `NoMemory` where memory ran out.
    pub fn values(&self, alloc: Global, name: &str) -> Result<Vec<String>, NoMemory>
        ensures value { IfOk result (λ values.
            map string_bytes values.items ≡ values_of name.now (atoms_of self.now)) }
        ensures listed { IfOk result (λ values. (text : List ℕ) →
            list_any (bytes_eq text) (map string_bytes values.items)
            ≡ has (atoms_of self.now) (PairAtom name.now text)) }
        ensures ordered { IfOk result (λ values.
            IsStrictlySortedBy (slice_cmp nat_cmp) (map string_bytes values.items)) }
    {
        let mut values = BTreeSet::new(alloc);
        for printed in self.printed.iter() {
            put(alloc, &mut values, printed.value_of(name))?;
        }
        let values: Vec<String> = values.into_iter().collect(alloc)?;
        Ok(values)
    }
}

// Puts a value among the others, where there is one.
fn put(alloc: Global, values: &mut BTreeSet<String>, found: Option<&str>) -> Result<(), NoMemory>
    ensures { OnOk result (map string_bytes values.new.keys
        ≡ with_value (map string_bytes values.old.keys) (option_map (λ v. v.now) found.entry)) }
{
    if let Some(value) = found {
        values.insert(String::from_str(alloc, value)?)?;
    }
    Ok(())
}
