//! Merging a value with weaker ones of its type.
ghost use Rattle.std.specs.Prelude.{◌≡◌, ◌∷◌, [], false, Option, is_some, IsTrue, IfOk, OnOk, IfErr};
ghost use Rattle.std.specs.List.{list_any};
ghost use Rattle.cc2_error.specs.Causes.{refusal_of, plain};
ghost use Rattle.cc2_error.specs.Causes as cause;
ghost use Rattle.cc2_value.specs.Cells.{KeyPath, Cell, IsPointwise};
ghost use Rattle.cc2_value.specs.Gathered.{IsGathered, IsUngathered, IsReversed, HasNoList};
ghost use Rattle.cc2_value.specs.Places.{IsUnjoined};
ghost use Rattle.cc2_value.specs.Refusals.{IsRefused};
ghost use Rattle.cc2_value.specs.Shown.{single_at, option_at, ShowsNothing};
ghost use Rattle.cc2_value.specs.Values.{setting_of};
ghost use Rattle.cc2_value.specs.MergeLaws.{MergeLaws, merge_laws};

use crate::gather::{gather_option, reverse_option};
use crate::joining::{Joined, join_list};
use crate::value::{Plain, Value};
use cc2_error::error::{Error, ErrorKind, NoMemory, Result, Shape};
use std::alloc::Global;

/// A value into which weaker ones of its type are gathered, cell by cell (Cargo Reference, Configuration,
/// [hierarchical structure](https://doc.rust-lang.org/cargo/reference/config.html#hierarchical-structure)).
/// While they are, each list is kept from its last item to its first: what a weaker value adds is appended.
pub trait MergeFrom: Sized + Drop {
    /// The cell at a key path of the value.
    ghost cell_at: { Self → KeyPath → Option Cell };

    /// Gathers a weaker value into this one; what the weaker one has is taken. Of two single values the
    /// stronger is kept, of two arrays the weaker one's items come first, tables merge key by key.
    ///
    /// # Errors
    /// `ErrorKind::Merge` exactly where a text and an array, or a text and a table, meet at a key
    /// path: with that path and both, the stronger one's first. `ErrorKind::Memory` where memory ran
    /// out. After a refusal both values are merged in part.
    fn gather(&mut self, alloc: Global, low: &mut Self) -> Result<()>
        ensures ok { OnOk result (IsGathered cell_at self.old low.old self.new) }
        ensures refused { IfErr result (IsUngathered cell_at self.old low.old) };

    /// Reverses each list in it.
    ///
    /// # Errors
    /// `NoMemory` where memory ran out; some of the lists are reversed then.
    fn reverse_lists(&mut self, alloc: Global) -> std::result::Result<(), NoMemory>
        ensures { OnOk result (IsReversed cell_at self.old self.new) };

    /// Whether there may be a list in such a value.
    fn has_lists() -> bool
        ensures { result ≡ false → HasNoList cell_at }
    {
        true
    }

    /// Whether it is known to show nothing: false where that isn't known.
    fn is_unset(&self) -> bool
        ensures { IsTrue result → ShowsNothing cell_at self.now }
    {
        false
    }
}

/// A value that merges with weaker ones of its type (Cargo Reference, Configuration,
/// [hierarchical structure](https://doc.rust-lang.org/cargo/reference/config.html#hierarchical-structure)).
/// However the merges of a list are grouped, they give what the list is joined to, or each grouping
/// is refused somewhere.
pub trait Merge: MergeFrom {
    /// Merges the value with a weaker one. Of two single values the stronger is kept, of two arrays
    /// the weaker one's items come first, tables merge key by key.
    ///
    /// # Errors
    /// Those of `gather`; then there is no value.
    #[tactic(auto, using(crate::proofs::Mergings::merged_by_gathering, crate::proofs::Mergings::unmerged_by_gathering))]
    fn merge(self, alloc: Global, low: Self) -> Result<Self>
        ensures ok { IfOk result (IsPointwise Self.cell_at (self ∷ low ∷ [])) }
        ensures refused { IfErr result (IsRefused Self.cell_at (self ∷ low ∷ [])) }
    {
        let (mut high, mut low) = (self, low);
        high.reverse_lists(alloc)?;
        match high.gather(alloc, &mut low) {
            Ok(()) => {
                high.reverse_lists(alloc)?;
                Ok(high)
            }
            Err(error) => Err(error),
        }
    }

    /// All values of a list as one, the first the strongest; an absent value counts as a place. Where
    /// all are absent there is none.
    ///
    /// # Errors
    /// `MergeAllFault::Mixed` exactly where the values have no pointwise map, with the least place up to
    /// which they have none; `MergeAllFault::Memory` where memory ran out. Then there is no value.
    final fn merge_list(alloc: Global, list: Vec<Option<Self>>) -> Joined<Self>
        ensures ok { IfOk result (IsPointwise (option_at Self.cell_at) list.items) }
        ensures present { IfOk result (λ joined. is_some joined ≡ list_any is_some list.items) }
        ensures refused { IfErr result (IsUnjoined (option_at Self.cell_at) list.items) }
    {
        let mut list = list;
        join_list::<Self>(alloc, &mut list)
    }

    ghost laws: { MergeLaws Self.cell_at } = { merge_laws Self.cell_at };
}

impl<T: MergeFrom> Merge for T {}

/// The law of merging, for every type that merges: all groupings of a list give its pointwise map,
/// or each of them is refused; a value without cells is an identity.
pub fn merges_group<T: Merge>()
    ensures { MergeLaws T.cell_at }
{}

/// The refusal of two values of these shapes, the stronger one's first. Its key path is still empty.
pub fn mixed(alloc: Global, expected: Shape, found: Shape) -> Error
    ensures { refusal_of result ≡ plain (cause.mixed [] expected found) }
{
    Error::new(ErrorKind::Merge {
        path: Vec::new(alloc),
        expected,
        found,
    })
}

impl<T: Plain> MergeFrom for Value<T> {
    ghost cell_at = { single_at (setting_of T.payload) };

    #[tactic(auto, using(crate::proofs::Gathers::single_gathered))]
    fn gather(&mut self, _alloc: Global, _low: &mut Value<T>) -> Result<()> {
        Ok(())
    }

    #[tactic(auto, using(crate::proofs::Gathers::single_reversed))]
    fn reverse_lists(&mut self, _alloc: Global) -> std::result::Result<(), NoMemory> {
        Ok(())
    }

    #[tactic(auto, using(crate::proofs::Gathers::single_unlisted))]
    fn has_lists() -> bool {
        false
    }
}

impl<T: MergeFrom> MergeFrom for Option<T> {
    ghost cell_at = { option_at T.cell_at };

    fn gather(&mut self, alloc: Global, low: &mut Option<T>) -> Result<()> {
        gather_option(alloc, self, low)
    }

    fn reverse_lists(&mut self, alloc: Global) -> std::result::Result<(), NoMemory> {
        reverse_option(alloc, self)
    }

    fn is_unset(&self) -> bool {
        self.is_none()
    }
}
