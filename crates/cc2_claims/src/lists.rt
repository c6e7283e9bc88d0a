//! Lists of several files as one.
ghost use Rattle.std.specs.Prelude.{◌∷◌, [], IfOk, IfErr};
ghost use Rattle.cc2_leaf.specs.Lists.{flags_at};
ghost use Rattle.cc2_value.specs.Cells.{IsPointwise};
ghost use Rattle.cc2_value.specs.Places.{IsUnjoined};
ghost use Rattle.cc2_value.specs.Refusals.{IsRefused};
ghost use Rattle.cc2_value.specs.Shown.{option_at};

use cc2_error::error::Result;
use cc2_leaf::{Flags, Joined, Merge};
use std::alloc::Global;

/// `Merge::merge` of flags: the weaker one's come first.
///
/// # Errors
/// Those of `Merge::merge`.
pub fn merged(alloc: Global, high: Flags, low: Flags) -> Result<Flags>
    ensures ok { IfOk result (IsPointwise flags_at (high ∷ low ∷ [])) }
    ensures refused { IfErr result (IsRefused flags_at (high ∷ low ∷ [])) }
{
    high.merge(alloc, low)
}

/// `Merge::merge_list` of flags: the weakest one's come first.
///
/// # Errors
/// Those of `Merge::merge_list`.
pub fn joined(alloc: Global, list: Vec<Option<Flags>>) -> Joined<Flags>
    ensures ok { IfOk result (IsPointwise (option_at flags_at) list.items) }
    ensures refused { IfErr result (IsUnjoined (option_at flags_at) list.items) }
{
    Flags::merge_list(alloc, list)
}
