//! Gathering the fields of a table, and reversing their lists: visits.
ghost use Rattle.std.specs.Prelude.{OnOk, IfErr};
ghost use Rattle.cc2_value.specs.Gathered.{IsGatheredIn, IsReversedIn, IsUngatheredBelow, FieldsGathered, FieldsReversed, IsFieldUngathered};

use crate::fields::{Fields, Visit, VisitAlone};
use crate::part::Part;
use cc2_error::error::{NoMemory, Result};
use std::alloc::Global;

// Gathers each field's weaker one, which is taken.
#[derive(Drop)]
struct Gatherer {
    alloc: Global,
}

impl Visit for Gatherer {
    ghost makes = { λ m key way own other new. IsGatheredIn own other new };

    ghost refuses = { λ m key way own other e. IsUngatheredBelow key own other e };

    fn field<T: Part>(&self, key: &str, own: &mut T, other: &mut T) -> Result<()> {
        if other.is_unset() {
            return Ok(());
        }
        match own.gather(self.alloc, other) {
            Ok(()) => Ok(()),
            Err(error) => Err(error.below(self.alloc, key)),
        }
    }
}

// Reverses the lists of each field.
#[derive(Drop)]
struct Reverser {
    alloc: Global,
}

impl VisitAlone for Reverser {
    ghost gives = { λ m own new. IsReversedIn own new };

    fn field<T: Part>(&self, own: &mut T) -> std::result::Result<(), NoMemory> {
        if own.is_unset() {
            return Ok(());
        }
        own.reverse_lists(self.alloc)
    }
}

/// Gathers each field of a weaker table, which is taken. Refused exactly where the two have no pointwise map at
/// a field, with its key path.
#[inline(never)]
pub fn gather_fields<T: Fields>(alloc: Global, high: &mut T, low: &mut T) -> Result<()>
    ensures ok { OnOk result (FieldsGathered T.fields high.old low.old high.new) }
    ensures refused { IfErr result (IsFieldUngathered T.fields high.old low.old) }
{
    match high.each(low, &Gatherer { alloc }) {
        Ok(()) => Ok(()),
        Err(refused) => Err(refused.error),
    }
}

/// Reverses the lists of each field of a table. Fails only if memory runs out.
#[inline(never)]
pub fn reverse_fields<T: Fields>(alloc: Global, table: &mut T) -> std::result::Result<(), NoMemory>
    ensures { OnOk result (FieldsReversed T.fields table.old table.new) }
{
    table.each_alone(&Reverser { alloc })
}
