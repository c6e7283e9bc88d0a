//! Why a list of values isn't joined.
ghost use Rattle.cc2_value.specs.Faults.{IsMemory};
ghost use Rattle.cc2_value.specs.Places.{IsFaultAt};

use cc2_error::error::{Error, ErrorKind};
use std::alloc::{AllocError, AllocFailed};

/// Why a list of values isn't joined.
#[derive(Debug, Drop)]
pub enum MergeAllFault {
    /// Memory ran out.
    Memory,
    /// The values have no pointwise map.
    Mixed {
        /// The least place, from 0, at which the values up to and with it have none.
        place: usize,
        /// The refusal there: `ErrorKind::Merge` with a key path that is mixed, the first shape there
        /// and that of the value at the place.
        error: Error,
    },
}

impl From<AllocError> for MergeAllFault {
    ghost use Rattle.std.specs.Prelude.{◌≡◌};
    ghost use Rattle.cc2_value.specs.declared.merge_fault.MergeAllFault.TheVariants as fault;

    ghost from_gives = { λ _ e. e ≡ fault.Memory };

    fn from(_e: AllocError) -> MergeAllFault {
        MergeAllFault::Memory
    }
}

impl<T: Drop> From<AllocFailed<T>> for MergeAllFault {
    ghost use Rattle.std.specs.Prelude.{◌≡◌};
    ghost use Rattle.cc2_value.specs.declared.merge_fault.MergeAllFault.TheVariants as fault;

    ghost from_gives = { λ _ e. e ≡ fault.Memory };

    fn from(_e: AllocFailed<T>) -> MergeAllFault {
        MergeAllFault::Memory
    }
}

/// A refusal at a place.
pub(crate) fn fault_at(place: usize, error: Error) -> MergeAllFault
    ensures { IsFaultAt place error result }
{
    if is_memory(&error) {
        return MergeAllFault::Memory;
    }
    MergeAllFault::Mixed { place, error }
}

// Whether the error says that memory ran out.
fn is_memory(error: &Error) -> bool
    ensures { IsMemory error.now result }
{
    matches!(error.kind(), ErrorKind::Memory)
}
