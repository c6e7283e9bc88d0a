//! Gathering: what a weaker value sets is taken into a stronger one.
ghost use Rattle.std.specs.Prelude.{◌≡◌, ◌||◌, is_some, OnOk, IfErr};
ghost use Rattle.cc2_value.specs.Gathered.{IsGathered, IsUngathered, IsReversed};
ghost use Rattle.cc2_value.specs.Shown.{option_at};

use crate::merge::MergeFrom;
use cc2_error::error::{Error, ErrorKind, NoMemory, Result};
use std::alloc::Global;
use std::mem::swap;

/// Gathers a weaker value that may be absent. The first that is there gets its lists reversed.
#[tactic(auto, using(crate::proofs::Gathers::none_gathered, crate::proofs::Gathers::first_gathered))]
pub fn gather_option<T: MergeFrom>(
    alloc: Global,
    high: &mut Option<T>,
    low: &mut Option<T>,
) -> Result<()>
    ensures ok { OnOk result (IsGathered (option_at T.cell_at) high.old low.old high.new) }
    ensures present { OnOk result (is_some high.new ≡ (is_some high.old || is_some low.old)) }
    ensures refused { IfErr result (IsUngathered (option_at T.cell_at) high.old low.old) }
{
    if low.is_none() {
        return Ok(());
    }
    if high.is_none() {
        swap(high, low);
        return match reverse_option(alloc, high) {
            Ok(()) => Ok(()),
            Err(_) => Err(Error::new(ErrorKind::Memory)),
        };
    }
    if let (Some(high), Some(low)) = (high, low) {
        return high.gather(alloc, low);
    }
    Ok(())
}

/// Reverses each list of a value that may be absent.
pub fn reverse_option<T: MergeFrom>(
    alloc: Global,
    value: &mut Option<T>,
) -> std::result::Result<(), NoMemory>
    ensures reversed { OnOk result (IsReversed (option_at T.cell_at) value.old value.new) }
    ensures present { is_some value.new ≡ is_some value.old }
{
    if let Some(value) = value {
        return value.reverse_lists(alloc);
    }
    Ok(())
}
