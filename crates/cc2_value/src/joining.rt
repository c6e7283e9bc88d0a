//! Joining a list of values: they are gathered into the first, and then each list is reversed once.
ghost use Rattle.std.specs.Prelude.{◌≡◌, ◌||◌, is_some, OnOk, IfOk, IfErr};
ghost use Rattle.std.specs.List.{list_any};
ghost use Rattle.cc2_value.specs.Cells.{IsPointwise};
ghost use Rattle.cc2_value.specs.Gathered.{IsGatheredNext, IsMixedNext, IsReversedIf};
ghost use Rattle.cc2_value.specs.Places.{IsUnjoined};
ghost use Rattle.cc2_value.specs.Shown.{option_at};

use crate::gather::{gather_option, reverse_option};
use crate::merge::MergeFrom;
use crate::merge_fault::{MergeAllFault, fault_at};
use cc2_error::error::NoMemory;
use std::alloc::Global;
use std::mem::swap;

/// What the values of a list are joined to: nothing where all are absent; or why they aren't joined.
pub type Joined<T> = std::result::Result<Option<T>, MergeAllFault>;

/// All of them as one, the first the strongest; an absent value counts as a place. What the list has is taken.
pub fn join_list<T: MergeFrom>(alloc: Global, list: &mut Vec<Option<T>>) -> Joined<T>
    ensures ok { IfOk result (IsPointwise (option_at T.cell_at) list.old.items) }
    ensures present { IfOk result (λ joined. is_some joined ≡ list_any is_some list.old.items) }
    ensures refused { IfErr result (IsUnjoined (option_at T.cell_at) list.old.items) }
{
    let mut gathered = None;
    let mut is_reversed = false;
    let mut place = 0;
    for value in list.iter_mut() {
        match gather_at(alloc, place, is_reversed, &mut gathered, value) {
            Ok(now) => is_reversed = now,
            Err(fault) => return Err(fault),
        }
        place += 1;
    }
    match reverse_if(alloc, is_reversed, &mut gathered) {
        Ok(()) => Ok(gathered),
        Err(_) => Err(MergeAllFault::Memory),
    }
}

// Gathers the value at a place, and answers whether lists are reversed now. They are from the second value on:
// a value alone is only moved.
fn gather_at<T: MergeFrom>(
    alloc: Global,
    place: usize,
    is_reversed: bool,
    gathered: &mut Option<T>,
    value: &mut Option<T>,
) -> std::result::Result<bool, MergeAllFault>
    ensures ok { IfOk result (λ now.
        IsGatheredNext (option_at T.cell_at) is_reversed gathered.old value.old now gathered.new) }
    ensures present { IfOk result (λ now.
        is_some gathered.new ≡ (is_some gathered.old || is_some value.old)) }
    ensures refused { IfErr result
        (IsMixedNext (option_at T.cell_at) is_reversed gathered.old value.old place) }
{
    if value.is_none() {
        return Ok(is_reversed);
    }
    if gathered.is_none() {
        swap(gathered, value);
        return Ok(false);
    }
    match reverse_if(alloc, !is_reversed, gathered) {
        Err(_) => Err(MergeAllFault::Memory),
        Ok(()) => match gather_option(alloc, gathered, value) {
            Ok(()) => Ok(true),
            Err(error) => Err(fault_at(place, error)),
        },
    }
}

// Reverses the lists, where the flag says so.
fn reverse_if<T: MergeFrom>(
    alloc: Global,
    is_wanted: bool,
    value: &mut Option<T>,
) -> std::result::Result<(), NoMemory>
    ensures ok { OnOk result (IsReversedIf (option_at T.cell_at) is_wanted value.old value.new) }
    ensures present { is_some value.new ≡ is_some value.old }
{
    if is_wanted {
        return reverse_option(alloc, value);
    }
    Ok(())
}
