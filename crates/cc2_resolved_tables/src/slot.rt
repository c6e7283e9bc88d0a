//! What is at a key of a table, resolved in place.
ghost use Rattle.std.specs.Prelude.{Option, OnOk, IfErr};
ghost use Rattle.cc2_value.specs.Cells.{Cell, KeyPath};
ghost use Rattle.cc2_resolved.specs.Answers.{Answer};
ghost use Rattle.cc2_resolved.specs.Rows.{Resolving, IsResolved, IsCause};
ghost use Rattle.cc2_resolved.specs.Sites.{site_of};

use cc2_error::error::Result;
use cc2_resolved::{Place, Resolve};
use std::alloc::Global;

/// What is at a key of a table: a value that may be absent, a table or a map.
pub trait Slot: Drop {
    /// What it is when it is resolved.
    type Resolved: Drop;

    /// The cells that it shows.
    ghost look: { Self → KeyPath → Option Cell };

    /// What resolution makes of them.
    ghost how: { Resolving };

    /// What it shows when it is resolved.
    ghost shown: { Self.Resolved → KeyPath → Option Answer };

    /// Resolves it in place, and takes it.
    fn settle(
        &mut self,
        alloc: Global,
        place: &Place<'_>,
        resolved: &mut Self::Resolved,
    ) -> Result<()>
        ensures ok { OnOk result
            (IsResolved how (site_of place.now) (look self.old) (shown resolved.new)) }
        ensures refused { IfErr result (IsCause how (site_of place.now) (look self.old)) };
}

impl<T: Resolve> Slot for Option<T> {
    ghost use Rattle.std.specs.Prelude.{option_map};
    ghost use Rattle.cc2_value.specs.Shown.{leaf_at, option_at};
    ghost use Rattle.cc2_resolved.specs.Answers.{shown_at};
    ghost use Rattle.cc2_resolved.specs.Rows.{by};

    type Resolved = Option<T::Resolved>;

    ghost look = { option_at (leaf_at T.cell) };

    ghost how = { by T.how };

    ghost shown = { λ r. shown_at (option_map T.answer r) };

    fn settle(
        &mut self,
        alloc: Global,
        place: &Place<'_>,
        resolved: &mut Option<T::Resolved>,
    ) -> Result<()> {
        match self.take() {
            None => {
                *resolved = None;
                Ok(())
            }
            Some(value) => match value.resolve(alloc, place) {
                Ok(answer) => {
                    *resolved = Some(answer);
                    Ok(())
                }
                Err(error) => Err(error),
            },
        }
    }
}
