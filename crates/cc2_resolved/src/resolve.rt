//! How a value is resolved.
ghost use Rattle.std.specs.Prelude.{Option, Some, Result};
ghost use Rattle.cc2_error.specs.Causes.{Refusal};
ghost use Rattle.cc2_error.specs.Outcomes.{Gives};
ghost use Rattle.cc2_value.specs.Cells.{Cell};
ghost use Rattle.cc2_resolved.specs.Answers.{Answer};
ghost use Rattle.cc2_resolved.specs.Sites.{Site, site_of};

use crate::place::Place;
use cc2_error::error::Result;
use std::alloc::Global;

/// A value that can be resolved.
pub trait Resolve: Drop {
    /// What it is then.
    type Resolved: Drop;

    /// The cell that the value shows.
    ghost cell: { Self → Cell };

    /// What the resolved value shows.
    ghost answer: { Self.Resolved → Answer };

    /// What resolution makes of its cell.
    ghost how: { Site → Cell → Result (Option Answer) Refusal };

    /// Resolves the value.
    fn resolve(self, alloc: Global, place: &Place<'_>) -> Result<Self::Resolved>
        ensures { Gives (λ r. Some (answer r)) result (how (site_of place.now) (cell self)) };
}
