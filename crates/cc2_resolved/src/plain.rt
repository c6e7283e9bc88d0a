//! Numbers, truth values, texts and spelled values stay as they are.

use crate::place::Place;
use crate::resolve::Resolve;
use cc2_error::error::Result;
use cc2_leaf::{Plain, Value};
use std::alloc::Global;

impl<T: Plain> Resolve for Value<T> {
    ghost use Rattle.cc2_value.specs.Cells.{Single};
    ghost use Rattle.cc2_value.specs.Values.{setting_of};
    ghost use Rattle.cc2_resolved.specs.Answers.{single};
    ghost use Rattle.cc2_resolved.specs.Resolving.{settled};

    type Resolved = T;

    ghost cell = { λ v. Single (setting_of T.payload v) };

    ghost answer = { λ x. single (T.payload x) };

    ghost how = { settled };

    fn resolve(self, _alloc: Global, _place: &Place<'_>) -> Result<T> {
        Ok(self.val)
    }
}
