//! Merging values that have no origin: the stronger takes precedence.
use crate::merge::MergeFrom;
use cc2_error::error::{NoMemory, Result};
use std::alloc::Global;

impl MergeFrom for bool {
    ghost use Rattle.cc2_value.specs.Cells.{truth};
    ghost use Rattle.cc2_value.specs.Shown.{single_at};
    ghost use Rattle.cc2_value.specs.Values.{bare_setting};

    ghost cell_at = { single_at (bare_setting truth) };

    #[tactic(auto, using(crate::proofs::Gathers::single_gathered))]
    fn gather(&mut self, _alloc: Global, _low: &mut bool) -> Result<()> {
        Ok(())
    }

    #[tactic(auto, using(crate::proofs::Gathers::single_reversed))]
    fn reverse_lists(&mut self, _alloc: Global) -> std::result::Result<(), NoMemory> {
        Ok(())
    }

    #[tactic(auto, using(crate::proofs::Gathers::single_unlisted))]
    fn has_lists() -> bool {
        false
    }
}

impl MergeFrom for i32 {
    ghost use Rattle.cc2_value.specs.Cells.{number};
    ghost use Rattle.cc2_value.specs.Shown.{single_at};
    ghost use Rattle.cc2_value.specs.Values.{bare_setting};

    ghost cell_at = { single_at (bare_setting number) };

    #[tactic(auto, using(crate::proofs::Gathers::single_gathered))]
    fn gather(&mut self, _alloc: Global, _low: &mut i32) -> Result<()> {
        Ok(())
    }

    #[tactic(auto, using(crate::proofs::Gathers::single_reversed))]
    fn reverse_lists(&mut self, _alloc: Global) -> std::result::Result<(), NoMemory> {
        Ok(())
    }

    #[tactic(auto, using(crate::proofs::Gathers::single_unlisted))]
    fn has_lists() -> bool {
        false
    }
}

impl MergeFrom for u32 {
    ghost use Rattle.std.specs.Prelude.{pos};
    ghost use Rattle.cc2_value.specs.Cells.{number};
    ghost use Rattle.cc2_value.specs.Shown.{single_at};
    ghost use Rattle.cc2_value.specs.Values.{bare_setting};

    ghost cell_at = { single_at (bare_setting (λ n. number (pos n))) };

    #[tactic(auto, using(crate::proofs::Gathers::single_gathered))]
    fn gather(&mut self, _alloc: Global, _low: &mut u32) -> Result<()> {
        Ok(())
    }

    #[tactic(auto, using(crate::proofs::Gathers::single_reversed))]
    fn reverse_lists(&mut self, _alloc: Global) -> std::result::Result<(), NoMemory> {
        Ok(())
    }

    #[tactic(auto, using(crate::proofs::Gathers::single_unlisted))]
    fn has_lists() -> bool {
        false
    }
}

impl MergeFrom for String {
    ghost use Rattle.std.specs.Prelude.{string_bytes};
    ghost use Rattle.cc2_value.specs.Cells.{word};
    ghost use Rattle.cc2_value.specs.Shown.{single_at};
    ghost use Rattle.cc2_value.specs.Values.{bare_setting};

    ghost cell_at = { single_at (bare_setting (λ s. word (string_bytes s))) };

    #[tactic(auto, using(crate::proofs::Gathers::single_gathered))]
    fn gather(&mut self, _alloc: Global, _low: &mut String) -> Result<()> {
        Ok(())
    }

    #[tactic(auto, using(crate::proofs::Gathers::single_reversed))]
    fn reverse_lists(&mut self, _alloc: Global) -> std::result::Result<(), NoMemory> {
        Ok(())
    }

    #[tactic(auto, using(crate::proofs::Gathers::single_unlisted))]
    fn has_lists() -> bool {
        false
    }
}
