//! Resolved values that are one cell, as JSON: lists, commands, providers and targets.
ghost use Rattle.std.specs.Prelude.{◌≡◌, false, Some, IfOk};
ghost use Rattle.serde_json.specs.View.{view};
ghost use Rattle.cc2_value.specs.Cells.{is_entry};
ghost use Rattle.cc2_json.specs.Forms.{cell_data};
ghost use Rattle.cc2_resolved_json.specs.Plain.{cell_of};

use crate::provider::provider_json;
use crate::words::{command_json, targets_json, texts_json};
use cc2_error::path_and_args::PathAndArgs;
use cc2_json::Json;
use cc2_resolved::ResolvedValue;
use cc2_resolved::flags::Flags;
use cc2_resolved::provider::CredentialProvider;
use cc2_resolved::target_triple::TargetTriple;
use std::alloc::{AllocError, Global};

/// A value of a resolved setting, which is one cell.
pub trait PlainValue: ResolvedValue {
    /// The cell as JSON.
    ///
    /// # Errors
    /// `AllocError` where memory ran out.
    fn plain_json(&self, alloc: Global) -> Result<Json, AllocError>
        ensures { IfOk result (λ json.
            Some (view json) ≡ cell_data false (cell_of (Self.answer self.now))) };

    /// It is no table.
    ghost whole: { (a : Self) → is_entry (cell_of (Self.ResolvedValue.answer a)) ≡ false };
}

impl PlainValue for Flags {
    ghost use Rattle.std.specs.Prelude.{refl};

    ghost whole = { λ a. refl };

    fn plain_json(&self, alloc: Global) -> Result<Json, AllocError> {
        texts_json(alloc, self.flags.as_slice())
    }
}

impl PlainValue for PathAndArgs {
    ghost use Rattle.std.specs.Prelude.{refl};

    ghost whole = { λ a. refl };

    fn plain_json(&self, alloc: Global) -> Result<Json, AllocError> {
        command_json(alloc, self)
    }
}

impl PlainValue for CredentialProvider {
    ghost use Rattle.std.specs.Prelude.{refl};

    ghost whole = { λ a. refl };

    fn plain_json(&self, alloc: Global) -> Result<Json, AllocError> {
        provider_json(alloc, self)
    }
}

impl PlainValue for Vec<TargetTriple> {
    ghost use Rattle.std.specs.Prelude.{refl};

    ghost whole = { λ a. refl };

    fn plain_json(&self, alloc: Global) -> Result<Json, AllocError> {
        targets_json(alloc, self.as_slice())
    }
}
