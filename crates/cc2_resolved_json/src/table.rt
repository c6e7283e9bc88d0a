//! Resolved tables as JSON: an object of what the fields show.
ghost use Rattle.std.specs.Prelude.{◌≡◌, true, OnOk};
ghost use Rattle.cc2_value.specs.Rows.{are_distinct};
ghost use Rattle.cc2_json.specs.Json.{ArePut};
ghost use Rattle.cc2_resolved_json.specs.Plain.{without_origins};
ghost use Rattle.cc2_resolved_json.specs.Rows.{keys_of_rows, looks_of_rows};

use crate::to_json::{PlainMember, ToJson};
use cc2_json::{Json, object};
use cc2_resolved::ResolvedTable;
use serde_json::Map;
use std::alloc::{AllocError, Global};

/// A resolved table whose fields are written as JSON.
pub trait PlainTable: ResolvedTable {
    /// Puts what the fields show among the members, each at its key.
    ///
    /// # Errors
    /// `AllocError` where memory ran out; the members then have some of it.
    fn put_each(
        &self,
        alloc: Global,
        tokens: bool,
        members: &mut Map<String, Json>,
    ) -> Result<(), AllocError>
        ensures { OnOk result (ArePut (without_origins tokens) (keys_of_rows Self.rows)
            (looks_of_rows Self.rows self.now)
            members.old.entries members.new.entries) };

    /// Its keys are distinct.
    ghost distinct: { are_distinct (keys_of_rows Self.ResolvedTable.rows) ≡ true };
}

impl<T: PlainTable> PlainMember for T {
    ghost use Rattle.std.specs.Prelude.{refl};

    ghost own = { λ v. refl };
}

/// Field by field.
impl<T: PlainTable> ToJson for T {
    ghost use Rattle.cc2_resolved.specs.Rows.{entry_shown, rows_at};

    ghost shown = { rows_at T.rows };

    ghost member = { entry_shown T.rows };

    fn to_json(&self, alloc: Global, tokens: bool) -> Result<Option<Json>, AllocError> {
        let mut members = Map::new(alloc);
        self.put_each(alloc, tokens, &mut members)?;
        Ok(Some(object(members)))
    }
}
