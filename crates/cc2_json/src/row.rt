//! Tables as JSON: the fields of a table are a row, and each part of it is at its key.
ghost use Rattle.std.specs.Prelude.{◌≡◌, ◌≤◌, true, length, OnOk};
ghost use Rattle.cc2_value.specs.Rows.{texts_of, keys_of_fields, looks_of_fields};
ghost use Rattle.cc2_json.specs.Json.{ArePut};

use crate::Json;
use crate::form::Form;
use crate::into_json::{IntoJson, JsonMember, object, put_field};
use cc2_leaf::{MergeFrom, One, Pair, Parts, Rows, Table};
use serde_json::Map;
use std::alloc::{AllocError, Global};

/// A row whose parts can be shown as JSON.
pub trait JsonRow: Parts {
    /// Puts what the parts show among the members, each at its key.
    ///
    /// # Errors
    /// `AllocError` where memory ran out; the members then have some of it.
    fn put_into(
        self,
        alloc: Global,
        form: Form,
        keys: &[&'static str],
        members: &mut Map<String, Json>,
    ) -> Result<(), AllocError>
        requires { Self.count ≤ length keys.now }
        ensures { OnOk result (ArePut form (texts_of keys.now) (Self.shown self)
            members.old.entries members.new.entries) };
}

impl<T: MergeFrom + IntoJson> JsonRow for One<T> {
    fn put_into(
        self,
        alloc: Global,
        form: Form,
        keys: &[&'static str],
        members: &mut Map<String, Json>,
    ) -> Result<(), AllocError> {
        let json = self.part.into_json(alloc, form)?;
        put_field(alloc, form, members, keys[0], json)
    }
}

/// The second row first: where two parts have one key the first is kept.
impl<A: JsonRow, B: JsonRow> JsonRow for Pair<A, B> {
    fn put_into(
        self,
        alloc: Global,
        form: Form,
        keys: &[&'static str],
        members: &mut Map<String, Json>,
    ) -> Result<(), AllocError> {
        self.back.put_into(alloc, form, A::behind(keys), members)?;
        self.front.put_into(alloc, form, keys, members)
    }
}

/// Puts what the fields of a table show among the members, each at its key.
pub fn put_fields<T: Rows>(
    alloc: Global,
    form: Form,
    table: T,
    members: &mut Map<String, Json>,
) -> Result<(), AllocError>
where
    T::Row: JsonRow,
    ensures { OnOk result (ArePut form (keys_of_fields T.fields) (looks_of_fields T.fields table)
        members.old.entries members.new.entries) }
{
    table.into_row().put_into(alloc, form, T::keys(), members)
}

/// A table whose fields are written as JSON.
pub trait JsonTable: Rows {}

/// A table that is an entry of a map.
pub trait EntryTable: Table {
    /// It has a cell of its own.
    ghost entry: { Self.Table.member ≡ true };
}

impl<T: EntryTable> JsonMember for T {
    ghost use Rattle.cc2_json.specs.CellLaws.{entry_own};

    ghost own = { λ v. entry_own T.Table.member T.Fields.fields v T.entry };
}

/// An object of what its fields show.
impl<T: Table + JsonTable> IntoJson for T
where
    T::Row: JsonRow,
{
    fn into_json(self, alloc: Global, form: Form) -> Result<Option<Json>, AllocError> {
        let mut members = Map::new(alloc);
        put_fields(alloc, form, self, &mut members)?;
        Ok(Some(object(members)))
    }
}
