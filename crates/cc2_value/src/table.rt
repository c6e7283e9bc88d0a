//! Tables: read, merged and copied by visits to their fields.
ghost use Rattle.std.specs.Prelude.{Bool, false, ◌∷◌, [], IsTrue, OnOk, IfErr};
ghost use Rattle.toml.specs.Data.{as_table};
ghost use Rattle.toml.specs.View.{view};
ghost use Rattle.cc2_value.specs.Copies.{origin_given};
ghost use Rattle.cc2_value.specs.Reading.{way_of_table, table_way, table_cells, table_faults};
ghost use Rattle.cc2_value.specs.Shown.{table_at, ShowsNothing};
ghost use Rattle.cc2_value.specs.Ways.{IsDecoded, IsFaultBehind};

use crate::copier::copy_fields;
use crate::decode::{Decode, taken, wrong_type};
use crate::definition::Definition;
use crate::fields::Fields;
use crate::gatherer::{gather_fields, reverse_fields};
use crate::merge::MergeFrom;
use crate::part::Part;
use crate::reader::read_fields;
use crate::try_clone::TryClone;
use cc2_error::error::{NoMemory, Result};
use std::alloc::Global;

/// A table that has its fields and nothing else.
pub trait Table: Fields {
    /// Whether it is a member of a map, and so has a cell of its own.
    ghost member: { Bool };

    /// Whether it is known to show nothing: false where that isn't known.
    fn is_unset(&self) -> bool
        ensures { IsTrue result → ShowsNothing (table_at member Self.fields) self.now }
    {
        false
    }
}

/// A table that is always there, and empty where a file has none.
pub trait Section: Fields {}

/// It has no cell of its own.
impl<T: Section> Table for T {
    ghost member = { false };

    #[tactic(auto, using(crate::proofs::Tables::fields_absent))]
    fn is_unset(&self) -> bool {
        Fields::is_unset(self)
    }
}

/// Field by field.
impl<T: Table> MergeFrom for T {
    ghost cell_at = { table_at T.member T.fields };

    fn gather(&mut self, alloc: Global, low: &mut T) -> Result<()> {
        gather_fields(alloc, self, low)
    }

    fn reverse_lists(&mut self, alloc: Global) -> std::result::Result<(), NoMemory> {
        reverse_fields(alloc, self)
    }

    fn is_unset(&self) -> bool {
        Table::is_unset(self)
    }
}

/// Field by field.
impl<T: Table> TryClone for T {
    ghost shown = { table_at T.member T.fields };

    fn copied(&self, alloc: Global, definition: Option<&Definition>) -> Result<T> {
        let mut copy = T::absent(alloc);
        copy_fields(alloc, self, &mut copy, definition)?;
        Ok(copy)
    }
}

/// A table alone. Unknown keys are ignored, whatever they hold.
impl<T: Table> Decode for T {
    ghost way = { way_of_table T.member T.fields };

    fn read(
        alloc: Global,
        value: toml::Value,
        key: &str,
        definition: Option<&Definition>,
    ) -> Result<T> {
        let mut read = T::absent(alloc);
        read_table(alloc, &mut read, value, key, definition)?;
        Ok(read)
    }
}

impl<T: Section> Part for T {
    ghost way = { table_way T.fields };

    fn empty(alloc: Global) -> T {
        T::absent(alloc)
    }

    fn read_at(
        &mut self,
        alloc: Global,
        table: &mut toml::Table,
        key: &str,
        definition: Option<&Definition>,
    ) -> Result<()> {
        match taken(table, key) {
            Some(value) => read_table(alloc, self, value, key, definition),
            None => {
                *self = Part::empty(alloc);
                Ok(())
            }
        }
    }
}

// Reads a table in place of what it has.
fn read_table<T: Table>(
    alloc: Global,
    read: &mut T,
    value: toml::Value,
    key: &str,
    definition: Option<&Definition>,
) -> Result<()>
    ensures ok { OnOk result (IsDecoded (table_at T.member T.fields)
        (table_cells T.member T.fields (origin_given definition.entry) (as_table (view value)))
        (table_faults T.fields (as_table (view value))) read.new) }
    ensures refused { IfErr result
        (IsFaultBehind (key.now ∷ []) (table_faults T.fields (as_table (view value)))) }
{
    let toml::Value::Table(table) = value else {
        return Err(wrong_type(alloc, key));
    };
    match read_fields(alloc, read, table, definition) {
        Ok(()) => Ok(()),
        Err(error) => Err(error.below(alloc, key)),
    }
}
