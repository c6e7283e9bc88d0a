//! Reading the fields of a table: a visit.
ghost use Rattle.std.specs.Prelude.{[], OnOk, IfErr};
ghost use Rattle.toml.specs.Data.{get_member};
ghost use Rattle.toml.specs.View.{table_view};
ghost use Rattle.cc2_value.specs.Cells.{field};
ghost use Rattle.cc2_value.specs.Copies.{origin_given};
ghost use Rattle.cc2_value.specs.Reading.{fields_faults};
ghost use Rattle.cc2_value.specs.Taking.{IsWithout, TakesField};
ghost use Rattle.cc2_value.specs.Visits.{FieldsDecoded};
ghost use Rattle.cc2_value.specs.Ways.{cells_in, faults_in, below, IsDecoded, IsFaultBehind};

use crate::definition::Definition;
use crate::fields::{Fields, Take};
use crate::part::Part;
use cc2_error::error::{Error, Result};
use std::alloc::Global;

// Takes each field's value out of a TOML table and reads it, up to the first that is refused.
#[derive(Drop)]
struct Taker<'a> {
    alloc: Global,
    table: toml::Table,
    definition: Option<&'a Definition>,
    refused: Option<Error>,
}

impl Take for Taker<'_> {
    ghost takes = { TakesField (λ t. table_view t.table) (λ t. t.refused)
        (λ t. origin_given t.definition) };

    fn field<T: Part>(&mut self, key: &str, own: &mut T) {
        if self.refused.is_none() {
            if let Err(error) = own.read_at(self.alloc, &mut self.table, key, self.definition) {
                self.refused = Some(error);
            }
        }
    }
}

/// Reads each field at its key of a TOML table, in place of what it has. Unknown keys are ignored,
/// whatever they hold. Refused exactly where a field has a fault, for one of its faults.
#[inline(never)]
pub fn read_fields<T: Fields>(
    alloc: Global,
    read: &mut T,
    table: toml::Table,
    definition: Option<&Definition>,
) -> Result<()>
    ensures ok { OnOk result
        (FieldsDecoded T.fields (origin_given definition.entry) (table_view table) read.new) }
    ensures refused { IfErr result (IsFaultBehind [] (fields_faults T.fields (table_view table))) }
{
    let mut taker = Taker {
        alloc,
        table,
        definition,
        refused: None,
    };
    read.each_taken(&mut taker);
    let Taker { refused, .. } = taker;
    match refused {
        None => Ok(()),
        Some(error) => Err(error),
    }
}
