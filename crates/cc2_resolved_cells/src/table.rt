//! Resolved tables as cells: those of their fields.
ghost use Rattle.std.specs.Prelude.{◌≡◌, true, List, OnOk};
ghost use Rattle.cc2_value.specs.Rows.{are_distinct};
ghost use Rattle.cc2_resolved_cells.specs.Cells.{ResolvedCell, cells_below, row_cells, entry_cells, row_keys, row_looks, AllShowExactly};
ghost use Rattle.cc2_resolved_cells.specs.Writers.{key_of_kind, AreWritten};

use crate::member::PutMember;
use crate::put_cells::PutCells;
use crate::writer::{CellWriter, KeyKind};
use cc2_resolved::ResolvedTable;
use std::alloc::AllocError;

/// A resolved table whose fields are written as cells.
pub trait CellTable: ResolvedTable {
    /// The cells of each field, in the order of the fields.
    ghost parts: { Self → List (List ResolvedCell) };

    /// Writes the cells of the fields, each field at its key. They are exactly what each field shows.
    ///
    /// # Errors
    /// `AllocError` where memory ran out, or where a text or list is too long for four bytes.
    fn put_each(&self, to: &mut CellWriter) -> Result<(), AllocError>
        ensures written { OnOk result
            (AreWritten (row_cells (row_keys Self.rows) (parts self.now)) to.old to.new) }
        ensures shown { OnOk result
            (AllShowExactly (parts self.now) (row_looks Self.rows self.now)) };

    /// Its keys are distinct.
    ghost distinct: { are_distinct (row_keys Self.ResolvedTable.rows) ≡ true };
}

/// Field by field.
impl<T: CellTable> PutCells for T {
    ghost use Rattle.cc2_resolved.specs.Rows.{rows_at};

    ghost shown = { rows_at T.rows };

    ghost cells = { λ table. row_cells (row_keys T.rows) (T.parts table) };

    fn put_cells(&self, key: &str, to: &mut CellWriter) -> Result<(), AllocError> {
        put_below(self, KeyKind::Field, key, to)
    }
}

/// A cell for the table itself, and then field by field.
impl<T: CellTable> PutMember for T {
    ghost use Rattle.cc2_resolved.specs.Rows.{entry_shown};

    ghost shown = { entry_shown T.rows };

    ghost cells = { λ table. entry_cells (row_cells (row_keys T.rows) (T.parts table)) };

    fn put_member(&self, key: &str, to: &mut CellWriter) -> Result<(), AllocError> {
        to.put_entry(key)?;
        put_below(self, KeyKind::Name, key, to)
    }
}

// Writes the cells of a table's fields below a key.
fn put_below<T: CellTable>(
    table: &T,
    kind: KeyKind,
    key: &str,
    to: &mut CellWriter,
) -> Result<(), AllocError>
    ensures written { OnOk result (AreWritten
        (cells_below (key_of_kind kind key.now) (row_cells (row_keys T.rows) (T.parts table.now)))
        to.old to.new) }
    ensures shown { OnOk result
        (AllShowExactly (T.parts table.now) (row_looks T.rows table.now)) }
{
    let mark = to.enter(kind, key)?;
    table.put_each(to)?;
    to.leave(mark);
    Ok(())
}
