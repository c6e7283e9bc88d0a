//! The bytes of a whole row.
ghost use Rattle.std.specs.Prelude.{IfOk};
ghost use Rattle.cc2_resolved_cells.specs.Cells.{cells_of_parts, cells_in, AllShowExactly};
ghost use Rattle.cc2_resolved_cells.specs.Reading.{AreBytesOf};

use crate::row::CellRow;
use crate::writer::CellWriter;
use cc2_error::error::NoMemory;
use std::alloc::Global;

/// The cells of parts in a row, each part at its key, in bytes. They are exactly what each part shows.
///
/// # Errors
/// `NoMemory` where memory ran out, or where a text or list is too long for four bytes.
pub fn row_bytes<R: CellRow>(alloc: Global, row: &R) -> Result<Vec<u8>, NoMemory>
    ensures bytes { IfOk result (λ bytes.
        AreBytesOf (cells_of_parts (R.parts row.now)) bytes.items) }
    ensures shown { IfOk result (λ bytes.
        AllShowExactly (cells_in (R.parts row.now)) (R.looks row.now)) }
{
    let mut to = CellWriter::new(alloc)?;
    row.put_row(&mut to)?;
    Ok(to.into_bytes())
}

/// The cells of these fields in bytes, each field at its key.
#[macro_export]
macro_rules! write_fields {
    ($alloc:ident, $own:ident; $($key:literal $field:ident $($meant:ident)?),* $(,)?) => {
        $crate::row_bytes(
            $alloc,
            &$crate::row_of!($($crate::Keyed { key: $key, part: &$own.$field }),*),
        )
    };
}
