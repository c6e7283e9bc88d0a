//! Parts in a row, each written at its key.
ghost use Rattle.std.specs.Prelude.{◌∷◌, ◌++◌, [], List, OnOk};
ghost use Rattle.cc2_resolved_cells.specs.Cells.{RowPart, ShownAnswers, cells_of_parts, cells_in, AllShowExactly};
ghost use Rattle.cc2_resolved_cells.specs.Writers.{AreWritten};

use crate::keyed::Keyed;
use crate::put_cells::PutCells;
use crate::writer::CellWriter;
use cc2_leaf::Pair;
use std::alloc::AllocError;

/// A row of parts that are written as cells.
pub trait CellRow {
    /// Its parts: each key, and the cells there.
    ghost parts: { Self → List RowPart };

    /// What the parts show, in their order.
    ghost looks: { Self → List ShownAnswers };

    /// Writes the cells of the parts, each part at its key. They are exactly what each part shows.
    ///
    /// # Errors
    /// `AllocError` where memory ran out, or where a text or list is too long for four bytes.
    fn put_row(&self, to: &mut CellWriter) -> Result<(), AllocError>
        ensures written { OnOk result
            (AreWritten (cells_of_parts (parts self.now)) to.old to.new) }
        ensures shown { OnOk result
            (AllShowExactly (cells_in (parts self.now)) (looks self.now)) };
}

impl<T: PutCells> CellRow for Keyed<'_, T> {
    ghost parts = { λ row. (row.key.now, T.cells row.part.now) ∷ [] };

    ghost looks = { λ row. T.shown row.part.now ∷ [] };

    fn put_row(&self, to: &mut CellWriter) -> Result<(), AllocError> {
        self.part.put_cells(self.key, to)
    }
}

impl<A: CellRow, B: CellRow> CellRow for Pair<A, B> {
    ghost parts = { λ row. A.parts row.front ++ B.parts row.back };

    ghost looks = { λ row. A.looks row.front ++ B.looks row.back };

    fn put_row(&self, to: &mut CellWriter) -> Result<(), AllocError> {
        self.front.put_row(to)?;
        self.back.put_row(to)
    }
}

/// A row of these: a shallow tree, for deep types are too large for the prover.
#[macro_export]
macro_rules! row_of {
    ($a:expr) => {
        $a
    };
    ($a:expr, $b:expr) => {
        $crate::Pair { front: $a, back: $b }
    };
    ($a:expr, $b:expr, $c:expr) => {
        $crate::Pair { front: $crate::row_of!($a, $b), back: $c }
    };
    ($a:expr, $b:expr, $c:expr, $d:expr) => {
        $crate::Pair { front: $crate::row_of!($a, $b), back: $crate::row_of!($c, $d) }
    };
    ($a:expr, $b:expr, $c:expr, $d:expr, $($more:expr),+) => {
        $crate::Pair { front: $crate::row_of!($a, $b, $c, $d), back: $crate::row_of!($($more),+) }
    };
}

/// Writes the cells of these fields, each at its key.
#[macro_export]
macro_rules! put_fields {
    ($own:ident, $to:ident; $($key:literal $field:ident $($meant:ident)?),* $(,)?) => {
        $crate::CellRow::put_row(
            &$crate::row_of!($($crate::Keyed { key: $key, part: &$own.$field }),*),
            $to,
        )
    };
}
