//! Values that are one cell.
ghost use Rattle.std.specs.Prelude.{◌≡◌, ◌++◌, OnOk};
ghost use Rattle.cc2_resolved.specs.Answers.{Answer};
ghost use Rattle.cc2_resolved_cells.specs.Bytes.{value_bytes};
ghost use Rattle.cc2_resolved_cells.specs.Short.{IsShortValue};
ghost use Rattle.cc2_resolved_cells.specs.Values.{written_value};

use std::alloc::AllocError;

/// A value that is one cell.
pub trait CellValue {
    /// The answer that it shows.
    ghost answer: { Self → Answer };

    /// Appends the bytes of the value, behind those of its path.
    ///
    /// # Errors
    /// `AllocError` where memory ran out, or where a text or list is too long for four bytes.
    fn push_value(&self, out: &mut Vec<u8>) -> Result<(), AllocError>
        ensures bytes { OnOk result
            (out.new.items ≡ out.old.items ++ value_bytes (written_value (answer self.now))) }
        ensures short { OnOk result (IsShortValue (written_value (answer self.now))) };
}
