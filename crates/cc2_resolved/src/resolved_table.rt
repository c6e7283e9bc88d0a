//! Resolved tables: with nothing in them, and copied field by field.
ghost use Rattle.std.specs.Prelude.{◌≡◌, List, OnOk, IfErr};
ghost use Rattle.cc2_error.specs.Causes.{no_memory};
ghost use Rattle.cc2_resolved.specs.Copies.{AllEmpty, AllSame, IsSame};
ghost use Rattle.cc2_resolved.specs.Rows.{Row};

use crate::try_clone::TryClone;
use cc2_error::error::Result;
use std::alloc::Global;

/// A table, once it is resolved.
pub trait ResolvedTable: Drop {
    /// How each field is resolved, and what the table shows there.
    ghost rows: { List (Row Self) };

    /// The table with nothing in it. It takes no memory.
    fn empty(alloc: Global) -> Self
        ensures { AllEmpty rows result };

    /// Copies each field in place of the copy's, up to the first for which there is no memory.
    ///
    /// # Errors
    /// `ErrorKind::Memory` where a field finds no memory.
    fn copy_each(&self, alloc: Global, copy: &mut Self) -> Result<()>
        ensures same { OnOk result (AllSame rows self.now copy.new) }
        ensures refused { IfErr result (λ e. e ≡ no_memory) };
}

/// Field by field.
impl<T: ResolvedTable> TryClone for T {
    ghost use Rattle.cc2_resolved.specs.Rows.{entry_shown, rows_at};

    ghost shown = { rows_at T.rows };

    ghost member = { entry_shown T.rows };

    fn try_clone(&self, alloc: Global) -> Result<T> {
        let mut copy = T::empty(alloc);
        self.copy_each(alloc, &mut copy)?;
        Ok(copy)
    }
}

/// Copies a value in place of another.
///
/// # Errors
/// `ErrorKind::Memory` where the copy finds no memory.
pub fn copy_into<T: TryClone>(alloc: Global, own: &T, copy: &mut T) -> Result<()>
    ensures same { OnOk result (IsSame T.shown own.now copy.new) }
    ensures refused { IfErr result (λ e. e ≡ no_memory) }
{
    *copy = own.try_clone(alloc)?;
    Ok(())
}

/// The body of `ResolvedTable::copy_each`: copies these fields in turn, up to the first for which there
/// is no memory.
#[macro_export]
macro_rules! copy_fields {
    ($alloc:ident, $own:ident, $copy:ident; $($($key:literal)? $field:ident $($meant:ident)?),* $(,)?) => {{
        $(
            if let Err(error) = $crate::copy_into($alloc, &$own.$field, &mut $copy.$field) {
                return Err(error);
            }
        )*
        Ok(())
    }};
}
