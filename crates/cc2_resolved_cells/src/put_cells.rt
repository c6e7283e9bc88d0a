//! What is resolved, as cells: settings, and maps name by name.
ghost use Rattle.std.specs.Prelude.{List, OnOk, option_map};
ghost use Rattle.cc2_value.specs.Cells.{field};
ghost use Rattle.cc2_resolved.specs.Rows.{names_at};
ghost use Rattle.cc2_resolved_cells.specs.Cells.{ResolvedCell, ShownAnswers, cells_below, value_cells, cells_of_map, ShowExactly};
ghost use Rattle.cc2_resolved_cells.specs.Writers.{AreWritten};

use crate::member::PutMember;
use crate::value::CellValue;
use crate::writer::{CellWriter, KeyKind};
use cc2_resolved::provider::GlobalCredentialProviders;
use std::alloc::AllocError;
use std::collections::BTreeMap;

/// What is written as cells once it is resolved: a table, or what is at a field of one.
pub trait PutCells {
    /// What is written: the answer at each key path.
    ghost shown: { Self → ShownAnswers };

    /// Its cells, in their order.
    ghost cells: { Self → List ResolvedCell };

    /// Writes its cells at the key of a field, behind the keys in front. They are exactly what is shown.
    ///
    /// # Errors
    /// `AllocError` where memory ran out, or where a text or list is too long for four bytes.
    fn put_cells(&self, key: &str, to: &mut CellWriter) -> Result<(), AllocError>
        ensures written { OnOk result
            (AreWritten (cells_below (field key.now) (cells self.now)) to.old to.new) }
        ensures shown { OnOk result (ShowExactly (cells self.now) (shown self.now)) };
}

/// One cell, where the value is there.
impl<T: CellValue> PutCells for Option<T> {
    ghost use Rattle.cc2_resolved.specs.Answers.{shown_at};

    ghost shown = { λ o. shown_at (option_map T.answer o) };

    ghost cells = { λ o. value_cells (option_map T.answer o) };

    fn put_cells(&self, key: &str, to: &mut CellWriter) -> Result<(), AllocError> {
        match self {
            None => Ok(()),
            Some(value) => to.put_value(KeyKind::Field, key, value),
        }
    }
}

/// One cell, where there is a provider.
impl PutCells for GlobalCredentialProviders {
    ghost use Rattle.cc2_resolved.specs.Answers.{providers_answer, shown_at};

    ghost shown = { λ g. shown_at (providers_answer g) };

    ghost cells = { λ g. value_cells (providers_answer g) };

    fn put_cells(&self, key: &str, to: &mut CellWriter) -> Result<(), AllocError> {
        if self.is_empty() {
            return Ok(());
        }
        to.put_value(KeyKind::Field, key, self)
    }
}

/// Name by name, in the order of the names.
impl<V: PutMember> PutCells for BTreeMap<String, V> {
    ghost shown = { names_at V.shown };

    ghost cells = { λ map. cells_of_map V.cells map.entries };

    fn put_cells(&self, key: &str, to: &mut CellWriter) -> Result<(), AllocError> {
        put_names(self, key, to)
    }
}

// Writes the cells of a map's values, each at its name.
fn put_names<V: PutMember>(
    map: &BTreeMap<String, V>,
    key: &str,
    to: &mut CellWriter,
) -> Result<(), AllocError>
    ensures written { OnOk result
        (AreWritten (cells_below (field key.now) (cells_of_map V.cells map.now.entries))
        to.old to.new) }
    ensures shown { OnOk result
        (ShowExactly (cells_of_map V.cells map.now.entries) (names_at V.shown map.now)) }
{
    let mark = to.enter(KeyKind::Field, key)?;
    for (name, value) in map.iter() {
        value.put_member(name.as_str(), to)?;
    }
    to.leave(mark);
    Ok(())
}
