//! Members of maps, as cells.
ghost use Rattle.std.specs.Prelude.{List, OnOk, Some};
ghost use Rattle.cc2_value.specs.Cells.{name};
ghost use Rattle.cc2_resolved.specs.Rows.{answer_at};
ghost use Rattle.cc2_resolved_cells.specs.Cells.{ResolvedCell, ShownAnswers, cells_below, value_cells, ShowExactly};
ghost use Rattle.cc2_resolved_cells.specs.Writers.{AreWritten};

use crate::writer::{CellWriter, KeyKind};
use cc2_error::path_and_args::PathAndArgs;
use cc2_resolved::env::EnvConfigValue;
use cc2_resolved::string_list::StringList;
use std::alloc::AllocError;

/// What is written as cells at a name of a map.
pub trait PutMember {
    /// What is written: the answer at each key path.
    ghost shown: { Self → ShownAnswers };

    /// Its cells, in their order.
    ghost cells: { Self → List ResolvedCell };

    /// Writes its cells at a name, behind the keys in front. They are exactly what is shown.
    ///
    /// # Errors
    /// `AllocError` where memory ran out, or where a text or list is too long for four bytes.
    fn put_member(&self, key: &str, to: &mut CellWriter) -> Result<(), AllocError>
        ensures written { OnOk result
            (AreWritten (cells_below (name key.now) (cells self.now)) to.old to.new) }
        ensures shown { OnOk result (ShowExactly (cells self.now) (shown self.now)) };
}

impl PutMember for StringList {
    ghost use Rattle.cc2_resolved.specs.Answers.{list_answer};

    ghost shown = { answer_at list_answer };

    ghost cells = { λ v. value_cells (Some (list_answer v)) };

    fn put_member(&self, key: &str, to: &mut CellWriter) -> Result<(), AllocError> {
        to.put_value(KeyKind::Name, key, self)
    }
}

impl PutMember for PathAndArgs {
    ghost use Rattle.cc2_resolved.specs.Answers.{command_answer};

    ghost shown = { answer_at command_answer };

    ghost cells = { λ v. value_cells (Some (command_answer v)) };

    fn put_member(&self, key: &str, to: &mut CellWriter) -> Result<(), AllocError> {
        to.put_value(KeyKind::Name, key, self)
    }
}

impl PutMember for EnvConfigValue {
    ghost use Rattle.cc2_resolved.specs.Answers.{variable_answer};
    ghost use Rattle.cc2_resolved.specs.Env.{variable_shown};

    ghost shown = { variable_shown };

    ghost cells = { λ v. value_cells (Some (variable_answer v)) };

    fn put_member(&self, key: &str, to: &mut CellWriter) -> Result<(), AllocError> {
        to.put_value(KeyKind::Name, key, self)
    }
}
