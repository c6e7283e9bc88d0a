//! The resolved tables of a configuration as cells.
ghost use Rattle.std.specs.Prelude.{IfOk};
ghost use Rattle.cc2_resolved.specs.Rows.{rows_at};
ghost use Rattle.cc2_resolved_cells.specs.Cells.{ShowExactly};
ghost use Rattle.cc2_resolved_cells.specs.Reading.{AreBytesOf};
ghost use Rattle.cc2_resolved_cells.specs.Tables.{cells_of_tables};
ghost use Rattle.cc2_resolved_tables.specs.Tables.{tables_rows};

use cc2_error::error::NoMemory;
use cc2_resolved_tables::Tables;
use std::alloc::Global;

/// The cells of all tables in bytes. The variable has a field for each table.
#[macro_export]
macro_rules! write_tables {
    ($alloc:ident, $own:ident) => {
        $crate::write_fields!($alloc, $own;
            "alias" alias,
            "build" build,
            "credential-alias" credential_alias,
            "doc" doc,
            "env" env,
            "future-incompat-report" future_incompat_report,
            "cargo-new" cargo_new,
            "http" http,
            "net" net,
            "registries" registries,
            "registry" registry,
            "source" source,
            "term" term,
        )
    };
}

/// The cells of resolved tables in bytes: exactly what the tables show, in the order of the tables and of
/// their fields.
///
/// # Errors
/// `NoMemory` where memory ran out, or where a text or list is too long for four bytes.
pub fn tables_cells(alloc: Global, tables: &Tables) -> Result<Vec<u8>, NoMemory>
    ensures bytes { IfOk result (λ bytes. AreBytesOf (cells_of_tables tables.now) bytes.items) }
    ensures shown { IfOk result (λ bytes.
        ShowExactly (cells_of_tables tables.now) (rows_at tables_rows tables.now)) }
{
    write_tables!(alloc, tables)
}
