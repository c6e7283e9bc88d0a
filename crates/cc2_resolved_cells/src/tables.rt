//! The resolved tables that are written as cells: the keys of each, beside its fields.

use crate::put_fields;
use crate::table::CellTable;
use crate::writer::CellWriter;
use cc2_resolved_tables::{
    BuildConfig, CargoNewConfig, DocConfig, FutureIncompatReportConfig, HttpConfig, NetConfig,
    RegistriesConfigValue, RegistryConfig, SourceConfigValue, TermConfig, TermProgressConfig,
    build_fields, cargo_new_fields, doc_fields, future_incompat_report_fields, http_fields,
    net_fields, registries_fields, registry_fields, source_fields, term_fields,
    term_progress_fields,
};
use std::alloc::AllocError;

impl CellTable for BuildConfig {
    ghost use Rattle.std.specs.Prelude.{refl};
    ghost use Rattle.cc2_resolved_cells.specs.Cells.{row_values};
    ghost use Rattle.cc2_resolved_tables.specs.Build.{build_rows};

    ghost parts = { row_values build_rows };

    ghost distinct = { refl };

    fn put_each(&self, to: &mut CellWriter) -> Result<(), AllocError> {
        build_fields!(put_fields!(self, to))
    }
}

impl CellTable for CargoNewConfig {
    ghost use Rattle.std.specs.Prelude.{refl};
    ghost use Rattle.cc2_resolved_cells.specs.Cells.{row_values};
    ghost use Rattle.cc2_resolved_tables.specs.CargoNew.{new_rows};

    ghost parts = { row_values new_rows };

    ghost distinct = { refl };

    fn put_each(&self, to: &mut CellWriter) -> Result<(), AllocError> {
        cargo_new_fields!(put_fields!(self, to))
    }
}

impl CellTable for DocConfig {
    ghost use Rattle.std.specs.Prelude.{refl};
    ghost use Rattle.cc2_resolved_cells.specs.Cells.{row_values};
    ghost use Rattle.cc2_resolved_tables.specs.Doc.{doc_rows};

    ghost parts = { row_values doc_rows };

    ghost distinct = { refl };

    fn put_each(&self, to: &mut CellWriter) -> Result<(), AllocError> {
        doc_fields!(put_fields!(self, to))
    }
}

impl CellTable for FutureIncompatReportConfig {
    ghost use Rattle.std.specs.Prelude.{refl};
    ghost use Rattle.cc2_resolved_cells.specs.Cells.{row_values};
    ghost use Rattle.cc2_resolved_tables.specs.FutureIncompatReport.{report_rows};

    ghost parts = { row_values report_rows };

    ghost distinct = { refl };

    fn put_each(&self, to: &mut CellWriter) -> Result<(), AllocError> {
        future_incompat_report_fields!(put_fields!(self, to))
    }
}

impl CellTable for HttpConfig {
    ghost use Rattle.std.specs.Prelude.{refl};
    ghost use Rattle.cc2_resolved_cells.specs.Cells.{row_values};
    ghost use Rattle.cc2_resolved_tables.specs.Http.{http_rows};

    ghost parts = { row_values http_rows };

    ghost distinct = { refl };

    fn put_each(&self, to: &mut CellWriter) -> Result<(), AllocError> {
        http_fields!(put_fields!(self, to))
    }
}

impl CellTable for NetConfig {
    ghost use Rattle.std.specs.Prelude.{refl};
    ghost use Rattle.cc2_resolved_cells.specs.Cells.{row_values};
    ghost use Rattle.cc2_resolved_tables.specs.Net.{net_rows};

    ghost parts = { row_values net_rows };

    ghost distinct = { refl };

    fn put_each(&self, to: &mut CellWriter) -> Result<(), AllocError> {
        net_fields!(put_fields!(self, to))
    }
}

impl CellTable for RegistriesConfigValue {
    ghost use Rattle.std.specs.Prelude.{refl};
    ghost use Rattle.cc2_resolved_cells.specs.Cells.{row_values};
    ghost use Rattle.cc2_resolved_tables.specs.Registries.{registries_rows};

    ghost parts = { row_values registries_rows };

    ghost distinct = { refl };

    fn put_each(&self, to: &mut CellWriter) -> Result<(), AllocError> {
        registries_fields!(put_fields!(self, to))
    }
}

impl CellTable for RegistryConfig {
    ghost use Rattle.std.specs.Prelude.{refl};
    ghost use Rattle.cc2_resolved_cells.specs.Cells.{row_values};
    ghost use Rattle.cc2_resolved_tables.specs.Registry.{registry_rows};

    ghost parts = { row_values registry_rows };

    ghost distinct = { refl };

    fn put_each(&self, to: &mut CellWriter) -> Result<(), AllocError> {
        registry_fields!(put_fields!(self, to))
    }
}

impl CellTable for SourceConfigValue {
    ghost use Rattle.std.specs.Prelude.{refl};
    ghost use Rattle.cc2_resolved_cells.specs.Cells.{row_values};
    ghost use Rattle.cc2_resolved_tables.specs.Source.{source_rows};

    ghost parts = { row_values source_rows };

    ghost distinct = { refl };

    fn put_each(&self, to: &mut CellWriter) -> Result<(), AllocError> {
        source_fields!(put_fields!(self, to))
    }
}

impl CellTable for TermConfig {
    ghost use Rattle.std.specs.Prelude.{refl};
    ghost use Rattle.cc2_resolved_cells.specs.Tables.{term_parts};

    ghost parts = { term_parts };

    ghost distinct = { refl };

    fn put_each(&self, to: &mut CellWriter) -> Result<(), AllocError> {
        term_fields!(put_fields!(self, to))
    }
}

impl CellTable for TermProgressConfig {
    ghost use Rattle.std.specs.Prelude.{refl};
    ghost use Rattle.cc2_resolved_cells.specs.Cells.{row_values};
    ghost use Rattle.cc2_resolved_tables.specs.TermProgress.{progress_rows};

    ghost parts = { row_values progress_rows };

    ghost distinct = { refl };

    fn put_each(&self, to: &mut CellWriter) -> Result<(), AllocError> {
        term_progress_fields!(put_fields!(self, to))
    }
}
