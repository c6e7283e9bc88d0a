//! The resolved tables that are written as JSON: the keys of each, beside its fields.

use crate::put_fields;
use crate::row::PlainRow;
use crate::table::PlainTable;
use cc2_json::Json;
use cc2_resolved_tables::{
    BuildConfig, CargoNewConfig, DocConfig, FutureIncompatReportConfig, HttpConfig, NetConfig,
    RegistriesConfigValue, RegistryConfig, SourceConfigValue, TermConfig, TermProgressConfig,
    build_fields, cargo_new_fields, doc_fields, future_incompat_report_fields, http_fields,
    net_fields, registries_fields, registry_fields, source_fields, term_fields,
    term_progress_fields,
};
use serde_json::Map;
use std::alloc::{AllocError, Global};

impl PlainTable for BuildConfig {
    ghost use Rattle.std.specs.Prelude.{refl};

    ghost distinct = { refl };

    fn put_each(
        &self,
        alloc: Global,
        tokens: bool,
        members: &mut Map<String, Json>,
    ) -> Result<(), AllocError> {
        build_fields!(put_fields!(alloc, tokens, self, members))
    }
}

impl PlainTable for CargoNewConfig {
    ghost use Rattle.std.specs.Prelude.{refl};

    ghost distinct = { refl };

    fn put_each(
        &self,
        alloc: Global,
        tokens: bool,
        members: &mut Map<String, Json>,
    ) -> Result<(), AllocError> {
        cargo_new_fields!(put_fields!(alloc, tokens, self, members))
    }
}

impl PlainTable for DocConfig {
    ghost use Rattle.std.specs.Prelude.{refl};

    ghost distinct = { refl };

    fn put_each(
        &self,
        alloc: Global,
        tokens: bool,
        members: &mut Map<String, Json>,
    ) -> Result<(), AllocError> {
        doc_fields!(put_fields!(alloc, tokens, self, members))
    }
}

impl PlainTable for FutureIncompatReportConfig {
    ghost use Rattle.std.specs.Prelude.{refl};

    ghost distinct = { refl };

    fn put_each(
        &self,
        alloc: Global,
        tokens: bool,
        members: &mut Map<String, Json>,
    ) -> Result<(), AllocError> {
        future_incompat_report_fields!(put_fields!(alloc, tokens, self, members))
    }
}

impl PlainTable for HttpConfig {
    ghost use Rattle.std.specs.Prelude.{refl};

    ghost distinct = { refl };

    fn put_each(
        &self,
        alloc: Global,
        tokens: bool,
        members: &mut Map<String, Json>,
    ) -> Result<(), AllocError> {
        http_fields!(put_fields!(alloc, tokens, self, members))
    }
}

impl PlainTable for NetConfig {
    ghost use Rattle.std.specs.Prelude.{refl};

    ghost distinct = { refl };

    fn put_each(
        &self,
        alloc: Global,
        tokens: bool,
        members: &mut Map<String, Json>,
    ) -> Result<(), AllocError> {
        net_fields!(put_fields!(alloc, tokens, self, members))
    }
}

impl PlainTable for RegistriesConfigValue {
    ghost use Rattle.std.specs.Prelude.{refl};

    ghost distinct = { refl };

    fn put_each(
        &self,
        alloc: Global,
        tokens: bool,
        members: &mut Map<String, Json>,
    ) -> Result<(), AllocError> {
        registries_fields!(put_fields!(alloc, tokens, self, members))
    }
}

impl PlainTable for RegistryConfig {
    ghost use Rattle.std.specs.Prelude.{refl};

    ghost distinct = { refl };

    fn put_each(
        &self,
        alloc: Global,
        tokens: bool,
        members: &mut Map<String, Json>,
    ) -> Result<(), AllocError> {
        registry_fields!(put_fields!(alloc, tokens, self, members))
    }
}

impl PlainTable for SourceConfigValue {
    ghost use Rattle.std.specs.Prelude.{refl};

    ghost distinct = { refl };

    fn put_each(
        &self,
        alloc: Global,
        tokens: bool,
        members: &mut Map<String, Json>,
    ) -> Result<(), AllocError> {
        source_fields!(put_fields!(alloc, tokens, self, members))
    }
}

impl PlainTable for TermConfig {
    ghost use Rattle.std.specs.Prelude.{refl};

    ghost distinct = { refl };

    fn put_each(
        &self,
        alloc: Global,
        tokens: bool,
        members: &mut Map<String, Json>,
    ) -> Result<(), AllocError> {
        term_fields!(put_fields!(alloc, tokens, self, members))
    }
}

impl PlainTable for TermProgressConfig {
    ghost use Rattle.std.specs.Prelude.{refl};

    ghost distinct = { refl };

    fn put_each(
        &self,
        alloc: Global,
        tokens: bool,
        members: &mut Map<String, Json>,
    ) -> Result<(), AllocError> {
        term_progress_fields!(put_fields!(alloc, tokens, self, members))
    }
}
