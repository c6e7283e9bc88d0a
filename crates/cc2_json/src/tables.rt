//! The tables of a configuration that are written as JSON.
use crate::row::{EntryTable, JsonTable};
use cc2_tables::{
    BuildConfig, CargoNewConfig, DocConfig, FutureIncompatReportConfig, HttpConfig, NetConfig,
    RegistriesConfigValue, RegistryConfig, SourceConfigValue, TermConfig, TermProgress,
};

impl JsonTable for BuildConfig {}

impl JsonTable for CargoNewConfig {}

impl JsonTable for DocConfig {}

impl JsonTable for FutureIncompatReportConfig {}

impl JsonTable for HttpConfig {}

impl JsonTable for NetConfig {}

impl JsonTable for RegistriesConfigValue {}

impl EntryTable for RegistriesConfigValue {
    ghost use Rattle.std.specs.Prelude.{refl};

    ghost entry = { refl };
}

impl JsonTable for RegistryConfig {}

impl JsonTable for SourceConfigValue {}

impl EntryTable for SourceConfigValue {
    ghost use Rattle.std.specs.Prelude.{refl};

    ghost entry = { refl };
}

impl JsonTable for TermConfig {}

impl JsonTable for TermProgress {}
