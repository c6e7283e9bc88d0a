//! The table `cargo-new`, resolved.
use crate::settle_fields;
use crate::table::ResolveTable;
use cc2_error::error::Result;
use cc2_leaf::VersionControlSoftware;
use cc2_resolved::{Place, ResolvedTable, copy_fields};
use cc2_value::Visited;
use serde::Serialize;
use std::alloc::Global;

/// The table `cargo-new` (Cargo Reference, Configuration,
/// [`[cargo-new]`](https://doc.rust-lang.org/cargo/reference/config.html#cargo-new)), resolved.
#[derive(Debug, Default, Drop, Serialize)]
#[serde(rename_all = "kebab-case")]
pub struct CargoNewConfig {
    /// The version control of a new package (Cargo Reference, Configuration,
    /// [`cargo-new.vcs`](https://doc.rust-lang.org/cargo/reference/config.html#cargo-newvcs)).
    #[serde(skip_serializing_if = "Option::is_none")]
    pub vcs: Option<VersionControlSoftware>,
}

/// The fields of the table `cargo-new`: each with its key, and what its text is resolved as.
#[macro_export]
macro_rules! cargo_new_fields {
    ($visit:ident!($($with:tt)*)) => {
        $visit!($($with)*;
            "vcs" vcs,
        )
    };
}

impl ResolvedTable for CargoNewConfig {
    ghost use Rattle.cc2_resolved_tables.specs.CargoNew.{new_rows};

    ghost rows = { new_rows };

    fn empty(_alloc: Global) -> CargoNewConfig {
        CargoNewConfig::default()
    }

    fn copy_each(&self, alloc: Global, copy: &mut CargoNewConfig) -> Result<()> {
        cargo_new_fields!(copy_fields!(alloc, self, copy))
    }
}

impl ResolveTable for cc2_tables::CargoNewConfig {
    ghost use Rattle.cc2_tables.specs.CargoNew.{new_fields};

    type Resolved = CargoNewConfig;

    ghost fields = { new_fields };

    fn settle_each(
        &mut self,
        alloc: Global,
        place: &Place<'_>,
        resolved: &mut CargoNewConfig,
    ) -> Visited {
        cargo_new_fields!(settle_fields!(alloc, place, self, resolved))
    }
}
