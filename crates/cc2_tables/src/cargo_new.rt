//! The table `cargo-new`.
ghost use Rattle.cc2_tables.specs.CargoNew.{new_fields};

use cc2_error::error::{NoMemory, Result};
use cc2_leaf::{
    Fields, One, Rows, Section, Take, Value, VersionControlSoftware, Visit, VisitAlone, VisitRef,
    Visited, each, each_alone, each_ref, each_taken, into_row, is_unset, keys,
};
use serde::Serialize;
use std::alloc::Global;

/// The table `cargo-new` (Cargo Reference, Configuration,
/// [`[cargo-new]`](https://doc.rust-lang.org/cargo/reference/config.html#cargo-new)).
#[derive(Debug, Default, Drop, Serialize)]
#[serde(rename_all = "kebab-case")]
pub struct CargoNewConfig {
    /// The version control of a new package (Cargo Reference, Configuration,
    /// [`cargo-new.vcs`](https://doc.rust-lang.org/cargo/reference/config.html#cargo-newvcs)).
    #[serde(skip_serializing_if = "Option::is_none")]
    pub vcs: Option<Value<VersionControlSoftware>>,
}

macro_rules! fields {
    ($each:ident!($($head:tt)*)) => {
        $each!($($head)*;
            "vcs" vcs,
        )
    };
}

impl Fields for CargoNewConfig {
    ghost use Rattle.std.specs.Prelude.{refl};

    ghost fields = { new_fields };

    fn absent(_alloc: Global) -> CargoNewConfig {
        CargoNewConfig::default()
    }

    fn each<V: Visit>(&mut self, other: &mut CargoNewConfig, visit: &V) -> Visited {
        fields!(each!(visit, self, other))
    }

    fn each_ref<V: VisitRef>(&self, copy: &mut CargoNewConfig, visit: &V) -> Result<()> {
        fields!(each_ref!(visit, self, copy))
    }

    fn each_alone<V: VisitAlone>(&mut self, visit: &V) -> std::result::Result<(), NoMemory> {
        fields!(each_alone!(visit, self))
    }

    fn each_taken<V: Take>(&mut self, visit: &mut V) {
        fields!(each_taken!(visit, self))
    }

    fn is_unset(&self) -> bool {
        fields!(is_unset!(self))
    }

    ghost distinct = { refl };
}

impl Rows for CargoNewConfig {
    type Row = One<Option<Value<VersionControlSoftware>>>;

    fn keys() -> &'static [&'static str] {
        fields!(keys!())
    }

    fn into_row(self) -> Self::Row {
        fields!(into_row!(self))
    }
}

impl Section for CargoNewConfig {}
