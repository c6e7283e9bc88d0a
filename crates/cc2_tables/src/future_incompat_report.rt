//! The table `future-incompat-report`.
ghost use Rattle.cc2_tables.specs.FutureIncompatReport.{report_fields};

use cc2_error::error::{NoMemory, Result};
use cc2_leaf::{
    Fields, Frequency, One, Rows, Section, Take, Value, Visit, VisitAlone, VisitRef, Visited, When,
    each, each_alone, each_ref, each_taken, into_row, is_unset, keys,
};
use serde::Serialize;
use std::alloc::Global;

/// The table `future-incompat-report` (Cargo Reference, Configuration,
/// [`[future-incompat-report]`](https://doc.rust-lang.org/cargo/reference/config.html#future-incompat-report)).
#[derive(Debug, Default, Drop, Serialize)]
#[serde(rename_all = "kebab-case")]
pub struct FutureIncompatReportConfig {
    /// When to display that there is a report (Cargo Reference, Configuration,
    /// [`future-incompat-report.frequency`](https://doc.rust-lang.org/cargo/reference/config.html#future-incompat-reportfrequency)).
    #[serde(skip_serializing_if = "Option::is_none")]
    pub frequency: Option<Value<Frequency>>,
}

macro_rules! fields {
    ($each:ident!($($head:tt)*)) => {
        $each!($($head)*;
            "frequency" frequency,
        )
    };
}

impl Fields for FutureIncompatReportConfig {
    ghost use Rattle.std.specs.Prelude.{refl};

    ghost fields = { report_fields };

    fn absent(_alloc: Global) -> FutureIncompatReportConfig {
        FutureIncompatReportConfig::default()
    }

    fn each<V: Visit>(&mut self, other: &mut FutureIncompatReportConfig, visit: &V) -> Visited {
        fields!(each!(visit, self, other))
    }

    fn each_ref<V: VisitRef>(
        &self,
        copy: &mut FutureIncompatReportConfig,
        visit: &V,
    ) -> Result<()> {
        fields!(each_ref!(visit, self, copy))
    }

    fn each_alone<V: VisitAlone>(&mut self, visit: &V) -> std::result::Result<(), NoMemory> {
        fields!(each_alone!(visit, self))
    }

    fn each_taken<V: Take>(&mut self, visit: &mut V) {
        fields!(each_taken!(visit, self))
    }

    fn is_unset(&self) -> bool {
        fields!(is_unset!(self))
    }

    ghost distinct = { refl };
}

impl Rows for FutureIncompatReportConfig {
    type Row = One<Option<Value<Frequency>>>;

    fn keys() -> &'static [&'static str] {
        fields!(keys!())
    }

    fn into_row(self) -> Self::Row {
        fields!(into_row!(self))
    }
}

impl Section for FutureIncompatReportConfig {}
