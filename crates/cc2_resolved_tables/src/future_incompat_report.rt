//! The table `future-incompat-report`, resolved.
use crate::settle_fields;
use crate::table::ResolveTable;
use cc2_error::error::Result;
use cc2_leaf::Frequency;
use cc2_resolved::{Place, ResolvedTable, copy_fields};
use cc2_value::Visited;
use serde::Serialize;
use std::alloc::Global;

/// The table `future-incompat-report` (Cargo Reference, Configuration,
/// [`[future-incompat-report]`](https://doc.rust-lang.org/cargo/reference/config.html#future-incompat-report)),
/// resolved.
#[derive(Debug, Default, Drop, Serialize)]
#[serde(rename_all = "kebab-case")]
pub struct FutureIncompatReportConfig {
    /// When to tell that there is a report (Cargo Reference, Configuration,
    /// [`future-incompat-report.frequency`](https://doc.rust-lang.org/cargo/reference/config.html#future-incompat-reportfrequency)).
    #[serde(skip_serializing_if = "Option::is_none")]
    pub frequency: Option<Frequency>,
}

/// The fields of the table `future-incompat-report`: each with its key, and what its text is resolved as.
#[macro_export]
macro_rules! future_incompat_report_fields {
    ($visit:ident!($($with:tt)*)) => {
        $visit!($($with)*;
            "frequency" frequency,
        )
    };
}

impl ResolvedTable for FutureIncompatReportConfig {
    ghost use Rattle.cc2_resolved_tables.specs.FutureIncompatReport.{report_rows};

    ghost rows = { report_rows };

    fn empty(_alloc: Global) -> FutureIncompatReportConfig {
        FutureIncompatReportConfig::default()
    }

    fn copy_each(&self, alloc: Global, copy: &mut FutureIncompatReportConfig) -> Result<()> {
        future_incompat_report_fields!(copy_fields!(alloc, self, copy))
    }
}

impl ResolveTable for cc2_tables::FutureIncompatReportConfig {
    ghost use Rattle.cc2_tables.specs.FutureIncompatReport.{report_fields};

    type Resolved = FutureIncompatReportConfig;

    ghost fields = { report_fields };

    fn settle_each(
        &mut self,
        alloc: Global,
        place: &Place<'_>,
        resolved: &mut FutureIncompatReportConfig,
    ) -> Visited {
        future_incompat_report_fields!(settle_fields!(alloc, place, self, resolved))
    }
}
