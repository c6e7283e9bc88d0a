//! The table `term.progress`, resolved.
use crate::settle_fields;
use crate::table::ResolveTable;
use cc2_error::error::Result;
use cc2_leaf::When;
use cc2_resolved::{Place, ResolvedTable, copy_fields};
use cc2_value::Visited;
use serde::Serialize;
use std::alloc::Global;

/// The table `term.progress` (Cargo Reference, Configuration,
/// [`[term]`](https://doc.rust-lang.org/cargo/reference/config.html#term)), resolved.
#[derive(Debug, Default, Drop, Serialize)]
#[serde(rename_all = "kebab-case")]
pub struct TermProgressConfig {
    /// When the progress bar is shown (Cargo Reference, Configuration,
    /// [`term.progress.when`](https://doc.rust-lang.org/cargo/reference/config.html#termprogresswhen)).
    #[serde(skip_serializing_if = "Option::is_none")]
    pub when: Option<When>,
    /// How many columns it has (Cargo Reference, Configuration,
    /// [`term.progress.width`](https://doc.rust-lang.org/cargo/reference/config.html#termprogresswidth)).
    #[serde(skip_serializing_if = "Option::is_none")]
    pub width: Option<u32>,
}

/// The fields of the table `term.progress`: each with its key, and what its text is resolved as.
#[macro_export]
macro_rules! term_progress_fields {
    ($visit:ident!($($with:tt)*)) => {
        $visit!($($with)*;
            "when" when,
            "width" width,
        )
    };
}

impl ResolvedTable for TermProgressConfig {
    ghost use Rattle.cc2_resolved_tables.specs.TermProgress.{progress_rows};

    ghost rows = { progress_rows };

    fn empty(_alloc: Global) -> TermProgressConfig {
        TermProgressConfig::default()
    }

    fn copy_each(&self, alloc: Global, copy: &mut TermProgressConfig) -> Result<()> {
        term_progress_fields!(copy_fields!(alloc, self, copy))
    }
}

impl ResolveTable for cc2_tables::TermProgress {
    ghost use Rattle.cc2_tables.specs.TermProgress.{progress_fields};

    type Resolved = TermProgressConfig;

    ghost fields = { progress_fields };

    fn settle_each(
        &mut self,
        alloc: Global,
        place: &Place<'_>,
        resolved: &mut TermProgressConfig,
    ) -> Visited {
        term_progress_fields!(settle_fields!(alloc, place, self, resolved))
    }
}
