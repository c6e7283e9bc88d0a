//! The table `term`, resolved.
use crate::settle_fields;
use crate::table::ResolveTable;
use crate::term_progress::TermProgressConfig;
use cc2_error::error::Result;
use cc2_leaf::Color;
use cc2_resolved::{Place, ResolvedTable, copy_fields};
use cc2_value::{Visited, prints_nothing};
use serde::Serialize;
use std::alloc::Global;

/// The table `term` (Cargo Reference, Configuration,
/// [`[term]`](https://doc.rust-lang.org/cargo/reference/config.html#term)), resolved.
#[derive(Debug, Default, Drop, Serialize)]
#[serde(rename_all = "kebab-case")]
pub struct TermConfig {
    /// Whether messages are left out (Cargo Reference, Configuration,
    /// [`term.quiet`](https://doc.rust-lang.org/cargo/reference/config.html#termquiet)).
    #[serde(skip_serializing_if = "Option::is_none")]
    pub quiet: Option<bool>,
    /// Whether more is printed (Cargo Reference, Configuration,
    /// [`term.verbose`](https://doc.rust-lang.org/cargo/reference/config.html#termverbose)).
    #[serde(skip_serializing_if = "Option::is_none")]
    pub verbose: Option<bool>,
    /// When output has colour (Cargo Reference, Configuration,
    /// [`term.color`](https://doc.rust-lang.org/cargo/reference/config.html#termcolor)).
    #[serde(skip_serializing_if = "Option::is_none")]
    pub color: Option<Color>,
    /// The progress bar (Cargo Reference, Configuration,
    /// [`[term]`](https://doc.rust-lang.org/cargo/reference/config.html#term)).
    #[serde(skip_serializing_if = "prints_nothing")]
    pub progress: TermProgressConfig,
}

/// The fields of the table `term`: each with its key, and what its text is resolved as.
#[macro_export]
macro_rules! term_fields {
    ($visit:ident!($($with:tt)*)) => {
        $visit!($($with)*;
            "quiet" quiet,
            "verbose" verbose,
            "color" color,
            "progress" progress,
        )
    };
}

impl ResolvedTable for TermConfig {
    ghost use Rattle.cc2_resolved_tables.specs.Term.{term_rows};

    ghost rows = { term_rows };

    fn empty(_alloc: Global) -> TermConfig {
        TermConfig::default()
    }

    fn copy_each(&self, alloc: Global, copy: &mut TermConfig) -> Result<()> {
        term_fields!(copy_fields!(alloc, self, copy))
    }
}

impl ResolveTable for cc2_tables::TermConfig {
    ghost use Rattle.cc2_tables.specs.Term.{term_fields};

    type Resolved = TermConfig;

    ghost fields = { term_fields };

    fn settle_each(
        &mut self,
        alloc: Global,
        place: &Place<'_>,
        resolved: &mut TermConfig,
    ) -> Visited {
        term_fields!(settle_fields!(alloc, place, self, resolved))
    }
}
