//! The table `doc`, resolved.
use crate::settle_fields;
use crate::table::ResolveTable;
use cc2_error::error::Result;
use cc2_error::path_and_args::PathAndArgs;
use cc2_resolved::{Place, ResolvedTable, copy_fields};
use cc2_value::Visited;
use serde::Serialize;
use std::alloc::Global;

/// The table `doc` (Cargo Reference, Configuration,
/// [`[doc]`](https://doc.rust-lang.org/cargo/reference/config.html#doc)), resolved.
#[derive(Debug, Default, Drop, Serialize)]
#[serde(rename_all = "kebab-case")]
pub struct DocConfig {
    /// The browser that opens documentation (Cargo Reference, Configuration,
    /// [`doc.browser`](https://doc.rust-lang.org/cargo/reference/config.html#docbrowser)).
    #[serde(skip_serializing_if = "Option::is_none")]
    pub browser: Option<PathAndArgs>,
}

/// The fields of the table `doc`: each with its key, and what its text is resolved as.
#[macro_export]
macro_rules! doc_fields {
    ($visit:ident!($($with:tt)*)) => {
        $visit!($($with)*;
            "browser" browser,
        )
    };
}

impl ResolvedTable for DocConfig {
    ghost use Rattle.cc2_resolved_tables.specs.Doc.{doc_rows};

    ghost rows = { doc_rows };

    fn empty(_alloc: Global) -> DocConfig {
        DocConfig::default()
    }

    fn copy_each(&self, alloc: Global, copy: &mut DocConfig) -> Result<()> {
        doc_fields!(copy_fields!(alloc, self, copy))
    }
}

impl ResolveTable for cc2_tables::DocConfig {
    ghost use Rattle.cc2_tables.specs.Doc.{doc_fields};

    type Resolved = DocConfig;

    ghost fields = { doc_fields };

    fn settle_each(
        &mut self,
        alloc: Global,
        place: &Place<'_>,
        resolved: &mut DocConfig,
    ) -> Visited {
        doc_fields!(settle_fields!(alloc, place, self, resolved))
    }
}
