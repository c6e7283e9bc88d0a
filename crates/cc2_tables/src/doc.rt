//! The table `doc`.
ghost use Rattle.cc2_tables.specs.Doc.{doc_fields};

use cc2_error::error::{NoMemory, Result};
use cc2_leaf::{
    Fields, One, PathAndArgs, Rows, Section, Take, Visit, VisitAlone, VisitRef, Visited, each,
    each_alone, each_ref, each_taken, into_row, is_unset, keys,
};
use serde::Serialize;
use std::alloc::Global;

/// The table `doc` (Cargo Reference, Configuration,
/// [`[doc]`](https://doc.rust-lang.org/cargo/reference/config.html#doc)).
#[derive(Debug, Default, Drop, Serialize)]
#[serde(rename_all = "kebab-case")]
pub struct DocConfig {
    /// The browser that opens documentation (Cargo Reference, Configuration,
    /// [`doc.browser`](https://doc.rust-lang.org/cargo/reference/config.html#docbrowser)).
    #[serde(skip_serializing_if = "Option::is_none")]
    pub browser: Option<PathAndArgs>,
}

macro_rules! fields {
    ($each:ident!($($head:tt)*)) => {
        $each!($($head)*;
            "browser" browser,
        )
    };
}

impl Fields for DocConfig {
    ghost use Rattle.std.specs.Prelude.{refl};

    ghost fields = { doc_fields };

    fn absent(_alloc: Global) -> DocConfig {
        DocConfig::default()
    }

    fn each<V: Visit>(&mut self, other: &mut DocConfig, visit: &V) -> Visited {
        fields!(each!(visit, self, other))
    }

    fn each_ref<V: VisitRef>(&self, copy: &mut DocConfig, visit: &V) -> Result<()> {
        fields!(each_ref!(visit, self, copy))
    }

    fn each_alone<V: VisitAlone>(&mut self, visit: &V) -> std::result::Result<(), NoMemory> {
        fields!(each_alone!(visit, self))
    }

    fn each_taken<V: Take>(&mut self, visit: &mut V) {
        fields!(each_taken!(visit, self))
    }

    fn is_unset(&self) -> bool {
        fields!(is_unset!(self))
    }

    ghost distinct = { refl };
}

impl Rows for DocConfig {
    type Row = One<Option<PathAndArgs>>;

    fn keys() -> &'static [&'static str] {
        fields!(keys!())
    }

    fn into_row(self) -> Self::Row {
        fields!(into_row!(self))
    }
}

impl Section for DocConfig {}
