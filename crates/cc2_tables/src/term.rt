//! The table `term`.
ghost use Rattle.cc2_tables.specs.Term.{term_fields};

use crate::term_progress::TermProgress;
use cc2_error::error::{NoMemory, Result};
use cc2_leaf::{
    Color, Fields, Four, Rows, Section, Take, Value, Visit, VisitAlone, VisitRef, Visited, When,
    each, each_alone, each_ref, each_taken, into_row, is_unset, keys, prints_nothing,
};
use serde::Serialize;
use std::alloc::Global;

/// The table `term` (Cargo Reference, Configuration,
/// [`[term]`](https://doc.rust-lang.org/cargo/reference/config.html#term)).
#[derive(Debug, Default, Drop, Serialize)]
#[serde(rename_all = "kebab-case")]
pub struct TermConfig {
    /// Whether messages are left out (Cargo Reference, Configuration,
    /// [`term.quiet`](https://doc.rust-lang.org/cargo/reference/config.html#termquiet)).
    #[serde(skip_serializing_if = "Option::is_none")]
    pub quiet: Option<Value<bool>>,
    /// Whether output is verbose (Cargo Reference, Configuration,
    /// [`term.verbose`](https://doc.rust-lang.org/cargo/reference/config.html#termverbose)).
    #[serde(skip_serializing_if = "Option::is_none")]
    pub verbose: Option<Value<bool>>,
    /// When output has colour (Cargo Reference, Configuration,
    /// [`term.color`](https://doc.rust-lang.org/cargo/reference/config.html#termcolor)).
    #[serde(skip_serializing_if = "Option::is_none")]
    pub color: Option<Value<Color>>,
    /// The progress bar (Cargo Reference, Configuration,
    /// [`[term]`](https://doc.rust-lang.org/cargo/reference/config.html#term)).
    #[serde(skip_serializing_if = "prints_nothing")]
    pub progress: TermProgress,
}

macro_rules! fields {
    ($each:ident!($($head:tt)*)) => {
        $each!($($head)*;
            "quiet" quiet,
            "verbose" verbose,
            "color" color,
            "progress" progress,
        )
    };
}

impl Fields for TermConfig {
    ghost use Rattle.std.specs.Prelude.{refl};

    ghost fields = { term_fields };

    fn absent(_alloc: Global) -> TermConfig {
        TermConfig::default()
    }

    fn each<V: Visit>(&mut self, other: &mut TermConfig, visit: &V) -> Visited {
        fields!(each!(visit, self, other))
    }

    fn each_ref<V: VisitRef>(&self, copy: &mut TermConfig, visit: &V) -> Result<()> {
        fields!(each_ref!(visit, self, copy))
    }

    fn each_alone<V: VisitAlone>(&mut self, visit: &V) -> std::result::Result<(), NoMemory> {
        fields!(each_alone!(visit, self))
    }

    fn each_taken<V: Take>(&mut self, visit: &mut V) {
        fields!(each_taken!(visit, self))
    }

    fn is_unset(&self) -> bool {
        fields!(is_unset!(self))
    }

    ghost distinct = { refl };
}

impl Rows for TermConfig {
    type Row = Four<Option<Value<bool>>, Option<Value<bool>>, Option<Value<Color>>, TermProgress>;

    fn keys() -> &'static [&'static str] {
        fields!(keys!())
    }

    fn into_row(self) -> Self::Row {
        fields!(into_row!(self))
    }
}

impl Section for TermConfig {}
