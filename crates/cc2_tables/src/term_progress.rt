//! The table `term.progress`.
ghost use Rattle.cc2_tables.specs.TermProgress.{progress_fields};

use cc2_error::error::{NoMemory, Result};
use cc2_leaf::{
    Fields, Rows, Section, Take, Two, Value, Visit, VisitAlone, VisitRef, Visited, When, each,
    each_alone, each_ref, each_taken, into_row, is_unset, keys,
};
use serde::Serialize;
use std::alloc::Global;

/// The table `term.progress` (Cargo Reference, Configuration,
/// [`[term]`](https://doc.rust-lang.org/cargo/reference/config.html#term)).
#[derive(Debug, Default, Drop, Serialize)]
#[serde(rename_all = "kebab-case")]
pub struct TermProgress {
    /// When the progress bar is shown (Cargo Reference, Configuration,
    /// [`term.progress.when`](https://doc.rust-lang.org/cargo/reference/config.html#termprogresswhen)).
    #[serde(skip_serializing_if = "Option::is_none")]
    pub when: Option<Value<When>>,
    /// How many columns it has (Cargo Reference, Configuration,
    /// [`term.progress.width`](https://doc.rust-lang.org/cargo/reference/config.html#termprogresswidth)).
    #[serde(skip_serializing_if = "Option::is_none")]
    pub width: Option<Value<u32>>,
}

macro_rules! fields {
    ($each:ident!($($head:tt)*)) => {
        $each!($($head)*;
            "when" when,
            "width" width,
        )
    };
}

impl Fields for TermProgress {
    ghost use Rattle.std.specs.Prelude.{refl};

    ghost fields = { progress_fields };

    fn absent(_alloc: Global) -> TermProgress {
        TermProgress::default()
    }

    fn each<V: Visit>(&mut self, other: &mut TermProgress, visit: &V) -> Visited {
        fields!(each!(visit, self, other))
    }

    fn each_ref<V: VisitRef>(&self, copy: &mut TermProgress, visit: &V) -> Result<()> {
        fields!(each_ref!(visit, self, copy))
    }

    fn each_alone<V: VisitAlone>(&mut self, visit: &V) -> std::result::Result<(), NoMemory> {
        fields!(each_alone!(visit, self))
    }

    fn each_taken<V: Take>(&mut self, visit: &mut V) {
        fields!(each_taken!(visit, self))
    }

    fn is_unset(&self) -> bool {
        fields!(is_unset!(self))
    }

    ghost distinct = { refl };
}

impl Rows for TermProgress {
    type Row = Two<Option<Value<When>>, Option<Value<u32>>>;

    fn keys() -> &'static [&'static str] {
        fields!(keys!())
    }

    fn into_row(self) -> Self::Row {
        fields!(into_row!(self))
    }
}

impl Section for TermProgress {}
