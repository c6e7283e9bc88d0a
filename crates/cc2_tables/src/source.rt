//! A source of the table `source`.
ghost use Rattle.std.specs.Prelude.{◌≡◌, None, true};
ghost use Rattle.cc2_value.specs.Cells.{KeyPath};
ghost use Rattle.cc2_value.specs.Shown.{fields_at};
ghost use Rattle.cc2_tables.specs.Source.{source_fields};

use cc2_error::error::{NoMemory, Result};
use cc2_leaf::{
    Eight, Fields, Rows, Table, Take, Value, Visit, VisitAlone, VisitRef, Visited, each,
    each_alone, each_ref, each_taken, into_row, keys,
};
use serde::Serialize;
use std::alloc::Global;

/// A source of the table `source` (Cargo Reference, Configuration,
/// [`[source]`](https://doc.rust-lang.org/cargo/reference/config.html#source)).
#[derive(Debug, Default, Drop, Serialize)]
#[serde(rename_all = "kebab-case")]
pub struct SourceConfigValue {
    /// The source that replaces it (Cargo Reference, Configuration,
    /// [`source.<name>.replace-with`](https://doc.rust-lang.org/cargo/reference/config.html#sourcenamereplace-with)).
    #[serde(skip_serializing_if = "Option::is_none")]
    pub replace_with: Option<Value<String>>,
    /// The folder of packages that it is (Cargo Reference, Configuration,
    /// [`source.<name>.directory`](https://doc.rust-lang.org/cargo/reference/config.html#sourcenamedirectory)).
    #[serde(skip_serializing_if = "Option::is_none")]
    pub directory: Option<Value<String>>,
    /// The address of the registry that it is (Cargo Reference, Configuration,
    /// [`source.<name>.registry`](https://doc.rust-lang.org/cargo/reference/config.html#sourcenameregistry)).
    #[serde(skip_serializing_if = "Option::is_none")]
    pub registry: Option<Value<String>>,
    /// The folder of the registry that it is (Cargo Reference, Configuration,
    /// [`source.<name>.local-registry`](https://doc.rust-lang.org/cargo/reference/config.html#sourcenamelocal-registry)).
    #[serde(skip_serializing_if = "Option::is_none")]
    pub local_registry: Option<Value<String>>,
    /// The address of the git repository that it is (Cargo Reference, Configuration,
    /// [`source.<name>.git`](https://doc.rust-lang.org/cargo/reference/config.html#sourcenamegit)).
    #[serde(skip_serializing_if = "Option::is_none")]
    pub git: Option<Value<String>>,
    /// The branch of the repository (Cargo Reference, Configuration,
    /// [`source.<name>.branch`](https://doc.rust-lang.org/cargo/reference/config.html#sourcenamebranch)).
    #[serde(skip_serializing_if = "Option::is_none")]
    pub branch: Option<Value<String>>,
    /// The tag of the repository (Cargo Reference, Configuration,
    /// [`source.<name>.tag`](https://doc.rust-lang.org/cargo/reference/config.html#sourcenametag)).
    #[serde(skip_serializing_if = "Option::is_none")]
    pub tag: Option<Value<String>>,
    /// The revision of the repository (Cargo Reference, Configuration,
    /// [`source.<name>.rev`](https://doc.rust-lang.org/cargo/reference/config.html#sourcenamerev)).
    #[serde(skip_serializing_if = "Option::is_none")]
    pub rev: Option<Value<String>>,
}

macro_rules! fields {
    ($each:ident!($($head:tt)*)) => {
        $each!($($head)*;
            "replace-with" replace_with,
            "directory" directory,
            "registry" registry,
            "local-registry" local_registry,
            "git" git,
            "branch" branch,
            "tag" tag,
            "rev" rev,
        )
    };
}

impl Fields for SourceConfigValue {
    ghost use Rattle.std.specs.Prelude.{refl};

    ghost fields = { source_fields };

    fn absent(_alloc: Global) -> SourceConfigValue {
        SourceConfigValue::default()
    }

    fn each<V: Visit>(&mut self, other: &mut SourceConfigValue, visit: &V) -> Visited {
        fields!(each!(visit, self, other))
    }

    fn each_ref<V: VisitRef>(&self, copy: &mut SourceConfigValue, visit: &V) -> Result<()> {
        fields!(each_ref!(visit, self, copy))
    }

    fn each_alone<V: VisitAlone>(&mut self, visit: &V) -> std::result::Result<(), NoMemory> {
        fields!(each_alone!(visit, self))
    }

    fn each_taken<V: Take>(&mut self, visit: &mut V) {
        fields!(each_taken!(visit, self))
    }

    ghost distinct = { refl };
}

impl Rows for SourceConfigValue {
    type Row = Eight<
        Option<Value<String>>,
        Option<Value<String>>,
        Option<Value<String>>,
        Option<Value<String>>,
        Option<Value<String>>,
        Option<Value<String>>,
        Option<Value<String>>,
        Option<Value<String>>,
    >;

    fn keys() -> &'static [&'static str] {
        fields!(keys!())
    }

    fn into_row(self) -> Self::Row {
        fields!(into_row!(self))
    }
}

impl Table for SourceConfigValue {
    ghost member = { true };
}

impl SourceConfigValue {
    /// Nothing in it. It takes no memory.
    pub fn empty(alloc: Global) -> SourceConfigValue
        ensures { (p : KeyPath) → fields_at source_fields result p ≡ None }
    {
        SourceConfigValue::absent(alloc)
    }
}
