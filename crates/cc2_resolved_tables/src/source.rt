//! A source of the table `source`, resolved.
use crate::settle_fields;
use crate::table::ResolveTable;
use cc2_error::error::Result;
use cc2_resolved::{Place, ResolvedTable, copy_fields};
use cc2_value::Visited;
use serde::Serialize;
use std::alloc::Global;

/// A source of the table `source` (Cargo Reference, Configuration,
/// [`[source]`](https://doc.rust-lang.org/cargo/reference/config.html#source)), resolved.
#[derive(Debug, Default, Drop, Serialize)]
#[serde(rename_all = "kebab-case")]
pub struct SourceConfigValue {
    /// The source that replaces it (Cargo Reference, Configuration,
    /// [`source.<name>.replace-with`](https://doc.rust-lang.org/cargo/reference/config.html#sourcenamereplace-with)).
    #[serde(skip_serializing_if = "Option::is_none")]
    pub replace_with: Option<String>,
    /// The folder of packages that it is (Cargo Reference, Configuration,
    /// [`source.<name>.directory`](https://doc.rust-lang.org/cargo/reference/config.html#sourcenamedirectory)).
    #[serde(skip_serializing_if = "Option::is_none")]
    pub directory: Option<String>,
    /// The address of the registry that it is (Cargo Reference, Configuration,
    /// [`source.<name>.registry`](https://doc.rust-lang.org/cargo/reference/config.html#sourcenameregistry)).
    #[serde(skip_serializing_if = "Option::is_none")]
    pub registry: Option<String>,
    /// The folder of the registry that it is (Cargo Reference, Configuration,
    /// [`source.<name>.local-registry`](https://doc.rust-lang.org/cargo/reference/config.html#sourcenamelocal-registry)).
    #[serde(skip_serializing_if = "Option::is_none")]
    pub local_registry: Option<String>,
    /// The address of the git repository that it is (Cargo Reference, Configuration,
    /// [`source.<name>.git`](https://doc.rust-lang.org/cargo/reference/config.html#sourcenamegit)).
    #[serde(skip_serializing_if = "Option::is_none")]
    pub git: Option<String>,
    /// The branch of the repository (Cargo Reference, Configuration,
    /// [`source.<name>.branch`](https://doc.rust-lang.org/cargo/reference/config.html#sourcenamebranch)).
    #[serde(skip_serializing_if = "Option::is_none")]
    pub branch: Option<String>,
    /// The tag of the repository (Cargo Reference, Configuration,
    /// [`source.<name>.tag`](https://doc.rust-lang.org/cargo/reference/config.html#sourcenametag)).
    #[serde(skip_serializing_if = "Option::is_none")]
    pub tag: Option<String>,
    /// The revision of the repository (Cargo Reference, Configuration,
    /// [`source.<name>.rev`](https://doc.rust-lang.org/cargo/reference/config.html#sourcenamerev)).
    #[serde(skip_serializing_if = "Option::is_none")]
    pub rev: Option<String>,
}

/// The fields of a member of `source`: each with its key, and what its text is resolved as.
#[macro_export]
macro_rules! source_fields {
    ($visit:ident!($($with:tt)*)) => {
        $visit!($($with)*;
            "replace-with" replace_with,
            "directory" directory Path,
            "registry" registry,
            "local-registry" local_registry Path,
            "git" git,
            "branch" branch,
            "tag" tag,
            "rev" rev,
        )
    };
}

impl ResolvedTable for SourceConfigValue {
    ghost use Rattle.cc2_resolved_tables.specs.Source.{source_rows};

    ghost rows = { source_rows };

    fn empty(_alloc: Global) -> SourceConfigValue {
        SourceConfigValue::default()
    }

    fn copy_each(&self, alloc: Global, copy: &mut SourceConfigValue) -> Result<()> {
        source_fields!(copy_fields!(alloc, self, copy))
    }
}

impl ResolveTable for cc2_tables::SourceConfigValue {
    ghost use Rattle.cc2_tables.specs.Source.{source_fields};

    type Resolved = SourceConfigValue;

    ghost fields = { source_fields };

    fn settle_each(
        &mut self,
        alloc: Global,
        place: &Place<'_>,
        resolved: &mut SourceConfigValue,
    ) -> Visited {
        source_fields!(settle_fields!(alloc, place, self, resolved))
    }
}
