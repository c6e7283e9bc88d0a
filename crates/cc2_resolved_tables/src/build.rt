//! The table `build`, resolved.
use crate::settle_fields;
use crate::table::ResolveTable;
use cc2_error::error::Result;
use cc2_resolved::flags::Flags;
use cc2_resolved::target_triple::TargetTriple;
use cc2_resolved::{Place, ResolvedTable, copy_fields};
use cc2_value::Visited;
use serde::Serialize;
use std::alloc::Global;

/// The table `build` (Cargo Reference, Configuration,
/// [`[build]`](https://doc.rust-lang.org/cargo/reference/config.html#build)), resolved.
#[derive(Debug, Default, Drop, Serialize)]
#[serde(rename_all = "kebab-case")]
pub struct BuildConfig {
    /// How many jobs run side by side; a negative number is added to that of the logical processors
    /// (Cargo Reference, Configuration,
    /// [`build.jobs`](https://doc.rust-lang.org/cargo/reference/config.html#buildjobs)).
    #[serde(skip_serializing_if = "Option::is_none")]
    pub jobs: Option<i32>,
    /// The compiler (Cargo Reference, Configuration,
    /// [`build.rustc`](https://doc.rust-lang.org/cargo/reference/config.html#buildrustc)).
    #[serde(skip_serializing_if = "Option::is_none")]
    pub rustc: Option<String>,
    /// The program that is run in place of the compiler, with it as its first argument (Cargo
    /// Reference, Configuration,
    /// [`build.rustc-wrapper`](https://doc.rust-lang.org/cargo/reference/config.html#buildrustc-wrapper)).
    #[serde(skip_serializing_if = "Option::is_none")]
    pub rustc_wrapper: Option<String>,
    /// The same for members of the workspace alone (Cargo Reference, Configuration,
    /// [`build.rustc-workspace-wrapper`](https://doc.rust-lang.org/cargo/reference/config.html#buildrustc-workspace-wrapper)).
    #[serde(skip_serializing_if = "Option::is_none")]
    pub rustc_workspace_wrapper: Option<String>,
    /// The documentation generator (Cargo Reference, Configuration,
    /// [`build.rustdoc`](https://doc.rust-lang.org/cargo/reference/config.html#buildrustdoc)).
    #[serde(skip_serializing_if = "Option::is_none")]
    pub rustdoc: Option<String>,
    /// The targets to build for (Cargo Reference, Configuration,
    /// [`build.target`](https://doc.rust-lang.org/cargo/reference/config.html#buildtarget)).
    #[serde(skip_serializing_if = "Option::is_none")]
    pub target: Option<Vec<TargetTriple>>,
    /// Where what is built goes (Cargo Reference, Configuration,
    /// [`build.target-dir`](https://doc.rust-lang.org/cargo/reference/config.html#buildtarget-dir)).
    #[serde(skip_serializing_if = "Option::is_none")]
    pub target_dir: Option<String>,
    /// Where the intermediate files of a build go (Cargo Reference, Configuration,
    /// [`build.build-dir`](https://doc.rust-lang.org/cargo/reference/config.html#buildbuild-dir)).
    /// A text that begins with `{workspace-root}` or `{cargo-cache-home}` stays as it was set.
    #[serde(skip_serializing_if = "Option::is_none")]
    pub build_dir: Option<String>,
    /// Flags for every compiler run (Cargo Reference, Configuration,
    /// [`build.rustflags`](https://doc.rust-lang.org/cargo/reference/config.html#buildrustflags)).
    #[serde(skip_serializing_if = "Option::is_none")]
    pub rustflags: Option<Flags>,
    /// Flags for every run of the documentation generator (Cargo Reference, Configuration,
    /// [`build.rustdocflags`](https://doc.rust-lang.org/cargo/reference/config.html#buildrustdocflags)).
    #[serde(skip_serializing_if = "Option::is_none")]
    pub rustdocflags: Option<Flags>,
    /// Whether to compile incrementally (Cargo Reference, Configuration,
    /// [`build.incremental`](https://doc.rust-lang.org/cargo/reference/config.html#buildincremental)).
    #[serde(skip_serializing_if = "Option::is_none")]
    pub incremental: Option<bool>,
    /// The prefix that is taken off paths in dep-info files (Cargo Reference, Configuration,
    /// [`build.dep-info-basedir`](https://doc.rust-lang.org/cargo/reference/config.html#builddep-info-basedir)).
    #[serde(skip_serializing_if = "Option::is_none")]
    pub dep_info_basedir: Option<String>,
}

/// The fields of the table `build`: each with its key, and what its text is resolved as.
#[macro_export]
macro_rules! build_fields {
    ($visit:ident!($($with:tt)*)) => {
        $visit!($($with)*;
            "jobs" jobs,
            "rustc" rustc Program,
            "rustc-wrapper" rustc_wrapper Program,
            "rustc-workspace-wrapper" rustc_workspace_wrapper Program,
            "rustdoc" rustdoc Program,
            "target" target,
            "target-dir" target_dir Path,
            "build-dir" build_dir BuildDir,
            "rustflags" rustflags,
            "rustdocflags" rustdocflags,
            "incremental" incremental,
            "dep-info-basedir" dep_info_basedir Path,
        )
    };
}

impl ResolvedTable for BuildConfig {
    ghost use Rattle.cc2_resolved_tables.specs.Build.{build_rows};

    ghost rows = { build_rows };

    fn empty(_alloc: Global) -> BuildConfig {
        BuildConfig::default()
    }

    fn copy_each(&self, alloc: Global, copy: &mut BuildConfig) -> Result<()> {
        build_fields!(copy_fields!(alloc, self, copy))
    }
}

impl ResolveTable for cc2_tables::BuildConfig {
    ghost use Rattle.cc2_tables.specs.Build.{build_fields};

    type Resolved = BuildConfig;

    ghost fields = { build_fields };

    fn settle_each(
        &mut self,
        alloc: Global,
        place: &Place<'_>,
        resolved: &mut BuildConfig,
    ) -> Visited {
        build_fields!(settle_fields!(alloc, place, self, resolved))
    }
}
