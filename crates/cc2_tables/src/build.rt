//! The table `build`.
ghost use Rattle.cc2_tables.specs.Build.{build_fields};

use cc2_error::error::{NoMemory, Result};
use cc2_leaf::{
    Eight, Fields, Flags, Four, Pair, Rows, Section, StringOrArray, Take, Value, Visit, VisitAlone,
    VisitRef, Visited, each, each_alone, each_ref, each_taken, into_row, keys,
};
use serde::Serialize;
use std::alloc::Global;

/// The table `build` (Cargo Reference, Configuration,
/// [`[build]`](https://doc.rust-lang.org/cargo/reference/config.html#build)).
#[derive(Debug, Default, Drop, Serialize)]
#[serde(rename_all = "kebab-case")]
pub struct BuildConfig {
    /// How many jobs run side by side; a negative number is added to that of the logical processors
    /// (Cargo Reference, Configuration,
    /// [`build.jobs`](https://doc.rust-lang.org/cargo/reference/config.html#buildjobs)).
    #[serde(skip_serializing_if = "Option::is_none")]
    pub jobs: Option<Value<i32>>,
    /// The compiler (Cargo Reference, Configuration,
    /// [`build.rustc`](https://doc.rust-lang.org/cargo/reference/config.html#buildrustc)).
    #[serde(skip_serializing_if = "Option::is_none")]
    pub rustc: Option<Value<String>>,
    /// The program that is run in place of the compiler, with it as its first argument (Cargo
    /// Reference, Configuration,
    /// [`build.rustc-wrapper`](https://doc.rust-lang.org/cargo/reference/config.html#buildrustc-wrapper)).
    #[serde(skip_serializing_if = "Option::is_none")]
    pub rustc_wrapper: Option<Value<String>>,
    /// The same for members of the workspace alone (Cargo Reference, Configuration,
    /// [`build.rustc-workspace-wrapper`](https://doc.rust-lang.org/cargo/reference/config.html#buildrustc-workspace-wrapper)).
    #[serde(skip_serializing_if = "Option::is_none")]
    pub rustc_workspace_wrapper: Option<Value<String>>,
    /// The documentation generator (Cargo Reference, Configuration,
    /// [`build.rustdoc`](https://doc.rust-lang.org/cargo/reference/config.html#buildrustdoc)).
    #[serde(skip_serializing_if = "Option::is_none")]
    pub rustdoc: Option<Value<String>>,
    /// The targets to build for (Cargo Reference, Configuration,
    /// [`build.target`](https://doc.rust-lang.org/cargo/reference/config.html#buildtarget)).
    #[serde(skip_serializing_if = "Option::is_none")]
    pub target: Option<StringOrArray>,
    /// Where what is built goes (Cargo Reference, Configuration,
    /// [`build.target-dir`](https://doc.rust-lang.org/cargo/reference/config.html#buildtarget-dir)).
    #[serde(skip_serializing_if = "Option::is_none")]
    pub target_dir: Option<Value<String>>,
    /// Where the intermediate files of a build go (Cargo Reference, Configuration,
    /// [`build.build-dir`](https://doc.rust-lang.org/cargo/reference/config.html#buildbuild-dir)).
    #[serde(skip_serializing_if = "Option::is_none")]
    pub build_dir: Option<Value<String>>,
    /// Flags for every compiler run (Cargo Reference, Configuration,
    /// [`build.rustflags`](https://doc.rust-lang.org/cargo/reference/config.html#buildrustflags)).
    #[serde(skip_serializing_if = "Option::is_none")]
    pub rustflags: Option<Flags>,
    /// Flags for every run of the documentation generator (Cargo Reference, Configuration,
    /// [`build.rustdocflags`](https://doc.rust-lang.org/cargo/reference/config.html#buildrustdocflags)).
    #[serde(skip_serializing_if = "Option::is_none")]
    pub rustdocflags: Option<Flags>,
    /// Whether to compile incrementally (Cargo Reference, Configuration,
    /// [`build.incremental`](https://doc.rust-lang.org/cargo/reference/config.html#buildincremental)).
    #[serde(skip_serializing_if = "Option::is_none")]
    pub incremental: Option<Value<bool>>,
    /// The prefix that is taken off paths in dep-info files (Cargo Reference, Configuration,
    /// [`build.dep-info-basedir`](https://doc.rust-lang.org/cargo/reference/config.html#builddep-info-basedir)).
    #[serde(skip_serializing_if = "Option::is_none")]
    pub dep_info_basedir: Option<Value<String>>,
}

/// The fields of the table `build`, each with its key.
#[macro_export]
macro_rules! build_fields {
    ($each:ident!($($head:tt)*)) => {
        $each!($($head)*;
            "jobs" jobs,
            "rustc" rustc,
            "rustc-wrapper" rustc_wrapper,
            "rustc-workspace-wrapper" rustc_workspace_wrapper,
            "rustdoc" rustdoc,
            "target" target,
            "target-dir" target_dir,
            "build-dir" build_dir,
            "rustflags" rustflags,
            "rustdocflags" rustdocflags,
            "incremental" incremental,
            "dep-info-basedir" dep_info_basedir,
        )
    };
}

impl Fields for BuildConfig {
    ghost use Rattle.std.specs.Prelude.{refl};

    ghost fields = { build_fields };

    fn absent(_alloc: Global) -> BuildConfig {
        BuildConfig::default()
    }

    fn each<V: Visit>(&mut self, other: &mut BuildConfig, visit: &V) -> Visited {
        build_fields!(each!(visit, self, other))
    }

    fn each_ref<V: VisitRef>(&self, copy: &mut BuildConfig, visit: &V) -> Result<()> {
        build_fields!(each_ref!(visit, self, copy))
    }

    fn each_alone<V: VisitAlone>(&mut self, visit: &V) -> std::result::Result<(), NoMemory> {
        build_fields!(each_alone!(visit, self))
    }

    fn each_taken<V: Take>(&mut self, visit: &mut V) {
        build_fields!(each_taken!(visit, self))
    }

    ghost distinct = { refl };
}

impl Rows for BuildConfig {
    type Row = Pair<
        Eight<
            Option<Value<i32>>,
            Option<Value<String>>,
            Option<Value<String>>,
            Option<Value<String>>,
            Option<Value<String>>,
            Option<StringOrArray>,
            Option<Value<String>>,
            Option<Value<String>>,
        >,
        Four<Option<Flags>, Option<Flags>, Option<Value<bool>>, Option<Value<String>>>,
    >;

    fn keys() -> &'static [&'static str] {
        build_fields!(keys!())
    }

    fn into_row(self) -> Self::Row {
        build_fields!(into_row!(self))
    }
}

impl Section for BuildConfig {}
