//! What queries read of a loaded configuration: taken out of one, and put into another.
ghost use Rattle.std.specs.Prelude.{◌≡◌};
ghost use Rattle.cargo_config2.specs.Kept.{IsNoTargetKept};
ghost use Rattle.cargo_config2.specs.Queried.{IsOfQueried};
ghost use Rattle.cc2_rustc.specs.Kept.{IsNothingKept};

use crate::config::{Config, Loaded};
use cc2_de::ResolveContext;
use cc2_resolved::ResolvedTable;
use cc2_resolved::flags::Flags;
use cc2_resolved_tables::{BuildConfig, Tables};
use std::alloc::Global;
use std::collections::BTreeMap;

/// What queries for rustc, versions, the host and targets read of a loaded configuration, beside its context: the
/// tables below `target` as they were loaded, and some settings of `build`, resolved (Cargo Reference,
/// Configuration, [`[target]`](https://doc.rust-lang.org/cargo/reference/config.html#target),
/// [`[build]`](https://doc.rust-lang.org/cargo/reference/config.html#build)).
#[derive(Drop)]
pub struct Queried {
    /// The tables below `target`, by their keys.
    pub target: BTreeMap<String, cc2_de::TargetConfig>,
    /// Whether variables override the flags of targets.
    pub flags_overridden: bool,
    /// The same of the flags for rustdoc.
    pub doc_flags_overridden: bool,
    /// The setting `build.rustc`.
    pub rustc: Option<String>,
    /// The setting `build.rustc-wrapper`.
    pub rustc_wrapper: Option<String>,
    /// The setting `build.rustc-workspace-wrapper`.
    pub rustc_workspace_wrapper: Option<String>,
    /// The setting `build.rustflags`.
    pub rustflags: Option<Flags>,
    /// The setting `build.rustdocflags`.
    pub rustdocflags: Option<Flags>,
}

impl Config {
    /// The configuration that has this in a context, and nothing else: a query for rustc, a version, the host or a
    /// target answers as over the configuration that it was taken from. Nothing is cached.
    pub fn of_queried(alloc: Global, queried: Queried, context: ResolveContext) -> Config
        ensures queried { IsOfQueried queried result }
        ensures context { result.loaded.context ≡ context }
        ensures nothing_kept { IsNothingKept result.kept }
        ensures no_targets { IsNoTargetKept result }
    {
        let build = BuildConfig {
            rustc: queried.rustc,
            rustc_wrapper: queried.rustc_wrapper,
            rustc_workspace_wrapper: queried.rustc_workspace_wrapper,
            rustflags: queried.rustflags,
            rustdocflags: queried.rustdocflags,
            ..BuildConfig::default()
        };
        let tables = Tables {
            build,
            ..Tables::empty(alloc)
        };
        let loaded = Loaded {
            target: queried.target,
            flags_overridden: queried.flags_overridden,
            doc_flags_overridden: queried.doc_flags_overridden,
            context,
        };
        Config::new(alloc, tables, loaded)
    }

    /// The tables below `target` as they were loaded, by their keys: each value with where it was set (Cargo
    /// Reference, Configuration, [`[target]`](https://doc.rust-lang.org/cargo/reference/config.html#target)).
    pub fn target_tables(&self) -> &BTreeMap<String, cc2_de::TargetConfig>
        ensures { result.now ≡ self.now.loaded.target }
    {
        &self.loaded.target
    }

    /// Whether variables override the flags of targets: `RUSTFLAGS` or `CARGO_ENCODED_RUSTFLAGS` is set (Cargo
    /// Reference, Configuration,
    /// [`build.rustflags`](https://doc.rust-lang.org/cargo/reference/config.html#buildrustflags)).
    pub fn has_overridden_flags(&self) -> bool
        ensures { result ≡ self.now.loaded.flags_overridden }
    {
        self.loaded.flags_overridden
    }

    /// The same of the flags for rustdoc, by `RUSTDOCFLAGS` or `CARGO_ENCODED_RUSTDOCFLAGS` (Cargo Reference,
    /// Configuration,
    /// [`build.rustdocflags`](https://doc.rust-lang.org/cargo/reference/config.html#buildrustdocflags)).
    pub fn has_overridden_doc_flags(&self) -> bool
        ensures { result ≡ self.now.loaded.doc_flags_overridden }
    {
        self.loaded.doc_flags_overridden
    }
}
