//! The settings of a target, resolved.
use crate::copy_fields;
use crate::flags::Flags;
use crate::resolved_table::ResolvedTable;
use cc2_error::error::Result;
use cc2_error::path_and_args::PathAndArgs;
use serde::Serialize;
use std::alloc::Global;

/// The settings of a target (Cargo Reference, Configuration,
/// [`[target]`](https://doc.rust-lang.org/cargo/reference/config.html#target)), resolved.
#[derive(Debug, Default, Drop, Serialize)]
#[serde(rename_all = "kebab-case")]
pub struct TargetConfig {
    /// The linker (Cargo Reference, Configuration,
    /// [`target.<triple>.linker`](https://doc.rust-lang.org/cargo/reference/config.html#targettriplelinker)).
    #[serde(skip_serializing_if = "Option::is_none")]
    pub linker: Option<String>,
    /// The program that runs what is built, with its arguments (Cargo Reference, Configuration,
    /// [`target.<triple>.runner`](https://doc.rust-lang.org/cargo/reference/config.html#targettriplerunner)).
    #[serde(skip_serializing_if = "Option::is_none")]
    pub runner: Option<PathAndArgs>,
    /// Flags for every rustc (Cargo Reference, Configuration,
    /// [`target.<triple>.rustflags`](https://doc.rust-lang.org/cargo/reference/config.html#targettriplerustflags)).
    #[serde(skip_serializing_if = "Option::is_none")]
    pub rustflags: Option<Flags>,
    /// Flags for every rustdoc (Cargo Reference, Configuration,
    /// [`target.<triple>.rustdocflags`](https://doc.rust-lang.org/cargo/reference/config.html#targettriplerustdocflags)).
    #[serde(skip_serializing_if = "Option::is_none")]
    pub rustdocflags: Option<Flags>,
}

impl ResolvedTable for TargetConfig {
    ghost use Rattle.cc2_resolved.specs.TargetConfigs.{target_rows};

    ghost rows = { target_rows };

    fn empty(_alloc: Global) -> TargetConfig {
        TargetConfig::default()
    }

    fn copy_each(&self, alloc: Global, copy: &mut TargetConfig) -> Result<()> {
        copy_fields!(alloc, self, copy;
            linker,
            runner,
            rustflags,
            rustdocflags,
        )
    }
}
