//! The tables of a configuration, resolved.

use crate::build::BuildConfig;
use crate::cargo_new::CargoNewConfig;
use crate::doc::DocConfig;
use crate::future_incompat_report::FutureIncompatReportConfig;
use crate::http::HttpConfig;
use crate::net::NetConfig;
use crate::registries::RegistriesConfigValue;
use crate::registry::RegistryConfig;
use crate::source::SourceConfigValue;
use crate::term::TermConfig;
use cc2_error::error::Result;
use cc2_error::path_and_args::PathAndArgs;
use cc2_resolved::env::EnvConfigValue;
use cc2_resolved::string_list::StringList;
use cc2_resolved::{ResolvedTable, copy_fields};
use std::alloc::Global;
use std::collections::BTreeMap;

/// The tables of a configuration but `target`, resolved (Cargo Reference, Configuration,
/// [configuration format](https://doc.rust-lang.org/cargo/reference/config.html#configuration-format)).
#[derive(Debug, Drop)]
pub struct Tables {
    /// The table [`alias`](https://doc.rust-lang.org/cargo/reference/config.html#alias): commands
    /// by their short names.
    pub alias: BTreeMap<String, StringList>,
    /// The table [`build`](https://doc.rust-lang.org/cargo/reference/config.html#build).
    pub build: BuildConfig,
    /// The table
    /// [`credential-alias`](https://doc.rust-lang.org/cargo/reference/config.html#credential-alias):
    /// providers of credentials by their short names.
    pub credential_alias: BTreeMap<String, PathAndArgs>,
    /// The table [`doc`](https://doc.rust-lang.org/cargo/reference/config.html#doc).
    pub doc: DocConfig,
    /// The table [`env`](https://doc.rust-lang.org/cargo/reference/config.html#env): environment
    /// variables by their names.
    pub env: BTreeMap<String, EnvConfigValue>,
    /// The table
    /// [`future-incompat-report`](https://doc.rust-lang.org/cargo/reference/config.html#future-incompat-report).
    pub future_incompat_report: FutureIncompatReportConfig,
    /// The table [`cargo-new`](https://doc.rust-lang.org/cargo/reference/config.html#cargo-new).
    pub cargo_new: CargoNewConfig,
    /// The table [`http`](https://doc.rust-lang.org/cargo/reference/config.html#http).
    pub http: HttpConfig,
    /// The table [`net`](https://doc.rust-lang.org/cargo/reference/config.html#net).
    pub net: NetConfig,
    /// The table [`registries`](https://doc.rust-lang.org/cargo/reference/config.html#registries):
    /// registries by their names.
    pub registries: BTreeMap<String, RegistriesConfigValue>,
    /// The table [`registry`](https://doc.rust-lang.org/cargo/reference/config.html#registry).
    pub registry: RegistryConfig,
    /// The table [`source`](https://doc.rust-lang.org/cargo/reference/config.html#source): sources
    /// by their names.
    pub source: BTreeMap<String, SourceConfigValue>,
    /// The table [`term`](https://doc.rust-lang.org/cargo/reference/config.html#term).
    pub term: TermConfig,
}

impl ResolvedTable for Tables {
    ghost use Rattle.cc2_resolved_tables.specs.Tables.{tables_rows};

    ghost rows = { tables_rows };

    #[tactic(auto, using(cc2_resolved::proofs::Copying::table_empty))]
    fn empty(alloc: Global) -> Tables {
        Tables {
            alias: BTreeMap::new(alloc),
            build: BuildConfig::empty(alloc),
            credential_alias: BTreeMap::new(alloc),
            doc: DocConfig::empty(alloc),
            env: BTreeMap::new(alloc),
            future_incompat_report: FutureIncompatReportConfig::empty(alloc),
            cargo_new: CargoNewConfig::empty(alloc),
            http: HttpConfig::empty(alloc),
            net: NetConfig::empty(alloc),
            registries: BTreeMap::new(alloc),
            registry: RegistryConfig::empty(alloc),
            source: BTreeMap::new(alloc),
            term: TermConfig::empty(alloc),
        }
    }

    fn copy_each(&self, alloc: Global, copy: &mut Tables) -> Result<()> {
        copy_fields!(alloc, self, copy;
            alias,
            build,
            credential_alias,
            doc,
            env,
            future_incompat_report,
            cargo_new,
            http,
            net,
            registries,
            registry,
            source,
            term,
        )
    }
}
