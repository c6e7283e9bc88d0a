//! The resolved configuration: its tables, what queries read beside them, and what they keep.
ghost use Rattle.std.specs.Prelude.{◌≡◌};

use cc2_de::ResolveContext;
use cc2_error::path_and_args::PathAndArgs;
use cc2_resolved::env::EnvConfigValue;
use cc2_resolved::string_list::StringList;
use cc2_resolved::target_config::TargetConfig;
use cc2_resolved_tables::{
    BuildConfig, CargoNewConfig, DocConfig, FutureIncompatReportConfig, HttpConfig, NetConfig,
    RegistriesConfigValue, RegistryConfig, SourceConfigValue, Tables, TermConfig,
};
use cc2_rustc::Kept;
use cc2_value::prints_nothing;
use serde::Serialize;
use std::alloc::Global;
use std::collections::BTreeMap;

/// The configuration that Cargo itself would use: the files of a directory, of its ancestors and of the
/// cargo home, under the environment's variables. A relative path or program is joined to the folder
/// of the place where it was set, which is absolute where the directory and the cargo home are; aliases of
/// credential providers are distinguished from programs (Cargo Reference, Configuration,
/// [config-relative paths](https://doc.rust-lang.org/cargo/reference/config.html#config-relative-paths)).
///
/// It is serialized with its tokens as they are, and with the settings of the targets that were asked
/// for so far.
#[derive(Drop, Serialize)]
#[serde(rename_all = "kebab-case")]
pub struct Config {
    /// The table [`alias`](https://doc.rust-lang.org/cargo/reference/config.html#alias): commands
    /// by their short names.
    #[serde(skip_serializing_if = "BTreeMap::is_empty")]
    pub alias: BTreeMap<String, StringList>,
    /// The table [`build`](https://doc.rust-lang.org/cargo/reference/config.html#build). Queries
    /// read it as it is when they ask; what they have kept isn't asked anew where it was changed
    /// since.
    #[serde(skip_serializing_if = "prints_nothing")]
    pub build: BuildConfig,
    /// The table
    /// [`credential-alias`](https://doc.rust-lang.org/cargo/reference/config.html#credential-alias):
    /// providers of credentials by their short names.
    #[serde(skip_serializing_if = "BTreeMap::is_empty")]
    pub credential_alias: BTreeMap<String, PathAndArgs>,
    /// The table [`doc`](https://doc.rust-lang.org/cargo/reference/config.html#doc).
    #[serde(skip_serializing_if = "prints_nothing")]
    pub doc: DocConfig,
    /// The table [`env`](https://doc.rust-lang.org/cargo/reference/config.html#env): environment
    /// variables by their names.
    #[serde(skip_serializing_if = "BTreeMap::is_empty")]
    pub env: BTreeMap<String, EnvConfigValue>,
    /// The table
    /// [`future-incompat-report`](https://doc.rust-lang.org/cargo/reference/config.html#future-incompat-report).
    #[serde(skip_serializing_if = "prints_nothing")]
    pub future_incompat_report: FutureIncompatReportConfig,
    /// The table [`cargo-new`](https://doc.rust-lang.org/cargo/reference/config.html#cargo-new).
    #[serde(skip_serializing_if = "prints_nothing")]
    pub cargo_new: CargoNewConfig,
    /// The table [`http`](https://doc.rust-lang.org/cargo/reference/config.html#http).
    #[serde(skip_serializing_if = "prints_nothing")]
    pub http: HttpConfig,
    /// The table [`net`](https://doc.rust-lang.org/cargo/reference/config.html#net).
    #[serde(skip_serializing_if = "prints_nothing")]
    pub net: NetConfig,
    /// The table [`registries`](https://doc.rust-lang.org/cargo/reference/config.html#registries):
    /// registries by their names.
    #[serde(skip_serializing_if = "BTreeMap::is_empty")]
    pub registries: BTreeMap<String, RegistriesConfigValue>,
    /// The table [`registry`](https://doc.rust-lang.org/cargo/reference/config.html#registry).
    #[serde(skip_serializing_if = "prints_nothing")]
    pub registry: RegistryConfig,
    /// The table [`source`](https://doc.rust-lang.org/cargo/reference/config.html#source): sources
    /// by their names.
    #[serde(skip_serializing_if = "BTreeMap::is_empty")]
    pub source: BTreeMap<String, SourceConfigValue>,
    // The settings of targets that queries found, by the target's text as Cargo takes it. It is here
    // and not in `kept`, for it is printed.
    #[serde(skip_serializing_if = "BTreeMap::is_empty")]
    pub(crate) target: BTreeMap<String, TargetConfig>,
    /// The table [`term`](https://doc.rust-lang.org/cargo/reference/config.html#term).
    #[serde(skip_serializing_if = "prints_nothing")]
    pub term: TermConfig,
    #[serde(skip)]
    pub(crate) loaded: Loaded,
    #[serde(skip)]
    pub(crate) kept: Kept,
}

// What queries read beside the tables: those of targets, which stay as they were loaded, whether
// variables override the flags of targets, and the context.
#[derive(Drop)]
pub(crate) struct Loaded {
    pub(crate) target: BTreeMap<String, cc2_de::TargetConfig>,
    pub(crate) flags_overridden: bool,
    pub(crate) doc_flags_overridden: bool,
    pub(crate) context: ResolveContext,
}

impl Config {
    ghost use Rattle.std.specs.Prelude.{◌≡◌, string_bytes};
    ghost use Rattle.cargo_config2.specs.Config.{tables_of};
    ghost use Rattle.cargo_config2.specs.Kept.{IsNoTargetKept};
    ghost use Rattle.cc2_rustc.specs.Kept.{IsNothingKept};

    // The configuration with these tables; nothing is kept.
    pub(crate) fn new(alloc: Global, tables: Tables, loaded: Loaded) -> Config
        ensures tables { tables_of result ≡ tables }
        ensures loaded { result.loaded ≡ loaded }
        ensures nothing_kept { IsNothingKept result.kept }
        ensures no_targets { IsNoTargetKept result }
    {
        Config {
            alias: tables.alias,
            build: tables.build,
            credential_alias: tables.credential_alias,
            doc: tables.doc,
            env: tables.env,
            future_incompat_report: tables.future_incompat_report,
            cargo_new: tables.cargo_new,
            http: tables.http,
            net: tables.net,
            registries: tables.registries,
            registry: tables.registry,
            source: tables.source,
            target: BTreeMap::new(alloc),
            term: tables.term,
            loaded,
            kept: Kept::empty(alloc),
        }
    }

    /// Cargo's program: the one that `ResolveOptions::cargo` chose, else that of the variable `CARGO`,
    /// else `cargo` (Cargo Reference,
    /// [environment variables that Cargo sets for subcommands](https://doc.rust-lang.org/cargo/reference/environment-variables.html#environment-variables-cargo-sets-for-3rd-party-subcommands)).
    pub fn cargo(&self) -> &str
        ensures { result.now ≡ string_bytes self.now.loaded.context.cargo }
    {
        self.loaded.context.cargo()
    }
}
