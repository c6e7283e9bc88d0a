//! The configuration: its tables.
ghost use Rattle.std.specs.Prelude.{◌≡◌, ◌∷◌, [], ◌||◌, map, Some, IfOk, IfErr};
ghost use Rattle.cc2_value.specs.Cells.{Key, KeyPath, IsPointwise};
ghost use Rattle.cc2_value.specs.Places.{IsUnjoined};
ghost use Rattle.cc2_value.specs.Shown.{option_at};
ghost use Rattle.cc2_de.specs.Config.{config_at, marks_at};

use cc2_error::error::{NoMemory, Result};
use cc2_leaf::{
    Definition, EnvConfigValue, Fields, MergeAllFault, MergeFrom, Part, PathAndArgs, StringList,
    Take, TryClone, Visit, VisitAlone, VisitRef, Visited, copy_fields, each, each_alone, each_ref,
    each_taken, gather_fields, join_list, prints_nothing, read_fields, reverse_fields,
};
use cc2_tables::{
    BuildConfig, CargoNewConfig, DocConfig, FutureIncompatReportConfig, HttpConfig, NetConfig,
    RegistriesConfigValue, RegistryConfig, SourceConfigValue, TermConfig,
};
use cc2_target_table::TargetConfig;
use serde::Serialize;
use std::alloc::{AllocError, Global};
use std::collections::BTreeMap;

/// A configuration as files have it, each value with where it was set (Cargo Reference,
/// Configuration,
/// [configuration format](https://doc.rust-lang.org/cargo/reference/config.html#configuration-format)).
/// It is serialized as files have it, without what is absent or empty and without where the values
/// were set, with its tokens as they are; an entry of a map is there even where it is empty.
#[derive(Debug, Drop, Serialize)]
#[serde(rename_all = "kebab-case")]
pub struct Config {
    /// The table [`alias`](https://doc.rust-lang.org/cargo/reference/config.html#alias): commands by their short names.
    #[serde(skip_serializing_if = "BTreeMap::is_empty")]
    pub alias: BTreeMap<String, StringList>,
    /// The table [`build`](https://doc.rust-lang.org/cargo/reference/config.html#build).
    #[serde(skip_serializing_if = "prints_nothing")]
    pub build: BuildConfig,
    /// The table [`credential-alias`](https://doc.rust-lang.org/cargo/reference/config.html#credential-alias): providers of credentials by
    /// their short names.
    #[serde(skip_serializing_if = "BTreeMap::is_empty")]
    pub credential_alias: BTreeMap<String, PathAndArgs>,
    /// The table [`doc`](https://doc.rust-lang.org/cargo/reference/config.html#doc).
    #[serde(skip_serializing_if = "prints_nothing")]
    pub doc: DocConfig,
    /// The table [`env`](https://doc.rust-lang.org/cargo/reference/config.html#env): environment variables by their names.
    #[serde(skip_serializing_if = "BTreeMap::is_empty")]
    pub env: BTreeMap<String, EnvConfigValue>,
    /// The table [`future-incompat-report`](https://doc.rust-lang.org/cargo/reference/config.html#future-incompat-report).
    #[serde(skip_serializing_if = "prints_nothing")]
    pub future_incompat_report: FutureIncompatReportConfig,
    /// The table [`cargo-new`](https://doc.rust-lang.org/cargo/reference/config.html#cargo-new).
    #[serde(skip_serializing_if = "prints_nothing")]
    pub cargo_new: CargoNewConfig,
    /// The table [`http`](https://doc.rust-lang.org/cargo/reference/config.html#http).
    #[serde(skip_serializing_if = "prints_nothing")]
    pub http: HttpConfig,
    /// The table [`net`](https://doc.rust-lang.org/cargo/reference/config.html#net).
    #[serde(skip_serializing_if = "prints_nothing")]
    pub net: NetConfig,
    /// The table [`registries`](https://doc.rust-lang.org/cargo/reference/config.html#registries): registries by their names.
    #[serde(skip_serializing_if = "BTreeMap::is_empty")]
    pub registries: BTreeMap<String, RegistriesConfigValue>,
    /// The table [`registry`](https://doc.rust-lang.org/cargo/reference/config.html#registry).
    #[serde(skip_serializing_if = "prints_nothing")]
    pub registry: RegistryConfig,
    /// The table [`source`](https://doc.rust-lang.org/cargo/reference/config.html#source): sources by their names.
    #[serde(skip_serializing_if = "BTreeMap::is_empty")]
    pub source: BTreeMap<String, SourceConfigValue>,
    /// The table [`target`](https://doc.rust-lang.org/cargo/reference/config.html#target): settings by target triple or cfg expression.
    #[serde(skip_serializing_if = "BTreeMap::is_empty")]
    pub target: BTreeMap<String, TargetConfig>,
    /// The table [`term`](https://doc.rust-lang.org/cargo/reference/config.html#term).
    #[serde(skip_serializing_if = "prints_nothing")]
    pub term: TermConfig,
    #[serde(skip)]
    target_flags_overridden: bool,
    #[serde(skip)]
    target_doc_flags_overridden: bool,
}

impl Config {
    ghost use Rattle.std.specs.Prelude.{◌≡◌, None, OnOk, IfOk, IfErr, [], ◌∷◌, false};
    ghost use Rattle.toml.specs.View.{table_view};
    ghost use Rattle.cc2_value.specs.Cells.{Key, KeyPath, IsPointwise};
    ghost use Rattle.cc2_value.specs.Copies.{origin_given};
    ghost use Rattle.cc2_value.specs.MergeLaws.{AllGive};
    ghost use Rattle.cc2_value.specs.Places.{IsUnjoined};
    ghost use Rattle.cc2_value.specs.Visits.{FieldsAbsent};
    ghost use Rattle.cc2_value.specs.Ways.{IsDecoded, IsFaultBehind};
    ghost use Rattle.cc2_de.specs.MergeAll.{HasNoGrouping};
    ghost use Rattle.cc2_de.specs.Config.{config_fields, config_at, marks_at, decoded, config_faults};

    /// The configuration with nothing in it. It takes no memory.
    pub fn empty(alloc: Global) -> Config
        ensures { (p : KeyPath) → config_at result p ≡ None }
    {
        Config::unset(alloc)
    }

    // The same, by its tables and its marks.
    fn unset(alloc: Global) -> Config
        ensures tables { FieldsAbsent config_fields result }
        ensures flags { result.target_flags_overridden ≡ false }
        ensures doc_flags { result.target_doc_flags_overridden ≡ false }
    {
        Config {
            alias: BTreeMap::empty(alloc),
            build: BuildConfig::empty(alloc),
            credential_alias: BTreeMap::empty(alloc),
            doc: DocConfig::empty(alloc),
            env: BTreeMap::empty(alloc),
            future_incompat_report: FutureIncompatReportConfig::empty(alloc),
            cargo_new: CargoNewConfig::empty(alloc),
            http: HttpConfig::empty(alloc),
            net: NetConfig::empty(alloc),
            registries: BTreeMap::empty(alloc),
            registry: RegistryConfig::empty(alloc),
            source: BTreeMap::empty(alloc),
            target: BTreeMap::empty(alloc),
            term: TermConfig::empty(alloc),
            target_flags_overridden: false,
            target_doc_flags_overridden: false,
        }
    }

    /// Whether the flags, and whether the doc flags, of targets are overridden by an environment
    /// variable; never so for what files have.
    pub fn overrides(&self) -> (bool, bool)
        ensures { result ≡ (
          self.now.target_flags_overridden,
          self.now.target_doc_flags_overridden,
        ) }
    {
        let flags = self.target_flags_overridden;
        let doc_flags = self.target_doc_flags_overridden;
        (flags, doc_flags)
    }

    // Sets the marks; the tables stay.
    pub(crate) fn mark(&mut self, marks: (bool, bool))
        ensures tables { (k : Key) → (p : KeyPath) → config_at self.new (k ∷ p)
            ≡ config_at self.old (k ∷ p) }
        ensures marks { config_at self.new [] ≡ marks_at marks.0 marks.1 }
    {
        self.target_flags_overridden = marks.0;
        self.target_doc_flags_overridden = marks.1;
    }

    /// Reads a configuration from a TOML table, without where its values were set. Unknown keys are
    /// ignored, whatever they hold.
    ///
    /// # Errors
    /// `ErrorKind::ParseFile` with the key path of a value of a wrong type; `EmptyCommand`,
    /// `ProviderArgs` or `ProviderNoCommand` of a command or a provider; `Memory` where memory ran out.
    pub fn from_table(alloc: Global, table: &toml::Table) -> Result<Config>
        ensures ok { IfOk result (IsDecoded config_at (decoded None (table_view table.now))
            (config_faults (table_view table.now))) }
        ensures refused { IfErr result (IsFaultBehind [] (config_faults (table_view table.now))) }
    {
        let mut read = Config::unset(alloc);
        let copy = table.clone()?;
        match read.read_members(alloc, copy, None) {
            Ok(()) => Ok(read),
            Err(error) => Err(error),
        }
    }

    /// All configurations of a list as one, the first the strongest: its pointwise map. Each field's values are
    /// gathered from all of them and joined at once. The empty list gives the empty configuration (Cargo
    /// Reference, Configuration,
    /// [hierarchical structure](https://doc.rust-lang.org/cargo/reference/config.html#hierarchical-structure)).
    ///
    /// # Errors
    /// `MergeAllFault::Mixed` exactly where the list has no pointwise map: the least place, counted from 0, up to
    /// which it has none, and `ErrorKind::Merge` with a key path that is mixed there, with what is first at
    /// that path and what is there at the place. `MergeAllFault::Memory` where memory ran out.
    pub fn merge_all(
        alloc: Global,
        configs: Vec<Config>,
    ) -> std::result::Result<Config, MergeAllFault>
        ensures ok { IfOk result (IsPointwise config_at configs.items) }
        ensures every_grouping { IfOk result (AllGive config_at configs.items) }
        ensures refused { IfErr result (IsUnjoined config_at configs.items) }
        ensures no_grouping { IfErr result (HasNoGrouping configs.items) }
    {
        merge_list(alloc, &mut present(alloc, configs)?)
    }

    // Reads the members of a table in place of what it has, each value set where the definition says,
    // where one is given.
    pub(crate) fn read_members(
        &mut self,
        alloc: Global,
        table: toml::Table,
        definition: Option<&Definition>,
    ) -> Result<()>
        ensures ok { OnOk result (IsDecoded config_at
            (decoded (origin_given definition.entry) (table_view table))
            (config_faults (table_view table)) self.new) }
        ensures refused { IfErr result (IsFaultBehind [] (config_faults (table_view table))) }
    {
        read_fields(alloc, self, table, definition)?;
        self.target_flags_overridden = false;
        self.target_doc_flags_overridden = false;
        Ok(())
    }
}

macro_rules! fields {
    ($each:ident!($($head:tt)*)) => {
        $each!($($head)*;
            "alias" alias,
            "build" build,
            "credential-alias" credential_alias,
            "doc" doc,
            "env" env,
            "future-incompat-report" future_incompat_report,
            "cargo-new" cargo_new,
            "http" http,
            "net" net,
            "registries" registries,
            "registry" registry,
            "source" source,
            "target" target,
            "term" term,
        )
    };
}

impl Fields for Config {
    ghost use Rattle.std.specs.Prelude.{refl};
    ghost use Rattle.cc2_de.specs.Config.{config_fields};

    ghost fields = { config_fields };

    fn absent(alloc: Global) -> Config {
        Config::unset(alloc)
    }

    fn each<V: Visit>(&mut self, other: &mut Config, visit: &V) -> Visited {
        fields!(each!(visit, self, other))
    }

    fn each_ref<V: VisitRef>(&self, copy: &mut Config, visit: &V) -> Result<()> {
        fields!(each_ref!(visit, self, copy))
    }

    fn each_alone<V: VisitAlone>(&mut self, visit: &V) -> std::result::Result<(), NoMemory> {
        fields!(each_alone!(visit, self))
    }

    fn each_taken<V: Take>(&mut self, visit: &mut V) {
        fields!(each_taken!(visit, self))
    }

    ghost distinct = { refl };
}

/// Table by table; `overrides` is true where it is of either.
impl MergeFrom for Config {
    ghost use Rattle.cc2_de.specs.Config.{config_at};

    ghost cell_at = { config_at };

    fn gather(&mut self, alloc: Global, low: &mut Config) -> Result<()> {
        let flags = either(self.target_flags_overridden, low.target_flags_overridden);
        let doc_flags = either(
            self.target_doc_flags_overridden,
            low.target_doc_flags_overridden,
        );
        gather_fields(alloc, self, low)?;
        self.target_flags_overridden = flags;
        self.target_doc_flags_overridden = doc_flags;
        Ok(())
    }

    fn reverse_lists(&mut self, alloc: Global) -> std::result::Result<(), NoMemory> {
        let flags = self.target_flags_overridden;
        let doc_flags = self.target_doc_flags_overridden;
        reverse_fields(alloc, self)?;
        self.target_flags_overridden = flags;
        self.target_doc_flags_overridden = doc_flags;
        Ok(())
    }
}

impl TryClone for Config {
    ghost use Rattle.cc2_de.specs.Config.{config_at};

    ghost shown = { config_at };

    fn copied(&self, alloc: Global, definition: Option<&Definition>) -> Result<Config> {
        let mut copy = Config::unset(alloc);
        copy_fields(alloc, self, &mut copy, definition)?;
        copy.target_flags_overridden = self.target_flags_overridden;
        copy.target_doc_flags_overridden = self.target_doc_flags_overridden;
        Ok(copy)
    }
}

/// All of a list that are there as one, the first the strongest; where none is there, the empty
/// configuration. What the list has is taken.
pub(crate) fn merge_list(
    alloc: Global,
    list: &mut Vec<Option<Config>>,
) -> std::result::Result<Config, MergeAllFault>
    ensures ok { IfOk result (λ merged.
        IsPointwise (option_at config_at) list.old.items (Some merged)) }
    ensures refused { IfErr result (IsUnjoined (option_at config_at) list.old.items) }
{
    match join_list(alloc, list) {
        Ok(Some(merged)) => Ok(merged),
        Ok(None) => Ok(Config::empty(alloc)),
        Err(fault) => Err(fault),
    }
}

// All of them, each as one that is there.
fn present(
    alloc: Global,
    configs: Vec<Config>,
) -> std::result::Result<Vec<Option<Config>>, AllocError>
    ensures { IfOk result (λ list. list.items ≡ map Some configs.items) }
{
    let mut list = Vec::new(alloc);
    for config in configs {
        list.push(Some(config))?;
    }
    Ok(list)
}

// Whether one of the two is set.
fn either(high: bool, low: bool) -> bool
    ensures { result ≡ (high || low) }
{
    high || low
}
