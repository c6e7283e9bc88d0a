//! A configuration as JSON.
ghost use Rattle.std.specs.Prelude.{◌∷◌, [], codes, IfOk, OnOk};
ghost use Rattle.serde_json.specs.View.{view};
ghost use Rattle.cc2_de.specs.Config.{config_at};
ghost use Rattle.cc2_leaf.specs.Commands.{command_at};
ghost use Rattle.cc2_leaf.specs.Env.{env_at};
ghost use Rattle.cc2_leaf.specs.Lists.{string_list_at};
ghost use Rattle.cc2_tables.specs.Build.{build_fields};
ghost use Rattle.cc2_tables.specs.CargoNew.{new_fields};
ghost use Rattle.cc2_tables.specs.Doc.{doc_fields};
ghost use Rattle.cc2_tables.specs.FutureIncompatReport.{report_fields};
ghost use Rattle.cc2_tables.specs.Http.{http_fields};
ghost use Rattle.cc2_tables.specs.Net.{net_fields};
ghost use Rattle.cc2_tables.specs.Registries.{registries_fields};
ghost use Rattle.cc2_tables.specs.Registry.{registry_fields};
ghost use Rattle.cc2_tables.specs.Source.{source_fields};
ghost use Rattle.cc2_tables.specs.Term.{term_fields};
ghost use Rattle.cc2_target_table.specs.Target.{target_at};
ghost use Rattle.cc2_value.specs.Shown.{entry_at, fields_at, map_at};
ghost use Rattle.cc2_json.specs.Json.{ArePut, IsObjectOf};
ghost use Rattle.cc2_json.specs.Reader.{IsJsonOfLook};

use crate::{Form, IntoJson, Json, JsonRow};
use cc2_de::Config;
use cc2_error::error::NoMemory;
use cc2_leaf::{EnvConfigValue, MergeFrom, One, PathAndArgs, StringList};
use cc2_tables::{
    BuildConfig, CargoNewConfig, DocConfig, FutureIncompatReportConfig, HttpConfig, NetConfig,
    RegistriesConfigValue, RegistryConfig, SourceConfigValue, TermConfig,
};
use cc2_target_table::TargetConfig;
use serde_json::Map;
use std::alloc::{AllocError, Global};
use std::collections::BTreeMap;

/// A configuration as JSON: an object of its tables, without those that show nothing.
///
/// # Errors
/// `NoMemory` where memory ran out.
pub fn to_json(alloc: Global, config: Config, form: Form) -> Result<Json, NoMemory>
    ensures object { IfOk result (λ json. IsObjectOf form (config_at config) (view json)) }
    ensures json { IfOk result (λ json. IsJsonOfLook form (config_at config) (view json)) }
{
    let mut members = Map::new(alloc);
    put_places(
        alloc,
        form,
        &mut members,
        config.source,
        config.target,
        config.term,
    )?;
    put_network(
        alloc,
        form,
        &mut members,
        config.http,
        config.net,
        config.registries,
        config.registry,
    )?;
    put_habits(
        alloc,
        form,
        &mut members,
        config.doc,
        config.env,
        config.future_incompat_report,
        config.cargo_new,
    )?;
    put_commands(
        alloc,
        form,
        &mut members,
        config.alias,
        config.build,
        config.credential_alias,
    )?;
    Ok(Json::Object(members))
}

// Puts the first three tables among the members, the last one first.
fn put_commands(
    alloc: Global,
    form: Form,
    members: &mut Map<String, Json>,
    alias: BTreeMap<String, StringList>,
    build: BuildConfig,
    credential_alias: BTreeMap<String, PathAndArgs>,
) -> Result<(), AllocError>
    ensures { OnOk result (ArePut form (codes "alias" ∷ codes "build" ∷ codes "credential-alias"
        ∷ [])
        (map_at string_list_at alias ∷ fields_at build_fields build
        ∷ map_at command_at credential_alias ∷ [])
        members.old.entries members.new.entries) }
{
    put_table(alloc, form, members, "credential-alias", credential_alias)?;
    put_table(alloc, form, members, "build", build)?;
    put_table(alloc, form, members, "alias", alias)
}

// The same of the four after them.
fn put_habits(
    alloc: Global,
    form: Form,
    members: &mut Map<String, Json>,
    doc: DocConfig,
    env: BTreeMap<String, EnvConfigValue>,
    future_incompat_report: FutureIncompatReportConfig,
    cargo_new: CargoNewConfig,
) -> Result<(), AllocError>
    ensures { OnOk result (ArePut form (codes "doc" ∷ codes "env" ∷ codes "future-incompat-report"
        ∷ codes "cargo-new" ∷ [])
        (fields_at doc_fields doc ∷ map_at env_at env
        ∷ fields_at report_fields future_incompat_report ∷ fields_at new_fields cargo_new ∷ [])
        members.old.entries members.new.entries) }
{
    put_table(alloc, form, members, "cargo-new", cargo_new)?;
    put_table(
        alloc,
        form,
        members,
        "future-incompat-report",
        future_incompat_report,
    )?;
    put_table(alloc, form, members, "env", env)?;
    put_table(alloc, form, members, "doc", doc)
}

// The same of the four after those.
fn put_network(
    alloc: Global,
    form: Form,
    members: &mut Map<String, Json>,
    http: HttpConfig,
    net: NetConfig,
    registries: BTreeMap<String, RegistriesConfigValue>,
    registry: RegistryConfig,
) -> Result<(), AllocError>
    ensures { OnOk result (ArePut form (codes "http" ∷ codes "net" ∷ codes "registries"
        ∷ codes "registry" ∷ [])
        (fields_at http_fields http ∷ fields_at net_fields net
        ∷ map_at (entry_at registries_fields) registries ∷ fields_at registry_fields registry ∷ [])
        members.old.entries members.new.entries) }
{
    put_table(alloc, form, members, "registry", registry)?;
    put_table(alloc, form, members, "registries", registries)?;
    put_table(alloc, form, members, "net", net)?;
    put_table(alloc, form, members, "http", http)
}

// The same of the last three.
fn put_places(
    alloc: Global,
    form: Form,
    members: &mut Map<String, Json>,
    source: BTreeMap<String, SourceConfigValue>,
    target: BTreeMap<String, TargetConfig>,
    term: TermConfig,
) -> Result<(), AllocError>
    ensures { OnOk result (ArePut form (codes "source" ∷ codes "target" ∷ codes "term" ∷ [])
        (map_at (entry_at source_fields) source ∷ map_at target_at target
        ∷ fields_at term_fields term ∷ [])
        members.old.entries members.new.entries) }
{
    put_table(alloc, form, members, "term", term)?;
    put_table(alloc, form, members, "target", target)?;
    put_table(alloc, form, members, "source", source)
}

// Puts what a table shows among the members, at its key.
fn put_table<T: MergeFrom + IntoJson>(
    alloc: Global,
    form: Form,
    members: &mut Map<String, Json>,
    key: &'static str,
    table: T,
) -> Result<(), AllocError>
    ensures { OnOk result (ArePut form (key.now ∷ []) (T.cell_at table
        ∷ []) members.old.entries members.new.entries) }
{
    One { part: table }.put_into(alloc, form, &[key], members)
}
