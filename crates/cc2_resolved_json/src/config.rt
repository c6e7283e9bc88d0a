//! A whole resolved configuration as JSON.
ghost use Rattle.std.specs.Prelude.{IfOk, OnOk};
ghost use Rattle.serde_json.specs.View.{view};
ghost use Rattle.cargo_config2.specs.Config.{shown, tables_of};
ghost use Rattle.cc2_json.specs.Json.{ArePut, IsObjectOf};
ghost use Rattle.cc2_json.specs.Reader.{IsJsonOfLook};
ghost use Rattle.cc2_resolved_json.specs.Plain.{plain_at, without_origins};
ghost use Rattle.cc2_resolved_json.specs.Rows.{keys_of_rows, looks_of_rows};
ghost use Rattle.cc2_resolved_tables.specs.Tables.{tables_rows};

use crate::put_fields;
use crate::row::PlainRow;
use cargo_config2::Config;
use cc2_error::error::NoMemory;
use cc2_json::{Json, object};
use serde_json::Map;
use std::alloc::{AllocError, Global};

/// A resolved configuration as JSON: an object of its tables, without those that show nothing, each value
/// alone, without where it was set (Cargo Reference, Configuration,
/// [configuration format](https://doc.rust-lang.org/cargo/reference/config.html#configuration-format)).
/// Tokens are written as redacted unless they are asked for. Tables of `target` are resolved for a target
/// alone, so none is written.
///
/// # Errors
/// `NoMemory` where memory ran out.
pub fn resolved_to_json(alloc: Global, config: &Config, tokens: bool) -> Result<Json, NoMemory>
    ensures object { IfOk result (λ json.
        IsObjectOf (without_origins tokens) (plain_at (shown config.now)) (view json)) }
    ensures json { IfOk result (λ json.
        IsJsonOfLook (without_origins tokens) (plain_at (shown config.now)) (view json)) }
{
    let mut members = Map::new(alloc);
    put_tables(alloc, config, tokens, &mut members)?;
    Ok(object(members))
}

// Puts what the tables show among the members, each at its key.
fn put_tables(
    alloc: Global,
    config: &Config,
    tokens: bool,
    members: &mut Map<String, Json>,
) -> Result<(), AllocError>
    ensures { OnOk result (ArePut (without_origins tokens) (keys_of_rows tables_rows)
        (looks_of_rows tables_rows (tables_of config.now))
        members.old.entries members.new.entries) }
{
    put_fields!(alloc, tokens, config, members;
        "alias" alias,
        "build" build,
        "credential-alias" credential_alias,
        "doc" doc,
        "env" env,
        "future-incompat-report" future_incompat_report,
        "cargo-new" cargo_new,
        "http" http,
        "net" net,
        "registries" registries,
        "registry" registry,
        "source" source,
        "term" term,
    )
}
