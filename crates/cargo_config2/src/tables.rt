//! The tables of a loaded configuration, resolved.
ghost use Rattle.std.specs.Prelude.{◌≡◌, ℕ, List, IfOk, IfErr, OnOk};
ghost use Rattle.std.specs.Option.{is_some};
ghost use Rattle.std.specs.BTreeMap.{get_by_text};
ghost use Rattle.cc2_error.specs.Causes.{no_memory};
ghost use Rattle.cc2_error.specs.Outcomes.{Answered};
ghost use Rattle.cc2_value.specs.Shown.{fields_at};
ghost use Rattle.cc2_de.specs.Config.{config_fields};
ghost use Rattle.cc2_resolved.specs.Rows.{by_row, rows_at, AllResolved, IsCauseAt, IsResolved, IsRefusedSo};
ghost use Rattle.cc2_resolved.specs.Sites.{site_in, site_of};
ghost use Rattle.cc2_resolved_tables.specs.Tables.{tables_rows};

use cc2_error::error::Result;
use cc2_leaf::put;
use cc2_resolved::{AliasNames, Place, ResolvedTable};
use cc2_resolved_tables::{Tables, settle_fields};
use cc2_value::Visited;
use std::alloc::Global;
use std::collections::BTreeMap;

// Resolves the tables of a configuration in a directory, and takes them: all but `target`, which is
// left as it is. Relative paths and programs are joined to the folder that holds the folder of their
// file, or to the directory where a variable set them; a provider of one word is an alias where
// the table `credential-alias` has its name (Cargo Reference, Configuration, config-relative paths,
// and `[credential-alias]`).
//
// Refused exactly where a setting is: where a relative one has no root, a spec path of `build.target`
// has no file name, or a provider is blank and no alias.
pub(crate) fn resolve_tables(
    alloc: Global,
    directory: &str,
    config: &mut cc2_de::Config,
) -> Result<Tables>
    ensures answered { Answered (rows_at tables_rows) result
        (IsResolved (by_row tables_rows)
        (site_in directory.now (fields_at config_fields config.old))
        (fields_at config_fields config.old))
        (IsRefusedSo (by_row tables_rows)
        (site_in directory.now (fields_at config_fields config.old))
        (fields_at config_fields config.old)) }
    ensures target { config.new.target ≡ config.old.target }
{
    let aliases = names_of(alloc, &config.credential_alias)?;
    let place = Place {
        directory,
        aliases: &aliases,
    };
    let mut tables = Tables::empty(alloc);
    match settle_tables(alloc, &place, config, &mut tables) {
        Ok(()) => Ok(tables),
        Err(refused) => Err(refused.error),
    }
}

// The names of a map.
fn names_of(alloc: Global, map: &BTreeMap<String, cc2_leaf::PathAndArgs>) -> Result<AliasNames>
    ensures ok { IfOk result (λ names. (n : List ℕ)
        → is_some (get_by_text names n) ≡ is_some (get_by_text map.now n)) }
    ensures refused { IfErr result (λ e. e ≡ no_memory) }
{
    let mut names = BTreeMap::new(alloc);
    for (name, _) in map.iter() {
        put(&mut names, name.clone()?, ())?;
    }
    Ok(names)
}

// Resolves each table in place, and takes it, up to the first that is refused.
fn settle_tables(
    alloc: Global,
    place: &Place<'_>,
    config: &mut cc2_de::Config,
    tables: &mut Tables,
) -> Visited
    ensures ok { OnOk result (AllResolved tables_rows (site_of place.now)
        (fields_at config_fields config.old) tables.new) }
    ensures refused { IfErr result (λ r. IsCauseAt tables_rows (site_of place.now)
        (fields_at config_fields config.old) r.key.now r.error) }
    ensures target { config.new.target ≡ config.old.target }
{
    settle_fields!(alloc, place, config, tables;
        "alias" alias,
        "build" build,
        "credential-alias" credential_alias,
        "doc" doc,
        "env" env,
        "future-incompat-report" future_incompat_report,
        "cargo-new" cargo_new,
        "http" http,
        "net" net,
        "registries" registries,
        "registry" registry,
        "source" source,
        "term" term,
    )
}
