//! What variables hide in each of several files.
ghost use Rattle.std.specs.Prelude.{◌≡◌, map, option_map, IfOk};
ghost use Rattle.serde_json.specs.View.{view};
ghost use Rattle.toml.specs.View.{table_view};
ghost use Rattle.cc2_lint_settings.specs.HiddenViews.{hidden_view, hidden_views, table_of};
ghost use Rattle.cc2_lint_settings.specs.Keys.{AreHidden, hidden_in};

use crate::hidden_keys::{HiddenKey, hidden_keys};
use crate::hidden_settings::settings_json;
use cc2_base::machine::Machine;
use cc2_error::error::NoMemory;
use cc2_findings::LintedFile;
use cc2_json::Json;
use std::alloc::Global;

/// Of each of these files in turn the keys that aren't used, since a variable of the machine sets their setting. There
/// is none where a variable is refused. `BROWSER` hides nothing: a file's `doc.browser` takes precedence over it. See the Cargo
/// Reference, Configuration,
/// [environment variables](https://doc.rust-lang.org/cargo/reference/config.html#environment-variables).
///
/// # Errors
/// `NoMemory` where memory ran out.
pub fn hidden_in_each(
    alloc: Global,
    machine: &Machine,
    linted: &[LintedFile],
) -> Result<Vec<Vec<HiddenKey>>, NoMemory>
    ensures { IfOk result (λ found.
        AreHidden machine.now (map table_of linted.now) (hidden_views found)) }
{
    let json = settings_json(alloc, machine)?;
    in_each(alloc, &json, linted)
}

// Of each of these files the keys whose settings variables set.
fn in_each(
    alloc: Global,
    json: &Option<Json>,
    linted: &[LintedFile],
) -> Result<Vec<Vec<HiddenKey>>, NoMemory>
    ensures { IfOk result (λ found. hidden_views found
        ≡ map (hidden_in (option_map view json.now)) (map table_of linted.now)) }
{
    let mut all = Vec::new(alloc);
    for file in linted {
        all.push(hidden_in(alloc, json, &file.found.table)?)?;
    }
    Ok(all)
}

// Those of one file; none where a variable is refused.
fn hidden_in(
    alloc: Global,
    json: &Option<Json>,
    table: &toml::Table,
) -> Result<Vec<HiddenKey>, NoMemory>
    ensures { IfOk result (λ found. map hidden_view found.items
        ≡ hidden_in (option_map view json.now) (table_view table.now)) }
{
    match json {
        Some(json) => hidden_keys(alloc, json, table),
        None => Ok(Vec::new(alloc)),
    }
}
