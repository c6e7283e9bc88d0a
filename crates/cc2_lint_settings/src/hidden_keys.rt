//! Which keys of a file aren't used, since a variable sets their setting.
ghost use Rattle.std.specs.Prelude.{◌≡◌, ◌++◌, map, flat_map, option_map, string_bytes, IfOk, OnOk};
ghost use Rattle.serde_json.specs.View.{view};
ghost use Rattle.toml.specs.View.{table_view};
ghost use Rattle.cc2_findings.specs.FindingViews.{finding_view};
ghost use Rattle.cc2_findings.specs.Founds.{where_found};
ghost use Rattle.cc2_lint_settings.specs.HiddenViews.{hidden_view};
ghost use Rattle.cc2_lint_settings.specs.Keys.{hidden_at, hidden_of};

use crate::setter::setter_at;
use cc2_error::error::NoMemory;
use cc2_findings::{Finding, Form, table_findings};
use cc2_json::Json;
use std::alloc::Global;

/// A key of a file that isn't used, since a variable sets its setting.
#[derive(Debug, Drop)]
pub struct HiddenKey {
    /// The keys that lead to it.
    pub path: Vec<String>,
    /// The variable.
    pub variable: String,
}

// The keys of a file, in the order of its tables, whose settings variables set. What they set is JSON that has each
// value with its variable; where they set nothing the file isn't looked through.
pub(crate) fn hidden_keys(
    alloc: Global,
    json: &Json,
    table: &toml::Table,
) -> Result<Vec<HiddenKey>, NoMemory>
    ensures { IfOk result (λ found.
        map hidden_view found.items ≡ hidden_of (view json.now) (table_view table.now)) }
{
    match json.as_object() {
        Some(members) if members.is_empty() => Ok(Vec::new(alloc)),
        _ => {
            let settings = table_findings(alloc, table)?;
            hidden_among(alloc, json, settings)
        }
    }
}

// Those of these settings that a variable sets.
fn hidden_among(
    alloc: Global,
    json: &Json,
    settings: Vec<Finding<Form>>,
) -> Result<Vec<HiddenKey>, NoMemory>
    ensures { IfOk result (λ found. map hidden_view found.items
        ≡ flat_map (hidden_at (view json.now)) (map finding_view settings.items)) }
{
    let mut found = Vec::new(alloc);
    for setting in settings {
        let setter = setter_at(alloc, setting.path.as_slice(), json)?;
        keep(&mut found, alloc, setting.path, setter)?;
    }
    Ok(found)
}

// Appends a key to the others, where a variable sets its setting.
fn keep(
    found: &mut Vec<HiddenKey>,
    alloc: Global,
    path: Vec<String>,
    setter: Option<&str>,
) -> Result<(), NoMemory>
    ensures { OnOk result (map hidden_view found.new.items ≡ map hidden_view found.old.items
        ++ where_found (map string_bytes path.items) (option_map (λ name. name.now) setter.entry)) }
{
    if let Some(setter) = setter {
        let variable = String::from_str(alloc, setter)?;
        found.push(HiddenKey { path, variable })?;
    }
    Ok(())
}
