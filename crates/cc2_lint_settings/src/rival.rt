//! The keys of a file that hold beside another.
ghost use Rattle.std.specs.Prelude.{◌≡◌, ◌++◌, map, option_map, string_bytes, IfOk, OnOk};
ghost use Rattle.toml.specs.View.{table_view};
ghost use Rattle.cc2_findings.specs.Founds.{where_found};
ghost use Rattle.cc2_value.specs.Rows.{texts_of};
ghost use Rattle.cc2_lint_settings.specs.Rivals.{path_to, rival_of, rivals_among, rivals_in, rivals_of};
ghost use Rattle.cc2_lint_settings.specs.Views.{rival_view};

use crate::givers::{givers_of, other_than};
use crate::rival_setting::Setting;
use cc2_error::error::NoMemory;
use cc2_findings::is_among;
use std::alloc::Global;

/// A linker or a runner at a key `cfg(..)` that holds for a target, while another key that holds gives one too.
#[derive(Debug, Drop)]
pub struct Rival {
    /// The keys that lead to it: `target`, the key `cfg(..)`, and `linker` or `runner`.
    pub path: Vec<String>,
    /// The first other key that holds and gives one.
    pub other: String,
}

/// The linkers and the runners of a file at keys that hold beside another. The keys that hold are those of all files.
///
/// # Errors
/// `NoMemory` where memory ran out.
pub(crate) fn rivals_of(
    alloc: Global,
    linkers: &[&str],
    runners: &[&str],
    table: &toml::Table,
) -> Result<Vec<Rival>, NoMemory>
    ensures { IfOk result (λ found. map rival_view found.items
        ≡ rivals_of (texts_of linkers.now) (texts_of runners.now) (table_view table.now)) }
{
    let mut found = rivals_in(alloc, Setting::Linker, linkers, table)?;
    let mut more = rivals_in(alloc, Setting::Runner, runners, table)?;
    found.append(&mut more)?;
    Ok(found)
}

// Those of one setting.
fn rivals_in(
    alloc: Global,
    setting: Setting,
    held: &[&str],
    table: &toml::Table,
) -> Result<Vec<Rival>, NoMemory>
    ensures { IfOk result (λ found. map rival_view found.items
        ≡ rivals_in setting (texts_of held.now) (table_view table.now)) }
{
    let keys = givers_of(alloc, setting, table)?;
    rivals_among(alloc, setting, held, keys.as_slice())
}

// Those of these keys.
fn rivals_among(
    alloc: Global,
    setting: Setting,
    held: &[&str],
    keys: &[&str],
) -> Result<Vec<Rival>, NoMemory>
    ensures { IfOk result (λ found. map rival_view found.items
        ≡ rivals_among setting (texts_of held.now) (texts_of keys.now)) }
{
    let mut found = Vec::new(alloc);
    for key in keys {
        keep(&mut found, alloc, setting, *key, rival_of(*key, held))?;
    }
    Ok(found)
}

// The first other of the keys that hold, where this is one of them.
fn rival_of<'a>(key: &str, held: &[&'a str]) -> Option<&'a str>
    ensures { option_map (λ other. other.now) result ≡ rival_of (texts_of held.now) key.now }
{
    if is_among(held, key) {
        other_than(key, held)
    } else {
        None
    }
}

// Appends a key to the others, where another one holds.
fn keep(
    found: &mut Vec<Rival>,
    alloc: Global,
    setting: Setting,
    key: &str,
    other: Option<&str>,
) -> Result<(), NoMemory>
    ensures { OnOk result (map rival_view found.new.items ≡ map rival_view found.old.items
        ++ where_found (path_to setting key.now) (option_map (λ o. o.now) other.entry)) }
{
    if let Some(other) = other {
        let path = path_to(alloc, setting, key)?;
        let other = String::from_str(alloc, other)?;
        found.push(Rival { path, other })?;
    }
    Ok(())
}

// The keys that lead to a setting.
fn path_to(alloc: Global, setting: Setting, key: &str) -> Result<Vec<String>, NoMemory>
    ensures { IfOk result (λ path. map string_bytes path.items ≡ path_to setting key.now) }
{
    let mut path = Vec::new(alloc);
    path.push(String::from_str(alloc, "target")?)?;
    path.push(String::from_str(alloc, key)?)?;
    path.push(String::from_str(alloc, setting.key())?)?;
    Ok(path)
}
