//! What is wrong with the keys of a file's table `target`.
ghost use Rattle.std.specs.Prelude.{◌≡◌, ◌++◌, map, string_bytes, IfOk, OnOk};
ghost use Rattle.toml.specs.View.{view, table_view};
ghost use Rattle.cc2_findings.specs.KeyFindings.{AreJudged, names_of, names_below, target_names, shown_fault};
ghost use Rattle.cc2_findings.specs.Founds.{where_found};

use crate::at_key::member;
use crate::cfg_key::{KeyFault, key_fault};
use cc2_error::error::NoMemory;
use std::alloc::Global;

/// A key of `[target]` with what is wrong with it (Cargo Reference, Configuration,
/// [`[target]`](https://doc.rust-lang.org/cargo/reference/config.html#target)).
#[derive(Debug, Drop)]
pub struct CfgFinding {
    /// The key.
    pub key: String,
    /// What is wrong with it.
    pub fault: KeyFault,
}

/// What is wrong with the keys of a file's table `target`, in its order; nothing where there is
/// none (Cargo Reference, Configuration,
/// [`[target]`](https://doc.rust-lang.org/cargo/reference/config.html#target)).
///
/// # Errors
/// `NoMemory` where memory ran out.
pub fn cfg_findings(alloc: Global, table: &toml::Table) -> Result<Vec<CfgFinding>, NoMemory>
    ensures { IfOk result (λ found.
        AreJudged (target_names (table_view table.now)) (map shown_fault found.items)) }
{
    match member(table, "target") {
        None => Ok(Vec::new(alloc)),
        Some(target) => value_findings(alloc, target),
    }
}

// What is wrong with the keys of a value; nothing where it is no table.
fn value_findings(alloc: Global, value: &toml::Value) -> Result<Vec<CfgFinding>, NoMemory>
    ensures { IfOk result (λ found.
        AreJudged (names_below (view value.now)) (map shown_fault found.items)) }
{
    match value.as_table() {
        None => Ok(Vec::new(alloc)),
        Some(table) => names_findings(alloc, table),
    }
}

// What is wrong with the keys of a table.
fn names_findings(alloc: Global, table: &toml::Table) -> Result<Vec<CfgFinding>, NoMemory>
    ensures { IfOk result (λ found.
        AreJudged (names_of (table_view table.now)) (map shown_fault found.items)) }
{
    let mut found = Vec::new(alloc);
    for (key, _) in table.iter() {
        let fault = key_fault(alloc, key.as_str())?;
        keep(&mut found, key, fault)?;
    }
    Ok(found)
}

// Appends a key to the others, where something is wrong with it.
fn keep(found: &mut Vec<CfgFinding>, key: &String, fault: Option<KeyFault>) -> Result<(), NoMemory>
    ensures { OnOk result (map shown_fault found.new.items
        ≡ map shown_fault found.old.items ++ where_found (string_bytes key.now) fault) }
{
    if let Some(fault) = fault {
        let key = key.clone()?;
        found.push(CfgFinding { key, fault })?;
    }
    Ok(())
}
