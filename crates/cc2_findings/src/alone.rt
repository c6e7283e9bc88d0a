//! What is wrong in a file at each of its keys alone.
ghost use Rattle.std.specs.Prelude.{◌≡◌, ◌++◌, ℕ, List, Option, map, option_map, string_bytes, IfOk, OnOk};
ghost use Rattle.toml.specs.Data.{Members, no_members, member};
ghost use Rattle.toml.specs.View.{view, table_view};
ghost use Rattle.cc2_error.specs.declared.error.Error.{Error};
ghost use Rattle.cc2_findings.specs.Alone.{AreJudged, alone, alone_at, keys_of, value_fault};
ghost use Rattle.cc2_findings.specs.FindingViews.{finding_view};
ghost use Rattle.cc2_findings.specs.Founds.{where_found};

use crate::at_key::member;
use crate::finding::{Finding, Look, table_findings};
use cc2_error::error::{Error, NoMemory};
use std::alloc::Global;

/// A key of a file, set to a value that is refused.
#[derive(Debug, Drop)]
pub struct ValueFault {
    /// The keys that lead to it.
    pub path: Vec<String>,
    /// Why: the refusal of a file that sets this key so, and nothing else.
    pub error: Error,
}

/// What refuses files.
pub trait Judge: Drop {
    /// A file with this table, which sets these keys alone, is refused with this error, or it isn't refused.
    ghost judges: { Self → List (List ℕ) → Members → Option Error → Type 0 };

    /// Why a file with this table, which sets these keys alone, is refused, if it is.
    ///
    /// # Errors
    /// `NoMemory` where memory ran out.
    fn refusal(
        &self,
        alloc: Global,
        keys: &[String],
        table: &toml::Table,
    ) -> Result<Option<Error>, NoMemory>
        ensures { IfOk result
            (judges self.now (map string_bytes keys.now) (table_view table.now)) };
}

/// The keys of a file that `T` finds, in the order of its tables, which are set to values that are refused. Each by itself:
/// a file that sets the key so, and nothing else, is refused.
///
/// # Errors
/// `NoMemory` where memory ran out.
pub fn faults_alone<T: Look, J: Judge>(
    alloc: Global,
    table: &toml::Table,
    judge: &J,
) -> Result<Vec<ValueFault>, NoMemory>
    ensures { IfOk result (λ found.
        AreJudged (J.judges judge.now) (table_view table.now)
        (keys_of T.look (table_view table.now)) found.items) }
{
    let keys: Vec<Finding<T>> = table_findings(alloc, table)?;
    refused_among(alloc, table, keys, judge)
}

// Those of these keys.
fn refused_among<T: Look, J: Judge>(
    alloc: Global,
    table: &toml::Table,
    keys: Vec<Finding<T>>,
    judge: &J,
) -> Result<Vec<ValueFault>, NoMemory>
    ensures { IfOk result (λ found.
        AreJudged (J.judges judge.now) (table_view table.now)
        (map (λ f. f.0) (map finding_view keys.items)) found.items) }
{
    let mut found = Vec::new(alloc);
    for key in keys {
        let error = refused_alone(alloc, key.path.as_slice(), table, judge)?;
        keep(&mut found, key.path, error)?;
    }
    Ok(found)
}

// Appends a key to the others, where it is refused.
fn keep(
    found: &mut Vec<ValueFault>,
    path: Vec<String>,
    error: Option<Error>,
) -> Result<(), NoMemory>
    ensures { OnOk result (map value_fault found.new.items
        ≡ map value_fault found.old.items ++ where_found (map string_bytes path.items) error) }
{
    if let Some(error) = error {
        found.push(ValueFault { path, error })?;
    }
    Ok(())
}

// Why a file that sets these keys as this table does, and nothing else, is refused, if it is.
fn refused_alone<J: Judge>(
    alloc: Global,
    path: &[String],
    table: &toml::Table,
    judge: &J,
) -> Result<Option<Error>, NoMemory>
    ensures { IfOk result (J.judges judge.now (map string_bytes path.now)
        (alone (map string_bytes path.now) (table_view table.now))) }
{
    let alone = alone(alloc, path, table)?;
    judge.refusal(alloc, path, &alone)
}

// The table that sets a path of keys as this one does, and nothing else.
fn alone(alloc: Global, path: &[String], table: &toml::Table) -> Result<toml::Table, NoMemory>
    ensures { IfOk result (λ t.
        table_view t ≡ alone (map string_bytes path.now) (table_view table.now)) }
{
    match path {
        [] => Ok(toml::Table::new(alloc)),
        [key, behind @ ..] => alone_at(alloc, key, behind, member(table, key.as_str())),
    }
}

// The table that has this key alone, with what the keys after it lead to in its value; empty where it has none.
fn alone_at(
    alloc: Global,
    key: &String,
    behind: &[String],
    value: Option<&toml::Value>,
) -> Result<toml::Table, NoMemory>
    ensures { IfOk result (λ t. table_view t
        ≡ alone_at (string_bytes key.now) (map string_bytes behind.now)
        (option_map (λ v. view v.now) value.entry)) }
{
    let Some(value) = value else {
        return Ok(toml::Table::new(alloc));
    };
    match behind {
        [] => single(alloc, key, value.clone()?),
        [next, rest @ ..] => {
            let inner = alone_at(alloc, next, rest, value.get(next.as_str()))?;
            single(alloc, key, toml::Value::Table(inner))
        }
    }
}

// The table of one key.
fn single(alloc: Global, key: &String, value: toml::Value) -> Result<toml::Table, NoMemory>
    ensures { IfOk result (λ t.
        table_view t ≡ member (string_bytes key.now) (view value) no_members) }
{
    let mut table = toml::Table::new(alloc);
    drop(table.insert(key.clone()?, value)?);
    Ok(table)
}
