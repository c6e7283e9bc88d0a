//! What is found in the tables of a file, at each key by its place.
ghost use Rattle.std.specs.Prelude.{◌≡◌, ℕ, List, Option, ◌∷◌, ◌++◌, map, string_bytes, IfOk};
ghost use Rattle.toml.specs.Data.{Data};
ghost use Rattle.toml.specs.View.{view, table_view};
ghost use Rattle.cc2_findings.specs.declared.place.Place.{Place};
ghost use Rattle.cc2_findings.specs.Findings.{findings_in, findings_at, findings_under, findings_below, below_key, own};
ghost use Rattle.cc2_findings.specs.FindingViews.{finding_view};

use crate::place::Place;
use cc2_error::error::NoMemory;
use std::alloc::Global;

/// What is looked for at the keys of a file.
pub trait Look: Copy + Drop {
    /// What is found at a key of a table at this place.
    ghost look: { Place → List ℕ → Data → Option Self };

    /// What is found at a key of a table at this place, if anything.
    fn look(place: Place, key: &str, value: &toml::Value) -> Option<Self>
        ensures { result ≡ look place key.now (view value.now) };
}

/// What is found at a key of a file (Cargo Reference, Configuration,
/// [configuration keys](https://doc.rust-lang.org/cargo/reference/config.html#configuration-keys)).
#[derive(Debug, Drop)]
pub struct Finding<T> {
    /// The keys that lead to it, its own the last.
    pub path: Vec<String>,
    /// What is found.
    pub kind: T,
}

/// What is found in a file's tables: at each key of a table in turn what is found at it, and then what is found
/// below it. See the Cargo Reference, Configuration,
/// [configuration keys](https://doc.rust-lang.org/cargo/reference/config.html#configuration-keys).
///
/// # Errors
/// `NoMemory` where memory ran out.
pub fn table_findings<T: Look>(
    alloc: Global,
    table: &toml::Table,
) -> Result<Vec<Finding<T>>, NoMemory>
    ensures { IfOk result (λ found.
        map finding_view found.items ≡ findings_in T.look Place.Config (table_view table.now)) }
{
    findings_in(alloc, Place::Config, table)
}

// What is found in a table at this place.
#[cycle(findings)]
fn findings_in<T: Look>(
    alloc: Global,
    place: Place,
    table: &toml::Table,
) -> Result<Vec<Finding<T>>, NoMemory>
    ensures { IfOk result (λ found.
        map finding_view found.items ≡ findings_in T.look place (table_view table.now)) }
{
    let mut found = Vec::new(alloc);
    for (key, value) in table.iter() {
        let mut more = findings_at(alloc, place, key, value)?;
        found.append(&mut more)?;
    }
    Ok(found)
}

// What is found at a key of a table at this place, and below it.
#[cycle(findings)]
fn findings_at<T: Look>(
    alloc: Global,
    place: Place,
    key: &String,
    value: &toml::Value,
) -> Result<Vec<Finding<T>>, NoMemory>
    ensures { IfOk result (λ found.
        map finding_view found.items
        ≡ findings_at T.look place (string_bytes key.now) (view value.now)) }
{
    let mut found = own(alloc, key, T::look(place, key.as_str(), value))?;
    let place = place.opened(key.as_str(), value.is_table());
    let mut inner = findings_under(alloc, place, key, value)?;
    found.append(&mut inner)?;
    Ok(found)
}

// What is found below a key whose value is at this place.
#[cycle(findings)]
fn findings_under<T: Look>(
    alloc: Global,
    place: Option<Place>,
    key: &String,
    value: &toml::Value,
) -> Result<Vec<Finding<T>>, NoMemory>
    ensures { IfOk result (λ found.
        map finding_view found.items
        ≡ findings_under T.look place (string_bytes key.now) (view value.now)) }
{
    match place {
        Some(place) => {
            let inner = findings_below(alloc, place, value)?;
            all_below(alloc, key, inner)
        }
        None => Ok(Vec::new(alloc)),
    }
}

// What is found in a value at this place.
#[cycle(findings)]
fn findings_below<T: Look>(
    alloc: Global,
    place: Place,
    value: &toml::Value,
) -> Result<Vec<Finding<T>>, NoMemory>
    ensures { IfOk result (λ found.
        map finding_view found.items ≡ findings_below T.look place (view value.now)) }
{
    match value {
        toml::Value::Table(table) => findings_in(alloc, place, table),
        _ => Ok(Vec::new(alloc)),
    }
}

// What is found at a key itself.
fn own<T: Look>(alloc: Global, key: &String, kind: Option<T>) -> Result<Vec<Finding<T>>, NoMemory>
    ensures { IfOk result (λ found.
        map finding_view found.items ≡ own (string_bytes key.now) kind) }
{
    let mut found = Vec::new(alloc);
    if let Some(kind) = kind {
        let mut path = Vec::new(alloc);
        path.push(key.clone()?)?;
        found.push(Finding { path, kind })?;
    }
    Ok(found)
}

// Each below a key.
fn all_below<T: Look>(
    alloc: Global,
    key: &String,
    inner: Vec<Finding<T>>,
) -> Result<Vec<Finding<T>>, NoMemory>
    ensures { IfOk result (λ found.
        map finding_view found.items
        ≡ below_key (string_bytes key.now) (map finding_view inner.items)) }
{
    let mut found = Vec::new(alloc);
    for finding in inner {
        found.push(one_below(alloc, key, finding)?)?;
    }
    Ok(found)
}

fn one_below<T: Look>(
    alloc: Global,
    key: &String,
    inner: Finding<T>,
) -> Result<Finding<T>, NoMemory>
    ensures { IfOk result (λ found.
        finding_view found ≡ (
          string_bytes key.now
              ∷ (finding_view inner).0,
          (finding_view inner).1,
        )) }
{
    let mut path = Vec::new(alloc);
    path.push(key.clone()?)?;
    let mut rest = inner.path;
    path.append(&mut rest)?;
    Ok(Finding {
        path,
        kind: inner.kind,
    })
}
