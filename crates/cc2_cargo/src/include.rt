//! The files that a configuration file includes, as Cargo 1.95 reads the key `include`.
ghost use Rattle.std.specs.Prelude.{◌≡◌, ◌⊎◌, map, option_map, IfOk, IfErr, Ok, Err};
ghost use Rattle.toml.specs.View.{items_view, table_view, view};
ghost use Rattle.cc2_cargo.specs.Includes.{by_keys, by_optional, checked, include_of, include_view, includes_from, includes_in, is_include_path, is_pattern, listed_includes};
ghost use Rattle.cc2_cargo.specs.declared.include.IncludeFault.TheVariants as fault;

use cc2_base::path::extension;
use std::alloc::Global;

/// A file that another one includes (Cargo Reference, Configuration,
/// [`include`](https://doc.rust-lang.org/cargo/reference/config.html#including-extra-configuration-files)).
#[derive(Debug, Drop)]
pub struct Include {
    /// Its path, seen from the folder of the file that includes it.
    pub path: String,
    /// Whether it may be absent.
    pub optional: bool,
}

/// Why a file's `include` is rejected.
#[derive(Clone, Copy, Debug, PartialEq, Eq)]
pub enum IncludeFault {
    /// `include` is no array.
    NoArray,
    /// The item at this index is neither a text nor a table with a text `path` and, if it has one, a boolean
    /// `optional`.
    WrongType(usize),
    /// The path of the item at this index doesn't end with `.toml`, or has one of `*`, `?`, `[`, `]`, `{` and `}`.
    WrongPath(usize),
    /// Memory ran out.
    Memory,
}

/// The files that a file with this table includes, in their order: of two the later one is the stronger, and the file
/// itself is the strongest (Cargo Reference, Configuration,
/// [`include`](https://doc.rust-lang.org/cargo/reference/config.html#including-extra-configuration-files)).
///
/// # Errors
/// `IncludeFault`: the first item that has a fault, or `NoArray`, or `Memory`.
pub fn includes(alloc: Global, table: &toml::Table) -> Result<Vec<Include>, IncludeFault>
    ensures ok { IfOk result (λ list.
        includes_in (table_view table.now) ≡ Ok (map include_view list.items)) }
    ensures refused { IfErr result (λ e.
        (e ≡ fault.Memory) ⊎ (includes_in (table_view table.now) ≡ Err e)) }
{
    listed(alloc, table.get("include"))
}

// The files that the value of `include` lists.
fn listed(alloc: Global, found: Option<&toml::Value>) -> Result<Vec<Include>, IncludeFault>
    ensures ok { IfOk result (λ list. listed_includes (option_map (λ v. view v.now) found.entry)
        ≡ Ok (map include_view list.items)) }
    ensures refused { IfErr result (λ e. (e ≡ fault.Memory)
        ⊎ (listed_includes (option_map (λ v. view v.now) found.entry) ≡ Err e)) }
{
    match found {
        None => Ok(Vec::new(alloc)),
        Some(toml::Value::Array(items)) => each(alloc, items.as_slice()),
        Some(_) => Err(IncludeFault::NoArray),
    }
}

// The items, in their order.
fn each(alloc: Global, items: &[toml::Value]) -> Result<Vec<Include>, IncludeFault>
    ensures ok { IfOk result (λ list.
        includes_from 0 (items_view items.now) ≡ Ok (map include_view list.items)) }
    ensures refused { IfErr result (λ e.
        (e ≡ fault.Memory) ⊎ (includes_from 0 (items_view items.now) ≡ Err e)) }
{
    let mut list = Vec::new(alloc);
    for (index, item) in items.iter().enumerate() {
        let include = include_of(alloc, item, index)?;
        if list.push(include).is_err() {
            return Err(IncludeFault::Memory);
        }
    }
    Ok(list)
}

// The item at an index.
fn include_of(alloc: Global, item: &toml::Value, index: usize) -> Result<Include, IncludeFault>
    ensures ok { IfOk result (λ include.
        include_of index (view item.now) ≡ Ok (include_view include)) }
    ensures refused { IfErr result (λ e.
        (e ≡ fault.Memory) ⊎ (include_of index (view item.now) ≡ Err e)) }
{
    match item {
        toml::Value::String(path) => include_at(alloc, path.as_str(), false, index),
        other => by_keys(alloc, index, other.get("path"), other.get("optional")),
    }
}

// The same by the keys of a table.
fn by_keys(
    alloc: Global,
    index: usize,
    path: Option<&toml::Value>,
    optional: Option<&toml::Value>,
) -> Result<Include, IncludeFault>
    ensures ok { IfOk result (λ include. by_keys index (option_map (λ v. view v.now) path.entry)
        (option_map (λ v. view v.now) optional.entry) ≡ Ok (include_view include)) }
    ensures refused { IfErr result (λ e. (e ≡ fault.Memory)
        ⊎ (by_keys index (option_map (λ v. view v.now) path.entry)
        (option_map (λ v. view v.now) optional.entry) ≡ Err e)) }
{
    match path {
        Some(toml::Value::String(path)) => by_optional(alloc, index, path.as_str(), optional),
        _ => Err(IncludeFault::WrongType(index)),
    }
}

// The same of a path.
fn by_optional(
    alloc: Global,
    index: usize,
    path: &str,
    optional: Option<&toml::Value>,
) -> Result<Include, IncludeFault>
    ensures ok { IfOk result (λ include.
        by_optional index path.now (option_map (λ v. view v.now) optional.entry)
        ≡ Ok (include_view include)) }
    ensures refused { IfErr result (λ e. (e ≡ fault.Memory)
        ⊎ (by_optional index path.now (option_map (λ v. view v.now) optional.entry) ≡ Err e)) }
{
    match optional {
        None => include_at(alloc, path, false, index),
        Some(toml::Value::Boolean(optional)) => include_at(alloc, path, *optional, index),
        Some(_) => Err(IncludeFault::WrongType(index)),
    }
}

// The file at a path.
fn include_at(
    alloc: Global,
    path: &str,
    optional: bool,
    index: usize,
) -> Result<Include, IncludeFault>
    ensures ok { IfOk result (λ include.
        checked index path.now optional ≡ Ok (include_view include)) }
    ensures refused { IfErr result (λ e.
        (e ≡ fault.Memory) ⊎ (checked index path.now optional ≡ Err e)) }
{
    if !is_include_path(path) {
        return Err(IncludeFault::WrongPath(index));
    }
    match String::from_str(alloc, path) {
        Ok(path) => Ok(Include { path, optional }),
        Err(_) => Err(IncludeFault::Memory),
    }
}

// Whether a path ends with `.toml` and names one file alone.
fn is_include_path(path: &str) -> bool
    ensures { result ≡ is_include_path path.now }
{
    match extension(path) {
        Some(end) => end == "toml" && !is_pattern(path),
        None => false,
    }
}

// Whether a path may name several files.
fn is_pattern(path: &str) -> bool
    ensures { result ≡ is_pattern path.now }
{
    let bytes = path.as_bytes();
    bytes.contains(&b'*')
        || bytes.contains(&b'?')
        || bytes.contains(&b'[')
        || bytes.contains(&b']')
        || bytes.contains(&b'{')
        || bytes.contains(&b'}')
}
