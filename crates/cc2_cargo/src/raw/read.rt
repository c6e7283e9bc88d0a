//! Reading raw values from TOML: floats and dates are refused.
ghost use Rattle.std.specs.Prelude.{◌≡◌, ℕ, ◌∷◌, ◌++◌, [], List, true, false, map, Some, None, Ok, Err, IfOk, IfErr, IfSome, IfNone};
ghost use Rattle.std.specs.BTreeMap.{get_by_text};
ghost use Rattle.std.specs.List.Sorted.{IsStrictlySortedBy};
ghost use Rattle.std.specs.Map.{keys_of};
ghost use Rattle.std.specs.String.{string_cmp};
ghost use Rattle.toml.specs.View.{view, items_view, table_view, array_view};
ghost use Rattle.cc2_error.specs.Causes.{memory, no_memory, plain, refusal_of};
ghost use Rattle.cc2_value.specs.Maps.{found};
ghost use Rattle.cc2_cargo.specs.Raw as cell;
ghost use Rattle.cc2_cargo.specs.Raw.{layer_origin, raw_members_at, raw_value};
ghost use Rattle.cc2_cargo.specs.RawReading as spec;
ghost use Rattle.cc2_cargo.specs.RawReading.{AreRawRead, IsFaulted, IsOne, IsRawRead, IsWrong, array_set, value_set, values_set, wrong_in, wrong_paths};

use crate::layer::LayerOrigin;
use crate::raw::{Raw, RawArray, name_fault};
use cc2_error::error::{Error, ErrorKind, ParseCause, Result};
use cc2_value::{Value, defined, from_sorted};
use std::alloc::Global;
use std::collections::BTreeMap;

// These give nothing where there is an error, and record it: a level of them takes little of the stack.
#[cycle(read)]
fn read_raw(
    alloc: Global,
    value: toml::Value,
    from: &LayerOrigin,
    fault: &mut Option<Error>,
) -> Option<Raw>
    ensures ok { IfSome result (IsRawRead (layer_origin from.now) (view value)) }
    ensures refused { IfNone result (IsFaulted fault.new (IsWrong (wrong_paths (view value)))) }
{
    match value {
        toml::Value::Table(table) => match read_table(alloc, table, from, fault) {
            Some(members) => Some(Raw::Table(members)),
            None => None,
        },
        toml::Value::Array(items) => read_array(alloc, items, from, fault),
        toml::Value::String(text) => { read_single(alloc, toml::Value::String(text), from, fault) }
        toml::Value::Integer(number) => {
            read_single(alloc, toml::Value::Integer(number), from, fault)
        }
        toml::Value::Boolean(truth) => {
            read_single(alloc, toml::Value::Boolean(truth), from, fault)
        }
        toml::Value::Float(_) => refuse(alloc, fault),
        toml::Value::Datetime(_) => refuse(alloc, fault),
    }
}

/// The members of a table, each value set where its layer is; none where there is an error, which is recorded.
#[cycle(read)]
pub(crate) fn read_table(
    alloc: Global,
    table: toml::Table,
    from: &LayerOrigin,
    fault: &mut Option<Error>,
) -> Option<BTreeMap<String, Raw>>
    ensures ok { IfSome result (λ members.
        AreRawRead (layer_origin from.now) (table_view table) (raw_members_at members)) }
    ensures refused { IfNone result (IsFaulted fault.new (IsWrong (wrong_in (table_view table)))) }
{
    let mut members = Vec::new(alloc);
    for (name, value) in table {
        match read_raw(alloc, value, from, fault) {
            None => {
                name_fault(alloc, name.as_str(), fault);
                return None;
            }
            Some(read) => {
                if !push(&mut members, name, read, fault) {
                    return None;
                }
            }
        }
    }
    built(alloc, members, fault)
}

// Appends a member.
#[inline(never)]
fn push(members: &mut Vec<(String, Raw)>, name: String, raw: Raw, fault: &mut Option<Error>) -> bool
    ensures ok { result ≡ true → members.new.items ≡ members.old.items ++ (name, raw) ∷ [] }
    ensures refused { result ≡ false → IsFaulted fault.new (λ e. refusal_of e ≡ plain memory) }
{
    if members.push((name, raw)).is_ok() {
        return true;
    }
    *fault = Some(Error::new(ErrorKind::Memory));
    false
}

// The table of members that are sorted by their keys.
#[inline(never)]
fn built(
    alloc: Global,
    members: Vec<(String, Raw)>,
    fault: &mut Option<Error>,
) -> Option<BTreeMap<String, Raw>>
    requires { IsStrictlySortedBy string_cmp (keys_of members.items) }
    ensures ok { IfSome result (λ map. (k : List ℕ) → get_by_text map k ≡ found k members.items) }
    ensures refused { IfNone result (IsFaulted fault.new (λ e. refusal_of e ≡ plain memory)) }
{
    match from_sorted(alloc, members) {
        Ok(members) => Some(members),
        Err(_) => {
            *fault = Some(Error::new(ErrorKind::Memory));
            None
        }
    }
}

// A single value that is set where its layer is; an error is recorded.
#[inline(never)]
fn read_single(
    alloc: Global,
    val: toml::Value,
    from: &LayerOrigin,
    fault: &mut Option<Error>,
) -> Option<Raw>
    ensures ok { IfSome result
        (IsOne (cell.single (value_set (layer_origin from.now).origin (view val)))) }
    ensures refused { IfNone result (IsFaulted fault.new (λ e. e ≡ no_memory)) }
{
    read_or_record(single(alloc, val, from), fault)
}

// An array, each item set where its layer is; an error is recorded.
#[inline(never)]
fn read_array(
    alloc: Global,
    items: Vec<toml::Value>,
    from: &LayerOrigin,
    fault: &mut Option<Error>,
) -> Option<Raw>
    ensures ok { IfSome result
        (IsOne (array_set (layer_origin from.now) (array_view items))) }
    ensures supported { IfSome result (λ raw. spec.are_supported (array_view items) ≡ true) }
    ensures refused { IfNone result
        (IsFaulted fault.new (IsWrong (spec.array_paths (array_view items)))) }
{
    read_or_record(array(alloc, items, from), fault)
}

// Records that no key may have a value.
#[inline(never)]
fn refuse(alloc: Global, fault: &mut Option<Error>) -> Option<Raw>
    ensures none { result ≡ None }
    ensures refused { IsFaulted fault.new (IsWrong ([] ∷ [])) }
{
    *fault = Some(unsupported(alloc));
    None
}

// What is read; an error is recorded.
fn read_or_record(read: Result<Raw>, fault: &mut Option<Error>) -> Option<Raw>
    ensures ok { IfSome result (λ raw. read ≡ Ok raw) }
    ensures refused { IfNone result (IsFaulted fault.new (λ e. read ≡ Err e)) }
{
    match read {
        Ok(raw) => Some(raw),
        Err(error) => {
            *fault = Some(error);
            None
        }
    }
}

// A single value that is set where its layer is.
fn single(alloc: Global, val: toml::Value, from: &LayerOrigin) -> Result<Raw>
    ensures ok { IfOk result
        (IsOne (cell.single (value_set (layer_origin from.now).origin (view val)))) }
    ensures refused { IfErr result (λ e. e ≡ no_memory) }
{
    Ok(Raw::Single(value_at(alloc, val, from)?))
}

// An array, each item set where its layer is.
fn array(alloc: Global, items: Vec<toml::Value>, from: &LayerOrigin) -> Result<Raw>
    ensures ok { IfOk result
        (IsOne (array_set (layer_origin from.now) (array_view items))) }
    ensures supported { IfOk result (λ raw. spec.are_supported (array_view items) ≡ true) }
    ensures refused { IfErr result (λ e.
        IsWrong (spec.array_paths (array_view items)) e) }
{
    if !are_supported(items.as_slice()) {
        return Err(unsupported(alloc));
    }
    Ok(Raw::Array(RawArray {
        items: items_at(alloc, items, from)?,
        definition: defined(alloc, Some(&from.definition))?,
        turn: from.turn,
    }))
}

// Items that are set where their layer is.
fn items_at(
    alloc: Global,
    items: Vec<toml::Value>,
    from: &LayerOrigin,
) -> Result<Vec<Value<toml::Value>>>
    ensures ok { IfOk result (λ read. map raw_value read.items
        ≡ values_set (layer_origin from.now).origin (array_view items)) }
    ensures refused { IfErr result (λ e. e ≡ no_memory) }
{
    let mut read = Vec::with_capacity(alloc, items.len())?;
    for item in items {
        read.push(value_at(alloc, item, from)?)?;
    }
    Ok(read)
}

// A value that is set where its layer is.
fn value_at(alloc: Global, val: toml::Value, from: &LayerOrigin) -> Result<Value<toml::Value>>
    ensures ok { IfOk result (λ value.
        raw_value value ≡ value_set (layer_origin from.now).origin (view val)) }
    ensures refused { IfErr result (λ e. e ≡ no_memory) }
{
    Ok(Value {
        val,
        definition: defined(alloc, Some(&from.definition))?,
    })
}

// Whether a value has no float and no date in it.
#[cycle(supported)]
fn is_supported(value: &toml::Value) -> bool
    ensures { result ≡ spec.is_supported (view value.now) }
{
    match value {
        toml::Value::Float(_) => false,
        toml::Value::Datetime(_) => false,
        toml::Value::Array(items) => are_supported(items.as_slice()),
        toml::Value::Table(table) => have_supported(table),
        _ => true,
    }
}

// The same of each item.
#[cycle(supported)]
fn are_supported(items: &[toml::Value]) -> bool
    ensures { result ≡ spec.are_supported (items_view items.now) }
{
    for item in items {
        if !is_supported(item) {
            return false;
        }
    }
    true
}

// The same of each member.
#[cycle(supported)]
fn have_supported(table: &toml::Table) -> bool
    ensures { result ≡ spec.have_supported (table_view table.now) }
{
    for (_, value) in table.iter() {
        if !is_supported(value) {
            return false;
        }
    }
    true
}

// The error for a value that no key may have. Its key path is still empty.
fn unsupported(alloc: Global) -> Error
    ensures { IsWrong ([] ∷ []) result }
{
    let path = Vec::new(alloc);
    Error::new(ErrorKind::ParseFile(ParseCause::WrongType { path }))
}
