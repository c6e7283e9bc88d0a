//! Reading target tables: what is below a key that is none of the fields is a table, or a mark.
ghost use Rattle.std.specs.Prelude.{◌≡◌, ◌≢◌, ℕ, List, None, Some, true, false, IfOk, OnOk};
ghost use Rattle.std.specs.BTreeMap.{Updates, get_by_text};
ghost use Rattle.std.specs.String.{string_cmp};
ghost use Rattle.toml.specs.View.{view, table_view};
ghost use Rattle.cc2_error.specs.Causes.{refusal_of, memory};
ghost use Rattle.cc2_value.specs.Copies.{origin_given};
ghost use Rattle.cc2_value.specs.Visits.{FieldsDecoded};
ghost use Rattle.cc2_target_table.specs.Target.{target_fields};
ghost use Rattle.cc2_target_table.specs.TargetReading.{is_field, own_faults, AreOwn, IsFaulty, IsKept, IsKeptOf};

use crate::target::{Kept, Node, TargetConfig, boxed_empty, insert};
use cc2_error::error::{Error, ErrorKind, NoMemory, Result};
use cc2_leaf::{Decode, Definition, read_fields, wrong_type};
use std::alloc::Global;
use std::collections::BTreeMap;

/// Read from a table whose own four fields have no fault. What is below another key is kept as
/// a table where it reads so, and else as a mark of its place alone.
impl Decode for TargetConfig {
    ghost use Rattle.cc2_target_table.specs.TargetReading.{target_way};

    ghost way = { target_way };

    fn read(
        alloc: Global,
        value: toml::Value,
        key: &str,
        definition: Option<&Definition>,
    ) -> Result<TargetConfig> {
        let toml::Value::Table(table) = value else {
            return Err(wrong_type(alloc, key));
        };
        let parts = read_nested(alloc, table, definition)?;
        let mut read = TargetConfig::empty(alloc);
        match read_fields(alloc, &mut read, parts.own, definition) {
            Err(error) => Err(error.below(alloc, key)),
            Ok(()) => {
                read.nested = parts.nested;
                Ok(read)
            }
        }
    }
}

// A table taken apart: the values of its fields, and what is read of its other keys.
#[derive(Drop)]
struct Parts {
    own: toml::Table,
    nested: BTreeMap<String, Node>,
}

#[cycle(read)]
fn read_nested(alloc: Global, table: toml::Table, definition: Option<&Definition>) -> Kept<Parts>
    ensures own { IfOk result (λ parts. AreOwn table parts.own) }
    ensures nested { IfOk result (λ parts.
        IsKeptOf (origin_given definition.entry) (table_view table) parts.nested) }
{
    if has_fields_alone(&table) {
        return Ok(Parts {
            own: table,
            nested: BTreeMap::new(alloc),
        });
    }
    let mut own = toml::Table::new(alloc);
    let mut nested = BTreeMap::new(alloc);
    for (name, value) in table {
        if is_field(name.as_str()) {
            put(&mut own, name, value)?;
        } else {
            let node = read_node(alloc, value, definition)?;
            insert(&mut nested, name, node)?;
        }
    }
    Ok(Parts { own, nested })
}

#[cycle(read)]
fn read_node(alloc: Global, value: toml::Value, definition: Option<&Definition>) -> Kept<Node>
    ensures { IfOk result (IsKept (origin_given definition.entry) (view value)) }
{
    let toml::Value::Table(table) = value else {
        return Ok(Node::Undecoded);
    };
    let parts = read_nested(alloc, table, definition)?;
    let mut read = boxed_empty(alloc)?;
    if !read_own(alloc, parts.own, definition, &mut read)? {
        return Ok(Node::Undecoded);
    }
    read.nested = parts.nested;
    Ok(Node::Table(read))
}

// Puts a field's value at its key.
#[inline(never)]
fn put(own: &mut toml::Table, key: String, value: toml::Value) -> Kept<()>
    ensures { OnOk result (Updates string_cmp own.old own.new key (Some value)) }
{
    own.insert(key, value)?;
    Ok(())
}

// Reads the fields of a nested table, and tells whether they have no fault.
#[inline(never)]
fn read_own(
    alloc: Global,
    table: toml::Table,
    definition: Option<&Definition>,
    read: &mut TargetConfig,
) -> Kept<bool>
    ensures sound { IfOk result (λ sound.
        sound ≡ true → FieldsDecoded target_fields (origin_given definition.entry)
        (table_view table) read.new) }
    ensures faulty { IfOk result (λ sound.
        sound ≡ false → IsFaulty (own_faults (Some (table_view table)))) }
{
    match read_fields(alloc, read, table, definition) {
        Ok(()) => Ok(true),
        Err(error) => faulty(error),
    }
}

// That a table has a fault, where the error is not that memory ran out.
fn faulty(error: Error) -> Kept<bool>
    ensures { IfOk result (λ sound. (sound ≡ false) × ((refusal_of error).cause ≢ memory)) }
{
    if matches!(error.kind(), ErrorKind::Memory) {
        return Err(NoMemory);
    }
    Ok(false)
}

// Whether each key of the table is that of a field.
fn has_fields_alone(table: &toml::Table) -> bool
    ensures { result ≡ true → (k : List ℕ) → is_field k ≡ false → get_by_text table.now k ≡ None }
{
    for (name, _) in table.iter() {
        if !is_field(name.as_str()) {
            return false;
        }
    }
    true
}

// Whether the key is that of a field.
fn is_field(key: &str) -> bool
    ensures { result ≡ is_field key.now }
{
    key == "linker" || key == "runner" || key == "rustflags" || key == "rustdocflags"
}
