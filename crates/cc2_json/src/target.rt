//! Target tables, which nest, as JSON.
ghost use Rattle.std.specs.Prelude.{◌∷◌, [], codes, IfOk, OnOk};
ghost use Rattle.cc2_value.specs.Rows.{keys_of_fields, looks_of_fields};
ghost use Rattle.cc2_value.specs.Shown.{option_at, map_at};
ghost use Rattle.cc2_target_table.specs.Target.{target_fields, target_at, node_at};
ghost use Rattle.cc2_json.specs.Json.{AreNamesPut, ArePut, IsJsonOf, IsPutBelow};

use crate::Json;
use crate::form::Form;
use crate::into_json::{IntoJson, JsonMember, leaf_json, object, put_field, put_name};
use crate::leaf::Leaf;
use cc2_target_table::{Node, TargetConfig};
use serde_json::Map;
use std::alloc::{AllocError, Global};
use std::collections::BTreeMap;

/// An object of what it has, even where it is empty. Where a field and a nested table have one key, the field
/// is shown.
impl IntoJson for TargetConfig {
    fn into_json(self, alloc: Global, form: Form) -> Result<Option<Json>, AllocError> {
        let mut members = Map::new(alloc);
        put_table(alloc, form, &self, &mut members)?;
        Ok(Some(object(members)))
    }
}

impl JsonMember for TargetConfig {
    ghost use Rattle.std.specs.Prelude.{refl};

    ghost own = { λ v. refl };
}

// Puts what a table has among the members.
#[cycle(json)]
fn put_table(
    alloc: Global,
    form: Form,
    table: &TargetConfig,
    members: &mut Map<String, Json>,
) -> Result<(), AllocError>
    ensures { OnOk result (IsPutBelow form
        (target_at table.now) members.old.entries members.new.entries) }
{
    put_nested(alloc, form, &table.nested, members)?;
    put_own(alloc, form, table, members)
}

// Puts what is nested among the members, each at its name.
#[cycle(json)]
fn put_nested(
    alloc: Global,
    form: Form,
    nested: &BTreeMap<String, Node>,
    members: &mut Map<String, Json>,
) -> Result<(), AllocError>
    ensures { OnOk result (AreNamesPut form (map_at node_at nested.now)
        members.old.entries members.new.entries) }
{
    for (name, node) in nested.iter() {
        let json = node_json(alloc, form, node)?;
        put_name(alloc, form, members, name.as_str(), json)?;
    }
    Ok(())
}

// A nested table; none for what doesn't decode.
#[cycle(json)]
fn node_json(alloc: Global, form: Form, node: &Node) -> Result<Option<Json>, AllocError>
    ensures { IfOk result (IsJsonOf form (node_at node.now)) }
{
    match node {
        Node::Table(table) => {
            let mut members = Map::new(alloc);
            put_table(alloc, form, table, &mut members)?;
            Ok(Some(object(members)))
        }
        Node::Undecoded => Ok(None),
    }
}

// Puts the fields of a table among the members, the last one first.
#[inline(never)]
fn put_own(
    alloc: Global,
    form: Form,
    table: &TargetConfig,
    members: &mut Map<String, Json>,
) -> Result<(), AllocError>
    ensures { OnOk result (ArePut form (keys_of_fields target_fields)
        (looks_of_fields target_fields table.now)
        members.old.entries members.new.entries) }
{
    put_leaf(alloc, form, members, "rustdocflags", &table.rustdocflags)?;
    put_leaf(alloc, form, members, "rustflags", &table.rustflags)?;
    put_leaf(alloc, form, members, "runner", &table.runner)?;
    put_leaf(alloc, form, members, "linker", &table.linker)
}

// Puts a value at its key among the members, if there is one.
fn put_leaf<T: Leaf>(
    alloc: Global,
    form: Form,
    members: &mut Map<String, Json>,
    key: &str,
    value: &Option<T>,
) -> Result<(), AllocError>
    ensures { OnOk result (ArePut form (key.now ∷ []) (option_at T.cell_at value.now ∷ [])
        members.old.entries members.new.entries) }
{
    let json = option_json(alloc, form, value)?;
    put_field(alloc, form, members, key, json)
}

fn option_json<T: Leaf>(
    alloc: Global,
    form: Form,
    value: &Option<T>,
) -> Result<Option<Json>, AllocError>
    ensures { IfOk result (IsJsonOf form (option_at T.cell_at value.now)) }
{
    match value {
        Some(value) => leaf_json(alloc, form, value),
        None => Ok(None),
    }
}
