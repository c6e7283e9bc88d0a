//! Copying target tables: field by field, and name by name below them.
ghost use Rattle.std.specs.Prelude.{IfOk, OnOk};
ghost use Rattle.cc2_value.specs.Copies.{origin_given, IsCopied};
ghost use Rattle.cc2_value.specs.Shown.{map_at};
ghost use Rattle.cc2_value.specs.Visits.{FieldsCopied};
ghost use Rattle.cc2_target_table.specs.Target.{target_fields, node_at};

use crate::target::{Kept, Node, TargetConfig, boxed_empty, insert};
use cc2_error::error::{NoMemory, Result};
use cc2_leaf::{Definition, TryClone, copy_fields};
use std::alloc::Global;
use std::collections::BTreeMap;

impl TryClone for TargetConfig {
    ghost use Rattle.cc2_target_table.specs.Target.{target_at};

    ghost shown = { target_at };

    fn copied(&self, alloc: Global, definition: Option<&Definition>) -> Result<TargetConfig> {
        let mut copy = TargetConfig::empty(alloc);
        copy_fields(alloc, self, &mut copy, definition)?;
        copy.nested = copied_nested(alloc, &self.nested, definition)?;
        Ok(copy)
    }
}

#[cycle(copy)]
fn copied_nested(
    alloc: Global,
    nested: &BTreeMap<String, Node>,
    definition: Option<&Definition>,
) -> Kept<BTreeMap<String, Node>>
    ensures { IfOk result (IsCopied (map_at node_at) (origin_given definition.entry) nested.now) }
{
    let mut copies = BTreeMap::new(alloc);
    for (key, node) in nested.iter() {
        let copy = copied_node(alloc, node, definition)?;
        insert(&mut copies, key.clone()?, copy)?;
    }
    Ok(copies)
}

#[cycle(copy)]
fn copied_node(alloc: Global, node: &Node, definition: Option<&Definition>) -> Kept<Node>
    ensures { IfOk result (IsCopied node_at (origin_given definition.entry) node.now) }
{
    let Node::Table(table) = node else {
        return Ok(Node::Undecoded);
    };
    let mut copy = boxed_empty(alloc)?;
    copy_own(alloc, table, &mut copy, definition)?;
    copy.nested = copied_nested(alloc, &table.nested, definition)?;
    Ok(Node::Table(copy))
}

// Copies the fields of a nested table.
#[inline(never)]
fn copy_own(
    alloc: Global,
    table: &TargetConfig,
    copy: &mut TargetConfig,
    definition: Option<&Definition>,
) -> Kept<()>
    ensures { OnOk result (FieldsCopied target_fields
        (origin_given definition.entry) table.now copy.new) }
{
    match copy_fields(alloc, table, copy, definition) {
        Ok(()) => Ok(()),
        Err(_) => Err(NoMemory),
    }
}
