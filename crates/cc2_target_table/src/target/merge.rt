//! Merging target tables: field by field, and name by name below them.
ghost use Rattle.std.specs.Prelude.{◌≡◌, Some, true, false, string_bytes, IfOk, OnOk, IfErr, IfSome, IfNone};
ghost use Rattle.std.specs.BTreeMap.{Updates};
ghost use Rattle.std.specs.String.{string_cmp};
ghost use Rattle.cc2_error.specs.Below.{IsBelow};
ghost use Rattle.cc2_error.specs.Causes.{refusal_of, plain, memory};
ghost use Rattle.cc2_error.specs.declared.error.Error.{Error};
ghost use Rattle.cc2_value.specs.Gathered.{IsGathered, IsReversed, IsUngathered, FieldsGathered, FieldsReversed, IsFieldUngathered};
ghost use Rattle.cc2_value.specs.MapEntries.{IsEntryGathered, IsEntryUngathered};
ghost use Rattle.cc2_value.specs.Shown.{map_at};
ghost use Rattle.cc2_target_table.specs.Target.{target_fields, target_at, node_at};
ghost use Rattle.cc2_target_table.specs.Telling.{IsTold};
ghost use Rattle.cc2_target_table.specs.declared.target.Node.{Node};

use crate::target::{Kept, Node, TargetConfig, insert};
use cc2_error::error::{Error, ErrorKind, Result};
use cc2_leaf::{MergeFrom, gather_fields, reverse_fields};
use std::alloc::Global;
use std::collections::BTreeMap;
use std::mem::replace;

/// A table has precedence over a value that didn't decode, whichever is the stronger.
impl MergeFrom for TargetConfig {
    ghost use Rattle.cc2_target_table.specs.Target.{target_at};

    ghost cell_at = { target_at };

    fn gather(&mut self, alloc: Global, low: &mut TargetConfig) -> Result<()> {
        let mut refusal = None;
        let weaker = gather_own(alloc, low, self)?;
        if gather_nested(alloc, weaker, &mut self.nested, &mut refusal) {
            return Ok(());
        }
        Err(refusal.unwrap_or(Error::new(ErrorKind::Memory)))
    }

    fn reverse_lists(&mut self, alloc: Global) -> Kept<()> {
        let nested = reverse_own(alloc, self)?;
        self.nested = reversed_nested(alloc, nested)?;
        Ok(())
    }
}

// Reverses the lists of the fields, and gives what is nested.
#[inline(never)]
fn reverse_own(alloc: Global, table: &mut TargetConfig) -> Kept<BTreeMap<String, Node>>
    ensures fields { OnOk result (FieldsReversed target_fields table.old table.new) }
    ensures nested { IfOk result (λ nested. nested ≡ table.old.nested) }
{
    let nested = replace(&mut table.nested, BTreeMap::new(alloc));
    reverse_fields(alloc, table)?;
    Ok(nested)
}

// Nested tables with their lists reversed.
#[cycle(reverse)]
fn reversed_nested(alloc: Global, nested: BTreeMap<String, Node>) -> Kept<BTreeMap<String, Node>>
    ensures { IfOk result (IsReversed (map_at node_at) nested) }
{
    if nested.is_empty() {
        return Ok(nested);
    }
    let mut reversed = BTreeMap::new(alloc);
    for (key, node) in nested {
        let turned = reversed_node(alloc, node)?;
        insert(&mut reversed, key, turned)?;
    }
    Ok(reversed)
}

#[cycle(reverse)]
fn reversed_node(alloc: Global, node: Node) -> Kept<Node>
    ensures { IfOk result (IsReversed node_at node) }
{
    let Node::Table(table) = node else {
        return Ok(Node::Undecoded);
    };
    let mut turned = table;
    let nested = reverse_own(alloc, &mut turned)?;
    turned.nested = reversed_nested(alloc, nested)?;
    Ok(Node::Table(turned))
}

// Gathers the fields of the weaker table, and gives what is nested in it.
#[inline(never)]
fn gather_own(
    alloc: Global,
    low: &mut TargetConfig,
    high: &mut TargetConfig,
) -> Result<BTreeMap<String, Node>>
    ensures fields { OnOk result (FieldsGathered target_fields high.old low.old high.new) }
    ensures nested { OnOk result (high.new.nested ≡ high.old.nested) }
    ensures weaker { IfOk result (λ nested. nested ≡ low.old.nested) }
    ensures refused { IfErr result (IsFieldUngathered target_fields high.old low.old) }
{
    let weaker = replace(&mut low.nested, BTreeMap::new(alloc));
    let nested = replace(&mut high.nested, BTreeMap::new(alloc));
    gather_fields(alloc, high, low)?;
    high.nested = nested;
    Ok(weaker)
}

// The same of a nested table; a refusal is recorded.
#[inline(never)]
fn gather_own_or_tell(
    alloc: Global,
    low: &mut TargetConfig,
    high: &mut TargetConfig,
    refusal: &mut Option<Error>,
) -> Option<BTreeMap<String, Node>>
    ensures fields { IfSome result (λ nested.
        FieldsGathered target_fields high.old low.old high.new) }
    ensures nested { IfSome result (λ nested. high.new.nested ≡ high.old.nested) }
    ensures weaker { IfSome result (λ nested. nested ≡ low.old.nested) }
    ensures refused { IfNone result
        (IsTold refusal.new (IsFieldUngathered target_fields high.old low.old)) }
{
    match gather_own(alloc, low, high) {
        Ok(weaker) => Some(weaker),
        Err(error) => {
            *refusal = Some(error);
            None
        }
    }
}

// These answer whether all was gathered, and put a refusal down: a level of them takes little of the
// stack. The weaker one comes first, since they go down it: each of its entries moves once.
#[cycle(gather)]
fn gather_nested(
    alloc: Global,
    low: BTreeMap<String, Node>,
    high: &mut BTreeMap<String, Node>,
    refusal: &mut Option<Error>,
) -> bool
    ensures ok { result ≡ true → IsGathered (map_at node_at) high.old low high.new }
    ensures refused { result ≡ false
        → IsTold refusal.new (IsUngathered (map_at node_at) high.old low) }
{
    if low.is_empty() {
        return true;
    }
    for (key, weaker) in low {
        if !gather_entry(alloc, weaker, key, high, refusal) {
            return false;
        }
    }
    true
}

#[cycle(gather)]
fn gather_entry(
    alloc: Global,
    low: Node,
    key: String,
    high: &mut BTreeMap<String, Node>,
    refusal: &mut Option<Error>,
) -> bool
    ensures ok { result ≡ true → IsEntryGathered node_at high.old (string_bytes key) low high.new }
    ensures refused { result ≡ false
        → IsTold refusal.new (IsEntryUngathered node_at high.old (string_bytes key) low) }
{
    match high.get_mut(key.as_str()) {
        None => insert_or_tell(alloc, high, key, low, refusal),
        Some(stronger) => {
            if gather_nodes(alloc, low, stronger, refusal) {
                return true;
            }
            tell_below(alloc, key.as_str(), refusal);
            false
        }
    }
}

#[cycle(gather)]
fn gather_nodes(alloc: Global, low: Node, high: &mut Node, refusal: &mut Option<Error>) -> bool
    ensures ok { result ≡ true → IsGathered node_at high.old low high.new }
    ensures refused { result ≡ false → IsTold refusal.new (IsUngathered node_at high.old low) }
{
    let Node::Table(table) = low else {
        return true;
    };
    let mut weaker = table;
    match replace(high, Node::Undecoded) {
        Node::Undecoded => put_reversed(alloc, Node::Table(weaker), high, refusal),
        Node::Table(table) => {
            let mut stronger = table;
            if !gather_tables(alloc, &mut weaker, &mut stronger, refusal) {
                return false;
            }
            *high = Node::Table(stronger);
            true
        }
    }
}

#[cycle(gather)]
fn gather_tables(
    alloc: Global,
    low: &mut TargetConfig,
    high: &mut TargetConfig,
    refusal: &mut Option<Error>,
) -> bool
    ensures ok { result ≡ true → IsGathered target_at high.old low.old high.new }
    ensures refused { result ≡ false
        → IsTold refusal.new (IsUngathered target_at high.old low.old) }
{
    match gather_own_or_tell(alloc, low, high, refusal) {
        None => false,
        Some(weaker) => gather_nested(alloc, weaker, &mut high.nested, refusal),
    }
}

// Puts a node in place of another, with its lists reversed; a refusal is recorded.
#[inline(never)]
fn put_reversed(alloc: Global, node: Node, slot: &mut Node, refusal: &mut Option<Error>) -> bool
    ensures ok { result ≡ true → IsReversed node_at node slot.new }
    ensures refused { result ≡ false → IsTold refusal.new (λ e. refusal_of e ≡ plain memory) }
{
    match reversed_node(alloc, node) {
        Ok(reversed) => {
            *slot = reversed;
            true
        }
        Err(_) => {
            *refusal = Some(Error::new(ErrorKind::Memory));
            false
        }
    }
}

// Puts a node at a key, with its lists reversed; a refusal is recorded.
#[inline(never)]
fn insert_or_tell(
    alloc: Global,
    nested: &mut BTreeMap<String, Node>,
    key: String,
    node: Node,
    refusal: &mut Option<Error>,
) -> bool
    ensures ok { result ≡ true → (n : Node) × IsReversed node_at node n
        × Updates string_cmp nested.old nested.new key (Some n) }
    ensures refused { result ≡ false → IsTold refusal.new (λ e. refusal_of e ≡ plain memory) }
{
    match insert_reversed(alloc, nested, key, node) {
        Ok(()) => true,
        Err(_) => {
            *refusal = Some(Error::new(ErrorKind::Memory));
            false
        }
    }
}

fn insert_reversed(
    alloc: Global,
    nested: &mut BTreeMap<String, Node>,
    key: String,
    node: Node,
) -> Kept<()>
    ensures { OnOk result ((n : Node) × IsReversed node_at node n
        × Updates string_cmp nested.old nested.new key (Some n)) }
{
    let node = reversed_node(alloc, node)?;
    insert(nested, key, node)
}

// The refusal that was recorded, with the key in front of its path.
#[inline(never)]
fn tell_below(alloc: Global, key: &str, refusal: &mut Option<Error>)
    ensures { (e : Error) → refusal.old ≡ Some e → IsTold refusal.new (λ f.
        IsBelow key.now (refusal_of e) (refusal_of f)) }
{
    if let Some(error) = refusal.take() {
        *refusal = Some(error.below(alloc, key));
    }
}
