//! What target tables send to a serializer: their fields, and what is nested in them.
use crate::target::{Node, TargetConfig};
use serde::{Described, Serialize, Serializer};

impl Described for TargetConfig {}

/// A table of the fields that are set, with each nested table below its key. A value that doesn't
/// read as a table has nothing to print, and its key is left out.
impl Serialize for TargetConfig {
    fn serialize<S: Serializer>(&self, out: &mut S) -> Result<(), S::Error> {
        send_table(self, out)
    }
}

#[cycle(send)]
fn send_table<S: Serializer>(table: &TargetConfig, out: &mut S) -> Result<(), S::Error> {
    out.begin_map(None)?;
    send_fields(table, out)?;
    for (key, node) in table.nested.iter() {
        send_node(key.as_str(), node, out)?;
    }
    out.end_map()
}

#[cycle(send)]
fn send_node<S: Serializer>(key: &str, node: &Node, out: &mut S) -> Result<(), S::Error> {
    let Node::Table(table) = node else {
        return Ok(());
    };
    send_key(key, out)?;
    send_table(table, out)
}

// Sends the fields that are set.
#[inline(never)]
fn send_fields<S: Serializer>(table: &TargetConfig, out: &mut S) -> Result<(), S::Error> {
    send_field("linker", &table.linker, out)?;
    send_field("runner", &table.runner, out)?;
    send_field("rustflags", &table.rustflags, out)?;
    send_field("rustdocflags", &table.rustdocflags, out)
}

// Sends a field where it is set.
fn send_field<T: Serialize, S: Serializer>(
    key: &str,
    field: &Option<T>,
    out: &mut S,
) -> Result<(), S::Error> {
    match field {
        None => Ok(()),
        Some(value) => {
            out.key(key)?;
            value.serialize(out)
        }
    }
}

// Sends the key of a nested table.
#[inline(never)]
fn send_key<S: Serializer>(key: &str, out: &mut S) -> Result<(), S::Error> {
    out.begin_key()?;
    out.str(key)?;
    out.end_key()
}
