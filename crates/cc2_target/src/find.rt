//! The table of a triple below `target`.
ghost use Rattle.cc2_value.specs.Shown.{map_at};
ghost use Rattle.cc2_target_table.specs.Target.{target_at};
ghost use Rattle.cc2_target.specs.Finding.{IsCutAtDot, IsFound, table_path};

use cc2_target_table::{Nested, TargetConfig};
use std::collections::BTreeMap;

/// The table of a triple (Cargo Reference, Configuration,
/// [`[target]`](https://doc.rust-lang.org/cargo/reference/config.html#target)). A triple that has
/// dots is one key, or its first pieces are keys and the rest is one key below them: TOML reads
/// `[target.thumbv8m.main-none-eabi]` as two keys. The fewest first pieces win, where something
/// is at the path and tables are above it. None where that is a value that doesn't read as a
/// table, and where nothing is on any of these paths.
pub fn find_table<'a>(
    tables: &'a BTreeMap<String, TargetConfig>,
    triple: &str,
) -> Option<&'a TargetConfig>
    ensures { IsFound (map_at target_at tables.now)
        (table_path (map_at target_at tables.now) triple.now) result }
{
    match tables.get(triple) {
        Some(table) => Some(table),
        None => match cut_at_dot(triple) {
            None => None,
            Some((first, rest)) => match tables.get(first) {
                None => None,
                Some(table) => find_below(table, rest),
            },
        },
    }
}

// The same of what is left of a triple, in the table of its front.
fn find_below<'a>(table: &'a TargetConfig, rest: &str) -> Option<&'a TargetConfig>
    ensures { IsFound (target_at table.now) (table_path (target_at table.now) rest.now) result }
{
    match table.nested(rest) {
        Some(Nested::Table(inner)) => Some(inner),
        Some(Nested::Undecoded) => None,
        None => match cut_at_dot(rest) {
            None => None,
            Some((first, rest)) => match table.nested(first)? {
                Nested::Table(inner) => find_below(inner, rest),
                Nested::Undecoded => None,
            },
        },
    }
}

// What is before and after the first dot of a text.
fn cut_at_dot(text: &str) -> Option<(&str, &str)>
    ensures { IsCutAtDot text.now result }
{
    text.split_once('.')
}
