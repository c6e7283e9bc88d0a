//! The tables below `target`, which nest: read, merged, copied and printed over one list of fields.
//! It uses `cc2_leaf`.
#![tactic(auto)]

mod target;

pub use target::{Nested, Node, TargetConfig};
