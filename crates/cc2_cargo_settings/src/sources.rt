//! What settings are read from.
use cc2_base::machine::Machine;
use cc2_cargo::Raw;
use std::collections::BTreeMap;

/// What settings are read from: what `cc2_cargo` loads, and the environment.
#[derive(Clone, Copy)]
pub struct Sources<'a> {
    /// What files and overrides have at each key, merged.
    pub settings: &'a BTreeMap<String, Raw>,
    /// The environment.
    pub machine: &'a Machine,
}
