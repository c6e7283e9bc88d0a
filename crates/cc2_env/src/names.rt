//! What debug forms show of variables: their names, and never a value, which may be a token.
use std::collections::BTreeMap;
use std::fmt;

/// The names of the variables of a map.
#[derive(Clone, Copy)]
pub struct Names<'a> {
    /// The map.
    pub env: &'a BTreeMap<String, Vec<u8>>,
}

impl fmt::Debug for Names<'_> {
    fn fmt<W: fmt::Write>(&self, f: &mut fmt::Formatter<W>) -> fmt::Result {
        f.debug_set().entries(self.env.keys()).finish()
    }
}
