//! Where the keys of a text were found.
ghost use Rattle.std.specs.Prelude.{List, ℕ, IfSome};
ghost use Rattle.cc2_reports.specs.Scanning.{ArePlaces, IsPlace};

use crate::location::{Location, Span};
use std::collections::BTreeMap;

/// Where a key is spelled, and where its value begins, if it has one of its own.
#[derive(Clone, Copy, Debug)]
pub struct Place {
    /// Where the key is spelled.
    pub key: Span,
    /// Where its value begins.
    pub value: Option<Location>,
}

/// Where the keys of a text were found.
#[derive(Drop)]
pub struct Found {
    // The places, and the number of each key's place by the text of its path.
    pub(crate) places: Vec<Place>,
    pub(crate) numbers: BTreeMap<String, usize>,
}

impl Found {
    /// Where the key with this text of its path was first found.
    pub fn place(&self, path: &str) -> Option<Place>
        ensures { (text : List ℕ) → ArePlaces text self.now → IfSome result (IsPlace text) }
    {
        let number = self.numbers.get(path)?;
        self.places.get(*number).copied()
    }
}
