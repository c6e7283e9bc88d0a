//! A part of a row, and its key.

/// A part that is written at a key.
#[derive(Drop)]
pub struct Keyed<'a, T> {
    /// The key.
    pub key: &'a str,
    /// The part.
    pub part: &'a T,
}
