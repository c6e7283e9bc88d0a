//! Which layers of a configuration are shown.

/// Which layers of a configuration are shown.
#[derive(Clone, Copy)]
pub enum Layers<'a> {
    /// The files alone, with those that they include.
    Files,
    /// The files under the variables of the environment and these overrides, the strongest last. Each override is the path of a
    /// file, or one dotted key with a value.
    All(&'a [&'a str]),
}
