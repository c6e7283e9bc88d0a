//! What a list was read from.
ghost use Rattle.std.specs.Prelude.{◌≡◌};
ghost use Rattle.cc2_leaf.specs.Lists.{is_array};

/// Whether a list came as a text, split at spaces, or as an array.
#[derive(Clone, Copy, Debug, PartialEq, Eq)]
pub enum Repr {
    Text,
    Array,
}

/// That of an array, or else of a text.
pub fn repr_of(array: bool) -> Repr
    ensures { is_array result ≡ array }
{
    if array { Repr::Array } else { Repr::Text }
}
