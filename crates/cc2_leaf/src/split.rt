//! Splitting a text.
ghost use Rattle.std.specs.Prelude.{◌≡◌, ◌∷◌, [], map, filter, Some};
ghost use Rattle.cc2_leaf.specs.Pieces.{spaced, spaced_left, IsCutAtSpace};

/// The pieces of a text between U+0020, each without the white space round it, and without the
/// empty ones. See the Cargo Reference,
/// [Environment variables Cargo reads](https://doc.rust-lang.org/cargo/reference/environment-variables.html#environment-variables-cargo-reads).
#[derive(Drop)]
pub struct SplitSpaces<'a> {
    rest: Option<&'a str>,
}

impl<'a> SplitSpaces<'a> {
    /// The pieces of this text.
    pub fn new(text: &'a str) -> SplitSpaces<'a>
        ensures { spaced_left result.rest ≡ spaced text.now }
    {
        SplitSpaces { rest: Some(text) }
    }
}

impl<'a> Iterator for SplitSpaces<'a> {
    type Item = &'a str;

    ghost use Rattle.std.specs.Iterator.{at_most};
    ghost use Rattle.cc2_leaf.specs.Pieces.{room_left};
    ghost use Rattle.cc2_leaf.specs.Splits.{GivesPiece};

    ghost next_gives = { GivesPiece };

    ghost remaining = { λ s. at_most (room_left s.rest) };

    fn next(&mut self) -> Option<&'a str> {
        while let Some(text) = self.rest {
            let (piece, rest) = cut_at_space(text);
            self.rest = rest;
            let piece = piece.trim();
            if !piece.is_empty() {
                return Some(piece);
            }
        }
        None
    }
}

// The front of the text up to its first space, and what is after that.
fn cut_at_space(text: &str) -> (&str, Option<&str>)
    ensures { IsCutAtSpace text.now result }
{
    match text.split_once(' ') {
        Some((piece, rest)) => (piece, Some(rest)),
        None => (text, None),
    }
}
