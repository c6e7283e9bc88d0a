//! Splitting an encoded text.
ghost use Rattle.std.specs.Prelude.{◌≡◌};

/// The pieces of a text between U+001F, empty ones too; none of the empty text (Cargo Reference,
/// [Environment variables Cargo reads](https://doc.rust-lang.org/cargo/reference/environment-variables.html#environment-variables-cargo-reads)).
#[derive(Drop)]
pub struct SplitEncoded<'a> {
    rest: Option<&'a str>,
}

impl<'a> SplitEncoded<'a> {
    ghost use Rattle.std.specs.Prelude.{◌≡◌};
    ghost use Rattle.cc2_leaf.specs.Pieces.{encoded, encoded_left};

    /// The pieces of this text.
    pub fn new(text: &'a str) -> SplitEncoded<'a>
        ensures { encoded_left result.rest ≡ encoded text.now }
    {
        if text.is_empty() {
            return SplitEncoded { rest: None };
        }
        SplitEncoded { rest: Some(text) }
    }
}

impl<'a> Iterator for SplitEncoded<'a> {
    type Item = &'a str;

    ghost use Rattle.std.specs.Iterator.{at_most};
    ghost use Rattle.cc2_leaf.specs.Pieces.{room_left};
    ghost use Rattle.cc2_leaf.specs.Splits.{GivesEncoded};

    ghost next_gives = { GivesEncoded };

    ghost remaining = { λ s. at_most (room_left s.rest) };

    fn next(&mut self) -> Option<&'a str> {
        let text = self.rest?;
        match text.split_once('\x1f') {
            Some((piece, rest)) => {
                self.rest = Some(rest);
                Some(piece)
            }
            None => {
                self.rest = None;
                Some(text)
            }
        }
    }
}
