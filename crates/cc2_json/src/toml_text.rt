//! Keys and texts as TOML writes them.
use std::fmt::{Display, Formatter, Result, Write};
use toml_writer::{write_key, write_string};

/// One part of a key: a bare word, or between quotes.
#[derive(Clone, Copy)]
pub struct Key<'a>(pub &'a str);

impl Display for Key<'_> {
    ghost use Rattle.std.specs.Prelude.{Some};
    ghost use Rattle.toml_writer.specs.Text.{key_text};

    ghost output = { λ key. Some (key_text key.0.now) };

    fn fmt<W: Write>(&self, f: &mut Formatter<W>) -> Result {
        write_key(f, self.0)
    }
}

/// A text.
#[derive(Clone, Copy)]
pub struct Text<'a>(pub &'a str);

impl Display for Text<'_> {
    ghost use Rattle.std.specs.Prelude.{Some};
    ghost use Rattle.toml_writer.specs.Text.{string_text};

    ghost output = { λ text. Some (string_text text.0.now) };

    fn fmt<W: Write>(&self, f: &mut Formatter<W>) -> Result {
        write_string(f, self.0)
    }
}
