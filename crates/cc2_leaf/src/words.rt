//! Words that are printed as one text or as an array.
use crate::repr::Repr;
use cc2_value::Value;
use serde::{Serialize, Serializer};
use std::fmt;

/// Sends the words to a serializer: as one text with a space between each two, which the serializer
/// prints, or as an array of texts.
pub fn send_words<S: Serializer>(
    front: &[&str],
    rest: &[Value<String>],
    repr: Repr,
    out: &mut S,
) -> Result<(), S::Error> {
    match repr {
        Repr::Text => out.collect_str(&Spaced { front, rest }),
        Repr::Array => send_each(front, rest, out),
    }
}

// Sends them as an array.
fn send_each<S: Serializer>(
    front: &[&str],
    rest: &[Value<String>],
    out: &mut S,
) -> Result<(), S::Error> {
    out.begin_seq(None)?;
    for word in front {
        out.str(word)?;
    }
    for word in rest {
        word.serialize(out)?;
    }
    out.end_seq()
}

// Words with a space between each two.
#[derive(Drop)]
struct Spaced<'a> {
    front: &'a [&'a str],
    rest: &'a [Value<String>],
}

impl fmt::Display for Spaced<'_> {
    fn fmt<W: fmt::Write>(&self, f: &mut fmt::Formatter<W>) -> fmt::Result {
        let mut between = "";
        for word in self.front {
            f.write_str(between)?;
            f.write_str(word)?;
            between = " ";
        }
        for word in self.rest {
            f.write_str(between)?;
            f.write_str(word.val.as_str())?;
            between = " ";
        }
        Ok(())
    }
}
