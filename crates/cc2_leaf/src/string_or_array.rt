//! A text or an array of texts, as it is.
use crate::read_env::{ReadEnv, set_by};
use crate::text_copies::{copied_text, copied_texts};
use crate::texts::{append_reversed, text_at, text_moved, texts_in_array};
use cc2_error::error::{NoMemory, Result, Shape};
use cc2_value::{Decode, Definition, MergeFrom, TryClone, Value, mixed};
use serde::Serialize;
use std::alloc::Global;

/// A text, which is not split, or an array of texts (Cargo Reference, Configuration,
/// [`build.target`](https://doc.rust-lang.org/cargo/reference/config.html#buildtarget)). It is
/// serialized as such.
#[derive(Debug, Drop, PartialEq, Eq, Serialize)]
#[serde(untagged)]
pub enum StringOrArray {
    /// A text, which is not split.
    String(Value<String>),
    /// An array of texts.
    Array(Vec<Value<String>>),
}

/// Of two texts the stronger takes precedence, of two arrays the weaker one's items come first.
impl MergeFrom for StringOrArray {
    ghost use Rattle.cc2_value.specs.Shown.{leaf_at};
    ghost use Rattle.cc2_leaf.specs.Wholes.{whole_cell};

    ghost cell_at = { leaf_at whole_cell };

    #[tactic(auto, using(crate::proofs::Reversing::wholes_gathered, crate::proofs::Reversing::whole_arrays_gathered))]
    fn gather(&mut self, alloc: Global, low: &mut StringOrArray) -> Result<()> {
        match (self, low) {
            (StringOrArray::String(_), StringOrArray::String(_)) => Ok(()),
            (StringOrArray::Array(high), StringOrArray::Array(low)) => {
                append_reversed(high, low)?;
                Ok(())
            }
            (StringOrArray::String(_), StringOrArray::Array(_)) => {
                Err(mixed(alloc, Shape::String, Shape::Array))
            }
            (StringOrArray::Array(_), StringOrArray::String(_)) => {
                Err(mixed(alloc, Shape::Array, Shape::String))
            }
        }
    }

    #[tactic(auto, using(crate::proofs::Reversing::whole_reversed, crate::proofs::Reversing::whole_array_reversed))]
    fn reverse_lists(&mut self, _alloc: Global) -> std::result::Result<(), NoMemory> {
        if let StringOrArray::Array(texts) = self {
            texts.reverse();
        }
        Ok(())
    }
}

/// A text, which isn't split.
impl ReadEnv for StringOrArray {
    ghost use Rattle.cc2_leaf.specs.TextWays.{whole_text_way};

    ghost text_way = { whole_text_way };

    fn read_env(alloc: Global, text: &str, name: &str) -> Result<StringOrArray> {
        let definition = set_by(alloc, name)?;
        Ok(StringOrArray::String(text_at(alloc, text, Some(&definition))?))
    }
}

/// A text, or an array of texts.
impl Decode for StringOrArray {
    ghost use Rattle.cc2_leaf.specs.Wholes.{whole_way};

    ghost way = { whole_way };

    fn read(
        alloc: Global,
        value: toml::Value,
        key: &str,
        definition: Option<&Definition>,
    ) -> Result<StringOrArray> {
        match value {
            toml::Value::String(text) => Ok(StringOrArray::String(text_moved(
                alloc, text, definition,
            )?)),
            value => Ok(StringOrArray::Array(texts_in_array(alloc, value, key, definition)?)),
        }
    }
}

impl TryClone for StringOrArray {
    ghost use Rattle.cc2_value.specs.Shown.{leaf_at};
    ghost use Rattle.cc2_leaf.specs.Wholes.{whole_cell};

    ghost shown = { leaf_at whole_cell };

    fn copied(&self, alloc: Global, definition: Option<&Definition>) -> Result<StringOrArray> {
        match self {
            StringOrArray::String(text) => Ok(StringOrArray::String(copied_text(
                alloc, text, definition,
            )?)),
            StringOrArray::Array(texts) => Ok(StringOrArray::Array(copied_texts(
                alloc,
                texts.as_slice(),
                definition,
            )?)),
        }
    }
}
