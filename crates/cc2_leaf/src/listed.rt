//! Texts that came as one text, split at spaces, or as an array.
ghost use Rattle.std.specs.Prelude.{◌≡◌, ◌∷◌, [], Some, IfOk, OnOk, IfErr, option_map};
ghost use Rattle.toml.specs.View.{view};
ghost use Rattle.cc2_value.specs.Copies.{origin_given};
ghost use Rattle.cc2_value.specs.Gathered.{IsGathered, IsReversed, IsUngathered};
ghost use Rattle.cc2_value.specs.Shown.{leaf_at};
ghost use Rattle.cc2_value.specs.Ways.{missing, IsFaultBehind};
ghost use Rattle.cc2_leaf.specs.Lists.{listed, listed_cell, texts_cell, texts_as};

use crate::repr::Repr;
use crate::texts::{append_reversed, spaced_texts, texts_in_array};
use cc2_error::error::{Result, Shape};
use cc2_value::{Definition, Value, mixed};
use std::alloc::Global;

/// Texts, and whether they came as one text or as an array.
#[derive(Debug, Drop)]
pub struct Texts {
    pub list: Vec<Value<String>>,
    pub repr: Repr,
}

/// The pieces of a text that is split at spaces, or the texts of an array, each set where the definition says.
pub fn read_texts(
    alloc: Global,
    value: toml::Value,
    key: &str,
    definition: Option<&Definition>,
) -> Result<Texts>
    ensures ok { IfOk result (λ texts.
        option_map (listed_cell (origin_given definition.entry)) (listed (view value)) ≡ Some
        (texts_cell texts)) }
    ensures refused { IfErr result (IsFaultBehind (key.now ∷ []) (missing (listed (view value)))) }
{
    if let Some(text) = value.as_str() {
        return Ok(Texts {
            list: spaced_texts(alloc, text, definition)?,
            repr: Repr::Text,
        });
    }
    Ok(Texts {
        list: texts_in_array(alloc, value, key, definition)?,
        repr: Repr::Array,
    })
}

/// Gathers a weaker list, by whether each came as text: of two texts the stronger is kept, of two arrays
/// the weaker one's items follow, the last of them first. See the Cargo Reference, Configuration,
/// [hierarchical structure](https://doc.rust-lang.org/cargo/reference/config.html#hierarchical-structure).
pub fn gather_lists(
    alloc: Global,
    reprs: (Repr, Repr),
    high: &mut Vec<Value<String>>,
    low: &mut Vec<Value<String>>,
) -> Result<()>
    ensures ok { OnOk result (IsGathered (leaf_at texts_cell)
        (texts_as reprs.0 high.old) (texts_as reprs.1 low.old) (texts_as reprs.0 high.new)) }
    ensures refused { IfErr result (IsUngathered (leaf_at texts_cell)
        (texts_as reprs.0 high.old) (texts_as reprs.1 low.old)) }
{
    match reprs {
        (Repr::Text, Repr::Text) => Ok(()),
        (Repr::Array, Repr::Array) => append_reversed(high, low),
        (Repr::Text, Repr::Array) => Err(mixed(alloc, Shape::String, Shape::Array)),
        (Repr::Array, Repr::Text) => Err(mixed(alloc, Shape::Array, Shape::String)),
    }
}

/// Reverses a list that came as an array.
pub fn reverse_array(repr: Repr, list: &mut Vec<Value<String>>)
    ensures { IsReversed (leaf_at texts_cell) (texts_as repr list.old) (texts_as repr list.new) }
{
    if let Repr::Array = repr {
        list.reverse();
    }
}
