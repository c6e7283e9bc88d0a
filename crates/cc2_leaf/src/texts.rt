//! Lists of texts, with where each was set.
ghost use Rattle.std.specs.Prelude.{◌≡◌, ◌++◌, ◌∷◌, [], Some, None, IfOk, OnOk, IfErr, IfSome, IfNone, option_map, reverse, string_bytes};
ghost use Rattle.cc2_error.specs.Causes.{no_memory};
ghost use Rattle.toml.specs.Data.{as_array};
ghost use Rattle.toml.specs.View.{view, items_view};
ghost use Rattle.cc2_value.specs.Copies.{origin_given};
ghost use Rattle.cc2_value.specs.Values.{word_of, words_of};
ghost use Rattle.cc2_value.specs.Ways.{missing, IsFaultBehind};
ghost use Rattle.cc2_leaf.specs.Pieces.{spaced, encoded};
ghost use Rattle.cc2_leaf.specs.Lists.{words_at, texts_of, texts_in};

use crate::split::SplitSpaces;
use crate::split_encoded::SplitEncoded;
use cc2_error::error::Result;
use cc2_value::{Definition, Value, defined, wrong_type};
use std::alloc::Global;

/// A text that is set where the definition says.
pub fn text_at(alloc: Global, text: &str, definition: Option<&Definition>) -> Result<Value<String>>
    ensures ok { IfOk result (λ value.
        word_of value ≡ record { text = text.now; origin = origin_given definition.entry }) }
    ensures refused { IfErr result (λ e. e ≡ no_memory) }
{
    Ok(Value {
        val: String::from_str(alloc, text)?,
        definition: defined(alloc, definition)?,
    })
}

/// The same text, set where the definition says.
pub fn text_moved(
    alloc: Global,
    text: String,
    definition: Option<&Definition>,
) -> Result<Value<String>>
    ensures ok { IfOk result (λ value.
        word_of value
        ≡ record { text = string_bytes text; origin = origin_given definition.entry }) }
    ensures refused { IfErr result (λ e. e ≡ no_memory) }
{
    Ok(Value {
        val: text,
        definition: defined(alloc, definition)?,
    })
}

/// The pieces of a text that is split at spaces, each set where the definition says.
pub fn spaced_texts(
    alloc: Global,
    text: &str,
    definition: Option<&Definition>,
) -> Result<Vec<Value<String>>>
    ensures ok { IfOk result (λ values.
        words_of values.items ≡ words_at (origin_given definition.entry) (spaced text.now)) }
    ensures refused { IfErr result (λ e. e ≡ no_memory) }
{
    let mut values = Vec::new(alloc);
    for piece in SplitSpaces::new(text) {
        values.push(text_at(alloc, piece, definition)?)?;
    }
    Ok(values)
}

/// The pieces of a text that is split at U+001F, each set where the definition says.
pub fn encoded_texts(
    alloc: Global,
    text: &str,
    definition: Option<&Definition>,
) -> Result<Vec<Value<String>>>
    ensures ok { IfOk result (λ values.
        words_of values.items ≡ words_at (origin_given definition.entry) (encoded text.now)) }
    ensures refused { IfErr result (λ e. e ≡ no_memory) }
{
    let mut values = Vec::new(alloc);
    for piece in SplitEncoded::new(text) {
        values.push(text_at(alloc, piece, definition)?)?;
    }
    Ok(values)
}

/// The texts of an array, each set where the definition says; none where an item is no text.
pub fn array_texts(
    alloc: Global,
    items: Vec<toml::Value>,
    definition: Option<&Definition>,
) -> Result<Option<Vec<Value<String>>>>
    ensures some { IfOk result (λ found. IfSome found (λ values.
        option_map (words_at (origin_given definition.entry)) (texts_of (items_view items.items))
        ≡ Some (words_of values.items))) }
    ensures none { IfOk result (λ found. IfNone found (texts_of (items_view items.items) ≡ None)) }
    ensures refused { IfErr result (λ e. e ≡ no_memory) }
{
    let mut values = Vec::with_capacity(alloc, items.len())?;
    for item in items {
        match item {
            toml::Value::String(text) => values.push(text_moved(alloc, text, definition)?)?,
            _ => return Ok(None),
        }
    }
    Ok(Some(values))
}

/// The texts of a value that is an array of texts, each set where the definition says.
pub fn texts_in_array(
    alloc: Global,
    value: toml::Value,
    key: &str,
    definition: Option<&Definition>,
) -> Result<Vec<Value<String>>>
    ensures ok { IfOk result (λ values.
        option_map (words_at (origin_given definition.entry)) (texts_in (as_array (view value)))
        ≡ Some (words_of values.items)) }
    ensures refused { IfErr result
        (IsFaultBehind (key.now ∷ []) (missing (texts_in (as_array (view value))))) }
{
    match value {
        toml::Value::Array(items) => match array_texts(alloc, items, definition)? {
            None => Err(wrong_type(alloc, key)),
            Some(values) => Ok(values),
        },
        _ => Err(wrong_type(alloc, key)),
    }
}

/// Appends the items of the second list to those of the first, the last of them first; the second has none
/// left.
pub fn append_reversed<T: Drop>(list: &mut Vec<T>, more: &mut Vec<T>) -> Result<()>
    ensures ok { OnOk result (list.new.items ≡ list.old.items ++ reverse more.old.items) }
    ensures refused { IfErr result (λ e. e ≡ no_memory) }
{
    more.reverse();
    list.append(more)?;
    Ok(())
}

/// The first one and the others, where there is one.
pub fn first_and_rest<T: Drop>(list: Vec<T>) -> Option<(T, Vec<T>)>
    ensures some { IfSome result (λ r. list.items ≡ r.0 ∷ r.1.items) }
    ensures none { IfNone result (list.items ≡ []) }
{
    let mut list = list;
    if list.is_empty() {
        return None;
    }
    let first = list.remove(0);
    Some((first, list))
}
