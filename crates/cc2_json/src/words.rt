//! Words as JSON: as an array of texts, or as one text with a space between each two.
ghost use Rattle.std.specs.Prelude.{◌≡◌, ◌++◌, ◌∷◌, [], IfOk, OnOk, map, string_bytes};
ghost use Rattle.serde_json.specs.Data.{string};
ghost use Rattle.serde_json.specs.View.{view};
ghost use Rattle.cc2_value.specs.Rows.{texts_of};
ghost use Rattle.cc2_value.specs.Values.{words_of};
ghost use Rattle.cc2_json.specs.Forms.{behind, spaced_out, words_data, word_data, word_texts};

use crate::Json;
use crate::form::Form;
use crate::origin::placed;
use cc2_leaf::Value;
use std::alloc::{AllocError, Global};

/// Words as they came: as an array of texts, or as one text.
pub fn words_json(alloc: Global, is_array: bool, words: &[&str]) -> Result<Json, AllocError>
    ensures { IfOk result (λ json. view json ≡ words_data is_array (texts_of words.now)) }
{
    if is_array {
        Ok(Json::Array(texts(alloc, words)?))
    } else {
        Ok(Json::String(spaced_out(alloc, words)?))
    }
}

fn texts(alloc: Global, words: &[&str]) -> Result<Vec<Json>, AllocError>
    ensures { IfOk result (λ texts. map view texts.items ≡ map string (texts_of words.now)) }
{
    let mut texts = Vec::new(alloc);
    for word in words {
        texts.push(Json::String(String::from_str(alloc, word)?))?;
    }
    Ok(texts)
}

fn spaced_out(alloc: Global, words: &[&str]) -> Result<String, AllocError>
    ensures { IfOk result (λ text. string_bytes text ≡ spaced_out (texts_of words.now)) }
{
    let Some((first, others)) = words.split_first() else {
        return Ok(String::new(alloc));
    };
    let mut text = String::from_str(alloc, first)?;
    push_behind(&mut text, others)?;
    Ok(text)
}

// Appends words with a space in front of each.
fn push_behind(text: &mut String, words: &[&str]) -> Result<(), AllocError>
    ensures { OnOk result (string_bytes text.new ≡ string_bytes text.old
        ++ behind (texts_of words.now)) }
{
    for word in words {
        text.push_str(" ")?;
        text.push_str(word)?;
    }
    Ok(())
}

/// Appends the texts of words.
pub fn push_texts<'a>(
    texts: &mut Vec<&'a str>,
    words: &'a [Value<String>],
) -> Result<(), AllocError>
    ensures { OnOk result (texts_of texts.new.items ≡ texts_of texts.old.items
        ++ word_texts (words_of words.now)) }
{
    for word in words {
        texts.push(word.val.as_str())?;
    }
    Ok(())
}

/// The items of an array of words, each with where it was set in a form with origins.
pub fn items(alloc: Global, form: Form, words: &[Value<String>]) -> Result<Vec<Json>, AllocError>
    ensures { IfOk result (λ items.
        map view items.items ≡ map (word_data form.origins) (words_of words.now)) }
{
    let mut items = Vec::new(alloc);
    for word in words {
        items.push(word_json(alloc, form, word)?)?;
    }
    Ok(items)
}

fn word_json(alloc: Global, form: Form, word: &Value<String>) -> Result<Json, AllocError>
    ensures { IfOk result (λ json.
        map view (json ∷ []) ≡ map (word_data form.origins) (words_of (word.now ∷ []))) }
{
    let text = Json::String(String::from_str(alloc, word.val.as_str())?);
    placed(alloc, form, &word.definition, text)
}
