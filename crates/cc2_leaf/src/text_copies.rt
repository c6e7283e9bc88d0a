//! Copies of texts, each set where a definition says, or where it was.
ghost use Rattle.std.specs.Prelude.{◌≡◌, IfOk, IfErr};
ghost use Rattle.cc2_error.specs.Causes.{no_memory};
ghost use Rattle.cc2_value.specs.Copies.{origin_given, word_set, words_set};
ghost use Rattle.cc2_value.specs.Values.{word_of, words_of};

use cc2_error::error::Result;
use cc2_value::{Definition, TryClone, Value};
use std::alloc::Global;

/// A copy of a text.
pub fn copied_text(
    alloc: Global,
    text: &Value<String>,
    definition: Option<&Definition>,
) -> Result<Value<String>>
    ensures ok { IfOk result (λ copy.
        word_of copy ≡ word_set (origin_given definition.entry) (word_of text.now)) }
    ensures refused { IfErr result (λ e. e ≡ no_memory) }
{
    Ok(text.copied(alloc, definition)?)
}

/// A copy of a list of texts.
pub fn copied_texts(
    alloc: Global,
    texts: &[Value<String>],
    definition: Option<&Definition>,
) -> Result<Vec<Value<String>>>
    ensures ok { IfOk result (λ copies.
        words_of copies.items ≡ words_set (origin_given definition.entry) (words_of texts.now)) }
    ensures refused { IfErr result (λ e. e ≡ no_memory) }
{
    let mut copies = Vec::new(alloc);
    for text in texts {
        copies.push(copied_text(alloc, text, definition)?)?;
    }
    Ok(copies)
}
