//! Texts as their words.
ghost use Rattle.std.specs.Prelude.{◌≡◌, ◌++◌, IfErr, IfOk, OnOk};
ghost use Rattle.cc2_error.specs.Causes.{no_memory};
ghost use Rattle.cc2_value.specs.Copies.{origin_given};
ghost use Rattle.cc2_value.specs.Values.{word_of, words_of};
ghost use Rattle.cc2_cargo_settings.specs.Words.{words_of_setting};

use cc2_error::error::Result;
use cc2_value::{Definition, Value, defined};
use std::alloc::Global;

/// Appends the words of a text, each set where the definition says. White space separates them: that of Unicode, as
/// [`str::split_whitespace`](https://doc.rust-lang.org/std/primitive.str.html#method.split_whitespace) has it.
pub(crate) fn push_words(
    alloc: Global,
    text: &str,
    definition: Option<&Definition>,
    words: &mut Vec<Value<String>>,
) -> Result<()>
    ensures words { OnOk result (words_of words.new.items
        ≡ words_of words.old.items ++ words_of_setting (origin_given definition.entry) text.now) }
    ensures refused { IfErr result (λ e. e ≡ no_memory) }
{
    for word in text.split_whitespace() {
        words.push(text_at(alloc, word, definition)?)?;
    }
    Ok(())
}

/// A word that is set where the definition says.
pub(crate) fn text_at(
    alloc: Global,
    text: &str,
    definition: Option<&Definition>,
) -> Result<Value<String>>
    ensures ok { IfOk result (λ word.
        word_of word ≡ record { text = text.now; origin = origin_given definition.entry }) }
    ensures refused { IfErr result (λ e. e ≡ no_memory) }
{
    Ok(Value {
        val: String::from_str(alloc, text)?,
        definition: defined(alloc, definition)?,
    })
}
