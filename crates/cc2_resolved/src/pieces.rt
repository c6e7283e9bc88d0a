//! Lists of texts: the pieces of one text, and copies.
ghost use Rattle.std.specs.Prelude.{◌≡◌, ◌↔◌, IfOk, IfErr, IsTrue};
ghost use Rattle.cc2_error.specs.Causes.{no_memory};
ghost use Rattle.cc2_base.specs.Paths.{same_texts};
ghost use Rattle.cc2_leaf.specs.Pieces.{encoded, spaced};
ghost use Rattle.cc2_resolved.specs.Texts.{texts_of, lent_texts};

use cc2_error::error::Result;
use cc2_leaf::{SplitEncoded, SplitSpaces};
use std::alloc::Global;

// The pieces between U+001F, empty ones too; none of the empty text.
pub(crate) fn encoded_pieces(alloc: Global, text: &str) -> Result<Vec<String>>
    ensures pieces { IfOk result (λ pieces. texts_of pieces.items ≡ encoded text.now) }
    ensures refused { IfErr result (λ e. e ≡ no_memory) }
{
    let mut pieces = Vec::new(alloc);
    for piece in SplitEncoded::new(text) {
        pieces.push(String::from_str(alloc, piece)?)?;
    }
    Ok(pieces)
}

// The pieces between U+0020, each without the white space round it, and without the empty ones.
pub(crate) fn spaced_pieces(alloc: Global, text: &str) -> Result<Vec<String>>
    ensures pieces { IfOk result (λ pieces. texts_of pieces.items ≡ spaced text.now) }
    ensures refused { IfErr result (λ e. e ≡ no_memory) }
{
    let mut pieces = Vec::new(alloc);
    for piece in SplitSpaces::new(text) {
        pieces.push(String::from_str(alloc, piece)?)?;
    }
    Ok(pieces)
}

// The same texts once more.
pub(crate) fn copied_strings(alloc: Global, texts: &[String]) -> Result<Vec<String>>
    ensures copies { IfOk result (λ copies. texts_of copies.items ≡ texts_of texts.now) }
    ensures refused { IfErr result (λ e. e ≡ no_memory) }
{
    let mut copies = Vec::new(alloc);
    for text in texts {
        copies.push(String::from_str(alloc, text.as_str())?)?;
    }
    Ok(copies)
}

// The same texts, owned.
pub(crate) fn copied_strs(alloc: Global, texts: &[&str]) -> Result<Vec<String>>
    ensures copies { IfOk result (λ copies. texts_of copies.items ≡ lent_texts texts.now) }
    ensures refused { IfErr result (λ e. e ≡ no_memory) }
{
    let mut copies = Vec::new(alloc);
    for text in texts {
        copies.push(String::from_str(alloc, *text)?)?;
    }
    Ok(copies)
}

// Whether they are the same texts in the same order.
pub(crate) fn equal_texts(texts: &[String], others: &[String]) -> bool
    ensures computed { result ≡ same_texts (texts_of texts.now) (texts_of others.now) }
    ensures same { IsTrue result ↔ (texts_of texts.now ≡ texts_of others.now) }
{
    texts == others
}
