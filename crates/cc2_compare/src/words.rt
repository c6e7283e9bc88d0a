//! Settings that are read as words, as their words are printed.
ghost use Rattle.std.specs.Prelude.{◌≡◌, ◌++◌, ◌∷◌, [], IfOk, OnOk, false, string_bytes};
ghost use Rattle.std.specs.Str.{IsUtf8};
ghost use Rattle.serde_json.specs.View.{view};
ghost use Rattle.serde_json.specs.Written.{compact_text, has_float};
ghost use Rattle.cc2_leaf.specs.Pieces.{spaced};
ghost use Rattle.cc2_cargo_settings.specs.Words.{white_words};
ghost use Rattle.cc2_value.specs.Rows.{texts_of};
ghost use Rattle.cc2_compare.specs.Words.{as_cargo_words, as_crate_words, ends_in_words, takes_words, words};

use cc2_error::error::NoMemory;
use cc2_findings::is_among;
use cc2_json::{Json, words_json};
use cc2_leaf::SplitSpaces;
use std::alloc::Global;

/// Whether what is at a path is read as words: an alias, flags, a runner, a browser, or the program of a credential provider
/// (Cargo Reference, Configuration,
/// [configuration keys](https://doc.rust-lang.org/cargo/reference/config.html#configuration-keys)).
pub(crate) fn takes_words(path: &[&str]) -> bool
    ensures { result ≡ takes_words (texts_of path.now) }
{
    let [first, below @ ..] = path else {
        return false;
    };
    is_among(&["alias", "credential-alias"], *first)
        || is_among(
            &["build", "doc", "registries", "registry", "target"],
            *first,
        ) && ends_in_words(below)
}

// Whether the last key is that of words.
fn ends_in_words(path: &[&str]) -> bool
    ensures { result ≡ ends_in_words (texts_of path.now) }
{
    let mut left = path;
    while let [key, below @ ..] = left {
        if below.is_empty() {
            let keys = &[
                "browser",
                "credential-provider",
                "runner",
                "rustdocflags",
                "rustflags",
            ];
            return is_among(keys, *key);
        }
        left = below;
    }
    false
}

/// A value as it is printed, a text as the array of its words as cargo-config2 0.1.45 splits them: at spaces.
///
/// # Errors
/// `NoMemory` where memory ran out.
pub(crate) fn crate_words(alloc: Global, json: &Json) -> Result<String, NoMemory>
    requires { has_float (view json.now) ≡ false }
    ensures { IfOk result (λ text.
        string_bytes text ≡ compact_text (as_crate_words (view json.now))) }
{
    match json.as_str() {
        Some(text) => printed_words(alloc, spaced_words(alloc, text)?.as_slice()),
        None => Ok(json.to_string(alloc)?),
    }
}

/// The same as Cargo splits it: at white space.
///
/// # Errors
/// `NoMemory` where memory ran out.
pub(crate) fn cargo_words(alloc: Global, json: &Json) -> Result<String, NoMemory>
    requires { has_float (view json.now) ≡ false }
    ensures { IfOk result (λ text.
        string_bytes text ≡ compact_text (as_cargo_words (view json.now))) }
{
    match json.as_str() {
        Some(text) => printed_words(alloc, white_words(alloc, text)?.as_slice()),
        None => Ok(json.to_string(alloc)?),
    }
}

// What is between the spaces of a text.
fn spaced_words(alloc: Global, text: &str) -> Result<Vec<&str>, NoMemory>
    ensures { IfOk result (λ all. texts_of all.items ≡ spaced text.now) }
{
    let mut all = Vec::new(alloc);
    for word in SplitSpaces::new(text) {
        all.push(word)?;
    }
    Ok(all)
}

// What is between the white space of a text.
fn white_words(alloc: Global, text: &str) -> Result<Vec<&str>, NoMemory>
    ensures { IfOk result (λ all. texts_of all.items ≡ white_words text.now) }
{
    let mut all = Vec::new(alloc);
    for word in text.split_whitespace() {
        push_word(&mut all, word)?;
    }
    Ok(all)
}

// Appends a word, which is UTF-8 as every text.
fn push_word<'a>(all: &mut Vec<&'a str>, word: &'a str) -> Result<(), NoMemory>
    ensures pushed { OnOk result (texts_of all.new.items
        ≡ texts_of all.old.items ++ word.now ∷ []) }
    ensures utf8 { IsUtf8 word.now }
{
    all.push(word)?;
    Ok(())
}

// These words as an array, printed.
fn printed_words(alloc: Global, all: &[&str]) -> Result<String, NoMemory>
    ensures { IfOk result (λ text.
        string_bytes text ≡ compact_text (words (texts_of all.now))) }
{
    Ok(words_json(alloc, true, all)?.to_string(alloc)?)
}
