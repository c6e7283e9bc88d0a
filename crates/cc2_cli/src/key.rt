//! The key whose value alone is shown.
ghost use Rattle.std.specs.Prelude.{◌≡◌, ◌≢◌, ◌<◌, ◌∷◌, ◌++◌, ℕ, List, IfOk, MatchBool, MatchOption, map, option_map};
ghost use Rattle.cc2_cli.specs.Keys.{IsCut, IsKey, IsNoEnd, IsNoKey, IsPlain, Lacks, end_of};

use std::alloc::{AllocError, Global};

/// The pieces of a key, as in `target.'cfg(unix)'.runner`, with a dot between each two. A piece is
/// between quotes of either kind that it doesn't have, and between `"` without `\`; or as it is, where it
/// isn't empty and has no dot and no quote. None where the text is no key.
///
/// # Errors
/// `AllocError` where memory ran out.
#[tactic(auto, using(crate::proofs::Keys::at_start, crate::proofs::Keys::at_end, crate::proofs::Keys::one_more, crate::proofs::Keys::no_key))]
pub fn key_pieces(alloc: Global, key: &str) -> Result<Option<Vec<&str>>, AllocError>
    ensures { IfOk result (λ found. MatchOption found (IsNoKey key.now) (λ pieces.
        IsKey key.now (map (λ p. p.now) pieces.items))) }
{
    let mut pieces = Vec::new(alloc);
    let mut rest = Some(key);
    while let Some(text) = rest {
        let Some((piece, behind)) = first_piece(text) else {
            return Ok(None);
        };
        pieces.push(piece)?;
        rest = behind;
    }
    Ok(Some(pieces))
}

// The first piece, and what is after the dot that follows it, if one does.
fn first_piece(text: &str) -> Option<(&str, Option<&str>)>
    ensures { MatchOption result (IsNoKey text.now) (λ cut.
        IsCut text.now cut.0.now (option_map (λ rest. rest.now) cut.1)) }
{
    if let Some(inner) = behind(text, '\'') {
        single_piece(inner)
    } else if let Some(inner) = behind(text, '"') {
        double_piece(inner)
    } else {
        plain_piece(text)
    }
}

// The first piece of a text that begins with `'`, after that.
fn single_piece(inner: &str) -> Option<(&str, Option<&str>)>
    ensures { MatchOption result (IsNoKey (39 ∷ inner.now)) (λ cut.
        IsCut (39 ∷ inner.now) cut.0.now (option_map (λ rest. rest.now) cut.1)) }
{
    let Some((piece, rest)) = cut(inner, '\'') else {
        return None;
    };
    let Some(left) = behind_dot(rest) else {
        return None;
    };
    Some((piece, left))
}

// The first piece of a text that begins with `"`, after that.
fn double_piece(inner: &str) -> Option<(&str, Option<&str>)>
    ensures { MatchOption result (IsNoKey (34 ∷ inner.now)) (λ cut.
        IsCut (34 ∷ inner.now) cut.0.now (option_map (λ rest. rest.now) cut.1)) }
{
    let Some((piece, rest)) = cut(inner, '"') else {
        return None;
    };
    if !lacks(piece, '\\') {
        return None;
    }
    let Some(left) = behind_dot(rest) else {
        return None;
    };
    Some((piece, left))
}

// The first piece of a text that begins with no quote.
fn plain_piece(text: &str) -> Option<(&str, Option<&str>)>
    requires single { (rest : List ℕ) → text.now ≢ 39 ∷ rest }
    requires double { (rest : List ℕ) → text.now ≢ 34 ∷ rest }
    ensures { MatchOption result (IsNoKey text.now) (λ cut.
        IsCut text.now cut.0.now (option_map (λ rest. rest.now) cut.1)) }
{
    match cut(text, '.') {
        Some((piece, rest)) => {
            if is_plain(piece) {
                Some((piece, Some(rest)))
            } else {
                None
            }
        }
        None => {
            if is_plain(text) {
                Some((text, None))
            } else {
                None
            }
        }
    }
}

// Whether a piece without dots may be as it is.
fn is_plain(piece: &str) -> bool
    requires { Lacks 46 piece.now }
    ensures { MatchBool result (IsPlain piece.now) (¬ (IsPlain piece.now)) }
{
    if piece.is_empty() || !lacks(piece, '\'') {
        return false;
    }
    lacks(piece, '"')
}

// Whether a letter isn't in a text.
#[tactic(auto, using(crate::proofs::Keys::in_between))]
fn lacks(text: &str, mark: char) -> bool
    requires { mark < 128 }
    ensures { MatchBool result (Lacks mark text.now) (¬ (Lacks mark text.now)) }
{
    match cut(text, mark) {
        Some(_) => false,
        None => true,
    }
}

// What is after a dot; nothing where nothing is left.
fn behind_dot(text: &str) -> Option<Option<&str>>
    ensures { MatchOption result (IsNoEnd text.now) (λ left.
        text.now ≡ end_of (option_map (λ rest. rest.now) left)) }
{
    if text.is_empty() {
        Some(None)
    } else {
        Some(Some(behind(text, '.')?))
    }
}

// What is before and after the first such letter.
fn cut(text: &str, mark: char) -> Option<(&str, &str)>
    requires { mark < 128 }
    ensures { MatchOption result (Lacks mark text.now) (λ x.
        (text.now ≡ x.0.now ++ mark ∷ x.1.now) × Lacks mark x.0.now) }
{
    text.split_once(mark)
}

// What is after such a letter, if it is the first one.
#[tactic(auto, using(std::proofs::lemmas::Str::Pattern::strip_prefix_char))]
fn behind(text: &str, mark: char) -> Option<&str>
    requires { mark < 128 }
    ensures { MatchOption result ((rest : List ℕ) → text.now ≢ mark ∷ rest) (λ rest.
        text.now ≡ mark ∷ rest.now) }
{
    text.strip_prefix(mark)
}
