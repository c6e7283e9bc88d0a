//! The known word that is most like another one.
ghost use Rattle.std.specs.Prelude.{◌≡◌, IfOk, IfSome, chars, length, map, option_map};
ghost use Rattle.cc2_command_line.specs.Nearest.{edits, nearest, nearest_within};

use std::alloc::{AllocError, Global};
use strsim::osa_distance;

/// The first of the known words from which the fewest edits lead to a word, if these are at most a third of the word's
/// characters. Two neighbouring characters that are exchanged are one edit.
///
/// # Errors
/// `AllocError` where memory ran out.
pub(crate) fn nearest<'a>(
    alloc: Global,
    word: &str,
    known: &[&'a str],
) -> Result<Option<&'a str>, AllocError>
    ensures { IfOk result (λ near.
        option_map (λ n. n.now) near ≡ nearest word.now (map (λ k. k.now) known.now)) }
{
    match nearest_within(alloc, word, known, char_count(word) / 3)? {
        Some(near) => Ok(Some(near.word)),
        None => Ok(None),
    }
}

fn char_count(text: &str) -> usize
    ensures { result ≡ length (chars text.now) }
{
    text.chars().count()
}

// A known word, and how many edits lead from it to another one.
#[derive(Clone, Copy, Drop)]
struct Near<'a> {
    word: &'a str,
    edits: usize,
}

// The first of the known words from which the fewest edits lead to a word, at most so many.
fn nearest_within<'a>(
    alloc: Global,
    word: &str,
    known: &[&'a str],
    most: usize,
) -> Result<Option<Near<'a>>, AllocError>
    ensures near { IfOk result (λ near. option_map (λ n. n.word.now) near
        ≡ nearest_within most word.now (map (λ k. k.now) known.now)) }
    ensures edits { IfOk result (λ near. IfSome near (λ n. n.edits ≡ edits n.word.now word.now)) }
{
    match known {
        [] => Ok(None),
        [candidate, others @ ..] => {
            let edits = osa_distance(alloc, *candidate, word)?;
            let near = nearest_within(alloc, word, others, most)?;
            if edits > most {
                return Ok(near);
            }
            match near {
                Some(other) if other.edits < edits => Ok(Some(other)),
                _ => Ok(Some(Near {
                    word: *candidate,
                    edits,
                })),
            }
        }
    }
}
