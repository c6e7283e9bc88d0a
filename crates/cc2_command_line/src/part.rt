//! A command line word by word.
ghost use Rattle.std.specs.Prelude.{◌≡◌, ◌≤◌, ◌++◌, ◌∷◌, false, Ok, Err, length, map, option_map, string_bytes, IfOk, IfErr, OnOk, bytes_eq, codes};
ghost use Rattle.cc2_command_line.specs.FaultViews.{IsFaultOf, fault_view};
ghost use Rattle.cc2_command_line.specs.Parts as spec;
ghost use Rattle.cc2_command_line.specs.Parts.{part_view};
ghost use Rattle.cc2_command_line.specs.declared.fault.Fault.TheVariants.{Memory};

use crate::fault::Fault;
use crate::option::{Flag, Setting, flag_named, setting_named};
use std::alloc::Global;

/// A part of a command line.
#[derive(Clone, Copy, Debug)]
pub enum Part<'a> {
    /// An option without a value.
    Flag(Flag),
    /// An option and its value.
    Setting(Setting, &'a str),
    /// An argument that is neither an option nor the value of one.
    Operand(&'a str),
}

/// The parts of a command line. An option's value is the next word; that of a long option
/// may follow `=` in the same word. After `--` all words are operands.
///
/// # Errors
/// `Fault::UnknownOption`, `Fault::NoValue`; `Fault::Memory` where memory ran out.
pub(crate) fn parts_of<'a>(alloc: Global, words: &'a [String]) -> Result<Vec<Part<'a>>, Fault<'a>>
    ensures ok { IfOk result (λ parts.
        spec.parts_of (map string_bytes words.now) ≡ Ok (map part_view parts.items)) }
    ensures wrong { IfErr result (λ fault.
        IsFaultOf fault (spec.parts_of (map string_bytes words.now))) }
{
    let mut parts = Vec::new(alloc);
    let mut rest = words;
    while let [word, behind @ ..] = rest {
        if word.as_str() == "--" {
            push_operands(&mut parts, behind)?;
            return Ok(parts);
        }
        let (part, left) = first_part(word.as_str(), behind)?;
        parts.push(part)?;
        rest = left;
    }
    Ok(parts)
}

// Appends each word as an operand.
fn push_operands<'a>(parts: &mut Vec<Part<'a>>, words: &'a [String]) -> Result<(), Fault<'a>>
    ensures ok { OnOk result (map part_view parts.new.items
        ≡ map part_view parts.old.items ++ map spec.operand (map string_bytes words.now)) }
    ensures wrong { IfErr result (λ fault. fault ≡ Memory) }
{
    for word in words {
        parts.push(Part::Operand(word.as_str()))?;
    }
    Ok(())
}

// The part that words begin with, and the words after it. The first word isn't `--`.
fn first_part<'a>(
    word: &'a str,
    behind: &'a [String],
) -> Result<(Part<'a>, &'a [String]), Fault<'a>>
    ensures ok { IfOk result (λ read. bytes_eq word.now (codes "--") ≡ false
        → spec.parts_of (word.now ∷ map string_bytes behind.now)
        ≡ spec.in_front (Ok (part_view read.0)) (spec.parts_of (map string_bytes read.1.now))) }
    ensures wrong { IfErr result (λ fault. bytes_eq word.now (codes "--") ≡ false
        → spec.parts_of (word.now ∷ map string_bytes behind.now) ≡ Err (fault_view fault)) }
    ensures shorter { IfOk result (λ read. length read.1.now ≤ length behind.now) }
{
    match setting_named(word) {
        Some(setting) => match behind {
            [] => Err(Fault::NoValue(setting)),
            [value, left @ ..] => Ok((Part::Setting(setting, value.as_str()), left)),
        },
        None => match single_part(word) {
            Some(part) => Ok((part, behind)),
            None => Err(Fault::UnknownOption(word)),
        },
    }
}

// The part that a word is by itself.
fn single_part(word: &str) -> Option<Part<'_>>
    ensures { option_map part_view result ≡ spec.single_part word.now }
{
    if let Some(flag) = flag_named(word) {
        return Some(Part::Flag(flag));
    }
    if let Some((setting, value)) = attached(word) {
        return Some(Part::Setting(setting, value));
    }
    if is_operand(word) {
        Some(Part::Operand(word))
    } else {
        None
    }
}

// The option and its value, where both are in one word.
fn attached(word: &str) -> Option<(Setting, &str)>
    ensures { option_map (λ x. (x.0, x.1.now)) result ≡ spec.attached word.now }
{
    if !is_long(word) {
        return None;
    }
    let (name, value) = cut(word)?;
    Some((setting_named(name)?, value))
}

/// The text before and after the first `=`.
pub(crate) fn cut(word: &str) -> Option<(&str, &str)>
    ensures { option_map (λ x. (x.0.now, x.1.now)) result ≡ spec.cut word.now }
{
    word.split_once('=')
}

// Whether a word begins as a long option does.
#[tactic(auto, using(std::proofs::lemmas::Str::Pattern::starts_text))]
fn is_long(word: &str) -> bool
    ensures { result ≡ spec.is_long word.now }
{
    word.starts_with("--")
}

// Whether a word doesn't begin as an option does.
#[tactic(auto, using(std::proofs::lemmas::Str::Pattern::starts_text))]
fn is_operand(word: &str) -> bool
    ensures { result ≡ spec.is_operand word.now }
{
    word == "-" || !word.starts_with("-")
}
