//! Whether a key of `[target]` is true.

ghost use Rattle.std.specs.Prelude.{◌≡◌, ◌≢◌, ℕ, Bool, List, IfOk, IfErr, IfSome, IfNone, false};
ghost use Rattle.cc2_cfg.specs.Answering.{AnswersBy};
ghost use Rattle.cc2_cfg.specs.Flat.{IsFlat};
ghost use Rattle.cc2_cfg.specs.Grammar.{Tree};
ghost use Rattle.cc2_cfg.specs.Meaning.{Atom, predicates_of};
ghost use Rattle.cc2_cfg.specs.Tokens.{wrapped};
ghost use Rattle.cc2_cargo.specs.Grammar.{IsCargoTree, NoCargoTree, IsInnerTree, NoInnerTree};
ghost use Rattle.cc2_cargo.specs.Meaning.{value_of};

use crate::cfg_reader::Reader;
use crate::cfg_token::front;
use cc2_cfg::Predicate;
use std::alloc::{AllocError, Global};

// The text between `cfg(` and `)`.
fn inner(key: &str) -> Option<&str>
    ensures some { IfSome result (λ text. key.now ≡ wrapped text.now) }
    ensures none { IfNone result ((text : List ℕ) → key.now ≢ wrapped text) }
{
    key.strip_prefix("cfg(")?.strip_suffix(')')
}

// The value of the text between `cfg(` and `)`.
fn evaluate<F: FnMut(&Predicate<'_>) -> bool>(
    alloc: Global,
    text: &str,
    mut holds: F,
) -> Result<bool, AllocError>
    requires { F.IsAlwaysCallable holds }
    ensures value { (tree : Tree) (answers : Atom → Bool) → IsInnerTree text.now tree
        → AnswersBy F.FnMut (predicates_of tree) answers holds
        → IfOk result (λ b. b ≡ value_of answers tree) }
    ensures otherwise { NoInnerTree text.now → IfOk result (λ b. b ≡ false) }
    ensures flat { (tree : Tree) → IsInnerTree text.now tree → IsFlat tree
        → IfErr result (λ e. ⊥) }
{
    let mut reader = Reader::new(alloc);
    let mut rest = text;
    'tokens: while !rest.is_empty() {
        if let Some(behind) = rest.strip_prefix(' ') {
            rest = behind;
            continue;
        }
        let Some((token, behind)) = front(rest) else {
            return Ok(false);
        };
        if !reader.accept(&mut holds, token)? {
            return Ok(false);
        }
        rest = behind;
    }
    Ok(reader.finish(&mut holds))
}

/// Whether a key of `[target]` is true as Cargo 1.95 itself reads it: its grammar has a tree for
/// the key, and the tree is true by what `holds` answers for its predicates (Cargo Reference,
/// [`[target]`](https://doc.rust-lang.org/cargo/reference/config.html#target); Rust Reference,
/// [Conditional compilation](https://doc.rust-lang.org/reference/conditional-compilation.html)).
///
/// A key without a tree is false. No key is refused, and neither length nor nesting has a limit
/// but memory. `holds` is to answer a predicate alike each time. `true` and `false` are constants,
/// whatever it answers.
///
/// # Errors
/// `AllocError` where memory ran out; `holds` may have been called by then. Only functions inside
/// of the outermost one take memory.
///
/// # Example
/// ```ignore
/// let holds = |predicate: &Predicate<'_>| matches!(predicate, Predicate::Flag("unix"));
/// assert!(key_holds(alloc, "cfg(all(unix, not(windows)))", holds)?);
/// ```
pub fn key_holds<F: FnMut(&Predicate<'_>) -> bool>(
    alloc: Global,
    key: &str,
    holds: F,
) -> Result<bool, AllocError>
    requires { F.IsAlwaysCallable holds }
    ensures value { (tree : Tree) (answers : Atom → Bool) → IsCargoTree key.now tree
        → AnswersBy F.FnMut (predicates_of tree) answers holds
        → IfOk result (λ b. b ≡ value_of answers tree) }
    ensures otherwise { NoCargoTree key.now → IfOk result (λ b. b ≡ false) }
    ensures flat { (tree : Tree) → IsCargoTree key.now tree → IsFlat tree
        → IfErr result (λ e. ⊥) }
{
    match inner(key) {
        Some(text) => evaluate(alloc, text, holds),
        None => Ok(false),
    }
}
