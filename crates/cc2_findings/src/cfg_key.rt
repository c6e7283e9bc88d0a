//! What is wrong with a key of `[target]`.
ghost use Rattle.std.specs.Prelude.{◌≡◌, List, Some, Ok, IfOk};
ghost use Rattle.cc2_cfg.specs.Meaning.{Atom};
ghost use Rattle.cc2_cfg.specs.Shown.{tree_of};
ghost use Rattle.cc2_cfg.specs.Table.{atom_of};
ghost use Rattle.cc2_rustc.specs.Keys.{IsTrueKey};
ghost use Rattle.cc2_findings.specs.KeyFaults.{is_debug, asks_debug, tree_fault, IsJudged};
ghost use Rattle.cc2_findings.specs.declared.cfg_key.KeyFault.TheVariants.{NeverHolds};

use crate::dead::is_dead;
use cc2_cfg::{CfgError, Expression, ParseError, Predicate, Reason};
use cc2_error::error::NoMemory;
use std::alloc::Global;

/// What is wrong with a key of `[target]` (Cargo Reference, Configuration,
/// [`[target]`](https://doc.rust-lang.org/cargo/reference/config.html#target)).
#[derive(Debug, Drop)]
pub enum KeyFault {
    /// It begins with `cfg(` and is no cfg expression: no query for a target is answered with it.
    NoExpression(ParseError),
    /// It is false whatever rustc prints, so its table is never used.
    NeverHolds,
    /// It asks for `debug_assertions`, which Cargo takes as true and rustc doesn't print.
    DebugAssertions,
}

/// What is wrong with a key of `[target]`, if anything is (Cargo Reference, Configuration,
/// [`[target]`](https://doc.rust-lang.org/cargo/reference/config.html#target)).
///
/// # Errors
/// `NoMemory` where memory ran out.
pub fn key_fault(alloc: Global, key: &str) -> Result<Option<KeyFault>, NoMemory>
    ensures judged { IfOk result (IsJudged key.now) }
    ensures never { result ≡ Ok (Some NeverHolds) → (atoms : List Atom)
        → ¬ (IsTrueKey atoms key.now) }
{
    judged(alloc, key)
}

// What is wrong with a key.
fn judged(alloc: Global, key: &str) -> Result<Option<KeyFault>, NoMemory>
    ensures { IfOk result (IsJudged key.now) }
{
    if !key.starts_with("cfg(") {
        return Ok(None);
    }
    match Expression::parse(alloc, key) {
        Ok(expression) => tree_fault(alloc, &expression),
        Err(CfgError::Memory) => Err(NoMemory),
        Err(CfgError::Parse(error)) => match error.reason {
            Reason::Empty => Ok(Some(KeyFault::NeverHolds)),
            _ => Ok(Some(KeyFault::NoExpression(error))),
        },
    }
}

// What is wrong with a key of this expression.
fn tree_fault(alloc: Global, expression: &Expression) -> Result<Option<KeyFault>, NoMemory>
    ensures { IfOk result (λ fault. fault ≡ tree_fault (tree_of expression.now)) }
{
    if asks_debug(expression) {
        return Ok(Some(KeyFault::DebugAssertions));
    }
    if is_dead(alloc, expression)? {
        Ok(Some(KeyFault::NeverHolds))
    } else {
        Ok(None)
    }
}

// Whether the expression asks for `debug_assertions`.
fn asks_debug(expression: &Expression) -> bool
    ensures { result ≡ asks_debug (tree_of expression.now) }
{
    for predicate in expression.predicates() {
        if is_debug(&predicate) {
            return true;
        }
    }
    false
}

fn is_debug(predicate: &Predicate<'_>) -> bool
    ensures { result ≡ is_debug (atom_of predicate.now) }
{
    match *predicate {
        Predicate::Flag(word) => word == "debug_assertions",
        Predicate::KeyValue { .. } => false,
    }
}
