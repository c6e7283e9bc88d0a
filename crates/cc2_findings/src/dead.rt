//! Whether a cfg expression is false whatever rustc prints.
ghost use Rattle.std.specs.Prelude.{◌≡◌, ◌∷◌, ◌++◌, List, map, IfOk, OnOk};
ghost use Rattle.cc2_cfg.specs.Logic.{kleene_operations};
ghost use Rattle.cc2_cfg.specs.Meaning.{meaning, predicates_of};
ghost use Rattle.cc2_cfg.specs.Shown.{tree_of};
ghost use Rattle.cc2_cfg.specs.Table.{atom_of};
ghost use Rattle.cc2_rustc.specs.Printed.{same_atom};
ghost use Rattle.cc2_findings.specs.Dead.{certain, known_by, is_dead, never_by, named_view, decided_view, is_false};

use cc2_cfg::{Expression, Predicate};
use cc2_error::error::NoMemory;
use std::alloc::Global;

// Of an expression of more predicates not all their values are tried.
const MOST_PREDICATES: usize = 8;

// A predicate with texts of its own.
#[derive(Drop)]
enum Named {
    Flag(String),
    Pair(String, String),
}

// A predicate, and whether rustc prints it.
#[derive(Drop)]
struct Decided {
    named: Named,
    is_printed: bool,
}

// Whether the expression is false whatever rustc prints: by what is certain of its predicates, or, where these are at
// most eight, whichever of them rustc prints.
pub(crate) fn is_dead(alloc: Global, expression: &Expression) -> Result<bool, NoMemory>
    ensures { IfOk result (λ dead. dead ≡ is_dead (tree_of expression.now)) }
{
    if is_false(value_by(alloc, expression, &[])?) {
        return Ok(true);
    }
    let predicates = predicates_in(alloc, expression)?;
    if predicates.len() > MOST_PREDICATES {
        return Ok(false);
    }
    never_by(alloc, expression, &[], predicates.as_slice())
}

// The predicates of an expression.
fn predicates_in(alloc: Global, expression: &Expression) -> Result<Vec<Named>, NoMemory>
    ensures { IfOk result (λ found.
        map named_view found.items ≡ predicates_of (tree_of expression.now)) }
{
    let mut found = Vec::new(alloc);
    for predicate in expression.predicates() {
        found.push(owned(alloc, &predicate)?)?;
    }
    Ok(found)
}

// A predicate with texts of its own.
fn owned(alloc: Global, predicate: &Predicate<'_>) -> Result<Named, NoMemory>
    ensures { IfOk result (λ named. named_view named ≡ atom_of predicate.now) }
{
    match *predicate {
        Predicate::Flag(word) => Ok(Named::Flag(String::from_str(alloc, word)?)),
        Predicate::KeyValue { key, val } => {
            let key = String::from_str(alloc, key)?;
            let value = String::from_str(alloc, val)?;
            Ok(Named::Pair(key, value))
        }
    }
}

// The same predicate again.
fn again(alloc: Global, named: &Named) -> Result<Named, NoMemory>
    ensures { IfOk result (λ copy. named_view copy ≡ named_view named.now) }
{
    match named {
        Named::Flag(word) => Ok(Named::Flag(String::from_str(alloc, word.as_str())?)),
        Named::Pair(key, value) => {
            let key = String::from_str(alloc, key.as_str())?;
            let value = String::from_str(alloc, value.as_str())?;
            Ok(Named::Pair(key, value))
        }
    }
}

// Whether the expression is false by what is decided, whichever of the other predicates rustc prints.
fn never_by(
    alloc: Global,
    expression: &Expression,
    decided: &[Decided],
    others: &[Named],
) -> Result<bool, NoMemory>
    ensures { IfOk result (λ never. never
        ≡ never_by (map decided_view decided.now) (map named_view others.now)
        (tree_of expression.now)) }
{
    match others {
        [] => Ok(is_false(value_by(alloc, expression, decided)?)),
        [first, rest @ ..] => {
            let with = one_more(alloc, decided, first, true)?;
            if !never_by(alloc, expression, with.as_slice(), rest)? {
                return Ok(false);
            }
            let without = one_more(alloc, decided, first, false)?;
            never_by(alloc, expression, without.as_slice(), rest)
        }
    }
}

// What is decided, and one predicate more.
fn one_more(
    alloc: Global,
    decided: &[Decided],
    named: &Named,
    is_printed: bool,
) -> Result<Vec<Decided>, NoMemory>
    ensures { IfOk result (λ all. map decided_view all.items
        ≡ (named_view named.now, is_printed) ∷ map decided_view decided.now) }
{
    let mut all = Vec::new(alloc);
    all.push(Decided {
        named: again(alloc, named)?,
        is_printed,
    })?;
    for one in decided {
        all.push(Decided {
            named: again(alloc, &one.named)?,
            is_printed: one.is_printed,
        })?;
    }
    Ok(all)
}

// The value of the expression as far as it is known by what is decided.
fn value_by(
    alloc: Global,
    expression: &Expression,
    decided: &[Decided],
) -> Result<Option<bool>, NoMemory>
    ensures { IfOk result (λ value. value
        ≡ meaning kleene_operations (known_by (map decided_view decided.now))
        (tree_of expression.now)) }
{
    let Ok(value) = expression.eval(alloc, move |predicate| known_by(decided, predicate)) else {
        return Err(NoMemory);
    };
    Ok(value)
}

// What a predicate is by what is decided, and else whatever rustc prints.
fn known_by(decided: &[Decided], predicate: &Predicate<'_>) -> Option<bool>
    ensures { result ≡ known_by (map decided_view decided.now) (atom_of predicate.now) }
{
    for one in decided {
        if is_same(&one.named, predicate) {
            return Some(one.is_printed);
        }
    }
    certain(predicate)
}

// Whether two predicates are the same.
fn is_same(named: &Named, predicate: &Predicate<'_>) -> bool
    ensures { result ≡ same_atom (named_view named.now) (atom_of predicate.now) }
{
    match (named, *predicate) {
        (Named::Flag(word), Predicate::Flag(other)) => word.as_str() == other,
        (Named::Pair(name, value), Predicate::KeyValue { key, val }) => {
            name.as_str() == key && value.as_str() == val
        }
        _ => false,
    }
}

// What a predicate is whatever rustc prints.
fn certain(predicate: &Predicate<'_>) -> Option<bool>
    ensures { result ≡ certain (atom_of predicate.now) }
{
    match *predicate {
        Predicate::Flag("true") => Some(true),
        Predicate::Flag("false" | "test" | "debug_assertions" | "proc_macro") => Some(false),
        Predicate::Flag(_) => None,
        Predicate::KeyValue { key: "feature", .. } => Some(false),
        Predicate::KeyValue { .. } => None,
    }
}

fn is_false(value: Option<bool>) -> bool
    ensures { result ≡ is_false value }
{
    value == Some(false)
}
