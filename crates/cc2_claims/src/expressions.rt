//! Expressions: which texts are accepted, and their values.
ghost use Rattle.std.specs.Prelude.{◌≡◌, Bool, List, IfOk, IfErr};
ghost use Rattle.cc2_cfg.specs.Answering.{AnswersBy};
ghost use Rattle.cc2_cfg.specs.Grammar.{Tree, IsTree};
ghost use Rattle.cc2_cfg.specs.Logic.{bool_operations};
ghost use Rattle.cc2_cfg.specs.Meaning.{Atom, meaning, predicates_of};
ghost use Rattle.cc2_cfg.specs.Refusing.{IsRefusal};
ghost use Rattle.cc2_cfg.specs.Shown.{tree_of};
ghost use Rattle.cc2_cfg.specs.Tokens.{Lexeme, Spelled};

use cc2_cfg::{CfgError, Expression, Predicate};
use std::alloc::Global;

/// `Expression::parse`: exactly the texts that the grammar has, each with its one tree.
///
/// # Errors
/// Those of `Expression::parse`.
pub fn parsed(alloc: Global, text: &str) -> Result<Expression, CfgError>
    ensures accepted { IfOk result (λ e.
        (tokens : List Lexeme) × Spelled text.now tokens × IsTree tokens (tree_of e)) }
    ensures only { IfOk result (λ e. (tokens : List Lexeme) (tree : Tree)
        → Spelled text.now tokens → IsTree tokens tree → tree ≡ tree_of e) }
    ensures refused { IfErr result (IsRefusal text.now) }
{
    Expression::parse(alloc, text)
}

/// `Expression::eval_bool`: each function counts all that is below it.
///
/// # Errors
/// Those of `Expression::eval_bool`.
pub fn value_of<F: FnMut(&Predicate<'_>) -> bool>(
    alloc: Global,
    expression: &Expression,
    ask: F,
) -> Result<bool, CfgError>
    requires { F.IsAlwaysCallable ask }
    ensures { (answers : Atom → Bool)
        → AnswersBy F.FnMut (predicates_of (tree_of expression.now)) answers ask
        → IfOk result (λ v. v ≡ meaning bool_operations answers (tree_of expression.now)) }
{
    expression.eval_bool(alloc, ask)
}
