//! One key of `[target]`: its expression where it asks what rustc printed, and the value of that.
ghost use Rattle.std.specs.Prelude.{◌≡◌, IfOk, IfErr, option_map};
ghost use Rattle.cc2_error.specs.Causes.{no_memory};
ghost use Rattle.cc2_error.specs.Outcomes.{Answered};
ghost use Rattle.cc2_cfg.specs.Shown.{tree_of};
ghost use Rattle.cc2_rustc.specs.Keys.{IsKeyTree, IsKeyRefusal, value_by};
ghost use Rattle.cc2_rustc.specs.Printed.{atoms_of};

use crate::cfg_set::CfgSet;
use cc2_cfg::{CfgError, Expression, Reason};
use cc2_error::error::{Error, ErrorKind, NoMemory, Result};
use std::alloc::Global;

/// The expression of a key that begins with `cfg(`; none of any other key, which is a triple, and of
/// a blank one, which is false whatever rustc prints (Cargo Reference, Configuration,
/// [`[target]`](https://doc.rust-lang.org/cargo/reference/config.html#target)).
///
/// # Errors
/// `CfgParse` where a key that begins with `cfg(` isn't blank and has no tree; it holds the key's
/// text without `cfg(` and `)`. `Memory` where memory ran out.
pub fn read_key(alloc: Global, key: &str) -> Result<Option<Expression>>
    ensures { Answered (option_map tree_of) result (IsKeyTree key.now) (IsKeyRefusal key.now) }
{
    if !key.starts_with("cfg(") {
        return Ok(None);
    }
    match Expression::parse(alloc, key) {
        Ok(expression) => Ok(Some(expression)),
        Err(CfgError::Memory) => Err(Error::from(NoMemory)),
        Err(CfgError::Parse(error)) => match error.reason {
            Reason::Empty => Ok(None),
            _ => Err(Error::new(ErrorKind::CfgParse(error))),
        },
    }
}

/// The value of a key's expression by what rustc printed: that of its tree, each predicate by
/// `CfgSet::holds` (Cargo Reference, Configuration,
/// [`[target]`](https://doc.rust-lang.org/cargo/reference/config.html#target)).
///
/// # Errors
/// `Memory` alone, where memory ran out.
pub fn value_by(alloc: Global, expression: &Expression, set: &CfgSet) -> Result<bool>
    ensures value { IfOk result (λ value.
        value ≡ value_by (atoms_of set.now) (tree_of expression.now)) }
    ensures refused { IfErr result (λ e. e ≡ no_memory) }
{
    let Ok(value) = expression.eval_bool(alloc, |predicate| set.holds(predicate)) else {
        return Err(Error::from(NoMemory));
    };
    Ok(value)
}
