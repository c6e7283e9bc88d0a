//! Which keys hold by what rustc prints.
ghost use Rattle.std.specs.Prelude.{◌≡◌, IfOk};
ghost use Rattle.std.specs.Bool.{Decides};
ghost use Rattle.cc2_cfg.specs.Shown.{tree_of};
ghost use Rattle.cc2_rustc.specs.Asking.{TrueValues};
ghost use Rattle.cc2_rustc.specs.Keys.{IsTrueKey, value_by};
ghost use Rattle.cc2_rustc.specs.Printed.{atoms_of};
ghost use Rattle.cc2_value.specs.Rows.{texts_of};
ghost use Rattle.cc2_lint_settings.specs.Asked.{paired};

use crate::givers::keep;
use cc2_cfg::Expression;
use cc2_error::error::NoMemory;
use cc2_findings::no_memory_wanted;
use cc2_rustc::{CfgSet, read_key, value_by};
use std::alloc::Global;

/// Those of these keys that hold by what rustc prints, in their order. A triple, and a key that is no cfg expression,
/// isn't one of them.
///
/// # Errors
/// `NoMemory` where memory ran out.
pub(crate) fn held<'a>(
    alloc: Global,
    keys: Vec<&'a str>,
    set: &CfgSet,
) -> Result<Vec<&'a str>, NoMemory>
    ensures { IfOk result (λ held.
        TrueValues (atoms_of set.now) (paired (texts_of keys.entry.items)) (texts_of held.items)) }
{
    let mut held = Vec::new(alloc);
    for key in keys {
        let is_held = holds(alloc, key, set)?;
        keep(&mut held, key, is_held)?;
    }
    Ok(held)
}

// Whether a key holds.
fn holds(alloc: Global, key: &str, set: &CfgSet) -> Result<bool, NoMemory>
    ensures { IfOk result (λ is. Decides is (IsTrueKey (atoms_of set.now) key.now)) }
{
    match read_key(alloc, key) {
        Ok(Some(expression)) => value(alloc, &expression, set),
        Ok(None) => Ok(false),
        Err(error) => {
            no_memory_wanted(&error)?;
            Ok(false)
        }
    }
}

// The value of an expression.
fn value(alloc: Global, expression: &Expression, set: &CfgSet) -> Result<bool, NoMemory>
    ensures { IfOk result (λ value. value ≡ value_by (atoms_of set.now) (tree_of expression.now)) }
{
    let Ok(value) = value_by(alloc, expression, set) else {
        return Err(NoMemory);
    };
    Ok(value)
}
