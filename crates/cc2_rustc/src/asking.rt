//! The keys of `[target]` that ask what rustc printed, and the values at those that are true.
ghost use Rattle.std.specs.Prelude.{◌≡◌, ◌++◌, ℕ, List, IfOk, IfErr, OnOk, map, option_map};
ghost use Rattle.std.specs.Bool.{Decides};
ghost use Rattle.cc2_error.specs.Causes.{no_memory};
ghost use Rattle.cc2_error.specs.Outcomes.{Answered};
ghost use Rattle.cc2_cfg.specs.Shown.{tree_of};
ghost use Rattle.cc2_rustc.specs.Asking.{asked, AreAsking, SomeKeyAsks, IsKeysRefusal};
ghost use Rattle.cc2_rustc.specs.Asking.{entries_by_text, shown_asking, true_values, TrueValues};
ghost use Rattle.cc2_rustc.specs.Printed.{atoms_of};

use crate::cfg_set::CfgSet;
use crate::key::{read_key, value_by};
use cc2_cfg::Expression;
use cc2_error::error::{NoMemory, Result};
use std::alloc::Global;
use std::collections::BTreeMap;

/// A key of `[target]` that asks what rustc printed: its expression, and its value (Cargo
/// Reference, Configuration,
/// [`[target]`](https://doc.rust-lang.org/cargo/reference/config.html#target)).
#[derive(Drop)]
pub struct Asking<'a, V> {
    expression: Expression,
    value: &'a V,
}

/// The keys of a table that ask what rustc printed, in byte order: those that begin with `cfg(` and
/// have a tree. See the Cargo Reference, Configuration,
/// [`[target]`](https://doc.rust-lang.org/cargo/reference/config.html#target). Each is read once,
/// and no list of rustc's is needed for it.
///
/// # Errors
/// `CfgParse` where some key that begins with `cfg(` isn't blank and has no tree, as `read_key` has
/// it. `Memory` where memory ran out.
pub fn asking_keys<'a, V>(
    alloc: Global,
    table: &'a BTreeMap<String, V>,
) -> Result<Vec<Asking<'a, V>>>
    ensures { Answered (λ asking. map shown_asking asking.items) result
        (AreAsking (entries_by_text table.now)) (IsKeysRefusal (entries_by_text table.now)) }
{
    let mut asking = Vec::new(alloc);
    for (key, value) in table.iter() {
        let found = read_key(alloc, key.as_str())?;
        keep(&mut asking, found, value)?;
    }
    Ok(asking)
}

/// Whether some key asks what rustc printed (Cargo Reference, Configuration,
/// [`[target]`](https://doc.rust-lang.org/cargo/reference/config.html#target)). Where none does,
/// none is true by any list, and rustc needn't be asked.
pub fn asks<V>(asking: &[Asking<'_, V>]) -> bool
    ensures { (entries : List (List ℕ × V)) → AreAsking entries (map shown_asking asking.now) →
        Decides result (SomeKeyAsks entries) }
{
    !asking.is_empty()
}

// Puts what was found at a key after the others, with the value there.
fn keep<'a, V>(
    asking: &mut Vec<Asking<'a, V>>,
    found: Option<Expression>,
    value: &'a V,
) -> std::result::Result<(), NoMemory>
    ensures { OnOk result (map shown_asking asking.new.items
        ≡ map shown_asking asking.old.items ++ asked (option_map tree_of found) value.now) }
{
    if let Some(expression) = found {
        asking.push(Asking { expression, value })?;
    }
    Ok(())
}

/// The values at the keys that are true by what rustc printed, in the order of the keys (Cargo
/// Reference, Configuration,
/// [`[target]`](https://doc.rust-lang.org/cargo/reference/config.html#target)).
///
/// # Errors
/// `Memory` alone, where memory ran out.
pub fn true_values<'a, V>(
    alloc: Global,
    asking: &[Asking<'a, V>],
    set: &CfgSet,
) -> Result<Vec<&'a V>>
    ensures value { IfOk result (λ values. map (λ v. v.now) values.items
        ≡ true_values (atoms_of set.now) (map shown_asking asking.now)) }
    ensures keys { (entries : List (List ℕ × V)) → AreAsking entries (map shown_asking asking.now) →
        IfOk result (λ values.
        TrueValues (atoms_of set.now) entries (map (λ v. v.now) values.items)) }
    ensures refused { IfErr result (λ e. e ≡ no_memory) }
{
    let mut values = Vec::new(alloc);
    for asked in asking {
        if value_by(alloc, &asked.expression, set)? {
            values.push(asked.value)?;
        }
    }
    Ok(values)
}
