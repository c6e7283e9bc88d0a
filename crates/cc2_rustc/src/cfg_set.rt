//! The flags and pairs that rustc printed, and which predicates they make true.
ghost use Rattle.std.specs.Prelude.{◌≡◌, ◌++◌, IfOk, OnOk, map, option_map};
ghost use Rattle.std.specs.Option.{option_to_list};
ghost use Rattle.cc2_cfg.specs.Table.{atom_of};
ghost use Rattle.cc2_rustc.specs.Printed.{printed, atom_of_printed, atoms_of};
ghost use Rattle.cc2_rustc.specs.Holds.{is_always, is_never, holds, has};

use crate::printed::Printed;
use cc2_cfg::Predicate;
use cc2_error::error::NoMemory;
use std::alloc::Global;

/// The flags and pairs that rustc printed, in the order of their lines (rustc's book, Print
/// options,
/// [`--print cfg`](https://doc.rust-lang.org/rustc/command-line-arguments/print-options.html#cfg)).
#[derive(Debug, Drop)]
pub struct CfgSet {
    pub(crate) printed: Vec<Printed>,
}

impl CfgSet {
    /// The set that the output of rustc's `--print cfg` lists (rustc's book, Print options,
    /// [`--print cfg`](https://doc.rust-lang.org/rustc/command-line-arguments/print-options.html#cfg)).
    /// Its lines are trimmed of white space and the blank ones dropped. A line that has no `=` is a
    /// flag. In another the name comes before the first `=`, and the line counts only where what
    /// follows has at least two bytes and begins and ends with `"`: its value is between these.
    ///
    /// # Errors
    /// `NoMemory` where memory ran out. No text is refused.
    pub fn read(alloc: Global, text: &str) -> Result<CfgSet, NoMemory>
        ensures { IfOk result (λ set. atoms_of set ≡ printed text.now) }
    {
        let mut printed = Vec::new(alloc);
        for line in text.lines() {
            let line = line.trim();
            if line.is_empty() {
                continue;
            }
            let found = Printed::read(alloc, line)?;
            keep(&mut printed, found)?;
        }
        Ok(CfgSet { printed })
    }

    /// The same flags and pairs once more.
    ///
    /// # Errors
    /// `NoMemory` where the copy finds no memory.
    pub fn try_clone(&self, alloc: Global) -> Result<CfgSet, NoMemory>
        ensures { IfOk result (λ copy. atoms_of copy ≡ atoms_of self.now) }
    {
        let mut printed = Vec::new(alloc);
        for line in self.printed.iter() {
            printed.push(line.try_clone(alloc)?)?;
        }
        Ok(CfgSet { printed })
    }

    /// Whether the predicate is true in a key of `[target]` (Cargo Reference, Configuration,
    /// [`[target]`](https://doc.rust-lang.org/cargo/reference/config.html#target)). The flag `true`
    /// is; `false`, `test`, `debug_assertions`, `proc_macro` and every value of `feature` aren't,
    /// even where rustc printed them; any other predicate is where rustc printed it.
    pub fn holds(&self, predicate: &Predicate<'_>) -> bool
        ensures { result ≡ holds (atoms_of self.now) (atom_of predicate.now) }
    {
        if is_always(predicate) {
            return true;
        }
        if is_never(predicate) {
            return false;
        }
        self.has(predicate)
    }

    /// Whether rustc printed the predicate (rustc's book, Print options,
    /// [`--print cfg`](https://doc.rust-lang.org/rustc/command-line-arguments/print-options.html#cfg)).
    pub fn has(&self, predicate: &Predicate<'_>) -> bool
        ensures { result ≡ has (atoms_of self.now) (atom_of predicate.now) }
    {
        for printed in self.printed.iter() {
            if printed.is(predicate) {
                return true;
            }
        }
        false
    }
}

// Puts what a line says after the others, where it says something.
fn keep(printed: &mut Vec<Printed>, found: Option<Printed>) -> Result<(), NoMemory>
    ensures { OnOk result (map atom_of_printed printed.new.items
        ≡ map atom_of_printed printed.old.items
        ++ option_to_list (option_map atom_of_printed found)) }
{
    if let Some(found) = found {
        printed.push(found)?;
    }
    Ok(())
}

// Whether it is true whatever was printed.
fn is_always(predicate: &Predicate<'_>) -> bool
    ensures { result ≡ is_always (atom_of predicate.now) }
{
    match predicate {
        Predicate::Flag(word) => *word == "true",
        Predicate::KeyValue { .. } => false,
    }
}

// Whether it is false whatever was printed.
fn is_never(predicate: &Predicate<'_>) -> bool
    ensures { result ≡ is_never (atom_of predicate.now) }
{
    match predicate {
        Predicate::Flag(word) => {
            *word == "false"
                || *word == "test"
                || *word == "debug_assertions"
                || *word == "proc_macro"
        }
        Predicate::KeyValue { key, .. } => *key == "feature",
    }
}
