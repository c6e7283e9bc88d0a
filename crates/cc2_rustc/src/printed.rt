//! One line of rustc's list: a flag, or a name and its value.
ghost use Rattle.std.specs.Prelude.{◌≡◌, IfOk, option_map};
ghost use Rattle.cc2_cfg.specs.Table.{atom_of};
ghost use Rattle.cc2_rustc.specs.Printed.{atom_in, inside, atom_of_printed, same_atom};
ghost use Rattle.cc2_rustc.specs.Values.{value_at};

use cc2_cfg::Predicate;
use std::alloc::{AllocError, Global};

// A flag, or a name and its value without the `"` round it.
#[derive(Debug, Drop)]
pub(crate) enum Printed {
    Flag(String),
    Pair(String, String),
}

impl Printed {
    // What the line says; nothing where its value isn't between two `"`.
    pub(crate) fn read(alloc: Global, line: &str) -> Result<Option<Printed>, AllocError>
        ensures { IfOk result (λ found. option_map atom_of_printed found ≡ atom_in line.now) }
    {
        let Some((key, value)) = line.split_once('=') else {
            let flag = String::from_str(alloc, line)?;
            return Ok(Some(Printed::Flag(flag)));
        };
        let Some(value) = inside(value) else {
            return Ok(None);
        };
        let key = String::from_str(alloc, key)?;
        let value = String::from_str(alloc, value)?;
        Ok(Some(Printed::Pair(key, value)))
    }

    // The same flag or pair once more.
    pub(crate) fn try_clone(&self, alloc: Global) -> Result<Printed, AllocError>
        ensures { IfOk result (λ copy. atom_of_printed copy ≡ atom_of_printed self.now) }
    {
        match self {
            Printed::Flag(flag) => {
                let flag = String::from_str(alloc, flag.as_str())?;
                Ok(Printed::Flag(flag))
            }
            Printed::Pair(key, value) => {
                let key = String::from_str(alloc, key.as_str())?;
                let value = String::from_str(alloc, value.as_str())?;
                Ok(Printed::Pair(key, value))
            }
        }
    }

    // The value of a pair of this name.
    pub(crate) fn value_of(&self, name: &str) -> Option<&str>
        ensures { option_map (λ value. value.now) result
            ≡ value_at name.now (atom_of_printed self.now) }
    {
        match self {
            Printed::Flag(_) => None,
            Printed::Pair(key, value) => {
                if name == key.as_str() {
                    Some(value.as_str())
                } else {
                    None
                }
            }
        }
    }

    // Whether this is the predicate.
    pub(crate) fn is(&self, predicate: &Predicate<'_>) -> bool
        ensures { result ≡ same_atom (atom_of predicate.now) (atom_of_printed self.now) }
    {
        match (self, predicate) {
            (Printed::Flag(flag), Predicate::Flag(word)) => *word == flag.as_str(),
            (Printed::Pair(name, value), Predicate::KeyValue { key, val }) => {
                *key == name.as_str() && *val == value.as_str()
            }
            _ => false,
        }
    }
}

// The text between the `"` round a value; nothing where they aren't round it.
fn inside(value: &str) -> Option<&str>
    ensures { option_map (λ text. text.now) result ≡ inside value.now }
{
    let Some(rest) = value.strip_prefix('"') else {
        return None;
    };
    rest.strip_suffix('"')
}
