//! Files that were handed in, and the first path of which more has to be known.
use crate::known::{Known, KnownPaths};
use crate::need::Need;
use cc2_base::files::{Files, ReadFault};
use cc2_error::error::NoMemory;
use std::alloc::Global;
use std::cell::Cell;

/// Files of which so much is known as was handed in. They may be those of any tree that agrees with that. What isn't
/// known of them is refused as if memory ran out, and noted as a need.
#[derive(Drop)]
pub struct AskedFiles<'a> {
    alloc: Global,
    known: &'a KnownPaths,
    needed: Cell<Option<Need>>,
}

impl<'a> AskedFiles<'a> {
    ghost use Rattle.std.specs.Prelude.{◌≡◌};

    /// The files of which so much is known.
    pub fn new(alloc: Global, known: &'a KnownPaths) -> AskedFiles<'a>
        ensures { result.known.now ≡ known.now }
    {
        AskedFiles {
            alloc,
            known,
            needed: Cell::new(None),
        }
    }

    /// What had to be known and isn't.
    pub fn take_need(&mut self) -> Option<Need> {
        self.needed.replace(None)
    }
}

impl Files for AskedFiles<'_> {
    ghost use Rattle.cc2_ask.specs.Views.{paths_of};
    ghost use Rattle.cc2_ask.specs.Givens.{AgreesOnPaths};

    ghost told = { λ files tree. AgreesOnPaths (paths_of files.known.now) tree };

    fn exists(&self, path: &str) -> Result<bool, NoMemory> {
        match self.known.get(path) {
            Some(Known::Absent) => Ok(false),
            Some(_) => Ok(true),
            None => {
                if let Ok(path) = String::from_str(self.alloc, path) {
                    self.needed.set(Some(Need::Exists(path)));
                }
                Err(NoMemory)
            }
        }
    }

    fn read(&self, alloc: Global, path: &str) -> Result<Vec<u8>, ReadFault> {
        match self.known.get(path) {
            Some(Known::Reads(bytes)) => Ok(Vec::from_slice(alloc, bytes.as_slice())?),
            Some(Known::Unreadable) => Err(ReadFault::Unreadable),
            Some(Known::Absent) => Err(ReadFault::Unreadable),
            _ => {
                if let Ok(path) = String::from_str(self.alloc, path) {
                    self.needed.set(Some(Need::Content(path)));
                }
                Err(ReadFault::Memory)
            }
        }
    }
}
