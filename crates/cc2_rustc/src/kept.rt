//! What queries keep of what they found.
ghost use Rattle.std.specs.Prelude.{◌≡◌, IfOk, IfErr, option_map};
ghost use Rattle.cc2_error.specs.Commands.{command_of};
ghost use Rattle.cc2_error.specs.Outcomes.{IsWantOfMemory};
ghost use Rattle.cc2_rustc.specs.Kept.{IsNothingKept, IsSameKept};

use crate::cfg_sets::copied_sets;
use crate::{CfgSet, Versions};
use cc2_error::error::Result;
use cc2_error::path_and_args::PathAndArgs;
use std::alloc::Global;
use std::collections::BTreeMap;

/// What queries found; it is kept, and no program is run for it again.
#[derive(Drop)]
pub struct Kept {
    /// The command for rustc.
    pub rustc: Option<PathAndArgs>,
    /// Versions and the host.
    pub versions: Versions,
    /// What rustc printed for a target, by the text of the target as Cargo takes it.
    pub cfg_sets: BTreeMap<String, CfgSet>,
}

impl Kept {
    /// Nothing yet.
    pub fn empty(alloc: Global) -> Kept
        ensures { IsNothingKept result }
    {
        Kept {
            rustc: None,
            versions: Versions::default(),
            cfg_sets: BTreeMap::new(alloc),
        }
    }

    /// The same once more.
    ///
    /// # Errors
    /// `ErrorKind::Memory` where the copy finds no memory.
    pub fn try_clone(&self, alloc: Global) -> Result<Kept>
        ensures same { IfOk result (IsSameKept self.now) }
        ensures refused { IfErr result IsWantOfMemory }
    {
        let rustc = copied_command(alloc, &self.rustc)?;
        let versions = self.versions.try_clone(alloc)?;
        let cfg_sets = copied_sets(alloc, &self.cfg_sets)?;
        Ok(Kept {
            rustc,
            versions,
            cfg_sets,
        })
    }
}

// The same command once more, where there is one.
fn copied_command(alloc: Global, command: &Option<PathAndArgs>) -> Result<Option<PathAndArgs>>
    ensures same { IfOk result (λ copy.
        option_map command_of copy ≡ option_map command_of command.now) }
    ensures refused { IfErr result IsWantOfMemory }
{
    match command {
        None => Ok(None),
        Some(command) => Ok(Some(command.try_clone(alloc)?)),
    }
}
