//! The commands that are asked for versions and the host.
ghost use Rattle.std.specs.Prelude.{◌≡◌, ℕ, List, Option, IfOk, IfErr};
ghost use Rattle.std.specs.Option.{option_copied};
ghost use Rattle.cc2_error.specs.Commands.{command_of, bare_command};
ghost use Rattle.cc2_error.specs.Outcomes.{IsWantOfMemory};
ghost use Rattle.cc2_base.specs.Told.{WhereTold};
ghost use Rattle.cc2_rustc.specs.Asked.{asks, asked_for, is_stable};
ghost use Rattle.cc2_rustc.specs.RustcParts.{settings_of};

use crate::rustc::{Parts, rustc_command_for_versions};
use cc2_base::files::Files;
use cc2_error::error::Result;
use cc2_error::path_and_args::PathAndArgs;
use std::alloc::Global;

/// The commands, and whether rustc works as a stable one.
#[derive(Drop)]
pub struct Commands {
    /// The command for cargo.
    pub cargo: PathAndArgs,
    /// The command for rustc: without the workspace wrapper.
    pub rustc: PathAndArgs,
    /// Whether `RUSTC_BOOTSTRAP` is `-1` (the Unstable Book,
    /// [`RUSTC_BOOTSTRAP`](https://doc.rust-lang.org/unstable-book/compiler-environment-variables/RUSTC_BOOTSTRAP.html)).
    pub is_stable: bool,
}

impl Commands {
    /// The commands of these parts, where `RUSTC_BOOTSTRAP` has this value. Files are asked for the rustc
    /// beside cargo.
    ///
    /// # Errors
    /// `ErrorKind::Memory` where memory ran out.
    pub fn of<F: Files>(
        alloc: Global,
        parts: &Parts<'_>,
        bootstrap: Option<&[u8]>,
        files: &F,
    ) -> Result<Commands>
        ensures told { WhereTold (F.told files.now) (λ fs. IfOk result (λ commands.
            (host : Option (List ℕ)) → asks host commands
            ≡ asked_for fs host (settings_of parts.now) (option_copied bootstrap.entry))) }
        ensures refused { IfErr result IsWantOfMemory }
    {
        let rustc = rustc_command_for_versions(alloc, parts, files)?;
        let cargo = PathAndArgs::new(alloc, String::from_str(alloc, parts.cargo)?);
        let is_stable = is_minus_one(bootstrap);
        Ok(Commands {
            cargo,
            rustc,
            is_stable,
        })
    }
}

// Whether the variable is there and is `-1`.
fn is_minus_one(value: Option<&[u8]>) -> bool
    ensures { result ≡ is_stable (option_copied value.entry) }
{
    match value {
        Some(value) => value == b"-1".as_slice(),
        None => false,
    }
}
