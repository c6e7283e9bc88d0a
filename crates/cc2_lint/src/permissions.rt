//! Who can read a file.
ghost use Rattle.std.specs.Prelude.{◌≡◌, ℕ, Bool, List, IfOk};
ghost use Rattle.cc2_base.specs.Told.{WhereTold};

use cc2_error::error::NoMemory;
use std::os::unix::fs::PermissionsExt;
use std::{fs, io};

// The bits of a mode by which a file's group and all others can read it.
const READ_BY_OTHERS: u32 = 0o044;

/// Who can read files: on the disk, or as a caller says.
///
/// An implementation may say which answers for all paths it agrees with. `HostPermissions` names none.
pub trait Permissions {
    /// The answers for all paths that they agree with.
    ghost told: { Self → (List ℕ → Bool) → Type 0 };

    /// Whether others than its owner can read the file at a path. Where the system doesn't say, they can't.
    ///
    /// # Errors
    /// `NoMemory` where memory ran out.
    fn others_read(&self, path: &str) -> Result<bool, NoMemory>
        ensures { WhereTold (told self.now) (λ is_open.
            IfOk result (λ is. is ≡ is_open path.now)) };
}

/// Who can read the files of the machine, by their modes.
#[derive(Drop)]
pub struct HostPermissions<R: Drop> {
    runtime: R,
}

impl<R: Drop> HostPermissions<R> {
    /// Those of the files that this runtime reaches. Nothing is read from the disk yet.
    pub fn new(runtime: R) -> HostPermissions<R> {
        HostPermissions { runtime }
    }
}

impl<R: std::rt::Files + AllocGlobal + Drop> Permissions for HostPermissions<R> {
    ghost told = { λ _ _. ⊥ };

    fn others_read(&self, path: &str) -> Result<bool, NoMemory> {
        match fs::metadata(&self.runtime, path) {
            Ok(found) => Ok(found.permissions().mode() & READ_BY_OTHERS != 0),
            Err(e) if e.kind() == io::ErrorKind::OutOfMemory => Err(NoMemory),
            Err(_) => Ok(false),
        }
    }
}
