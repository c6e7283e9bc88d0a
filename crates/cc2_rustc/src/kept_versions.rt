//! Who is asked for versions and the host, and what is kept of the answers.
ghost use Rattle.std.specs.Prelude.{IfOk};
ghost use Rattle.cc2_rustc.specs.AskedVersions.{IsSameVersions};

use crate::version::{CargoVersion, RustcVersion};
use cc2_error::error::NoMemory;
use cc2_error::path_and_args::PathAndArgs;
use std::alloc::Global;

/// Who is asked.
#[derive(Clone, Copy)]
pub struct Asked<'a> {
    /// The triple of the host that the caller chose; then no program is run for it.
    pub host: Option<&'a str>,
    /// The command for cargo.
    pub cargo: &'a PathAndArgs,
    /// The command for rustc that is asked for its version.
    pub rustc: &'a PathAndArgs,
    /// Whether rustc works as a stable one: `RUSTC_BOOTSTRAP` is `-1` (the Unstable Book,
    /// [`RUSTC_BOOTSTRAP`](https://doc.rust-lang.org/unstable-book/compiler-environment-variables/RUSTC_BOOTSTRAP.html)).
    pub is_stable: bool,
}

/// What was found; it is kept, and no program is run for it again.
#[derive(Default, Drop)]
pub struct Versions {
    /// The triple of the host.
    pub host: Option<String>,
    /// The version of rustc.
    pub rustc: Option<RustcVersion>,
    /// The version of cargo.
    pub cargo: Option<CargoVersion>,
}

impl Versions {
    /// The same once more.
    ///
    /// # Errors
    /// `NoMemory` where the copy finds no memory.
    pub fn try_clone(&self, alloc: Global) -> Result<Versions, NoMemory>
        ensures { IfOk result (IsSameVersions self.now) }
    {
        let host = match &self.host {
            Some(host) => Some(String::from_str(alloc, host.as_str())?),
            None => None,
        };
        Ok(Versions {
            host,
            rustc: self.rustc,
            cargo: self.cargo,
        })
    }
}
