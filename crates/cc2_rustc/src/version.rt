//! The versions of rustc and of cargo.
ghost use Rattle.std.specs.Prelude.{◌≡◌, ◌≤◌, ◌+◌, IsSome, IsOk, IfErr, OnOk};
ghost use Rattle.cc2_error.specs.Outcomes.{IsRefusal, IsWantOfMemory};
ghost use Rattle.cc2_base.specs.Told.{Keeps, WhereTold};
ghost use Rattle.cc2_rustc.specs.AskedVersions.{asked_of, AgreesOnVersions, KeepsVersions};
ghost use Rattle.cc2_rustc.specs.AskedVersions.{rustc_version_said, cargo_version_said};

use crate::ask::ask;
use crate::host::{find_host, wants_memory};
use crate::kept_versions::{Asked, Versions};
use crate::release::release_in;
use cc2_base::programs::Programs;
use cc2_error::error::{Error, NoMemory, Result};
use std::alloc::Global;

/// The version of rustc, as it reports it itself (rustc's book, Command-line arguments,
/// [`--version`](https://doc.rust-lang.org/rustc/command-line-arguments.html#option-version)).
#[derive(Clone, Copy, Debug, PartialEq, Eq)]
pub struct RustcVersion {
    /// The major version.
    pub major: u32,
    /// The minor version.
    pub minor: u32,
    /// The patch version, where it is reported.
    pub patch: Option<u32>,
    /// Whether its channel is `nightly` or `dev`, and `RUSTC_BOOTSTRAP` is not `-1`.
    pub nightly: bool,
}

/// The version of cargo, as it reports it itself (Cargo Book,
/// [cargo version](https://doc.rust-lang.org/cargo/commands/cargo-version.html)).
#[derive(Clone, Copy, Debug, PartialEq, Eq)]
pub struct CargoVersion {
    /// The major version.
    pub major: u32,
    /// The minor version.
    pub minor: u32,
    /// The patch version.
    pub patch: u32,
    /// Whether its channel is `nightly` or `dev`.
    pub nightly: bool,
}

impl RustcVersion {
    /// The major and the minor version, to compare: `version.major_minor() < (1, 70)`.
    pub fn major_minor(&self) -> (u32, u32)
        ensures { result ≡ (self.now.major, self.now.minor) }
    {
        (self.major, self.minor)
    }
}

impl CargoVersion {
    /// The major and the minor version, to compare: `version.major_minor() < (1, 70)`.
    pub fn major_minor(&self) -> (u32, u32)
        ensures { result ≡ (self.now.major, self.now.minor) }
    {
        (self.major, self.minor)
    }
}

// A version that can be read in a program's answer to `-vV`.
pub(crate) trait Version: Copy {
    ghost use Rattle.std.specs.Prelude.{◌≡◌, ℕ, Bool, List, Option, option_map};
    ghost use Rattle.cc2_rustc.specs.Versions.{Version};

    ghost shown: { Self → Version };

    ghost reads: { Bool → List ℕ → Option Version };

    // The version in the answer; as a stable one where that is said.
    fn read(text: &str, is_stable: bool) -> Option<Self>
        ensures { option_map shown result ≡ reads is_stable text.now };
}

impl Version for RustcVersion {
    ghost use Rattle.cc2_rustc.specs.Shown.{of_rustc};
    ghost use Rattle.cc2_rustc.specs.Versions.{rustc_version_in};

    ghost shown = { of_rustc };

    ghost reads = { rustc_version_in };

    fn read(text: &str, is_stable: bool) -> Option<RustcVersion> {
        let release = release_in(text)?;
        Some(RustcVersion {
            major: release.major,
            minor: release.minor,
            patch: release.patch,
            nightly: !is_stable && release.nightly,
        })
    }
}

impl Version for CargoVersion {
    ghost use Rattle.cc2_rustc.specs.Shown.{of_cargo};
    ghost use Rattle.cc2_rustc.specs.Versions.{cargo_version_in};

    ghost shown = { of_cargo };

    ghost reads = { λ _. cargo_version_in };

    fn read(text: &str, _is_stable: bool) -> Option<CargoVersion> {
        let release = release_in(text)?;
        let patch = release.patch?;
        Some(CargoVersion {
            major: release.major,
            minor: release.minor,
            patch,
            nightly: release.nightly,
        })
    }
}

/// Finds the version of rustc and keeps it. It asks for the host first, whose answers may have it, and
/// where they don't rustc itself. What is kept stays, and then nobody is asked.
///
/// # Errors
/// Those of rustc's own answer alone: `ErrorKind::NotRun`, `ProgramFailed`, `OutputNotText`, and
/// `VersionOutput` where it has no version. `ErrorKind::Memory` where memory ran out. What was found
/// before a refusal stays.
pub fn find_rustc_version<P: Programs>(
    alloc: Global,
    asked: &Asked<'_>,
    programs: &mut P,
    kept: &mut Versions,
) -> Result<()>
    ensures agrees { WhereTold (P.told programs.old) (λ answers.
        AgreesOnVersions (asked_of asked.now) answers kept.old
        → AgreesOnVersions (asked_of asked.now) answers kept.new) }
    ensures keeps { KeepsVersions kept.old kept.new }
    ensures found { OnOk result (IsSome kept.new.rustc) }
    ensures refused { WhereTold (P.told programs.old) (λ answers.
        IfErr result (IsRefusal (rustc_version_said (asked_of asked.now) answers))) }
    ensures same { Keeps (P.told programs.old) (P.told programs.new) }
    ensures few { P.runs programs.new ≤ P.runs programs.old + 3 }
    ensures none { IsSome kept.old.rustc
        → (P.runs programs.new ≡ P.runs programs.old) × IsOk result }
{
    if kept.rustc.is_some() {
        return Ok(());
    }
    try_host(alloc, asked, programs, kept)?;
    if kept.rustc.is_some() {
        return Ok(());
    }
    ask(
        alloc,
        asked.rustc,
        asked.is_stable,
        programs,
        &mut kept.rustc,
    )?;
    Ok(())
}

/// Finds the version of cargo and keeps it. It asks for the host first, whose answers may have it, and
/// where they don't cargo itself. What is kept stays, and then nobody is asked.
///
/// # Errors
/// Those of cargo's own answer alone: `ErrorKind::NotRun`, `ProgramFailed`, `OutputNotText`, and
/// `VersionOutput` where it has no version of three numbers. `ErrorKind::Memory` where memory ran out.
/// What was found before a refusal stays.
pub fn find_cargo_version<P: Programs>(
    alloc: Global,
    asked: &Asked<'_>,
    programs: &mut P,
    kept: &mut Versions,
) -> Result<()>
    ensures agrees { WhereTold (P.told programs.old) (λ answers.
        AgreesOnVersions (asked_of asked.now) answers kept.old
        → AgreesOnVersions (asked_of asked.now) answers kept.new) }
    ensures keeps { KeepsVersions kept.old kept.new }
    ensures found { OnOk result (IsSome kept.new.cargo) }
    ensures refused { WhereTold (P.told programs.old) (λ answers.
        IfErr result (IsRefusal (cargo_version_said (asked_of asked.now) answers))) }
    ensures same { Keeps (P.told programs.old) (P.told programs.new) }
    ensures few { P.runs programs.new ≤ P.runs programs.old + 3 }
    ensures none { IsSome kept.old.cargo
        → (P.runs programs.new ≡ P.runs programs.old) × IsOk result }
{
    if kept.cargo.is_some() {
        return Ok(());
    }
    try_host(alloc, asked, programs, kept)?;
    if kept.cargo.is_some() {
        return Ok(());
    }
    ask(alloc, asked.cargo, false, programs, &mut kept.cargo)?;
    Ok(())
}

// Asks for the host, and ignores why it isn't reported; only out of memory isn't ignored.
fn try_host<P: Programs>(
    alloc: Global,
    asked: &Asked<'_>,
    programs: &mut P,
    kept: &mut Versions,
) -> Result<()>
    ensures agrees { WhereTold (P.told programs.old) (λ answers.
        AgreesOnVersions (asked_of asked.now) answers kept.old
        → AgreesOnVersions (asked_of asked.now) answers kept.new) }
    ensures keeps { KeepsVersions kept.old kept.new }
    ensures refused { IfErr result IsWantOfMemory }
    ensures same { Keeps (P.told programs.old) (P.told programs.new) }
    ensures few { P.runs programs.new ≤ P.runs programs.old + 2 }
{
    match find_host(alloc, asked, programs, kept) {
        Ok(()) => Ok(()),
        Err(error) if wants_memory(&error) => Err(Error::from(NoMemory)),
        Err(_) => Ok(()),
    }
}
