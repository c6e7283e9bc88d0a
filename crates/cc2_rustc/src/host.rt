//! The host, as cargo or rustc reports it.
ghost use Rattle.std.specs.Prelude.{◌≡◌, ◌≤◌, ◌+◌, true, false, IfOk, IfErr, IsSome, OnOk, IsOk, option_map, string_bytes};
ghost use Rattle.std.specs.Option.{option_copied};
ghost use Rattle.cc2_error.specs.Commands.{command_of};
ghost use Rattle.cc2_error.specs.Outcomes.{Gives, IsRefusal, IsWantOfMemory};
ghost use Rattle.cc2_base.specs.Told.{Keeps, WhereTold};
ghost use Rattle.cc2_rustc.specs.AskedVersions.{asked_of, known_host, cargo_host, rustc_host, told_host, host_said, IsKept};
ghost use Rattle.cc2_rustc.specs.AskedVersions.{AgreesOnVersions, KeepsVersions, version_said, rustc_version_said};
ghost use Rattle.cc2_rustc.specs.Shown.{of_rustc, of_cargo};
ghost use Rattle.cc2_rustc.specs.Versions.{cargo_version_in};

use crate::ask::{ask, unread, verbose};
use crate::kept_versions::{Asked, Versions};
use crate::lines::host_in;
use crate::version::{CargoVersion, RustcVersion};
use cc2_base::programs::Programs;
use cc2_error::error::{Error, ErrorKind, NoMemory, Result};
use cc2_error::path_and_args::PathAndArgs;
use std::alloc::Global;

/// Finds the triple of the host and keeps it: the chosen one; else cargo's, where it answers with a
/// version and a host; else rustc's. Versions reported on the way are kept too. What is kept
/// stays, and then nobody is asked.
///
/// # Errors
/// Those of rustc's answer, where cargo's names no host: `ErrorKind::NotRun`, `ProgramFailed`,
/// `OutputNotText`, and `VersionOutput` where it has no version or no host. `ErrorKind::Memory` where
/// memory ran out. What was found before a refusal stays.
pub fn find_host<P: Programs>(
    alloc: Global,
    asked: &Asked<'_>,
    programs: &mut P,
    kept: &mut Versions,
) -> Result<()>
    ensures agrees { WhereTold (P.told programs.old) (λ answers.
        AgreesOnVersions (asked_of asked.now) answers kept.old
        → AgreesOnVersions (asked_of asked.now) answers kept.new) }
    ensures keeps { KeepsVersions kept.old kept.new }
    ensures found { OnOk result (IsSome (known_host (asked_of asked.now).host kept.new)) }
    ensures refused { WhereTold (P.told programs.old) (λ answers.
        IfErr result (IsRefusal (host_said (asked_of asked.now) answers))) }
    ensures same { Keeps (P.told programs.old) (P.told programs.new) }
    ensures few { P.runs programs.new ≤ P.runs programs.old + 2 }
    ensures none { IsSome (known_host (asked_of asked.now).host kept.old)
        → (P.runs programs.new ≡ P.runs programs.old) × IsOk result }
{
    if asked.host.is_some() || kept.host.is_some() {
        return Ok(());
    }
    let found = told_host(alloc, asked, programs, kept)?;
    kept.host = Some(found);
    Ok(())
}

// The host that cargo reports, else that which rustc reports. Their versions are kept.
fn told_host<P: Programs>(
    alloc: Global,
    asked: &Asked<'_>,
    programs: &mut P,
    kept: &mut Versions,
) -> Result<String>
    ensures told { WhereTold (P.told programs.old) (λ answers.
        Gives string_bytes result (told_host (asked_of asked.now) answers)) }
    ensures agrees { WhereTold (P.told programs.old) (λ answers.
        AgreesOnVersions (asked_of asked.now) answers kept.old
        → AgreesOnVersions (asked_of asked.now) answers kept.new) }
    ensures keeps { KeepsVersions kept.old kept.new }
    ensures same { Keeps (P.told programs.old) (P.told programs.new) }
    ensures few { P.runs programs.new ≤ P.runs programs.old + 2 }
{
    if let Some(host) = cargo_host(alloc, asked.cargo, programs, &mut kept.cargo)? {
        return Ok(host);
    }
    Ok(rustc_host(alloc, asked, programs, &mut kept.rustc)?)
}

// The host that cargo reports; none where it reports none. Its version is kept.
fn cargo_host<P: Programs>(
    alloc: Global,
    cargo: &PathAndArgs,
    programs: &mut P,
    kept: &mut Option<CargoVersion>,
) -> Result<Option<String>>
    ensures told { WhereTold (P.told programs.old) (λ answers. IfOk result (λ host.
        option_map string_bytes host ≡ cargo_host answers (command_of cargo.now))) }
    ensures refused { IfErr result IsWantOfMemory }
    ensures agrees { WhereTold (P.told programs.old) (λ answers.
        IsKept (option_map of_cargo kept.old)
        (version_said cargo_version_in answers (command_of cargo.now))
        → IsKept (option_map of_cargo kept.new)
        (version_said cargo_version_in answers (command_of cargo.now))) }
    ensures keeps { IsSome kept.old → kept.new ≡ kept.old }
    ensures same { Keeps (P.told programs.old) (P.told programs.new) }
    ensures few { P.runs programs.new ≤ P.runs programs.old + 1 }
{
    match ask(alloc, cargo, false, programs, kept) {
        Ok(text) => Ok(copied(alloc, host_in(text.as_str()))?),
        Err(error) if wants_memory(&error) => Err(Error::from(NoMemory)),
        Err(_) => Ok(None),
    }
}

// The host that rustc reports. Its version is kept.
fn rustc_host<P: Programs>(
    alloc: Global,
    asked: &Asked<'_>,
    programs: &mut P,
    kept: &mut Option<RustcVersion>,
) -> Result<String>
    ensures told { WhereTold (P.told programs.old) (λ answers. Gives string_bytes result
        (rustc_host asked.now.is_stable answers (command_of asked.now.rustc.now))) }
    ensures agrees { WhereTold (P.told programs.old) (λ answers.
        IsKept (option_map of_rustc kept.old) (rustc_version_said (asked_of asked.now) answers)
        → IsKept (option_map of_rustc kept.new) (rustc_version_said (asked_of asked.now) answers)) }
    ensures keeps { IsSome kept.old → kept.new ≡ kept.old }
    ensures same { Keeps (P.told programs.old) (P.told programs.new) }
    ensures few { P.runs programs.new ≤ P.runs programs.old + 1 }
{
    let text = ask(alloc, asked.rustc, asked.is_stable, programs, kept)?;
    match copied(alloc, host_in(text.as_str()))? {
        Some(host) => Ok(host),
        None => Err(unread(verbose(alloc, asked.rustc)?, text)),
    }
}

/// The triple of the host that a rustc reports with `-vV`. It is run once, and nothing is kept (rustc's book, Command-line
/// arguments, [`--version`](https://doc.rust-lang.org/rustc/command-line-arguments.html#option-version)).
///
/// # Errors
/// `ErrorKind::NotRun`, `ProgramFailed`, `OutputNotText`, and `VersionOutput` where its answer has no version or no host;
/// `ErrorKind::Memory` where memory ran out.
pub fn host_of_rustc<P: Programs>(
    alloc: Global,
    rustc: &PathAndArgs,
    programs: &mut P,
) -> Result<String>
    ensures told { WhereTold (P.told programs.old) (λ answers. Gives string_bytes result
        (rustc_host false answers (command_of rustc.now))) }
    ensures same { Keeps (P.told programs.old) (P.told programs.new) }
{
    let asked = Asked {
        host: None,
        cargo: rustc,
        rustc,
        is_stable: false,
    };
    let mut kept = None;
    rustc_host(alloc, &asked, programs, &mut kept)
}

// An owned text of a lent one, where there is one.
fn copied(alloc: Global, text: Option<&str>) -> std::result::Result<Option<String>, NoMemory>
    ensures { IfOk result (λ copy. option_map string_bytes copy ≡ option_copied text.entry) }
{
    match text {
        Some(text) => Ok(Some(String::from_str(alloc, text)?)),
        None => Ok(None),
    }
}

// Whether it may be the out-of-memory error.
pub(crate) fn wants_memory(error: &Error) -> bool
    ensures { IsWantOfMemory error.now → result ≡ true }
{
    match error.kind() {
        ErrorKind::Memory => true,
        _ => false,
    }
}
