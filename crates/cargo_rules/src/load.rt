//! The files of a directory, loaded by Cargo's own rules.
ghost use Rattle.std.specs.Prelude.{◌≡◌, ◌⊎◌, map};
ghost use Rattle.cc2_base.specs.Homes.{cargo_home_of};
ghost use Rattle.cc2_base.specs.Told.{WhereTold};
ghost use Rattle.cc2_cargo.specs.Raw.{raw_members_at};
ghost use Rattle.cc2_error.specs.Causes.{memory, plain, refusal_of};
ghost use Rattle.cc2_error.specs.Outcomes.{Answered};
ghost use Rattle.cargo_rules.specs.Loads.{IsCargoCause, IsCargoMap, IsCauseUnder, IsMapUnder};
ghost use Rattle.cargo_rules.specs.Messages.{refusal_for};

use crate::message::composed;
use cc2_base::files::Files;
use cc2_base::home::cargo_home_with_cwd;
use cc2_base::machine::Machine;
use cc2_base::walk::{Walk, walked_paths};
use cc2_cargo::{LoadFault, Raw, RealPaths, home_beside, load_paths, load_with};
use cc2_cargo_settings::owned;
use cc2_error::error::{Error, ErrorKind, Result};
use std::alloc::Global;
use std::collections::BTreeMap;

/// What the files of a directory, of its ancestors and of the machine's cargo home have at each key, with those that they
/// include, merged by Cargo's own rules (Cargo Reference, Configuration,
/// [hierarchical structure](https://doc.rust-lang.org/cargo/reference/config.html#hierarchical-structure)). A home that is the
/// folder of the directory or of an ancestor, by another path too, is read once.
///
/// # Errors
/// - `ErrorKind::EnvNotText` where `CARGO_HOME` isn't UTF-8;
/// - `ErrorKind::ReadFile` where a file can't be read or isn't UTF-8;
/// - `ErrorKind::ParseFile` where one is no TOML, has a value that no key may have or an `include` with a fault, and where one
///   is included twice;
/// - `ErrorKind::Merge` of one that doesn't merge with weaker ones;
/// - `ErrorKind::Memory` where memory ran out.
pub fn load_from<F: Files, L: RealPaths>(
    alloc: Global,
    dir: &str,
    machine: &Machine,
    files: &F,
    reals: &L,
) -> Result<BTreeMap<String, Raw>>
    ensures { let home = cargo_home_of dir.now machine.now in
        WhereTold (F.told files.now) (λ fs. WhereTold (L.told reals.now) (λ real_paths.
        Answered raw_members_at result (IsCargoMap fs real_paths dir.now home)
        (IsCargoCause fs real_paths dir.now home))) }
{
    let home = cargo_home_with_cwd(alloc, dir, machine)?;
    let beside = home_beside(alloc, dir, home, reals)?;
    let paths = walked_paths(alloc, Walk::with_cargo_home(alloc, dir, beside, files))?;
    match load_paths(alloc, paths.as_slice(), files) {
        Ok(settings) => Ok(settings),
        Err(fault) => Err(error_of(alloc, fault)),
    }
}

/// The same under overrides of the command line, the last the strongest (Cargo Reference, Configuration,
/// [command-line overrides](https://doc.rust-lang.org/cargo/reference/config.html#command-line-overrides)). Each is the path of a
/// file, seen from the directory, or one dotted key with a value.
///
/// # Errors
/// Those of `load_from`, and `ErrorKind::ParseFile` of an override that is neither a file nor a text that is accepted.
pub fn load_under<F: Files, L: RealPaths>(
    alloc: Global,
    dir: &str,
    overrides: &[&str],
    machine: &Machine,
    files: &F,
    reals: &L,
) -> Result<BTreeMap<String, Raw>>
    ensures { let home = cargo_home_of dir.now machine.now in
        WhereTold (F.told files.now) (λ fs. WhereTold (L.told reals.now) (λ real_paths.
        Answered raw_members_at result
        (IsMapUnder fs real_paths dir.now (map (λ text. text.now) overrides.now) home)
        (IsCauseUnder fs real_paths dir.now (map (λ text. text.now) overrides.now) home))) }
{
    let overrides = owned(alloc, overrides)?;
    let overrides = overrides.as_slice();
    let home = cargo_home_with_cwd(alloc, dir, machine)?;
    let beside = home_beside(alloc, dir, home, reals)?;
    let paths = walked_paths(alloc, Walk::with_cargo_home(alloc, dir, beside, files))?;
    match load_with(alloc, dir, paths.as_slice(), overrides, files) {
        Ok(settings) => Ok(settings),
        Err(fault) => Err(error_of(alloc, fault)),
    }
}

// The error that is printed of a fault.
fn error_of(alloc: Global, fault: LoadFault) -> Error
    ensures { (refusal_of result ≡ plain memory) ⊎ (refusal_of result ≡ refusal_for fault) }
{
    match composed(alloc, fault) {
        Ok(error) => error,
        Err(_) => Error::new(ErrorKind::Memory),
    }
}
