//! The user's home, and the homes of Cargo and of rustup (Cargo Reference,
//! [Environment variables Cargo reads](https://doc.rust-lang.org/cargo/reference/environment-variables.html#environment-variables-cargo-reads);
//! the rustup book,
//! [Environment variables](https://rust-lang.github.io/rustup/environment-variables.html)).
ghost use Rattle.std.specs.Prelude.{◌≡◌, IfOk, option_map, string_bytes, Option};
ghost use Rattle.cc2_base.specs.Homes.{cargo_home_of, rustup_home_of, home_at};
ghost use Rattle.cc2_base.specs.Machines.{home_of};
ghost use Rattle.cc2_error.specs.Outcomes.{Gives};
ghost use Rattle.cc2_base.specs.Paths.{joined};

use crate::machine::Machine;
use crate::path::join;
use crate::variable::env_text;
use cc2_error::error::{Error, NoMemory};
use std::alloc::Global;

/// The home directory that was passed in, the empty text included; none where none was. Unlike the
/// crate's, it asks no process.
pub fn home_dir(machine: &Machine) -> Option<&str>
    ensures { option_map (λ home. home.now) result ≡ home_of machine.now }
{
    match &machine.home {
        Some(home) => Some(home.as_str()),
        None => None,
    }
}

/// Cargo's home, seen from a directory: `CARGO_HOME` where it is set and not empty, a relative one
/// joined to the directory; else `.cargo` in the home; none without a home (Cargo Reference,
/// [Environment variables Cargo reads](https://doc.rust-lang.org/cargo/reference/environment-variables.html#environment-variables-cargo-reads)).
///
/// # Errors
/// `ErrorKind::EnvNotText` where `CARGO_HOME` is not UTF-8; the context then names it. `Memory`
/// where memory ran out.
#[tactic(auto, unfolding(crate::specs::Homes::cargo_home_of))]
pub fn cargo_home_with_cwd(
    alloc: Global,
    cwd: &str,
    machine: &Machine,
) -> Result<Option<String>, Error>
    ensures { Gives (option_map string_bytes) result (cargo_home_of cwd.now machine.now) }
{
    Ok(find_home(alloc, cwd, machine, "CARGO_HOME", ".cargo")?)
}

/// rustup's home, seen from a directory: as `cargo_home_with_cwd`, by `RUSTUP_HOME` and `.rustup`
/// (the rustup book,
/// [Environment variables](https://rust-lang.github.io/rustup/environment-variables.html)).
///
/// # Errors
/// `ErrorKind::EnvNotText` where `RUSTUP_HOME` is not UTF-8; the context then names it. `Memory`
/// where memory ran out.
#[tactic(auto, unfolding(crate::specs::Homes::rustup_home_of))]
pub fn rustup_home_with_cwd(
    alloc: Global,
    cwd: &str,
    machine: &Machine,
) -> Result<Option<String>, Error>
    ensures { Gives (option_map string_bytes) result (rustup_home_of cwd.now machine.now) }
{
    Ok(find_home(alloc, cwd, machine, "RUSTUP_HOME", ".rustup")?)
}

fn find_home(
    alloc: Global,
    cwd: &str,
    machine: &Machine,
    name: &str,
    folder: &str,
) -> Result<Option<String>, Error>
    ensures { Gives (option_map string_bytes) result
        (home_at name.now folder.now cwd.now machine.now) }
{
    match machine.variable(name) {
        None => Ok(below_home(alloc, machine, folder)?),
        Some([]) => Ok(below_home(alloc, machine, folder)?),
        Some(bytes) => {
            let text = env_text(alloc, name, bytes)?;
            Ok(Some(join(alloc, cwd, text)?))
        }
    }
}

fn below_home(alloc: Global, machine: &Machine, folder: &str) -> Result<Option<String>, NoMemory>
    ensures { IfOk result (λ home. option_map string_bytes home
        ≡ option_map (λ h. joined h folder.now) (home_of machine.now)) }
{
    match home_dir(machine) {
        Some(home) => Ok(Some(join(alloc, home, folder)?)),
        None => Ok(None),
    }
}
