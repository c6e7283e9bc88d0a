//! The paths at which a walk may look.
ghost use Rattle.std.specs.Prelude.{◌≡◌, ◌++◌, map, flat_map, string_bytes, option_map, IfOk, OnOk};
ghost use Rattle.cc2_base.specs.Paths.{ancestors_of};
ghost use Rattle.cc2_ask.specs.Needs.{candidates_of, files_below, files_in_home, home_unless_refused, two_files, is_listed};
ghost use Rattle.cc2_base.specs.Homes.{cargo_home_of};

use cc2_base::home::cargo_home_with_cwd;
use cc2_base::machine::Machine;
use cc2_base::path::{ancestors, join};
use cc2_error::error::{ErrorKind, NoMemory};
use std::alloc::Global;

/// Paths at which the walk from a directory may look for a file: two below each directory from there up, and two
/// in the cargo home.
///
/// # Errors
/// `NoMemory` where memory ran out.
pub fn candidates(alloc: Global, dir: &str, machine: &Machine) -> Result<Vec<String>, NoMemory>
    ensures { IfOk result (λ paths.
        map string_bytes paths.items ≡ candidates_of dir.now machine.now) }
{
    let mut paths = Vec::new(alloc);
    push_above(alloc, dir, &mut paths)?;
    push_home(alloc, home_of(alloc, dir, machine)?, &mut paths)?;
    Ok(paths)
}

/// Whether a path is one of these.
pub fn is_listed(path: &str, paths: &[String]) -> bool
    ensures { result ≡ is_listed path.now (map string_bytes paths.now) }
{
    for one in paths {
        if path == one.as_str() {
            return true;
        }
    }
    false
}

// Appends the files of configuration below a directory and each above it.
fn push_above(alloc: Global, dir: &str, paths: &mut Vec<String>) -> Result<(), NoMemory>
    ensures { OnOk result (map string_bytes paths.new.items
        ≡ map string_bytes paths.old.items ++ flat_map files_below (ancestors_of dir.now)) }
{
    for above in ancestors(dir) {
        push_two(alloc, above, ".cargo/config", ".cargo/config.toml", paths)?;
    }
    Ok(())
}

// Appends the files of the cargo home, if there is one.
fn push_home(alloc: Global, home: Option<String>, paths: &mut Vec<String>) -> Result<(), NoMemory>
    ensures { OnOk result (map string_bytes paths.new.items
        ≡ map string_bytes paths.old.items ++ files_in_home (option_map string_bytes home)) }
{
    match home {
        Some(home) => push_two(alloc, home.as_str(), "config", "config.toml", paths),
        None => Ok(()),
    }
}

// Appends two files of a folder.
fn push_two(
    alloc: Global,
    folder: &str,
    first: &str,
    second: &str,
    paths: &mut Vec<String>,
) -> Result<(), NoMemory>
    ensures { OnOk result (map string_bytes paths.new.items
        ≡ map string_bytes paths.old.items ++ two_files first.now second.now folder.now) }
{
    paths.push(join(alloc, folder, first)?)?;
    paths.push(join(alloc, folder, second)?)?;
    Ok(())
}

// Cargo's home, or none where `CARGO_HOME` isn't UTF-8: the load itself refuses that.
fn home_of(alloc: Global, dir: &str, machine: &Machine) -> Result<Option<String>, NoMemory>
    ensures { IfOk result (λ home.
        option_map string_bytes home ≡ home_unless_refused (cargo_home_of dir.now machine.now)) }
{
    match cargo_home_with_cwd(alloc, dir, machine) {
        Ok(home) => Ok(home),
        Err(error) => match error.kind() {
            ErrorKind::Memory => Err(NoMemory),
            _ => Ok(None),
        },
    }
}
