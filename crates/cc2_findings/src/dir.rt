//! What is wrong in the files of a directory.
ghost use Rattle.std.specs.Prelude.{◌≡◌, ◌⊎◌, map, option_map, string_bytes, Err, IfOk, IfErr, All};
ghost use Rattle.cc2_error.specs.Causes.{refusal_of};
ghost use Rattle.cc2_error.specs.Outcomes.{IsWantOfMemory};
ghost use Rattle.cc2_base.specs.Homes.{cargo_home_of};
ghost use Rattle.cc2_base.specs.Told.{WhereTold};
ghost use Rattle.cc2_base.specs.Walked.{walked};
ghost use Rattle.cc2_findings.specs.Dirs.{is_directory, path_of, IsOfFile, AreOfWalk, AreOfDir};

use crate::file::{FileFindings, read_findings};
use cc2_base::files::Files;
use cc2_base::home::cargo_home_with_cwd;
use cc2_base::machine::Machine;
use cc2_base::walk::Walk;
use cc2_error::error::{Error, NoMemory};
use std::alloc::Global;

/// A file of a walk, with what is wrong in it.
#[derive(Debug, Drop)]
pub struct LintedFile {
    /// The file's path.
    pub path: String,
    /// What is wrong in it.
    pub found: FileFindings,
    /// The bytes that it holds; none where it can't be read.
    pub content: Vec<u8>,
}

/// The configuration files of a directory, of its ancestors and of the cargo home, the nearest first, each with what
/// is wrong in it (Cargo Reference, Configuration,
/// [hierarchical structure](https://doc.rust-lang.org/cargo/reference/config.html#hierarchical-structure)).
/// A file that can't be read is one of them.
///
/// # Errors
/// `ErrorKind::EnvNotText` where `CARGO_HOME` isn't UTF-8; `Memory` where memory ran out.
pub fn dir_findings<F: Files>(
    alloc: Global,
    dir: &str,
    machine: &Machine,
    files: &F,
) -> Result<Vec<LintedFile>, Error>
    ensures ok { WhereTold (F.told files.now) (λ fs. IfOk result (λ linted.
        AreOfDir fs dir.now (cargo_home_of dir.now machine.now) linted.items)) }
    ensures refused { WhereTold (F.told files.now) (λ fs. IfErr result (λ e.
        IsWantOfMemory e ⊎ (cargo_home_of dir.now machine.now ≡ Err (refusal_of e)))) }
{
    let home = cargo_home_with_cwd(alloc, dir, machine)?;
    Ok(walk_findings(alloc, dir, home, files)?)
}

// The same with this home.
fn walk_findings<F: Files>(
    alloc: Global,
    dir: &str,
    home: Option<String>,
    files: &F,
) -> Result<Vec<LintedFile>, Error>
    ensures ok { WhereTold (F.told files.now) (λ fs. IfOk result (λ linted.
        AreOfWalk fs (walked fs dir.now (option_map string_bytes home)) linted.items)) }
    ensures refused { WhereTold (F.told files.now) (λ fs. IfErr result IsWantOfMemory) }
{
    let mut linted = Vec::new(alloc);
    for path in Walk::with_cargo_home(alloc, dir, home, files) {
        let file = linted_file(alloc, path?, files)?;
        linted.push(file)?;
    }
    Ok(linted)
}

// The file at a path, with what is wrong in it.
fn linted_file<F: Files>(alloc: Global, path: String, files: &F) -> Result<LintedFile, NoMemory>
    ensures { WhereTold (F.told files.now) (λ fs. IfOk result (λ file.
        (path_of file ≡ string_bytes path) × IsOfFile fs file)) }
{
    let (found, content) = read_findings(alloc, path.as_str(), files)?;
    Ok(LintedFile {
        path,
        found,
        content,
    })
}

/// Whether there is a directory at a path.
///
/// # Errors
/// `NoMemory` where memory ran out.
pub fn is_directory<F: Files>(alloc: Global, path: &str, files: &F) -> Result<bool, NoMemory>
    ensures { WhereTold (F.told files.now) (λ fs.
        IfOk result (λ is. is ≡ is_directory fs path.now)) }
{
    let inside = format!(in alloc; "{path}/.")?;
    files.exists(inside.as_str())
}
