//! The reports of directories and files.
ghost use Rattle.std.specs.Prelude.{◌≡◌, ◌⊎◌, true, IfErr, IfOk, map, option_map, string_bytes};
ghost use Rattle.cc2_base.specs.Homes.{cargo_home_of};
ghost use Rattle.cc2_base.specs.Told.{Keeps, WhereTold};
ghost use Rattle.cc2_error.specs.Causes.{refusal_of};
ghost use Rattle.cc2_error.specs.Outcomes.{IsWantOfMemory};
ghost use Rattle.cc2_rustc.specs.Kept.{WhereBothTold};
ghost use Rattle.cc2_findings.specs.Dirs.{is_directory};
ghost use Rattle.cc2_lint.specs.Answers.{AreAll, AreChosen, AreReported, IsWhyNot};
ghost use Rattle.cc2_lint.specs.Files.{AreReportsOfAll, checked_in};
ghost use Rattle.cc2_lint.specs.Listed.{IsDirectoryCause, IsOfDirectory, IsOfFileAlone, IsOfPath, known_home};
ghost use Rattle.cc2_lint.specs.Worlds.{WhereAll, WhereSeen};

use crate::files::{Check, file_reports};
use crate::permissions::Permissions;
use crate::question::Question;
use crate::rivals::rivals_of_each;
use cc2_base::files::Files;
use cc2_base::home::cargo_home_with_cwd;
use cc2_base::machine::Machine;
use cc2_base::programs::Programs;
use cc2_error::error::{Error, NoMemory};
use cc2_findings::{LintedFile, dir_findings, is_directory, no_memory_wanted, read_findings};
use cc2_lint_settings::hidden_in_each;
use cc2_reports::{Report, append_new};
use std::alloc::Global;

/// What is wrong in the files that are checked, without what is allowed. Of a directory the nearest file comes first. What
/// is found in a file by two paths is reported once.
///
/// # Errors
/// Where a directory is checked, `ErrorKind::EnvNotText` where `CARGO_HOME` isn't UTF-8, `ErrorKind::SpecName` where a
/// target isn't valid, and `NotRun`, `ProgramFailed` and `OutputNotText` where rustc has to be run and doesn't answer for a
/// target. `Memory` where memory ran out.
pub fn all_reports<F: Files, P: Programs, R: Permissions>(
    alloc: Global,
    question: &Question<'_>,
    machine: &Machine,
    files: &F,
    programs: &mut P,
    permissions: &R,
) -> Result<Vec<Report>, Error>
    ensures chosen { IfOk result (λ reports. AreChosen question.now reports.items) }
    ensures ok { WhereAll (F.told files.now) (P.told programs.old) (R.told permissions.now)
        (λ fs answers is_open. IfOk result (λ reports.
        AreReported fs answers is_open machine.now question.now reports.items)) }
    ensures refused { WhereBothTold (F.told files.now) (P.told programs.old) (λ fs answers.
        IfErr result (λ e. IsWhyNot fs answers machine.now question.now (refusal_of e))) }
{
    let found = found_reports(alloc, question, machine, files, programs, permissions)?;
    let mut reports = Vec::new(alloc);
    append_new(&mut reports, question.allowed, found)?;
    Ok(reports)
}

// All of what is wrong in them.
fn found_reports<F: Files, P: Programs, R: Permissions>(
    alloc: Global,
    question: &Question<'_>,
    machine: &Machine,
    files: &F,
    programs: &mut P,
    permissions: &R,
) -> Result<Vec<Report>, Error>
    ensures ok { WhereAll (F.told files.now) (P.told programs.old) (R.told permissions.now)
        (λ fs answers is_open. IfOk result (λ reports.
        AreAll fs answers is_open machine.now question.now reports.items)) }
    ensures refused { WhereBothTold (F.told files.now) (P.told programs.old) (λ fs answers.
        IfErr result (λ e. IsWhyNot fs answers machine.now question.now (refusal_of e))) }
{
    if question.paths.is_empty() {
        return dir_reports(
            alloc,
            question.dir,
            question.targets,
            machine,
            files,
            programs,
            permissions,
        );
    }
    let mut all = Vec::new(alloc);
    for path in question.paths {
        let path = path.as_str();
        let mut found = path_reports(alloc, path, question, machine, files, programs, permissions)?;
        all.append(&mut found)?;
    }
    Ok(all)
}

// What is wrong in the files of a directory, or in a file.
fn path_reports<F: Files, P: Programs, R: Permissions>(
    alloc: Global,
    path: &str,
    question: &Question<'_>,
    machine: &Machine,
    files: &F,
    programs: &mut P,
    permissions: &R,
) -> Result<Vec<Report>, Error>
    ensures ok { WhereAll (F.told files.now) (P.told programs.old) (R.told permissions.now)
        (λ fs answers is_open. IfOk result (λ reports.
        IsOfPath fs answers is_open machine.now (map (λ text. text.now) question.now.targets.now)
        question.now.dir.now path.now reports.items)) }
    ensures refused { WhereBothTold (F.told files.now) (P.told programs.old) (λ fs answers.
        IfErr result (λ e. IsWantOfMemory e ⊎ ((is_directory fs path.now ≡ true)
        × IsDirectoryCause fs answers machine.now path.now
        (map (λ text. text.now) question.now.targets.now) (refusal_of e)))) }
    ensures same { Keeps (P.told programs.old) (P.told programs.new) }
{
    if is_directory(alloc, path, files)? {
        let targets = question.targets;
        dir_reports(alloc, path, targets, machine, files, programs, permissions)
    } else {
        let dir = question.dir;
        Ok(alone_reports(alloc, path, dir, machine, files, permissions)?)
    }
}

// What is wrong in the files of a directory, of its ancestors and of the cargo home.
fn dir_reports<F: Files, P: Programs, R: Permissions>(
    alloc: Global,
    dir: &str,
    targets: &[&str],
    machine: &Machine,
    files: &F,
    programs: &mut P,
    permissions: &R,
) -> Result<Vec<Report>, Error>
    ensures ok { WhereAll (F.told files.now) (P.told programs.old) (R.told permissions.now)
        (λ fs answers is_open. IfOk result (λ reports.
        IsOfDirectory fs answers is_open machine.now (map (λ text. text.now) targets.now)
        dir.now reports.items)) }
    ensures refused { WhereBothTold (F.told files.now) (P.told programs.old) (λ fs answers.
        IfErr result (λ e. IsWantOfMemory e ⊎ IsDirectoryCause fs answers machine.now dir.now
        (map (λ text. text.now) targets.now) (refusal_of e))) }
    ensures same { Keeps (P.told programs.old) (P.told programs.new) }
{
    let home = cargo_home_with_cwd(alloc, dir, machine)?;
    let linted = dir_findings(alloc, dir, machine, files)?;
    let of_files = linted.as_slice();
    let rivals = rivals_of_each(alloc, dir, targets, machine, of_files, files, programs)?;
    let hidden = hidden_in_each(alloc, machine, of_files)?;
    let check = Check {
        dir,
        linted: of_files,
        hidden: hidden.as_slice(),
        rivals: rivals.as_slice(),
        home: &home,
    };
    Ok(linted_reports(alloc, &check, files, permissions)?)
}

// What is wrong in a file alone, seen from a directory.
fn alone_reports<F: Files, R: Permissions>(
    alloc: Global,
    path: &str,
    dir: &str,
    machine: &Machine,
    files: &F,
    permissions: &R,
) -> Result<Vec<Report>, NoMemory>
    ensures { WhereSeen (F.told files.now) (R.told permissions.now) (λ fs is_open.
        IfOk result (λ reports.
        IsOfFileAlone fs is_open machine.now dir.now path.now reports.items)) }
{
    let home = known_home(alloc, dir, machine)?;
    let (found, content) = read_findings(alloc, path, files)?;
    let mut linted = Vec::new(alloc);
    linted.push(LintedFile {
        path: String::from_str(alloc, path)?,
        found,
        content,
    })?;
    let hidden = hidden_in_each(alloc, machine, linted.as_slice())?;
    let check = Check {
        dir,
        linted: linted.as_slice(),
        hidden: hidden.as_slice(),
        rivals: &[],
        home: &home,
    };
    linted_reports(alloc, &check, files, permissions)
}

// The cargo home; none if there is none or it can't be determined.
fn known_home(alloc: Global, dir: &str, machine: &Machine) -> Result<Option<String>, NoMemory>
    ensures { IfOk result (λ home. option_map string_bytes home
        ≡ known_home (cargo_home_of dir.now machine.now)) }
{
    match cargo_home_with_cwd(alloc, dir, machine) {
        Ok(home) => Ok(home),
        Err(error) => {
            no_memory_wanted(&error)?;
            Ok(None)
        }
    }
}

// The reports of these files, one after another.
fn linted_reports<F: Files, R: Permissions>(
    alloc: Global,
    check: &Check<'_>,
    files: &F,
    permissions: &R,
) -> Result<Vec<Report>, NoMemory>
    ensures { WhereSeen (F.told files.now) (R.told permissions.now) (λ fs is_open.
        IfOk result (λ reports.
        AreReportsOfAll (checked_in fs is_open check.now) 0 check.now.linted.now reports.items)) }
{
    let mut all = Vec::new(alloc);
    for (number, file) in check.linted.iter().enumerate() {
        let mut found = file_reports(alloc, check, number, file, files, permissions)?;
        all.append(&mut found)?;
    }
    Ok(all)
}
