//! The reports of directories of which both configurations are compared, and the settings of targets.
ghost use Rattle.std.specs.Prelude.{◌≡◌, ◌==◌, ◌&&◌, IfOk, is_ok, length, map, not, string_bytes};
ghost use Rattle.cc2_base.specs.Told.{WhereTold};
ghost use Rattle.cc2_reports.specs.Problems.{subjects_of};
ghost use Rattle.cc2_value.specs.Rows.{texts_of};
ghost use Rattle.cc2_compare.specs.Reports.{AreCompared, AreComparedFor, AreOfPath};

use crate::between::reports_between;
use crate::maps::{cargo_json, crate_json};
use crate::part::Part;
use crate::targets::target_reports;
use cargo_rules::Launcher;
use cc2_base::files::Files;
use cc2_base::machine::Machine;
use cc2_cargo::RealPaths;
use cc2_error::error::{Error, NoMemory};
use cc2_findings::is_directory;
use cc2_json::Json;
use cc2_reports::Report;
use std::alloc::Global;

/// What is reported of these directories, one after another; of the directory itself if there are none. Nothing is reported of a
/// file.
///
/// # Errors
/// `NoMemory` where memory ran out.
pub fn compared_reports<F: Files, L: RealPaths, S: Launcher>(
    alloc: Global,
    dir: &str,
    paths: &[String],
    targets: &[&str],
    machine: &Machine,
    files: &F,
    reals: &L,
    launcher: &S,
) -> Result<Vec<Report>, NoMemory>
    ensures { WhereTold (F.told files.now) (λ fs. WhereTold (L.told reals.now) (λ real_paths.
        IfOk result (λ reports. AreComparedFor fs real_paths (S.told_with launcher.now)
        machine.now (texts_of targets.now) dir.now
        (map string_bytes paths.now) reports.items))) }
{
    if paths.is_empty() {
        return dir_reports(alloc, dir, targets, machine, files, reals, launcher);
    }
    let mut all = Vec::new(alloc);
    for path in paths {
        let mut found = path_reports(
            alloc,
            path.as_str(),
            targets,
            machine,
            files,
            reals,
            launcher,
        )?;
        all.append(&mut found)?;
    }
    Ok(all)
}

// What is reported of a path: of a directory, and nothing of a file.
fn path_reports<F: Files, L: RealPaths, S: Launcher>(
    alloc: Global,
    path: &str,
    targets: &[&str],
    machine: &Machine,
    files: &F,
    reals: &L,
    launcher: &S,
) -> Result<Vec<Report>, NoMemory>
    ensures { WhereTold (F.told files.now) (λ fs. WhereTold (L.told reals.now) (λ real_paths.
        IfOk result (λ reports. AreOfPath fs real_paths (S.told_with launcher.now) machine.now
        (texts_of targets.now) path.now reports.items))) }
{
    if is_directory(alloc, path, files)? {
        dir_reports(alloc, path, targets, machine, files, reals, launcher)
    } else {
        Ok(Vec::new(alloc))
    }
}

// What is reported of a directory: at which keys both configurations differ, or that one alone is refused; and where both are
// accepted, the same of the settings of these targets, if there are any.
fn dir_reports<F: Files, L: RealPaths, S: Launcher>(
    alloc: Global,
    dir: &str,
    targets: &[&str],
    machine: &Machine,
    files: &F,
    reals: &L,
    launcher: &S,
) -> Result<Vec<Report>, NoMemory>
    ensures { WhereTold (F.told files.now) (λ fs. WhereTold (L.told reals.now) (λ real_paths.
        IfOk result (λ reports. AreCompared fs real_paths (S.told_with launcher.now) machine.now
        (texts_of targets.now) dir.now (subjects_of reports.items)))) }
{
    let of_crate = crate_json(alloc, dir, machine, files);
    let of_cargo = cargo_json(alloc, dir, machine, files, reals);
    let looks = are_looked_at(&of_crate, &of_cargo, targets);
    let mut reports = reports_between(alloc, Part::Config, dir, of_crate, of_cargo)?;
    if !looks {
        return Ok(reports);
    }
    let mut settings = target_reports(alloc, dir, targets, machine, files, reals, launcher)?;
    reports.append(&mut settings)?;
    Ok(reports)
}

// Whether both accept the configuration, and targets are asked for.
fn are_looked_at(
    of_crate: &Result<Json, Error>,
    of_cargo: &Result<Json, Error>,
    targets: &[&str],
) -> bool
    ensures { result ≡ (is_ok of_crate.now && is_ok of_cargo.now && not (length targets.now == 0)) }
{
    of_crate.is_ok() && of_cargo.is_ok() && !targets.is_empty()
}
