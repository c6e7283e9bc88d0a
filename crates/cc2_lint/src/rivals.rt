//! The reports of `cfg(..)` tables that both match a target.
ghost use Rattle.std.specs.Prelude.{◌≡◌, ◌∷◌, ◌⊎◌, IfErr, IfOk, OnOk, [], map};
ghost use Rattle.cc2_base.specs.Told.{Keeps};
ghost use Rattle.cc2_error.specs.Causes.{refusal_of};
ghost use Rattle.cc2_error.specs.Outcomes.{IsWantOfMemory};
ghost use Rattle.cc2_lint_settings.specs.Views.{rival_view, table_of};
ghost use Rattle.cc2_rustc.specs.Kept.{WhereBothTold};
ghost use Rattle.cc2_lint.specs.Files.{items_at, rival_subjects, rivals_view};
ghost use Rattle.cc2_reports.specs.Each.{AreOfEach};
ghost use Rattle.cc2_lint.specs.Listed.{IsOfTarget, IsMatchCause, IsMatchesCause};
ghost use Rattle.cc2_lint.specs.Subjects.{Appends, rival_subject};
ghost use Rattle.cc2_reports.specs.Problems.{IsAbout};

use cargo_config2::TargetTripleRef;
use cc2_base::files::Files;
use cc2_base::machine::Machine;
use cc2_base::programs::Programs;
use cc2_error::error::{Error, NoMemory};
use cc2_findings::LintedFile;
use cc2_lint_settings::{Rival, rivals_in_each};
use cc2_reports::{Lint, Report, Source, copied};
use std::alloc::Global;

/// What was found for a target in each of several files.
#[derive(Drop)]
pub struct Rivals<'a> {
    target: &'a str,
    found: Vec<Vec<Rival>>,
}

/// For each of these targets in turn, the linkers and the runners in `cfg(..)` tables that match it while another one
/// does too, in each of these files.
///
/// # Errors
/// `ErrorKind::SpecName` where a text isn't a target; `NotRun`, `ProgramFailed` and `OutputNotText` where rustc has to be run
/// and doesn't answer; `Memory` where memory ran out.
pub fn rivals_of_each<'a, F: Files, P: Programs>(
    alloc: Global,
    dir: &str,
    targets: &[&'a str],
    machine: &Machine,
    linted: &[LintedFile],
    files: &F,
    programs: &mut P,
) -> Result<Vec<Rivals<'a>>, Error>
    ensures ok { WhereBothTold (F.told files.now) (P.told programs.old) (λ fs answers.
        IfOk result (λ rivals. AreOfEach
        (IsOfTarget fs answers machine.now dir.now (map table_of linted.now))
        (map (λ text. text.now) targets.now) (map rivals_view rivals.items))) }
    ensures refused { WhereBothTold (F.told files.now) (P.told programs.old) (λ fs answers.
        IfErr result (λ e. IsWantOfMemory e ⊎ IsMatchesCause fs answers machine.now dir.now
        (map (λ text. text.now) targets.now) (refusal_of e))) }
    ensures same { Keeps (P.told programs.old) (P.told programs.new) }
{
    let mut all = Vec::new(alloc);
    for text in targets {
        let rivals = rivals_for(alloc, dir, *text, machine, linted, files, programs)?;
        all.push(rivals)?;
    }
    Ok(all)
}

// The same for one target.
fn rivals_for<'a, F: Files, P: Programs>(
    alloc: Global,
    dir: &str,
    text: &'a str,
    machine: &Machine,
    linted: &[LintedFile],
    files: &F,
    programs: &mut P,
) -> Result<Rivals<'a>, Error>
    ensures ok { WhereBothTold (F.told files.now) (P.told programs.old) (λ fs answers.
        IfOk result (λ rivals. IsOfTarget fs answers machine.now dir.now (map table_of linted.now)
        text.now (rivals_view rivals ∷ []))) }
    ensures refused { WhereBothTold (F.told files.now) (P.told programs.old) (λ fs answers.
        IfErr result (λ e. IsWantOfMemory e
        ⊎ IsMatchCause fs answers machine.now dir.now text.now (refusal_of e))) }
    ensures same { Keeps (P.told programs.old) (P.told programs.new) }
{
    let target = TargetTripleRef::new(text)?;
    let found = rivals_in_each(alloc, dir, &target, machine, linted, files, programs)?;
    Ok(Rivals {
        target: text,
        found,
    })
}

/// Whether something was found in the file of this number.
pub fn has_rivals(rivals: &[Rivals<'_>], number: usize) -> bool {
    for one in rivals {
        if !nth_list(one.found.as_slice(), number).is_empty() {
            return true;
        }
    }
    false
}

/// The list of this number; none where there are fewer.
pub fn nth_list<T: Drop>(all: &[Vec<T>], number: usize) -> &[T]
    ensures { result.now ≡ items_at all.now number }
{
    match all.get(number) {
        Some(list) => list.as_slice(),
        None => &[],
    }
}

/// Appends the reports of what was found in the file of this number.
///
/// # Errors
/// `NoMemory` where memory ran out.
pub fn push_rivals(
    reports: &mut Vec<Report>,
    alloc: Global,
    file: &str,
    rivals: &[Rivals<'_>],
    number: usize,
) -> Result<(), NoMemory>
    ensures { OnOk result (Appends reports.old.items
        (rival_subjects file.now (map rivals_view rivals.now) number)
        reports.new.items) }
{
    for one in rivals {
        push_found(
            reports,
            alloc,
            file,
            one.target,
            nth_list(one.found.as_slice(), number),
        )?;
    }
    Ok(())
}

// The same for one target.
fn push_found(
    reports: &mut Vec<Report>,
    alloc: Global,
    file: &str,
    target: &str,
    found: &[Rival],
) -> Result<(), NoMemory>
    ensures { OnOk result (Appends reports.old.items
        (map (rival_subject file.now) (map rival_view found.now))
        reports.new.items) }
{
    for rival in found {
        reports.push(rival_report(alloc, file, target, rival)?)?;
    }
    Ok(())
}

// The report of a linker or a runner.
fn rival_report(alloc: Global, file: &str, target: &str, rival: &Rival) -> Result<Report, NoMemory>
    ensures { IfOk result (IsAbout (rival_subject file.now (rival_view rival.now))) }
{
    let setting = match rival.path.last() {
        Some(setting) => setting.as_str(),
        None => "",
    };
    let other = rival.other.as_str();
    let message = format!(in alloc; "`{other}` also matches `{target}` and also sets `{setting}`")?;
    Report::new(alloc, file, Lint::ConflictingCfg, message)?
        .at_key(copied(alloc, rival.path.as_slice())?)
        .with_help(alloc, "Cargo refuses to choose between them")
}
