//! The answer of `lint`.
ghost use Rattle.std.specs.Prelude.{IfErr, IfOk};
ghost use Rattle.cc2_error.specs.Causes.{refusal_of};
ghost use Rattle.cc2_lint.specs.Answers.{AreChosen, IsAnswerBy, IsWhyNot, allowed_of, printing_of};
ghost use Rattle.cc2_lint.specs.Worlds.{WhereAll};
ghost use Rattle.cc2_rustc.specs.Kept.{WhereBothTold};
ghost use Rattle.cc2_program.specs.LintAnswers.{AreReportedWith, IsLintedAnswer};

use cargo_rules::Launcher;
use cc2_base::files::Files;
use cc2_base::machine::Machine;
use cc2_base::programs::Programs;
use cc2_cargo::RealPaths;
use cc2_compare::compared_reports;
use cc2_error::error::Error;
use cc2_lint::{Linted, Permissions, Question, all_reports};
use cc2_reports::{Printing, Report, answer_for, append_new};
use std::alloc::Global;

/// What is wrong in the files that are asked for, as it is printed, how many findings there are of each level, and the
/// exit status. The status is 1 if a finding is at the level `deny` or above it, else 0. The findings of a file are in the
/// order of its lines, those of the file as a whole first.
///
/// If `compares` is set, behind them is where cargo-config2 0.1.45 and Cargo 1.95 differ in each directory, by its files and the
/// environment variables: the keys at which they have different values, or that one alone refuses the configuration; and the
/// same of the settings of the targets that are asked for, where both accept the configuration. A file that is asked for by
/// its path is not compared.
///
/// It is an error if `CARGO_HOME` isn't UTF-8, if a target isn't valid or rustc doesn't answer for it, and if memory ran
/// out. The text is then the lines `error: ..` and, where there is a cause, `cause: ..`; there are no findings, and the
/// status is 1.
pub fn linted_answer<F: Files, P: Programs, R: Permissions, L: RealPaths, S: Launcher>(
    alloc: Global,
    question: &Question<'_>,
    compares: bool,
    machine: &Machine,
    files: &F,
    programs: &mut P,
    permissions: &R,
    reals: &L,
    launcher: &S,
) -> Linted
    ensures always { IsAnswerBy (printing_of question.now) (allowed_of question.now) result }
    ensures found { WhereAll (F.told files.now) (P.told programs.old) (R.told permissions.now)
        (λ fs answers is_open. IsLintedAnswer fs (L.told reals.now) (S.told_with launcher.now)
        answers is_open machine.now question.now compares result) }
{
    let printing = Printing {
        format: question.format,
        is_coloured: question.is_coloured,
        deny: question.deny,
    };
    let found = reports_with(
        alloc,
        question,
        compares,
        machine,
        files,
        programs,
        permissions,
        reals,
        launcher,
    );
    answer_for(alloc, printing, found)
}

// The reports of files, and behind them those of directories, where these are compared.
fn reports_with<F: Files, P: Programs, R: Permissions, L: RealPaths, S: Launcher>(
    alloc: Global,
    question: &Question<'_>,
    compares: bool,
    machine: &Machine,
    files: &F,
    programs: &mut P,
    permissions: &R,
    reals: &L,
    launcher: &S,
) -> Result<Vec<Report>, Error>
    ensures chosen { IfOk result (λ reports. AreChosen question.now reports.items) }
    ensures ok { WhereAll (F.told files.now) (P.told programs.old) (R.told permissions.now)
        (λ fs answers is_open. IfOk result (λ reports. AreReportedWith fs (L.told reals.now)
        (S.told_with launcher.now) answers is_open machine.now question.now compares
        reports.items)) }
    ensures refused { WhereBothTold (F.told files.now) (P.told programs.old) (λ fs answers.
        IfErr result (λ e. IsWhyNot fs answers machine.now question.now (refusal_of e))) }
{
    let mut reports = all_reports(alloc, question, machine, files, programs, permissions)?;
    if !compares {
        return Ok(reports);
    }
    let (dir, paths, targets) = (question.dir, question.paths, question.targets);
    let compared = compared_reports(alloc, dir, paths, targets, machine, files, reals, launcher)?;
    append_new(&mut reports, question.allowed, compared)?;
    Ok(reports)
}
