//! A command line over any files, programs and writers.
ghost use Rattle.std.specs.Prelude.{◌≡◌, ◌⊎◌, false, IfOk, map, string_bytes};
ghost use Rattle.cc2_answers.specs.Questions.{asks_nothing, TaskAsksGives, TaskGives};
ghost use Rattle.cc2_command_line.specs.CommandViews.{command_view, targets_view};
ghost use Rattle.cc2_command_line.specs.LineViews.{line_view};
ghost use Rattle.cc2_base.specs.Told.{WhereTold};
ghost use Rattle.cc2_lint.specs.Worlds.{WhereAll};
ghost use Rattle.cc2_program.specs.Runs.{CommandAlways, CommandAsks, CommandFinds, CommandGives, HostPrints, LineAlways, LineAsks, LineFinds, LineGives, RulesPrint, RustcPrints, TaskWrites};
ghost use Rattle.cc2_program.specs.SaidViews.{written};
ghost use Rattle.cc2_program.specs.Streams.{Ends, IsAnswerOrError, IsOnOneStream, out_of_memory};
ghost use Rattle.cc2_rustc.specs.Kept.{WhereBothTold};
ghost use Rattle.cc2_cli.specs.Choices.{choices_of};
ghost use Rattle.cc2_cli.specs.GetTasks.{task_view};

use crate::cargo_programs::{cargo_host_answer, cargo_rustc_answer};
use crate::cargo_targets::cargo_targets_answer;
use crate::lint::lint_said;
use crate::overrides::choices_by;
use crate::said::{Said, write_said};
use crate::shown::get_said;
use crate::targets::targets_answer;
use crate::versions::versions_answer;
use cargo_rules::Launcher;
use cc2_answers::{LetGo, answer_to};
use cc2_base::files::Files;
use cc2_base::machine::Machine;
use cc2_base::programs::Programs;
use cc2_cargo::RealPaths;
use cc2_cargo_target::WithVariables;
use cc2_cli::WriteFault;
use cc2_cli::get::{Question, Task};
use cc2_command_line::{Command, Line, Rules, Targets};
use cc2_lint::Permissions;
use std::alloc::Global;
use std::io::Write;

/// Where and how a command line is run.
#[derive(Clone, Copy, Debug)]
pub struct Place<'a> {
    /// The directory, the variables and the home.
    pub machine: &'a Machine,
    /// The absolute paths that `lint` is given.
    pub paths: &'a [String],
    /// Whether output is coloured.
    pub is_coloured: bool,
}

/// Runs a command under its overrides and returns the exit status: 0; 1 if the configuration has an error, a key isn't
/// set, or a finding is at the denied level; 2 if an argument isn't one that the command takes. An answer is written to
/// standard output, an error to standard error, and of `lint` findings to standard output and their summary to standard
/// error. Everything is composed before the first write. What was loaded is not freed: the process ends after this.
///
/// # Errors
/// `WriteFault` where a stream refuses.
pub fn run<
    F: Files,
    P: WithVariables,
    R: Permissions,
    L: RealPaths,
    S: Launcher,
    W: Write,
    E: Write,
>(
    alloc: Global,
    line: &Line<'_>,
    place: &Place<'_>,
    files: &F,
    programs: &mut P,
    permissions: &R,
    reals: &L,
    launcher: &S,
    out: &mut W,
    err: &mut E,
) -> Result<u8, WriteFault>
    ensures told { WhereTold (F.told files.now) (λ fs. IfOk result (λ status.
        Ends (W.contents out.old) (W.contents out.new) (E.contents err.old)
        (E.contents err.new) status
        (LineGives fs (L.told reals.now) place.now.machine.now (line_view line.now)))) }
    ensures asks { WhereBothTold (F.told files.now) (P.told programs.old)
        (λ fs answers. IfOk result (λ status.
        Ends (W.contents out.old) (W.contents out.new) (E.contents err.old)
        (E.contents err.new) status
        (LineAsks fs (L.told reals.now) answers (P.told_with programs.old)
        place.now.machine.now (line_view line.now)))) }
    ensures always { IfOk result (λ status.
        Ends (W.contents out.old) (W.contents out.new) (E.contents err.old)
        (E.contents err.new) status
        (LineAlways place.now.is_coloured (line_view line.now))) }
    ensures finds { WhereAll (F.told files.now) (P.told programs.old) (R.told permissions.now)
        (λ fs answers is_open. IfOk result (λ status.
        Ends (W.contents out.old) (W.contents out.new)
        (E.contents err.old) (E.contents err.new) status
        (LineFinds fs (L.told reals.now) (S.told_with launcher.now) answers is_open
        place.now.machine.now
        (map string_bytes place.now.paths.now) place.now.is_coloured (line_view line.now)))) }
{
    let said = said_of(
        alloc,
        line,
        place,
        files,
        programs,
        permissions,
        reals,
        launcher,
    );
    write_said(alloc, &said, out, err)
}

// What a command line writes.
fn said_of<F: Files, P: WithVariables, R: Permissions, L: RealPaths, S: Launcher>(
    alloc: Global,
    line: &Line<'_>,
    place: &Place<'_>,
    files: &F,
    programs: &mut P,
    permissions: &R,
    reals: &L,
    launcher: &S,
) -> Said
    ensures told { WhereTold (F.told files.now) (λ fs.
        LineGives fs (L.told reals.now) place.now.machine.now (line_view line.now)
        (written result)) }
    ensures asks { WhereBothTold (F.told files.now) (P.told programs.old) (λ fs answers.
        LineAsks fs (L.told reals.now) answers (P.told_with programs.old)
        place.now.machine.now (line_view line.now) (written result)) }
    ensures always { LineAlways place.now.is_coloured (line_view line.now) (written result) }
    ensures finds { WhereAll (F.told files.now) (P.told programs.old) (R.told permissions.now)
        (λ fs answers is_open. LineFinds fs (L.told reals.now) (S.told_with launcher.now) answers
        is_open place.now.machine.now (map string_bytes place.now.paths.now)
        place.now.is_coloured (line_view line.now) (written result)) }
{
    let dir = place.machine.current_dir.as_str();
    match choices_by(alloc, dir, line.configs.as_slice(), files) {
        Ok(choices) => command_said(
            alloc,
            line,
            place,
            choices.as_slice(),
            files,
            programs,
            permissions,
            reals,
            launcher,
        ),
        Err(_) => Said::out_of_memory(),
    }
}

// What the command of a line writes under overrides.
fn command_said<F: Files, P: WithVariables, R: Permissions, L: RealPaths, S: Launcher>(
    alloc: Global,
    line: &Line<'_>,
    place: &Place<'_>,
    choices: &[String],
    files: &F,
    programs: &mut P,
    permissions: &R,
    reals: &L,
    launcher: &S,
) -> Said
    ensures told { WhereTold (F.told files.now) (λ fs.
        CommandGives fs (L.told reals.now) place.now.machine.now
        (choices_of (map string_bytes choices.now)) (line_view line.now).configs
        (command_view line.now.command) (written result)
        ⊎ (written result ≡ out_of_memory)) }
    ensures asks { WhereBothTold (F.told files.now) (P.told programs.old) (λ fs answers.
        CommandAsks fs (L.told reals.now) answers (P.told_with programs.old)
        place.now.machine.now (choices_of (map string_bytes choices.now))
        (line_view line.now).configs (command_view line.now.command) (written result)
        ⊎ (written result ≡ out_of_memory)) }
    ensures always { CommandAlways place.now.is_coloured
        (command_view line.now.command) line.now.quiet
        (written result) ⊎ (written result ≡ out_of_memory) }
    ensures finds { WhereAll (F.told files.now) (P.told programs.old) (R.told permissions.now)
        (λ fs answers is_open. CommandFinds fs (L.told reals.now)
        (S.told_with launcher.now) answers is_open place.now.machine.now
        (map string_bytes place.now.paths.now) place.now.is_coloured
        (command_view line.now.command) line.now.quiet (written result)
        ⊎ (written result ≡ out_of_memory)) }
{
    let machine = place.machine;
    let overrides = line.configs.as_slice();
    match &line.command {
        Command::Get(get) => get_said(alloc, get, machine, choices, overrides, files, reals),
        Command::Target(targets) => {
            targets_said(
                alloc, targets, machine, choices, overrides, files, reals, programs,
            )
        }
        Command::Rustc(rules) => {
            rustc_said(
                alloc, *rules, machine, choices, overrides, files, reals, programs,
            )
        }
        Command::Host(rules) => {
            host_said(
                alloc, *rules, machine, choices, overrides, files, reals, programs,
            )
        }
        Command::Version => {
            Said::by_status(versions_answer(alloc, machine, choices, files, programs))
        }
        Command::Lint(lint) => {
            let quiet = line.quiet;
            lint_said(
                alloc,
                lint,
                quiet,
                place,
                files,
                programs,
                permissions,
                reals,
                launcher,
            )
        }
    }
}

// What `target` writes, by its rules.
fn targets_said<F: Files, P: WithVariables, L: RealPaths>(
    alloc: Global,
    targets: &Targets<'_>,
    machine: &Machine,
    choices: &[String],
    overrides: &[&str],
    files: &F,
    reals: &L,
    programs: &mut P,
) -> Said
    ensures asks { WhereBothTold (F.told files.now) (P.told programs.old) (λ fs answers.
        TaskWrites (RulesPrint fs (L.told reals.now) answers (P.told_with programs.old)
        machine.now targets.now.rules (targets_view targets.now)
        (choices_of (map string_bytes choices.now)) (map (λ text. text.now) overrides.now))
        (written result)) }
    ensures always { IsAnswerOrError (written result) }
{
    match targets.rules {
        Rules::Crate => {
            Said::by_status(targets_answer(alloc, targets, machine, choices, files, programs))
        }
        Rules::Cargo => {
            let answer = cargo_targets_answer(
                alloc, targets, overrides, machine, files, reals, programs,
            );
            Said::by_status(answer)
        }
    }
}

// What `rustc` writes, by its rules.
fn rustc_said<F: Files, P: Programs, L: RealPaths>(
    alloc: Global,
    rules: Rules,
    machine: &Machine,
    choices: &[String],
    overrides: &[&str],
    files: &F,
    reals: &L,
    programs: &mut P,
) -> Said
    ensures told { WhereTold (F.told files.now) (λ fs.
        TaskWrites (RustcPrints fs (L.told reals.now) machine.now rules
        (choices_of (map string_bytes choices.now)) (map (λ text. text.now) overrides.now))
        (written result)) }
    ensures one { IsOnOneStream (written result) }
{
    match rules {
        Rules::Crate => {
            let task = Task::Rustc(machine.current_dir.as_str());
            question_said(alloc, task, machine, choices, files, programs)
        }
        Rules::Cargo => Said::by_status(cargo_rustc_answer(
            alloc, overrides, machine, files, reals,
        )),
    }
}

// What `host` writes, by its rules.
fn host_said<F: Files, P: WithVariables, L: RealPaths>(
    alloc: Global,
    rules: Rules,
    machine: &Machine,
    choices: &[String],
    overrides: &[&str],
    files: &F,
    reals: &L,
    programs: &mut P,
) -> Said
    ensures asks { WhereBothTold (F.told files.now) (P.told programs.old) (λ fs answers.
        TaskWrites (HostPrints fs (L.told reals.now) answers (P.told_with programs.old)
        machine.now rules (choices_of (map string_bytes choices.now))
        (map (λ text. text.now) overrides.now)) (written result)) }
    ensures one { IsOnOneStream (written result) }
{
    match rules {
        Rules::Crate => {
            let task = Task::Host(machine.current_dir.as_str());
            question_said(alloc, task, machine, choices, files, programs)
        }
        Rules::Cargo => {
            Said::by_status(cargo_host_answer(alloc, overrides, machine, files, reals, programs))
        }
    }
}

// What a question of `cc2_get` writes.
fn question_said<F: Files, P: Programs>(
    alloc: Global,
    task: Task<'_>,
    machine: &Machine,
    choices: &[String],
    files: &F,
    programs: &mut P,
) -> Said
    ensures told { WhereTold (F.told files.now) (λ fs. asks_nothing (task_view task.entry) ≡ false
        → TaskWrites (TaskGives fs machine.now (task_view task.entry)
        (choices_of (map string_bytes choices.now))) (written result)) }
    ensures asks { WhereBothTold (F.told files.now) (P.told programs.old) (λ fs answers.
        asks_nothing (task_view task.entry) ≡ false
        → TaskWrites (TaskAsksGives fs answers machine.now (task_view task.entry)
        (choices_of (map string_bytes choices.now))) (written result)) }
    ensures one { IsOnOneStream (written result) }
{
    let question = Question { task, choices };
    match answer_to(alloc, question, machine, files, programs, LetGo::Forgotten) {
        Some(answer) => Said::by_status(answer),
        None => Said::Line(Vec::new(alloc), 2),
    }
}
