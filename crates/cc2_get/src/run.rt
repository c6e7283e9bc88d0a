//! The program over any files, programs and writer.
ghost use Rattle.std.specs.Prelude.{◌≡◌, ℕ, List, IfOk, map, string_bytes};
ghost use Rattle.std.specs.Io.KnownBytes.{Appends};
ghost use Rattle.cc2_base.specs.Told.{WhereTold};
ghost use Rattle.cc2_rustc.specs.Kept.{WhereBothTold};
ghost use Rattle.cc2_cli.specs.GetTasks.{task_view};
ghost use Rattle.cc2_cli.specs.GetWords.{question_of};
ghost use Rattle.cc2_answers.specs.Questions.{Gives, AsksGives};
ghost use Rattle.cc2_get.specs.Runs.{GivesUsage, usage_status};

use cc2_answers::{LetGo, answer_to};
use cc2_base::files::Files;
use cc2_base::machine::Machine;
use cc2_base::programs::Programs;
use cc2_cli::get::{Task, asked};
use cc2_cli::{WriteFault, print, write};
use std::alloc::Global;
use std::io::Write;

const USAGE: &str =
    "usage: cc2_get DIR (build | target T | rustc | host) [--config TEXT | --config-file PATH]...\n";

/// Runs the words and answers the status to end with.
///
/// `DIR build` writes the lines of the build table of the configuration of a directory, with where
/// each value was set, `DIR rustc` those of the command for rustc, its program at the place 0 and its
/// arguments after it, `DIR host` the line of the host's triple, for which cargo and rustc are asked,
/// `DIR target T` those of the linker, the runner and the flags of a target, for which rustc is asked
/// where a key `cfg(..)` has to be judged; they end with 0, or, where the load or the question is
/// refused, write a line `error: ` and, where there is one, a line `cause: `, and end with 1. Behind
/// these words any number of pairs `--config TEXT` and `--config-file PATH` set what takes precedence over all
/// files and variables, the latest the strongest. Other words write the usage line and end with 2, no
/// words with 0. All is composed before the first write. What was loaded is forgotten: the process
/// ends after this.
pub fn run<F: Files, P: Programs, W: Write>(
    alloc: Global,
    words: &[String],
    machine: &Machine,
    files: &F,
    programs: &mut P,
    out: &mut W,
) -> Result<u8, WriteFault>
    ensures told { WhereTold (F.told files.now) (λ fs. IfOk result (λ status.
        (text : List ℕ) × Appends (W.contents out.old) (W.contents out.new) text
        × Gives fs machine.now (question_of (map string_bytes words.now)) text status)) }
    ensures asks { WhereBothTold (F.told files.now) (P.told programs.old)
        (λ fs answers. IfOk result (λ status.
        (text : List ℕ) × Appends (W.contents out.old) (W.contents out.new) text
        × AsksGives fs answers machine.now
        (question_of (map string_bytes words.now)) text status)) }
    ensures usage { IfOk result (λ status.
        (text : List ℕ) × Appends (W.contents out.old) (W.contents out.new) text
        × GivesUsage (question_of (map string_bytes words.now)).task text status) }
{
    let question = asked(words);
    match answer_to(alloc, question, machine, files, programs, LetGo::Forgotten) {
        Some(answer) => {
            print(&answer, out)?;
            Ok(answer.status)
        }
        None => {
            write(out, USAGE.as_bytes())?;
            Ok(usage_status(question.task))
        }
    }
}

// The status after the usage line: 0 without words, 2 with others.
fn usage_status(task: Task<'_>) -> u8
    ensures { result ≡ usage_status (task_view task.entry) }
{
    match task {
        Task::Nothing => 0,
        _ => 2,
    }
}
