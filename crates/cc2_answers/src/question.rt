//! The answer to a question of a directory.
ghost use Rattle.std.specs.Prelude.{◌≡◌, IfSome, is_none};
ghost use Rattle.cc2_base.specs.Told.{WhereTold};
ghost use Rattle.cc2_rustc.specs.Kept.{WhereBothTold};
ghost use Rattle.cc2_cli.specs.GetTasks.{question_view, task_view};
ghost use Rattle.cc2_cli.specs.Answers.{answer_text};
ghost use Rattle.cc2_answers.specs.Questions.{asks_nothing, Gives, AsksGives};

use crate::answer::{build_answer, host_answer, rustc_answer};
use crate::let_go::LetGo;
use crate::target::target_answer;
use cc2_base::files::Files;
use cc2_base::machine::Machine;
use cc2_base::programs::Programs;
use cc2_cli::Answer;
use cc2_cli::get::{Question, Task};
use std::alloc::Global;

/// The answer to a question; none where it is no question. What was loaded for it is released as `let_go` says.
///
/// The text is that of the settings that are asked, with the status 0. Where the load or the question is refused it is
/// a line `error: ` and, where there is one, a line `cause: `, with the status 1.
pub fn answer_to<F: Files, P: Programs>(
    alloc: Global,
    question: Question<'_>,
    machine: &Machine,
    files: &F,
    programs: &mut P,
    let_go: LetGo,
) -> Option<Answer>
    ensures none { is_none result ≡ asks_nothing (task_view question.entry.task) }
    ensures told { WhereTold (F.told files.now) (λ fs. IfSome result (λ answer.
        Gives fs machine.now (question_view question.entry) (answer_text answer) answer.status)) }
    ensures asks { WhereBothTold (F.told files.now) (P.told programs.old)
        (λ fs answers. IfSome result (λ answer.
        AsksGives fs answers machine.now (question_view question.entry)
        (answer_text answer) answer.status)) }
{
    let choices = question.choices;
    match question.task {
        Task::Nothing => None,
        Task::Build(dir) => Some(build_answer(alloc, dir, choices, machine, files, let_go)),
        Task::Rustc(dir) => Some(rustc_answer(alloc, dir, choices, machine, files, let_go)),
        Task::Host(dir) => Some(host_answer(alloc, dir, choices, machine, files, programs, let_go)),
        Task::Target(dir, text) => Some(target_answer(
            alloc, dir, text, choices, machine, files, programs, let_go,
        )),
        Task::Unknown => None,
    }
}
