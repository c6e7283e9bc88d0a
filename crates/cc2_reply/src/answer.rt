//! The answer by what a request gives.
ghost use Rattle.std.specs.Prelude.{◌≡◌, ◌++◌, map, option_map, string_bytes};
ghost use Rattle.cc2_base.specs.Told.{WhereTold};
ghost use Rattle.cc2_rustc.specs.Kept.{WhereBothTold};
ghost use Rattle.cc2_cli.specs.Choices.{choices_of};
ghost use Rattle.cc2_cli.specs.GetTasks as get;
ghost use Rattle.cc2_cli.specs.ShowTasks as show;
ghost use Rattle.cc2_show_answers.specs.ToldAnswers.{written};
ghost use Rattle.cc2_cli.specs.Answers.{answer_text};
ghost use Rattle.cc2_ask.specs.Views.{given_view};
ghost use Rattle.cc2_reply.specs.Asked.{asked_in};
ghost use Rattle.cc2_reply.specs.Answered.{IsAnsweredBy, IsAskedAnswer};
ghost use Rattle.cc2_reply.specs.Replies.{GetAnswers, ItemsBy, RequestAnswers, SeveralAnswers, ShowAnswers};

use crate::by_state::{no_answer, state_answer};
use crate::load::{Answered, load_answer};
use crate::question::{Question, asked};
use cc2_answers::{LetGo, answer_to, several_to};
use cc2_ask::{AskedFiles, AskedPrograms, Given, Need};
use cc2_base::files::Files;
use cc2_base::machine::Machine;
use cc2_base::programs::Programs;
use cc2_cli::show::{self, Request, Task};
use cc2_cli::{Answer, get};
use cc2_show_answers::{Told, told_to};
use std::alloc::Global;

/// The answer by what is given, and what had to be known for it and isn't given. Where something isn't, the answer says
/// that memory ran out.
pub fn looked_up(alloc: Global, given: &Given) -> (Answered, Option<Need>)
    ensures { IsAnsweredBy (given_view given.now) given.now.machine result.0 }
{
    let mut files = AskedFiles::new(alloc, &given.paths);
    let mut programs = AskedPrograms::new(&given.runs);
    let answer = answer_by(alloc, given, &files, &mut programs);
    let need = match files.take_need() {
        Some(need) => Some(need),
        None => programs.take_need(),
    };
    (answer, need)
}

// The answer by files and programs that are what is given.
fn answer_by<F: Files, P: Programs>(
    alloc: Global,
    given: &Given,
    files: &F,
    programs: &mut P,
) -> Answered
    ensures { WhereBothTold (F.told files.now) (P.told programs.old) (λ fs answers.
        IsAskedAnswer fs answers given.now.machine (given_view given.now).state
        (asked_in (given_view given.now).words) result) }
{
    let machine = &given.machine;
    match asked(given.words.as_slice()) {
        Question::Get(question) => Answered::Answer(get_answer(
            alloc, question, machine, files, programs,
        )),
        Question::Show(question) => Answered::Answer(show_answer(alloc, question, machine, files)),
        Question::Several(dir, words) => Answered::Answer(items_answer(
            alloc,
            dir,
            &given.state,
            words,
            machine,
            files,
            programs,
        )),
        Question::Load(dir, words) => load_answer(alloc, dir, words, machine, files),
    }
}

// The answer to the items that these words ask: by the state that is handed back, or else by the files.
fn items_answer<F: Files, P: Programs>(
    alloc: Global,
    dir: &str,
    state: &Option<Vec<u8>>,
    words: &[String],
    machine: &Machine,
    files: &F,
    programs: &mut P,
) -> Answer
    ensures { WhereBothTold (F.told files.now) (P.told programs.old) (λ fs answers.
        ItemsBy fs answers machine.now (option_map (λ bytes. bytes.items) state.now)
        dir.now (map string_bytes words.now) (answer_text result) result.status) }
{
    match state {
        Some(bytes) => state_answer(
            alloc,
            dir,
            bytes.as_slice(),
            words,
            machine,
            files,
            programs,
        ),
        None => several_answer(alloc, dir, words, machine, files, programs),
    }
}

// The answer to a question of `cc2_get`.
fn get_answer<F: Files, P: Programs>(
    alloc: Global,
    question: get::Question<'_>,
    machine: &Machine,
    files: &F,
    programs: &mut P,
) -> Answer
    ensures { WhereBothTold (F.told files.now) (P.told programs.old) (λ fs answers.
        GetAnswers fs answers machine.now (get.question_view question.entry)
        (answer_text result) result.status) }
{
    match answer_to(alloc, question, machine, files, programs, LetGo::Dropped) {
        Some(answer) => answer,
        None => no_answer(alloc),
    }
}

// The answer to a question `show`.
fn show_answer<F: Files>(
    alloc: Global,
    question: show::Question<'_>,
    machine: &Machine,
    files: &F,
) -> Answer
    ensures { WhereTold (F.told files.now) (λ fs.
        ShowAnswers fs machine.now (show.question_view question.entry).task
        (show.question_view question.entry).choices (answer_text result) result.status) }
{
    match question.task {
        Task::Show(request) => request_answer(alloc, request, question.choices, machine, files),
        Task::Nothing => no_answer(alloc),
        Task::Help => no_answer(alloc),
        Task::Version => no_answer(alloc),
        Task::Unknown => no_answer(alloc),
    }
}

// The answer to a request of `show`.
fn request_answer<F: Files>(
    alloc: Global,
    request: Request<'_>,
    choices: &[String],
    machine: &Machine,
    files: &F,
) -> Answer
    ensures { WhereTold (F.told files.now) (λ fs.
        RequestAnswers fs machine.now (show.request_view request.entry)
        (choices_of (map string_bytes choices.now)) (answer_text result) result.status) }
{
    match told_to(alloc, request, choices, machine, files, LetGo::Dropped) {
        Some(told) => on_either(told),
        None => no_answer(alloc),
    }
}

// The answer to the items that these words ask of a directory.
fn several_answer<F: Files, P: Programs>(
    alloc: Global,
    dir: &str,
    words: &[String],
    machine: &Machine,
    files: &F,
    programs: &mut P,
) -> Answer
    ensures { WhereBothTold (F.told files.now) (P.told programs.old) (λ fs answers.
        SeveralAnswers fs answers machine.now dir.now (map string_bytes words.now)
        (answer_text result) result.status) }
{
    match several_to(alloc, dir, words, machine, files, programs) {
        Some(answer) => answer,
        None => no_answer(alloc),
    }
}

// What is written on either writer.
fn on_either(told: Told) -> Answer
    ensures text { answer_text result ≡ (written told).out ++ (written told).err }
    ensures status { result.status ≡ (written told).status }
{
    match told {
        Told::Shown(answer) => answer,
        Told::Unset(line) => Answer {
            text: Some(line),
            status: 1,
        },
    }
}
