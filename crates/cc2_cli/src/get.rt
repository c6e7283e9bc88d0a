//! The words that a run is asked by.
ghost use Rattle.std.specs.Prelude.{◌≡◌, map, string_bytes};
ghost use Rattle.cc2_cli.specs.GetWords.{alone, question_of, target_question, task_in, under};
ghost use Rattle.cc2_cli.specs.GetTasks.{question_view, task_view};

use crate::choices::are_pairs;

/// What the words ask.
#[derive(Clone, Copy, Debug)]
pub enum Task<'a> {
    /// No word at all.
    Nothing,
    /// The build table of a directory.
    Build(&'a str),
    /// The command for rustc of a directory.
    Rustc(&'a str),
    /// The triple of the host, in a directory.
    Host(&'a str),
    /// The settings of the target of a text, in a directory.
    Target(&'a str, &'a str),
    /// Words that are no question.
    Unknown,
}

/// What the words ask, and under which choices.
#[derive(Clone, Copy, Debug)]
pub struct Question<'a> {
    /// What is asked.
    pub task: Task<'a>,
    /// The words after the task: pairs of `--config` or `--config-file` and its value.
    pub choices: &'a [String],
}

/// What these words ask: `DIR build` the build table of a directory, `DIR rustc` the command for rustc,
/// `DIR host` the triple of the host, `DIR target T` the settings of a target. Behind them are any number of
/// pairs `--config TEXT` and `--config-file PATH`.
pub fn asked(words: &[String]) -> Question<'_>
    ensures { question_view result ≡ question_of (map string_bytes words.now) }
{
    match words {
        [] => alone(Task::Nothing),
        [dir, word, choices @ ..] => {
            if word.as_str() == "target" {
                target_question(dir.as_str(), choices)
            } else {
                under(task_in(dir.as_str(), word.as_str()), choices)
            }
        }
        _ => alone(Task::Unknown),
    }
}

// The task without choices.
fn alone<'a>(task: Task<'a>) -> Question<'a>
    ensures { question_view result ≡ alone (task_view task.entry) }
{
    Question { task, choices: &[] }
}

// What the words after a directory and `target` ask.
fn target_question<'a>(dir: &'a str, words: &'a [String]) -> Question<'a>
    ensures { question_view result ≡ target_question dir.now (map string_bytes words.now) }
{
    match words {
        [text, choices @ ..] => under(Task::Target(dir, text.as_str()), choices),
        _ => alone(Task::Unknown),
    }
}

// The task under these words, where they are pairs.
fn under<'a>(task: Task<'a>, words: &'a [String]) -> Question<'a>
    ensures { question_view result ≡ under (task_view task.entry) (map string_bytes words.now) }
{
    if are_pairs(words) {
        Question {
            task,
            choices: words,
        }
    } else {
        alone(Task::Unknown)
    }
}

// What the word after a directory asks.
fn task_in<'a>(dir: &'a str, word: &str) -> Task<'a>
    ensures { task_view result ≡ task_in dir.now word.now }
{
    match word {
        "build" => Task::Build(dir),
        "rustc" => Task::Rustc(dir),
        "host" => Task::Host(dir),
        _ => Task::Unknown,
    }
}
