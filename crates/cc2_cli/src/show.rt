//! The words that a run is asked by.
ghost use Rattle.std.specs.Prelude.{◌≡◌, map, string_bytes};
ghost use Rattle.cc2_cli.specs.ShowWords.{alone, is_at_odds, one_word, parted, question_in, question_of, under};
ghost use Rattle.cc2_cli.specs.ShowTasks.{question_view, request_view, task_view};
ghost use Rattle.cc2_cli.specs.ShowFound.{as_found, question_found, request_found, nothing_found};

use crate::choices::are_pairs;
use crate::found::{Found, with_part};
use crate::parts::first_part;

/// Which configuration of a directory is shown.
#[derive(Clone, Copy, Debug, PartialEq, Eq)]
pub enum Stage {
    /// The one that Cargo itself would use.
    Resolved,
    /// The files, merged.
    Files,
    /// The files, merged, under the environment's variables.
    Environment,
}

/// How a configuration is printed.
#[derive(Clone, Copy, Debug, PartialEq, Eq)]
pub enum Format {
    /// As TOML.
    Toml,
    /// As JSON: the whole configuration, or it with one key alone.
    Json,
    /// As JSON: what is at the key.
    JsonValue,
}

/// What is asked of a directory.
#[derive(Clone, Copy, Debug)]
pub struct Request<'a> {
    /// The directory.
    pub dir: &'a str,
    /// The key whose value alone is shown, as it was written.
    pub key: Option<&'a str>,
    /// Which configuration is shown.
    pub stage: Stage,
    /// How it is printed.
    pub format: Format,
    /// Whether it is one configuration, or each source's by itself: the command line's, the variables', each file's.
    pub merged: bool,
    /// Whether each value is shown with where it was set.
    pub origins: bool,
    /// Whether tokens are shown as they are.
    pub tokens: bool,
}

/// What the words ask.
#[derive(Clone, Copy, Debug)]
pub enum Task<'a> {
    /// No word at all.
    Nothing,
    /// How the program is asked.
    Help,
    /// The version of the program.
    Version,
    /// A configuration of a directory, or what is at one key.
    Show(Request<'a>),
    /// Words that are no question.
    Unknown,
}

/// What the words ask, and under which choices.
#[derive(Clone, Copy, Debug)]
pub struct Question<'a> {
    /// What is asked.
    pub task: Task<'a>,
    /// The words after the task: pairs of `--config` or `--config-file` and its value.
    pub choices: &'a [String],
}

/// What these words ask: `--help` or `--version` alone; or a directory, after it in any order a key,
/// `--files` or `--environment`, `--format` and `--merged` with their values, `--show-origin` and `--tokens`,
/// each at most once, and after these any number of pairs `--config TEXT` and `--config-file PATH`, but none
/// for the files alone. What isn't merged is asked for as TOML. A key is a word that doesn't begin with `--`; whether it is well formed isn't looked at.
pub fn asked(words: &[String]) -> Question<'_>
    ensures { question_view result ≡ question_of (map string_bytes words.now) }
{
    match words {
        [] => alone(Task::Nothing),
        [dir, behind @ ..] => {
            if behind.is_empty() {
                one_word(dir.as_str())
            } else {
                asked_of(dir.as_str(), behind)
            }
        }
    }
}

// The task without choices.
fn alone<'a>(task: Task<'a>) -> Question<'a>
    ensures { question_view result ≡ alone (task_view task.entry) }
{
    Question { task, choices: &[] }
}

// What one word asks.
fn one_word(word: &str) -> Question<'_>
    ensures { question_view result ≡ one_word word.now }
{
    match word {
        "--help" => alone(Task::Help),
        "--version" => alone(Task::Version),
        _ => question_found(word, Found::nothing(), &[]),
    }
}

/// What these words ask of a directory, which is in front of them: as `asked` has it, but none of them is needed.
pub fn asked_of<'a>(dir: &'a str, words: &'a [String]) -> Question<'a>
    ensures { let read = parted (map string_bytes words.now) in
        question_view result ≡ question_in dir.now read.0 read.1 }
{
    let mut found = Found::nothing();
    let mut rest = words;
    while let Some((part, behind)) = first_part(rest) {
        match with_part(found, part) {
            Some(more) => found = more,
            None => return alone(Task::Unknown),
        }
        rest = behind;
    }
    question_found(dir, found, rest)
}

// What a directory asks with the parts that were found and these words after them.
fn question_found<'a>(dir: &'a str, found: Found<'a>, words: &'a [String]) -> Question<'a>
    ensures { question_view result
        ≡ question_found dir.now (as_found found.entry) (map string_bytes words.now) }
{
    if are_pairs(words) {
        under(request_found(dir, found), words)
    } else {
        alone(Task::Unknown)
    }
}

fn request_found<'a>(dir: &'a str, found: Found<'a>) -> Request<'a>
    ensures { request_view result ≡ request_found dir.now (as_found found.entry) }
{
    Request {
        dir,
        key: found.key,
        stage: found.stage.unwrap_or(Stage::Resolved),
        format: found.format.unwrap_or(Format::Toml),
        merged: found.merged.unwrap_or(true),
        origins: found.origins,
        tokens: found.tokens,
    }
}

// The request under these pairs.
fn under<'a>(request: Request<'a>, choices: &'a [String]) -> Question<'a>
    ensures { question_view result
        ≡ under (request_view request.entry) (map string_bytes choices.now) }
{
    if is_at_odds(request, choices) {
        alone(Task::Unknown)
    } else {
        Question {
            task: Task::Show(request),
            choices,
        }
    }
}

// Whether a pair would be above the files alone, or what isn't merged be written as JSON.
fn is_at_odds(request: Request<'_>, choices: &[String]) -> bool
    ensures { result ≡ is_at_odds (request_view request.entry) (map string_bytes choices.now) }
{
    let above_files = request.stage == Stage::Files && !choices.is_empty();
    above_files || (!request.merged && request.format != Format::Toml)
}
