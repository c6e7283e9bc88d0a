//! What a run writes, composed before it is written.
ghost use Rattle.std.specs.Prelude.{◌≡◌, IfOk};
ghost use Rattle.cc2_error.specs.Causes.{refusal_of};
ghost use Rattle.cc2_cli.specs.Answers.{IsAnswerOf, Refuses};
ghost use Rattle.cc2_cli.specs.Endings.{refusal_lines};

use cc2_error::error::{Error, NoMemory};
use std::alloc::Global;

/// A text to write, none where it found no memory, and the status to end with.
#[derive(Debug, Drop)]
pub struct Answer {
    pub text: Option<Vec<u8>>,
    pub status: u8,
}

/// The answer with this text; out of memory has the status 1.
pub fn answer_of(text: Result<Vec<u8>, NoMemory>, status: u8) -> Answer
    ensures { IsAnswerOf text status result }
{
    match text {
        Ok(text) => Answer {
            text: Some(text),
            status,
        },
        Err(_) => Answer {
            text: None,
            status: 1,
        },
    }
}

/// The answer for a refusal: a line `error: `, where there is a cause a line `cause: `, and the status 1.
pub fn refusal_answer(alloc: Global, error: &Error) -> Answer
    ensures { Refuses (refusal_of error.now) result }
{
    answer_of(error_lines(alloc, error), 1)
}

// The lines of a refusal.
fn error_lines(alloc: Global, error: &Error) -> Result<Vec<u8>, NoMemory>
    ensures { IfOk result (λ text. text.items ≡ refusal_lines (refusal_of error.now)) }
{
    let text = match error.cause() {
        None => format!(in alloc; "error: {error}\n")?,
        Some(cause) => format!(in alloc; "error: {error}\ncause: {cause}\n")?,
    };
    Ok(text.into_bytes())
}
