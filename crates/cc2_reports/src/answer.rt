//! The answer that reports come to.
ghost use Rattle.std.specs.Prelude.{◌≡◌};
ghost use Rattle.cc2_error.specs.Causes.{refusal_of};
ghost use Rattle.cc2_reports.specs.Answers.{IsAnswered, IsAnswerFor, IsRefusedBy, IsReported, is_refused};
ghost use Rattle.cc2_reports.specs.Problems.{problems_of};

use crate::format::{Format, printed};
use crate::grade::{Counts, counts_of, status_for};
use crate::level::Level;
use crate::report::Report;
use cc2_cli::{Answer, answer_of, refusal_answer};
use cc2_error::error::{Error, NoMemory};
use std::alloc::Global;

/// How reports are printed, and from which level on they make the status 1.
#[derive(Clone, Copy, Debug)]
pub struct Printing {
    /// How reports are printed.
    pub format: Format,
    /// Whether the text is coloured, as a terminal shows it.
    pub is_coloured: bool,
    /// The level from which on a report makes the status 1.
    pub deny: Level,
}

/// The reports as they are printed, with the exit status, and how many there are.
#[derive(Debug, Drop)]
pub struct Linted {
    /// The text, and the exit status.
    pub answer: Answer,
    /// How many reports there are.
    pub counts: Counts,
}

impl Linted {
    /// Whether there was an error: the text is then the lines `error: ..` and `cause: ..`, and not reports. If reports
    /// make the status 1, there is at least one.
    pub fn is_refused(&self) -> bool
        ensures { result ≡ is_refused self.now }
    {
        self.answer.status == 1
            && self.counts.errors == 0
            && self.counts.warnings == 0
            && self.counts.notes == 0
    }
}

/// These reports as they are printed, or the lines of the error with the status 1. The status is 1 where a report is at
/// the level `deny` or above it, else 0. Where memory runs out, the answer is that error's.
pub fn answer_for(alloc: Global, printing: Printing, found: Result<Vec<Report>, Error>) -> Linted
    ensures { IsAnswerFor printing found result }
{
    match found {
        Ok(reports) => answered(alloc, printing, reports.as_slice()),
        Err(error) => refused(alloc, &error),
    }
}

// The answer with these reports.
fn answered(alloc: Global, printing: Printing, reports: &[Report]) -> Linted
    ensures { IsAnswered printing (problems_of reports.now) result }
{
    match printed(alloc, printing.format, printing.is_coloured, reports) {
        Ok(text) => graded(text, printing.deny, reports),
        Err(error) => refused(alloc, &Error::from(error)),
    }
}

// The answer with this text for these reports.
fn graded(text: Vec<u8>, deny: Level, reports: &[Report]) -> Linted
    ensures { IsReported text.items deny (problems_of reports.now) result }
{
    Linted {
        answer: answer_of(Ok(text), status_for(deny, reports)),
        counts: counts_of(reports),
    }
}

// The answer where there is an error in place of reports.
fn refused(alloc: Global, error: &Error) -> Linted
    ensures { IsRefusedBy (refusal_of error.now) result }
{
    Linted {
        answer: refusal_answer(alloc, error),
        counts: Counts {
            errors: 0,
            warnings: 0,
            notes: 0,
        },
    }
}
