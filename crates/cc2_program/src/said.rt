//! What a run writes: an answer on standard output, anything else on standard error.
ghost use Rattle.std.specs.Prelude.{◌≡◌, ◌⊎◌, IfOk};
ghost use Rattle.cc2_cli.specs.Answers.{answer_text};
ghost use Rattle.cc2_program.specs.SaidViews.{written};
ghost use Rattle.cc2_program.specs.Streams.{Ends, IsOnOneStream, by_status, on_terminal, out_of_memory, told_streams};
ghost use Rattle.cc2_show_answers.specs.ToldAnswers as shown;

use cc2_cli::{Answer, WriteFault, answer_of, write};
use cc2_error::error::NoMemory;
use cc2_reports::visible_text;
use cc2_show_answers::Told;
use std::alloc::Global;
use std::io::Write;

/// What a run writes, and the status that it ends with.
#[derive(Debug, Drop)]
pub enum Said {
    /// A text on standard output. The status is 0.
    Text(&'static str),
    /// An answer, on standard output.
    Answer(Answer),
    /// An error, on standard error.
    Error(Answer),
    /// A line on standard error, and the status.
    Line(Vec<u8>, u8),
    /// Findings on standard output, and a summary on standard error.
    Findings(Answer, Vec<u8>),
}

impl Said {
    /// An answer with the status 0, or else an error.
    pub fn by_status(answer: Answer) -> Said
        ensures is { written result ≡ by_status (answer_text answer) answer.status }
        ensures one { IsOnOneStream (written result) }
    {
        if answer.status == 0 {
            Said::Answer(answer)
        } else {
            Said::Error(answer)
        }
    }

    /// The answer for a configuration, or the error of a key that isn't set.
    pub fn of_told(told: Told) -> Said
        ensures is { told_streams (shown.written told) ≡ written result }
        ensures one { IsOnOneStream (written result) }
    {
        match told {
            Told::Shown(answer) => Said::by_status(answer),
            Told::Unset(line) => Said::Line(line, 1),
        }
    }

    /// The error that memory ran out.
    pub fn out_of_memory() -> Said
        ensures { written result ≡ out_of_memory }
    {
        Said::Error(answer_of(Err(NoMemory), 1))
    }
}

/// Writes it and returns the status. Standard error gets it as a terminal may get it: control characters other than tabs and line
/// feeds, and marks of direction, by their numbers. Where that finds no memory, that is the error, and nothing else is written.
///
/// # Errors
/// `WriteFault` where a stream refuses.
pub fn write_said<W: Write, E: Write>(
    alloc: Global,
    said: &Said,
    out: &mut W,
    err: &mut E,
) -> Result<u8, WriteFault>
    ensures { IfOk result (λ status.
        Ends (W.contents out.old) (W.contents out.new) (E.contents err.old)
        (E.contents err.new) status
        (λ w. (w ≡ written said.now) ⊎ (w ≡ out_of_memory))) }
{
    match shown(alloc, said.error_text()) {
        Ok(text) => {
            write(out, said.output_text())?;
            write(err, text.as_slice())?;
            Ok(said.status())
        }
        Err(_) => {
            write(err, NO_MEMORY.as_bytes())?;
            Ok(1)
        }
    }
}

const NO_MEMORY: &str = "error: out of memory\n";

// A text as a terminal may get it, with its lines.
fn shown(alloc: Global, text: &[u8]) -> Result<Vec<u8>, NoMemory>
    ensures { IfOk result (λ shown. shown.items ≡ on_terminal text.now) }
{
    match std::str::from_utf8(text) {
        Ok(text) => Ok(visible_text(alloc, true, text)?.into_bytes()),
        Err(_) => Ok(Vec::from_slice(alloc, text)?),
    }
}

// The text of an answer; the line that memory ran out where it has none.
fn text_of(answer: &Answer) -> &[u8]
    ensures { result.now ≡ answer_text answer.now }
{
    match &answer.text {
        Some(text) => text.as_slice(),
        None => NO_MEMORY.as_bytes(),
    }
}

impl Said {
    // What is written to standard output.
    fn output_text(&self) -> &[u8]
        ensures { result.now ≡ (written self.now).out }
    {
        match self {
            Said::Text(text) => text.as_bytes(),
            Said::Answer(answer) | Said::Findings(answer, _) => text_of(answer),
            Said::Error(_) | Said::Line(_, _) => &[],
        }
    }

    // What is written to standard error.
    fn error_text(&self) -> &[u8]
        ensures { result.now ≡ (written self.now).err }
    {
        match self {
            Said::Text(_) | Said::Answer(_) => &[],
            Said::Error(answer) => text_of(answer),
            Said::Line(text, _) | Said::Findings(_, text) => text.as_slice(),
        }
    }

    fn status(&self) -> u8
        ensures { result ≡ (written self.now).status }
    {
        match self {
            Said::Text(_) => 0,
            Said::Answer(answer) | Said::Error(answer) | Said::Findings(answer, _) => answer.status,
            Said::Line(_, status) => *status,
        }
    }
}
