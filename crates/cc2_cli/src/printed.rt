//! Writing what was composed.
ghost use Rattle.std.specs.Prelude.{OnOk};
ghost use Rattle.std.specs.Io.KnownBytes.{Appends};
ghost use Rattle.cc2_cli.specs.Answers.{answer_text};

use crate::answer::Answer;
use std::io::Write;

/// The writer refused.
#[derive(Clone, Copy, Debug, PartialEq, Eq)]
pub struct WriteFault;

const NO_MEMORY: &str = "error: out of memory\n";

/// Writes a text.
///
/// # Errors
/// `WriteFault` where the writer refuses.
pub fn write<W: Write>(out: &mut W, text: &[u8]) -> Result<(), WriteFault>
    ensures { OnOk result (Appends (W.contents out.old) (W.contents out.new) text.now) }
{
    match out.write_all(text) {
        Ok(()) => Ok(()),
        Err(_) => Err(WriteFault),
    }
}

/// Writes the text of an answer; the line that memory ran out where it has none.
///
/// # Errors
/// `WriteFault` where the writer refuses.
pub fn print<W: Write>(answer: &Answer, out: &mut W) -> Result<(), WriteFault>
    ensures { OnOk result (Appends (W.contents out.old) (W.contents out.new)
        (answer_text answer.now)) }
{
    match &answer.text {
        Some(text) => write(out, text.as_slice()),
        None => write(out, NO_MEMORY.as_bytes()),
    }
}
