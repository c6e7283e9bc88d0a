//! What a program says to a command.
ghost use Rattle.std.specs.Prelude.{◌≡◌, IfOk, string_bytes};
ghost use Rattle.cc2_error.specs.Causes.{refusal_of, plain};
ghost use Rattle.cc2_error.specs.Commands.{command_of};
ghost use Rattle.cc2_error.specs.Outcomes.{Gives};
ghost use Rattle.cc2_base.specs.Told.{Keeps, WhereTold};
ghost use Rattle.cc2_base.specs.ToldPrograms.{one_more, output_of};
ghost use Rattle.cc2_rustc.specs.Said.{said, written, ended_well, stdout_of, failure, as_text};

use crate::line_ends::drop_line_ends;
use cc2_base::programs::{Programs, RunAnswer};
use cc2_error::error::{Error, ErrorKind, Result};
use cc2_error::path_and_args::PathAndArgs;
use std::alloc::Global;

/// What the program writes to its standard output when the command is run, as a text without the ends
/// of lines after it. It is run once.
///
/// # Errors
/// - `ErrorKind::NotRun` where the program can't be started;
/// - `ErrorKind::ProgramFailed` where it ends otherwise than with the status 0;
/// - `ErrorKind::OutputNotText` where its output is not UTF-8;
/// - `ErrorKind::Memory` where memory ran out.
pub fn said<P: Programs>(alloc: Global, programs: &mut P, command: &PathAndArgs) -> Result<String>
    ensures told { WhereTold (P.told programs.old) (λ answers.
        Gives string_bytes result (said answers (command_of command.now))) }
    ensures same { Keeps (P.told programs.old) (P.told programs.new) }
    ensures counted { P.runs programs.new ≡ one_more (P.runs programs.old) }
{
    let answer = programs.run(alloc, command.path.as_str(), command.args.as_slice())?;
    let stdout = written(alloc, command, answer)?;
    Ok(text_of(alloc, command, stdout)?)
}

// What the program wrote to its standard output, where it ended well.
fn written(alloc: Global, command: &PathAndArgs, answer: RunAnswer) -> Result<Vec<u8>>
    ensures { Gives
        (λ bytes. bytes.items) result (written (command_of command.now) (output_of answer)) }
{
    match ended_well(&answer) {
        true => Ok(stdout_of(alloc, answer)),
        false => Err(failed(command.try_clone(alloc)?, answer)),
    }
}

// Whether the program was started and ended with the status 0.
fn ended_well(answer: &RunAnswer) -> bool
    ensures { result ≡ ended_well (output_of answer.now) }
{
    match answer {
        RunAnswer::Done { code, .. } => *code == Some(0),
        RunAnswer::NotRun => false,
    }
}

// What the program wrote to its standard output.
fn stdout_of(alloc: Global, answer: RunAnswer) -> Vec<u8>
    ensures { result.items ≡ stdout_of (output_of answer) }
{
    match answer {
        RunAnswer::Done { stdout, .. } => stdout,
        RunAnswer::NotRun => Vec::new(alloc),
    }
}

// Why a program that didn't end well has said nothing.
fn failed(command: PathAndArgs, answer: RunAnswer) -> Error
    ensures { refusal_of result ≡ plain (failure (command_of command) (output_of answer)) }
{
    let kind = match answer {
        RunAnswer::NotRun => ErrorKind::NotRun { command },
        RunAnswer::Done {
            code,
            stdout,
            stderr,
        } => ErrorKind::ProgramFailed {
            command,
            code,
            stdout,
            stderr,
        },
    };
    Error::new(kind)
}

// The output of a program as a text, without the ends of lines after it.
fn text_of(alloc: Global, command: &PathAndArgs, stdout: Vec<u8>) -> Result<String>
    ensures { Gives string_bytes result (as_text (command_of command.now) stdout.items) }
{
    let mut bytes = stdout;
    drop_line_ends(&mut bytes);
    match String::from_utf8(bytes) {
        Ok(text) => Ok(text),
        Err(_) => Err(Error::new(ErrorKind::OutputNotText {
            command: command.try_clone(alloc)?,
        })),
    }
}
