//! What arguments come to before anything of the system is read.
ghost use Rattle.std.specs.Prelude.{◌≡◌, ◌⊎◌, map, string_bytes};
ghost use Rattle.cc2_command_line.specs.FaultViews.{fault_view};
ghost use Rattle.cc2_command_line.specs.Lines.{invocation_of};
ghost use Rattle.cc2_command_line.specs.Messages.{message};
ghost use Rattle.cc2_program.specs.SaidViews.{written};
ghost use Rattle.cc2_program.specs.Starts.{Starts};
ghost use Rattle.cc2_program.specs.Streams.{failed, out_of_memory};

use crate::said::Said;
use cc2_command_line::{Fault, Invocation, Line, help_of, message_of, parse_args, version_text};
use std::alloc::Global;

/// What arguments come to before anything of the system is read.
#[derive(Debug, Drop)]
pub enum Start<'a> {
    /// Help, the version, or what is wrong with the arguments.
    Said(Said),
    /// A command to run.
    Command(Line<'a>),
}

/// What the arguments after the program's name come to. Help and the version are printed with the status 0. If the
/// arguments are wrong, the message is an error with the status 2; if memory runs out, that is an error with the status 1.
pub fn begin(alloc: Global, words: &[String]) -> Start<'_>
    ensures { Starts (invocation_of (map string_bytes words.now)) result }
{
    match parse_args(alloc, words) {
        Ok(Invocation::Help(verb)) => Start::Said(Said::Text(help_of(verb))),
        Ok(Invocation::Version) => Start::Said(Said::Text(version_text())),
        Ok(Invocation::Run(line)) => Start::Command(line),
        Err(Fault::Memory) => Start::Said(Said::out_of_memory()),
        Err(fault) => Start::Said(fault_said(alloc, &fault)),
    }
}

// What is wrong with the arguments.
fn fault_said(alloc: Global, fault: &Fault<'_>) -> Said
    ensures { (written result ≡ failed (message (fault_view fault.now)) 2)
        ⊎ (written result ≡ out_of_memory) }
{
    match message_of(alloc, fault) {
        Ok(message) => Said::Line(message.into_bytes(), 2),
        Err(_) => Said::out_of_memory(),
    }
}
