//! The lines of a command and of the host.
ghost use Rattle.std.specs.Prelude.{◌≡◌, ◌++◌, OnOk, IfOk};
ghost use Rattle.cc2_error.specs.Commands.{command_of};
ghost use Rattle.cc2_cli.specs.CommandLines.{command_lines, rustc_lines, host_line};

use crate::list::push_text;
use crate::text::{Done, push, push_quoted};
use cc2_error::error::NoMemory;
use cc2_error::path_and_args::PathAndArgs;
use std::alloc::Global;

/// Appends the lines of a command: its program at the place 0, its arguments after it.
///
/// # Errors
/// `NoMemory` where memory ran out.
pub fn push_command(out: &mut Vec<u8>, key: &str, command: &PathAndArgs) -> Done
    ensures { OnOk result (out.new.items ≡ out.old.items
        ++ command_lines key.now (command_of command.now)) }
{
    push_text(out, key, 0, command.path.as_str())?;
    for (at, arg) in command.args.iter().enumerate() {
        push_text(out, key, at + 1, arg.as_str())?;
    }
    Ok(())
}

/// The lines of the command for rustc.
///
/// # Errors
/// `NoMemory` where memory ran out.
pub fn rustc_lines(alloc: Global, command: &PathAndArgs) -> Result<Vec<u8>, NoMemory>
    ensures { IfOk result (λ text. text.items ≡ rustc_lines (command_of command.now)) }
{
    let mut lines = Vec::new(alloc);
    push_command(&mut lines, "rustc", command)?;
    Ok(lines)
}

/// The line of the host.
///
/// # Errors
/// `NoMemory` where memory ran out.
pub fn host_line(alloc: Global, host: &str) -> Result<Vec<u8>, NoMemory>
    ensures { IfOk result (λ text. text.items ≡ host_line host.now) }
{
    let mut line = Vec::new(alloc);
    push(&mut line, "host = ")?;
    push_quoted(&mut line, host)?;
    push(&mut line, "\n")?;
    Ok(line)
}
