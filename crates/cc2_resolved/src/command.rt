//! Commands: the program is resolved from its root, the arguments stay.
ghost use Rattle.cc2_error.specs.Commands.{command_of};
ghost use Rattle.cc2_error.specs.Outcomes.{Gives};
ghost use Rattle.cc2_value.specs.Values.{word_of, words_of};
ghost use Rattle.cc2_resolved.specs.Resolving.{texts_of, command_for};

use crate::place::Place;
use crate::resolve::Resolve;
use crate::roots::{Meant, resolve_text};
use crate::texts::bare_texts;
use cc2_error::error::Result;
use cc2_error::path_and_args::PathAndArgs;
use std::alloc::Global;

/// A command, with its program from its root (Cargo Reference, Configuration,
/// [executable paths with arguments](https://doc.rust-lang.org/cargo/reference/config.html#executable-paths-with-arguments)).
///
/// # Errors
/// `ErrorKind::NoRoot` where the program must be joined to a root and its definition has none, and
/// `ErrorKind::Memory`.
pub fn resolve_command(
    alloc: Global,
    directory: &str,
    command: cc2_leaf::PathAndArgs,
) -> Result<PathAndArgs>
    ensures { Gives command_of result
        (command_for directory.now (word_of command.path.value)
        (texts_of (words_of command.args.items))) }
{
    let args = command.args;
    let path = resolve_text(alloc, directory, Meant::Program, command.path.into_value())?;
    let args = bare_texts(alloc, args)?;
    Ok(PathAndArgs { path, args })
}

impl Resolve for cc2_leaf::PathAndArgs {
    ghost use Rattle.cc2_value.specs.Cells.{Single};
    ghost use Rattle.cc2_leaf.specs.Commands.{setting_of_command};
    ghost use Rattle.cc2_resolved.specs.Answers.{command_answer};
    ghost use Rattle.cc2_resolved.specs.Resolving.{settled};

    type Resolved = PathAndArgs;

    ghost cell = { λ c. Single (setting_of_command c) };

    ghost answer = { command_answer };

    ghost how = { settled };

    fn resolve(self, alloc: Global, place: &Place<'_>) -> Result<PathAndArgs> {
        match resolve_command(alloc, place.directory, self) {
            Ok(command) => Ok(command),
            Err(error) => Err(error),
        }
    }
}
