//! What Cargo reads as a command at a key of more than three parts.
ghost use Rattle.std.specs.Prelude.{map, option_map};
ghost use Rattle.cc2_error.specs.Outcomes.{Gives};
ghost use Rattle.cc2_value.specs.Values.{origin_of};
ghost use Rattle.cc2_cargo.specs.Raw.{raw_members_at};
ghost use Rattle.cc2_cargo_settings.specs.JoinedCommand.{command_joined, joined_command_at};
ghost use Rattle.cc2_cargo_settings.specs.Shown.{list_view};
ghost use Rattle.cc2_cargo_settings.specs.Variables.{given_shown};

use crate::cell::words_found;
use crate::commands::with_program;
use crate::found::find;
use crate::program_origin::{first_of, first_set_at, origin_beside, origin_there};
use crate::sources::Sources;
use crate::values::{List, around, words_or_none};
use crate::variable::{Given, given_by, not_utf8};
use cc2_error::error::Result;
use cc2_value::Definition;
use std::alloc::Global;

/// The words of the command at a path of more than three parts, as the runner of a triple with a dot. Cargo takes them for a
/// list: those of files, those of its variable, and those of the command line. The program is relative to where the array of
/// files is set as a whole; to where the command line sets it, where no file does; and where the variable is set too, and a
/// file or nothing sets words, to the current directory. None where nothing is set.
///
/// # Errors
/// `ErrorKind::ParseFile` with the path where something else is there, `ErrorKind::EnvNotText` where nothing but a variable
/// that isn't UTF-8 is set, `ErrorKind::EmptyCommand` where the command has no words, and `ErrorKind::Memory`.
pub fn joined_command(
    alloc: Global,
    sources: Sources<'_>,
    path: &[&str],
    name: &str,
) -> Result<Option<List>>
    ensures { Gives list_view result
        (joined_command_at (raw_members_at sources.entry.settings.now) sources.entry.machine.now
        (map (λ k. k.now) path.now) name.now) }
{
    let found = find(sources.settings, path);
    let origin = origin_there(alloc, &found)?;
    let set = words_found(alloc, path, found)?;
    let set = command_joined(alloc, name, given_by(sources.machine, name), origin, set)?;
    with_program(alloc, path, set)
}

fn command_joined(
    alloc: Global,
    name: &str,
    given: Given<'_>,
    origin: Option<Definition>,
    set: Option<List>,
) -> Result<Option<List>>
    ensures { Gives list_view result (command_joined name.now (given_shown given.entry)
        (option_map origin_of origin) (list_view set)) }
{
    match given {
        Given::Unset => Ok(first_of(origin, set)),
        Given::Text(text) => {
            let words = words_or_none(alloc, set);
            let origin = origin_beside(alloc, name, origin)?;
            Ok(Some(first_set_at(origin, around(alloc, name, text, words)?)))
        }
        Given::NotUtf8(bytes) => {
            if set.is_none() {
                return Err(not_utf8(alloc, name, bytes)?);
            }
            Ok(first_of(origin_beside(alloc, name, origin)?, set))
        }
    }
}
