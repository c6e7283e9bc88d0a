//! The linker and the runner that were chosen, resolved as programs.
ghost use Rattle.std.specs.Prelude.{[], option_map};
ghost use Rattle.std.specs.Option.{option_copied};
ghost use Rattle.cc2_error.specs.Outcomes.{Gives};
ghost use Rattle.cc2_value.specs.Singles.{text_value};
ghost use Rattle.cc2_leaf.specs.Commands.{command_value};
ghost use Rattle.cc2_resolved.specs.Answers.{text_answer, command_answer};
ghost use Rattle.cc2_resolved.specs.Resolving.{meant_as, settled};
ghost use Rattle.cc2_resolved.specs.Rows.{made_of};
ghost use Rattle.cc2_resolved.specs.declared.roots.Meant.TheVariants.{Program};
ghost use Rattle.cc2_target.specs.Settings.{site_for};

use cc2_error::error::Result;
use cc2_error::path_and_args::PathAndArgs;
use cc2_leaf::{TryClone, Value};
use cc2_resolved::{Meant, resolve_command, resolve_text};
use std::alloc::Global;

/// The linker, from its root where it is a relative path; none where none was chosen (Cargo
/// Reference, Configuration,
/// [`target.<triple>.linker`](https://doc.rust-lang.org/cargo/reference/config.html#targettriplelinker)).
///
/// # Errors
/// `NoRoot` where it must be joined to a root and its file has none, and `Memory`.
pub fn linker_of(
    alloc: Global,
    directory: &str,
    linker: Option<&Value<String>>,
) -> Result<Option<String>>
    ensures { Gives (option_map text_answer) result
        (made_of (meant_as Program (site_for directory.now))
        (text_value (option_map (λ l. l.now) linker.entry) [])) }
{
    match linker {
        None => Ok(None),
        Some(linker) => {
            let linker = TryClone::try_clone(linker, alloc)?;
            Ok(Some(resolve_text(alloc, directory, Meant::Program, linker)?))
        }
    }
}

/// The runner, its program from its root where that is a relative path; none where none was chosen
/// (Cargo Reference, Configuration,
/// [`target.<triple>.runner`](https://doc.rust-lang.org/cargo/reference/config.html#targettriplerunner)).
///
/// # Errors
/// `NoRoot` where the program must be joined to a root and its file has none, and `Memory`.
pub fn runner_of(
    alloc: Global,
    directory: &str,
    runner: Option<&cc2_leaf::PathAndArgs>,
) -> Result<Option<PathAndArgs>>
    ensures { Gives (option_map command_answer) result (made_of (settled (site_for directory.now))
        (command_value (option_map (λ r. r.now) runner.entry) [])) }
{
    match runner {
        None => Ok(None),
        Some(runner) => {
            let runner = TryClone::try_clone(runner, alloc)?;
            Ok(Some(resolve_command(alloc, directory, runner)?))
        }
    }
}
