//! Asking a program for its version.
ghost use Rattle.std.specs.Prelude.{◌≡◌, ◌≤◌, ◌+◌, IfOk, IfErr, IsSome, OnOk, option_map, string_bytes};
ghost use Rattle.cc2_error.specs.Causes.{refusal_of, plain, version_output};
ghost use Rattle.cc2_error.specs.Commands.{command_of};
ghost use Rattle.cc2_error.specs.Outcomes.{Gives, IsRefusal};
ghost use Rattle.cc2_base.specs.Told.{Keeps, WhereTold};
ghost use Rattle.cc2_rustc.specs.AskedVersions.{answered, version_said, IsKept, kept_or};
ghost use Rattle.cc2_rustc.specs.Said.{verbose};

use crate::output::said;
use crate::version::Version;
use cc2_base::programs::Programs;
use cc2_error::error::{Error, ErrorKind, NoMemory, Result};
use cc2_error::path_and_args::PathAndArgs;
use std::alloc::Global;

// Runs the command with `-vV`, keeps the version in the answer where none is kept yet, and
// answers what the program said. Refused where that has no version; then nothing is kept of it.
pub(crate) fn ask<V: Version, P: Programs>(
    alloc: Global,
    program: &PathAndArgs,
    is_stable: bool,
    programs: &mut P,
    kept: &mut Option<V>,
) -> Result<String>
    ensures told { WhereTold (P.told programs.old) (λ answers.
        Gives string_bytes result (answered (V.reads is_stable) answers (command_of program.now))) }
    ensures agrees { WhereTold (P.told programs.old) (λ answers.
        IsKept (option_map V.shown kept.old)
        (version_said (V.reads is_stable) answers (command_of program.now))
        → IsKept (option_map V.shown kept.new)
        (version_said (V.reads is_stable) answers (command_of program.now))) }
    ensures refused { WhereTold (P.told programs.old) (λ answers. IfErr result
        (IsRefusal (version_said (V.reads is_stable) answers (command_of program.now)))) }
    ensures found { OnOk result (IsSome kept.new) }
    ensures keeps { IsSome kept.old → kept.new ≡ kept.old }
    ensures same { Keeps (P.told programs.old) (P.told programs.new) }
    ensures few { P.runs programs.new ≤ P.runs programs.old + 1 }
{
    let command = verbose(alloc, program)?;
    let text = said(alloc, programs, &command)?;
    match V::read(text.as_str(), is_stable) {
        Some(version) => {
            keep_first(kept, version);
            Ok(text)
        }
        None => Err(unread(command, text)),
    }
}

// The command that asks the program for its version.
pub(crate) fn verbose(
    alloc: Global,
    program: &PathAndArgs,
) -> std::result::Result<PathAndArgs, NoMemory>
    ensures { IfOk result (λ c. command_of c ≡ verbose (command_of program.now)) }
{
    let mut command = program.try_clone(alloc)?;
    command.push_arg(String::from_str(alloc, "-vV")?)?;
    Ok(command)
}

// The refusal of an answer in which something is missing.
pub(crate) fn unread(command: PathAndArgs, output: String) -> Error
    ensures { refusal_of result
        ≡ plain (version_output (command_of command) (string_bytes output)) }
{
    Error::new(ErrorKind::VersionOutput { command, output })
}

// Keeps what was found where nothing is kept yet.
fn keep_first<T: Copy>(kept: &mut Option<T>, found: T)
    ensures { kept.new ≡ kept_or kept.old found }
{
    if kept.is_none() {
        *kept = Some(found);
    }
}
