//! The command for rustc.
ghost use Rattle.std.specs.Prelude.{◌≡◌, IfOk, Some, codes, option_and_then, option_map, string_bytes};
ghost use Rattle.cc2_error.specs.Commands.{command_of};
ghost use Rattle.cc2_error.specs.Outcomes.{Gives};
ghost use Rattle.cc2_value.specs.Cells.{variable};
ghost use Rattle.cc2_resolved.specs.Roots.{resolved};
ghost use Rattle.cc2_resolved.specs.declared.roots.Meant.TheVariants.{Program};
ghost use Rattle.cc2_cargo.specs.Raw.{raw_members_at};
ghost use Rattle.cc2_cargo_target.specs.Rustc.{if_named, run_by, part_build_variable, part_key, part_of, part_variable, path_or, rustc_command};

use crate::program_path::program_path;
use cc2_cargo_settings::{Sources, text, variable_text};
use cc2_error::error::{NoMemory, Result};
use cc2_error::path_and_args::PathAndArgs;
use cc2_resolved::{Meant, resolve_text};
use cc2_value::{Definition, Value};
use std::alloc::Global;

// A part of the command.
#[derive(Clone, Copy, Debug, PartialEq, Eq)]
pub(crate) enum Part {
    Rustc,
    Wrapper,
    WorkspaceWrapper,
}

/// The command for rustc in a directory: the wrapper, the workspace wrapper and rustc, as many as there are. Each is that of its
/// variable, as `RUSTC`, else that of its key in `[build]`; without one rustc is `rustc`. An empty wrapper is none (Cargo
/// Reference, Configuration,
/// [`build.rustc`](https://doc.rust-lang.org/cargo/reference/config.html#buildrustc),
/// [`build.rustc-wrapper`](https://doc.rust-lang.org/cargo/reference/config.html#buildrustc-wrapper)).
///
/// # Errors
/// - `ErrorKind::ParseFile` with the path where no text is at such a key;
/// - `ErrorKind::NoRoot` where a relative program is set by a file that has no root;
/// - `ErrorKind::Memory` where memory ran out.
pub fn rustc_command(alloc: Global, sources: Sources<'_>, dir: &str) -> Result<PathAndArgs>
    ensures { Gives command_of result
        (rustc_command (raw_members_at sources.entry.settings.now) sources.entry.machine.now
        dir.now) }
{
    let rustc = part_of(alloc, sources, dir, Part::Rustc)?;
    let workspace_wrapper = part_of(alloc, sources, dir, Part::WorkspaceWrapper)?;
    let wrapper = part_of(alloc, sources, dir, Part::Wrapper)?;
    let command = PathAndArgs::new(alloc, path_or_rustc(alloc, rustc)?);
    let command = in_front(alloc, if_named(workspace_wrapper), command)?;
    Ok(in_front(alloc, if_named(wrapper), command)?)
}

// A part as Cargo runs it: what its variable sets, else what is read. None where nothing sets it.
fn part_of(alloc: Global, sources: Sources<'_>, dir: &str, part: Part) -> Result<Option<String>>
    ensures { Gives (option_map string_bytes) result
        (part_of (raw_members_at sources.entry.settings.now) sources.entry.machine.now dir.now
        part) }
{
    let name = variable(part);
    if let Some(text) = variable_text(sources.machine, name) {
        return Ok(Some(of_variable(alloc, dir, name, text)?));
    }
    match text(alloc, sources, &["build", key(part)], build_variable(part))? {
        None => Ok(None),
        Some(text) => Ok(Some(program_path(alloc, dir, text)?)),
    }
}

// The program that a variable sets, as `RUSTC`. Here a backslash makes a path too.
fn of_variable(alloc: Global, dir: &str, name: &str, text: &str) -> Result<String>
    ensures { Gives string_bytes result (resolved Program dir.now
        (record { text = text.now; origin = Some (variable name.now) })) }
{
    let text = Value {
        val: String::from_str(alloc, text)?,
        definition: Some(Definition::Environment(String::from_str(alloc, name)?)),
    };
    resolve_text(alloc, dir, Meant::Program, text)
}

fn variable(part: Part) -> &'static str
    ensures { result.now ≡ part_variable part }
{
    match part {
        Part::Rustc => "RUSTC",
        Part::Wrapper => "RUSTC_WRAPPER",
        Part::WorkspaceWrapper => "RUSTC_WORKSPACE_WRAPPER",
    }
}

fn build_variable(part: Part) -> &'static str
    ensures { result.now ≡ part_build_variable part }
{
    match part {
        Part::Rustc => "CARGO_BUILD_RUSTC",
        Part::Wrapper => "CARGO_BUILD_RUSTC_WRAPPER",
        Part::WorkspaceWrapper => "CARGO_BUILD_RUSTC_WORKSPACE_WRAPPER",
    }
}

fn key(part: Part) -> &'static str
    ensures { result.now ≡ part_key part }
{
    match part {
        Part::Rustc => "rustc",
        Part::Wrapper => "rustc-wrapper",
        Part::WorkspaceWrapper => "rustc-workspace-wrapper",
    }
}

fn path_or_rustc(alloc: Global, path: Option<String>) -> std::result::Result<String, NoMemory>
    ensures { IfOk result (λ found.
        string_bytes found ≡ path_or (codes "rustc") (option_map string_bytes path)) }
{
    match path {
        Some(path) => Ok(path),
        None => Ok(String::from_str(alloc, "rustc")?),
    }
}

// A path that isn't empty.
fn if_named(path: Option<String>) -> Option<String>
    ensures { option_map string_bytes result
        ≡ option_and_then if_named (option_map string_bytes path) }
{
    match path {
        Some(path) if !path.is_empty() => Some(path),
        _ => None,
    }
}

// A command behind a program that runs it.
fn in_front(
    alloc: Global,
    program: Option<String>,
    command: PathAndArgs,
) -> std::result::Result<PathAndArgs, NoMemory>
    ensures { IfOk result (λ found.
        command_of found ≡ run_by (option_map string_bytes program) (command_of command)) }
{
    let Some(program) = program else {
        return Ok(command);
    };
    let PathAndArgs { path, args } = command;
    let mut args = args;
    args.insert(0, path)?;
    Ok(PathAndArgs {
        path: program,
        args,
    })
}
