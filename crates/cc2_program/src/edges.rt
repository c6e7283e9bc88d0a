//! What the program takes from the process, and what it gives back.
use crate::no_programs::{NoLauncher, no_programs};
use crate::paths::physical_paths;
use crate::run::{Place, run};
use crate::said::write_said;
use crate::start::{Start, begin};
use cargo_rules::{HostLauncher, Launcher};
use cc2_base::machine::Machine;
use cc2_cargo::HostRealPaths;
use cc2_cargo_target::{HostRuns, WithVariables};
use cc2_cli::{Fault, enter, host_files, read_machine, read_words, write, written};
use cc2_command_line::{Color, Command, Line};
use cc2_lint::HostPermissions;
use std::io::IsTerminal;
use std::mem::forget;

/// Runs the process's arguments and returns the exit status.
///
/// # Errors
/// `Fault::Words` and `Fault::Surroundings` where the arguments, the directory or the variables can't be read;
/// `Fault::Path` where a directory can't be entered; `Fault::Output` where a stream can't be written; `Fault::Memory` where
/// memory ran out.
pub fn run_here(rt: &HostRuntime) -> Result<u8, Fault> {
    let words = read_words(rt)?;
    match begin(rt.alloc(), words.as_slice()) {
        Start::Said(said) => written(write_said(
            rt.alloc(),
            &said,
            &mut rt.stdout(),
            &mut rt.stderr(),
        )),
        Start::Command(line) => run_line(rt, &line),
    }
}

// Runs a command line in its directory.
fn run_line(rt: &HostRuntime, line: &Line<'_>) -> Result<u8, Fault> {
    if let Some(dir) = line.directory {
        enter(rt, dir)?;
    }
    let machine = read_machine(rt)?;
    let status = run_in(rt, line, &machine);
    // The process ends here: the system takes all variables back at once.
    forget(machine);
    status
}

// Runs a command line in the machine's directory, with the programs of the machine or with none.
fn run_in(rt: &HostRuntime, line: &Line<'_>, machine: &Machine) -> Result<u8, Fault> {
    if !line.no_programs {
        let mut programs = HostRuns::new(rt.alloc(), shared(rt)?);
        return run_with(rt, line, machine, &mut programs, &HostLauncher::new(rt));
    }
    let mut programs = no_programs(rt.alloc());
    let status = run_with(rt, line, machine, &mut programs, &NoLauncher)?;
    if programs.runs() == 0 {
        return Ok(status);
    }
    match write(&mut rt.stderr(), NOT_RUN.as_bytes()) {
        Ok(()) => Ok(status),
        Err(_) => Err(Fault::Output),
    }
}

const NOT_RUN: &str = "note: `--no-programs` is given, so no program was run\n";

// Runs a command line with these programs.
fn run_with<P: WithVariables, S: Launcher>(
    rt: &HostRuntime,
    line: &Line<'_>,
    machine: &Machine,
    programs: &mut P,
    launcher: &S,
) -> Result<u8, Fault> {
    let files = host_files(rt)?;
    let permissions = HostPermissions::new(shared(rt)?);
    let reals = HostRealPaths::new(shared(rt)?);
    let paths = match &line.command {
        Command::Lint(lint) => physical_paths(rt, lint.paths.as_slice())?,
        _ => Vec::new(rt.alloc()),
    };
    let mut out = rt.stdout();
    let mut err = rt.stderr();
    let place = Place {
        machine,
        paths: paths.as_slice(),
        is_coloured: is_coloured(line.color, out.is_terminal(), machine),
    };
    written(run(
        rt.alloc(),
        line,
        &place,
        &files,
        programs,
        &permissions,
        &reals,
        launcher,
        &mut out,
        &mut err,
    ))
}

// Whether output is coloured: on a terminal, unless the variable `NO_COLOR` is set and not empty (https://no-color.org).
fn is_coloured(color: Color, is_terminal: bool, machine: &Machine) -> bool {
    match color {
        Color::Always => true,
        Color::Never => false,
        Color::Auto => is_terminal && matches!(machine.variable("NO_COLOR"), None | Some([])),
    }
}

// The runtime once more.
fn shared(rt: &HostRuntime) -> Result<HostRuntime, Fault> {
    match rt.clone() {
        Ok(runtime) => Ok(runtime),
        Err(_) => Err(Fault::Memory),
    }
}
