//! Prints what the configuration of a directory says: `cc2_get DIR build`, `cc2_get DIR rustc`,
//! `cc2_get DIR host` or `cc2_get DIR target T`. A relative DIR is looked up from the current directory.
#![tactic(auto)]

mod run;

use cc2_base::machine::Machine;
use cc2_cli::get::{Task, asked};
use cc2_cli::{
    Fault, ended, host_files, host_programs, physical, read_machine, read_words, written,
};
use run::run;
use std::mem::forget;
use std::process::ExitCode;

fn main(rt: HostRuntime) -> ExitCode {
    ended(&rt, run_here(&rt))
}

// Runs the process's arguments and returns the status to end with.
fn run_here(rt: &HostRuntime) -> Result<u8, Fault> {
    let words = with_physical(rt, read_words(rt)?)?;
    let machine = read_machine(rt)?;
    let status = run_words(rt, words.as_slice(), &machine);
    // The process ends here: the system takes all variables back at once.
    forget(machine);
    status
}

// The same arguments, with the physical path of the directory that they ask about.
fn with_physical(rt: &HostRuntime, words: Vec<String>) -> Result<Vec<String>, Fault> {
    let mut words = words;
    if !has_directory(words.as_slice()) {
        return Ok(words);
    }
    if let Some(dir) = words.first_mut() {
        *dir = physical(rt, dir.as_str())?;
    }
    Ok(words)
}

// Whether the arguments ask about a directory.
fn has_directory(words: &[String]) -> bool {
    !matches!(asked(words).task, Task::Nothing | Task::Unknown)
}

// Runs arguments and returns the status to end with.
fn run_words(rt: &HostRuntime, words: &[String], machine: &Machine) -> Result<u8, Fault> {
    let files = host_files(rt)?;
    let mut programs = host_programs(rt)?;
    let mut out = rt.stdout();
    written(run(rt.alloc(), words, machine, &files, &mut programs, &mut out))
}
