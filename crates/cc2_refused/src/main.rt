//! A program for tests: it makes a call, and where memory ran out in it, the same call again. What it prints shows
//! what a refused call left: `cc2_refused CALL DIR`.
#![tactic(auto)]

mod calls;
mod commands;
mod run;
mod stood;

use cc2_cli::{Fault, ended, host_files, read_machine, read_words, written};
use run::run;
use std::process::ExitCode;

fn main(rt: HostRuntime) -> ExitCode {
    ended(&rt, run_here(&rt))
}

// Runs the process's words and answers the status to end with.
fn run_here(rt: &HostRuntime) -> Result<u8, Fault> {
    let words = read_words(rt)?;
    let machine = read_machine(rt)?;
    let files = host_files(rt)?;
    let mut out = rt.stdout();
    written(run(rt.alloc(), words.as_slice(), &machine, &files, &mut out))
}
