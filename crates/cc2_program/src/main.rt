//! The program `cargo-config2`, which Cargo also runs as `cargo config2`: prints a directory's configuration, what it gives
//! for targets, and mistakes in its files.
//!
//! Its command line is read by `cc2_command_line`.
//!
//! - `start`, `edges`: arguments, and what is taken from the process
//! - `run`, `shown`, `targets`, `versions`, `lint`: a command, run
//! - `no_programs`: what runs nothing
#![tactic(auto)]

mod cargo_programs;
mod cargo_targets;
mod edges;
mod lint;
mod lint_answer;
mod no_programs;
mod overrides;
mod paths;
mod run;
mod said;
mod shown;
mod start;
mod targets;
mod versions;

use cc2_cli::ended;
use edges::run_here;
use std::process::ExitCode;

fn main(rt: HostRuntime) -> ExitCode {
    ended(&rt, run_here(&rt))
}
