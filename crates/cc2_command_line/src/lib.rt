//! The command line of the program `cargo-config2`, as a grammar: which command and options a line of arguments means, or
//! which error it is, and what is printed of that. It reads nothing of the system.
//!
//! - `part`, `option`, `selected`: arguments as options and operands
//! - `choice`, `command`, `agreement`, `line`: commands, each with its options
//! - `fault`, `message`, `nearest`, `help`: what is wrong in a line, and what is printed of it
#![tactic(auto)]

mod agreement;
mod choice;
mod command;
mod fault;
mod help;
mod line;
mod message;
mod nearest;
mod option;
mod part;
mod selected;

pub use choice::{Color, Level, LintFormat, Rules, Stage, TargetFormat, ValueFormat};
pub use command::{Command, Get, Lint, Targets, Verb};
pub use fault::Fault;
pub use help::{help_of, version_text};
pub use line::{Invocation, Line, parse_args};
pub use message::{message_of, tip_of};
pub use option::{Flag, Setting};
