//! What Cargo 1.95 itself uses for a target: its flags, its linker and its runner.
#![tactic(auto)]

mod at_key;
mod build_targets;
mod flags;
mod host_artifacts;
mod keys;
mod program;
mod program_path;
mod rustc;
mod settle;
mod target;
mod tool;
mod variable_table;
mod with_variables;

pub use build_targets::targets_by_cargo;
pub use host_artifacts::{HostArtifacts, host_artifacts_by_cargo};
pub use rustc::rustc_command;
pub use target::target_by_cargo;
pub use variable_table::VariableTable;
pub use with_variables::{HostRuns, WithVariables};
