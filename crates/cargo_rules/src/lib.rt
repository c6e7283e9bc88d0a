//! What Cargo 1.95 itself would use: the configuration of a directory by Cargo's own rules (Cargo Reference,
//! [Configuration](https://doc.rust-lang.org/cargo/reference/config.html)). `cargo_config2` has it by the rules of the crate
//! `cargo-config2`. A caller lists this crate alone.
#![tactic(auto)]

mod config;
mod launcher;
mod load;
mod message;

pub use cc2_base::files::{FileTable, Files, HostFiles};
pub use cc2_base::machine::Machine;
pub use cc2_base::programs::{ProgramTable, Programs, RunAnswer};
pub use cc2_cargo::{HostRealPaths, Raw, RealPathTable, RealPaths};
pub use cc2_cargo_target::{HostArtifacts, HostRuns, VariableTable, WithVariables};
pub use cc2_error::error::{Error, ErrorKind, NoMemory, Result};
pub use cc2_error::path_and_args::PathAndArgs;
pub use cc2_resolved::flags::Flags;
pub use cc2_resolved::target_config::TargetConfig;
pub use cc2_value::{Definition, Value};
pub use config::Config;
pub use launcher::{HostLauncher, Launcher};
pub use load::{load_from, load_under};
