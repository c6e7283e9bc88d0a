//! The environment. `apply_env` and its tables: how variables set the fields of a configuration. `kept`: which variables
//! are kept. `options`, `context`, `command_line`: what a caller chooses in place of the machine's, and the overrides.
//! It depends on `cc2_tables` (what variables set) and on `cc2_base` (the machine).
#![tactic(auto)]

mod apply_env;
mod build;
mod command_line;
mod context;
mod copies;
mod kept;
mod maps;
mod names;
mod options;
mod read;
mod registries;
mod tables;

pub use apply_env::{ApplyEnv, apply_table};
pub use command_line::Override;
pub use context::ResolveContext;
pub use maps::{apply_aliases, apply_credential_aliases};
pub use options::ResolveOptions;
pub use read::read_variable;
pub use registries::apply_registries;
pub use tables::apply_registry_table;
