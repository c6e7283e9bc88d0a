//! What Cargo 1.95 itself has at a key: what files, its variable and the command line set there.
#![tactic(auto)]

mod cell;
mod change;
mod check;
mod command_list;
mod commands;
mod env;
mod env_entry;
mod env_found;
mod env_part;
mod env_root;
mod found;
mod mixed;
mod named;
mod named_tables;
mod names;
mod one_or_more;
mod program_origin;
mod put;
mod read;
mod scalar;
mod setting;
mod sources;
mod text_array;
mod under;
mod values;
mod variable;
mod words;

pub use cell::{other_type, owned};
pub use command_list::joined_command;
pub use commands::command;
pub use env::env_variables;
pub use found::{is_any_at, is_any_inside};
pub use one_or_more::text_or_list;
pub use sources::Sources;
pub use text_array::array_texts;
pub use under::under_variables;
pub use values::{List, list, text};
pub use variable::{is_any_below, variable_text};
