//! What lies below a configuration: files and programs behind interfaces, paths, the walked list of
//! configuration files, the homes and the variables.
//! It depends on `cc2_error`: what a refused call returns.
#![tactic(auto)]

mod absences;
pub mod files;
mod found_files;
pub mod home;
pub mod machine;
pub mod path;
pub mod path_iter;
pub mod programs;
mod special_files;
pub mod variable;
pub mod variable_name;
pub mod walk;

pub use cc2_error::error::{Error, ErrorKind, NoMemory};
pub use cc2_error::path_and_args::PathAndArgs;
