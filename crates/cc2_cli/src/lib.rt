//! What programs and replies share, without a configuration.
//!
//! - `get`, `show`, `key`, `choices`: what the words of a question mean
//! - `settings`, `list`, `commands`, `text`, `answer`: the lines that answer it, composed before they are written
//! - `given`, `directory`, `home`, `system`, `printed`, `ending`: the process: arguments, variables, files, output, its end
#![tactic(auto)]

mod answer;
mod choices;
pub mod commands;
mod directory;
mod ending;
mod found;
pub mod get;
mod given;
mod home;
pub mod key;
pub mod list;
mod parts;
mod printed;
pub mod settings;
pub mod show;
mod surroundings;
mod system;
pub mod text;

pub use answer::{Answer, answer_of, refusal_answer};
pub use choices::are_pairs;
pub use directory::{enter, physical};
pub use ending::{Fault, ended, written};
pub use given::{read_machine, read_words};
pub use printed::{WriteFault, print, write};
pub use system::{host_files, host_programs};
