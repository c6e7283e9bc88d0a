//! What Cargo itself has at each key, as JSON, and as `cargo config2 get --rules cargo` prints it.
#![tactic(auto)]

mod get;
mod json;
mod json_value;
mod layers;
mod secret;

pub use get::{get_by_cargo, settings_of};
pub use json::raw_to_json;
pub use layers::Layers;
