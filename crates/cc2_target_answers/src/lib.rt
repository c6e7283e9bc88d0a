//! What targets come to, as JSON: their linkers, runners and flags. It depends on `cargo_config2` and `cc2_answers` for the rules
//! of cargo-config2 0.1.45, and on `cargo_rules` and `cc2_cargo_target` for those of Cargo 1.95.
//!
//! - `settings`: the settings of a target
//! - `by_crate`: by the rules of cargo-config2 0.1.45
//! - `by_cargo`, `build_scripts`, `cargo_load`: by those of Cargo
#![tactic(auto)]

mod build_scripts;
mod by_cargo;
mod by_crate;
mod cargo_load;
mod settings;

pub use by_cargo::cargo_targets;
pub use by_crate::crate_targets;
pub use cargo_load::load_by_cargo;
