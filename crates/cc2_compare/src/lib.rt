//! What cargo-config2 0.1.45 and Cargo 1.95 make of a directory's configuration, and of targets, compared. It depends on
//! `cc2_answers` and `cc2_cargo_answers` for the two configurations, on `cc2_target_answers` for the settings of targets, and
//! on `cc2_json` for their JSON.
#![tactic(auto)]

mod between;
mod differences;
mod maps;
mod part;
mod read;
mod reports;
mod targets;
mod value_paths;
mod words;

pub use reports::compared_reports;
