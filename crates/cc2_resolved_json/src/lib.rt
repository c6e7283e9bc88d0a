//! A resolved configuration as JSON: each value alone, without where it was set.
//! It depends on `cargo_config2` and on `cc2_json`, whose members it puts.
#![tactic(auto)]

mod config;
mod env;
mod form;
mod leaf;
mod provider;
mod row;
mod single;
mod table;
mod tables;
mod to_json;
mod words;

pub use cc2_json::Json;
pub use config::resolved_to_json;
