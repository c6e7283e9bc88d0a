//! A configuration, its tables and its values as JSON, with where each value was set or without; what is at a key; and the
//! lines of TOML that show it.
#![tactic(auto)]

mod config;
mod env;
mod form;
mod inline;
mod into_json;
mod keyed;
mod laws;
mod leaf;
mod lines;
mod origin;
mod plain;
mod providers;
mod row;
mod tables;
mod target;
mod toml_text;
mod words;

pub use config::to_json;
pub use form::Form;
pub use into_json::{IntoJson, JsonMember, object, put_field, put_name, shown};
pub use keyed::{alone_at, alone_line, at_key, json_line};
pub use laws::{one_json, one_object};
pub use lines::{push_visible, toml_lines};
pub use origin::placed;
pub use row::{JsonRow, JsonTable, put_fields};
pub use serde_json::Value as Json;
pub use words::words_json;
