//! What a configuration holds once it is resolved: targets, flags, lists, credential providers and variables, as plain
//! texts without their definitions. `resolve` and its parts: how each value is resolved, with relative paths and programs
//! joined to their roots and aliases of credential providers replaced. `resolved_table`: how resolved tables are copied.
//! It depends on `cc2_leaf` (what is resolved).
#![tactic(auto)]

mod command;
mod encoding;
pub mod env;
pub mod flags;
mod pieces;
mod place;
mod plain;
pub mod provider;
mod provider_kind;
mod providers;
mod resolve;
mod resolved_table;
mod resolved_value;
mod roots;
mod sent;
mod settle;
mod singles;
pub mod string_list;
mod target;
pub mod target_config;
mod target_order;
mod target_text;
pub mod target_triple;
mod texts;
mod try_clone;
mod variable;

pub use command::resolve_command;
pub use place::{AliasNames, Place};
pub use provider_kind::resolve_kind;
pub use providers::resolve_providers;
pub use resolve::Resolve;
pub use resolved_table::{ResolvedTable, copy_into};
pub use resolved_value::ResolvedValue;
pub use roots::{Meant, resolve_text};
pub use settle::settle_text;
pub use try_clone::TryClone;
pub use variable::resolve_variable;
