//! Requests and replies in bytes: a request has what is known of a machine, its files and its programs, and a reply lists
//! what else is needed, for the caller to find out. It reaches no file and starts no program.
#![tactic(auto)]

mod candidates;
mod fault;
mod fields;
mod files;
mod given;
mod known;
mod need;
mod needs;
mod programs;
mod reader;
mod record;
mod reply;

pub use fault::Fault;
pub use fields::{push_field, push_fields, push_list, push_number, push_text};
pub use files::AskedFiles;
pub use given::Given;
pub use known::{Known, KnownPaths, KnownRuns};
pub use need::Need;
pub use needs::needs_for;
pub use programs::AskedPrograms;
pub use reader::Reader;
pub use record::Record;
pub use reply::{Reply, write_front};
