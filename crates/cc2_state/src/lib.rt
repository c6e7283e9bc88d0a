//! What a load leaves for later queries, as bytes that a caller hands back in place of files. It depends on
//! `cc2_target_table` (the tables below `target`) and `cc2_ask` (fields of requests).
#![tactic(auto)]

mod read;
mod read_slots;
mod state;
mod write;
mod write_slots;

pub use state::{State, StateParts};
pub use write::state_bytes;
