//! What is printed of a configuration, composed before it is written: the whole, the value at a key, or what each source of
//! settings has by itself. It depends on `cc2_answers` for loads, `cc2_json` and `cc2_resolved_json` for JSON and lines.
#![tactic(auto)]

mod get;
mod request;
mod resolved;
mod source;
mod told;
mod unmerged;

pub use get::get_to;
pub use request::{pieces_of, told_to};
pub use told::{Told, form_of, shown_in};
