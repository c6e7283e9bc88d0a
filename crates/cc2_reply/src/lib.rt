//! Replies to requests: the answer to the question that a request asks, by what it gives, or what has to be known for
//! it. It depends on `cc2_ask` (requests and replies in bytes), and on `cc2_answers` and `cc2_show_answers` (what is answered
//! to a question of either program).
#![tactic(auto)]

mod answer;
mod by_state;
mod load;
mod other_paths;
mod question;
mod reply;

pub use reply::{reply_bytes, reply_to};
