//! How the library is used: what a cargo subcommand writes to get its linker and flags, what two
//! questions for the same targets come to, what any questions in turn leave, and what single calls promise.
//!
//! All are proved from the contracts of `cargo_config2` alone.
#![tactic(auto)]

pub mod in_turn;
pub mod single;
pub mod subcommand;
pub mod twice;
