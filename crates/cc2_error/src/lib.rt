//! The one error type with a kind for each error, what each prints, and the command lines that some of them print.
//! `cfg_error`: why a cfg expression is invalid, and where in it.
//! It depends on no other crate of this repository.
#![tactic(auto)]

mod cfg_error;
pub mod error;
mod error_texts;
pub mod path_and_args;

pub use cfg_error::{CfgError, LexFault, ParseError, Reason};
