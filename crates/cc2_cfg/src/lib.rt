//! The `cfg(..)` expressions of Rust: reading them, and their value in two-valued logic, in Kleene's
//! three-valued logic, or in a logic of one's own.
//!
//! The grammar is that of the Rust Reference,
//! [Conditional compilation](https://doc.rust-lang.org/reference/conditional-compilation.html), and
//! allows more commas, as Cargo's crates do: any number between two predicates and after the last
//! one, but none before the first.
#![tactic(auto)]

mod evaluator;
pub mod expression;
pub mod lexer;
pub mod logic;
mod parser;
mod refusal;
pub mod token;

pub use crate::expression::{Expression, Predicate, Predicates};
pub use crate::lexer::{Lexer, LexerToken};
pub use crate::logic::Logic;
pub use crate::token::Token;
pub use cc2_error::{CfgError, LexFault, ParseError, Reason};

/// Why a cfg text is refused, and where in it.
pub mod error {
    pub use cc2_error::{CfgError, LexFault, ParseError, Reason};
}
