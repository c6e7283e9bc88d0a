//! A target's settings: the table of a triple, the variables of a triple, and what they give together
//! with the tables at keys `cfg(..)` that are true, resolved.
//!
//! No file is read and no program is run: who asks hands the tables and the true ones in.
#![tactic(auto)]

pub mod find;
pub mod flags;
pub mod given;
pub mod programs;
pub mod sources;
pub mod triple;
pub mod variables;
