//! What callers are promised, each said once more by a function that hands on one call of the library. That it is proved
//! shows that the library's own clause says at least this; its wrong bodies are what a wrong library would answer.
#![tactic(auto)]

pub mod expressions;
pub mod json;
pub mod lists;
pub mod loads;
pub mod options;
pub mod programs;
pub mod resolved;
pub mod targets;
pub mod values;
