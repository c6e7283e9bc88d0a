//! A value and where it was set.
ghost use Rattle.std.specs.Prelude.{◌≡◌, ℕ, List, Option, option_map, IfOk, IfErr};
ghost use Rattle.toml.specs.Data.{Data};
ghost use Rattle.toml.specs.View.{view};
ghost use Rattle.cc2_error.specs.Causes.{no_memory};
ghost use Rattle.cc2_value.specs.Cells.{Payload};
ghost use Rattle.cc2_value.specs.Copies.{IsBare};

use crate::definition::Definition;
use cc2_error::error::Result;
use std::alloc::Global;

/// A value and where it was set: nowhere known, for one that was made or read by itself. Two are
/// equal where the values and the variants of the definitions are.
#[derive(Debug, Drop, PartialEq, Eq)]
pub struct Value<T> {
    /// The value.
    pub val: T,
    /// Where it was set; none for a value that was made or read by itself.
    pub definition: Option<Definition>,
}

/// What a `Value` can have, how a cell shows it, and how it is read.
pub trait Plain: Drop {
    /// How a cell shows it.
    ghost payload: { Self → Payload };

    /// What is read of a TOML value, if something is.
    ghost of_toml: { Data → Option Payload };

    /// What is read of the text of an environment variable, if something is.
    ghost of_text: { List ℕ → Option Payload };

    /// The line that says which texts are read.
    ghost must_line: { List ℕ };

    /// A copy. Fails only if memory runs out.
    fn copied(&self, alloc: Global) -> Result<Self>
        ensures ok { IfOk result (λ copy. payload copy ≡ payload self.now) }
        ensures refused { IfErr result (λ e. e ≡ no_memory) };

    /// Reads a TOML value; none where it is none of these. Fails only if memory runs out.
    fn from_toml(alloc: Global, value: toml::Value) -> Result<Option<Self>>
        ensures ok { IfOk result (λ read. option_map payload read ≡ of_toml (view value)) }
        ensures refused { IfErr result (λ e. e ≡ no_memory) };

    /// Reads the text of an environment variable; none where it is none of these. Fails only if
    /// memory runs out.
    fn from_text(alloc: Global, text: &str) -> Result<Option<Self>>
        ensures ok { IfOk result (λ read. option_map payload read ≡ of_text text.now) }
        ensures refused { IfErr result (λ e. e ≡ no_memory) };

    /// The line that says which texts are read.
    fn wanted() -> &'static str
        ensures { result.now ≡ must_line };

    /// It has no definition inside.
    ghost bare: { (x : Self) → IsBare (payload x) };
}
