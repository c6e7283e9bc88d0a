//! What files have at each key before any key is decoded.
ghost use Rattle.std.specs.Prelude.{◌≡◌, Some, option_map};
ghost use Rattle.cc2_error.specs.Below.{IsBelow};
ghost use Rattle.cc2_error.specs.Causes.{refusal_of};
ghost use Rattle.cc2_error.specs.declared.error.Error.{Error};
ghost use Rattle.cc2_value.specs.Values.{origin_of};
ghost use Rattle.cc2_cargo.specs.Raw.{is_of_override};
ghost use Rattle.cc2_cargo.specs.RawReading.{IsFaulted};

mod command;
pub(crate) mod merge;
pub(crate) mod read;

use cc2_error::error::Error;
use cc2_value::{Definition, Value};
pub(crate) use command::Place;
use std::alloc::Global;
use std::collections::BTreeMap;

/// What is at a key of a configuration file (Cargo Reference, Configuration,
/// [configuration format](https://doc.rust-lang.org/cargo/reference/config.html#configuration-format)),
/// whether Cargo knows the key or not. Each value has where it was set.
#[derive(Debug, Drop)]
pub enum Raw {
    /// A text, a whole number or a boolean.
    Single(Value<toml::Value>),
    /// An array.
    Array(RawArray),
    /// A table, by its keys.
    Table(BTreeMap<String, Raw>),
}

/// An array, of one layer or joined of several.
#[derive(Debug, Drop)]
pub struct RawArray {
    /// The items, in their order. None has a float or a date in it.
    pub items: Vec<Value<toml::Value>>,
    /// Where the array as a whole is set. Of several layers Cargo takes the nearest file that has it, and of those that this file
    /// includes the first; and an override of the command line where no file has it.
    pub definition: Option<Definition>,
    /// The turn of the layer that is set there.
    pub turn: usize,
}

/// Whether the command line sets a value that is set here.
pub fn is_of_override(definition: &Option<Definition>) -> bool
    ensures { result ≡ is_of_override (option_map origin_of definition.now) }
{
    matches!(definition, Some(Definition::Cli(_)))
}

// The recorded error, with the key in front of its path.
#[inline(never)]
fn name_fault(alloc: Global, key: &str, fault: &mut Option<Error>)
    ensures { (e : Error) → fault.old ≡ Some e → IsFaulted fault.new (λ f.
        IsBelow key.now (refusal_of e) (refusal_of f)) }
{
    if let Some(error) = fault.take() {
        *fault = Some(error.below(alloc, key));
    }
}
