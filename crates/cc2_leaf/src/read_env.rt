//! Reading a value from the text of an environment variable.
ghost use Rattle.std.specs.Prelude.{◌≡◌, ◌∷◌, [], Some, IfOk, IfErr};
ghost use Rattle.cc2_error.specs.Causes.{no_memory};
ghost use Rattle.cc2_value.specs.Cells.{variable};
ghost use Rattle.cc2_value.specs.Values.{origin_of, words_of};
ghost use Rattle.cc2_leaf.specs.Lists.{words_at};
ghost use Rattle.cc2_leaf.specs.Pieces.{spaced};
ghost use Rattle.cc2_leaf.specs.TextWays as way;
ghost use Rattle.cc2_leaf.specs.TextWays.{TextWay, IsReadText, IsTextFault};

use crate::texts::spaced_texts;
use cc2_error::error::{Error, ErrorKind, Result};
use cc2_value::{Definition, MergeFrom, Plain, Value};
use std::alloc::Global;

/// A value that is read from the text of an environment variable (Cargo Reference, Configuration,
/// [environment variables](https://doc.rust-lang.org/cargo/reference/config.html#environment-variables)).
pub trait ReadEnv: MergeFrom {
    /// How it is read.
    ghost text_way: { TextWay };

    /// Reads the text of the variable of this name, which defines each value in it. Refused exactly
    /// where the text has a fault, for one of its faults, without a context.
    fn read_env(alloc: Global, text: &str, name: &str) -> Result<Self>
        ensures ok { IfOk result (IsReadText Self.cell_at
            (text_way.cells (Some (variable name.now)) text.now) (text_way.faults text.now)) }
        ensures refused { IfErr result (IsTextFault (text_way.faults text.now)) };
}

impl<T: Plain> ReadEnv for Value<T> {
    ghost use Rattle.cc2_leaf.specs.TextWays.{parsed_way};

    ghost text_way = { parsed_way T.must_line T.of_text };

    fn read_env(alloc: Global, text: &str, name: &str) -> Result<Value<T>> {
        match T::from_text(alloc, text)? {
            None => Err(unparsed(alloc, T::wanted(), text)),
            Some(val) => {
                let definition = set_by(alloc, name)?;
                Ok(Value {
                    val,
                    definition: Some(definition),
                })
            }
        }
    }
}

/// The definition of what the variable of this name sets.
pub fn set_by(alloc: Global, name: &str) -> Result<Definition>
    ensures ok { IfOk result (λ d. origin_of d ≡ variable name.now) }
    ensures refused { IfErr result (λ e. e ≡ no_memory) }
{
    Ok(Definition::Environment(String::from_str(alloc, name)?))
}

/// The pieces of a text that is split at spaces, each set by the variable of this name.
pub fn spaced_by(alloc: Global, text: &str, name: &str) -> Result<Vec<Value<String>>>
    ensures ok { IfOk result (λ values.
        words_of values.items ≡ words_at (Some (variable name.now)) (spaced text.now)) }
    ensures refused { IfErr result (λ e. e ≡ no_memory) }
{
    let definition = set_by(alloc, name)?;
    Ok(spaced_texts(alloc, text, Some(&definition))?)
}

// The refusal of a text that isn't what this line says.
fn unparsed(alloc: Global, must: &'static str, text: &str) -> Error
    ensures { IsTextFault (way.unparsed must.now text.now ∷ []) result }
{
    match String::from_str(alloc, text) {
        Ok(found) => Error::new(ErrorKind::EnvParse { must, found }),
        Err(_) => Error::new(ErrorKind::Memory),
    }
}
