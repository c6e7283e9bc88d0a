//! Reading a value from a TOML value.
ghost use Rattle.std.specs.Prelude.{◌≡◌, ◌∷◌, [], None, IfOk, IfErr, map, string_bytes, option_map};
ghost use Rattle.toml.specs.Data.{get_member};
ghost use Rattle.toml.specs.View.{view, table_view};
ghost use Rattle.cc2_error.specs.Causes.{no_memory};
ghost use Rattle.cc2_value.specs.Cells.{field};
ghost use Rattle.cc2_value.specs.Copies.{origin_given};
ghost use Rattle.cc2_value.specs.Shown.{option_at};
ghost use Rattle.cc2_value.specs.Taking.{IsWithout};
ghost use Rattle.cc2_value.specs.Values.{origin_of};
ghost use Rattle.cc2_value.specs.Ways.{Way, plain_way, cells_in, faults_in, below, IsDecoded, IsFaultBehind, ill_typed};

use crate::definition::Definition;
use crate::merge::MergeFrom;
use crate::value::{Plain, Value};
use cc2_error::error::{Error, ErrorKind, NoMemory, ParseCause, Result};
use std::alloc::Global;

/// A value that is read from a TOML value.
pub trait Decode: MergeFrom {
    /// How it is read.
    ghost way: { Way };

    /// Reads the value at a key path. Each value in it is set where the definition says, where one
    /// is given. Refused exactly where the value has a fault, for one of its faults.
    fn read(
        alloc: Global,
        value: toml::Value,
        key: &str,
        definition: Option<&Definition>,
    ) -> Result<Self>
        ensures ok { IfOk result (IsDecoded Self.cell_at
            (way.cells (origin_given definition.entry) (view value)) (way.faults (view value))) }
        ensures refused { IfErr result (IsFaultBehind (key.now ∷ []) (way.faults (view value))) };

    /// Reads a copy of a value of which no file is known, at a key path: each value in it is without a
    /// definition. Refused exactly where the value has a fault, for one of its faults.
    fn decode(alloc: Global, value: &toml::Value, key: &str) -> Result<Self>
        ensures ok { IfOk result (IsDecoded Self.cell_at (way.cells None (view value.now))
            (way.faults (view value.now))) }
        ensures refused { IfErr result
            (IsFaultBehind (key.now ∷ []) (way.faults (view value.now))) }
    {
        Self::read(alloc, value.clone()?, key, None)
    }
}

impl<T: Plain> Decode for Value<T> {
    ghost way = { plain_way T.of_toml };

    fn read(
        alloc: Global,
        value: toml::Value,
        key: &str,
        definition: Option<&Definition>,
    ) -> Result<Value<T>> {
        match T::from_toml(alloc, value)? {
            None => Err(wrong_type(alloc, key)),
            Some(val) => Ok(Value {
                val,
                definition: defined(alloc, definition)?,
            }),
        }
    }
}

/// Reads the value at a key of a table, if there is one, and takes it out.
pub fn read_field<T: Decode>(
    alloc: Global,
    table: &mut toml::Table,
    key: &str,
    definition: Option<&Definition>,
) -> Result<Option<T>>
    ensures ok { IfOk result (IsDecoded (option_at T.cell_at)
        (cells_in T.way (origin_given definition.entry) (get_member key.now (table_view table.old)))
        (faults_in T.way (get_member key.now (table_view table.old)))) }
    ensures refused { IfErr result
        (IsFaultBehind [] (below (field key.now)
        (faults_in T.way (get_member key.now (table_view table.old))))) }
    ensures rest { IsWithout key.now (table_view table.old) (table_view table.new) }
{
    match taken(table, key) {
        None => Ok(None),
        Some(value) => match T::read(alloc, value, key, definition) {
            Ok(read) => Ok(Some(read)),
            Err(error) => Err(error),
        },
    }
}

/// The value at a key of a TOML table, which then has it no more.
pub fn taken(table: &mut toml::Table, key: &str) -> Option<toml::Value>
    ensures found { option_map view result ≡ get_member key.now (table_view table.old) }
    ensures rest { IsWithout key.now (table_view table.old) (table_view table.new) }
{
    if table.is_empty() {
        return None;
    }
    table.remove(key)
}

/// The refusal of a value of a wrong type at a key path.
pub fn wrong_type(alloc: Global, key: &str) -> Error
    ensures { IsFaultBehind (key.now ∷ []) (([], ill_typed) ∷ []) result }
{
    match key_path(alloc, key) {
        Ok(path) => Error::new(ErrorKind::ParseFile(ParseCause::WrongType { path })),
        Err(_) => Error::new(ErrorKind::Memory),
    }
}

fn key_path(alloc: Global, key: &str) -> std::result::Result<Vec<String>, NoMemory>
    ensures { IfOk result (λ path. map string_bytes path.items ≡ key.now ∷ []) }
{
    let mut path = Vec::new(alloc);
    path.push(String::from_str(alloc, key)?)?;
    Ok(path)
}

/// A copy of the definition, where one is given. Fails only if memory runs out.
pub fn defined(alloc: Global, definition: Option<&Definition>) -> Result<Option<Definition>>
    ensures ok { IfOk result (λ d. option_map origin_of d ≡ origin_given definition.entry) }
    ensures refused { IfErr result (λ e. e ≡ no_memory) }
{
    match definition {
        None => Ok(None),
        Some(definition) => Ok(Some(definition.try_clone(alloc)?)),
    }
}
