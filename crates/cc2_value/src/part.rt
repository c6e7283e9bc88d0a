//! What is at a key of a table: a value that may be absent, or a table or a map that is always there.
ghost use Rattle.std.specs.Prelude.{◌≡◌, [], None, OnOk, IfErr};
ghost use Rattle.toml.specs.Data.{get_member};
ghost use Rattle.toml.specs.View.{table_view};
ghost use Rattle.cc2_value.specs.Cells.{KeyPath, field};
ghost use Rattle.cc2_value.specs.Copies.{origin_given};
ghost use Rattle.cc2_value.specs.Taking.{IsWithout};
ghost use Rattle.cc2_value.specs.Ways.{Way, cells_in, faults_in, below, IsDecoded, IsFaultBehind};

use crate::decode::{Decode, taken};
use crate::definition::Definition;
use crate::merge::MergeFrom;
use crate::try_clone::TryClone;
use cc2_error::error::Result;
use std::alloc::Global;
use std::collections::BTreeMap;

/// What is at a key of a table, and shows nothing where it is empty.
pub trait Part: MergeFrom + TryClone {
    /// How it is read.
    ghost way: { Way };

    /// Nothing in it. It takes no memory.
    fn empty(alloc: Global) -> Self
        ensures { (p : KeyPath) → Self.cell_at result p ≡ None };

    /// Reads it at a key of a table, in place of what it has, and takes it out; empty where there is nothing.
    fn read_at(
        &mut self,
        alloc: Global,
        table: &mut toml::Table,
        key: &str,
        definition: Option<&Definition>,
    ) -> Result<()>
        ensures ok { OnOk result (IsDecoded Self.cell_at
            (cells_in way (origin_given definition.entry)
            (get_member key.now (table_view table.old)))
            (faults_in way (get_member key.now (table_view table.old))) self.new) }
        ensures refused { IfErr result
            (IsFaultBehind [] (below (field key.now)
            (faults_in way (get_member key.now (table_view table.old))))) }
        ensures rest { IsWithout key.now (table_view table.old) (table_view table.new) };
}

impl<T: Decode + TryClone> Part for Option<T> {
    ghost way = { T.way };

    fn empty(_alloc: Global) -> Option<T> {
        None
    }

    fn read_at(
        &mut self,
        alloc: Global,
        table: &mut toml::Table,
        key: &str,
        definition: Option<&Definition>,
    ) -> Result<()> {
        match taken(table, key) {
            Some(value) => match T::read(alloc, value, key, definition) {
                Ok(read) => *self = Some(read),
                Err(error) => return Err(error),
            },
            None if self.is_some() => *self = None,
            None => (),
        }
        Ok(())
    }
}

impl<V: Decode + TryClone> Part for BTreeMap<String, V> {
    ghost use Rattle.cc2_value.specs.Maps.{map_way};

    ghost way = { map_way V.way };

    fn empty(alloc: Global) -> BTreeMap<String, V> {
        BTreeMap::new(alloc)
    }

    fn read_at(
        &mut self,
        alloc: Global,
        table: &mut toml::Table,
        key: &str,
        definition: Option<&Definition>,
    ) -> Result<()> {
        match taken(table, key) {
            Some(value) => match Decode::read(alloc, value, key, definition) {
                Ok(read) => *self = read,
                Err(error) => return Err(error),
            },
            None => *self = BTreeMap::new(alloc),
        }
        Ok(())
    }
}
