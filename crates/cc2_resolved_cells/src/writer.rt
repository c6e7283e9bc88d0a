//! A writer of cells.
ghost use Rattle.std.specs.Prelude.{◌≡◌, ◌+◌, [], ◌++◌, length, take, OnOk, IfOk, Some};
ghost use Rattle.cc2_ask.specs.Fields.{IsSmall};
ghost use Rattle.cc2_resolved.specs.Answers.{entry};
ghost use Rattle.cc2_resolved_cells.specs.Cells.{cells_below, value_cells};
ghost use Rattle.cc2_resolved_cells.specs.Writers.{key_of_kind, opening, root, with_key, front_of, AreWritten};

use crate::value::CellValue;
use cc2_ask::push_field;
use std::alloc::{AllocError, Global};

/// What a key is.
#[derive(Clone, Copy)]
pub enum KeyKind {
    /// A table's own field.
    Field,
    /// A name that the file picks.
    Name,
}

impl KeyKind {
    ghost use Rattle.cc2_resolved_cells.specs.Writers.{kind_byte};

    fn as_byte(self) -> u8
        ensures { result ≡ kind_byte self }
    {
        match self {
            KeyKind::Field => b'f',
            KeyKind::Name => b'n',
        }
    }
}

/// Cells that are written one after the other, and the keys in front of the next one's.
#[derive(Drop)]
pub struct CellWriter {
    bytes: Vec<u8>,
    // The keys in front: how many, and their bytes.
    depth: u32,
    path: Vec<u8>,
}

// The keys in front, to return to.
#[derive(Clone, Copy)]
pub(crate) struct Mark {
    depth: u32,
    length: usize,
}

impl CellWriter {
    // A writer of no cell, with no key in front, and with room for the cells of most configurations.
    pub(crate) fn new(alloc: Global) -> Result<CellWriter, AllocError>
        ensures bytes { IfOk result (λ writer. writer.bytes.items ≡ []) }
        ensures front { IfOk result (λ writer. front_of writer ≡ root) }
    {
        Ok(CellWriter {
            bytes: Vec::with_capacity(alloc, 2048)?,
            depth: 0,
            path: Vec::with_capacity(alloc, 128)?,
        })
    }

    // The bytes of the cells.
    pub(crate) fn into_bytes(self) -> Vec<u8>
        ensures { result.items ≡ self.bytes.items }
    {
        self.bytes
    }

    /// Writes a value's cell at a key behind those in front.
    ///
    /// # Errors
    /// `AllocError` where memory ran out, or where a text or list is too long for four bytes.
    pub fn put_value<T: CellValue>(
        &mut self,
        kind: KeyKind,
        key: &str,
        value: &T,
    ) -> Result<(), AllocError>
        ensures { OnOk result (AreWritten
            (cells_below (key_of_kind kind key.now) (value_cells (Some (T.answer value.now))))
            self.old self.new) }
    {
        self.begin(kind, key)?;
        value.push_value(&mut self.bytes)
    }

    // Writes the cell of a table that is a member of a map, at its name behind the keys in front.
    pub(crate) fn put_entry(&mut self, name: &str) -> Result<(), AllocError>
        ensures { OnOk result (AreWritten
            (cells_below (key_of_kind KeyKind.Name name.now) (value_cells (Some entry)))
            self.old self.new) }
    {
        self.begin(KeyKind::Name, name)?;
        self.bytes.push(b'e')?;
        Ok(())
    }

    // Puts a key behind those in front, until `leave` takes the mark.
    pub(crate) fn enter(&mut self, kind: KeyKind, key: &str) -> Result<Mark, AllocError>
        ensures bytes { OnOk result (self.new.bytes.items ≡ self.old.bytes.items) }
        ensures front { OnOk result
            (front_of self.new ≡ with_key (key_of_kind kind key.now) (front_of self.old)) }
        ensures short { OnOk result (IsSmall (length key.now)) }
        ensures depth { IfOk result (λ mark. mark.depth ≡ self.old.depth) }
        ensures length { IfOk result (λ mark. mark.length ≡ length self.old.path.items) }
    {
        let mark = Mark {
            depth: self.depth,
            length: self.path.len(),
        };
        let Some(depth) = self.depth.checked_add(1) else {
            return Err(AllocError);
        };
        self.path.push(kind.as_byte())?;
        push_field(&mut self.path, key.as_bytes())?;
        self.depth = depth;
        Ok(mark)
    }

    // Takes the keys away that were put in front after the mark.
    pub(crate) fn leave(&mut self, mark: Mark)
        ensures bytes { self.new.bytes.items ≡ self.old.bytes.items }
        ensures depth { self.new.depth ≡ mark.depth }
        ensures path { self.new.path.items ≡ take mark.length self.old.path.items }
    {
        self.path.truncate(mark.length);
        self.depth = mark.depth;
    }

    // Writes the path of a cell at a key behind those in front.
    fn begin(&mut self, kind: KeyKind, key: &str) -> Result<(), AllocError>
        ensures bytes { OnOk result (self.new.bytes.items
            ≡ self.old.bytes.items ++ opening (key_of_kind kind key.now) (front_of self.old)) }
        ensures front { OnOk result (front_of self.new ≡ front_of self.old) }
        ensures depth { OnOk result (IsSmall (self.old.depth + 1)) }
        ensures short { OnOk result (IsSmall (length key.now)) }
    {
        let Some(depth) = self.depth.checked_add(1) else {
            return Err(AllocError);
        };
        self.bytes
            .extend_from_slice(depth.to_le_bytes().as_slice())?;
        self.bytes.extend_from_slice(self.path.as_slice())?;
        self.bytes.push(kind.as_byte())?;
        push_field(&mut self.bytes, key.as_bytes())
    }
}
