//! Flags: a text that is split at spaces, or an array of texts.
use crate::listed::{gather_lists, read_texts, reverse_array};
use crate::read_env::{ReadEnv, set_by, spaced_by};
use crate::repr::{Repr, repr_of};
use crate::text_copies::copied_texts;
use crate::texts::encoded_texts;
use cc2_error::error::{NoMemory, Result};
use cc2_value::{Decode, Definition, MergeFrom, TryClone, Value};
use serde::{Described, Serialize, Serializer};
use std::alloc::Global;

/// Flags as a file has them, which remember whether they came as a text, split at spaces, or as an array
/// (Cargo Reference, Configuration,
/// [`build.rustflags`](https://doc.rust-lang.org/cargo/reference/config.html#buildrustflags)).
#[derive(Debug, Drop)]
pub struct Flags {
    /// The flags, each with where it was set.
    pub flags: Vec<Value<String>>,
    repr: Repr,
}

impl Flags {
    ghost use Rattle.std.specs.Prelude.{◌≡◌, Some, IfOk, IfErr};
    ghost use Rattle.cc2_error.specs.Causes.{no_memory};
    ghost use Rattle.cc2_value.specs.Cells.{variable};
    ghost use Rattle.cc2_leaf.specs.Lists.{is_array, flags_at};
    ghost use Rattle.cc2_leaf.specs.TextWays.{IsReadText, encoded_text_way};

    /// Flags that are these, each with where it was set, and that came as an array or as a text.
    pub fn of_values(flags: Vec<Value<String>>, array: bool) -> Flags
        ensures flags { result.flags ≡ flags }
        ensures array { is_array result.repr ≡ array }
    {
        Flags {
            flags,
            repr: repr_of(array),
        }
    }

    /// Whether they came as an array, and not as a text.
    pub fn is_array(&self) -> bool
        ensures { result ≡ is_array self.now.repr }
    {
        matches!(self.repr, Repr::Array)
    }

    /// Reads the text of the variable of this name, such as `CARGO_ENCODED_RUSTFLAGS`, as an array of
    /// the flags between U+001F, each defined by the variable. See the Cargo Reference,
    /// [Environment variables Cargo reads](https://doc.rust-lang.org/cargo/reference/environment-variables.html#environment-variables-cargo-reads).
    /// The empty text has no flag. Fails only if memory runs out.
    pub fn read_encoded(alloc: Global, text: &str, name: &str) -> Result<Flags>
        ensures ok { IfOk result (IsReadText flags_at
            (encoded_text_way.cells (Some (variable name.now)) text.now)
            (encoded_text_way.faults text.now)) }
        ensures refused { IfErr result (λ e. e ≡ no_memory) }
    {
        let definition = set_by(alloc, name)?;
        let flags = encoded_texts(alloc, text, Some(&definition))?;
        Ok(Flags {
            flags,
            repr: Repr::Array,
        })
    }
}

impl MergeFrom for Flags {
    ghost use Rattle.cc2_leaf.specs.Lists.{flags_at};

    ghost cell_at = { flags_at };

    fn gather(&mut self, alloc: Global, low: &mut Flags) -> Result<()> {
        gather_lists(
            alloc,
            (self.repr, low.repr),
            &mut self.flags,
            &mut low.flags,
        )
    }

    fn reverse_lists(&mut self, _alloc: Global) -> std::result::Result<(), NoMemory> {
        reverse_array(self.repr, &mut self.flags);
        Ok(())
    }
}

/// A text that is split at spaces.
impl ReadEnv for Flags {
    ghost use Rattle.cc2_leaf.specs.TextWays.{spaced_text_way};

    ghost text_way = { spaced_text_way };

    fn read_env(alloc: Global, text: &str, name: &str) -> Result<Flags> {
        let flags = spaced_by(alloc, text, name)?;
        Ok(Flags {
            flags,
            repr: Repr::Text,
        })
    }
}

impl Decode for Flags {
    ghost use Rattle.cc2_leaf.specs.Lists.{list_way};

    ghost way = { list_way };

    fn read(
        alloc: Global,
        value: toml::Value,
        key: &str,
        definition: Option<&Definition>,
    ) -> Result<Flags> {
        let read = read_texts(alloc, value, key, definition)?;
        Ok(Flags {
            flags: read.list,
            repr: read.repr,
        })
    }
}

impl Described for Flags {
    ghost use Rattle.std.specs.Prelude.{string_bytes};
    ghost use Rattle.serde.specs.Event.{Sends, WritesSeq, text};

    ghost writes = { λ flags.
        WritesSeq (λ flag. Sends (text (string_bytes flag.val))) flags.flags.items };
}

/// An array of the flags, also where they came as a text.
impl Serialize for Flags {
    fn serialize<S: Serializer>(&self, out: &mut S) -> std::result::Result<(), S::Error> {
        self.flags.serialize(out)
    }
}

impl TryClone for Flags {
    ghost use Rattle.cc2_leaf.specs.Lists.{flags_at};

    ghost shown = { flags_at };

    fn copied(&self, alloc: Global, definition: Option<&Definition>) -> Result<Flags> {
        let flags = copied_texts(alloc, self.flags.as_slice(), definition)?;
        Ok(Flags {
            flags,
            repr: self.repr,
        })
    }
}
