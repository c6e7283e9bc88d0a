//! A path or a program, as a file has it.
ghost use Rattle.std.specs.Prelude.{◌≡◌};
ghost use Rattle.cc2_value.specs.Values.{word_of};

use cc2_error::error::Result;
use cc2_value::{Definition, TryClone, Value};
use serde::{Described, Serialize, Serializer};
use std::alloc::Global;

/// A path or a program that is still as its file has it. A relative one is relative to the parent
/// of the file's directory (Cargo Reference, Configuration,
/// [config-relative paths](https://doc.rust-lang.org/cargo/reference/config.html#config-relative-paths)).
#[derive(Debug, Drop, PartialEq, Eq)]
pub struct ConfigRelativePath {
    value: Value<String>,
}

impl ConfigRelativePath {
    ghost use Rattle.std.specs.Prelude.{◌≡◌, string_bytes};

    // The path of this text.
    pub(crate) fn new(value: Value<String>) -> ConfigRelativePath
        ensures { result.value ≡ value }
    {
        ConfigRelativePath { value }
    }

    /// The text, with where it was set, taken out.
    pub fn into_value(self) -> Value<String>
        ensures { result ≡ self.value }
    {
        self.value
    }

    /// The text, with where it was set.
    pub fn value(&self) -> &Value<String>
        ensures { result.now ≡ self.now.value }
    {
        &self.value
    }

    /// The text, as it was set.
    pub fn raw_value(&self) -> &str
        ensures { result.now ≡ string_bytes self.now.value.val }
    {
        self.value.val.as_str()
    }
}

impl Described for ConfigRelativePath {
    ghost use Rattle.std.specs.Prelude.{string_bytes};
    ghost use Rattle.serde.specs.Event.{Sends, text};

    ghost writes = { λ path. Sends (text (string_bytes path.value.val)) };
}

/// Its text.
impl Serialize for ConfigRelativePath {
    fn serialize<S: Serializer>(&self, out: &mut S) -> std::result::Result<(), S::Error> {
        self.value.serialize(out)
    }
}

impl TryClone for ConfigRelativePath {
    ghost use Rattle.cc2_leaf.specs.Commands.{path_at};

    ghost shown = { path_at };

    fn copied(&self, alloc: Global, definition: Option<&Definition>) -> Result<ConfigRelativePath> {
        let value = self.value.copied(alloc, definition)?;
        Ok(ConfigRelativePath { value })
    }
}
