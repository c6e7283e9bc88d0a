//! A list of texts: a text that is split at spaces, or an array of texts.
use crate::listed::{gather_lists, read_texts, reverse_array};
use crate::read_env::{ReadEnv, spaced_by};
use crate::repr::Repr;
use crate::text_copies::copied_texts;
use crate::words::send_words;
use cc2_error::error::{NoMemory, Result};
use cc2_value::{Decode, Definition, MergeFrom, TryClone, Value};
use serde::{Described, Serialize, Serializer};
use std::alloc::Global;

/// Texts, which remember whether they came as one text or as an array (Cargo Reference,
/// Configuration, [`[alias]`](https://doc.rust-lang.org/cargo/reference/config.html#alias)).
#[derive(Debug, Drop)]
pub struct StringList {
    /// The texts, each with where it was set.
    pub list: Vec<Value<String>>,
    repr: Repr,
}

impl StringList {
    ghost use Rattle.std.specs.Prelude.{◌≡◌, [], true};
    ghost use Rattle.cc2_leaf.specs.Lists.{is_array};

    /// No text, as an array. It takes no memory.
    pub fn empty(alloc: Global) -> StringList
        ensures list { result.list.items ≡ [] }
        ensures array { is_array result.repr ≡ true }
    {
        StringList {
            list: Vec::new(alloc),
            repr: Repr::Array,
        }
    }

    /// Whether they came as an array, and not as a text.
    pub fn is_array(&self) -> bool
        ensures { result ≡ is_array self.now.repr }
    {
        matches!(self.repr, Repr::Array)
    }
}

impl MergeFrom for StringList {
    ghost use Rattle.cc2_leaf.specs.Lists.{string_list_at};

    ghost cell_at = { string_list_at };

    fn gather(&mut self, alloc: Global, low: &mut StringList) -> Result<()> {
        gather_lists(alloc, (self.repr, low.repr), &mut self.list, &mut low.list)
    }

    fn reverse_lists(&mut self, _alloc: Global) -> std::result::Result<(), NoMemory> {
        reverse_array(self.repr, &mut self.list);
        Ok(())
    }
}

/// A text that is split at spaces.
impl ReadEnv for StringList {
    ghost use Rattle.cc2_leaf.specs.TextWays.{spaced_text_way};

    ghost text_way = { spaced_text_way };

    fn read_env(alloc: Global, text: &str, name: &str) -> Result<StringList> {
        let list = spaced_by(alloc, text, name)?;
        Ok(StringList {
            list,
            repr: Repr::Text,
        })
    }
}

impl Decode for StringList {
    ghost use Rattle.cc2_leaf.specs.Lists.{list_way};

    ghost way = { list_way };

    fn read(
        alloc: Global,
        value: toml::Value,
        key: &str,
        definition: Option<&Definition>,
    ) -> Result<StringList> {
        let read = read_texts(alloc, value, key, definition)?;
        Ok(StringList {
            list: read.list,
            repr: read.repr,
        })
    }
}

impl Described for StringList {}

/// As it came: a text with a space between each two words, or an array of texts.
impl Serialize for StringList {
    fn serialize<S: Serializer>(&self, out: &mut S) -> std::result::Result<(), S::Error> {
        send_words(&[], self.list.as_slice(), self.repr, out)
    }
}

impl TryClone for StringList {
    ghost use Rattle.cc2_leaf.specs.Lists.{string_list_at};

    ghost shown = { string_list_at };

    fn copied(&self, alloc: Global, definition: Option<&Definition>) -> Result<StringList> {
        let list = copied_texts(alloc, self.list.as_slice(), definition)?;
        Ok(StringList {
            list,
            repr: self.repr,
        })
    }
}
