//! Numbers, truth values and texts: how cells show them, and how each is read.
ghost use Rattle.std.specs.Prelude.{[], pos, string_bytes};
ghost use Rattle.cc2_value.specs.Cells.{number, truth, word};
ghost use Rattle.cc2_value.specs.Singles.{int32_read, uint32_read, truth_read, text_read};
ghost use Rattle.cc2_value.specs.SingleTexts.{int32_by, uint32_by, truth_by, text_by, int32_must, uint32_must, truth_must};

use crate::number::{int32_in, int32_of_text, truth_of_text, uint32_in, uint32_of_text};
use crate::value::Plain;
use cc2_error::error::Result;
use std::alloc::Global;

/// A whole number from -2147483648 to 2147483647.
impl Plain for i32 {
    ghost payload = { number };

    ghost of_toml = { int32_read };

    ghost of_text = { int32_by };

    ghost must_line = { int32_must };

    ghost bare = { λ x. tt };

    fn copied(&self, _alloc: Global) -> Result<i32> {
        Ok(*self)
    }

    fn from_toml(_alloc: Global, value: toml::Value) -> Result<Option<i32>> {
        Ok(int32_in(value.as_integer()))
    }

    fn from_text(_alloc: Global, text: &str) -> Result<Option<i32>> {
        Ok(int32_of_text(text))
    }

    fn wanted() -> &'static str {
        "must be a whole number from -2147483648 to 2147483647"
    }
}

/// A whole number from 0 to 4294967295.
impl Plain for u32 {
    ghost payload = { λ n. number (pos n) };

    ghost of_toml = { uint32_read };

    ghost of_text = { uint32_by };

    ghost must_line = { uint32_must };

    ghost bare = { λ x. tt };

    fn copied(&self, _alloc: Global) -> Result<u32> {
        Ok(*self)
    }

    fn from_toml(_alloc: Global, value: toml::Value) -> Result<Option<u32>> {
        Ok(uint32_in(value.as_integer()))
    }

    fn from_text(_alloc: Global, text: &str) -> Result<Option<u32>> {
        Ok(uint32_of_text(text))
    }

    fn wanted() -> &'static str {
        "must be a whole number from 0 to 4294967295"
    }
}

/// A truth value.
impl Plain for bool {
    ghost payload = { truth };

    ghost of_toml = { truth_read };

    ghost of_text = { truth_by };

    ghost must_line = { truth_must };

    ghost bare = { λ x. tt };

    fn copied(&self, _alloc: Global) -> Result<bool> {
        Ok(*self)
    }

    fn from_toml(_alloc: Global, value: toml::Value) -> Result<Option<bool>> {
        Ok(value.as_bool())
    }

    fn from_text(_alloc: Global, text: &str) -> Result<Option<bool>> {
        Ok(truth_of_text(text))
    }

    fn wanted() -> &'static str {
        "must be true or false"
    }
}

/// A text.
impl Plain for String {
    ghost payload = { λ s. word (string_bytes s) };

    ghost of_toml = { text_read };

    ghost of_text = { text_by };

    ghost must_line = { [] };

    ghost bare = { λ x. tt };

    fn copied(&self, _alloc: Global) -> Result<String> {
        Ok(self.clone()?)
    }

    fn from_toml(_alloc: Global, value: toml::Value) -> Result<Option<String>> {
        match value {
            toml::Value::String(text) => Ok(Some(text)),
            _ => Ok(None),
        }
    }

    fn from_text(alloc: Global, text: &str) -> Result<Option<String>> {
        Ok(Some(String::from_str(alloc, text)?))
    }

    fn wanted() -> &'static str {
        ""
    }
}
