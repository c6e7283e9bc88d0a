//! Enums that are read from a text.
ghost use Rattle.std.specs.Prelude.{◌≡◌, ℕ, List, map, Some, None, true, option_map, IfOk, IfErr, IfSome, IfNone};
ghost use Rattle.toml.specs.View.{view};
ghost use Rattle.cc2_value.specs.Cells.{word};
ghost use Rattle.cc2_value.specs.SingleTexts.{spelled_by};
ghost use Rattle.cc2_value.specs.Spelled.{spelling_in, spelled_read};
ghost use Rattle.cc2_value.specs.Spellings.{is_spelling, IsMisspelled};

use crate::value::Plain;
use cc2_error::error::Result;
use std::alloc::Global;

/// An enum whose values are spelled, each by one text, which is what a cell shows.
pub trait Spelled: Drop {
    /// The text of a value.
    ghost spelling: { Self → List ℕ };

    /// Its values.
    ghost values: { List Self };

    /// The line that says the texts.
    ghost must_line: { List ℕ };

    /// The value that the text spells. Refused exactly where it spells none, with the line that says
    /// the texts. It takes no memory.
    fn spelled(text: &str) -> Result<Self>
        ensures ok { IfOk result (λ e. spelling e ≡ text.now) }
        ensures refused { IfErr result (IsMisspelled spelling must_line text.now) };

    /// The same value once more.
    fn same(&self) -> Self
        ensures { result ≡ self.now };

    /// The line that says the texts, as `must be a or b`.
    fn must() -> &'static str
        ensures { result.now ≡ must_line };

    /// Each value is among the values.
    ghost listed: { (e : Self) → is_spelling (map spelling values) (spelling e) ≡ true };
}

/// The value of an enum that the text spells, if there is one.
pub fn find_spelled<E: Spelled>(text: &str) -> Option<E>
    ensures some { IfSome result (λ e.
        spelling_in (map E.spelling E.values) (Some text.now) ≡ Some (E.spelling e)) }
    ensures none { IfNone result (spelling_in (map E.spelling E.values) (Some text.now) ≡ None) }
{
    E::spelled(text).ok()
}

impl<E: Spelled> Plain for E {
    ghost payload = { λ e. word (E.spelling e) };

    ghost of_toml = { spelled_read (map E.spelling E.values) };

    ghost of_text = { spelled_by (map E.spelling E.values) };

    ghost must_line = { E.must_line };

    ghost bare = { λ e. tt };

    fn copied(&self, _alloc: Global) -> Result<E> {
        Ok(self.same())
    }

    fn from_toml(_alloc: Global, value: toml::Value) -> Result<Option<E>> {
        match value.as_str() {
            None => Ok(None),
            Some(text) => Ok(find_spelled(text)),
        }
    }

    fn from_text(_alloc: Global, text: &str) -> Result<Option<E>> {
        Ok(find_spelled(text))
    }

    fn wanted() -> &'static str {
        E::must()
    }
}
