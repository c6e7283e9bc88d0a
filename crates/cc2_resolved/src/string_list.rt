//! A list of texts, such as the words of an alias.
use crate::pieces::{copied_strings, copied_strs, equal_texts, spaced_pieces};
use crate::sent::send_texts;
use cc2_error::error::Result;
use serde::{Described, Serialize, Serializer};
use std::alloc::Global;

/// A list of texts (Cargo Reference,
/// [`[alias]`](https://doc.rust-lang.org/cargo/reference/config.html#alias)).
///
/// Lists are equal where they are the same texts in the same order.
#[derive(Debug, Drop)]
pub struct StringList {
    /// The texts.
    pub list: Vec<String>,
}

impl StringList {
    ghost use Rattle.std.specs.Prelude.{◌≡◌, [], IfOk, IfErr};
    ghost use Rattle.cc2_error.specs.Causes.{no_memory};
    ghost use Rattle.cc2_leaf.specs.Pieces.{spaced};
    ghost use Rattle.cc2_resolved.specs.Texts.{texts_of, lent_texts};
    ghost use Rattle.cc2_resolved.specs.ShownLists.{list_texts};

    /// The empty list. It takes no memory.
    pub fn empty(alloc: Global) -> StringList
        ensures { list_texts result ≡ [] }
    {
        StringList {
            list: Vec::new(alloc),
        }
    }

    /// The pieces of a text between spaces: each without the white space round it, and without the
    /// empty ones (Cargo Reference,
    /// [`[alias]`](https://doc.rust-lang.org/cargo/reference/config.html#alias)).
    ///
    /// # Errors
    /// `ErrorKind::Memory` where a piece or the list finds no memory.
    pub fn from_text(alloc: Global, text: &str) -> Result<StringList>
        ensures pieces { IfOk result (λ list. list_texts list ≡ spaced text.now) }
        ensures refused { IfErr result (λ e. e ≡ no_memory) }
    {
        Ok(StringList {
            list: spaced_pieces(alloc, text)?,
        })
    }

    /// Copies of these texts; none is split.
    ///
    /// # Errors
    /// `ErrorKind::Memory` where a text or the list finds no memory.
    pub fn from_strings(alloc: Global, texts: &[String]) -> Result<StringList>
        ensures copies { IfOk result (λ list. list_texts list ≡ texts_of texts.now) }
        ensures refused { IfErr result (λ e. e ≡ no_memory) }
    {
        Ok(StringList {
            list: copied_strings(alloc, texts)?,
        })
    }

    /// Copies of these texts; none is split.
    ///
    /// # Errors
    /// `ErrorKind::Memory` where a text or the list finds no memory.
    pub fn from_strs(alloc: Global, texts: &[&str]) -> Result<StringList>
        ensures copies { IfOk result (λ list. list_texts list ≡ lent_texts texts.now) }
        ensures refused { IfErr result (λ e. e ≡ no_memory) }
    {
        Ok(StringList {
            list: copied_strs(alloc, texts)?,
        })
    }

    /// The same list once more.
    ///
    /// # Errors
    /// `ErrorKind::Memory` where a text or the list finds no memory.
    pub fn try_clone(&self, alloc: Global) -> Result<StringList>
        ensures same { IfOk result (λ copy. list_texts copy ≡ list_texts self.now) }
        ensures refused { IfErr result (λ e. e ≡ no_memory) }
    {
        StringList::from_strings(alloc, self.list.as_slice())
    }
}

/// The list itself; no text is split. It takes no memory.
impl From<Vec<String>> for StringList {
    ghost use Rattle.std.specs.Prelude.{◌≡◌};
    ghost use Rattle.cc2_resolved.specs.Texts.{texts_of};
    ghost use Rattle.cc2_resolved.specs.ShownLists.{list_texts};

    ghost from_gives = { λ texts list. list_texts list ≡ texts_of texts.items };

    fn from(list: Vec<String>) -> StringList {
        StringList { list }
    }
}

impl PartialEq for StringList {
    ghost use Rattle.std.specs.Prelude.{◌≡◌, ◌↔◌, IsTrue};
    ghost use Rattle.std.specs.Cmp.{on_equiv, partial_equiv_from_equiv};
    ghost use Rattle.std.specs.Cmp.Lexicographic.{lists_equiv, nat_list_eq_equiv};
    ghost use Rattle.cc2_base.specs.Paths.{same_texts};
    ghost use Rattle.cc2_resolved.specs.ShownLists.{list_texts};

    ghost eq = { λ a b. same_texts (list_texts a) (list_texts b) };

    ghost laws = { partial_equiv_from_equiv
        (on_equiv (λ list. list_texts list) (lists_equiv nat_list_eq_equiv)) };

    fn eq(&self, other: &StringList) -> bool
        ensures computed { result ≡ same_texts (list_texts self.now) (list_texts other.now) }
        ensures same { IsTrue result ↔ (list_texts self.now ≡ list_texts other.now) }
    {
        equal_texts(self.list.as_slice(), other.list.as_slice())
    }
}

impl Eq for StringList {
    ghost use Rattle.std.specs.Cmp.{on_equiv};
    ghost use Rattle.std.specs.Cmp.Lexicographic.{lists_equiv, nat_list_eq_equiv};
    ghost use Rattle.cc2_resolved.specs.ShownLists.{list_texts};

    ghost laws = { on_equiv (λ list. list_texts list) (lists_equiv nat_list_eq_equiv) };
}

// Where a serializer reports its events, it has been sent those of the list of texts.
impl Described for StringList {
    ghost use Rattle.cc2_resolved.specs.Events.{text_events, SendsAll};
    ghost use Rattle.cc2_resolved.specs.ShownLists.{list_texts};

    ghost writes = { λ list old new. SendsAll (text_events (list_texts list)) old new };
}

/// An array of the texts.
impl Serialize for StringList {
    fn serialize<S: Serializer>(&self, out: &mut S) -> std::result::Result<(), S::Error> {
        send_texts(self.list.as_slice(), out)
    }
}
