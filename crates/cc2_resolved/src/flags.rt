//! Flags of `rustc` or `rustdoc`, as they are passed.
use crate::encoding::encoded;
use crate::pieces::{copied_strings, copied_strs, encoded_pieces, equal_texts, spaced_pieces};
use crate::sent::send_texts;
use cc2_error::error::{Result, Separator};
use serde::{Described, Serialize, Serializer};
use std::alloc::Global;

/// Flags, in the order in which they are passed (Cargo Reference,
/// [`build.rustflags`](https://doc.rust-lang.org/cargo/reference/config.html#buildrustflags)).
///
/// They are equal where they are the same texts in the same order.
#[derive(Debug, Drop)]
pub struct Flags {
    /// The flags.
    pub flags: Vec<String>,
}

impl Flags {
    ghost use Rattle.std.specs.Prelude.{◌≡◌, ◌<◌, ◌∷◌, ◌++◌, [], IfOk, IfErr, OnOk, OnErr, IsOk, filter, map, string_bytes};
    ghost use Rattle.std.specs.List.{join_with_byte};
    ghost use Rattle.std.specs.Str.{trim};
    ghost use Rattle.cc2_error.specs.Causes.{no_memory};
    ghost use Rattle.cc2_error.specs.Outcomes.{Gives};
    ghost use Rattle.cc2_error.specs.declared.error.Separator.TheVariants.{Unit as unit, Space as space};
    ghost use Rattle.cc2_leaf.specs.Pieces.{encoded, spaced, has_bytes};
    ghost use Rattle.cc2_resolved.specs.Texts.{texts_of, lent_texts};
    ghost use Rattle.cc2_resolved.specs.Encodings.{encoded_with, without_leading_empty};
    ghost use Rattle.cc2_resolved.specs.ShownFlags.{flag_texts, room_of};

    /// No flags. It takes no memory.
    pub fn empty(alloc: Global) -> Flags
        ensures { flag_texts result ≡ [] }
    {
        Flags {
            flags: Vec::new(alloc),
        }
    }

    /// The flags of a text with U+001F between them, as `CARGO_ENCODED_RUSTFLAGS` has them: the empty
    /// ones too, and none where the text is empty (Cargo Reference,
    /// [Environment variables Cargo reads](https://doc.rust-lang.org/cargo/reference/environment-variables.html#environment-variables-cargo-reads)).
    ///
    /// # Errors
    /// `ErrorKind::Memory` where a flag or the list finds no memory.
    #[tactic(auto, using(crate::proofs::FlagTexts::pieces_joined_back))]
    pub fn from_encoded(alloc: Global, text: &str) -> Result<Flags>
        ensures flags { IfOk result (λ flags. flag_texts flags ≡ encoded text.now) }
        ensures joined_back { IfOk result (λ flags.
            join_with_byte 31 (flag_texts flags) ≡ text.now) }
        ensures refused { IfErr result (λ e. e ≡ no_memory) }
    {
        Ok(Flags {
            flags: encoded_pieces(alloc, text)?,
        })
    }

    /// The flags of a text with spaces between them, as `RUSTFLAGS` has them: each without the white
    /// space round it, and without the empty ones (Cargo Reference,
    /// [Environment variables Cargo reads](https://doc.rust-lang.org/cargo/reference/environment-variables.html#environment-variables-cargo-reads)).
    ///
    /// # Errors
    /// `ErrorKind::Memory` where a flag or the list finds no memory.
    pub fn from_space_separated(alloc: Global, text: &str) -> Result<Flags>
        ensures flags { IfOk result (λ flags. flag_texts flags ≡ spaced text.now) }
        ensures refused { IfErr result (λ e. e ≡ no_memory) }
    {
        Ok(Flags {
            flags: spaced_pieces(alloc, text)?,
        })
    }

    /// Copies of these texts, as flags.
    ///
    /// # Errors
    /// `ErrorKind::Memory` where a flag or the list finds no memory.
    pub fn from_strings(alloc: Global, texts: &[String]) -> Result<Flags>
        ensures flags { IfOk result (λ flags. flag_texts flags ≡ texts_of texts.now) }
        ensures refused { IfErr result (λ e. e ≡ no_memory) }
    {
        Ok(Flags {
            flags: copied_strings(alloc, texts)?,
        })
    }

    /// Copies of these texts, as flags.
    ///
    /// # Errors
    /// `ErrorKind::Memory` where a flag or the list finds no memory.
    pub fn from_strs(alloc: Global, texts: &[&str]) -> Result<Flags>
        ensures flags { IfOk result (λ flags. flag_texts flags ≡ lent_texts texts.now) }
        ensures refused { IfErr result (λ e. e ≡ no_memory) }
    {
        Ok(Flags {
            flags: copied_strs(alloc, texts)?,
        })
    }

    /// The flags in one text, with U+001F between them, as `CARGO_ENCODED_RUSTFLAGS` wants them
    /// (Cargo Reference,
    /// [Environment variables Cargo reads](https://doc.rust-lang.org/cargo/reference/environment-variables.html#environment-variables-cargo-reads)).
    /// Empty flags in front are left out. `from_encoded` reads the others back.
    ///
    /// # Errors
    /// `ErrorKind::Separator` where a flag holds U+001F, since it would be read as two, and
    /// `ErrorKind::Memory` where the text finds no memory.
    #[tactic(auto, using(crate::proofs::FlagTexts::encoded_read_back))]
    pub fn encode(&self, alloc: Global) -> Result<String>
        ensures encoded { Gives string_bytes result (encoded_with unit (flag_texts self.now)) }
        ensures read_back { IfOk result (λ text.
            encoded (string_bytes text) ≡ without_leading_empty (flag_texts self.now)) }
    {
        encoded(alloc, self.flags.as_slice(), Separator::Unit)
    }

    /// The flags in one text, with a space between each two, as `RUSTFLAGS` wants them (Cargo
    /// Reference,
    /// [Environment variables Cargo reads](https://doc.rust-lang.org/cargo/reference/environment-variables.html#environment-variables-cargo-reads)).
    /// Empty flags in front are left out. `from_space_separated` reads them back, each trimmed,
    /// without those that are empty then.
    ///
    /// # Errors
    /// `ErrorKind::Separator` where a flag holds a space, since it would be read as two, and
    /// `ErrorKind::Memory` where the text finds no memory.
    #[tactic(auto, using(crate::proofs::FlagTexts::spaced_read_back))]
    pub fn encode_space_separated(&self, alloc: Global) -> Result<String>
        ensures encoded { Gives string_bytes result (encoded_with space (flag_texts self.now)) }
        ensures read_back { IfOk result (λ text.
            spaced (string_bytes text) ≡ filter has_bytes (map trim (flag_texts self.now))) }
    {
        encoded(alloc, self.flags.as_slice(), Separator::Space)
    }

    /// Adds the flag after the others.
    ///
    /// # Errors
    /// `ErrorKind::Memory` where the list can't grow; the flags are then as they were.
    pub fn push(&mut self, flag: String) -> Result<()>
        ensures added { OnOk result (flag_texts self.new
            ≡ flag_texts self.old ++ string_bytes flag ∷ []) }
        ensures kept { OnErr result (flag_texts self.new ≡ flag_texts self.old) }
        ensures refused { IfErr result (λ e. e ≡ no_memory) }
        ensures succeeds { 0 < room_of self.old → IsOk result }
    {
        self.flags.push(flag)?;
        Ok(())
    }

    /// The same flags once more.
    ///
    /// # Errors
    /// `ErrorKind::Memory` where a flag or the list finds no memory.
    pub fn try_clone(&self, alloc: Global) -> Result<Flags>
        ensures same { IfOk result (λ copy. flag_texts copy ≡ flag_texts self.now) }
        ensures refused { IfErr result (λ e. e ≡ no_memory) }
    {
        Flags::from_strings(alloc, self.flags.as_slice())
    }
}

/// The texts of the list, as flags. It takes no memory.
impl From<Vec<String>> for Flags {
    ghost use Rattle.std.specs.Prelude.{◌≡◌};
    ghost use Rattle.cc2_resolved.specs.Texts.{texts_of};
    ghost use Rattle.cc2_resolved.specs.ShownFlags.{flag_texts};

    ghost from_gives = { λ texts flags. flag_texts flags ≡ texts_of texts.items };

    fn from(flags: Vec<String>) -> Flags {
        Flags { flags }
    }
}

impl PartialEq for Flags {
    ghost use Rattle.std.specs.Prelude.{◌≡◌, ◌↔◌, IsTrue};
    ghost use Rattle.std.specs.Cmp.{on_equiv, partial_equiv_from_equiv};
    ghost use Rattle.std.specs.Cmp.Lexicographic.{lists_equiv, nat_list_eq_equiv};
    ghost use Rattle.cc2_base.specs.Paths.{same_texts};
    ghost use Rattle.cc2_resolved.specs.ShownFlags.{flag_texts};

    ghost eq = { λ a b. same_texts (flag_texts a) (flag_texts b) };

    ghost laws = { partial_equiv_from_equiv
        (on_equiv (λ flags. flag_texts flags) (lists_equiv nat_list_eq_equiv)) };

    fn eq(&self, other: &Flags) -> bool
        ensures computed { result ≡ same_texts (flag_texts self.now) (flag_texts other.now) }
        ensures same { IsTrue result ↔ (flag_texts self.now ≡ flag_texts other.now) }
    {
        equal_texts(self.flags.as_slice(), other.flags.as_slice())
    }
}

impl Eq for Flags {
    ghost use Rattle.std.specs.Cmp.{on_equiv};
    ghost use Rattle.std.specs.Cmp.Lexicographic.{lists_equiv, nat_list_eq_equiv};
    ghost use Rattle.cc2_resolved.specs.ShownFlags.{flag_texts};

    ghost laws = { on_equiv (λ flags. flag_texts flags) (lists_equiv nat_list_eq_equiv) };
}

// Where a serializer reports its events, it has been sent those of the list of texts.
impl Described for Flags {
    ghost use Rattle.cc2_resolved.specs.Events.{text_events, SendsAll};
    ghost use Rattle.cc2_resolved.specs.ShownFlags.{flag_texts};

    ghost writes = { λ flags old new. SendsAll (text_events (flag_texts flags)) old new };
}

/// An array of the texts.
impl Serialize for Flags {
    fn serialize<S: Serializer>(&self, out: &mut S) -> std::result::Result<(), S::Error> {
        send_texts(self.flags.as_slice(), out)
    }
}
