//! How a registry is reached.
use crate::merge::MergeFrom;
use crate::spelled::Spelled;
use cc2_error::error::{Error, ErrorKind, NoMemory, Result};
use std::alloc::Global;

/// How the registry crates.io is reached (Cargo Reference, Configuration,
/// [`registries.crates-io.protocol`](https://doc.rust-lang.org/cargo/reference/config.html#registriescrates-ioprotocol)).
#[derive(Clone, Debug, Drop, PartialEq, Eq)]
pub enum RegistriesProtocol {
    /// `git`: by a clone of its index.
    Git,
    /// `sparse`: by HTTP, file by file.
    Sparse,
}

impl RegistriesProtocol {
    ghost use Rattle.std.specs.Prelude.{◌≡◌, IfOk, IfErr};
    ghost use Rattle.cc2_value.specs.Spellings.{protocol_spelling, protocol_must, IsMisspelled};

    /// The value that the text spells (Cargo Reference, Configuration,
    /// [`registries.crates-io.protocol`](https://doc.rust-lang.org/cargo/reference/config.html#registriescrates-ioprotocol)).
    /// It takes no memory.
    ///
    /// # Errors
    /// `ErrorKind::BadSpelling` exactly where the text spells none; its line is
    /// `must be git or sparse`.
    pub fn from_str(text: &str) -> Result<RegistriesProtocol>
        ensures ok { IfOk result (λ e. protocol_spelling e ≡ text.now) }
        ensures refused { IfErr result (IsMisspelled protocol_spelling protocol_must text.now) }
    {
        match text {
            "git" => Ok(RegistriesProtocol::Git),
            "sparse" => Ok(RegistriesProtocol::Sparse),
            _ => Err(Error::new(ErrorKind::BadSpelling {
                must: RegistriesProtocol::must(),
            })),
        }
    }

    /// Its text.
    pub fn as_str(&self) -> &'static str
        ensures { result.now ≡ protocol_spelling self.now }
    {
        match self {
            RegistriesProtocol::Git => "git",
            RegistriesProtocol::Sparse => "sparse",
        }
    }
}

/// The stronger takes precedence.
impl MergeFrom for RegistriesProtocol {
    ghost use Rattle.cc2_value.specs.Cells.{word};
    ghost use Rattle.cc2_value.specs.Shown.{single_at};
    ghost use Rattle.cc2_value.specs.Spellings.{protocol_spelling};
    ghost use Rattle.cc2_value.specs.Values.{bare_setting};

    ghost cell_at = { single_at (bare_setting (λ e. word (protocol_spelling e))) };

    #[tactic(auto, using(crate::proofs::Gathers::single_gathered))]
    fn gather(&mut self, _alloc: Global, _low: &mut RegistriesProtocol) -> Result<()> {
        Ok(())
    }

    #[tactic(auto, using(crate::proofs::Gathers::single_reversed))]
    fn reverse_lists(&mut self, _alloc: Global) -> std::result::Result<(), NoMemory> {
        Ok(())
    }

    #[tactic(auto, using(crate::proofs::Gathers::single_unlisted))]
    fn has_lists() -> bool {
        false
    }
}

impl Spelled for RegistriesProtocol {
    ghost use Rattle.std.specs.Prelude.{refl};
    ghost use Rattle.cc2_value.specs.Spellings.{protocol_spelling, protocol_must, protocols};
    ghost use Rattle.cc2_value.specs.declared.registries_protocol.RegistriesProtocol.{RegistriesProtocol};

    ghost spelling = { protocol_spelling };

    ghost values = { protocols };

    ghost must_line = { protocol_must };

    ghost listed = { elim [ RegistriesProtocol.Git ↦ refl | RegistriesProtocol.Sparse ↦ refl ] };

    fn spelled(text: &str) -> Result<RegistriesProtocol> {
        RegistriesProtocol::from_str(text)
    }

    fn same(&self) -> RegistriesProtocol {
        match self {
            RegistriesProtocol::Git => RegistriesProtocol::Git,
            RegistriesProtocol::Sparse => RegistriesProtocol::Sparse,
        }
    }

    fn must() -> &'static str {
        "must be git or sparse"
    }
}
