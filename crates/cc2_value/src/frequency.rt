//! How often a report is shown.
use crate::merge::MergeFrom;
use crate::spelled::Spelled;
use cc2_error::error::{Error, ErrorKind, NoMemory, Result};
use std::alloc::Global;

/// How often a report on future incompatibilities is shown (Cargo Reference, Configuration,
/// [`future-incompat-report.frequency`](https://doc.rust-lang.org/cargo/reference/config.html#future-incompat-reportfrequency)).
#[derive(Clone, Copy, Debug, Default, PartialEq, Eq)]
pub enum Frequency {
    /// `always`: whenever there is one.
    #[default]
    Always,
    /// `never`.
    Never,
}

impl Frequency {
    ghost use Rattle.std.specs.Prelude.{◌≡◌, IfOk, IfErr};
    ghost use Rattle.cc2_value.specs.Spellings.{frequency_spelling, frequency_must, IsMisspelled};

    /// The value that the text spells (Cargo Reference, Configuration,
    /// [`future-incompat-report.frequency`](https://doc.rust-lang.org/cargo/reference/config.html#future-incompat-reportfrequency)).
    /// It takes no memory.
    ///
    /// # Errors
    /// `ErrorKind::BadSpelling` exactly where the text spells none; its line is
    /// `must be always or never`.
    pub fn from_str(text: &str) -> Result<Frequency>
        ensures ok { IfOk result (λ e. frequency_spelling e ≡ text.now) }
        ensures refused { IfErr result (IsMisspelled frequency_spelling frequency_must text.now) }
    {
        match text {
            "always" => Ok(Frequency::Always),
            "never" => Ok(Frequency::Never),
            _ => Err(Error::new(ErrorKind::BadSpelling {
                must: Frequency::must(),
            })),
        }
    }

    /// Its text.
    pub fn as_str(&self) -> &'static str
        ensures { result.now ≡ frequency_spelling self.now }
    {
        match self {
            Frequency::Always => "always",
            Frequency::Never => "never",
        }
    }
}

/// The stronger takes precedence.
impl MergeFrom for Frequency {
    ghost use Rattle.cc2_value.specs.Cells.{word};
    ghost use Rattle.cc2_value.specs.Shown.{single_at};
    ghost use Rattle.cc2_value.specs.Spellings.{frequency_spelling};
    ghost use Rattle.cc2_value.specs.Values.{bare_setting};

    ghost cell_at = { single_at (bare_setting (λ e. word (frequency_spelling e))) };

    #[tactic(auto, using(crate::proofs::Gathers::single_gathered))]
    fn gather(&mut self, _alloc: Global, _low: &mut Frequency) -> Result<()> {
        Ok(())
    }

    #[tactic(auto, using(crate::proofs::Gathers::single_reversed))]
    fn reverse_lists(&mut self, _alloc: Global) -> std::result::Result<(), NoMemory> {
        Ok(())
    }

    #[tactic(auto, using(crate::proofs::Gathers::single_unlisted))]
    fn has_lists() -> bool {
        false
    }
}

impl Spelled for Frequency {
    ghost use Rattle.std.specs.Prelude.{refl};
    ghost use Rattle.cc2_value.specs.Spellings.{frequency_spelling, frequency_must, frequencies};
    ghost use Rattle.cc2_value.specs.declared.frequency.Frequency.{Frequency};

    ghost spelling = { frequency_spelling };

    ghost values = { frequencies };

    ghost must_line = { frequency_must };

    ghost listed = { elim [ Frequency.Always ↦ refl | Frequency.Never ↦ refl ] };

    fn spelled(text: &str) -> Result<Frequency> {
        Frequency::from_str(text)
    }

    fn same(&self) -> Frequency {
        *self
    }

    fn must() -> &'static str {
        "must be always or never"
    }
}
