//! When a progress bar is shown.
use crate::merge::MergeFrom;
use crate::spelled::Spelled;
use cc2_error::error::{Error, ErrorKind, NoMemory, Result};
use std::alloc::Global;

/// When a progress bar is shown (Cargo Reference, Configuration,
/// [`term.progress.when`](https://doc.rust-lang.org/cargo/reference/config.html#termprogresswhen)).
#[derive(Clone, Copy, Debug, Default, PartialEq, Eq)]
pub enum When {
    /// `auto`: where the output goes to a terminal.
    #[default]
    Auto,
    /// `always`.
    Always,
    /// `never`.
    Never,
}

impl When {
    ghost use Rattle.std.specs.Prelude.{◌≡◌, IfOk, IfErr};
    ghost use Rattle.cc2_value.specs.Spellings.{when_spelling, when_must, IsMisspelled};

    /// The value that the text spells (Cargo Reference, Configuration,
    /// [`term.progress.when`](https://doc.rust-lang.org/cargo/reference/config.html#termprogresswhen)).
    /// It takes no memory.
    ///
    /// # Errors
    /// `ErrorKind::BadSpelling` exactly where the text spells none; its line is
    /// `must be auto, always, or never`.
    pub fn from_str(text: &str) -> Result<When>
        ensures ok { IfOk result (λ e. when_spelling e ≡ text.now) }
        ensures refused { IfErr result (IsMisspelled when_spelling when_must text.now) }
    {
        match text {
            "auto" => Ok(When::Auto),
            "always" => Ok(When::Always),
            "never" => Ok(When::Never),
            _ => Err(Error::new(ErrorKind::BadSpelling { must: When::must() })),
        }
    }

    /// Its text.
    pub fn as_str(&self) -> &'static str
        ensures { result.now ≡ when_spelling self.now }
    {
        match self {
            When::Auto => "auto",
            When::Always => "always",
            When::Never => "never",
        }
    }
}

/// The stronger takes precedence.
impl MergeFrom for When {
    ghost use Rattle.cc2_value.specs.Cells.{word};
    ghost use Rattle.cc2_value.specs.Shown.{single_at};
    ghost use Rattle.cc2_value.specs.Spellings.{when_spelling};
    ghost use Rattle.cc2_value.specs.Values.{bare_setting};

    ghost cell_at = { single_at (bare_setting (λ e. word (when_spelling e))) };

    #[tactic(auto, using(crate::proofs::Gathers::single_gathered))]
    fn gather(&mut self, _alloc: Global, _low: &mut When) -> Result<()> {
        Ok(())
    }

    #[tactic(auto, using(crate::proofs::Gathers::single_reversed))]
    fn reverse_lists(&mut self, _alloc: Global) -> std::result::Result<(), NoMemory> {
        Ok(())
    }

    #[tactic(auto, using(crate::proofs::Gathers::single_unlisted))]
    fn has_lists() -> bool {
        false
    }
}

impl Spelled for When {
    ghost use Rattle.std.specs.Prelude.{refl};
    ghost use Rattle.cc2_value.specs.Spellings.{when_spelling, when_must, whens};
    ghost use Rattle.cc2_value.specs.declared.when.When.{When};

    ghost spelling = { when_spelling };

    ghost values = { whens };

    ghost must_line = { when_must };

    ghost listed = { elim [ When.Auto ↦ refl | When.Always ↦ refl | When.Never ↦ refl ] };

    fn spelled(text: &str) -> Result<When> {
        When::from_str(text)
    }

    fn same(&self) -> When {
        *self
    }

    fn must() -> &'static str {
        "must be auto, always, or never"
    }
}
