//! When output is coloured.
use crate::merge::MergeFrom;
use crate::spelled::Spelled;
use cc2_error::error::{Error, ErrorKind, NoMemory, Result};
use std::alloc::Global;

/// When output is coloured (Cargo Reference, Configuration,
/// [`term.color`](https://doc.rust-lang.org/cargo/reference/config.html#termcolor)).
#[derive(Clone, Copy, Debug, Default, PartialEq, Eq)]
pub enum Color {
    /// `auto`: where it goes to a terminal.
    #[default]
    Auto,
    /// `always`.
    Always,
    /// `never`.
    Never,
}

impl Color {
    ghost use Rattle.std.specs.Prelude.{◌≡◌, IfOk, IfErr};
    ghost use Rattle.cc2_value.specs.Spellings.{color_spelling, color_must, IsMisspelled};

    /// The value that the text spells (Cargo Reference, Configuration,
    /// [`term.color`](https://doc.rust-lang.org/cargo/reference/config.html#termcolor)). It takes
    /// no memory.
    ///
    /// # Errors
    /// `ErrorKind::BadSpelling` exactly where the text spells none; its line is
    /// `must be auto, always, or never`.
    pub fn from_str(text: &str) -> Result<Color>
        ensures ok { IfOk result (λ e. color_spelling e ≡ text.now) }
        ensures refused { IfErr result (IsMisspelled color_spelling color_must text.now) }
    {
        match text {
            "auto" => Ok(Color::Auto),
            "always" => Ok(Color::Always),
            "never" => Ok(Color::Never),
            _ => Err(Error::new(ErrorKind::BadSpelling {
                must: Color::must(),
            })),
        }
    }

    /// Its text.
    pub fn as_str(&self) -> &'static str
        ensures { result.now ≡ color_spelling self.now }
    {
        match self {
            Color::Auto => "auto",
            Color::Always => "always",
            Color::Never => "never",
        }
    }
}

/// The stronger takes precedence.
impl MergeFrom for Color {
    ghost use Rattle.cc2_value.specs.Cells.{word};
    ghost use Rattle.cc2_value.specs.Shown.{single_at};
    ghost use Rattle.cc2_value.specs.Spellings.{color_spelling};
    ghost use Rattle.cc2_value.specs.Values.{bare_setting};

    ghost cell_at = { single_at (bare_setting (λ e. word (color_spelling e))) };

    #[tactic(auto, using(crate::proofs::Gathers::single_gathered))]
    fn gather(&mut self, _alloc: Global, _low: &mut Color) -> Result<()> {
        Ok(())
    }

    #[tactic(auto, using(crate::proofs::Gathers::single_reversed))]
    fn reverse_lists(&mut self, _alloc: Global) -> std::result::Result<(), NoMemory> {
        Ok(())
    }

    #[tactic(auto, using(crate::proofs::Gathers::single_unlisted))]
    fn has_lists() -> bool {
        false
    }
}

impl Spelled for Color {
    ghost use Rattle.std.specs.Prelude.{refl};
    ghost use Rattle.cc2_value.specs.Spellings.{color_spelling, color_must, colors};
    ghost use Rattle.cc2_value.specs.declared.color.Color.{Color};

    ghost spelling = { color_spelling };

    ghost values = { colors };

    ghost must_line = { color_must };

    ghost listed = { elim [ Color.Auto ↦ refl | Color.Always ↦ refl | Color.Never ↦ refl ] };

    fn spelled(text: &str) -> Result<Color> {
        Color::from_str(text)
    }

    fn same(&self) -> Color {
        *self
    }

    fn must() -> &'static str {
        "must be auto, always, or never"
    }
}
