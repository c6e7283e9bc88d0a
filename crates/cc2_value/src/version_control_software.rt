//! What a new package is put under.
use crate::merge::MergeFrom;
use crate::spelled::Spelled;
use cc2_error::error::{Error, ErrorKind, NoMemory, Result};
use std::alloc::Global;

/// The version control of a new package (Cargo Reference, Configuration,
/// [`cargo-new.vcs`](https://doc.rust-lang.org/cargo/reference/config.html#cargo-newvcs)).
#[derive(Clone, Copy, Debug, PartialEq, Eq)]
pub enum VersionControlSoftware {
    /// `git`.
    Git,
    /// `hg`: Mercurial.
    Mercurial,
    /// `pijul`.
    Pijul,
    /// `fossil`.
    Fossil,
    /// `none`.
    None,
}

impl VersionControlSoftware {
    ghost use Rattle.std.specs.Prelude.{◌≡◌, IfOk, IfErr};
    ghost use Rattle.cc2_value.specs.Spellings.{vcs_spelling, vcs_must, IsMisspelled};

    /// The value that the text spells (Cargo Reference, Configuration,
    /// [`cargo-new.vcs`](https://doc.rust-lang.org/cargo/reference/config.html#cargo-newvcs)). It
    /// takes no memory.
    ///
    /// # Errors
    /// `ErrorKind::BadSpelling` exactly where the text spells none; its line is
    /// `must be git, hg, pijul, fossil, none`.
    pub fn from_str(text: &str) -> Result<VersionControlSoftware>
        ensures ok { IfOk result (λ e. vcs_spelling e ≡ text.now) }
        ensures refused { IfErr result (IsMisspelled vcs_spelling vcs_must text.now) }
    {
        match text {
            "git" => Ok(VersionControlSoftware::Git),
            "hg" => Ok(VersionControlSoftware::Mercurial),
            "pijul" => Ok(VersionControlSoftware::Pijul),
            "fossil" => Ok(VersionControlSoftware::Fossil),
            "none" => Ok(VersionControlSoftware::None),
            _ => Err(Error::new(ErrorKind::BadSpelling {
                must: VersionControlSoftware::must(),
            })),
        }
    }

    /// Its text.
    pub fn as_str(&self) -> &'static str
        ensures { result.now ≡ vcs_spelling self.now }
    {
        match self {
            VersionControlSoftware::Git => "git",
            VersionControlSoftware::Mercurial => "hg",
            VersionControlSoftware::Pijul => "pijul",
            VersionControlSoftware::Fossil => "fossil",
            VersionControlSoftware::None => "none",
        }
    }
}

/// The stronger takes precedence.
impl MergeFrom for VersionControlSoftware {
    ghost use Rattle.cc2_value.specs.Cells.{word};
    ghost use Rattle.cc2_value.specs.Shown.{single_at};
    ghost use Rattle.cc2_value.specs.Spellings.{vcs_spelling};
    ghost use Rattle.cc2_value.specs.Values.{bare_setting};

    ghost cell_at = { single_at (bare_setting (λ e. word (vcs_spelling e))) };

    #[tactic(auto, using(crate::proofs::Gathers::single_gathered))]
    fn gather(&mut self, _alloc: Global, _low: &mut VersionControlSoftware) -> Result<()> {
        Ok(())
    }

    #[tactic(auto, using(crate::proofs::Gathers::single_reversed))]
    fn reverse_lists(&mut self, _alloc: Global) -> std::result::Result<(), NoMemory> {
        Ok(())
    }

    #[tactic(auto, using(crate::proofs::Gathers::single_unlisted))]
    fn has_lists() -> bool {
        false
    }
}

impl Spelled for VersionControlSoftware {
    ghost use Rattle.std.specs.Prelude.{refl};
    ghost use Rattle.cc2_value.specs.Spellings.{vcs_spelling, vcs_must, all_vcs};
    ghost use Rattle.cc2_value.specs.declared.version_control_software.VersionControlSoftware.{VersionControlSoftware};

    ghost spelling = { vcs_spelling };

    ghost values = { all_vcs };

    ghost must_line = { vcs_must };

    ghost listed = { elim [
      | VersionControlSoftware.Git ↦ refl
      | VersionControlSoftware.Mercurial ↦ refl
      | VersionControlSoftware.Pijul ↦ refl
      | VersionControlSoftware.Fossil ↦ refl
      | VersionControlSoftware.None ↦ refl
    ] };

    fn spelled(text: &str) -> Result<VersionControlSoftware> {
        VersionControlSoftware::from_str(text)
    }

    fn same(&self) -> VersionControlSoftware {
        *self
    }

    fn must() -> &'static str {
        "must be git, hg, pijul, fossil, none"
    }
}
