//! A law of what is reported.
ghost use Rattle.std.specs.Prelude.{ℕ};
ghost use Rattle.cc2_findings.specs.declared.dir.LintedFile.{LintedFile};
ghost use Rattle.cc2_lint.specs.Files.{Checked, IsNeverSilent};

/// The law that a file which a load refuses has a report, whatever the cause.
pub fn refused_file_is_reported()
    ensures { (c : Checked) (n : ℕ) (f : LintedFile) → IsNeverSilent c n f }
{}
