//! What is asked.
use cc2_reports::{Format, Level};

/// Which files are looked at, and how findings are printed.
#[derive(Clone, Copy, Debug)]
pub struct Question<'a> {
    /// A directory, by an absolute path.
    pub dir: &'a str,
    /// Directories and files, by absolute paths. Of a directory its configuration files are checked, those of its
    /// ancestors and those of the cargo home; a file is checked alone. If there are none, `dir` is checked.
    pub paths: &'a [String],
    /// The level from which on a finding makes the status 1.
    pub deny: Level,
    /// The lints that are left out.
    pub allowed: &'a [&'a str],
    /// The targets for which `cfg(..)` tables are compared.
    pub targets: &'a [&'a str],
    /// How findings are printed.
    pub format: Format,
    /// Whether the text is coloured, as a terminal shows it.
    pub is_coloured: bool,
}
