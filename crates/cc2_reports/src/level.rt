//! How serious a finding is.
ghost use Rattle.std.specs.Prelude.{◌≡◌};
ghost use Rattle.cc2_reports.specs.Levels.{at_least, colour_of, is_level, level_name};

/// How serious a finding is.
#[derive(Clone, Copy, Debug, PartialEq, Eq, PartialOrd, Ord)]
pub enum Level {
    /// It may be intended.
    Note,
    /// A setting doesn't do what its writer meant.
    Warning,
    /// Cargo, or a query of this library, refuses the file for it.
    Error,
}

impl Level {
    /// What a level is called.
    pub fn name(self) -> &'static str
        ensures { result.now ≡ level_name self }
    {
        match self {
            Level::Note => "note",
            Level::Warning => "warning",
            Level::Error => "error",
        }
    }

    /// The escape sequence for its colour: cyan, yellow or red, and bold.
    pub(crate) fn colour(self) -> &'static str
        ensures { result.now ≡ colour_of self }
    {
        match self {
            Level::Note => "\x1b[1;36m",
            Level::Warning => "\x1b[1;33m",
            Level::Error => "\x1b[1;31m",
        }
    }

    /// Whether it is this level.
    pub(crate) fn is(self, other: Level) -> bool
        ensures { result ≡ is_level self other }
    {
        match (self, other) {
            (Level::Note, Level::Note)
            | (Level::Warning, Level::Warning)
            | (Level::Error, Level::Error) => true,
            _ => false,
        }
    }

    /// Whether another level is this one or above it.
    pub(crate) fn is_reached_by(self, other: Level) -> bool
        ensures { result ≡ at_least self other }
    {
        match (self, other) {
            (Level::Note, _) => true,
            (Level::Warning, Level::Note) => false,
            (Level::Warning, _) => true,
            (Level::Error, Level::Error) => true,
            (Level::Error, _) => false,
        }
    }
}
