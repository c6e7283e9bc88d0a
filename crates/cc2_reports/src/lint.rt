//! The lints.
ghost use Rattle.std.specs.Prelude.{◌≡◌, map};
ghost use Rattle.cc2_reports.specs.Lints.{is_lint, is_named, name_of, rule_of};

use crate::level::Level;

/// A lint: a kind of problems.
#[derive(Clone, Copy, Debug, PartialEq, Eq)]
pub enum Lint {
    /// `include` isn't an array.
    BadInclude,
    /// `build.build-dir` has a brace outside of Cargo's template variables.
    BadTemplate,
    /// A value isn't one that the key takes.
    BadValue,
    /// Cargo accepts a value or a configuration that cargo-config2 0.1.45 refuses.
    CargoAccepts,
    /// Cargo reads a key that this library doesn't read.
    CargoOnly,
    /// Cargo refuses a configuration that cargo-config2 0.1.45 accepts.
    CargoRefuses,
    /// Two matching `cfg(..)` tables set a linker or a runner each.
    ConflictingCfg,
    /// A `cfg(..)` key asks for `debug_assertions`.
    DebugAssertions,
    /// At a key cargo-config2 0.1.45 has another value than Cargo.
    DiffersFromCargo,
    /// A directory setting is empty.
    EmptyPath,
    /// A wrapper of rustc is empty.
    EmptyWrapper,
    /// Cargo ignores a `cfg(..)` key with white space other than spaces.
    IgnoredCfg,
    /// Cargo ignores a key of a `cfg(..)` table.
    IgnoredKey,
    /// A key of `target` that begins with `cfg(` isn't a cfg expression.
    InvalidCfg,
    /// A file isn't valid TOML.
    InvalidToml,
    /// `build.target` is a target specification file, which stable Cargo refuses.
    JsonTarget,
    /// Two files set a key to values of types that can't be merged.
    MixedTypes,
    /// A `cfg(..)` key matches no target.
    NeverMatches,
    /// A file isn't valid UTF-8.
    NotUtf8,
    /// A file is called `config` instead of `config.toml`.
    OldFileName,
    /// A file that takes precedence sets the same key.
    Overridden,
    /// An environment variable sets the same key.
    OverriddenByVariable,
    /// `term.quiet` and `term.verbose` are both true.
    QuietAndVerbose,
    /// A target triple with dots is quoted, which Cargo ignores.
    QuotedTriple,
    /// Other users can read a file with a token.
    ReadableToken,
    /// Cargo no longer supports a key.
    RemovedKey,
    /// An alias has the name of a command of Cargo.
    ShadowedAlias,
    /// A file called `config` is read instead of the `config.toml` in its directory.
    ShadowedFile,
    /// A source has more than one location.
    SourceWithLocations,
    /// A source has no location.
    SourceWithoutLocation,
    /// A token is in a file outside of the cargo home.
    Token,
    /// Neither Cargo nor this library reads a key.
    UnknownKey,
    /// A file can't be read.
    Unreadable,
    /// A value is valid and can't be resolved.
    Unresolvable,
    /// `build.jobs` is 0.
    ZeroJobs,
}

impl Lint {
    /// The name.
    pub fn word(self) -> &'static str
        ensures { result.now ≡ (rule_of self).name }
    {
        match self {
            Lint::BadInclude => "bad-include",
            Lint::BadTemplate => "bad-template",
            Lint::BadValue => "bad-value",
            Lint::CargoAccepts => "cargo-accepts",
            Lint::CargoOnly => "cargo-only",
            Lint::CargoRefuses => "cargo-refuses",
            Lint::ConflictingCfg => "conflicting-cfg",
            Lint::DebugAssertions => "debug-assertions",
            Lint::DiffersFromCargo => "differs-from-cargo",
            Lint::EmptyPath => "empty-path",
            Lint::EmptyWrapper => "empty-wrapper",
            Lint::IgnoredCfg => "ignored-cfg",
            Lint::IgnoredKey => "ignored-key",
            Lint::InvalidCfg => "invalid-cfg",
            Lint::InvalidToml => "invalid-toml",
            Lint::JsonTarget => "json-target",
            Lint::MixedTypes => "mixed-types",
            Lint::NeverMatches => "never-matches",
            Lint::NotUtf8 => "not-utf8",
            Lint::OldFileName => "old-file-name",
            Lint::Overridden => "overridden",
            Lint::OverriddenByVariable => "overridden-by-variable",
            Lint::QuietAndVerbose => "quiet-and-verbose",
            Lint::QuotedTriple => "quoted-triple",
            Lint::ReadableToken => "readable-token",
            Lint::RemovedKey => "removed-key",
            Lint::ShadowedAlias => "shadowed-alias",
            Lint::ShadowedFile => "shadowed-file",
            Lint::SourceWithLocations => "source-with-locations",
            Lint::SourceWithoutLocation => "source-without-location",
            Lint::Token => "token",
            Lint::UnknownKey => "unknown-key",
            Lint::Unreadable => "unreadable",
            Lint::Unresolvable => "unresolvable",
            Lint::ZeroJobs => "zero-jobs",
        }
    }

    /// The level of its problems.
    pub fn level(self) -> Level
        ensures { result ≡ (rule_of self).level }
    {
        match self {
            Lint::BadInclude => Level::Error,
            Lint::BadTemplate => Level::Error,
            Lint::BadValue => Level::Error,
            Lint::CargoAccepts => Level::Warning,
            Lint::CargoOnly => Level::Note,
            Lint::CargoRefuses => Level::Error,
            Lint::ConflictingCfg => Level::Error,
            Lint::DebugAssertions => Level::Warning,
            Lint::DiffersFromCargo => Level::Warning,
            Lint::EmptyPath => Level::Error,
            Lint::EmptyWrapper => Level::Warning,
            Lint::IgnoredCfg => Level::Warning,
            Lint::IgnoredKey => Level::Warning,
            Lint::InvalidCfg => Level::Error,
            Lint::InvalidToml => Level::Error,
            Lint::JsonTarget => Level::Warning,
            Lint::MixedTypes => Level::Error,
            Lint::NeverMatches => Level::Warning,
            Lint::NotUtf8 => Level::Error,
            Lint::OldFileName => Level::Note,
            Lint::Overridden => Level::Note,
            Lint::OverriddenByVariable => Level::Note,
            Lint::QuietAndVerbose => Level::Error,
            Lint::QuotedTriple => Level::Warning,
            Lint::ReadableToken => Level::Warning,
            Lint::RemovedKey => Level::Error,
            Lint::ShadowedAlias => Level::Warning,
            Lint::ShadowedFile => Level::Warning,
            Lint::SourceWithLocations => Level::Error,
            Lint::SourceWithoutLocation => Level::Error,
            Lint::Token => Level::Warning,
            Lint::UnknownKey => Level::Warning,
            Lint::Unreadable => Level::Error,
            Lint::Unresolvable => Level::Error,
            Lint::ZeroJobs => Level::Error,
        }
    }

    /// What it reports, in one line.
    pub fn about(self) -> &'static str
        ensures { result.now ≡ (rule_of self).about }
    {
        match self {
            Lint::BadInclude => "`include` isn't an array",
            Lint::BadTemplate => {
                "`build.build-dir` has a brace outside of Cargo's template variables"
            }
            Lint::BadValue => "a value isn't one that the key takes",
            Lint::CargoAccepts => {
                "Cargo accepts a value or a configuration that cargo-config2 0.1.45 refuses"
            }
            Lint::CargoOnly => "Cargo reads a key that this library doesn't read",
            Lint::CargoRefuses => {
                "Cargo refuses a configuration that cargo-config2 0.1.45 accepts"
            }
            Lint::ConflictingCfg => "two matching `cfg(..)` tables set a linker or a runner each",
            Lint::DebugAssertions => "a `cfg(..)` key asks for `debug_assertions`",
            Lint::DiffersFromCargo => {
                "at a key cargo-config2 0.1.45 has another value than Cargo"
            }
            Lint::EmptyPath => "a directory setting is empty",
            Lint::EmptyWrapper => "a wrapper of rustc is empty",
            Lint::IgnoredCfg => "Cargo ignores a `cfg(..)` key with white space other than spaces",
            Lint::IgnoredKey => "Cargo ignores a key of a `cfg(..)` table",
            Lint::InvalidCfg => "a key of `target` that begins with `cfg(` isn't a cfg expression",
            Lint::InvalidToml => "a file isn't valid TOML",
            Lint::JsonTarget => {
                "`build.target` is a target specification file, which stable Cargo refuses"
            }
            Lint::MixedTypes => "two files set a key to values of types that can't be merged",
            Lint::NeverMatches => "a `cfg(..)` key matches no target",
            Lint::NotUtf8 => "a file isn't valid UTF-8",
            Lint::OldFileName => "a file is called `config` instead of `config.toml`",
            Lint::Overridden => "a file that takes precedence sets the same key",
            Lint::OverriddenByVariable => "an environment variable sets the same key",
            Lint::QuietAndVerbose => "`term.quiet` and `term.verbose` are both true",
            Lint::QuotedTriple => "a target triple with dots is quoted, which Cargo ignores",
            Lint::ReadableToken => "other users can read a file with a token",
            Lint::RemovedKey => "Cargo no longer supports a key",
            Lint::ShadowedAlias => "an alias has the name of a command of Cargo",
            Lint::ShadowedFile => {
                "a file called `config` is read instead of the `config.toml` in its directory"
            }
            Lint::SourceWithLocations => "a source has more than one location",
            Lint::SourceWithoutLocation => "a source has no location",
            Lint::Token => "a token is in a file outside of the cargo home",
            Lint::UnknownKey => "neither Cargo nor this library reads a key",
            Lint::Unreadable => "a file can't be read",
            Lint::Unresolvable => "a value is valid and can't be resolved",
            Lint::ZeroJobs => "`build.jobs` is 0",
        }
    }
}

/// The lints, in the order of their names.
pub const LINTS: &[Lint] = &[
    Lint::BadInclude,
    Lint::BadTemplate,
    Lint::BadValue,
    Lint::CargoAccepts,
    Lint::CargoOnly,
    Lint::CargoRefuses,
    Lint::ConflictingCfg,
    Lint::DebugAssertions,
    Lint::DiffersFromCargo,
    Lint::EmptyPath,
    Lint::EmptyWrapper,
    Lint::IgnoredCfg,
    Lint::IgnoredKey,
    Lint::InvalidCfg,
    Lint::InvalidToml,
    Lint::JsonTarget,
    Lint::MixedTypes,
    Lint::NeverMatches,
    Lint::NotUtf8,
    Lint::OldFileName,
    Lint::Overridden,
    Lint::OverriddenByVariable,
    Lint::QuietAndVerbose,
    Lint::QuotedTriple,
    Lint::ReadableToken,
    Lint::RemovedKey,
    Lint::ShadowedAlias,
    Lint::ShadowedFile,
    Lint::SourceWithLocations,
    Lint::SourceWithoutLocation,
    Lint::Token,
    Lint::UnknownKey,
    Lint::Unreadable,
    Lint::Unresolvable,
    Lint::ZeroJobs,
];

/// Whether there is a lint of this name.
pub fn is_lint(word: &str) -> bool
    ensures { result ≡ is_lint word.now }
{
    is_one_of(LINTS, word)
}

// Whether one of these lints has the name.
fn is_one_of(lints: &[Lint], word: &str) -> bool
    ensures { result ≡ is_named (map name_of lints.now) word.now }
{
    for lint in lints {
        if lint.word() == word {
            return true;
        }
    }
    false
}
