//! Values that are one of a few words.
ghost use Rattle.std.specs.Prelude.{◌≡◌, ℕ, List, Option, Ok, map, IfOk, IfErr};
ghost use Rattle.cc2_command_line.specs.Choices as named;
ghost use Rattle.cc2_command_line.specs.Choices.{color_named, level_named, lint_format_named, merged_named, rules_named, target_format_named, value_format_named};
ghost use Rattle.cc2_command_line.specs.Choices.{color_names, level_names, lint_format_names, merged_names, rules_names, target_format_names, value_format_names};
ghost use Rattle.cc2_command_line.specs.FaultViews.{IsFaultOf};
ghost use Rattle.cc2_command_line.specs.Parts.{part_view};
ghost use Rattle.cc2_command_line.specs.Selected as spec;

use crate::fault::Fault;
use crate::option::Setting;
use crate::part::Part;
use crate::selected::single;
use std::alloc::Global;

/// Whether output is coloured.
#[derive(Clone, Copy, Debug, PartialEq, Eq)]
pub enum Color {
    /// On a terminal, unless the variable `NO_COLOR` says otherwise.
    Auto,
    /// Always.
    Always,
    /// Never.
    Never,
}

/// Which configuration is printed.
#[derive(Clone, Copy, Debug, PartialEq, Eq)]
pub enum Stage {
    /// The files under the variables and the overrides.
    Environment,
    /// The files alone.
    Files,
    /// As `Environment`, with relative paths and programs resolved.
    Resolved,
}

/// The rules by which files are read.
#[derive(Clone, Copy, Debug, PartialEq, Eq)]
pub enum Rules {
    /// Those of the crate `cargo-config2`.
    Crate,
    /// Those of Cargo itself: with included files, and every key.
    Cargo,
}

/// How a value is printed.
#[derive(Clone, Copy, Debug, PartialEq, Eq)]
pub enum ValueFormat {
    /// A line of TOML for each value.
    Toml,
    /// JSON of the configuration, with the key alone.
    Json,
    /// JSON of the value alone.
    JsonValue,
}

/// How a target's settings are printed.
#[derive(Clone, Copy, Debug, PartialEq, Eq)]
pub enum TargetFormat {
    /// A line of TOML for each setting.
    Toml,
    /// One line of JSON.
    Json,
}

/// How findings are printed.
#[derive(Clone, Copy, Debug, PartialEq, Eq)]
pub enum LintFormat {
    /// As rustc prints its own.
    Text,
    /// One line of JSON.
    Json,
    /// One line of SARIF.
    Sarif,
}

/// A level of findings.
#[derive(Clone, Copy, Debug, PartialEq, Eq)]
pub enum Level {
    /// It may be intended.
    Note,
    /// A setting doesn't do what its author meant.
    Warning,
    /// Cargo or this library reports an error.
    Error,
}

/// A value that is one of a few words.
pub(crate) trait Choice: Copy + Drop {
    /// The value of this name.
    ghost named: { List ℕ → Option Self };

    /// The names of all values.
    ghost names: { List (List ℕ) };

    /// The names of all values.
    fn names() -> &'static [&'static str]
        ensures { map (λ name. name.now) result.now ≡ names };

    /// The value of this name.
    fn named(word: &str) -> Option<Self>
        ensures { result ≡ named word.now };
}

impl Choice for Color {
    ghost named = { color_named };

    ghost names = { color_names };

    fn names() -> &'static [&'static str] {
        &["auto", "always", "never"]
    }

    fn named(word: &str) -> Option<Color> {
        match word {
            "auto" => Some(Color::Auto),
            "always" => Some(Color::Always),
            "never" => Some(Color::Never),
            _ => None,
        }
    }
}

impl Choice for ValueFormat {
    ghost named = { value_format_named };

    ghost names = { value_format_names };

    fn names() -> &'static [&'static str] {
        &["toml", "json", "json-value"]
    }

    fn named(word: &str) -> Option<ValueFormat> {
        match word {
            "toml" => Some(ValueFormat::Toml),
            "json" => Some(ValueFormat::Json),
            "json-value" => Some(ValueFormat::JsonValue),
            _ => None,
        }
    }
}

impl Choice for Rules {
    ghost named = { rules_named };

    ghost names = { rules_names };

    fn names() -> &'static [&'static str] {
        &["crate", "cargo"]
    }

    fn named(word: &str) -> Option<Rules> {
        match word {
            "crate" => Some(Rules::Crate),
            "cargo" => Some(Rules::Cargo),
            _ => None,
        }
    }
}

impl Choice for TargetFormat {
    ghost named = { target_format_named };

    ghost names = { target_format_names };

    fn names() -> &'static [&'static str] {
        &["toml", "json"]
    }

    fn named(word: &str) -> Option<TargetFormat> {
        match word {
            "toml" => Some(TargetFormat::Toml),
            "json" => Some(TargetFormat::Json),
            _ => None,
        }
    }
}

impl Choice for LintFormat {
    ghost named = { lint_format_named };

    ghost names = { lint_format_names };

    fn names() -> &'static [&'static str] {
        &["text", "json", "sarif"]
    }

    fn named(word: &str) -> Option<LintFormat> {
        match word {
            "text" => Some(LintFormat::Text),
            "json" => Some(LintFormat::Json),
            "sarif" => Some(LintFormat::Sarif),
            _ => None,
        }
    }
}

impl Choice for Level {
    ghost named = { level_named };

    ghost names = { level_names };

    fn names() -> &'static [&'static str] {
        &["note", "warning", "error"]
    }

    fn named(word: &str) -> Option<Level> {
        match word {
            "note" => Some(Level::Note),
            "warning" => Some(Level::Warning),
            "error" => Some(Level::Error),
            _ => None,
        }
    }
}

/// Whether sources are merged.
impl Choice for bool {
    ghost named = { merged_named };

    ghost names = { merged_names };

    fn names() -> &'static [&'static str] {
        &["yes", "no"]
    }

    fn named(word: &str) -> Option<bool> {
        match word {
            "yes" => Some(true),
            "no" => Some(false),
            _ => None,
        }
    }
}

/// What an option chooses; the default where it isn't given.
///
/// # Errors
/// `Fault::Twice`; `Fault::BadValue` where the value isn't one of the words; `Fault::Memory` where memory ran out.
pub(crate) fn chosen<'a, T: Choice>(
    alloc: Global,
    parts: &[Part<'a>],
    setting: Setting,
    default: T,
) -> Result<T, Fault<'a>>
    ensures ok { IfOk result (λ value.
        named.chosen setting T.names T.named default (spec.single setting (map part_view parts.now))
        ≡ Ok value) }
    ensures wrong { IfErr result (λ fault. IsFaultOf fault
        (named.chosen setting T.names T.named default
        (spec.single setting (map part_view parts.now)))) }
{
    match single(alloc, parts, setting)? {
        None => Ok(default),
        Some(value) => match T::named(value) {
            Some(named) => Ok(named),
            None => Err(Fault::BadValue(setting, value, T::names())),
        },
    }
}
