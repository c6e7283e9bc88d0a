//! Which values Cargo takes of those that have a setting's type.
ghost use Rattle.std.specs.Prelude.{◌≡◌, IfErr, IfOk, map, option_map};
ghost use Rattle.toml.specs.Data.{integer};
ghost use Rattle.cc2_error.specs.Causes.{refusal_of};
ghost use Rattle.cc2_error.specs.Outcomes.{Gives};
ghost use Rattle.cc2_value.specs.Values.{origin_of, word_of};
ghost use Rattle.cc2_cargo.specs.Raw.{raw_members_at};
ghost use Rattle.cc2_cargo_settings.specs.CheckedTexts.{checked_text_at, if_accepted};
ghost use Rattle.cc2_cargo_settings.specs.Checks.{accepts, in_width, largest, misfit, must_of, number_must, wrong_text};
ghost use Rattle.cc2_cargo_settings.specs.Variables.{given_shown};
ghost use Rattle.cc2_cargo_settings.specs.declared.check.Check.TheVariants.{VersionControl};

use crate::cell::other_type;
use crate::sources::Sources;
use crate::values::text;
use crate::variable::{Given, given_by};
use cc2_base::variable::variable_line;
use cc2_cargo::is_of_override;
use cc2_error::error::{Error, ErrorKind, NoMemory, Result};
use cc2_value::{Definition, Value};
use std::alloc::Global;

/// Which texts a setting takes.
#[derive(Clone, Copy)]
pub(crate) enum Check {
    /// When to print in color.
    Color,
    /// When to print a progress bar.
    Progress,
    /// Which versions of rustc a dependency may need.
    RustVersions,
    /// The version control of new packages.
    VersionControl,
    /// What a panic does.
    Panic,
    /// A directory: any text that isn't empty.
    Directory,
}

/// How large a number may be.
#[derive(Clone, Copy)]
pub(crate) enum Width {
    /// From 0 to 4294967295.
    Short,
    /// From 0 to 9223372036854775807.
    Long,
}

impl Check {
    /// Whether a text is one of those.
    pub(crate) fn accepts(self, text: &str) -> bool
        ensures { result ≡ accepts self text.now }
    {
        match self {
            Check::Color => text == "auto" || text == "always" || text == "never",
            Check::Progress => text == "auto" || text == "never" || text == "always",
            Check::RustVersions => text == "allow" || text == "fallback",
            Check::VersionControl => is_version_control(text),
            Check::Panic => text == "unwind" || text == "abort" || text == "immediate-abort",
            Check::Directory => text != "",
        }
    }

    /// The line that says which texts these are.
    pub(crate) fn wanted(self) -> &'static str
        ensures { result.now ≡ must_of self }
    {
        match self {
            Check::Color => "must be auto, always or never",
            Check::Progress => "must be auto, never or always",
            Check::RustVersions => "must be allow or fallback",
            Check::VersionControl => "must be git, hg, pijul, fossil or none",
            Check::Panic => "must be unwind, abort or immediate-abort",
            Check::Directory => "must not be empty",
        }
    }
}

fn is_version_control(text: &str) -> bool
    ensures { result ≡ accepts VersionControl text.now }
{
    text == "git" || text == "hg" || text == "pijul" || text == "fossil" || text == "none"
}

impl Width {
    /// Whether a number is in the range.
    pub(crate) fn has(self, number: i64) -> bool
        ensures { result ≡ in_width self number }
    {
        0 <= number && number <= self.largest()
    }

    fn largest(self) -> i64
        ensures { result ≡ largest self }
    {
        match self {
            Width::Short => 4294967295,
            Width::Long => 9223372036854775807,
        }
    }

    /// The line that says which numbers these are.
    pub(crate) fn wanted(self) -> &'static str
        ensures { result.now ≡ number_must self }
    {
        match self {
            Width::Short => "must be a whole number from 0 to 4294967295",
            Width::Long => "must be a whole number from 0 to 9223372036854775807",
        }
    }
}

/// The text at a path, as `text` has it, where the setting takes it.
///
/// # Errors
/// Those of `text`. Where the setting doesn't take the text, `ErrorKind::EnvParse` if the variable sets it, else
/// `ErrorKind::ParseFile` with the path.
pub(crate) fn checked_text(
    alloc: Global,
    sources: Sources<'_>,
    check: Check,
    path: &[&str],
    name: &str,
) -> Result<Option<Value<String>>>
    ensures { Gives (option_map word_of) result
        (checked_text_at (raw_members_at sources.entry.settings.now) sources.entry.machine.now
        check (map (λ k. k.now) path.now) name.now) }
{
    let set = text(alloc, sources, path, name)?;
    if_accepted(
        alloc,
        path,
        name,
        check,
        given_by(sources.machine, name),
        set,
    )
}

// A text, where the setting takes it.
fn if_accepted(
    alloc: Global,
    path: &[&str],
    name: &str,
    check: Check,
    given: Given<'_>,
    set: Option<Value<String>>,
) -> Result<Option<Value<String>>>
    ensures { Gives (option_map word_of) result
        (if_accepted (map (λ k. k.now) path.now) name.now check (given_shown given.entry)
        (option_map word_of set)) }
{
    match set {
        None => Ok(None),
        Some(word) if check.accepts(word.val.as_str()) => Ok(Some(word)),
        Some(word) => Err(misfit(alloc, path, name, check.wanted(), given, &word.definition)?),
    }
}

/// The error that a setting doesn't take a value with this definition, under what its variable gives.
///
/// # Errors
/// `NoMemory` where memory ran out.
pub(crate) fn misfit(
    alloc: Global,
    path: &[&str],
    name: &str,
    must: &'static str,
    given: Given<'_>,
    definition: &Option<Definition>,
) -> std::result::Result<Error, NoMemory>
    ensures { IfOk result (λ error. refusal_of error
        ≡ misfit (map (λ k. k.now) path.now) name.now must.now (given_shown given.entry)
        (option_map origin_of definition.now)) }
{
    match given {
        Given::Text(text) if !is_of_override(definition) => unparsed(alloc, must, name, text),
        _ => other_type(alloc, path),
    }
}

/// The error that a variable's text isn't what a line says.
///
/// # Errors
/// `NoMemory` where memory ran out.
pub(crate) fn unparsed(
    alloc: Global,
    must: &'static str,
    name: &str,
    text: &str,
) -> std::result::Result<Error, NoMemory>
    ensures { IfOk result (λ error.
        refusal_of error ≡ wrong_text name.now must.now text.now) }
{
    let found = String::from_str(alloc, text)?;
    let error = Error::new(ErrorKind::EnvParse { must, found });
    Ok(error.with_context(variable_line(alloc, name)?))
}
