//! The lint, the message and the help of a finding at a key.
ghost use Rattle.std.specs.Prelude.{◌≡◌, map, string_bytes};
ghost use Rattle.cc2_lint.specs.Subjects.{is_below_cfg, lint_for};

use crate::values::value_at;
use cc2_error::error::NoMemory;
use cc2_findings::{Kind, unknown_variable};
use cc2_reports::{Lint, dotted, is_short};
use std::alloc::Global;

/// The lint of a finding at the last key of a path.
pub fn lint_for(path: &[String], kind: Kind) -> Lint
    ensures { result ≡ lint_for (map string_bytes path.now) kind }
{
    match kind {
        Kind::UnknownKey => Lint::UnknownKey,
        Kind::CargoOnly => {
            if is_below_cfg(path) {
                Lint::IgnoredKey
            } else {
                Lint::CargoOnly
            }
        }
        Kind::IgnoredDocFlags => Lint::IgnoredKey,
        Kind::HiddenAlias => Lint::ShadowedAlias,
        Kind::ZeroJobs => Lint::ZeroJobs,
        Kind::NoLocation => Lint::SourceWithoutLocation,
        Kind::ManyLocations => Lint::SourceWithLocations,
        Kind::Token => Lint::Token,
        Kind::QuotedTriple => Lint::QuotedTriple,
        Kind::OtherSpace => Lint::IgnoredCfg,
        Kind::RemovedKey => Lint::RemovedKey,
        Kind::TextInclude => Lint::BadInclude,
        Kind::EmptyDirectory => Lint::EmptyPath,
        Kind::BadTemplate => Lint::BadTemplate,
        Kind::EmptyWrapper => Lint::EmptyWrapper,
        Kind::JsonTarget => Lint::JsonTarget,
        Kind::QuietAndVerbose => Lint::QuietAndVerbose,
    }
}

// Whether the path leads to a key of a `cfg(..)` table.
fn is_below_cfg(path: &[String]) -> bool
    ensures { result ≡ is_below_cfg (map string_bytes path.now) }
{
    match path {
        [table, key, _] => table.as_str() == "target" && key.as_str().starts_with("cfg("),
        _ => false,
    }
}

/// The message of a finding of a lint about the last key of a path.
///
/// # Errors
/// `NoMemory` where memory ran out.
pub fn message_of(
    alloc: Global,
    path: &[String],
    lint: Lint,
    kind: Kind,
    table: &toml::Table,
) -> Result<String, NoMemory> {
    let shown = dotted(alloc, path)?;
    let key = shown.as_str();
    let last = match path.last() {
        Some(last) => last.as_str(),
        None => "",
    };
    if lint == Lint::IgnoredKey {
        return Ok(format!(in alloc; "Cargo ignores `{last}` in a `cfg(..)` table")?);
    }
    let message = match kind {
        Kind::UnknownKey | Kind::IgnoredDocFlags => format!(in alloc; "unknown key `{key}`")?,
        Kind::CargoOnly if is_unstable(key) => {
            format!(in alloc;
                "`{key}` is an unstable key of Cargo, which this library doesn't read"
            )?
        }
        Kind::CargoOnly => format!(in alloc; "Cargo reads `{key}`, and this library doesn't")?,
        Kind::HiddenAlias => {
            format!(in alloc; "the alias `{last}` is shadowed by Cargo's own command")?
        }
        Kind::ZeroJobs => format!(in alloc; "`{key}` can't be 0")?,
        Kind::NoLocation => format!(in alloc; "the source `{last}` has no location")?,
        Kind::ManyLocations => format!(in alloc; "the source `{last}` has more than one location")?,
        Kind::QuotedTriple => {
            format!(in alloc;
                "Cargo ignores the quoted triple `{last}`, and this library reads it"
            )?
        }
        Kind::RemovedKey => format!(in alloc; "Cargo no longer supports `{key}`")?,
        Kind::EmptyDirectory | Kind::EmptyWrapper => format!(in alloc; "`{key}` is empty")?,
        Kind::BadTemplate => template_text(alloc, value_at(path, table))?,
        Kind::Token => String::from_str(alloc, "this file contains a token")?,
        Kind::OtherSpace => {
            String::from_str(alloc, "this `cfg(..)` has white space other than spaces")?
        }
        Kind::TextInclude => String::from_str(alloc, "expected an array, found a string")?,
        Kind::JsonTarget => {
            String::from_str(alloc, "stable Cargo refuses a target specification file")?
        }
        Kind::QuietAndVerbose => {
            String::from_str(alloc, "`term.quiet` and `term.verbose` can't both be true")?
        }
    };
    Ok(message)
}

/// What helps with a finding of a lint; empty if nothing does.
pub fn help_of(lint: Lint) -> &'static str {
    match lint {
        Lint::ZeroJobs | Lint::BadInclude | Lint::EmptyPath | Lint::QuietAndVerbose => {
            "Cargo refuses it"
        }
        Lint::SourceWithoutLocation => {
            "Cargo refuses a source without `registry`, `local-registry`, `directory` or `git`"
        }
        Lint::SourceWithLocations => {
            "Cargo refuses it; keep one of `registry`, `local-registry`, `directory` and `git`"
        }
        Lint::Token => "`cargo login` keeps the token in the cargo home",
        Lint::QuotedTriple => "without the quotes both read it",
        Lint::IgnoredCfg => "Cargo ignores the table; this library reads it",
        Lint::RemovedKey => "Cargo refuses it; use source replacement instead",
        Lint::BadTemplate => {
            "Cargo refuses it; it knows `{workspace-root}`, `{cargo-cache-home}` and `{workspace-path-hash}`"
        }
        Lint::EmptyWrapper => {
            "Cargo uses no wrapper; this library and cargo-config2 0.1.45 run an empty command"
        }
        Lint::JsonTarget => "nightly Cargo accepts it with `-Zjson-target-spec`",
        _ => "",
    }
}

// What is wrong in a path with a brace outside of Cargo's template variables.
fn template_text(alloc: Global, value: Option<&toml::Value>) -> Result<String, NoMemory> {
    match value
        .and_then(|value| value.as_str())
        .and_then(unknown_variable)
    {
        Some(name) if is_short(name) => {
            Ok(format!(in alloc; "unknown template variable `{name}`")?)
        }
        _ => Ok(String::from_str(
            alloc,
            "this path has a brace outside of a template variable",
        )?),
    }
}

// Whether Cargo 1.95 reads the key only where an unstable feature is on.
fn is_unstable(key: &str) -> bool {
    match key {
        "build.artifact-dir"
        | "build.sbom"
        | "doc.extern-map"
        | "host"
        | "path-bases"
        | "target-applies-to-host" => true,
        _ => false,
    }
}
