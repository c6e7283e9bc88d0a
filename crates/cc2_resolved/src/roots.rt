//! What relative values are resolved from.
ghost use Rattle.std.specs.Prelude.{◌≡◌, option_map, string_bytes};
ghost use Rattle.cc2_error.specs.Outcomes.{Gives};
ghost use Rattle.cc2_value.specs.Values.{origin_of, word_of};
ghost use Rattle.cc2_resolved.specs.Roots.{above_file, root_of, file_of, begins_with_place, has_separator, stays, root_or, under, resolved};

use cc2_base::path;
use cc2_error::error::{Error, ErrorKind, Result};
use cc2_leaf::{Definition, Value};
use std::alloc::Global;

/// What a relative text is meant as (Cargo Reference, Configuration,
/// [config-relative paths](https://doc.rust-lang.org/cargo/reference/config.html#config-relative-paths)).
#[derive(Clone, Copy, Debug, PartialEq, Eq)]
pub enum Meant {
    /// As a path.
    Path,
    /// As a path, which may begin with a place that Cargo puts in.
    BuildDir,
    /// As a program: a path where it holds a separator.
    Program,
}

/// A text, from its root where it is relative (Cargo Reference, Configuration,
/// [config-relative paths](https://doc.rust-lang.org/cargo/reference/config.html#config-relative-paths)).
///
/// # Errors
/// `ErrorKind::NoRoot` where it must be joined to a root and its definition has none, and
/// `ErrorKind::Memory`.
pub fn resolve_text(
    alloc: Global,
    directory: &str,
    meant: Meant,
    text: Value<String>,
) -> Result<String>
    ensures { Gives string_bytes result (resolved meant directory.now (word_of text)) }
{
    let Value { val, definition } = text;
    if stays_as_it_is(meant, val.as_str()) {
        return Ok(val);
    }
    resolve_at(alloc, directory, meant, val.as_str(), &definition)
}

// The same of a text that is set where this definition says.
pub(crate) fn resolve_at(
    alloc: Global,
    directory: &str,
    meant: Meant,
    text: &str,
    definition: &Option<Definition>,
) -> Result<String>
    ensures { Gives string_bytes result
        (resolved meant directory.now
        (record { text = text.now; origin = option_map origin_of definition.now })) }
{
    if stays_as_it_is(meant, text) {
        return Ok(String::from_str(alloc, text)?);
    }
    match definition {
        None => Ok(String::from_str(alloc, text)?),
        Some(definition) => join_to_root(alloc, directory, definition, text),
    }
}

// A relative text, from the root of its definition.
fn join_to_root(
    alloc: Global,
    directory: &str,
    definition: &Definition,
    text: &str,
) -> Result<String>
    ensures { Gives string_bytes result
        (under (origin_of definition.now) text.now
        (root_of directory.now (origin_of definition.now))) }
{
    let root = root_for(alloc, directory, definition, text)?;
    Ok(path::join(alloc, root, text)?)
}

// The root that a relative text of this definition is resolved from.
pub(crate) fn root_for<'a>(
    alloc: Global,
    directory: &'a str,
    definition: &'a Definition,
    text: &str,
) -> Result<&'a str>
    ensures { Gives (λ root. root.now) result
        (root_or (origin_of definition.now) text.now
        (root_of directory.now (origin_of definition.now))) }
{
    match root(directory, definition) {
        Some(root) => Ok(root),
        None => Err(Error::new(ErrorKind::NoRoot {
            file: String::from_str(alloc, file(definition))?,
            value: String::from_str(alloc, text)?,
        })),
    }
}

// The file of a definition.
fn file(definition: &Definition) -> &str
    ensures { result.now ≡ file_of (origin_of definition.now) }
{
    match definition {
        Definition::Path(path) | Definition::Cli(Some(path)) => path.as_str(),
        Definition::Environment(_) | Definition::Cli(None) => "",
    }
}

// Whether a text that is meant so stays as it is.
fn stays_as_it_is(meant: Meant, text: &str) -> bool
    ensures { result ≡ stays meant text.now }
{
    match meant {
        Meant::Path => path::is_absolute(text),
        Meant::BuildDir => path::is_absolute(text) || begins_with_a_place(text),
        Meant::Program => path::is_absolute(text) || !holds_separator(text),
    }
}

#[tactic(auto, using(std::proofs::lemmas::Str::Pattern::starts_text))]
fn begins_with_a_place(text: &str) -> bool
    ensures { result ≡ begins_with_place text.now }
{
    text.starts_with("{workspace-root}") || text.starts_with("{cargo-cache-home}")
}

// Whether a text holds `/` or `\`.
fn holds_separator(text: &str) -> bool
    ensures { result ≡ has_separator text.now }
{
    let bytes = text.as_bytes();
    bytes.contains(&b'/') || bytes.contains(&b'\\')
}

// The folder that a relative value of this definition is resolved from.
fn root<'a>(directory: &'a str, definition: &'a Definition) -> Option<&'a str>
    ensures { option_map (λ root. root.now) result
        ≡ root_of directory.now (origin_of definition.now) }
{
    match definition {
        Definition::Path(path) | Definition::Cli(Some(path)) => folder_above(path.as_str()),
        Definition::Environment(_) | Definition::Cli(None) => Some(directory),
    }
}

// The folder that holds the folder of a file.
fn folder_above(path: &str) -> Option<&str>
    ensures { option_map (λ folder. folder.now) result ≡ above_file path.now }
{
    match path::parent(path) {
        Some(folder) => path::parent(folder),
        None => None,
    }
}
