//! The folders from which relative values of the table `env` are seen.
ghost use Rattle.std.specs.Prelude.{◌≡◌, Some, option_map, string_bytes};
ghost use Rattle.cc2_error.specs.Outcomes.{Gives};
ghost use Rattle.cc2_value.specs.Copies.{origin_given};
ghost use Rattle.cc2_value.specs.Values.{origin_of};
ghost use Rattle.cc2_cargo_settings.specs.EnvEntries.{folder_of_file, file_in, root_for, joined_to};

use cc2_base::path::{join, parent};
use cc2_error::error::{Error, ErrorKind, Result};
use cc2_value::Definition;
use std::alloc::Global;

/// A text, seen from the folder above that of the file where it is set; from the directory, where no file sets it.
///
/// # Errors
/// `ErrorKind::NoRoot` where the file has no such folder, and `ErrorKind::Memory`.
pub(crate) fn seen_from_root(
    alloc: Global,
    dir: &str,
    place: Option<&Definition>,
    text: &str,
) -> Result<String>
    ensures { let origin = origin_given place.entry in Gives string_bytes result
        (joined_to origin text.now (root_for dir.now origin)) }
{
    match root(dir, place) {
        Some(root) => Ok(join(alloc, root, text)?),
        None => Err(Error::new(ErrorKind::NoRoot {
            file: String::from_str(alloc, file(place))?,
            value: String::from_str(alloc, text)?,
        })),
    }
}

// The folder from which it is seen.
fn root<'a>(dir: &'a str, place: Option<&'a Definition>) -> Option<&'a str>
    ensures { option_map (λ root. root.now) result ≡ root_for dir.now (origin_given place.entry) }
{
    match place {
        None => Some(dir),
        Some(definition) => root_at(dir, definition),
    }
}

fn root_at<'a>(dir: &'a str, definition: &'a Definition) -> Option<&'a str>
    ensures { option_map (λ root. root.now) result
        ≡ root_for dir.now (Some (origin_of definition.now)) }
{
    match definition {
        Definition::Path(path) | Definition::Cli(Some(path)) => folder_above(path.as_str()),
        Definition::Environment(_) | Definition::Cli(None) => Some(dir),
    }
}

// The folder that holds the folder of a file.
fn folder_above(path: &str) -> Option<&str>
    ensures { option_map (λ folder. folder.now) result ≡ folder_of_file path.now }
{
    match parent(path) {
        Some(folder) => parent(folder),
        None => None,
    }
}

// The file where it is set.
fn file<'a>(place: Option<&'a Definition>) -> &'a str
    ensures { result.now ≡ file_in (origin_given place.entry) }
{
    match place {
        None => "",
        Some(definition) => file_at(definition),
    }
}

fn file_at(definition: &Definition) -> &str
    ensures { result.now ≡ file_in (Some (origin_of definition.now)) }
{
    match definition {
        Definition::Path(path) | Definition::Cli(Some(path)) => path.as_str(),
        Definition::Environment(_) | Definition::Cli(None) => "",
    }
}
