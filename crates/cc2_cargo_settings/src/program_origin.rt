//! Where the program of a command counts as set, from which it is relative.
ghost use Rattle.std.specs.Prelude.{◌≡◌, IfErr, IfOk, option_map};
ghost use Rattle.cc2_error.specs.Causes.{no_memory};
ghost use Rattle.cc2_value.specs.Values.{origin_of, words_of};
ghost use Rattle.cc2_cargo_settings.specs.Found.{found_view};
ghost use Rattle.cc2_cargo_settings.specs.ProgramOrigin.{first_set_at, origin_beside, origin_there};
ghost use Rattle.cc2_cargo_settings.specs.Shown.{list_view};

use crate::found::Found;
use crate::values::List;
use cc2_cargo::{Raw, is_of_override};
use cc2_error::error::{NoMemory, Result};
use cc2_value::{Definition, defined};
use std::alloc::Global;

// Where what is at a path is set, an array as a whole.
pub(crate) fn origin_there(alloc: Global, found: &Found<'_>) -> Result<Option<Definition>>
    ensures ok { IfOk result (λ origin. option_map origin_of origin
        ≡ origin_there (found_view found.now)) }
    ensures refused { IfErr result (λ e. e ≡ no_memory) }
{
    match found {
        Found::At(Raw::Single(value)) => Ok(defined(alloc, value.definition.as_ref())?),
        Found::At(Raw::Array(array)) => Ok(defined(alloc, array.definition.as_ref())?),
        _ => Ok(None),
    }
}

// Where the program counts as set beside a variable: where the command line sets what is there, else by the variable.
pub(crate) fn origin_beside(
    alloc: Global,
    name: &str,
    origin: Option<Definition>,
) -> std::result::Result<Option<Definition>, NoMemory>
    ensures { IfOk result (λ beside. option_map origin_of beside
        ≡ origin_beside name.now (option_map origin_of origin)) }
{
    if is_of_override(&origin) {
        return Ok(origin);
    }
    Ok(Some(Definition::Environment(String::from_str(alloc, name)?)))
}

// The words, if there are any, the first as if it were set there.
pub(crate) fn first_of(definition: Option<Definition>, set: Option<List>) -> Option<List>
    ensures { list_view result
        ≡ option_map (first_set_at (option_map origin_of definition)) (list_view set) }
{
    match set {
        Some(words) => Some(first_set_at(definition, words)),
        None => None,
    }
}

// The words, the first as if it were set there.
pub(crate) fn first_set_at(definition: Option<Definition>, words: List) -> List
    ensures { words_of result.items
        ≡ first_set_at (option_map origin_of definition) (words_of words.items) }
{
    let mut words = words;
    if let Some(first) = words.first_mut() {
        first.definition = definition;
    }
    words
}
