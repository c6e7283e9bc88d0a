//! Environment variables, as Cargo reads them.
ghost use Rattle.std.specs.Prelude.{◌≡◌, IfOk, option_map};
ghost use Rattle.std.specs.List.{list_any};
ghost use Rattle.cc2_error.specs.Causes.{refusal_of};
ghost use Rattle.cc2_base.specs.EnvTexts.{not_text_refusal};
ghost use Rattle.cc2_cargo_settings.specs.Variables.{begins, given, given_shown, is_any_below, variable_text};

use cc2_base::machine::Machine;
use cc2_base::variable::{shown_value, variable_line};
use cc2_error::error::{Error, ErrorKind, NoMemory};
use std::alloc::Global;

/// What a variable gives.
#[derive(Clone, Copy)]
pub(crate) enum Given<'a> {
    /// It isn't set.
    Unset,
    /// This text.
    Text(&'a str),
    /// Bytes that aren't UTF-8.
    NotUtf8(&'a [u8]),
}

/// What the variable of this name gives.
pub(crate) fn given_by<'a>(machine: &'a Machine, name: &str) -> Given<'a>
    ensures { given_shown result ≡ given machine.now name.now }
{
    let Some(bytes) = machine.variable(name) else {
        return Given::Unset;
    };
    match str::from_utf8(bytes) {
        Ok(text) => Given::Text(text),
        Err(_) => Given::NotUtf8(bytes),
    }
}

/// The text of a variable: none where it isn't UTF-8. Cargo ignores such a one where it reads a list, or a variable that has no
/// key, as `RUSTC`.
pub fn variable_text<'a>(machine: &'a Machine, name: &str) -> Option<&'a str>
    ensures { option_map (λ text. text.now) result ≡ variable_text machine.now name.now }
{
    match given_by(machine, name) {
        Given::Unset => None,
        Given::Text(text) => Some(text),
        Given::NotUtf8(_) => None,
    }
}

/// The error that the value of a variable isn't UTF-8.
///
/// # Errors
/// `NoMemory` where memory ran out.
pub(crate) fn not_utf8(
    alloc: Global,
    name: &str,
    bytes: &[u8],
) -> std::result::Result<Error, NoMemory>
    ensures { IfOk result (λ error.
        refusal_of error ≡ not_text_refusal name.now bytes.now) }
{
    let shown = shown_value(alloc, name, bytes)?;
    let context = variable_line(alloc, name)?;
    Ok(Error::new(ErrorKind::EnvNotText { shown }).with_context(context))
}

/// Whether the name of a variable begins so. Where none does, the variables of the keys below are looked up without their names.
pub fn is_any_below(machine: &Machine, front: &str) -> bool
    ensures { result ≡ is_any_below machine.now front.now }
{
    any_begins(machine.env.as_slice(), front)
}

// Whether one of these names begins so.
fn any_begins(env: &[(String, Vec<u8>)], front: &str) -> bool
    ensures { result ≡ list_any (begins front.now) env.now }
{
    for entry in env {
        if begins(entry, front) {
            return true;
        }
    }
    false
}

// Whether the name of an entry begins so.
fn begins(entry: &(String, Vec<u8>), front: &str) -> bool
    ensures { result ≡ begins front.now entry.now }
{
    entry.0.as_str().starts_with(front)
}
