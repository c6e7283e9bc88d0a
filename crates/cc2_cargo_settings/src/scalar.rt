//! What Cargo reads at a key as a boolean or as a whole number.
ghost use Rattle.std.specs.Prelude.{◌≡◌, ℕ, List, Option, IfErr, IfOk, map, option_map};
ghost use Rattle.toml.specs.Data.{Data, boolean, integer};
ghost use Rattle.toml.specs.View.{view};
ghost use Rattle.cc2_error.specs.Causes.{no_memory};
ghost use Rattle.cc2_error.specs.Outcomes.{Gives};
ghost use Rattle.cc2_cargo.specs.Raw.{own_cell, raw_members_at};
ghost use Rattle.cc2_cargo.specs.declared.raw.Raw.{out-Raw};
ghost use Rattle.cc2_cargo_settings.specs.Cells.{read_as};
ghost use Rattle.cc2_cargo_settings.specs.Found.{lookup_at};
ghost use Rattle.cc2_cargo_settings.specs.Scalars.{flag_at, flag_of_data, flag_of_text, if_fits, int64_text, number_at, number_of_data};
ghost use Rattle.cc2_cargo_settings.specs.Scalars.{number_of_text, parsed, scalar_at, scalar_of_cell, scalar_view, unless_override, with_given};
ghost use Rattle.cc2_cargo_settings.specs.Variables.{given_shown};
ghost use Rattle.cc2_value.specs.SingleTexts.{truth_text};

use crate::cell::other_type;
use crate::check::{Width, misfit, unparsed};
use crate::found::{Found, find};
use crate::sources::Sources;
use crate::variable::{Given, given_by, not_utf8};
use cc2_cargo::{Raw, is_of_override};
use cc2_error::error::Result;
use cc2_value::{Definition, Value, defined};
use std::alloc::Global;
use std::collections::BTreeMap;

/// The boolean at a path: that of the command line, else that of its variable, else that of the nearest file (Cargo
/// Reference, Configuration,
/// [environment variables](https://doc.rust-lang.org/cargo/reference/config.html#environment-variables)). None where nothing
/// is set.
///
/// # Errors
/// `ErrorKind::ParseFile` with the path where something else is there, `ErrorKind::EnvParse` where the variable is neither
/// `true` nor `false`, even if the command line sets the boolean, `ErrorKind::EnvNotText` where nothing but a variable that
/// isn't UTF-8 is set, and `ErrorKind::Memory`.
pub(crate) fn flag(
    alloc: Global,
    sources: Sources<'_>,
    path: &[&str],
    name: &str,
) -> Result<Option<Value<bool>>>
    ensures { Gives (option_map (scalar_view boolean)) result
        (flag_at (raw_members_at sources.entry.settings.now) sources.entry.machine.now
        (map (λ k. k.now) path.now) name.now) }
{
    read_scalar(alloc, sources, "must be true or false", path, name)
}

/// The whole number at a path, in the range of its setting: that of the command line, else that of its variable, else that of
/// the nearest file (Cargo Reference, Configuration,
/// [environment variables](https://doc.rust-lang.org/cargo/reference/config.html#environment-variables)). None where nothing
/// is set.
///
/// # Errors
/// `ErrorKind::ParseFile` with the path where something else is there, `ErrorKind::EnvParse` where the variable isn't a whole
/// number, even if the command line sets the number, and `ErrorKind::EnvNotText` where nothing but a variable that isn't
/// UTF-8 is set. Outside of the range, `ErrorKind::EnvParse` if the variable sets it, else `ErrorKind::ParseFile`.
/// `ErrorKind::Memory`.
pub(crate) fn number(
    alloc: Global,
    sources: Sources<'_>,
    width: Width,
    path: &[&str],
    name: &str,
) -> Result<Option<Value<i64>>>
    ensures { Gives (option_map (scalar_view integer)) result
        (number_at (raw_members_at sources.entry.settings.now) sources.entry.machine.now width
        (map (λ k. k.now) path.now) name.now) }
{
    let set = read_scalar(alloc, sources, width.wanted(), path, name)?;
    if_fits(
        alloc,
        path,
        name,
        width,
        given_by(sources.machine, name),
        set,
    )
}

// A number, where it is in the range of its setting.
fn if_fits(
    alloc: Global,
    path: &[&str],
    name: &str,
    width: Width,
    given: Given<'_>,
    set: Option<Value<i64>>,
) -> Result<Option<Value<i64>>>
    ensures { Gives (option_map (scalar_view integer)) result
        (if_fits (map (λ k. k.now) path.now) name.now width (given_shown given.entry)
        (option_map (scalar_view integer) set)) }
{
    match set {
        None => Ok(None),
        Some(number) if width.has(number.val) => Ok(Some(number)),
        Some(number) => Err(misfit(alloc, path, name, width.wanted(), given, &number.definition)?),
    }
}

// A type of single values: how each is read of TOML and of a variable.
trait Scalar: Drop {
    // How TOML has it.
    ghost shown: { Self → Data };

    // What is read of a TOML value.
    ghost of_data: { Data → Option Data };

    // What is read of a variable's text.
    ghost of_text: { List ℕ → Option Data };

    // Reads a TOML value; none where it is of another type.
    fn from_toml(value: &toml::Value) -> Option<Self>
        ensures { option_map shown result ≡ of_data (view value.now) };

    // Reads a variable's text; none where it isn't such a value.
    fn from_text(text: &str) -> Option<Self>
        ensures { option_map shown result ≡ of_text text.now };
}

impl Scalar for bool {
    ghost shown = { boolean };

    ghost of_data = { flag_of_data };

    ghost of_text = { flag_of_text };

    fn from_toml(value: &toml::Value) -> Option<bool> {
        value.as_bool()
    }

    fn from_text(text: &str) -> Option<bool> {
        truth_of_text(text)
    }
}

impl Scalar for i64 {
    ghost shown = { integer };

    ghost of_data = { number_of_data };

    ghost of_text = { number_of_text };

    fn from_toml(value: &toml::Value) -> Option<i64> {
        value.as_integer()
    }

    fn from_text(text: &str) -> Option<i64> {
        int64_of_text(text)
    }
}

/// The boolean that a text names.
pub(crate) fn truth_of_text(text: &str) -> Option<bool>
    ensures { result ≡ truth_text text.now }
{
    match text {
        "true" => Some(true),
        "false" => Some(false),
        _ => None,
    }
}

/// The whole number in the range of an `i64` that a text writes: decimal digits, which may follow a `+` or a `-`.
pub(crate) fn int64_of_text(text: &str) -> Option<i64>
    ensures { result ≡ int64_text text.now }
{
    text.parse::<i64>().ok()
}

// The value at a path: that of the command line, else that of its variable, else that of files.
fn read_scalar<T: Scalar>(
    alloc: Global,
    sources: Sources<'_>,
    must: &'static str,
    path: &[&str],
    name: &str,
) -> Result<Option<Value<T>>>
    ensures { Gives (option_map (scalar_view T.shown)) result
        (scalar_at (raw_members_at sources.entry.settings.now) sources.entry.machine.now
        T.of_data T.of_text must.now (map (λ k. k.now) path.now) name.now) }
{
    let set = scalar_set(alloc, sources.settings, path)?;
    with_given(alloc, must, name, given_by(sources.machine, name), set)
}

// What is there, with what a variable sets.
fn with_given<T: Scalar>(
    alloc: Global,
    must: &'static str,
    name: &str,
    given: Given<'_>,
    set: Option<Value<T>>,
) -> Result<Option<Value<T>>>
    ensures { Gives (option_map (scalar_view T.shown)) result
        (with_given T.of_text must.now name.now (given_shown given.entry)
        (option_map (scalar_view T.shown) set)) }
{
    match given {
        Given::Unset => Ok(set),
        Given::Text(text) => {
            let value = scalar_of_text(alloc, must, name, text)?;
            Ok(Some(unless_override(set, value)))
        }
        Given::NotUtf8(bytes) => match set {
            Some(set) => Ok(Some(set)),
            None => Err(not_utf8(alloc, name, bytes)?),
        },
    }
}

// The value that files and the command line have at a path; none where nothing is there.
fn scalar_set<T: Scalar>(
    alloc: Global,
    settings: &BTreeMap<String, Raw>,
    path: &[&str],
) -> Result<Option<Value<T>>>
    ensures { let keys = map (λ k. k.now) path.now in
        Gives (option_map (scalar_view T.shown)) result
        (read_as (scalar_of_cell T.of_data) keys (lookup_at (raw_members_at settings.now) keys)) }
{
    match find(settings, path) {
        Found::Nowhere => Ok(None),
        Found::At(raw) => match scalar_in(alloc, raw)? {
            Some(value) => Ok(Some(value)),
            None => Err(other_type(alloc, path)?),
        },
        Found::Blocked => Err(other_type(alloc, path)?),
    }
}

// A single value of this type; none of anything else.
fn scalar_in<T: Scalar>(alloc: Global, raw: &Raw) -> Result<Option<Value<T>>>
    ensures value { IfOk result (λ value. option_map (scalar_view T.shown) value
        ≡ scalar_of_cell T.of_data (own_cell (out-Raw raw.now))) }
    ensures refused { IfErr result (λ e. e ≡ no_memory) }
{
    match raw {
        Raw::Single(value) => match T::from_toml(&value.val) {
            Some(val) => Ok(Some(Value {
                val,
                definition: defined(alloc, value.definition.as_ref())?,
            })),
            None => Ok(None),
        },
        Raw::Array(_) => Ok(None),
        Raw::Table(_) => Ok(None),
    }
}

// The value of a variable.
//
// # Errors
// `ErrorKind::EnvParse` where its text isn't one.
fn scalar_of_text<T: Scalar>(
    alloc: Global,
    must: &'static str,
    name: &str,
    text: &str,
) -> Result<Value<T>>
    ensures { Gives (scalar_view T.shown) result
        (parsed must.now name.now text.now (T.of_text text.now)) }
{
    match T::from_text(text) {
        Some(val) => Ok(Value {
            val,
            definition: Some(Definition::Environment(String::from_str(alloc, name)?)),
        }),
        None => Err(unparsed(alloc, must, name, text)?),
    }
}

// The variable's value, unless the command line sets the one that is there.
fn unless_override<T: Scalar>(set: Option<Value<T>>, value: Value<T>) -> Value<T>
    ensures { scalar_view T.shown result
        ≡ unless_override (option_map (scalar_view T.shown) set) (scalar_view T.shown value) }
{
    match set {
        Some(set) if is_of_override(&set.definition) => set,
        _ => value,
    }
}
