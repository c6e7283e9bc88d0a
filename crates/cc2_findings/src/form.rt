//! What the keys of a file are set to.
ghost use Rattle.std.specs.Prelude.{◌≡◌, map, string_bytes, option_map, Some};
ghost use Rattle.toml.specs.View.{view, table_view};
ghost use Rattle.cc2_findings.specs.Forms.{form_at, takes_list, takes_table, takes_single, list_form, variable_form, single_form, form_below, form_of};

use crate::at_key::member;
use crate::finding::Look;
use crate::place::Place;

/// What a key is set to, as merging takes it.
#[derive(Clone, Copy, Debug, PartialEq, Eq)]
pub enum Form {
    /// A single value: that of the nearest file is used.
    Single,
    /// A text at a key that takes a list or a table as well: that of the nearest file is used.
    Text,
    /// A list at a key that takes a text as well: those of all files are joined.
    List,
    /// A table at a key that takes a text as well: those of all files are joined.
    Table,
}

impl Look for Form {
    ghost look = { form_at };

    fn look(place: Place, key: &str, value: &toml::Value) -> Option<Form> {
        form_at(place, key, value)
    }
}

/// What a key of a table at this place is set to. None where this library doesn't read the key, where it reads a
/// table there, and for the lists that are joined and can't be texts.
pub fn form_at(place: Place, key: &str, value: &toml::Value) -> Option<Form>
    ensures { result ≡ form_at place key.now (view value.now) }
{
    if takes_list(place, key) {
        list_form(value)
    } else if takes_table(place) {
        variable_form(value)
    } else if takes_single(place, key) {
        single_form(place.below(key, value.is_table()), value)
    } else {
        None
    }
}

// Whether the key takes a text or a list of texts, and lists are joined.
fn takes_list(place: Place, key: &str) -> bool
    ensures { result ≡ takes_list place key.now }
{
    match place {
        Place::Aliases => true,
        Place::Build => matches!(key, "rustflags" | "rustdocflags" | "target"),
        Place::Target => matches!(key, "rustflags" | "rustdocflags"),
        _ => false,
    }
}

// Whether its keys take a text or a table, and tables are joined.
fn takes_table(place: Place) -> bool
    ensures { result ≡ takes_table place }
{
    matches!(place, Place::Variables)
}

// Whether the key takes a single value, if this library reads it.
fn takes_single(place: Place, key: &str) -> bool
    ensures { result ≡ takes_single place key.now }
{
    match place {
        Place::Registry => key != "global-credential-providers",
        Place::Whole => false,
        _ => !place.is_cargo_only(),
    }
}

// Of a value at a key that takes a text or a list.
fn list_form(value: &toml::Value) -> Option<Form>
    ensures { result ≡ list_form (view value.now) }
{
    if value.is_str() {
        Some(Form::Text)
    } else if value.is_array() {
        Some(Form::List)
    } else {
        None
    }
}

// Of a value at a key that takes a text or a table.
fn variable_form(value: &toml::Value) -> Option<Form>
    ensures { result ≡ variable_form (view value.now) }
{
    if value.is_str() {
        Some(Form::Text)
    } else if value.is_table() {
        Some(Form::Table)
    } else {
        None
    }
}

// Of a value at this place.
fn single_form(place: Option<Place>, value: &toml::Value) -> Option<Form>
    ensures { result ≡ single_form place (view value.now) }
{
    match place {
        Some(Place::Whole) if !value.is_table() => Some(Form::Single),
        _ => None,
    }
}

/// What a path of keys is set to in a file's table.
pub fn form_of(path: &[String], table: &toml::Table) -> Option<Form>
    ensures { result ≡ form_of (map string_bytes path.now) (table_view table.now) }
{
    match path {
        [] => None,
        [key, behind @ ..] => form_below(
            Some(Place::Config),
            key.as_str(),
            behind,
            member(table, key.as_str()),
        ),
    }
}

// What a key of a table at this place is set to, or keys after it in its value.
fn form_below(
    place: Option<Place>,
    key: &str,
    behind: &[String],
    value: Option<&toml::Value>,
) -> Option<Form>
    ensures { result ≡ form_below place key.now (map string_bytes behind.now)
        (option_map (λ v. view v.now) value.entry) }
{
    let (Some(place), Some(value)) = (place, value) else {
        return None;
    };
    match behind {
        [] => form_at(place, key, value),
        [next, rest @ ..] => form_below(
            place.below(key, true),
            next.as_str(),
            rest,
            value.get(next.as_str()),
        ),
    }
}
