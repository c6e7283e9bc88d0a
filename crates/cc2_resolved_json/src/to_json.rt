//! What is resolved, as JSON: settings, and maps name by name.
ghost use Rattle.std.specs.Prelude.{◌≡◌, [], true, Option, IfOk, is_some, map};
ghost use Rattle.serde_json.specs.Data.{array};
ghost use Rattle.serde_json.specs.View.{view, items_of};
ghost use Rattle.cc2_value.specs.Cells.{KeyPath};
ghost use Rattle.cc2_json.specs.Json.{IsJsonOf};
ghost use Rattle.cc2_resolved.specs.Answers.{Answer};
ghost use Rattle.cc2_resolved.specs.Rows.{names_at};
ghost use Rattle.cc2_resolved_json.specs.Plain.{plain_at, without_origins};

use crate::form::without_origins;
use crate::leaf::PlainValue;
use crate::provider::each_json;
use crate::words::{command_json, texts_json};
use cc2_error::path_and_args::PathAndArgs;
use cc2_json::{Json, object, put_name};
use cc2_resolved::provider::GlobalCredentialProviders;
use cc2_resolved::string_list::StringList;
use serde_json::Map;
use std::alloc::{AllocError, Global};
use std::collections::BTreeMap;

/// What is written as JSON once it is resolved: a table, or what is at a key of one.
pub trait ToJson {
    /// What is written: the answer at each key path.
    ghost shown: { Self → KeyPath → Option Answer };

    /// The same where it is a member of a map.
    ghost member: { Self → KeyPath → Option Answer };

    /// The JSON of a tree that has at each key path the plain cell of what is shown there. None where no
    /// value is there. A table is an object even where it shows nothing.
    ///
    /// # Errors
    /// `AllocError` where memory ran out.
    fn to_json(&self, alloc: Global, tokens: bool) -> Result<Option<Json>, AllocError>
        ensures shown { IfOk result
            (IsJsonOf (without_origins tokens) (plain_at (shown self.now))) }
        ensures member { IfOk result
            (IsJsonOf (without_origins tokens) (plain_at (member self.now))) };
}

/// What is shown at a name of a map: it has a cell of its own.
pub trait PlainMember: ToJson {
    /// It has a cell of its own.
    ghost own: { (v : Self) → is_some (plain_at (Self.ToJson.member v) []) ≡ true };
}

impl PlainMember for StringList {
    ghost use Rattle.std.specs.Prelude.{refl};

    ghost own = { λ v. refl };
}

impl PlainMember for PathAndArgs {
    ghost use Rattle.std.specs.Prelude.{refl};

    ghost own = { λ v. refl };
}

/// A setting, where there is one.
impl<T: PlainValue> ToJson for Option<T> {
    ghost use Rattle.std.specs.Prelude.{option_map};
    ghost use Rattle.cc2_resolved.specs.Answers.{shown_at};

    ghost shown = { λ o. shown_at (option_map T.answer o) };

    ghost member = { λ o. shown_at (option_map T.answer o) };

    fn to_json(&self, alloc: Global, _tokens: bool) -> Result<Option<Json>, AllocError> {
        match self {
            None => Ok(None),
            Some(value) => Ok(Some(value.plain_json(alloc)?)),
        }
    }
}

/// An array of the providers; none where there is none.
impl ToJson for GlobalCredentialProviders {
    ghost use Rattle.cc2_resolved.specs.Answers.{providers_answer, shown_at};

    ghost shown = { λ g. shown_at (providers_answer g) };

    ghost member = { λ g. shown_at (providers_answer g) };

    fn to_json(&self, alloc: Global, _tokens: bool) -> Result<Option<Json>, AllocError> {
        if self.is_empty() {
            return Ok(None);
        }
        Ok(Some(array(each_json(alloc, self.as_ref())?)))
    }
}

impl ToJson for StringList {
    ghost use Rattle.cc2_resolved.specs.Answers.{list_answer};
    ghost use Rattle.cc2_resolved.specs.Rows.{answer_at};

    ghost shown = { answer_at list_answer };

    ghost member = { answer_at list_answer };

    fn to_json(&self, alloc: Global, _tokens: bool) -> Result<Option<Json>, AllocError> {
        Ok(Some(texts_json(alloc, self.list.as_slice())?))
    }
}

impl ToJson for PathAndArgs {
    ghost use Rattle.cc2_resolved.specs.Answers.{command_answer};
    ghost use Rattle.cc2_resolved.specs.Rows.{answer_at};

    ghost shown = { answer_at command_answer };

    ghost member = { answer_at command_answer };

    fn to_json(&self, alloc: Global, _tokens: bool) -> Result<Option<Json>, AllocError> {
        Ok(Some(command_json(alloc, self)?))
    }
}

/// Name by name.
impl<V: PlainMember> ToJson for BTreeMap<String, V> {
    ghost use Rattle.cc2_resolved.specs.Rows.{names_at};

    ghost shown = { names_at V.member };

    ghost member = { names_at V.member };

    fn to_json(&self, alloc: Global, tokens: bool) -> Result<Option<Json>, AllocError> {
        names_json(alloc, tokens, self)
    }
}

// An object of a map's values, each at its name.
fn names_json<V: PlainMember>(
    alloc: Global,
    tokens: bool,
    map: &BTreeMap<String, V>,
) -> Result<Option<Json>, AllocError>
    ensures { IfOk result (IsJsonOf (without_origins tokens)
        (plain_at (names_at V.member map.now))) }
{
    let mut members = Map::new(alloc);
    for (name, value) in map.iter() {
        let json = value.to_json(alloc, tokens)?;
        put_name(
            alloc,
            without_origins(tokens),
            &mut members,
            name.as_str(),
            json,
        )?;
    }
    Ok(Some(object(members)))
}

fn array(items: Vec<Json>) -> Json
    ensures { view result ≡ array (items_of (map view items.items)) }
{
    Json::Array(items)
}
