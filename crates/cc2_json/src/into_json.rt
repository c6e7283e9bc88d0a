//! Values that can be shown as JSON.
ghost use Rattle.std.specs.Prelude.{◌≡◌, [], true, codes, IfOk, OnOk, is_some, option_map, string_bytes};
ghost use Rattle.serde_json.specs.Data.{object};
ghost use Rattle.serde_json.specs.Find.{get};
ghost use Rattle.serde_json.specs.View.{view, members_view};
ghost use Rattle.cc2_value.specs.Cells.{field, name};
ghost use Rattle.cc2_json.specs.Forms.{or_null, told_at};
ghost use Rattle.cc2_json.specs.Json.{IsJsonOf, is_bare, is_none_in, put_field, put_told};

use crate::Json;
use crate::form::Form;
use crate::leaf::Leaf;
use crate::plain::PlainJson;
use cc2_leaf::{
    CredentialProvider, Flags, MergeFrom, PathAndArgs, StringList, StringOrArray, Value,
};
use serde_json::{Map, json, put};
use std::alloc::{AllocError, Global};
use std::collections::BTreeMap;

/// A value whose cells are written as JSON.
pub trait IntoJson: MergeFrom {
    /// What the value shows, as JSON: that of the proper tree that has at each key path the value's cell there.
    /// None where no value is there. A table is an object even where it shows nothing.
    ///
    /// # Errors
    /// `AllocError` where memory ran out.
    fn into_json(self, alloc: Global, form: Form) -> Result<Option<Json>, AllocError>
        ensures { IfOk result (IsJsonOf form (Self.cell_at self)) };
}

/// A value of a map: it has a cell of its own, so it is shown even where nothing is below it.
pub trait JsonMember: MergeFrom {
    /// It has a cell of its own.
    ghost own: { (v : Self) → is_some (Self.MergeFrom.cell_at v []) ≡ true };
}

impl JsonMember for StringList {
    ghost use Rattle.std.specs.Prelude.{refl};

    ghost own = { λ v. refl };
}

impl JsonMember for PathAndArgs {
    ghost use Rattle.std.specs.Prelude.{refl};

    ghost own = { λ v. refl };
}

impl<T: IntoJson> IntoJson for Option<T> {
    fn into_json(self, alloc: Global, form: Form) -> Result<Option<Json>, AllocError> {
        match self {
            Some(value) => value.into_json(alloc, form),
            None => Ok(None),
        }
    }
}

/// Name by name.
impl<V: IntoJson + JsonMember> IntoJson for BTreeMap<String, V> {
    fn into_json(self, alloc: Global, form: Form) -> Result<Option<Json>, AllocError> {
        let mut members = Map::new(alloc);
        for (name, value) in self {
            let json = value.into_json(alloc, form)?;
            put_name(alloc, form, &mut members, name.as_str(), json)?;
        }
        Ok(Some(object(members)))
    }
}

impl<T: PlainJson> IntoJson for Value<T> {
    fn into_json(self, alloc: Global, form: Form) -> Result<Option<Json>, AllocError> {
        leaf_json(alloc, form, &self)
    }
}

impl IntoJson for StringOrArray {
    fn into_json(self, alloc: Global, form: Form) -> Result<Option<Json>, AllocError> {
        leaf_json(alloc, form, &self)
    }
}

impl IntoJson for Flags {
    fn into_json(self, alloc: Global, form: Form) -> Result<Option<Json>, AllocError> {
        leaf_json(alloc, form, &self)
    }
}

impl IntoJson for StringList {
    fn into_json(self, alloc: Global, form: Form) -> Result<Option<Json>, AllocError> {
        leaf_json(alloc, form, &self)
    }
}

impl IntoJson for PathAndArgs {
    fn into_json(self, alloc: Global, form: Form) -> Result<Option<Json>, AllocError> {
        leaf_json(alloc, form, &self)
    }
}

impl IntoJson for CredentialProvider {
    fn into_json(self, alloc: Global, form: Form) -> Result<Option<Json>, AllocError> {
        leaf_json(alloc, form, &self)
    }
}

/// A value that is one cell.
pub fn leaf_json<T: Leaf>(alloc: Global, form: Form, value: &T) -> Result<Option<Json>, AllocError>
    ensures { IfOk result (IsJsonOf form (T.cell_at value.now)) }
{
    match value.leaf(alloc, form) {
        Ok(json) => Ok(Some(json)),
        Err(refused) => Err(refused),
    }
}

/// An object of these members.
pub fn object(members: Map<String, Json>) -> Json
    ensures { view result ≡ object (members_view members.entries) }
{
    Json::Object(members)
}

/// Puts what is at a field's key among the members, if anything is; a token as the form has it.
pub fn put_field(
    alloc: Global,
    form: Form,
    members: &mut Map<String, Json>,
    key: &str,
    value: Option<Json>,
) -> Result<(), AllocError>
    ensures { OnOk result (members_view members.new.entries
        ≡ put_told form (field key.now) (option_map view value)
        (members_view members.old.entries)) }
{
    match value {
        Some(json) => put_value(alloc, form, members, key, json),
        None => Ok(()),
    }
}

// The same of a value; a table that shows nothing isn't written.
fn put_value(
    alloc: Global,
    form: Form,
    members: &mut Map<String, Json>,
    key: &str,
    value: Json,
) -> Result<(), AllocError>
    ensures { OnOk result (members_view members.new.entries
        ≡ put_field form key.now (view value) (members_view members.old.entries)) }
{
    if is_bare(&value) {
        Ok(())
    } else {
        put(members, alloc, key, shown(alloc, form, key, value)?)
    }
}

fn is_bare(json: &Json) -> bool
    ensures { result ≡ is_bare (view json.now) }
{
    match json.as_object() {
        Some(members) => is_none_in(members),
        None => false,
    }
}

fn is_none_in(members: &Map<String, Json>) -> bool
    ensures { result ≡ is_none_in (members_view members.now.entries) }
{
    members.is_empty()
}

/// What is written of the value at a key of a file: of a key `token` that it is redacted, unless the form has tokens. In a
/// form with origins that is an object with the value's `origin`, else the text `[REDACTED]`.
///
/// # Errors
/// `AllocError` where memory ran out.
pub fn shown(alloc: Global, form: Form, key: &str, value: Json) -> Result<Json, AllocError>
    ensures { IfOk result (λ json. view json ≡ told_at form (field key.now) (view value)) }
{
    if form.tokens || key != "token" {
        Ok(value)
    } else if form.origins {
        let origin = origin_in(&value)?;
        json!(in alloc; {"origin": origin, "redacted": true})
    } else {
        Json::try_from_str(alloc, "[REDACTED]")
    }
}

// The origin that is written with a value.
fn origin_in(value: &Json) -> Result<Json, AllocError>
    ensures { IfOk result (λ json. view json ≡ or_null (get (codes "origin") (view value.now))) }
{
    match value.get("origin") {
        Some(origin) => origin.clone(),
        None => Ok(Json::Null),
    }
}

/// Puts what is at a name that the file picks among the members, if anything is.
pub fn put_name(
    alloc: Global,
    form: Form,
    members: &mut Map<String, Json>,
    key: &str,
    value: Option<Json>,
) -> Result<(), AllocError>
    ensures { OnOk result (members_view members.new.entries
        ≡ put_told form (name key.now) (option_map view value) (members_view members.old.entries)) }
{
    match value {
        Some(json) => put(members, alloc, key, json),
        None => Ok(()),
    }
}
