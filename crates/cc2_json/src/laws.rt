//! Laws of what JSON shows.
ghost use Rattle.cc2_value.specs.Visits.{Look};
ghost use Rattle.cc2_json.specs.Json.{HasOneField, HasOneObject};
ghost use Rattle.cc2_json.specs.Reader.{HasNoFloat, HasOneJson, ObjectsAreItsJson};
ghost use Rattle.cc2_json.specs.declared.form.Form.{Form};

/// The laws that all objects of a look are equal, and that a field has one JSON of its look.
pub fn one_object()
    ensures object { (form : Form) (look : Look) → HasOneObject form look }
    ensures field { (form : Form) (look : Look) → HasOneField form look }
{}

/// The laws of a look's JSON: it is each object of the look, there is one, and it has no float.
pub fn one_json()
    ensures of_objects { (form : Form) (look : Look) → ObjectsAreItsJson form look }
    ensures one { (form : Form) (look : Look) → HasOneJson form look }
    ensures no_float { (form : Form) (look : Look) → HasNoFloat form look }
{}
