//! Values of the table `env`.
ghost use Rattle.std.specs.Prelude.{◌≡◌, ◌∷◌, [], codes, IfOk, OnOk, IfErr};
ghost use Rattle.cc2_value.specs.Cells.{field, IsPointwise};
ghost use Rattle.cc2_value.specs.Refusals.{IsRefused};
ghost use Rattle.cc2_value.specs.Singles.{truth_value};
ghost use Rattle.cc2_value.specs.Ways.{ill_typed, IsFaultBehind};
ghost use Rattle.cc2_leaf.specs.Env.{env_at};

use crate::text_copies::copied_text;
use crate::texts::text_at;
use cc2_error::error::{Error, NoMemory, Result, Shape};
use cc2_value::{
    Decode, Definition, Fields, MergeFrom, Table, Take, TryClone, Value, Visit, VisitAlone,
    VisitRef, Visited, each, each_alone, each_ref, each_taken, mixed, wrong_type,
};
use serde::Serialize;
use std::alloc::Global;
use std::mem::swap;

/// A value of the table `env` (Cargo Reference, Configuration,
/// [`[env]`](https://doc.rust-lang.org/cargo/reference/config.html#env)). It is serialized as a
/// text, or as a table without what is absent.
#[derive(Debug, Drop, Serialize)]
#[serde(untagged)]
pub enum EnvConfigValue {
    /// A text.
    Value(Value<String>),
    /// A table.
    Table {
        /// The variable's value (Cargo Reference, Configuration,
        /// [`[env]`](https://doc.rust-lang.org/cargo/reference/config.html#env)).
        value: Value<String>,
        /// Whether it overrides one that the environment has (Cargo Reference, Configuration,
        /// [`[env]`](https://doc.rust-lang.org/cargo/reference/config.html#env)).
        #[serde(skip_serializing_if = "Option::is_none")]
        force: Option<Value<bool>>,
        /// Whether the value is a path relative to the file's root (Cargo Reference, Configuration,
        /// [`[env]`](https://doc.rust-lang.org/cargo/reference/config.html#env)).
        #[serde(skip_serializing_if = "Option::is_none")]
        relative: Option<Value<bool>>,
    },
}

// The fields of a table.
#[derive(Default, Drop)]
struct EnvTable {
    value: Option<Value<String>>,
    force: Option<Value<bool>>,
    relative: Option<Value<bool>>,
}

macro_rules! fields {
    ($each:ident!($($head:tt)*)) => {
        $each!($($head)*; "value" value, "force" force, "relative" relative)
    };
}

impl Fields for EnvTable {
    ghost use Rattle.std.specs.Prelude.{refl};
    ghost use Rattle.cc2_leaf.specs.Env.{env_fields};

    ghost fields = { env_fields };

    fn absent(_alloc: Global) -> EnvTable {
        EnvTable::default()
    }

    fn each<V: Visit>(&mut self, other: &mut EnvTable, visit: &V) -> Visited {
        fields!(each!(visit, self, other))
    }

    fn each_ref<V: VisitRef>(&self, copy: &mut EnvTable, visit: &V) -> Result<()> {
        fields!(each_ref!(visit, self, copy))
    }

    fn each_alone<V: VisitAlone>(&mut self, visit: &V) -> std::result::Result<(), NoMemory> {
        fields!(each_alone!(visit, self))
    }

    fn each_taken<V: Take>(&mut self, visit: &mut V) {
        fields!(each_taken!(visit, self))
    }

    ghost distinct = { refl };
}

impl Table for EnvTable {
    ghost use Rattle.std.specs.Prelude.{true};

    ghost member = { true };
}

/// Of two texts the stronger takes precedence, two tables merge field by field.
impl MergeFrom for EnvConfigValue {
    ghost use Rattle.cc2_leaf.specs.Env.{env_at};

    ghost cell_at = { env_at };

    fn gather(&mut self, alloc: Global, low: &mut EnvConfigValue) -> Result<()> {
        merge_variables(alloc, self, low)
    }

    #[tactic(auto, using(crate::proofs::Envs::same_reversed))]
    fn reverse_lists(&mut self, _alloc: Global) -> std::result::Result<(), NoMemory> {
        Ok(())
    }

    #[tactic(auto, using(crate::proofs::Envs::unlisted))]
    fn has_lists() -> bool {
        false
    }
}

// Merges a weaker value, which is taken.
fn merge_variables(alloc: Global, high: &mut EnvConfigValue, low: &mut EnvConfigValue) -> Result<()>
    ensures ok { OnOk result (IsPointwise env_at (high.old ∷ low.old ∷ []) high.new) }
    ensures refused { IfErr result (IsRefused env_at (high.old ∷ low.old ∷ [])) }
{
    match (high, low) {
        (EnvConfigValue::Value(_), EnvConfigValue::Value(_)) => Ok(()),
        (
            EnvConfigValue::Table {
                value: _,
                force,
                relative,
            },
            EnvConfigValue::Table {
                value: _,
                force: low_force,
                relative: low_relative,
            },
        ) => {
            keep_first(force, low_force);
            keep_first(relative, low_relative);
            Ok(())
        }
        (EnvConfigValue::Value(_), EnvConfigValue::Table { .. }) => {
            Err(mixed(alloc, Shape::String, Shape::Table))
        }
        (EnvConfigValue::Table { .. }, EnvConfigValue::Value(_)) => {
            Err(mixed(alloc, Shape::Table, Shape::String))
        }
    }
}

// Takes the weaker value where there is none.
fn keep_first(high: &mut Option<Value<bool>>, low: &mut Option<Value<bool>>)
    ensures { IsPointwise truth_value (high.old ∷ low.old ∷ []) high.new }
{
    if high.is_none() {
        swap(high, low);
    }
}

/// A text, or a table with a value.
impl Decode for EnvConfigValue {
    ghost use Rattle.cc2_leaf.specs.Env.{env_way};

    ghost way = { env_way };

    fn read(
        alloc: Global,
        value: toml::Value,
        key: &str,
        definition: Option<&Definition>,
    ) -> Result<EnvConfigValue> {
        if let Some(text) = value.as_str() {
            return Ok(EnvConfigValue::Value(text_at(alloc, text, definition)?));
        }
        match EnvTable::read(alloc, value, key, definition) {
            Err(error) => Err(error),
            Ok(table) => {
                let EnvTable {
                    value,
                    force,
                    relative,
                } = table;
                match value {
                    None => Err(no_value(alloc, key)),
                    Some(value) => Ok(EnvConfigValue::Table {
                        value,
                        force,
                        relative,
                    }),
                }
            }
        }
    }
}

// The refusal of a table at this key that has no value.
fn no_value(alloc: Global, key: &str) -> Error
    ensures { IsFaultBehind (key.now ∷ []) ((field (codes "value") ∷ [], ill_typed) ∷ []) result }
{
    wrong_type(alloc, "value").below(alloc, key)
}

impl TryClone for EnvConfigValue {
    ghost use Rattle.cc2_leaf.specs.Env.{env_at};

    ghost shown = { env_at };

    fn copied(&self, alloc: Global, definition: Option<&Definition>) -> Result<EnvConfigValue> {
        match self {
            EnvConfigValue::Value(text) => {
                let text = copied_text(alloc, text, definition)?;
                Ok(EnvConfigValue::Value(text))
            }
            EnvConfigValue::Table {
                value,
                force,
                relative,
            } => {
                let value = value.copied(alloc, definition)?;
                let force = force.copied(alloc, definition)?;
                let relative = relative.copied(alloc, definition)?;
                Ok(EnvConfigValue::Table {
                    value,
                    force,
                    relative,
                })
            }
        }
    }
}
