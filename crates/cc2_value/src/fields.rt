//! The fields of a table: they are named once, each with its key, and visited one after another.
ghost use Rattle.std.specs.Prelude.{ℕ, List, IsTrue, OnOk, IfErr};
ghost use Rattle.cc2_error.specs.declared.error.Error.{Error};
ghost use Rattle.cc2_value.specs.Rows.{are_distinct, keys_of_fields};
ghost use Rattle.cc2_value.specs.Shown.{Field};
ghost use Rattle.cc2_value.specs.Taking.{IsTaken, AllTaken};
ghost use Rattle.cc2_value.specs.Visits.{Look, IsMade, IsGiven, AllMade, AllGiven, IsRefusedAt, FieldsAbsent};
ghost use Rattle.cc2_value.specs.Ways.{Way};

use crate::part::Part;
use cc2_error::error::{Error, NoMemory, Result};
use std::alloc::Global;

/// The field at which a visit ended, and why.
#[derive(Debug, Drop)]
pub struct Refused {
    /// The field's key.
    pub key: &'static str,
    /// Why it was refused.
    pub error: Error,
}

/// What a visit to all fields answers.
pub type Visited = std::result::Result<(), Refused>;

/// What is done to each field of a table, beside the same field of another.
pub trait Visit: Drop {
    /// What is made of a field: by its key, its way, its cells, the other's, and its new cells.
    ghost makes: { Self → List ℕ → Way → Look → Look → Look → Type 0 };

    /// Why a field is refused: by its key, its way, its cells and the other's.
    ghost refuses: { Self → List ℕ → Way → Look → Look → Error → Type 0 };

    /// Visits the field at a key.
    fn field<T: Part>(&self, key: &str, own: &mut T, other: &mut T) -> Result<()>
        ensures ok { OnOk result (IsMade (makes self.now) key.now T.way (T.cell_at own.old)
            (T.cell_at other.old) (T.cell_at own.new)) }
        ensures refused { IfErr result
            (refuses self.now key.now T.way (T.cell_at own.old) (T.cell_at other.old)) };
}

/// What is done to each field of a table, by reference, beside the same field of a copy.
pub trait VisitRef: Drop {
    /// What is made of a field: by its cells and the copy's new ones.
    ghost gives: { Self → Look → Look → Type 0 };

    /// Why a field is refused.
    ghost fails: { Self → Error → Type 0 };

    /// Visits a field.
    fn field<T: Part>(&self, own: &T, copy: &mut T) -> Result<()>
        ensures ok { OnOk result (IsGiven (gives self.now) (T.shown own.now) (T.shown copy.new)) }
        ensures refused { IfErr result (fails self.now) };
}

/// What is done to each field of a table alone.
pub trait VisitAlone: Drop {
    /// What is made of a field: by its cells and its new ones.
    ghost gives: { Self → Look → Look → Type 0 };

    /// Visits a field. Fails only if memory runs out.
    fn field<T: Part>(&self, own: &mut T) -> std::result::Result<(), NoMemory>
        ensures { OnOk result (IsGiven (gives self.now) (T.cell_at own.old) (T.cell_at own.new)) };
}

/// A visitor that changes as it goes, as one that takes each field's value out of a TOML table.
pub trait Take: Drop {
    /// What is made of a field: by the visitor before, its key, its way, its new cells, and the visitor after.
    ghost takes: { Self → List ℕ → Way → Look → Self → Type 0 };

    /// Visits the field at a key. A visitor that has refused one leaves the others as they are.
    fn field<T: Part>(&mut self, key: &str, own: &mut T)
        ensures { IsTaken takes self.old key.now T.way (T.cell_at own.new) self.new };
}

/// A struct whose fields are at keys of a table.
pub trait Fields: Drop {
    /// Its fields.
    ghost fields: { List (Field Self) };

    /// The struct without a value. It takes no memory.
    fn absent(alloc: Global) -> Self
        ensures { FieldsAbsent fields result };

    /// Visits each field, up to the first that is refused.
    fn each<V: Visit>(&mut self, other: &mut Self, visit: &V) -> Visited
        ensures ok { OnOk result (AllMade fields (V.makes visit.now) self.old other.old self.new) }
        ensures refused { IfErr result (λ r.
            IsRefusedAt fields (V.refuses visit.now) self.old other.old r.key.now r.error) };

    /// Visits each field by reference, beside that of a copy, up to the first that is refused.
    fn each_ref<V: VisitRef>(&self, copy: &mut Self, visit: &V) -> Result<()>
        ensures ok { OnOk result (AllGiven fields (V.gives visit.now) self.now copy.new) }
        ensures refused { IfErr result (V.fails visit.now) };

    /// Visits each field alone, up to the first that is refused.
    fn each_alone<V: VisitAlone>(&mut self, visit: &V) -> std::result::Result<(), NoMemory>
        ensures { OnOk result (AllGiven fields (V.gives visit.now) self.old self.new) };

    /// Visits each field in turn, by a visitor that changes.
    fn each_taken<V: Take>(&mut self, visit: &mut V)
        ensures { AllTaken fields V.takes visit.old self.new visit.new };

    /// Whether its fields are known to show nothing: false where that isn't known.
    fn is_unset(&self) -> bool
        ensures { IsTrue result → FieldsAbsent fields self.now }
    {
        false
    }

    /// No key occurs twice.
    ghost distinct: { IsTrue (are_distinct (keys_of_fields Self.fields)) };
}

/// The body of `Fields::each_taken`: visits the fields at these keys in turn.
#[macro_export]
macro_rules! each_taken {
    ($visit:ident, $own:ident; $($key:literal $field:ident),* $(,)?) => {{
        $(
            $visit.field($key, &mut $own.$field);
        )*
    }};
}

/// The body of `Fields::is_unset`: looks at these fields up to the first that isn't blank.
#[macro_export]
macro_rules! is_unset {
    ($own:ident; $($key:literal $field:ident),* $(,)?) => {{
        $(
            if !$crate::MergeFrom::is_unset(&$own.$field) {
                return false;
            }
        )*
        true
    }};
}

/// The body of `Fields::each`: visits the fields at these keys in turn.
#[macro_export]
macro_rules! each {
    ($visit:ident, $own:ident, $other:ident; $($key:literal $field:ident),* $(,)?) => {{
        $(
            if let Err(error) = $visit.field($key, &mut $own.$field, &mut $other.$field) {
                return Err($crate::Refused { key: $key, error });
            }
        )*
        Ok(())
    }};
}

/// The body of `Fields::each_ref`: visits the fields at these keys in turn.
#[macro_export]
macro_rules! each_ref {
    ($visit:ident, $own:ident, $copy:ident; $($key:literal $field:ident),* $(,)?) => {{
        $(
            if let Err(error) = $visit.field(&$own.$field, &mut $copy.$field) {
                return Err(error);
            }
        )*
        Ok(())
    }};
}

/// The body of `Fields::each_alone`: visits the fields in turn.
#[macro_export]
macro_rules! each_alone {
    ($visit:ident, $own:ident; $($key:literal $field:ident),* $(,)?) => {{
        $(
            if let Err(error) = $visit.field(&mut $own.$field) {
                return Err(error);
            }
        )*
        Ok(())
    }};
}
