//! The tables below `target`, which hold tables of their own form.
ghost use Rattle.std.specs.Prelude.{◌≡◌, ◌∷◌, Some, option_map, OnOk};
ghost use Rattle.std.specs.BTreeMap.{Updates};
ghost use Rattle.std.specs.String.{string_cmp};
ghost use Rattle.cc2_value.specs.Cells.{KeyPath, name};
ghost use Rattle.cc2_value.specs.Shown.{option_at};
ghost use Rattle.cc2_value.specs.Visits.{FieldsAbsent};
ghost use Rattle.cc2_target_table.specs.Target.{target_fields, target_at, entry_alone, kept_table, kept_at, lent_table, lent_at};

mod copy;
mod merge;
mod read;
mod send;

use cc2_error::error::{NoMemory, Result};
use cc2_leaf::{
    Fields, Flags, PathAndArgs, Take, Value, Visit, VisitAlone, VisitRef, Visited, each,
    each_alone, each_ref, each_taken,
};
use std::alloc::Global;
use std::collections::BTreeMap;

/// A table below `target` (Cargo Reference, Configuration,
/// [`[target]`](https://doc.rust-lang.org/cargo/reference/config.html#target)). Below each key that
/// is none of its fields it may hold a table of the same form.
#[derive(Debug, Drop)]
#[cycle(target)]
pub struct TargetConfig {
    /// The linker (Cargo Reference, Configuration,
    /// [`target.<triple>.linker`](https://doc.rust-lang.org/cargo/reference/config.html#targettriplelinker)).
    pub linker: Option<Value<String>>,
    /// The program that runs what is built, with its arguments (Cargo Reference, Configuration,
    /// [`target.<triple>.runner`](https://doc.rust-lang.org/cargo/reference/config.html#targettriplerunner)).
    pub runner: Option<PathAndArgs>,
    /// Flags for every rustc (Cargo Reference, Configuration,
    /// [`target.<triple>.rustflags`](https://doc.rust-lang.org/cargo/reference/config.html#targettriplerustflags)).
    pub rustflags: Option<Flags>,
    /// Flags for every rustdoc (Cargo Reference, Configuration,
    /// [`target.<triple>.rustdocflags`](https://doc.rust-lang.org/cargo/reference/config.html#targettriplerustdocflags)).
    pub rustdocflags: Option<Flags>,
    /// What is below each key that is none of the fields (Cargo Reference, Configuration,
    /// [`target.<triple>.<links>`](https://doc.rust-lang.org/cargo/reference/config.html#targettriplelinks)).
    pub nested: BTreeMap<String, Node>,
}

/// What is kept below a key of a target table that is none of its fields (Cargo Reference,
/// Configuration,
/// [`target.<triple>.<links>`](https://doc.rust-lang.org/cargo/reference/config.html#targettriplelinks)).
#[derive(Debug, Drop)]
#[cycle(target)]
pub enum Node {
    /// A table of the same form.
    Table(Box<TargetConfig>),
    /// A value that doesn't read as one; what it holds isn't kept.
    Undecoded,
}

/// What is below a key of a target table that is none of its fields: a table of the same form,
/// or a value that doesn't read as one. See the Cargo Reference, Configuration,
/// [`target.<triple>.<links>`](https://doc.rust-lang.org/cargo/reference/config.html#targettriplelinks).
#[derive(Clone, Copy, Debug)]
pub enum Nested<'a> {
    /// A table of the same form.
    Table(&'a TargetConfig),
    /// A value that doesn't read as one; what it holds isn't kept.
    Undecoded,
}

impl TargetConfig {
    /// The table with no field and nothing nested.
    pub fn empty(alloc: Global) -> TargetConfig
        ensures cells { (p : KeyPath) → target_at result p ≡ entry_alone p }
        ensures fields { FieldsAbsent target_fields result }
    {
        TargetConfig {
            linker: None,
            runner: None,
            rustflags: None,
            rustdocflags: None,
            nested: BTreeMap::new(alloc),
        }
    }

    /// What is below a key that is none of the fields, if anything does (Cargo Reference,
    /// Configuration,
    /// [`target.<triple>.<links>`](https://doc.rust-lang.org/cargo/reference/config.html#targettriplelinks)).
    pub fn nested(&self, key: &str) -> Option<Nested<'_>>
        ensures kept { option_map lent_table result ≡ kept_at self.now key.now }
        ensures cells { (p : KeyPath) → option_at lent_at result p
            ≡ target_at self.now (name key.now ∷ p) }
    {
        match self.nested.get(key) {
            None => None,
            Some(node) => Some(node.lent()),
        }
    }
}

macro_rules! fields {
    ($each:ident!($($head:tt)*)) => {
        $each!($($head)*;
            "linker" linker,
            "runner" runner,
            "rustflags" rustflags,
            "rustdocflags" rustdocflags,
        )
    };
}

impl Fields for TargetConfig {
    ghost use Rattle.std.specs.Prelude.{refl};

    ghost fields = { target_fields };

    fn absent(alloc: Global) -> TargetConfig {
        TargetConfig::empty(alloc)
    }

    fn each<V: Visit>(&mut self, other: &mut TargetConfig, visit: &V) -> Visited {
        fields!(each!(visit, self, other))
    }

    fn each_ref<V: VisitRef>(&self, copy: &mut TargetConfig, visit: &V) -> Result<()> {
        fields!(each_ref!(visit, self, copy))
    }

    fn each_alone<V: VisitAlone>(&mut self, visit: &V) -> Kept<()> {
        fields!(each_alone!(visit, self))
    }

    fn each_taken<V: Take>(&mut self, visit: &mut V) {
        fields!(each_taken!(visit, self))
    }

    ghost distinct = { refl };
}

// What fails only if memory runs out. The recursions below a target answer by it: a level of them
// then takes little of the stack.
type Kept<T> = std::result::Result<T, NoMemory>;

// A table with nothing in it, in a box.
#[inline(never)]
fn boxed_empty(alloc: Global) -> Kept<Box<TargetConfig>> {
    Ok(Box::new(alloc, TargetConfig::empty(alloc))?)
}

// Puts a node in place of what the key has.
#[inline(never)]
fn insert(nested: &mut BTreeMap<String, Node>, key: String, node: Node) -> Kept<()>
    ensures { OnOk result (Updates string_cmp nested.old nested.new key (Some node)) }
{
    nested.insert(key, node)?;
    Ok(())
}

impl Node {
    // The same, without the table itself.
    fn lent(&self) -> Nested<'_>
        ensures { lent_table result ≡ kept_table self.now }
    {
        match self {
            Node::Table(table) => Nested::Table(table),
            Node::Undecoded => Nested::Undecoded,
        }
    }
}
