//! Copies of what is resolved.
ghost use Rattle.std.specs.Prelude.{◌≡◌, Option, IfOk, IfErr};
ghost use Rattle.cc2_error.specs.Causes.{no_memory};
ghost use Rattle.cc2_value.specs.Cells.{KeyPath};
ghost use Rattle.cc2_resolved.specs.Answers.{Answer};
ghost use Rattle.cc2_resolved.specs.Copies.{IsSame};
ghost use Rattle.cc2_resolved.specs.Rows.{names_at};

use crate::env::EnvConfigValue;
use crate::provider::GlobalCredentialProviders;
use crate::resolved_value::ResolvedValue;
use crate::string_list::StringList;
use cc2_error::error::Result;
use cc2_error::path_and_args::PathAndArgs;
use cc2_leaf::put;
use std::alloc::Global;
use std::collections::BTreeMap;

/// What is copied whole, once it is resolved: a table, or what is at a key of one.
pub trait TryClone: Drop {
    /// What a copy keeps: the answer at each key path.
    ghost shown: { Self → KeyPath → Option Answer };

    /// The same where it is a member of a map.
    ghost member: { Self → KeyPath → Option Answer };

    /// The same once more: the same values at the same keys.
    ///
    /// # Errors
    /// `ErrorKind::Memory` where the copy finds no memory.
    fn try_clone(&self, alloc: Global) -> Result<Self>
        ensures same { IfOk result (IsSame shown self.now) }
        ensures same_member { IfOk result (IsSame member self.now) }
        ensures refused { IfErr result (λ e. e ≡ no_memory) };
}

/// A setting, where there is one.
impl<T: ResolvedValue> TryClone for Option<T> {
    ghost use Rattle.std.specs.Prelude.{option_map};
    ghost use Rattle.cc2_resolved.specs.Answers.{shown_at};

    ghost shown = { λ o. shown_at (option_map T.answer o) };

    ghost member = { λ o. shown_at (option_map T.answer o) };

    fn try_clone(&self, alloc: Global) -> Result<Option<T>> {
        match self {
            None => Ok(None),
            Some(value) => Ok(Some(value.copied(alloc)?)),
        }
    }
}

impl TryClone for GlobalCredentialProviders {
    ghost use Rattle.cc2_resolved.specs.Answers.{providers_answer, shown_at};

    ghost shown = { λ g. shown_at (providers_answer g) };

    ghost member = { λ g. shown_at (providers_answer g) };

    fn try_clone(&self, alloc: Global) -> Result<GlobalCredentialProviders> {
        GlobalCredentialProviders::try_clone(self, alloc)
    }
}

impl TryClone for StringList {
    ghost use Rattle.cc2_resolved.specs.Answers.{list_answer};
    ghost use Rattle.cc2_resolved.specs.Rows.{answer_at};

    ghost shown = { answer_at list_answer };

    ghost member = { answer_at list_answer };

    fn try_clone(&self, alloc: Global) -> Result<StringList> {
        StringList::try_clone(self, alloc)
    }
}

impl TryClone for PathAndArgs {
    ghost use Rattle.cc2_resolved.specs.Answers.{command_answer};
    ghost use Rattle.cc2_resolved.specs.Rows.{answer_at};

    ghost shown = { answer_at command_answer };

    ghost member = { answer_at command_answer };

    fn try_clone(&self, alloc: Global) -> Result<PathAndArgs> {
        Ok(PathAndArgs::try_clone(self, alloc)?)
    }
}

impl TryClone for EnvConfigValue {
    ghost use Rattle.cc2_resolved.specs.Env.{variable_shown};

    ghost shown = { variable_shown };

    ghost member = { variable_shown };

    fn try_clone(&self, alloc: Global) -> Result<EnvConfigValue> {
        EnvConfigValue::try_clone(self, alloc)
    }
}

// A map once more, name by name.
fn copied_names<V: TryClone>(
    alloc: Global,
    map: &BTreeMap<String, V>,
) -> Result<BTreeMap<String, V>>
    ensures same { IfOk result (IsSame (names_at V.member) map.now) }
    ensures refused { IfErr result (λ e. e ≡ no_memory) }
{
    let mut copies = BTreeMap::new(alloc);
    for (key, value) in map.iter() {
        let copy = value.try_clone(alloc)?;
        put(&mut copies, key.clone()?, copy)?;
    }
    Ok(copies)
}

/// Name by name.
impl<V: TryClone> TryClone for BTreeMap<String, V> {
    ghost use Rattle.cc2_resolved.specs.Rows.{names_at};

    ghost shown = { names_at V.member };

    ghost member = { names_at V.member };

    fn try_clone(&self, alloc: Global) -> Result<BTreeMap<String, V>> {
        copied_names(alloc, self)
    }
}
