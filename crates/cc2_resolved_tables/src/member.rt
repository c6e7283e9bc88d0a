//! Maps by name: each member is resolved by itself.
ghost use Rattle.std.specs.Prelude.{◌≡◌, Option, None, Ok, IfOk, IfErr};
ghost use Rattle.cc2_value.specs.Cells.{KeyPath, Cell};
ghost use Rattle.cc2_value.specs.Shown.{map_at};
ghost use Rattle.cc2_resolved.specs.Answers.{Answer};
ghost use Rattle.cc2_resolved.specs.Rows.{Resolving, by_name, names_at, IsResolved, IsCause};
ghost use Rattle.cc2_resolved.specs.Sites.{Site, site_of};

use crate::slot::Slot;
use cc2_error::error::Result;
use cc2_error::path_and_args::PathAndArgs;
use cc2_leaf::from_sorted;
use cc2_resolved::string_list::StringList;
use cc2_resolved::{Place, Resolve};
use std::alloc::Global;
use std::collections::BTreeMap;
use std::mem::replace;

/// A member of a map that can be resolved.
pub trait Member: Drop {
    /// What it is then.
    type Resolved: Drop;

    /// The cells that it shows.
    ghost look: { Self → KeyPath → Option Cell };

    /// What resolution makes of them.
    ghost how: { Resolving };

    /// What the resolved member shows.
    ghost shown: { Self.Resolved → KeyPath → Option Answer };

    /// Resolves the member.
    fn resolve_member(self, alloc: Global, place: &Place<'_>) -> Result<Self::Resolved>
        ensures ok { IfOk result (λ r. IsResolved how (site_of place.now) (look self) (shown r)) }
        ensures refused { IfErr result (IsCause how (site_of place.now) (look self)) };

    /// Nothing is made of nothing.
    ghost nothing: { (site : Site) (p : KeyPath) → how site (λ q. None) p ≡ Ok None };
}

impl Member for cc2_leaf::StringList {
    ghost use Rattle.std.specs.Prelude.{refl};
    ghost use Rattle.cc2_leaf.specs.Lists.{string_list_at};
    ghost use Rattle.cc2_resolved.specs.Answers.{list_answer};
    ghost use Rattle.cc2_resolved.specs.Resolving.{settled};
    ghost use Rattle.cc2_resolved.specs.Rows.{answer_at, by};

    type Resolved = StringList;

    ghost look = { string_list_at };

    ghost how = { by settled };

    ghost shown = { answer_at list_answer };

    ghost nothing = { λ site p. refl };

    fn resolve_member(self, alloc: Global, place: &Place<'_>) -> Result<StringList> {
        match self.resolve(alloc, place) {
            Ok(list) => Ok(list),
            Err(error) => Err(error),
        }
    }
}

impl Member for cc2_leaf::PathAndArgs {
    ghost use Rattle.std.specs.Prelude.{refl};
    ghost use Rattle.cc2_leaf.specs.Commands.{command_at};
    ghost use Rattle.cc2_resolved.specs.Answers.{command_answer};
    ghost use Rattle.cc2_resolved.specs.Resolving.{settled};
    ghost use Rattle.cc2_resolved.specs.Rows.{answer_at, by};

    type Resolved = PathAndArgs;

    ghost look = { command_at };

    ghost how = { by settled };

    ghost shown = { answer_at command_answer };

    ghost nothing = { λ site p. refl };

    fn resolve_member(self, alloc: Global, place: &Place<'_>) -> Result<PathAndArgs> {
        match self.resolve(alloc, place) {
            Ok(command) => Ok(command),
            Err(error) => Err(error),
        }
    }
}

// Resolves a map, name by name. The map of the resolved members is built at once.
fn resolve_names<V: Member>(
    alloc: Global,
    place: &Place<'_>,
    map: BTreeMap<String, V>,
) -> Result<BTreeMap<String, V::Resolved>>
    ensures ok { IfOk result (λ m.
        IsResolved (by_name V.how) (site_of place.now) (map_at V.look map) (names_at V.shown m)) }
    ensures refused { IfErr result
        (IsCause (by_name V.how) (site_of place.now) (map_at V.look map)) }
{
    let mut members = Vec::with_capacity(alloc, map.len())?;
    for (key, value) in map {
        let member = value.resolve_member(alloc, place)?;
        members.push((key, member))?;
    }
    Ok(from_sorted(alloc, members)?)
}

impl<V: Member> Slot for BTreeMap<String, V> {
    ghost use Rattle.cc2_value.specs.Shown.{map_at};
    ghost use Rattle.cc2_resolved.specs.Rows.{by_name, names_at};

    type Resolved = BTreeMap<String, V::Resolved>;

    ghost look = { map_at V.look };

    ghost how = { by_name V.how };

    ghost shown = { names_at V.shown };

    fn settle(
        &mut self,
        alloc: Global,
        place: &Place<'_>,
        resolved: &mut BTreeMap<String, V::Resolved>,
    ) -> Result<()> {
        let map = replace(self, BTreeMap::new(alloc));
        match resolve_names(alloc, place, map) {
            Ok(names) => {
                *resolved = names;
                Ok(())
            }
            Err(error) => Err(error),
        }
    }
}
