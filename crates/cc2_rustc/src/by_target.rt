//! What is kept of targets, by the text of a target as Cargo takes it.
ghost use Rattle.std.specs.Prelude.{◌≡◌, ℕ, List, Some, is_some, IsSome, OnOk, OnErr};
ghost use Rattle.std.specs.BTreeMap.{get_by_text};
ghost use Rattle.cc2_resolved.specs.ShownTargets.{target_at};
ghost use Rattle.cc2_resolved.specs.Targets.{command_text};
ghost use Rattle.cc2_rustc.specs.ByName.{AtMostAdds};

use cc2_error::error::NoMemory;
use cc2_resolved::target_triple::TargetTripleRef;
use std::alloc::Global;
use std::collections::BTreeMap;

/// Whether something is kept for the target.
pub fn has_kept<V>(kept: &BTreeMap<String, V>, target: &TargetTripleRef<'_>) -> bool
    ensures { result ≡ is_some (get_by_text kept.now (command_text (target_at target.now))) }
{
    kept.contains_key(target.as_command_text())
}

/// Keeps a value for the target. A refused one leaves what was kept.
pub fn keep<V: Drop>(
    alloc: Global,
    target: &TargetTripleRef<'_>,
    value: V,
    kept: &mut BTreeMap<String, V>,
) -> Result<(), NoMemory>
    ensures adds { AtMostAdds kept.old kept.new (command_text (target_at target.now)) value }
    ensures found { OnOk result
        (IsSome (get_by_text kept.new (command_text (target_at target.now)))) }
    ensures stored { OnOk result
        (get_by_text kept.new (command_text (target_at target.now)) ≡ Some value) }
    ensures refused { OnErr result
        ((name : List ℕ) → get_by_text kept.new name ≡ get_by_text kept.old name) }
{
    let name = String::from_str(alloc, target.as_command_text())?;
    kept.insert(name, value)?;
    Ok(())
}
