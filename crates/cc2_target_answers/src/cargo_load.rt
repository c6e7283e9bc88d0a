//! What the files of a directory have under overrides, by Cargo's own rules.
ghost use Rattle.std.specs.Prelude.{map};
ghost use Rattle.cc2_base.specs.Homes.{cargo_home_of};
ghost use Rattle.cc2_cargo.specs.Raw.{raw_members_at};
ghost use Rattle.cargo_rules.specs.Loads.{IsCauseUnder, IsMapUnder};
ghost use Rattle.cc2_error.specs.Outcomes.{Answered};
ghost use Rattle.cc2_target_answers.specs.Worlds.{WhereRead};

use cargo_config2::Result;
use cargo_rules::load_under;
use cc2_base::files::Files;
use cc2_base::machine::Machine;
use cc2_cargo::{Raw, RealPaths};
use std::alloc::Global;
use std::collections::BTreeMap;

/// What the files of a directory, of its ancestors and of the machine's cargo home have at each key under these overrides.
///
/// # Errors
/// Those of `load_under`.
pub fn load_by_cargo<F: Files, L: RealPaths>(
    alloc: Global,
    dir: &str,
    overrides: &[&str],
    machine: &Machine,
    files: &F,
    reals: &L,
) -> Result<BTreeMap<String, Raw>>
    ensures { let home = cargo_home_of dir.now machine.now in
        WhereRead (F.told files.now) (L.told reals.now) (λ fs real_paths.
        Answered raw_members_at result
        (IsMapUnder fs real_paths dir.now (map (λ text. text.now) overrides.now) home)
        (IsCauseUnder fs real_paths dir.now (map (λ text. text.now) overrides.now) home)) }
{
    load_under(alloc, dir, overrides, machine, files, reals)
}
