//! What a cargo subcommand writes to get its linker and flags.
ghost use Rattle.std.specs.Prelude.{◌≡◌, ◌≤◌, ◌+◌, OnOk, IfOk, string_bytes};
ghost use Rattle.cargo_config2.specs.ShownTargets.{target_at};
ghost use Rattle.cargo_config2.specs.KeptOfRustc.{WhereBothTold};
ghost use Rattle.cargo_config2.specs.Kept.{Agrees};
ghost use Rattle.cc2_uses.specs.Toolchains.{IsToolchain, IsToolchainOf};

use cargo_config2::{Config, Files, Flags, Machine, Programs, Result, TargetTripleRef};
use std::alloc::Global;

/// What a subcommand builds with.
#[derive(Debug, Drop)]
pub struct Toolchain {
    /// The linker, where one is set.
    pub linker: Option<String>,
    /// Flags for every rustc, where any are set.
    pub rustflags: Option<Flags>,
}

/// The linker and the flags for a target, as Cargo itself would use them in the machine's directory.
/// One program is run at most: `rustc --print cfg`, where a key `cfg(..)` has to be judged.
///
/// # Errors
/// Those of `Config::load`, of `TargetTripleRef::new` and of `Config::target`.
pub fn toolchain_for<F: Files, P: Programs>(
    alloc: Global,
    machine: &Machine,
    target: &str,
    files: &F,
    programs: &mut P,
) -> Result<Toolchain>
    ensures told { WhereBothTold (F.told files.now) (P.told programs.old) (λ fs answers.
        IfOk result (IsToolchainOf fs answers machine.now
        (string_bytes machine.now.current_dir) target.now)) }
    ensures few { OnOk result (P.runs programs.new ≤ P.runs programs.old + 1) }
{
    let target = TargetTripleRef::new(target)?;
    let mut config = Config::load(alloc, machine, files)?;
    toolchain_by(alloc, &mut config, &target, files, programs)
}

// The same by a configuration.
fn toolchain_by<F: Files, P: Programs>(
    alloc: Global,
    config: &mut Config,
    target: &TargetTripleRef<'_>,
    files: &F,
    programs: &mut P,
) -> Result<Toolchain>
    ensures told { WhereBothTold (F.told files.now) (P.told programs.old) (λ fs answers.
        Agrees fs answers config.old
        → IfOk result (IsToolchain fs answers config.old (target_at target.now))) }
    ensures few { OnOk result (P.runs programs.new ≤ P.runs programs.old + 1) }
{
    let linker = config.linker(alloc, target, files, programs)?;
    let rustflags = config.rustflags(alloc, target, files, programs)?;
    Ok(Toolchain { linker, rustflags })
}
