//! Two targets, each asked for twice.
ghost use Rattle.std.specs.Prelude.{◌≡◌, ◌≤◌, ◌+◌, IfOk, OnOk};
ghost use Rattle.cc2_uses.specs.Linkers.{shown};
ghost use Rattle.cargo_config2.specs.KeptOfRustc.{WhereBothTold};
ghost use Rattle.cargo_config2.specs.Kept.{Agrees};

use cargo_config2::{Config, Files, Machine, Programs, Result, TargetTripleRef};
use std::alloc::Global;

/// A target's linker, and its linker when it was asked for once more.
#[derive(Debug, Drop)]
pub struct Twice {
    /// The linker at the first question.
    pub first: Option<String>,
    /// The linker at the second.
    pub again: Option<String>,
}

/// The linkers of two targets in the machine's directory, asked for in turn, and then both once more.
/// The second answers are the first, and no program is run for them: two are in all, at most.
///
/// # Errors
/// Those of `Config::load` and of `Config::linker`.
pub fn asked_twice<F: Files, P: Programs>(
    alloc: Global,
    machine: &Machine,
    one: &TargetTripleRef<'_>,
    other: &TargetTripleRef<'_>,
    files: &F,
    programs: &mut P,
) -> Result<(Twice, Twice)>
    ensures same { WhereBothTold (F.told files.now) (P.told programs.old)
        (λ fs answers. IfOk result (λ told.
        (shown told.0.again ≡ shown told.0.first) × (shown told.1.again ≡ shown told.1.first))) }
    ensures few { OnOk result (P.runs programs.new ≤ P.runs programs.old + 2) }
{
    let mut config = Config::load(alloc, machine, files)?;
    twice_by(alloc, &mut config, one, other, files, programs)
}

// The same by a configuration.
fn twice_by<F: Files, P: Programs>(
    alloc: Global,
    config: &mut Config,
    one: &TargetTripleRef<'_>,
    other: &TargetTripleRef<'_>,
    files: &F,
    programs: &mut P,
) -> Result<(Twice, Twice)>
    ensures same { WhereBothTold (F.told files.now) (P.told programs.old) (λ fs answers.
        Agrees fs answers config.old
        → IfOk result (λ told.
        (shown told.0.again ≡ shown told.0.first) × (shown told.1.again ≡ shown told.1.first))) }
    ensures few { OnOk result (P.runs programs.new ≤ P.runs programs.old + 2) }
{
    let first_one = config.linker(alloc, one, files, programs)?;
    let first_other = config.linker(alloc, other, files, programs)?;
    let again_one = config.linker(alloc, one, files, programs)?;
    let again_other = config.linker(alloc, other, files, programs)?;
    let one = Twice {
        first: first_one,
        again: again_one,
    };
    let other = Twice {
        first: first_other,
        again: again_other,
    };
    Ok((one, other))
}
