//! Programs, each time anew.
ghost use Rattle.std.specs.Prelude.{[], ℕ, List, IfOk};
ghost use Rattle.cc2_base.specs.Told.{WhereTold};
ghost use Rattle.cargo_rules.specs.WithEnv.{AnswersWith};

use cc2_cargo_target::{HostRuns, WithVariables};
use cc2_error::error::NoMemory;
use std::alloc::Global;
use std::process::Processes;

/// What makes programs, each time with no variables set for them.
///
/// An implementation may say which answers to all commands its programs agree with, under each list of variables.
/// `HostLauncher` names none.
pub trait Launcher {
    /// The programs.
    type Runs: WithVariables + Drop;

    /// The answers to all commands that they agree with, by the variables.
    ghost told_with: { Self → AnswersWith → Type 0 };

    /// Programs that run with the variables of the process alone.
    ///
    /// # Errors
    /// `NoMemory` where memory ran out.
    fn launch(&self, alloc: Global) -> Result<Self::Runs, NoMemory>
        ensures { WhereTold (told_with self.now) (λ own. IfOk result (λ runs.
            Self.Runs.told_with runs own × Self.Runs.told runs (own []))) };
}

/// The programs of the machine that the toolchain's runtime `R` starts. They name no answers.
#[derive(Drop)]
pub struct HostLauncher<'r, R> {
    runtime: &'r R,
}

impl<'r, R> HostLauncher<'r, R> {
    /// The machine's programs.
    pub fn new(runtime: &'r R) -> HostLauncher<'r, R> {
        HostLauncher { runtime }
    }
}

impl<'r, R: Processes> Launcher for HostLauncher<'r, R> {
    type Runs = HostRuns<&'r R>;

    ghost told_with = { λ _ _. ⊥ };

    fn launch(&self, alloc: Global) -> Result<HostRuns<&'r R>, NoMemory> {
        Ok(HostRuns::new(alloc, self.runtime))
    }
}
