//! Programs that are never run, for `--no-programs`.
use cargo_rules::Launcher;
use cc2_base::programs::ProgramTable;
use cc2_cargo_target::VariableTable;
use cc2_error::error::NoMemory;
use std::alloc::Global;

/// A table without commands: whatever is run is `RunAnswer::NotRun`. It takes no memory.
pub fn no_programs(alloc: Global) -> VariableTable {
    VariableTable::new(alloc, ProgramTable::new(alloc))
}

/// What makes such tables. It names no answers.
#[derive(Clone, Copy, Debug)]
pub struct NoLauncher;

impl Launcher for NoLauncher {
    type Runs = VariableTable;

    ghost told_with = { λ _ _. ⊥ };

    fn launch(&self, alloc: Global) -> Result<VariableTable, NoMemory> {
        Ok(no_programs(alloc))
    }
}
