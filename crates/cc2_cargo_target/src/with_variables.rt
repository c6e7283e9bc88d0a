//! Programs that are run with variables of their own.
ghost use Rattle.std.specs.Prelude.{◌≡◌, ℕ, List};
ghost use Rattle.cc2_base.specs.Told.{Keeps, WhereTold};
ghost use Rattle.cc2_base.specs.ToldPrograms.{Answers, answers_of};
ghost use Rattle.cc2_cargo_settings.specs.EnvVariables.{EnvVariable, variables_view};

use cc2_base::programs::{ProgramTable, Programs, RunAnswer};
use cc2_error::error::NoMemory;
use std::alloc::Global;
use std::io;
use std::process::{Command, Output, Processes};

/// Programs that can be run with more variables than the process has, as Cargo runs rustc (Cargo Reference, Configuration,
/// [`[env]`](https://doc.rust-lang.org/cargo/reference/config.html#env)).
///
/// An implementation may say which answers to all commands it agrees with, under each list of variables. `HostRuns` names none.
pub trait WithVariables: Programs {
    /// The answers to all commands that they agree with, by the variables.
    ghost told_with: { Self → (List EnvVariable → Answers) → Type 0 };

    /// Runs programs with these variables from now on, and no longer with those of an earlier call.
    fn set_variables(&mut self, variables: Vec<(String, String)>)
        ensures told { WhereTold (told_with self.old) (λ answers.
            Self.told self.new (answers (variables_view variables))) }
        ensures same { Keeps (told_with self.old) (told_with self.new) };
}

/// The programs of the machine that the toolchain's runtime `R` starts, in the process's directory. They name no answers: no
/// contract says what one answers.
#[derive(Drop)]
pub struct HostRuns<R: Drop> {
    runtime: R,
    variables: Vec<(String, String)>,
    runs: u64,
}

impl<R: Drop> HostRuns<R> {
    /// The machine's programs, with the process's variables alone. It takes no memory.
    pub fn new(alloc: Global, runtime: R) -> HostRuns<R> {
        HostRuns {
            runtime,
            variables: Vec::new(alloc),
            runs: 0,
        }
    }
}

impl<R: Processes + Drop> Programs for HostRuns<R> {
    ghost told = { λ _ _. ⊥ };

    ghost runs = { λ t. t.runs };

    fn run(
        &mut self,
        alloc: Global,
        program: &str,
        args: &[String],
    ) -> Result<RunAnswer, NoMemory> {
        self.runs = self.runs.saturating_add(1);
        let mut command = Command::new(alloc, program)?;
        for variable in self.variables.iter() {
            command.env(variable.0.as_str(), variable.1.as_str())?;
        }
        for arg in args {
            command.arg(arg.as_str())?;
        }
        answer_of_run(command.output(&self.runtime))
    }
}

impl<R: Processes + Drop> WithVariables for HostRuns<R> {
    ghost told_with = { λ _ _. ⊥ };

    fn set_variables(&mut self, variables: Vec<(String, String)>) {
        self.variables = variables;
    }
}

/// A table's programs pass variables over: they answer the same under each list of them.
impl WithVariables for ProgramTable {
    ghost told_with = { λ t own. (variables : List EnvVariable) → own variables ≡ answers_of t };

    fn set_variables(&mut self, _variables: Vec<(String, String)>) {}
}

// What a run answers: a program that can't be started is no error, running out of memory is one.
fn answer_of_run(ran: io::Result<Output>) -> Result<RunAnswer, NoMemory> {
    match ran {
        Ok(output) => Ok(RunAnswer::Done {
            code: output.status.code(),
            stdout: output.stdout,
            stderr: output.stderr,
        }),
        Err(e) if e.kind() == io::ErrorKind::OutOfMemory => Err(NoMemory),
        Err(_) => Ok(RunAnswer::NotRun),
    }
}
