//! Programs behind an interface: a table in memory whose answers are specified, and those of the
//! machine.
ghost use Rattle.std.specs.Prelude.{◌≡◌, ◌<◌, ℕ, List, Option, Some, None, IfOk, IsOk, OnOk, OnErr, string_bytes, map};
ghost use Rattle.cc2_base.specs.Told.{Keeps, WhereTold};
ghost use Rattle.cc2_base.specs.ToldPrograms.{Answers, output_of, answer_in, answers_of, spare_of, runs_of, host_runs_of, with_answer, one_more};

use cc2_error::error::NoMemory;
use cc2_error::path_and_args::PathAndArgs;
use std::alloc::Global;
use std::io;
use std::process::{Command, Output, Processes};

/// What running a command gave.
#[derive(Debug, Drop)]
pub enum RunAnswer {
    /// The program could not be started.
    NotRun,
    /// The program ended.
    Done {
        /// Its exit status; none where a signal ended it.
        code: Option<i32>,
        /// The bytes of its standard output.
        stdout: Vec<u8>,
        /// The bytes of its standard error.
        stderr: Vec<u8>,
    },
}

impl RunAnswer {
    /// The same answer once more.
    ///
    /// # Errors
    /// `NoMemory` where the copy finds no memory.
    pub fn try_clone(&self, alloc: Global) -> Result<RunAnswer, NoMemory>
        ensures { IfOk result (λ copy. output_of copy ≡ output_of self.now) }
    {
        match self {
            RunAnswer::NotRun => Ok(RunAnswer::NotRun),
            RunAnswer::Done {
                code,
                stdout,
                stderr,
            } => Ok(RunAnswer::Done {
                code: *code,
                stdout: Vec::from_slice(alloc, stdout.as_slice())?,
                stderr: Vec::from_slice(alloc, stderr.as_slice())?,
            }),
        }
    }
}

/// Programs that can be run by a command: a program and its arguments.
///
/// An implementation may say which answers to all commands it agrees with. In each of these worlds its
/// answers are those of the world. A table agrees with one alone. `HostPrograms` names none.
pub trait Programs {
    /// The answers to all commands that they agree with.
    ghost told: { Self → Answers → Type 0 };

    /// How many runs there were, up to the greatest `u64`.
    ghost runs: { Self → ℕ };

    /// Runs the program with the arguments and waits for its end. In each world that they agree with,
    /// the answer is the world's for this command. A run changes none of these worlds. Every call counts
    /// as a run, a refused one too; the count stays at its greatest value.
    ///
    /// # Errors
    /// `NoMemory` where memory ran out.
    fn run(&mut self, alloc: Global, program: &str, args: &[String]) -> Result<RunAnswer, NoMemory>
        ensures answer { WhereTold (told self.old) (λ answers. IfOk result (λ answer.
            output_of answer ≡ answers program.now (map string_bytes args.now))) }
        ensures same { Keeps (told self.old) (told self.new) }
        ensures counted { runs self.new ≡ one_more (runs self.old) };
}

// One command of a table and what it answers.
#[derive(Drop)]
struct Entry {
    command: PathAndArgs,
    answer: RunAnswer,
}

// The answer of the first entry for the command; without one it cannot be run.
fn answer_of(
    alloc: Global,
    entries: &[Entry],
    program: &str,
    args: &[String],
) -> Result<RunAnswer, NoMemory>
    ensures { IfOk result (λ answer. output_of answer
        ≡ answer_in entries.now program.now (map string_bytes args.now)) }
{
    for entry in entries {
        if entry.command.is_for(program, args) {
            return entry.answer.try_clone(alloc);
        }
    }
    Ok(RunAnswer::NotRun)
}

/// A table of commands in memory, whose answers are all specified. A command that is not in it is
/// `RunAnswer::NotRun`.
#[derive(Drop)]
pub struct ProgramTable {
    entries: Vec<Entry>,
    count: u64,
}

impl ProgramTable {
    /// A table without commands that has seen no run. It takes no memory.
    pub fn new(alloc: Global) -> ProgramTable
        ensures empty { (p : List ℕ) (xs : List (List ℕ)) → answers_of result p xs ≡ None }
        ensures count { runs_of result ≡ 0 }
    {
        ProgramTable {
            entries: Vec::new(alloc),
            count: 0,
        }
    }

    /// Sets what the command answers, in place of any earlier answer. Other commands and the count
    /// stay as they are.
    ///
    /// # Errors
    /// `NoMemory` where the table can't grow; it is then as it was.
    pub fn put(
        &mut self,
        program: String,
        args: Vec<String>,
        answer: RunAnswer,
    ) -> Result<(), NoMemory>
        ensures set { OnOk result ((p : List ℕ) (xs : List (List ℕ)) → answers_of self.new p xs
            ≡ with_answer (answers_of self.old)
            (string_bytes program) (map string_bytes args.items) (output_of answer) p xs) }
        ensures refused { OnErr result ((p : List ℕ) (xs : List (List ℕ)) →
            answers_of self.new p xs ≡ answers_of self.old p xs) }
        ensures succeeds { 0 < spare_of self.old → IsOk result }
        ensures count { runs_of self.new ≡ runs_of self.old }
    {
        let command = PathAndArgs {
            path: program,
            args,
        };
        self.entries.insert(0, Entry { command, answer })?;
        Ok(())
    }

    /// How many runs the table has seen, refused ones among them.
    pub fn runs(&self) -> u64
        ensures { result ≡ runs_of self.now }
    {
        self.count
    }
}

impl Programs for ProgramTable {
    ghost told = { λ t answers. answers ≡ answers_of t };

    ghost runs = { λ t. runs_of t };

    fn run(
        &mut self,
        alloc: Global,
        program: &str,
        args: &[String],
    ) -> Result<RunAnswer, NoMemory> {
        self.count = self.count.saturating_add(1);
        answer_of(alloc, self.entries.as_slice(), program, args)
    }
}

/// The programs of the machine that the toolchain's runtime `R` starts, in the process's directory and
/// with its variables, whatever a `Machine` has. They name no answers: no contract says what one answers.
#[derive(Drop)]
pub struct HostPrograms<R: Drop> {
    runtime: R,
    runs: u64,
}

impl<R: Drop> HostPrograms<R> {
    /// The machine's programs, none run yet. It takes no memory.
    pub fn new(runtime: R) -> HostPrograms<R>
        ensures { host_runs_of result ≡ 0 }
    {
        HostPrograms { runtime, runs: 0 }
    }
}

impl<R: Processes + Drop> Programs for HostPrograms<R> {
    ghost told = { λ _ _. ⊥ };

    ghost runs = { λ t. host_runs_of t };

    fn run(
        &mut self,
        alloc: Global,
        program: &str,
        args: &[String],
    ) -> Result<RunAnswer, NoMemory> {
        self.runs = self.runs.saturating_add(1);
        let mut command = Command::new(alloc, program)?;
        for arg in args {
            command.arg(arg.as_str())?;
        }
        answer_of_run(command.output(&self.runtime))
    }
}

// What a run answers: a program that can't be started is no error, running out of memory is one.
fn answer_of_run(ran: io::Result<Output>) -> Result<RunAnswer, NoMemory> {
    match ran {
        Ok(output) => Ok(RunAnswer::Done {
            code: output.status.code(),
            stdout: output.stdout,
            stderr: output.stderr,
        }),
        Err(e) if e.kind() == io::ErrorKind::OutOfMemory => Err(NoMemory),
        Err(_) => Ok(RunAnswer::NotRun),
    }
}
