//! What is known of paths and of commands.
ghost use Rattle.std.specs.Prelude.{◌≡◌, ◌<◌, ℕ, List, true, OnOk, string_bytes, Some, None, option_map, map};
ghost use Rattle.cc2_error.specs.Commands.{command_of};
ghost use Rattle.cc2_base.specs.ToldPrograms.{output_of};
ghost use Rattle.cc2_ask.specs.Givens.{with_path, with_run};
ghost use Rattle.cc2_ask.specs.Needs.{is_listed, left_in, left_of};
ghost use Rattle.cc2_ask.specs.Views.{known_view, paths_of, runs_in, runs_of};

use cc2_base::programs::RunAnswer;
use cc2_error::error::NoMemory;
use cc2_error::path_and_args::PathAndArgs;
use std::alloc::Global;
use std::collections::BTreeMap;

/// What is known of a path.
#[derive(Debug, Drop)]
pub enum Known {
    /// The file there reads so.
    Reads(Vec<u8>),
    /// What is there can't be read.
    Unreadable,
    /// Something is there; what it holds isn't known.
    Unread,
    /// Nothing is there.
    Absent,
}

/// What is known of each path.
#[derive(Drop)]
pub struct KnownPaths {
    table: BTreeMap<String, Known>,
}

impl KnownPaths {
    /// Nothing is known of any path.
    pub fn new(alloc: Global) -> KnownPaths
        ensures { paths_of result ≡ (λ p. None) }
    {
        KnownPaths {
            table: BTreeMap::new(alloc),
        }
    }

    /// Notes what is known of a path, in place of what was. If more is known then than before, fewer replies may still ask
    /// about any list of paths that has this one.
    ///
    /// # Errors
    /// `NoMemory` if memory runs out.
    pub fn put(&mut self, path: String, known: Known) -> Result<(), NoMemory>
        ensures known { OnOk result (paths_of self.new
            ≡ with_path (string_bytes path) (known_view known) (paths_of self.old)) }
        ensures fewer { OnOk result
            ((paths : List (List ℕ)) → is_listed (string_bytes path) paths ≡ true
            → left_of (Some (known_view known)) < left_of (paths_of self.old (string_bytes path))
            → left_in (paths_of self.new) paths < left_in (paths_of self.old) paths) }
    {
        self.table.insert(path, known)?;
        Ok(())
    }

    /// What is known of a path; none where nothing is.
    pub fn get(&self, path: &str) -> Option<&Known>
        ensures { option_map (λ known. known_view known.now) result ≡ paths_of self.now path.now }
    {
        self.table.get(path)
    }
}

// A command and what it answered.
#[derive(Drop)]
struct Ran {
    command: PathAndArgs,
    answer: RunAnswer,
}

/// What is known of each command.
#[derive(Drop)]
pub struct KnownRuns {
    runs: Vec<Ran>,
}

impl KnownRuns {
    /// Nothing is known of any command.
    pub fn new(alloc: Global) -> KnownRuns
        ensures { runs_of result ≡ (λ program args. None) }
    {
        KnownRuns {
            runs: Vec::new(alloc),
        }
    }

    /// Records what a command answered, in place of what was.
    ///
    /// # Errors
    /// `NoMemory` where memory ran out.
    pub fn put(&mut self, command: PathAndArgs, answer: RunAnswer) -> Result<(), NoMemory>
        ensures { OnOk result (runs_of self.new
            ≡ with_run (command_of command) (output_of answer) (runs_of self.old)) }
    {
        self.runs.push(Ran { command, answer })?;
        Ok(())
    }

    /// What a command answered; none where that isn't known.
    pub fn get(&self, program: &str, args: &[String]) -> Option<&RunAnswer>
        ensures { option_map (λ answer. output_of answer.now) result
            ≡ runs_of self.now program.now (map string_bytes args.now) }
    {
        latest(self.runs.as_slice(), program, args)
    }
}

// What the latest of these that is of the command answered.
fn latest<'a>(runs: &'a [Ran], program: &str, args: &[String]) -> Option<&'a RunAnswer>
    ensures { option_map (λ answer. output_of answer.now) result
        ≡ runs_in runs.now program.now (map string_bytes args.now) }
{
    let mut found = None;
    for ran in runs {
        if ran.command.is_for(program, args) {
            found = Some(&ran.answer);
        }
    }
    found
}
