//! What programs answered, as it was handed in, and the command of which it isn't known.
use crate::known::KnownRuns;
use crate::need::Need;
use cc2_base::programs::{Programs, RunAnswer};
use cc2_error::error::NoMemory;
use cc2_error::path_and_args::PathAndArgs;
use std::alloc::Global;

/// Programs of which so many answers are known as were handed in. A command without one is refused as if memory ran
/// out, and noted as a need.
#[derive(Drop)]
pub struct AskedPrograms<'a> {
    known: &'a KnownRuns,
    needed: Option<Need>,
    count: u64,
}

impl<'a> AskedPrograms<'a> {
    ghost use Rattle.std.specs.Prelude.{◌≡◌};

    /// The programs of which so much is known, none run yet.
    pub fn new(known: &'a KnownRuns) -> AskedPrograms<'a>
        ensures { result.known.now ≡ known.now }
    {
        AskedPrograms {
            known,
            needed: None,
            count: 0,
        }
    }

    /// The command whose answer had to be known and isn't.
    pub fn take_need(&mut self) -> Option<Need> {
        self.needed.take()
    }
}

impl Programs for AskedPrograms<'_> {
    ghost use Rattle.cc2_ask.specs.Views.{runs_of};
    ghost use Rattle.cc2_ask.specs.Givens.{AgreesOnRuns};

    ghost told = { λ programs answers. AgreesOnRuns (runs_of programs.known.now) answers };

    ghost runs = { λ programs. programs.count };

    fn run(
        &mut self,
        alloc: Global,
        program: &str,
        args: &[String],
    ) -> Result<RunAnswer, NoMemory> {
        self.count = self.count.saturating_add(1);
        if let Some(answer) = self.known.get(program, args) {
            return answer.try_clone(alloc);
        }
        self.needed = need_of(alloc, program, args);
        Err(NoMemory)
    }
}

// The need of a command's answer; none where memory ran out.
fn need_of(alloc: Global, program: &str, args: &[String]) -> Option<Need> {
    let mut copies = Vec::new(alloc);
    for arg in args {
        let copy = arg.clone().ok()?;
        copies.push(copy).ok()?;
    }
    let path = String::from_str(alloc, program).ok()?;
    Some(Need::Answer(PathAndArgs { path, args: copies }))
}
