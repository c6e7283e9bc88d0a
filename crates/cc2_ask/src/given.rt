//! What a request gives.
ghost use Rattle.std.specs.Prelude.{◌≡◌, Some, None, OnOk, option_map};
ghost use Rattle.cc2_ask.specs.Givens.{given_behind, given_of, nothing, with_record};
ghost use Rattle.cc2_ask.specs.Records.{records_in};
ghost use Rattle.cc2_ask.specs.Needs.{is_new, is_unread, need_view};
ghost use Rattle.cc2_ask.specs.Views.{AddsAll, given_view, known_view, record_view, IsGiven};

use crate::fault::Fault;
use crate::known::{Known, KnownPaths, KnownRuns};
use crate::need::Need;
use crate::reader::Reader;
use crate::record::Record;
use cc2_base::machine::Machine;
use cc2_error::error::NoMemory;
use std::alloc::Global;

/// What a request gives: the question's words, the machine, what is known of files and programs, and the state of a
/// load that is handed back.
#[derive(Drop)]
pub struct Given {
    pub words: Vec<String>,
    pub machine: Machine,
    pub paths: KnownPaths,
    pub runs: KnownRuns,
    pub state: Option<Vec<u8>>,
}

impl Given {
    /// Reads a request: records up to its end. Of what is said twice the later record holds; words and variables
    /// come one after the other.
    ///
    /// # Errors
    /// `Fault::Malformed` where it isn't such records, `Fault::Memory` where memory ran out.
    pub fn read(alloc: Global, request: &[u8]) -> Result<Given, Fault>
        ensures { IsGiven (given_of request.now) result }
    {
        let mut given = Given::nothing(alloc);
        let mut reader = Reader::new(request);
        match given.add_records(alloc, request.len(), &mut reader) {
            Ok(()) => Ok(given),
            Err(fault) => Err(fault),
        }
    }

    // Adds what all records say that are left; there are at most so many.
    fn add_records(
        &mut self,
        alloc: Global,
        most: usize,
        reader: &mut Reader<'_>,
    ) -> Result<(), Fault>
        ensures { AddsAll (given_behind (given_view self.old) (records_in most reader.old.rest.now))
            (given_view self.new) result }
    {
        for _ in 0..most {
            if reader.is_at_end() {
                return Ok(());
            }
            match Record::read(alloc, reader) {
                Ok(one) => self.add(one)?,
                Err(fault) => return Err(fault),
            }
        }
        if reader.is_at_end() {
            Ok(())
        } else {
            Err(Fault::Malformed)
        }
    }

    // What no record gives.
    fn nothing(alloc: Global) -> Given
        ensures { given_view result ≡ nothing }
    {
        let machine = Machine {
            current_dir: String::new(alloc),
            env: Vec::new(alloc),
            home: None,
        };
        Given {
            words: Vec::new(alloc),
            machine,
            paths: KnownPaths::new(alloc),
            runs: KnownRuns::new(alloc),
            state: None,
        }
    }

    // Adds what a record says.
    fn add(&mut self, one: Record) -> Result<(), NoMemory>
        ensures { OnOk result
            (given_view self.new ≡ with_record (given_view self.old) (record_view one)) }
    {
        match one {
            Record::Word(word) => self.words.push(word)?,
            Record::Directory(dir) => self.machine.current_dir = dir,
            Record::Home(home) => self.machine.home = Some(home),
            Record::Variable(name, value) => self.machine.env.push((name, value))?,
            Record::Path(path, known) => self.paths.put(path, known)?,
            Record::Run(command, answer) => self.runs.put(command, answer)?,
            Record::State(bytes) => self.state = Some(bytes),
        }
        Ok(())
    }

    /// Whether the request doesn't give what is needed.
    pub fn is_new(&self, need: &Need) -> bool
        ensures { result ≡ is_new (given_view self.now) (need_view need.now) }
    {
        match need {
            Need::Exists(path) => self.paths.get(path.as_str()).is_none(),
            Need::Content(path) => is_unread(self.paths.get(path.as_str())),
            Need::Answer(command) => self
                .runs
                .get(command.path.as_str(), command.args.as_slice())
                .is_none(),
        }
    }
}

// Whether what is at a path isn't known.
fn is_unread(known: Option<&Known>) -> bool
    ensures { result ≡ is_unread (option_map (λ known. known_view known.now) known.entry) }
{
    match known {
        None => true,
        Some(Known::Unread) => true,
        Some(_) => false,
    }
}
