//! The records of a request.
ghost use Rattle.std.specs.Prelude.{◌≡◌};
ghost use Rattle.cc2_error.specs.Commands.{command_of};
ghost use Rattle.cc2_base.specs.ToldPrograms.{output_of};
ghost use Rattle.cc2_ask.specs.Records as records;
ghost use Rattle.cc2_ask.specs.Views.{IsRead, record_view};

use crate::fault::Fault;
use crate::known::Known;
use crate::reader::Reader;
use cc2_base::programs::RunAnswer;
use cc2_error::path_and_args::PathAndArgs;
use std::alloc::Global;

/// A record: one thing that a request says.
#[derive(Drop)]
pub enum Record {
    /// The next word of the question.
    Word(String),
    /// The directory in which the process is.
    Directory(String),
    /// The home directory.
    Home(String),
    /// A variable's name and value.
    Variable(String, Vec<u8>),
    /// What is known of a path.
    Path(String, Known),
    /// What a command answered.
    Run(PathAndArgs, RunAnswer),
    /// The state that the reply to a load had.
    State(Vec<u8>),
}

impl Record {
    /// Reads the next record: a byte for its kind, and the fields of that kind.
    ///
    /// # Errors
    /// `Fault::Malformed` where the request ends within it, the kind is none or a field that is to be text isn't;
    /// `Fault::Memory` where memory ran out.
    pub fn read(alloc: Global, reader: &mut Reader<'_>) -> Result<Record, Fault>
        ensures { IsRead record_view
            (records.record_at reader.old.rest.now) result reader.new.rest.now }
    {
        match reader.byte() {
            Some(kind) => of_kind(alloc, kind, reader),
            None => Err(Fault::Malformed),
        }
    }
}

// The record of this kind.
fn of_kind(alloc: Global, kind: u8, reader: &mut Reader<'_>) -> Result<Record, Fault>
    ensures { IsRead record_view
        (records.fields_at kind reader.old.rest.now) result reader.new.rest.now }
{
    match kind {
        b'W' => Ok(Record::Word(reader.text(alloc)?)),
        b'C' => Ok(Record::Directory(reader.text(alloc)?)),
        b'H' => Ok(Record::Home(reader.text(alloc)?)),
        b'V' => variable(alloc, reader),
        b'P' => run(alloc, reader),
        b'X' => Ok(Record::Run(command(alloc, reader)?, RunAnswer::NotRun)),
        b'S' => Ok(Record::State(reader.bytes(alloc)?)),
        _ => of_path(alloc, kind, reader),
    }
}

// A variable.
fn variable(alloc: Global, reader: &mut Reader<'_>) -> Result<Record, Fault>
    ensures { IsRead record_view (records.two_fields_at records.variable reader.old.rest.now) result
        reader.new.rest.now }
{
    let name = reader.text(alloc)?;
    Ok(Record::Variable(name, reader.bytes(alloc)?))
}

// The record of this kind that says something of a path.
fn of_path(alloc: Global, kind: u8, reader: &mut Reader<'_>) -> Result<Record, Fault>
    ensures { IsRead record_view
        (records.path_at kind reader.old.rest.now) result reader.new.rest.now }
{
    match kind {
        b'F' => file(alloc, reader),
        b'U' => Ok(Record::Path(reader.text(alloc)?, Known::Unreadable)),
        b'T' => Ok(Record::Path(reader.text(alloc)?, Known::Unread)),
        b'N' => Ok(Record::Path(reader.text(alloc)?, Known::Absent)),
        _ => Err(Fault::Malformed),
    }
}

// A file and what it holds.
fn file(alloc: Global, reader: &mut Reader<'_>) -> Result<Record, Fault>
    ensures { IsRead record_view (records.file_at reader.old.rest.now) result reader.new.rest.now }
{
    let path = reader.text(alloc)?;
    Ok(Record::Path(path, Known::Reads(reader.bytes(alloc)?)))
}

// A program and its arguments.
fn command(alloc: Global, reader: &mut Reader<'_>) -> Result<PathAndArgs, Fault>
    ensures { IsRead command_of
        (records.command_at reader.old.rest.now) result reader.new.rest.now }
{
    let path = reader.text(alloc)?;
    let args = reader.texts(alloc)?;
    Ok(PathAndArgs { path, args })
}

// A command and what it answered.
fn run(alloc: Global, reader: &mut Reader<'_>) -> Result<Record, Fault>
    ensures { IsRead record_view (records.run_at reader.old.rest.now) result reader.new.rest.now }
{
    let command = command(alloc, reader)?;
    Ok(Record::Run(command, done(alloc, reader)?))
}

// What a program that ended left.
fn done(alloc: Global, reader: &mut Reader<'_>) -> Result<RunAnswer, Fault>
    ensures { IsRead output_of (records.done_at reader.old.rest.now) result reader.new.rest.now }
{
    let code = code(alloc, reader)?;
    let stdout = reader.bytes(alloc)?;
    let stderr = reader.bytes(alloc)?;
    Ok(RunAnswer::Done {
        code,
        stdout,
        stderr,
    })
}

// An exit status in one byte; none where a signal ended the program.
fn code(alloc: Global, reader: &mut Reader<'_>) -> Result<Option<i32>, Fault>
    ensures { IsRead
        (λ code. code) (records.code_at reader.old.rest.now) result reader.new.rest.now }
{
    let field = reader.bytes(alloc)?;
    match field.as_slice() {
        [] => Ok(None),
        [code] => Ok(Some(i32::from(*code))),
        _ => Err(Fault::Malformed),
    }
}
