//! What is wrong in a file.
ghost use Rattle.std.specs.Prelude.{IfOk};
ghost use Rattle.toml.specs.View.{table_view};
ghost use Rattle.cc2_base.specs.Told.{WhereTold};
ghost use Rattle.cc2_findings.specs.Files.{IsContent, IsLinted, AreOfBytes, AreOfText, AreOfTable, AreOfRefused, IsValueFault, IsAlone};

use crate::alone::ValueFault;
use crate::cfg_keys::{CfgFinding, cfg_findings};
use crate::finding::{Finding, table_findings};
use crate::kind::Kind;
use crate::refusal::refusal;
use crate::values::value_faults;
use cc2_base::files::{Files, ReadFault};
use cc2_error::error::{Error, NoMemory};
use std::alloc::Global;

/// Why a file is no configuration (Cargo Reference, Configuration,
/// [configuration format](https://doc.rust-lang.org/cargo/reference/config.html#configuration-format)).
#[derive(Debug, Drop)]
pub enum FileFault {
    /// Nothing can be read at the path.
    Unreadable,
    /// It isn't UTF-8.
    NotText,
    /// It is no TOML.
    NotToml(TomlFault),
    /// A value is of a wrong type, or a command or a provider is none: of several faults the first that reading meets.
    BadValue(Error),
}

/// Why a text is no TOML, as its reader says it.
#[derive(Debug, Drop)]
pub struct TomlFault {
    /// What is wrong.
    pub message: String,
    /// How many bytes are before what is wrong.
    pub start: usize,
    /// How many bytes are before what follows it.
    pub end: usize,
}

/// What is wrong in a file.
#[derive(Debug, Drop)]
pub struct FileFindings {
    /// Why it is no configuration, if it is none.
    pub fault: Option<FileFault>,
    /// Its keys that are set to values which a load refuses.
    pub values: Vec<ValueFault>,
    /// What is wrong at its keys; nothing where it is no TOML.
    pub findings: Vec<Finding<Kind>>,
    /// What is wrong with its keys of `target`.
    pub keys: Vec<CfgFinding>,
    /// What it holds; nothing where it is no TOML.
    pub table: toml::Table,
}

/// What is wrong in the file at a path (Cargo Reference, Configuration,
/// [configuration format](https://doc.rust-lang.org/cargo/reference/config.html#configuration-format)).
/// It is read once.
///
/// # Errors
/// `NoMemory` where memory ran out.
pub fn file_findings<F: Files>(
    alloc: Global,
    path: &str,
    files: &F,
) -> Result<FileFindings, NoMemory>
    ensures { WhereTold (F.told files.now) (λ fs. IfOk result (IsLinted fs path.now)) }
{
    let (found, _) = read_findings(alloc, path, files)?;
    Ok(found)
}

/// The same, and the bytes that the file holds; none where it can't be read. It is read once.
///
/// # Errors
/// `NoMemory` where memory ran out.
pub fn read_findings<F: Files>(
    alloc: Global,
    path: &str,
    files: &F,
) -> Result<(FileFindings, Vec<u8>), NoMemory>
    ensures linted { WhereTold (F.told files.now) (λ fs.
        IfOk result (λ read. IsLinted fs path.now read.0)) }
    ensures content { WhereTold (F.told files.now) (λ fs.
        IfOk result (λ read. IsContent fs path.now read.1.items)) }
{
    match files.read(alloc, path) {
        Ok(bytes) => {
            let found = bytes_findings(alloc, bytes.as_slice())?;
            Ok((found, bytes))
        }
        Err(ReadFault::Memory) => Err(NoMemory),
        Err(ReadFault::Unreadable) => { Ok((alone(alloc, FileFault::Unreadable), Vec::new(alloc))) }
    }
}

// What is wrong in these bytes.
fn bytes_findings(alloc: Global, bytes: &[u8]) -> Result<FileFindings, NoMemory>
    ensures { IfOk result (AreOfBytes bytes.now) }
{
    match std::str::from_utf8(bytes) {
        Ok(text) => text_findings(alloc, text),
        Err(_) => Ok(alone(alloc, FileFault::NotText)),
    }
}

// What is wrong in a text.
fn text_findings(alloc: Global, text: &str) -> Result<FileFindings, NoMemory>
    ensures { IfOk result (AreOfText text.now) }
{
    match toml::table_from_str(alloc, text) {
        Ok(table) => of_table(alloc, table),
        Err(error) => {
            if error.is_memory() {
                return Err(NoMemory);
            }
            let fault = toml_fault(alloc, &error)?;
            Ok(alone(alloc, FileFault::NotToml(fault)))
        }
    }
}

// What is wrong in a file's table.
fn of_table(alloc: Global, table: toml::Table) -> Result<FileFindings, NoMemory>
    ensures { IfOk result (AreOfTable (table_view table)) }
{
    let fault = value_fault(alloc, &table)?;
    let values = values_of(alloc, &fault, &table)?;
    let findings = table_findings(alloc, &table)?;
    let keys = cfg_findings(alloc, &table)?;
    Ok(FileFindings {
        fault,
        values,
        findings,
        keys,
        table,
    })
}

// A fault of a value, if there is one.
fn value_fault(alloc: Global, table: &toml::Table) -> Result<Option<FileFault>, NoMemory>
    ensures { IfOk result (IsValueFault (table_view table.now)) }
{
    match refusal(alloc, table)? {
        Some(error) => Ok(Some(FileFault::BadValue(error))),
        None => Ok(None),
    }
}

// The keys of a table that has this fault of a value, or none.
fn values_of(
    alloc: Global,
    fault: &Option<FileFault>,
    table: &toml::Table,
) -> Result<Vec<ValueFault>, NoMemory>
    ensures { IfOk result (λ found. AreOfRefused (table_view table.now) fault.now found.items) }
{
    match fault {
        Some(_) => value_faults(alloc, table),
        None => Ok(Vec::new(alloc)),
    }
}

// The findings of a file that has no table.
fn alone(alloc: Global, fault: FileFault) -> FileFindings
    ensures { IsAlone fault result }
{
    FileFindings {
        fault: Some(fault),
        values: Vec::new(alloc),
        findings: Vec::new(alloc),
        keys: Vec::new(alloc),
        table: toml::Table::new(alloc),
    }
}

// Why the TOML reader refuses a text, and where.
fn toml_fault(alloc: Global, error: &toml::de::Error) -> Result<TomlFault, NoMemory> {
    let message = String::from_str(alloc, error.message())?;
    let (start, end) = match error.span() {
        Some(span) => (span.start, span.end),
        None => (0, 0),
    };
    Ok(TomlFault {
        message,
        start,
        end,
    })
}
