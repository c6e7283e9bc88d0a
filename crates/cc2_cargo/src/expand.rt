//! The files that a configuration file expands to: itself and those that it includes.
ghost use Rattle.std.specs.Prelude.{◌≡◌, None, Some, ◌≢◌, ◌⊎◌, ◌++◌, List, String, map, reverse, string_bytes, true, false, Ok, Err, IfOk, IfErr, OnOk};
ghost use Rattle.std.specs.declared.alloc.Global.{Global};
ghost use Rattle.toml.specs.View.{table_view};
ghost use Rattle.toml.specs.Parse.{parse_document};
ghost use Rattle.cc2_base.specs.Told.{WhereTold};
ghost use Rattle.cc2_cargo.specs.Includes.{include_view, includes_in};
ghost use Rattle.cc2_cargo.specs.declared.include.IncludeFault.{IncludeFault};
ghost use Rattle.cc2_cargo.specs.declared.include.IncludeFault.TheVariants as cause_of;
ghost use Rattle.cc2_cargo.specs.Expanding.{AreExpanded, AreIncluded, IsAbsent, IsExpandCause, IsFileTable, IsIncludesCause, IsTableFault, IsWanted};
ghost use Rattle.cc2_cargo.specs.Expanding.{StopsAt, config_file, included_in, is_read};
ghost use Rattle.cc2_cargo.specs.Readings.{Advances, AreMarked, AreMarkedWith, AreOthersMarked, AreOthersMarkedWith, PutsIncludes, SaysNoToml, state_before, state_of};
ghost use Rattle.cc2_cargo.specs.declared.expand.FileFault.TheVariants as fault;

use crate::include::{Include, IncludeFault, includes};
use crate::marks::path_mark;
use cc2_base::files::{Files, ReadFault};
use cc2_base::path::{join, parent, same};
use cc2_error::error::NoMemory;
use std::alloc::{AllocError, Global};
use std::collections::BTreeSet;

/// A configuration file that is read.
#[derive(Debug, Drop)]
pub struct ConfigFile {
    /// Its path.
    pub path: String,
    /// Its table, with the key `include`.
    pub table: toml::Table,
}

/// Why a file and those that it includes aren't read.
#[derive(Debug, Drop)]
pub enum FileFault {
    /// The file at this path can't be read.
    Unreadable(String),
    /// The file at this path isn't UTF-8.
    NotText(String),
    /// The file at this path is no TOML, with the reader's message.
    NoToml(String, String),
    /// The key `include` of the file at this path is rejected.
    Include(String, IncludeFault),
    /// The file at this path is included a second time.
    Twice(String),
    /// Memory ran out.
    Memory,
}

impl From<AllocError> for FileFault {
    ghost from_gives = { λ _ why. why ≡ fault.Memory };

    fn from(_error: AllocError) -> FileFault {
        FileFault::Memory
    }
}

impl From<NoMemory> for FileFault {
    ghost from_gives = { λ _ why. why ≡ fault.Memory };

    fn from(_error: NoMemory) -> FileFault {
        FileFault::Memory
    }
}

/// The files that the one at a path expands to, the strongest first: itself, then what its last include expands to,
/// and so on to its first one (Cargo Reference, Configuration,
/// [`include`](https://doc.rust-lang.org/cargo/reference/config.html#including-extra-configuration-files)).
/// What a file includes is looked up from its folder. A file that may be absent and is absent is passed over.
///
/// # Errors
/// The first that is met, the strongest file first:
/// - `FileFault::Unreadable`, `NotText` and `NoToml` where a file can't be read, isn't UTF-8 or is no TOML;
/// - `FileFault::Include` where its `include` has a fault;
/// - `FileFault::Twice` where a file is included that was read before; two paths are one file where they have the same
///   components;
/// - `FileFault::Memory` where memory ran out.
pub fn expanded<F: Files>(
    alloc: Global,
    path: &str,
    files: &F,
) -> Result<Vec<ConfigFile>, FileFault>
    ensures ok { WhereTold (F.told files.now) (λ fs. IfOk result (λ list.
        AreExpanded fs path.now (map config_file list.items))) }
    ensures refused { WhereTold (F.told files.now) (λ fs. IfErr result (λ why.
        (why ≡ fault.Memory) ⊎ IsExpandCause fs path.now why)) }
{
    let mut first = Vec::new(alloc);
    let path = String::from_str(alloc, path)?;
    let include = Include {
        path,
        optional: false,
    };
    if first.push(include).is_err() {
        return Err(FileFault::Memory);
    }
    expanded_all(alloc, first, files)
}

/// The files that all of these expand to, the last one's first. Each is seen from where the program runs.
///
/// # Errors
/// As `expanded`. A file that two of them include is refused too.
pub(crate) fn expanded_all<F: Files>(
    alloc: Global,
    first: Vec<Include>,
    files: &F,
) -> Result<Vec<ConfigFile>, FileFault>
    ensures ok { WhereTold (F.told files.now) (λ fs. IfOk result (λ list.
        AreIncluded fs (reverse (map include_view first.items)) (map config_file list.items))) }
    ensures refused { WhereTold (F.told files.now) (λ fs. IfErr result (λ why. (why ≡ fault.Memory)
        ⊎ IsIncludesCause fs (reverse (map include_view first.items)) why)) }
{
    let mut read = Vec::new(alloc);
    let mut marks = BTreeSet::new(alloc);
    let mut next = first;
    // Memory ends before the numbers do.
    'files: for _ in 0..usize::MAX {
        match next.pop() {
            None => return Ok(read),
            Some(include) => read_next(alloc, include, &mut read, &mut marks, &mut next, files)?,
        }
    }
    Err(FileFault::Memory)
}

// Reads the next file, unless it is absent and may be. Its mark is put among the others.
// What it includes is put on the stack.
fn read_next<F: Files>(
    alloc: Global,
    include: Include,
    read: &mut Vec<ConfigFile>,
    marks: &mut BTreeSet<String>,
    next: &mut Vec<Include>,
    files: &F,
) -> Result<(), FileFault>
    requires { AreOthersMarked marks.old (map config_file read.old.items) }
    ensures marked { OnOk result
        (AreOthersMarked marks.new (map config_file read.new.items)) }
    ensures ok { WhereTold (F.told files.now) (λ fs. OnOk result
        (Advances fs (state_before read.old include next.old) (state_of read.new next.new))) }
    ensures refused { WhereTold (F.told files.now) (λ fs. IfErr result (λ why.
        (why ≡ fault.Memory) ⊎ (IsWanted fs (include_view include)
        × StopsAt fs (map config_file read.old.items) (include_view include) why))) }
{
    if is_absent(&include, files)? {
        return Ok(());
    }
    if was_read(alloc, read.as_slice(), include.path.as_str(), marks)? {
        return Err(FileFault::Twice(include.path));
    }
    let table = table_at(alloc, include.path.as_str(), files)?;
    put_includes(alloc, include.path.as_str(), &table, next)?;
    let file = ConfigFile {
        path: include.path,
        table,
    };
    match read.push(file) {
        Ok(()) => Ok(()),
        Err(_) => Err(FileFault::Memory),
    }
}

// Whether a file may be absent, and is.
fn is_absent<F: Files>(include: &Include, files: &F) -> Result<bool, NoMemory>
    ensures yes { WhereTold (F.told files.now) (λ fs. IfOk result (λ absent.
        absent ≡ true → IsAbsent fs (include_view include.now))) }
    ensures no { WhereTold (F.told files.now) (λ fs. IfOk result (λ absent.
        absent ≡ false → IsWanted fs (include_view include.now))) }
{
    if !include.optional {
        return Ok(false);
    }
    Ok(!files.exists(include.path.as_str())?)
}

// Whether a file is among those that are read. The first of them has no mark: where it includes none, no mark is made.
fn was_read(
    alloc: Global,
    read: &[ConfigFile],
    path: &str,
    marks: &mut BTreeSet<String>,
) -> Result<bool, NoMemory>
    requires { AreOthersMarked marks.old (map config_file read.now) }
    ensures read { IfOk result (λ was. was ≡ is_read path.now (map config_file read.now)) }
    ensures marked { IfOk result (λ was. was ≡ false
        → AreOthersMarkedWith marks.new (map config_file read.now) path.now) }
{
    let Some((first, others)) = read.split_first() else {
        return Ok(false);
    };
    if same(first.path.as_str(), path) {
        return Ok(true);
    }
    was_included(alloc, others, path, marks)
}

// Whether a file is among those that are read after the first. Its mark is put among theirs: these are looked through
// only where it was there before.
fn was_included(
    alloc: Global,
    read: &[ConfigFile],
    path: &str,
    marks: &mut BTreeSet<String>,
) -> Result<bool, NoMemory>
    requires { AreMarked marks.old (map config_file read.now) }
    ensures read { IfOk result (λ was. was ≡ is_read path.now (map config_file read.now)) }
    ensures marked { OnOk result (AreMarkedWith marks.new (map config_file read.now) path.now) }
{
    let mark = path_mark(alloc, path)?;
    if marks.insert(mark)? {
        return Ok(false);
    }
    Ok(is_read(read, path))
}

// Whether a file is among those that are read, which are all looked through.
fn is_read(read: &[ConfigFile], path: &str) -> bool
    ensures { result ≡ is_read path.now (map config_file read.now) }
{
    for file in read {
        if same(file.path.as_str(), path) {
            return true;
        }
    }
    false
}

// The table of the file at a path.
fn table_at<F: Files>(alloc: Global, path: &str, files: &F) -> Result<toml::Table, FileFault>
    ensures ok { WhereTold (F.told files.now) (λ fs. IfOk result (λ table.
        IsFileTable fs path.now (table_view table))) }
    ensures refused { WhereTold (F.told files.now) (λ fs. IfErr result (λ why.
        (why ≡ fault.Memory) ⊎ IsTableFault fs path.now why)) }
{
    let bytes = match files.read(alloc, path) {
        Ok(bytes) => bytes,
        Err(ReadFault::Memory) => return Err(FileFault::Memory),
        Err(ReadFault::Unreadable) => {
            return Err(FileFault::Unreadable(String::from_str(alloc, path)?));
        }
    };
    match std::str::from_utf8(bytes.as_slice()) {
        Ok(text) => table_in(alloc, path, text),
        Err(_) => Err(FileFault::NotText(String::from_str(alloc, path)?)),
    }
}

// The table of a text, which is that of the file at a path.
fn table_in(alloc: Global, path: &str, text: &str) -> Result<toml::Table, FileFault>
    ensures ok { IfOk result (λ table. parse_document text.now ≡ Some (table_view table)) }
    ensures refused { IfErr result (λ why. (why ≡ fault.Memory)
        ⊎ ((parse_document text.now ≡ None) × SaysNoToml path.now why)) }
{
    match toml::table_from_str(alloc, text) {
        Ok(table) => Ok(table),
        Err(error) => {
            if error.is_memory() {
                return Err(FileFault::Memory);
            }
            let path = String::from_str(alloc, path)?;
            Err(FileFault::NoToml(path, message(alloc, &error)?))
        }
    }
}

/// The message of the TOML reader, without the line break at its end.
///
/// # Errors
/// `NoMemory` where memory ran out.
pub(crate) fn message(alloc: Global, error: &toml::de::Error) -> Result<String, NoMemory> {
    let text = format!(in alloc; "{error}")?;
    Ok(String::from_str(alloc, text.trim_end())?)
}

// Puts what a file includes on the stack, the last one on top.
fn put_includes(
    alloc: Global,
    path: &str,
    table: &toml::Table,
    next: &mut Vec<Include>,
) -> Result<(), FileFault>
    ensures ok { OnOk result (PutsIncludes path.now (table_view table.now)
        (map include_view next.old.items) (map include_view next.new.items)) }
    ensures refused { IfErr result (λ why. (why ≡ fault.Memory) ⊎ ((cause : IncludeFault)
        × (file : String Global) × (why ≡ fault.Include file cause)
        × (string_bytes file ≡ path.now) × (includes_in (table_view table.now) ≡ Err cause))) }
{
    match includes(alloc, table) {
        Ok(list) => put_all(alloc, parent(path).unwrap_or(""), list, next),
        Err(cause) => {
            if is_memory(cause) {
                return Err(FileFault::Memory);
            }
            let path = String::from_str(alloc, path)?;
            Err(FileFault::Include(path, cause))
        }
    }
}

// Whether memory ran out.
fn is_memory(cause: IncludeFault) -> bool
    ensures { result ≡ false → cause ≢ cause_of.Memory }
{
    matches!(cause, IncludeFault::Memory)
}

/// Puts these files on the stack, each seen from a folder.
///
/// # Errors
/// `FileFault::Memory` where memory ran out.
pub(crate) fn put_all(
    alloc: Global,
    folder: &str,
    list: Vec<Include>,
    next: &mut Vec<Include>,
) -> Result<(), FileFault>
    ensures ok { OnOk result (map include_view next.new.items
        ≡ map include_view next.old.items
        ++ map (included_in folder.now) (map include_view list.items)) }
    ensures refused { IfErr result (λ why. why ≡ fault.Memory) }
{
    for include in list {
        let path = join(alloc, folder, include.path.as_str())?;
        let seen_from_folder = Include {
            path,
            optional: include.optional,
        };
        if next.push(seen_from_folder).is_err() {
            return Err(FileFault::Memory);
        }
    }
    Ok(())
}
