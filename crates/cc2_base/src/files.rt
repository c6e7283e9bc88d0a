//! Files by their paths: the interface, a table in memory, and the files of the machine.
ghost use Rattle.std.specs.Prelude.{◌≡◌, ◌≢◌, ℕ, List, Option, Some, None, Ok, Err, is_some, IsSome, IfOk, IsOk, OnOk, OnErr, string_bytes, option_map};
ghost use Rattle.cc2_base.specs.Told.{Tree, WhereTold, tree_of, with_file};

use crate::absences::Absences;
use crate::found_files::FoundFiles;
use crate::path::parent;
use crate::special_files::read_special;
use cc2_error::error::NoMemory;
use std::alloc::{AllocError, Global};
use std::collections::BTreeMap;
use std::{fs, io};

/// Why a file was not read: memory ran out, or nothing can be read at the path.
#[derive(Clone, Copy, Debug, PartialEq, Eq)]
pub enum ReadFault {
    /// Memory ran out.
    Memory,
    /// Nothing is there, or what is there cannot be read.
    Unreadable,
}

impl From<AllocError> for ReadFault {
    ghost use Rattle.cc2_base.specs.declared.files.ReadFault.TheVariants.{Memory};

    ghost from_gives = { λ _ e. e ≡ Memory };

    fn from(_e: AllocError) -> ReadFault {
        ReadFault::Memory
    }
}

/// Files by their paths: the disk's, or a table's.
///
/// An implementation may say which trees it agrees with. A tree is a map from a path's text to bytes or to a
/// fault. In each of these trees its answers are those of the tree. A table agrees with one tree alone.
/// `HostFiles` names no tree.
pub trait Files {
    /// The trees that they agree with.
    ghost told: { Self → Tree → Type 0 };

    /// Whether anything is at the path: a file, a folder, or what cannot be read.
    ///
    /// # Errors
    /// `NoMemory` where memory ran out.
    fn exists(&self, path: &str) -> Result<bool, NoMemory>
        ensures { WhereTold (told self.now) (λ tree. IfOk result (λ there.
            there ≡ is_some (tree path.now))) };

    /// The bytes of the file at the path.
    ///
    /// # Errors
    /// `ReadFault::Unreadable` where nothing is there or a fault is, and `ReadFault::Memory` where memory
    /// ran out.
    fn read(&self, alloc: Global, path: &str) -> Result<Vec<u8>, ReadFault>
        ensures bytes { WhereTold (told self.now) (λ tree. IfOk result (λ bytes.
            tree path.now ≡ Some (Some bytes.items))) }
        ensures unreadable { WhereTold (told self.now) (λ tree. result ≡ Err ReadFault.Unreadable →
            (bytes : List ℕ) → tree path.now ≢ Some (Some bytes)) };
}

/// Files in memory, which agree with the tree of what they hold, and with no other.
#[derive(Drop)]
pub struct FileTable {
    table: BTreeMap<String, Option<Vec<u8>>>,
}

impl FileTable {
    /// A table with nothing at any path. It takes no memory before the first `put`.
    pub fn new(alloc: Global) -> FileTable
        ensures { (path : List ℕ) → tree_of result path ≡ None }
    {
        FileTable {
            table: BTreeMap::new(alloc),
        }
    }

    /// Sets what is at a path, in place of what was there: bytes, or none for a fault. Other paths keep
    /// what they hold.
    ///
    /// # Errors
    /// `NoMemory` where nothing was at the path and the table can't grow; it is then as it was.
    pub fn put(&mut self, path: String, content: Option<Vec<u8>>) -> Result<(), NoMemory>
        ensures ok { OnOk result ((q : List ℕ) → tree_of self.new q
            ≡ with_file (tree_of self.old) (string_bytes path)
            (option_map (λ v. v.items) content) q) }
        ensures err { OnErr result ((q : List ℕ) → tree_of self.new q ≡ tree_of self.old q) }
        ensures succeeds { IsSome (tree_of self.old (string_bytes path)) → IsOk result }
    {
        self.table.insert(path, content)?;
        Ok(())
    }
}

impl Files for FileTable {
    ghost told = { λ t tree. tree ≡ tree_of t };

    // No memory is taken here, so there is always an answer.
    fn exists(&self, path: &str) -> Result<bool, NoMemory>
        ensures { result ≡ Ok (is_some (tree_of self.now path.now)) }
    {
        Ok(self.table.contains_key(path))
    }

    // Memory is taken for bytes alone.
    fn read(&self, alloc: Global, path: &str) -> Result<Vec<u8>, ReadFault>
        ensures bytes { IfOk result (λ bytes. tree_of self.now path.now ≡ Some (Some bytes.items)) }
        ensures unreadable { result ≡ Err ReadFault.Unreadable →
            (bytes : List ℕ) → tree_of self.now path.now ≢ Some (Some bytes) }
        ensures nothing { tree_of self.now path.now ≡ None → result ≡ Err ReadFault.Unreadable }
        ensures fault { tree_of self.now path.now ≡ Some None → result ≡ Err ReadFault.Unreadable }
    {
        match self.table.get(path) {
            Some(Some(bytes)) => Ok(Vec::from_slice(alloc, bytes.as_slice())?),
            Some(None) => Err(ReadFault::Unreadable),
            None => Err(ReadFault::Unreadable),
        }
    }
}

/// The files of the machine. They name no tree: no contract says what a disk holds. A path that the
/// system refuses to look at counts as one where nothing is (Rust's
/// [`Path::exists`](https://doc.rust-lang.org/std/path/struct.Path.html#method.exists)). Besides regular
/// files only a link to `/dev/null` is read, as an empty file, and an open descriptor, such as a shell's
/// `<(..)`. At a folder, another pipe or another device nothing can be read.
///
/// Where paths are absent one after the other, as the files of a walk are, the folder is looked at
/// first. Of two files of an absent folder that costs one look. A file that a walk found isn't looked
/// at again before it is read.
#[derive(Drop)]
pub struct HostFiles<R: Drop> {
    runtime: R,
    absences: Absences,
    found: FoundFiles,
}

impl<R: Drop> HostFiles<R> {
    /// The files that this runtime reaches. It takes no memory and doesn't look at the disk.
    pub fn new(runtime: R) -> HostFiles<R> {
        HostFiles {
            runtime,
            absences: Absences::none(),
            found: FoundFiles::none(),
        }
    }
}

impl<R: std::rt::Files + AllocGlobal + Drop> HostFiles<R> {
    // Whether the system finds anything at the path. A regular file is noted for its reading.
    fn finds(&self, path: &str) -> Result<bool, NoMemory> {
        match fs::metadata(&self.runtime, path) {
            Ok(found) if found.is_file() => {
                self.found.put(self.runtime.alloc(), path)?;
                Ok(true)
            }
            Ok(_) => {
                self.found.forget();
                Ok(true)
            }
            Err(e) if e.kind() == io::ErrorKind::OutOfMemory => Err(NoMemory),
            Err(_) => Ok(false),
        }
    }

    // Whether the system says that the path's folder is absent. Where it refuses to look, it doesn't.
    fn lacks_folder(&self, path: &str) -> Result<bool, NoMemory> {
        let folder = match parent(path) {
            Some(folder) if !folder.is_empty() => folder,
            _ => return Ok(false),
        };
        match fs::exists(&self.runtime, folder) {
            Ok(there) => Ok(!there),
            Err(e) if e.kind() == io::ErrorKind::OutOfMemory => Err(NoMemory),
            Err(_) => Ok(false),
        }
    }
}

impl<R: std::rt::Files + AllocGlobal + Drop> Files for HostFiles<R> {
    ghost told = { λ _ _. ⊥ };

    fn exists(&self, path: &str) -> Result<bool, NoMemory> {
        if self.absences.cover(path) {
            return Ok(false);
        }
        if self.absences.are_expected() {
            if self.lacks_folder(path)? {
                self.absences.put_folder(self.runtime.alloc(), path)?;
                return Ok(false);
            }
            self.absences.put(true);
        }
        let there = self.finds(path)?;
        self.absences.put(there);
        Ok(there)
    }

    // A pipe or a device may never end, so few of them are read.
    fn read(&self, _alloc: Global, path: &str) -> Result<Vec<u8>, ReadFault> {
        if !self.found.take(path) {
            match fs::metadata(&self.runtime, path) {
                Ok(found) if found.is_file() => (),
                Ok(_) => return or_fault(read_special(&self.runtime, path)),
                Err(e) => return Err(fault_of(&e)),
            }
        }
        or_fault(fs::read(&self.runtime, path))
    }
}

// What was read, or what the error of the machine is for a reader.
fn or_fault(read: io::Result<Vec<u8>>) -> Result<Vec<u8>, ReadFault> {
    match read {
        Ok(bytes) => Ok(bytes),
        Err(e) => Err(fault_of(&e)),
    }
}

// What an error of the machine is for a reader.
fn fault_of(error: &io::Error) -> ReadFault {
    match error.kind() {
        io::ErrorKind::OutOfMemory => ReadFault::Memory,
        _ => ReadFault::Unreadable,
    }
}
