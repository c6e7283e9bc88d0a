//! The real paths of what is at paths.
ghost use Rattle.std.specs.Prelude.{◌≡◌, ℕ, List, Option, None, Ok, IfOk, IsOk, IsSome, OnErr, OnOk, map, option_map, string_bytes};
ghost use Rattle.cc2_base.specs.Paths.{ancestors_of};
ghost use Rattle.cc2_base.specs.Told.{WhereTold};
ghost use Rattle.cc2_cargo.specs.RealHomes.{real_folder, real_or_own};
ghost use Rattle.cc2_cargo.specs.RealPaths.{RealPathMap, real_paths_of, with_real_path};

use cc2_base::path::{ancestors, join};
use cc2_error::error::NoMemory;
use std::alloc::Global;
use std::collections::BTreeMap;
use std::{fs, io};

/// The real paths of what is at paths: on the disk, or as a table says.
///
/// An implementation may say which maps it agrees with. A map gives a path's text its real path's, or none.
/// A table agrees with one map alone. `HostRealPaths` names none.
pub trait RealPaths {
    /// The maps that they agree with.
    ghost told: { Self → RealPathMap → Type 0 };

    /// The absolute path of what is at a path, without links, `.` and `..` (Rust's
    /// [`fs::canonicalize`](https://doc.rust-lang.org/std/fs/fn.canonicalize.html)). None where nothing is
    /// there, where the system doesn't say, and where it isn't UTF-8.
    ///
    /// # Errors
    /// `NoMemory` where memory ran out.
    fn real_path(&self, alloc: Global, path: &str) -> Result<Option<String>, NoMemory>
        ensures { WhereTold (told self.now) (λ reals. IfOk result (λ real.
            option_map string_bytes real ≡ reals path.now)) };

    /// The real paths of the `.cargo` of a directory and of each one above it, the nearest first. Where none is
    /// known it is the path itself.
    ///
    /// # Errors
    /// `NoMemory` where memory ran out.
    fn real_folders(&self, alloc: Global, dir: &str) -> Result<Vec<String>, NoMemory>
        ensures { WhereTold (told self.now) (λ reals. IfOk result (λ folders.
            map string_bytes folders.items ≡ map (real_folder reals) (ancestors_of dir.now))) };
}

/// The real path of what is at a path, where it is known; else the path itself.
///
/// # Errors
/// `NoMemory` where memory ran out.
pub(crate) fn real_or_own<L: RealPaths>(
    alloc: Global,
    path: String,
    reals: &L,
) -> Result<String, NoMemory>
    ensures { WhereTold (L.told reals.now) (λ real_paths. IfOk result (λ real.
        string_bytes real ≡ real_or_own real_paths (string_bytes path))) }
{
    let real = reals.real_path(alloc, path.as_str())?;
    Ok(real.unwrap_or(path))
}

/// Real paths in memory, which agree with the map of what they hold, and with no other.
#[derive(Drop)]
pub struct RealPathTable {
    table: BTreeMap<String, String>,
}

impl RealPathTable {
    /// A table without a real path. It takes no memory before the first `put`.
    pub fn new(alloc: Global) -> RealPathTable
        ensures { (path : List ℕ) → real_paths_of result path ≡ None }
    {
        RealPathTable {
            table: BTreeMap::new(alloc),
        }
    }

    /// Sets the real path of what is at a path, in place of the one before. Those of other paths stay.
    ///
    /// # Errors
    /// `NoMemory` where the path had no real path and the table can't grow; it is then as it was.
    pub fn put(&mut self, path: String, real: String) -> Result<(), NoMemory>
        ensures ok { OnOk result ((q : List ℕ) → real_paths_of self.new q
            ≡ with_real_path (real_paths_of self.old) (string_bytes path) (string_bytes real) q) }
        ensures err { OnErr result ((q : List ℕ) →
            real_paths_of self.new q ≡ real_paths_of self.old q) }
        ensures succeeds { IsSome (real_paths_of self.old (string_bytes path)) → IsOk result }
    {
        self.table.insert(path, real)?;
        Ok(())
    }
}

impl RealPaths for RealPathTable {
    ghost told = { λ t reals. reals ≡ real_paths_of t };

    // Memory is taken for a real path alone.
    fn real_path(&self, alloc: Global, path: &str) -> Result<Option<String>, NoMemory>
        ensures real { IfOk result (λ real.
            option_map string_bytes real ≡ real_paths_of self.now path.now) }
        ensures none { real_paths_of self.now path.now ≡ None → result ≡ Ok None }
    {
        match self.table.get(path) {
            Some(real) => Ok(Some(String::from_str(alloc, real.as_str())?)),
            None => Ok(None),
        }
    }

    fn real_folders(&self, alloc: Global, dir: &str) -> Result<Vec<String>, NoMemory>
        ensures { IfOk result (λ folders. map string_bytes folders.items
            ≡ map (real_folder (real_paths_of self.now)) (ancestors_of dir.now)) }
    {
        let mut folders = Vec::new(alloc);
        for ancestor in ancestors(dir) {
            let folder = join(alloc, ancestor, ".cargo")?;
            let real = self.real_path(alloc, folder.as_str())?;
            folders.push(real.unwrap_or(folder))?;
        }
        Ok(folders)
    }
}

/// The real paths of the machine. They name no map: no contract says what a disk holds.
#[derive(Drop)]
pub struct HostRealPaths<R: Drop> {
    runtime: R,
}

impl<R: Drop> HostRealPaths<R> {
    /// Those of the files that this runtime reaches. It takes no memory and doesn't look at the disk.
    pub fn new(runtime: R) -> HostRealPaths<R> {
        HostRealPaths { runtime }
    }
}

impl<R: std::rt::Files + AllocGlobal + Drop> HostRealPaths<R> {
    // Whether this path is the real path of what is there.
    fn is_real(&self, alloc: Global, path: &str) -> Result<bool, NoMemory> {
        match self.real_path(alloc, path)? {
            Some(real) => Ok(real.as_str() == path),
            None => Ok(false),
        }
    }

    // Whether a link is at this path.
    fn is_link(&self, path: &str) -> bool {
        match fs::symlink_metadata(&self.runtime, path) {
            Ok(metadata) => metadata.is_symlink(),
            Err(_) => false,
        }
    }
}

impl<R: std::rt::Files + AllocGlobal + Drop> RealPaths for HostRealPaths<R> {
    ghost told = { λ _ _. ⊥ };

    fn real_path(&self, _alloc: Global, path: &str) -> Result<Option<String>, NoMemory> {
        match fs::canonicalize(&self.runtime, path) {
            Ok(real) => Ok(Some(real.into_string())),
            Err(e) if e.kind() == io::ErrorKind::OutOfMemory => Err(NoMemory),
            Err(_) => Ok(None),
        }
    }

    // For a real path the system looks at each component. If no link leads to the directory, none leads to those above
    // it either, and only their `.cargo` may be links.
    fn real_folders(&self, alloc: Global, dir: &str) -> Result<Vec<String>, NoMemory> {
        let is_real = self.is_real(alloc, dir)?;
        let mut folders = Vec::new(alloc);
        for ancestor in ancestors(dir) {
            let mut folder = join(alloc, ancestor, ".cargo")?;
            if !is_real || self.is_link(folder.as_str()) {
                let real = self.real_path(alloc, folder.as_str())?;
                folder = real.unwrap_or(folder);
            }
            folders.push(folder)?;
        }
        Ok(folders)
    }
}
