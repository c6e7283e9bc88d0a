//! The configuration files above a directory (Cargo Reference,
//! [Hierarchical structure](https://doc.rust-lang.org/cargo/reference/config.html#hierarchical-structure)).
ghost use Rattle.std.specs.Prelude.{◌≡◌, ◌+◌, ◌<◌, ◌≤◌, is_some, IsSome, if◌then◌else◌, ℕ, List, [], ◌∷◌, ◌++◌, Option, Some, None, Result, IfOk, IfErr, OnErr, length, map, option_map, string_bytes, codes};
ghost use Rattle.std.specs.Option.{option_to_list};
ghost use Rattle.std.specs.Iterator.{at_most};
ghost use Rattle.std.specs.Path.{path_buf_bytes};
ghost use Rattle.cc2_base.specs.Told.{Keeps, Tree, WhereTold};
ghost use Rattle.cc2_base.specs.Paths.{joined, ancestors_of};
ghost use Rattle.cc2_base.specs.PathSteps.{ancestors_left};
ghost use Rattle.cc2_base.specs.Walked.{where_there, chosen, folder_of, home_apart_from, home_count, most_items, files_of, left, walked_over, walked, walked_with, GivesNext, Ends};
ghost use Rattle.cc2_base.specs.Homes.{cargo_home_of};
ghost use Rattle.cc2_error.specs.Outcomes.{Gives, IsWantOfMemory};

use crate::files::Files;
use crate::home::cargo_home_with_cwd;
use crate::machine::Machine;
use crate::path;
use crate::path_iter::Ancestors;
use cc2_error::error::{Error, NoMemory};
use std::alloc::Global;
use std::mem::replace;
use std::path::PathBuf;

/// Goes over the configuration files that are there: for a directory and each directory above it
/// `.cargo/config`, or else `.cargo/config.toml`, the nearest first; then the cargo home's, unless
/// that is one of the folders already visited (Cargo Reference,
/// [Hierarchical structure](https://doc.rust-lang.org/cargo/reference/config.html#hierarchical-structure)).
///
/// An item is a file's path, or a refusal; after a refusal, as after the last path, nothing more
/// comes. The files are asked as the walk goes on, and none is read.
///
/// # Errors
/// An item is refused as `ErrorKind::Memory`, without a context, where a path finds no memory or
/// the files report out of memory. There is no other refusal.
#[derive(Drop)]
pub struct Walk<'a, F> {
    ancestors: Ancestors<'a>,
    home: Option<String>,
    files: &'a F,
    alloc: Global,
    // What was looked for last and isn't there. Its room serves again.
    absent: String,
}

// A directory's folder of configuration, in a text that serves again, with room for the name of a
// file after it.
#[tactic(auto, using(crate::proofs::Joining::path_join_is, crate::proofs::Joining::path_join_nothing))]
fn folder_below(text: String, dir: &str) -> Result<PathBuf, NoMemory>
    ensures { IfOk result (λ folder. path_buf_bytes folder ≡ folder_of dir.now) }
{
    let mut text = text;
    text.clear();
    text.reserve(dir.len().saturating_add("/.cargo/config.toml".len()))?;
    let mut folder = PathBuf::from(text);
    folder.push(dir)?;
    folder.push(".cargo")?;
    Ok(folder)
}

// Whether a folder has a configuration file, and that file's path. One text serves for the folder and
// for both files; where there is none, it has nothing to say.
#[tactic(auto, using(crate::proofs::Joining::path_join_is))]
fn choose<F: Files>(files: &F, folder: PathBuf) -> Result<(bool, String), NoMemory>
    ensures { WhereTold (F.told files.now) (λ fs. IfOk result (λ found.
        (if found.0 then Some (string_bytes found.1) else None)
        ≡ chosen fs (path_buf_bytes folder))) }
{
    let mut folder = folder;
    folder.push("config")?;
    let mut path = folder.into_string();
    if files.exists(path.as_str())? {
        return Ok((true, path));
    }
    path.push_str(".toml")?;
    let there = files.exists(path.as_str())?;
    Ok((there, path))
}

impl<'a, F: Files> Walk<'a, F> {
    /// The walk from a directory, with this cargo home (Cargo Reference, Configuration,
    /// [hierarchical structure](https://doc.rust-lang.org/cargo/reference/config.html#hierarchical-structure)).
    /// It takes no memory and asks no file.
    pub fn with_cargo_home(
        alloc: Global,
        current_dir: &'a str,
        cargo_home: Option<String>,
        files: &'a F,
    ) -> Walk<'a, F>
        ensures left { (fs : Tree) →
            left result fs ≡ walked fs current_dir.now (option_map string_bytes cargo_home) }
        ensures files { files_of result ≡ files.now }
        ensures most { most_items result ≤ length (ancestors_of current_dir.now) + 1 }
    {
        Walk {
            ancestors: path::ancestors(current_dir),
            home: cargo_home,
            files,
            alloc,
            absent: String::new(alloc),
        }
    }

    /// The walk from a directory, with the machine's cargo home as it is seen from there (Cargo
    /// Reference, Configuration,
    /// [hierarchical structure](https://doc.rust-lang.org/cargo/reference/config.html#hierarchical-structure)).
    /// It asks no file.
    ///
    /// # Errors
    /// `ErrorKind::EnvNotText` where `CARGO_HOME` is not UTF-8; the context then names it. `Memory`
    /// where memory ran out.
    pub fn new(
        alloc: Global,
        current_dir: &'a str,
        machine: &Machine,
        files: &'a F,
    ) -> Result<Walk<'a, F>, Error>
        ensures left { (fs : Tree) → Gives (λ walk. left walk fs) result
            (walked_with fs current_dir.now (cargo_home_of current_dir.now machine.now)) }
        ensures files { IfOk result (λ walk. files_of walk ≡ files.now) }
        ensures most { IfOk result (λ walk.
            most_items walk ≤ length (ancestors_of current_dir.now) + 1) }
    {
        let cargo_home = cargo_home_with_cwd(alloc, current_dir, machine)?;
        Ok(Walk::with_cargo_home(alloc, current_dir, cargo_home, files))
    }

    // What is chosen for a directory that was taken off the front.
    fn step(&mut self, dir: &str) -> Result<Option<String>, NoMemory>
        ensures found { WhereTold (F.told self.old.files.now) (λ fs. IfOk result (λ found.
            walked_over fs (dir.now ∷ ancestors_left self.old.ancestors)
            (option_map string_bytes self.old.home)
            ≡ option_to_list (option_map string_bytes found) ++ left self.new fs)) }
        ensures ancestors { self.new.ancestors ≡ self.old.ancestors }
        ensures files { self.new.files ≡ self.old.files }
        ensures homes { home_count self.new.home ≤ home_count self.old.home }
    {
        let text = replace(&mut self.absent, String::new(self.alloc));
        let folder = folder_below(text, dir)?;
        self.drop_home(folder.as_str());
        let (there, path) = choose(self.files, folder)?;
        if there {
            return Ok(Some(path));
        }
        self.absent = path;
        Ok(None)
    }

    // The home is not given again.
    fn drop_home(&mut self, folder: &str)
        ensures home { option_map string_bytes self.new.home
            ≡ home_apart_from folder.now (option_map string_bytes self.old.home) }
        ensures ancestors { self.new.ancestors ≡ self.old.ancestors }
        ensures files { self.new.files ≡ self.old.files }
        ensures homes { home_count self.new.home ≤ home_count self.old.home }
    {
        let same = match &self.home {
            Some(home) => path::same(folder, home.as_str()),
            None => false,
        };
        if same {
            self.home = None;
        }
    }

    // The next file of a directory, if there is one.
    fn next_of_dirs(&mut self) -> Result<Option<String>, NoMemory>
        ensures found { WhereTold (F.told self.old.files.now) (λ fs. IfOk result (λ found.
            left self.old fs
            ≡ option_to_list (option_map string_bytes found) ++ left self.new fs)) }
        ensures fewer { IfOk result (λ found.
            length (ancestors_left self.new.ancestors) + (if is_some found then 1 else 0)
            ≤ length (ancestors_left self.old.ancestors)) }
        ensures done { IfOk result (λ found. found ≡ None →
            ancestors_left self.new.ancestors ≡ []) }
        ensures refused { OnErr result (0 < length (ancestors_left self.old.ancestors)) }
        ensures files { self.new.files ≡ self.old.files }
        ensures homes { home_count self.new.home ≤ home_count self.old.home }
    {
        while let Some(dir) = self.ancestors.next() {
            if let Some(path) = self.step(dir)? {
                return Ok(Some(path));
            }
        }
        Ok(None)
    }

    // The home's file, once.
    fn next_of_home(&mut self) -> Result<Option<String>, NoMemory>
        requires { ancestors_left self.old.ancestors ≡ [] }
        ensures found { WhereTold (F.told self.old.files.now) (λ fs. IfOk result (λ found.
            left self.old fs ≡ option_to_list (option_map string_bytes found))) }
        ensures left { (fs : Tree) → left self.new fs ≡ [] }
        ensures fewer { IfOk result (λ found. IsSome found → IsSome self.old.home) }
        ensures none { self.new.home ≡ None }
        ensures refused { OnErr result (IsSome self.old.home) }
        ensures ancestors { self.new.ancestors ≡ self.old.ancestors }
        ensures files { self.new.files ≡ self.old.files }
    {
        match self.home.take() {
            None => Ok(None),
            Some(home) => {
                let (there, path) = choose(self.files, PathBuf::from(home))?;
                Ok(if there { Some(path) } else { None })
            }
        }
    }

    fn next_item(&mut self) -> Result<Option<String>, NoMemory>
        ensures found { WhereTold (F.told self.old.files.now) (λ fs. IfOk result (λ found.
            left self.old fs
            ≡ option_to_list (option_map string_bytes found) ++ left self.new fs)) }
        ensures done { IfOk result (λ found. found ≡ None → most_items self.new ≡ 0) }
        ensures fewer { IfOk result (λ found. IsSome found →
            most_items self.new < most_items self.old) }
        ensures refused { OnErr result (0 < most_items self.old) }
        ensures files { self.new.files ≡ self.old.files }
    {
        if let Some(path) = self.next_of_dirs()? {
            return Ok(Some(path));
        }
        Ok(self.next_of_home()?)
    }

    // Nothing more comes.
    fn end(&mut self)
        ensures left { (fs : Tree) → left self.new fs ≡ [] }
        ensures none { most_items self.new ≡ 0 }
        ensures files { self.new.files ≡ self.old.files }
    {
        self.ancestors = Ancestors::none();
        self.home = None;
    }
}

impl<'a, F: Files> Iterator for Walk<'a, F> {
    type Item = Result<String, Error>;

    ghost next_gives = { λ s r t. Keeps (F.told (files_of s)) (F.told (files_of t))
        × WhereTold (F.told (files_of s)) (λ fs. GivesNext (left s fs) r (left t fs))
        × Ends r t };

    ghost remaining = { λ s. at_most (most_items s) };

    fn next(&mut self) -> Option<Result<String, Error>> {
        match self.next_item() {
            Ok(Some(path)) => Some(Ok(path)),
            Ok(None) => None,
            Err(e) => {
                self.end();
                Some(Err(Error::from(e)))
            }
        }
    }
}

/// The paths of the files of a walk, the nearest first (Cargo Reference, Configuration,
/// [hierarchical structure](https://doc.rust-lang.org/cargo/reference/config.html#hierarchical-structure)).
///
/// # Errors
/// `ErrorKind::Memory` where memory ran out.
pub fn walked_paths<F: Files>(alloc: Global, walk: Walk<'_, F>) -> Result<Vec<String>, Error>
    ensures ok { WhereTold (F.told (files_of walk.entry)) (λ fs. IfOk result (λ paths.
        map string_bytes paths.items ≡ left walk.entry fs)) }
    ensures refused { WhereTold (F.told (files_of walk.entry)) (λ fs. IfErr result IsWantOfMemory) }
{
    let mut paths = Vec::new(alloc);
    for path in walk {
        paths.push(path?)?;
    }
    Ok(paths)
}
