//! Loading the files of a walk.
ghost use Rattle.std.specs.Prelude.{◌≡◌, ◌⊎◌, ◌+◌, ◌<◌, List, [], ◌∷◌, ◌++◌, Some, IfOk, OnOk, IfErr, length, map, option_map, string_bytes};
ghost use Rattle.std.specs.Option.{option_copied};
ghost use Rattle.cc2_error.specs.Causes.{refusal_of, plain, memory};
ghost use Rattle.cc2_base.specs.Homes.{cargo_home_of};
ghost use Rattle.cc2_error.specs.Outcomes.{IsWantOfMemory};
ghost use Rattle.cc2_base.specs.Told.{WhereTold};
ghost use Rattle.cc2_base.specs.Walked.{walked};
ghost use Rattle.cc2_de.specs.declared.config.Config.{Config};
ghost use Rattle.cc2_de.specs.ConfigFile.{IsFileCause};
ghost use Rattle.cc2_de.specs.LoadFrom.{IsLoadOf, IsLoadBelow};
ghost use Rattle.cc2_de.specs.LoadCauses.{IsCauseAmong};
ghost use Rattle.cc2_de.specs.LoadedFiles.{AreOfFiles, IsOfFile, NamesPlace};

use crate::config::{Config, merge_list};
use crate::context::merging;
use crate::load_file::read_file;
use cc2_base::files::Files;
use cc2_base::home::cargo_home_with_cwd;
use cc2_base::machine::Machine;
use cc2_base::walk::{Walk, walked_paths};
use cc2_error::error::{Error, ErrorKind, Result};
use cc2_leaf::MergeAllFault;
use std::alloc::Global;

impl Config {
    /// Loads the configuration files of a directory, of its ancestors and of the cargo home, and
    /// merges them, the nearest the strongest (Cargo Reference, Configuration,
    /// [hierarchical structure](https://doc.rust-lang.org/cargo/reference/config.html#hierarchical-structure)).
    /// Where there is no file it is the empty configuration.
    ///
    /// # Errors
    /// - `ErrorKind::ReadFile` where a walked file can't be read or isn't UTF-8;
    /// - `ErrorKind::ParseFile` where one is no TOML or has a value of a wrong type;
    /// - `ErrorKind::EmptyCommand`, `ProviderArgs` or `ProviderNoCommand` of a command or a provider
    ///   in one;
    /// - `ErrorKind::Merge` of the first that doesn't merge with the nearer ones;
    /// - `ErrorKind::Memory` where memory ran out.
    ///
    /// But for `Memory` the error's line names the file.
    pub fn load_with_options<F: Files>(
        alloc: Global,
        cwd: &str,
        cargo_home: Option<&str>,
        files: &F,
    ) -> Result<Config>
        ensures { WhereTold (F.told files.now) (λ fs.
            IsLoadOf fs (walked fs cwd.now (option_copied cargo_home.entry)) result) }
    {
        let home = owned(alloc, cargo_home)?;
        load_over(alloc, cwd, home, files)
    }

    /// The same from a directory, with the machine's cargo home seen from there (Cargo Reference,
    /// Configuration,
    /// [hierarchical structure](https://doc.rust-lang.org/cargo/reference/config.html#hierarchical-structure)).
    ///
    /// # Errors
    /// Those of `load_with_options`, and `ErrorKind::EnvNotText` where `CARGO_HOME` is not UTF-8.
    pub fn load_with_cwd<F: Files>(
        alloc: Global,
        cwd: &str,
        machine: &Machine,
        files: &F,
    ) -> Result<Config>
        ensures { WhereTold (F.told files.now) (λ fs.
            IsLoadBelow fs cwd.now (cargo_home_of cwd.now machine.now) result) }
    {
        let home = cargo_home_with_cwd(alloc, cwd, machine)?;
        load_over(alloc, cwd, home, files)
    }

    /// The same from the machine's directory (Cargo Reference, Configuration,
    /// [hierarchical structure](https://doc.rust-lang.org/cargo/reference/config.html#hierarchical-structure)).
    ///
    /// # Errors
    /// Those of `load_with_cwd`.
    pub fn load<F: Files>(alloc: Global, machine: &Machine, files: &F) -> Result<Config>
        ensures { let cwd = string_bytes machine.now.current_dir in
            WhereTold (F.told files.now) (λ fs.
            IsLoadBelow fs cwd (cargo_home_of cwd machine.now) result) }
    {
        Config::load_with_cwd(alloc, machine.current_dir.as_str(), machine, files)
    }
}

// Loads the files of a walk from a directory, with this home.
fn load_over<F: Files>(alloc: Global, cwd: &str, home: Option<String>, files: &F) -> Result<Config>
    ensures { WhereTold (F.told files.now) (λ fs.
        IsLoadOf fs (walked fs cwd.now (option_map string_bytes home)) result) }
{
    let paths = walked_paths(alloc, Walk::with_cargo_home(alloc, cwd, home, files))?;
    load_paths(alloc, paths.as_slice(), files)
}

// A copy of the text.
fn owned(alloc: Global, text: Option<&str>) -> Result<Option<String>>
    ensures ok { IfOk result (λ copy. option_map string_bytes copy ≡ option_copied text.entry) }
    ensures refused { IfErr result IsWantOfMemory }
{
    match text {
        Some(text) => Ok(Some(String::from_str(alloc, text)?)),
        None => Ok(None),
    }
}

// Loads these files, the nearest first.
fn load_paths<F: Files>(alloc: Global, paths: &[String], files: &F) -> Result<Config>
    ensures { WhereTold (F.told files.now) (λ fs. IsLoadOf fs (map string_bytes paths.now) result) }
{
    let mut configs = read_files(alloc, paths, files)?;
    match merge_list(alloc, &mut configs) {
        Ok(merged) => Ok(merged),
        Err(MergeAllFault::Memory) => Err(Error::new(ErrorKind::Memory)),
        Err(MergeAllFault::Mixed { place, error }) => Err(unmerged(alloc, paths, place, error)),
    }
}

// The refusal of the file at a place, which doesn't merge with the nearer ones.
fn unmerged(alloc: Global, paths: &[String], place: usize, error: Error) -> Error
    requires { place < length paths.now }
    ensures { NamesPlace (map string_bytes paths.now) place (refusal_of error) (refusal_of result) }
{
    merging(alloc, paths[place].as_str(), paths[0].as_str(), error)
}

// Reads each of these files, in its place of the list that is to be merged.
fn read_files<F: Files>(alloc: Global, paths: &[String], files: &F) -> Result<Vec<Option<Config>>>
    ensures counted { IfOk result (λ list. length list.items ≡ length paths.now) }
    ensures ok { WhereTold (F.told files.now) (λ fs. IfOk result (λ list. (configs : List Config)
        × (list.items ≡ map Some configs) × AreOfFiles fs (map string_bytes paths.now) configs)) }
    ensures refused { WhereTold (F.told files.now) (λ fs. IfErr result (λ e.
        IsWantOfMemory e ⊎ IsCauseAmong fs (map string_bytes paths.now) (refusal_of e))) }
{
    let mut list = Vec::with_capacity(alloc, paths.len())?;
    for path in paths {
        read_next(alloc, &mut list, path.as_str(), files)?;
    }
    Ok(list)
}

// Reads the file at a path into a new place at the end of the list. A configuration takes 2.6 KB:
// it is read where it stays.
fn read_next<F: Files>(
    alloc: Global,
    list: &mut Vec<Option<Config>>,
    path: &str,
    files: &F,
) -> Result<()>
    ensures counted { OnOk result (length list.new.items ≡ length list.old.items + 1) }
    ensures ok { WhereTold (F.told files.now) (λ fs. OnOk result ((config : Config)
        × (list.new.items ≡ list.old.items ++ Some config ∷ []) × IsOfFile fs path.now config)) }
    ensures refused { WhereTold (F.told files.now) (λ fs. IfErr result (λ e.
        (refusal_of e ≡ plain memory) ⊎ IsFileCause fs path.now (refusal_of e))) }
{
    let place = list.len();
    list.push(Some(Config::empty(alloc)))?;
    match &mut list[place] {
        Some(config) => read_file(alloc, config, path, files),
        // It was just put there.
        None => Ok(()),
    }
}
