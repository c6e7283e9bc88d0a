//! Overrides of the command line: files with those that they include, and texts.
ghost use Rattle.std.specs.Prelude.{◌≡◌, ◌⊎◌, ◌++◌, ◌∷◌, ◌==◌, [], false, if◌then◌else◌, is_some, length, map, option_map, string_bytes, IfOk, IfErr};
ghost use Rattle.std.specs.List.{list_any};
ghost use Rattle.toml.specs.View.{table_view};
ghost use Rattle.cc2_base.specs.Paths.{same_path};
ghost use Rattle.cc2_base.specs.Told.{WhereTold};
ghost use Rattle.cc2_cargo.specs.Expanding.{config_file, included_in};
ghost use Rattle.cc2_cargo.specs.Includes.{include_view};
ghost use Rattle.cc2_cargo.specs.Loads.{layer_of};
ghost use Rattle.cc2_cargo.specs.Overrides.{AreOverrideLayers, IsFileOverrideCause, IsOverrideCause, IsOverridesCause, IsTextOverrideCause};
ghost use Rattle.cc2_cargo.specs.Overrides.{ReadsFile, ReadsOverride, ReadsText, path_of, read_of, repeated, text_layer};
ghost use Rattle.cc2_cargo.specs.declared.expand.FileFault.TheVariants as file_fault;
ghost use Rattle.cc2_cargo.specs.declared.load.LoadFault.TheVariants as fault;

use crate::dotted::{OverrideFault, read_override};
use crate::expand::{ConfigFile, FileFault, expanded, expanded_all, put_all};
use crate::include::{Include, IncludeFault, includes};
use crate::layer::{Layer, LayerOrigin, with_files};
use crate::load::LoadFault;
use cc2_base::files::Files;
use cc2_base::path::{join, same};
use cc2_error::error::NoMemory;
use cc2_value::Definition;
use std::alloc::Global;

// What is read of some overrides.
#[derive(Drop)]
struct OverridesRead {
    // The paths of the files of those that are files.
    seen: Vec<String>,
    // The layers, the last override's first.
    layers: Vec<Layer>,
}

/// The layers of overrides, the last the strongest. What is at the text of an override, seen from the directory, is read as
/// a file, with those that it includes. Else it is a text.
///
/// # Errors
/// The first that is met:
/// - `LoadFault::File` where a file isn't read, or was read for an earlier override that is a file;
/// - `LoadFault::Override` with an error of `read_override`;
/// - `LoadFault::OverrideInclude` where the `include` of a text has a fault.
pub(crate) fn override_layers<F: Files>(
    alloc: Global,
    dir: &str,
    overrides: &[String],
    files: &F,
) -> Result<Vec<Layer>, LoadFault>
    ensures ok { WhereTold (F.told files.now) (λ fs. IfOk result (λ layers. AreOverrideLayers fs
        dir.now (map string_bytes overrides.now) (map layer_of layers.items))) }
    ensures refused { WhereTold (F.told files.now) (λ fs. IfErr result (λ why.
        (why ≡ fault.File file_fault.Memory)
        ⊎ IsOverridesCause fs dir.now (map string_bytes overrides.now) why)) }
{
    let mut read = OverridesRead {
        seen: Vec::new(alloc),
        layers: Vec::new(alloc),
    };
    for text in overrides {
        read = with_override(alloc, dir, text.as_str(), read, files)?;
    }
    Ok(read.layers)
}

// What is read with one override more.
fn with_override<F: Files>(
    alloc: Global,
    dir: &str,
    text: &str,
    read: OverridesRead,
    files: &F,
) -> Result<OverridesRead, LoadFault>
    ensures ok { WhereTold (F.told files.now) (λ fs. IfOk result (λ after.
        ReadsOverride fs dir.now text.now (read_of read) (read_of after))) }
    ensures refused { WhereTold (F.told files.now) (λ fs. IfErr result (λ why.
        (why ≡ fault.File file_fault.Memory)
        ⊎ IsOverrideCause fs dir.now text.now (read_of read) why)) }
{
    let path = join(alloc, dir, text)?;
    if is_there(text, path.as_str(), files)? {
        with_file(alloc, path.as_str(), read, files)
    } else {
        with_text(alloc, dir, text, read, files)
    }
}

// Whether anything is at the path of a text that isn't empty.
fn is_there<F: Files>(text: &str, path: &str, files: &F) -> Result<bool, NoMemory>
    ensures { WhereTold (F.told files.now) (λ fs. IfOk result (λ there.
        there ≡ (if length text.now == 0 then false else is_some (fs path.now)))) }
{
    if text.len() == 0 {
        return Ok(false);
    }
    Ok(files.exists(path)?)
}

// What is read with the file at a path.
fn with_file<F: Files>(
    alloc: Global,
    path: &str,
    read: OverridesRead,
    files: &F,
) -> Result<OverridesRead, LoadFault>
    ensures ok { WhereTold (F.told files.now) (λ fs. IfOk result (λ after.
        ReadsFile fs path.now (read_of read) (read_of after))) }
    ensures refused { WhereTold (F.told files.now) (λ fs. IfErr result (λ why.
        (why ≡ fault.File file_fault.Memory)
        ⊎ IsFileOverrideCause fs path.now (map string_bytes read.seen.items) why)) }
{
    let list = match expanded(alloc, path, files) {
        Ok(list) => list,
        Err(fault) => return Err(LoadFault::File(fault)),
    };
    if let Some(path) = repeated(read.seen.as_slice(), list.as_slice()) {
        let path = String::from_str(alloc, path)?;
        return Err(LoadFault::File(FileFault::Twice(path)));
    }
    let seen = with_paths(alloc, read.seen, list.as_slice())?;
    let own = with_files(Vec::new(alloc), list, read.layers.len(), true)?;
    let layers = over(own, read.layers)?;
    Ok(OverridesRead { seen, layers })
}

// The path of the first of these files that is among those read before.
fn repeated<'a>(seen: &[String], files: &'a [ConfigFile]) -> Option<&'a str>
    ensures { option_map (λ p. p.now) result
        ≡ repeated (map string_bytes seen.now) (map config_file files.now) }
{
    for file in files {
        if is_among(file.path.as_str(), seen) {
            return Some(file.path.as_str());
        }
    }
    None
}

// Whether a path is among these.
fn is_among(path: &str, seen: &[String]) -> bool
    ensures { result ≡ list_any (λ p. same_path p path.now) (map string_bytes seen.now) }
{
    for one in seen {
        if same(one.as_str(), path) {
            return true;
        }
    }
    false
}

// These paths, and those of the files.
fn with_paths(
    alloc: Global,
    seen: Vec<String>,
    files: &[ConfigFile],
) -> Result<Vec<String>, NoMemory>
    ensures { IfOk result (λ paths. map string_bytes paths.items
        ≡ map string_bytes seen.items ++ map path_of (map config_file files.now)) }
{
    let mut paths = seen;
    for file in files {
        paths.push(String::from_str(alloc, file.path.as_str())?)?;
    }
    Ok(paths)
}

// What is read with a text, and the files that it includes.
fn with_text<F: Files>(
    alloc: Global,
    dir: &str,
    text: &str,
    read: OverridesRead,
    files: &F,
) -> Result<OverridesRead, LoadFault>
    ensures ok { WhereTold (F.told files.now) (λ fs. IfOk result (λ after.
        ReadsText fs dir.now text.now (read_of read) (read_of after))) }
    ensures refused { WhereTold (F.told files.now) (λ fs. IfErr result (λ why.
        (why ≡ fault.File file_fault.Memory) ⊎ IsTextOverrideCause fs dir.now text.now why)) }
{
    let table = match read_override(alloc, text) {
        Ok(table) => table,
        Err(OverrideFault::Memory) => return Err(LoadFault::File(FileFault::Memory)),
        Err(fault) => return Err(LoadFault::Override(String::from_str(alloc, text)?, fault)),
    };
    let list = match includes(alloc, &table) {
        Ok(list) => list,
        Err(IncludeFault::Memory) => return Err(LoadFault::File(FileFault::Memory)),
        Err(fault) => {
            return Err(LoadFault::OverrideInclude(String::from_str(alloc, text)?, fault));
        }
    };
    let first = seen_from(alloc, dir, list)?;
    let included = match expanded_all(alloc, first, files) {
        Ok(included) => included,
        Err(fault) => return Err(LoadFault::File(fault)),
    };
    let first = read.layers.len();
    let Some(turn) = first.checked_add(included.len()) else {
        return Err(LoadFault::File(FileFault::Memory));
    };
    let own = text_layers(alloc, table, turn)?;
    let own = with_files(own, included, first, true)?;
    let layers = over(own, read.layers)?;
    Ok(OverridesRead {
        seen: read.seen,
        layers,
    })
}

// These files, seen from a folder.
fn seen_from(alloc: Global, folder: &str, list: Vec<Include>) -> Result<Vec<Include>, NoMemory>
    ensures { IfOk result (λ seen. map include_view seen.items
        ≡ map (included_in folder.now) (map include_view list.items)) }
{
    let mut seen = Vec::new(alloc);
    match put_all(alloc, folder, list, &mut seen) {
        Ok(()) => Ok(seen),
        Err(_) => Err(NoMemory),
    }
}

// The layer of a text alone.
fn text_layers(alloc: Global, table: toml::Table, turn: usize) -> Result<Vec<Layer>, NoMemory>
    ensures { IfOk result (λ layers.
        map layer_of layers.items ≡ text_layer turn (table_view table) ∷ []) }
{
    let mut layers = Vec::new(alloc);
    let definition = Definition::Cli(None);
    layers.push(Layer {
        origin: LayerOrigin { definition, turn },
        table,
    })?;
    Ok(layers)
}

/// These layers over weaker ones.
///
/// # Errors
/// `NoMemory` where memory ran out.
pub(crate) fn over(strong: Vec<Layer>, weak: Vec<Layer>) -> Result<Vec<Layer>, NoMemory>
    ensures { IfOk result (λ all.
        map layer_of all.items ≡ map layer_of strong.items ++ map layer_of weak.items) }
{
    let (mut all, mut weaker) = (strong, weak);
    all.append(&mut weaker)?;
    Ok(all)
}
