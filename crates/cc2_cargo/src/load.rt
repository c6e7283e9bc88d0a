//! Configuration files loaded with those that they include.
ghost use Rattle.std.specs.Prelude.{◌≡◌, map, string_bytes, IfOk, IfErr};
ghost use Rattle.cc2_base.specs.Told.{WhereTold};
ghost use Rattle.cc2_cargo.specs.Loads.{AreFileLayers, HasNoCause, IsRawLoadCause, IsRawLoad, layer_of};
ghost use Rattle.cc2_cargo.specs.Overrides.{HasNoCauseWith, IsLoadWith, IsLoadWithCause};
ghost use Rattle.cc2_cargo.specs.Raw.{raw_members_at};
ghost use Rattle.cc2_cargo.specs.declared.expand.FileFault.TheVariants as file_fault;
ghost use Rattle.cc2_cargo.specs.declared.load.LoadFault.TheVariants as fault;

use crate::dotted::OverrideFault;
use crate::expand::{FileFault, expanded};
use crate::include::IncludeFault;
use crate::layer::{Layer, LayerFault, merged, with_files};
use crate::overrides::{over, override_layers};
use crate::raw::Raw;
use cc2_base::files::Files;
use cc2_error::error::NoMemory;
use std::alloc::{AllocError, Global};
use std::collections::BTreeMap;

/// Why files aren't loaded.
#[derive(Debug, Drop)]
pub enum LoadFault {
    /// A file or one that it includes isn't read.
    File(FileFault),
    /// This override is neither a file nor a text that is accepted.
    Override(String, OverrideFault),
    /// The `include` of this override, a text, is rejected.
    OverrideInclude(String, IncludeFault),
    /// The layers don't merge.
    Layer(LayerFault),
}

impl From<AllocError> for LoadFault {
    ghost from_gives = { λ _ why. why ≡ fault.File file_fault.Memory };

    fn from(_error: AllocError) -> LoadFault {
        LoadFault::File(FileFault::Memory)
    }
}

impl From<NoMemory> for LoadFault {
    ghost from_gives = { λ _ why. why ≡ fault.File file_fault.Memory };

    fn from(_error: NoMemory) -> LoadFault {
        LoadFault::File(FileFault::Memory)
    }
}

/// What the files at these paths have at each key, with those that they include, the first the strongest (Cargo
/// Reference, Configuration,
/// [hierarchical structure](https://doc.rust-lang.org/cargo/reference/config.html#hierarchical-structure)). A file is
/// stronger than what it includes. The paths are those of `cc2_base::walk::Walk`, for example.
///
/// # Errors
/// - `LoadFault::File` with an error of `expanded`, of one of the paths;
/// - `LoadFault::Layer` with an error of `merged`.
///
/// # Example
/// ```ignore
/// let settings = load_paths(alloc, &[String::from_str(alloc, "/p/.cargo/config.toml")?], &files)?;
/// assert!(settings.get("profile").is_some());
/// ```
pub fn load_paths<F: Files>(
    alloc: Global,
    paths: &[String],
    files: &F,
) -> Result<BTreeMap<String, Raw>, LoadFault>
    ensures ok { WhereTold (F.told files.now) (λ fs. IfOk result (λ loaded.
        IsRawLoad fs (map string_bytes paths.now) (raw_members_at loaded))) }
    ensures exact { WhereTold (F.told files.now) (λ fs. IfOk result (λ _.
        HasNoCause fs (map string_bytes paths.now))) }
    ensures refused { WhereTold (F.told files.now) (λ fs.
        IfErr result (IsRawLoadCause fs (map string_bytes paths.now))) }
{
    let layers = match file_layers(alloc, paths, files) {
        Ok(layers) => layers,
        Err(fault) => return Err(LoadFault::File(fault)),
    };
    match merged(alloc, layers) {
        Ok(loaded) => Ok(loaded),
        Err(fault) => Err(LoadFault::Layer(fault)),
    }
}

/// What `load_paths` loads, under overrides of the command line, the last the strongest (Cargo Reference, Configuration,
/// [command-line overrides](https://doc.rust-lang.org/cargo/reference/config.html#command-line-overrides)). Where something
/// is at the text of an override, seen from the directory, it is a file, and is read with those that it includes. Else it is
/// one dotted key with a value, as `build.jobs = 2`; the files of a key `include` are weaker than it, and are seen from the
/// directory. Each value of an override is set by `Definition::Cli`, with the path of its file if it has one.
///
/// # Errors
/// - `LoadFault::File` with an error of `expanded`, of a path or of an override, and where a file is read for two overrides
///   that are files;
/// - `LoadFault::Override` with an error of `read_override`;
/// - `LoadFault::OverrideInclude` where the `include` of a text has a fault;
/// - `LoadFault::Layer` with an error of `merged`.
pub fn load_with<F: Files>(
    alloc: Global,
    dir: &str,
    paths: &[String],
    overrides: &[String],
    files: &F,
) -> Result<BTreeMap<String, Raw>, LoadFault>
    ensures ok { WhereTold (F.told files.now) (λ fs. IfOk result (λ loaded.
        IsLoadWith fs dir.now (map string_bytes paths.now) (map string_bytes overrides.now)
        (raw_members_at loaded))) }
    ensures exact { WhereTold (F.told files.now) (λ fs. IfOk result (λ _.
        HasNoCauseWith fs dir.now (map string_bytes paths.now) (map string_bytes overrides.now))) }
    ensures refused { WhereTold (F.told files.now) (λ fs. IfErr result
        (IsLoadWithCause fs dir.now (map string_bytes paths.now)
        (map string_bytes overrides.now))) }
{
    let own = override_layers(alloc, dir, overrides, files)?;
    let weaker = match file_layers(alloc, paths, files) {
        Ok(layers) => layers,
        Err(fault) => return Err(LoadFault::File(fault)),
    };
    match merged(alloc, over(own, weaker)?) {
        Ok(settings) => Ok(settings),
        Err(fault) => Err(LoadFault::Layer(fault)),
    }
}

// The layers of the files that each of these expands to, one path after another.
fn file_layers<F: Files>(
    alloc: Global,
    paths: &[String],
    files: &F,
) -> Result<Vec<Layer>, FileFault>
    ensures ok { WhereTold (F.told files.now) (λ fs. IfOk result (λ layers.
        AreFileLayers fs 0 (map string_bytes paths.now) (map layer_of layers.items))) }
    ensures refused { WhereTold (F.told files.now) (λ fs. IfErr result (λ why.
        IsRawLoadCause fs (map string_bytes paths.now) (fault.File why))) }
{
    let mut layers = Vec::new(alloc);
    for path in paths {
        match expanded(alloc, path.as_str(), files) {
            Ok(list) => {
                let first = layers.len();
                layers = with_files(layers, list, first, false)?;
            }
            Err(fault) => return Err(fault),
        }
    }
    Ok(layers)
}
