//! What layers of configuration have at each key, merged.
ghost use Rattle.std.specs.Prelude.{◌≡◌, ◌≢◌, ◌++◌, codes, map, string_bytes, Some, IfOk, IfErr, IfSome};
ghost use Rattle.cc2_error.specs.Causes.{memory, refusal_of};
ghost use Rattle.cc2_error.specs.declared.error.Error.{Error};
ghost use Rattle.toml.specs.View.{table_view};
ghost use Rattle.cc2_value.specs.Faults.{IsMemory};
ghost use Rattle.cc2_value.specs.Values.{origin_of};
ghost use Rattle.cc2_cargo.specs.Expanding.{config_file};
ghost use Rattle.cc2_cargo.specs.Loads.{AreFaultless, IsLayerCause, IsLayerFault, IsOfGroups, IsPutOver, file_origin, layer_cells, layer_of, turned, without};
ghost use Rattle.cc2_cargo.specs.Merging.{IsRawMapOf};
ghost use Rattle.cc2_cargo.specs.Raw.{raw_members_at};
ghost use Rattle.cc2_cargo.specs.declared.layer.LayerFault.TheVariants as fault;

use crate::expand::ConfigFile;
use crate::raw::merge::put_members;
use crate::raw::read::read_table;
use crate::raw::{Place, Raw};
use cc2_error::error::{Error, ErrorKind, NoMemory};
use cc2_value::Definition;
use std::alloc::{AllocError, Global};
use std::collections::BTreeMap;

/// Where the values of a layer are set, and its turn.
#[derive(Debug, Drop)]
pub struct LayerOrigin {
    /// Where its values are set.
    pub definition: Definition,
    /// When Cargo merges it, from 0 for files and from 0 for overrides: the nearest file first, and before each file those that it
    /// includes. An array that layers have is set where the first of them sets it, a file before an override.
    pub turn: usize,
}

/// A layer of configuration: the table of a file or of an override, and where its values are set.
#[derive(Debug, Drop)]
pub struct Layer {
    /// Where its values are set, and its turn.
    pub origin: LayerOrigin,
    /// Its table, with the key `include`.
    pub table: toml::Table,
}

/// Why layers aren't merged.
#[derive(Debug, Drop)]
pub enum LayerFault {
    /// The layer that is set here has a value that no key may have; the error names the key.
    Value(Definition, Error),
    /// The layer that is set here doesn't merge with the weaker ones; the error names the key.
    Mixed(Definition, Error),
    /// Memory ran out.
    Memory,
}

impl From<AllocError> for LayerFault {
    ghost from_gives = { λ _ why. why ≡ fault.Memory };

    fn from(_error: AllocError) -> LayerFault {
        LayerFault::Memory
    }
}

/// What layers have at each key, merged, the first the strongest: of two single values the stronger is kept, of two arrays the
/// weaker one's items come first, tables merge key by key (Cargo Reference, Configuration,
/// [hierarchical structure](https://doc.rust-lang.org/cargo/reference/config.html#hierarchical-structure)). Where a key is a
/// command, the stronger array is kept: `credential-alias.NAME`, `doc.browser`, `host.runner`,
/// `registries.NAME.credential-provider`, `registry.credential-provider` and `target.NAME.runner`. Each value has the
/// definition of its layer, and an array that of the one with the first turn. The key `include` is left out. Without layers it is empty. However layers are grouped, they merge
/// to the same.
///
/// # Errors
/// - `LayerFault::Value` where a layer has a float or a date;
/// - `LayerFault::Mixed` where an array meets another value, or a table does;
/// - `LayerFault::Memory` where memory ran out.
pub fn merged(alloc: Global, layers: Vec<Layer>) -> Result<BTreeMap<String, Raw>, LayerFault>
    ensures faultless { IfOk result (λ _. AreFaultless (map layer_of layers.items)) }
    ensures ok { IfOk result (λ merged.
        IsRawMapOf layer_cells (map layer_of layers.items) (raw_members_at merged)) }
    ensures grouped { IfOk result (λ merged.
        IsOfGroups (map layer_of layers.items) (raw_members_at merged)) }
    ensures refused { IfErr result (IsLayerCause (map layer_of layers.items)) }
{
    let mut merged = BTreeMap::new(alloc);
    let mut left = layers;
    'layers: while let Some(layer) = left.pop() {
        merged = put_layer(alloc, layer, merged)?;
    }
    Ok(merged)
}

/// These layers, and after them those of files that Cargo merges with each other first: the weakest of them has this turn.
///
/// # Errors
/// `NoMemory` where memory ran out, or where a turn is no `usize`.
pub(crate) fn with_files(
    layers: Vec<Layer>,
    files: Vec<ConfigFile>,
    first: usize,
    of_override: bool,
) -> Result<Vec<Layer>, NoMemory>
    ensures { IfOk result (λ all. map layer_of all.items ≡ map layer_of layers.items
        ++ turned of_override first (map config_file files.items)) }
{
    let (mut all, mut left) = (layers, files.len());
    for file in files {
        left -= 1;
        let Some(turn) = first.checked_add(left) else {
            return Err(NoMemory);
        };
        let definition = definition_of(file.path, of_override);
        all.push(Layer {
            origin: LayerOrigin { definition, turn },
            table: file.table,
        })?;
    }
    Ok(all)
}

// Where the values of a file are set, or those of a file of the command line.
fn definition_of(path: String, of_override: bool) -> Definition
    ensures { origin_of result ≡ file_origin of_override (string_bytes path) }
{
    if of_override {
        Definition::Cli(Some(path))
    } else {
        Definition::Path(path)
    }
}

// What a layer has over what weaker ones have.
fn put_layer(
    alloc: Global,
    layer: Layer,
    weaker: BTreeMap<String, Raw>,
) -> Result<BTreeMap<String, Raw>, LayerFault>
    ensures ok { IfOk result (λ merged.
        IsPutOver (layer_of layer) (raw_members_at weaker) (raw_members_at merged)) }
    ensures refused { IfErr result (IsLayerFault (layer_of layer) (raw_members_at weaker)) }
{
    let Layer { origin, table } = layer;
    let mut fault = None;
    let Some(members) = read_table(alloc, own_table(table), &origin, &mut fault) else {
        return Err(match known(fault) {
            Some(error) => LayerFault::Value(origin.definition, error),
            None => LayerFault::Memory,
        });
    };
    let mut merged = weaker;
    if put_members(alloc, Place::Top, members, &mut merged, &mut fault) {
        return Ok(merged);
    }
    Err(match known(fault) {
        Some(error) => LayerFault::Mixed(origin.definition, error),
        None => LayerFault::Memory,
    })
}

// The table of a layer without the key `include`.
fn own_table(table: toml::Table) -> toml::Table
    ensures { table_view result ≡ without (codes "include") (table_view table) }
{
    let mut own = table;
    own.remove("include");
    own
}

// The recorded error, unless it is that memory ran out.
fn known(fault: Option<Error>) -> Option<Error>
    ensures { (e : Error) → fault ≡ Some e → IfSome result (λ f.
        (f ≡ e) × ((refusal_of e).cause ≢ memory)) }
{
    match fault {
        Some(error) if !is_memory(&error) => Some(error),
        _ => None,
    }
}

// Whether memory ran out.
fn is_memory(error: &Error) -> bool
    ensures { IsMemory error.now result }
{
    matches!(error.kind(), ErrorKind::Memory)
}
