//! Values of files: merged, read, copied, and set elsewhere.
ghost use Rattle.std.specs.Prelude.{◌∷◌, [], Some, IfOk, OnOk, IfErr};
ghost use Rattle.toml.specs.View.{view};
ghost use Rattle.cc2_de.specs.Config.{config_at};
ghost use Rattle.cc2_value.specs.Cells.{IsPointwise, file};
ghost use Rattle.cc2_value.specs.Copies.{IsCopied, origin_given};
ghost use Rattle.cc2_value.specs.Places.{IsUnjoined};
ghost use Rattle.cc2_value.specs.Refusals.{IsRefused};
ghost use Rattle.cc2_value.specs.Ways.{IsDecoded};

use cc2_de::Config;
use cc2_error::error::Result;
use cc2_leaf::{Decode, Definition, Merge, MergeAllFault, SetPath, TryClone};
use std::alloc::Global;

/// `Merge::merge`: the stronger of single values is kept, and only what is mixed is refused.
///
/// # Errors
/// Those of `Merge::merge`.
pub fn merged<T: Merge>(alloc: Global, high: T, low: T) -> Result<T>
    ensures ok { IfOk result (IsPointwise T.cell_at (high ∷ low ∷ [])) }
    ensures refused { IfErr result (IsRefused T.cell_at (high ∷ low ∷ [])) }
{
    high.merge(alloc, low)
}

/// `de::Config::merge_all`: the error has the least place that doesn't merge.
///
/// # Errors
/// Those of `de::Config::merge_all`.
pub fn merged_all(alloc: Global, configs: Vec<Config>) -> std::result::Result<Config, MergeAllFault>
    ensures ok { IfOk result (IsPointwise config_at configs.items) }
    ensures refused { IfErr result (IsUnjoined config_at configs.items) }
{
    Config::merge_all(alloc, configs)
}

/// `Decode::read`: each value is set where the definition says.
///
/// # Errors
/// Those of `Decode::read`.
pub fn read<T: Decode>(
    alloc: Global,
    value: toml::Value,
    key: &str,
    definition: Option<&Definition>,
) -> Result<T>
    ensures { IfOk result (IsDecoded T.cell_at
        (T.way.cells (origin_given definition.entry) (view value)) (T.way.faults (view value))) }
{
    T::read(alloc, value, key, definition)
}

/// `TryClone::copied`: each value in the copy is set where the definition says.
///
/// # Errors
/// Those of `TryClone::copied`.
pub fn copied<T: TryClone>(alloc: Global, value: &T, definition: Option<&Definition>) -> Result<T>
    ensures { IfOk result (IsCopied T.shown (origin_given definition.entry) value.now) }
{
    value.copied(alloc, definition)
}

/// `SetPath::set_path`: each value is then set by the path.
///
/// # Errors
/// Those of `SetPath::set_path`.
pub fn with_path<T: SetPath>(alloc: Global, value: &mut T, path: &str) -> Result<()>
    ensures { OnOk result (IsCopied T.shown (Some (file path.now)) value.old value.new) }
{
    value.set_path(alloc, path)
}
