//! The cargo home beside the folders of a walk.
ghost use Rattle.std.specs.Prelude.{◌≡◌, IfOk, map, option_map, string_bytes};
ghost use Rattle.std.specs.List.{list_any};
ghost use Rattle.cc2_base.specs.Paths.{ancestors_of};
ghost use Rattle.cc2_base.specs.Told.{WhereTold};
ghost use Rattle.cc2_cargo.specs.RealHomes.{home_beside, is_home, is_own_folder};

use crate::real_paths::{RealPaths, real_or_own};
use cc2_base::path::same;
use cc2_error::error::NoMemory;
use std::alloc::Global;

/// The cargo home, unless it is the `.cargo` of the directory or of one above it by its real path, or by its
/// own (Cargo Reference, Configuration,
/// [hierarchical structure](https://doc.rust-lang.org/cargo/reference/config.html#hierarchical-structure)).
/// What has no real path counts by its own. So a home that a link leads to is read once.
///
/// # Errors
/// `NoMemory` where memory ran out.
pub fn home_beside<L: RealPaths>(
    alloc: Global,
    dir: &str,
    home: Option<String>,
    reals: &L,
) -> Result<Option<String>, NoMemory>
    ensures { WhereTold (L.told reals.now) (λ real_paths. IfOk result (λ beside.
        option_map string_bytes beside
        ≡ home_beside real_paths dir.now (option_map string_bytes home))) }
{
    let Some(home) = home else {
        return Ok(None);
    };
    if is_walked(alloc, dir, home.as_str(), reals)? {
        return Ok(None);
    }
    Ok(Some(home))
}

// Whether the home is the folder of the directory or of one above it.
fn is_walked<L: RealPaths>(
    alloc: Global,
    dir: &str,
    home: &str,
    reals: &L,
) -> Result<bool, NoMemory>
    ensures { WhereTold (L.told reals.now) (λ real_paths. IfOk result (λ is.
        is ≡ list_any (is_own_folder real_paths home.now) (ancestors_of dir.now))) }
{
    let real_home = real_or_own(alloc, String::from_str(alloc, home)?, reals)?;
    let folders = reals.real_folders(alloc, dir)?;
    Ok(is_among(folders.as_slice(), real_home.as_str(), home))
}

// Whether one of the folders is the home, by its real path or by its own.
fn is_among(folders: &[String], real_home: &str, home: &str) -> bool
    ensures { result
        ≡ list_any (is_home real_home.now home.now) (map string_bytes folders.now) }
{
    for folder in folders {
        if same(folder.as_str(), real_home) || same(folder.as_str(), home) {
            return true;
        }
    }
    false
}
