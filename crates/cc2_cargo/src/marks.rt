//! The mark of a path, by which a file that was read is known again.
ghost use Rattle.std.specs.Prelude.{◌≡◌, IfOk, string_bytes};
ghost use Rattle.cc2_cargo.specs.Readings.{path_mark};

use cc2_base::path::components;
use cc2_error::error::NoMemory;
use std::alloc::Global;

/// The components of a path, each with a `/` behind it. Texts that are the same path have the same mark.
///
/// # Errors
/// `NoMemory` where memory ran out.
pub(crate) fn path_mark(alloc: Global, path: &str) -> Result<String, NoMemory>
    ensures { IfOk result (λ mark. string_bytes mark ≡ path_mark path.now) }
{
    // It has up to two bytes more than the path: a `/` behind the root, and one at the end.
    let mut mark = String::with_capacity(alloc, path.len().saturating_add(2))?;
    for component in components(path) {
        mark.push_str(component)?;
        mark.push_str("/")?;
    }
    Ok(mark)
}
