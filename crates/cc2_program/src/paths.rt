//! The paths that `lint` is given.
use cc2_cli::{Fault, physical};
use std::fs;

/// The physical paths of these directories and files: absolute, without `..` and without symbolic links.
///
/// # Errors
/// `Fault::Path` if there is nothing at a path or it can't be reached; `Fault::Memory` where memory ran out.
pub fn physical_paths(rt: &HostRuntime, paths: &[&str]) -> Result<Vec<String>, Fault> {
    let mut all = Vec::new(rt.alloc());
    for path in paths {
        let path = physical_path(rt, *path)?;
        if all.push(path).is_err() {
            return Err(Fault::Memory);
        }
    }
    Ok(all)
}

fn physical_path(rt: &HostRuntime, path: &str) -> Result<String, Fault> {
    match fs::metadata(rt, path) {
        Ok(found) if found.is_dir() => physical(rt, path),
        Ok(_) => match fs::canonicalize(rt, path) {
            Ok(path) => Ok(path.into_string()),
            Err(error) => Err(Fault::unreadable(rt, path, &error)),
        },
        Err(error) => Err(Fault::unreadable(rt, path, &error)),
    }
}
