//! Directories by their physical paths, as Cargo sees its own.
use crate::ending::Fault;
use std::{env, fs, io};

// The number of the system's error for a path that isn't a directory, on Linux.
const NOT_A_DIRECTORY: i32 = 20;

/// The physical path of a directory: absolute, without `..` and without symbolic links. A relative one is looked up from
/// the process's directory.
///
/// # Errors
/// `Fault::Path` if the directory doesn't exist or can't be reached, with the system's reason.
pub fn physical(rt: &HostRuntime, dir: &str) -> Result<String, Fault> {
    match found(rt, dir) {
        Ok(path) => Ok(path),
        Err(error) => Err(Fault::directory(rt, dir, &error)),
    }
}

/// Makes a directory the process's current directory.
///
/// # Errors
/// `Fault::Path` where it can't be entered, with the system's reason.
pub fn enter(rt: &HostRuntime, dir: &str) -> Result<(), Fault> {
    match env::set_current_dir(rt, dir) {
        Ok(()) => Ok(()),
        Err(error) => Err(Fault::directory(rt, dir, &error)),
    }
}

fn found(rt: &HostRuntime, dir: &str) -> io::Result<String> {
    let path = fs::canonicalize(rt, dir)?.into_string();
    if fs::metadata(rt, path.as_str())?.is_dir() {
        Ok(path)
    } else {
        Err(io::Error::from_raw_os_error(NOT_A_DIRECTORY))
    }
}
