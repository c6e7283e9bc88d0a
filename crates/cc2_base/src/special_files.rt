//! What can be read where no regular file is: nothing of `/dev/null`, and what a shell's `<(..)` names.
use std::fs;
use std::io::{Error, ErrorKind, Read, Result};
use std::rt::Files;

// A pipe that gives more bytes isn't read: it may never end.
const MOST_BYTES: u64 = 64 << 20;

// Where a shell's `<(..)`, or standard input, is.
const STREAMS: [&str; 3] = ["/dev/fd/", "/proc/self/fd/", "/dev/stdin"];

/// The bytes of what is at a path and is no regular file: none of a link to `/dev/null`, and those of an open descriptor.
///
/// # Errors
/// `Unsupported` of a folder, of any other device or pipe, which may never end, and of more than 64 MiB; else the error of the
/// system.
pub(crate) fn read_special<R: Files + AllocGlobal>(rt: &R, path: &str) -> Result<Vec<u8>> {
    if is_stream(path) {
        return read_stream(rt, path);
    }
    if fs::canonicalize(rt, path)?.into_string().as_str() == "/dev/null" {
        return Ok(Vec::new(rt.alloc()));
    }
    Err(Error::from(ErrorKind::Unsupported))
}

// Whether this names an open descriptor of the process.
fn is_stream(path: &str) -> bool {
    STREAMS.iter().any(|stream| path.starts_with(*stream))
}

// What an open descriptor gives, to its end.
fn read_stream<R: Files + AllocGlobal>(rt: &R, path: &str) -> Result<Vec<u8>> {
    let file = fs::open(rt, path)?;
    let mut bytes = Vec::new(rt.alloc());
    let count = file.take(MOST_BYTES + 1).read_to_end(&mut bytes)?;
    if count as u64 > MOST_BYTES {
        return Err(Error::from(ErrorKind::Unsupported));
    }
    Ok(bytes)
}
