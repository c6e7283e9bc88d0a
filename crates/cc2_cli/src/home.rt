//! The user's home directory: the variable `HOME`, else the system's user database.
use crate::surroundings::is_memory;
use std::{fs, io};

/// The home directory: the value of `HOME` if it is UTF-8 and not empty; if it is empty or not set, that of the
/// process's user in `/etc/passwd` (getpwuid(3)). Other user databases aren't looked at.
pub fn home_of(rt: &HostRuntime, variable: Option<&[u8]>) -> io::Result<Option<String>> {
    match variable {
        None | Some([]) => home_in_database(rt),
        Some(value) => copied(rt, value),
    }
}

// A text, where the bytes are one.
fn copied(rt: &HostRuntime, bytes: &[u8]) -> io::Result<Option<String>> {
    match std::str::from_utf8(bytes) {
        Ok(text) => Ok(Some(String::from_str(rt.alloc(), text)?)),
        Err(_) => Ok(None),
    }
}

// The home of the process's user in the user database. None where either can't be read.
fn home_in_database(rt: &HostRuntime) -> io::Result<Option<String>> {
    let Some(status) = readable(fs::read(rt, "/proc/self/status"))? else {
        return Ok(None);
    };
    let Some(user) = user_in(status.as_slice()) else {
        return Ok(None);
    };
    let Some(database) = readable(fs::read(rt, "/etc/passwd"))? else {
        return Ok(None);
    };
    match home_listed(database.as_slice(), user) {
        Some(home) => copied(rt, home),
        None => Ok(None),
    }
}

// The content of a file; none where it can't be read. Refused where memory ran out.
fn readable(content: io::Result<Vec<u8>>) -> io::Result<Option<Vec<u8>>> {
    match content {
        Ok(content) => Ok(Some(content)),
        Err(error) if is_memory(&error) => Err(error),
        Err(_) => Ok(None),
    }
}

// The real user id of a process's status: the first number of its line `Uid:` (proc(5)).
fn user_in(status: &[u8]) -> Option<&[u8]> {
    for line in status.split(|byte| *byte == b'\n') {
        if let Some(numbers) = line.strip_prefix(b"Uid:") {
            return numbers
                .split(|byte| byte.is_ascii_whitespace())
                .find(|number| !number.is_empty());
        }
    }
    None
}

// The home of a user id in the user database: the sixth field of the line whose third is the id (passwd(5)).
fn home_listed<'a>(database: &'a [u8], user: &[u8]) -> Option<&'a [u8]> {
    for line in database.split(|byte| *byte == b'\n') {
        let mut fields = line.split(|byte| *byte == b':').skip(2);
        if fields.next() == Some(user) {
            return fields.nth(2).filter(|home| !home.is_empty());
        }
    }
    None
}
