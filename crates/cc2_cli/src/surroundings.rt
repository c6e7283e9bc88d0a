//! What surrounds the process: its arguments, its directory and its variables.
use crate::home::home_of;
use cc2_base::machine::{Machine, env_value};
use std::{env, fs, io};

/// The arguments after the program's name. Refused where one isn't UTF-8, and where memory ran out.
pub fn given_words(rt: &HostRuntime) -> io::Result<Vec<String>> {
    let mut words = Vec::new(rt.alloc());
    for word in env::args(rt)?.skip(1) {
        words.push(word)?;
    }
    Ok(words)
}

/// The process's directory and variables, and the home (`home_of`). Refused where the directory or the variables can't be
/// read, and where memory ran out.
pub fn this_machine(rt: &HostRuntime) -> io::Result<Machine> {
    let env = variables(rt)?;
    let home = home_of(rt, env_value(env.as_slice(), "HOME"))?;
    let current_dir = env::current_dir(rt)?.into_string();
    Ok(Machine {
        current_dir,
        env,
        home,
    })
}

// The variables as the system lists them; if it doesn't, as the standard library has them, which looks
// for each from the first on and fails if one isn't UTF-8. Without memory there is no second try.
fn variables(rt: &HostRuntime) -> io::Result<Vec<(String, Vec<u8>)>> {
    match fs::read(rt, "/proc/self/environ") {
        Ok(bytes) => parted_all(rt, bytes.as_slice()),
        Err(error) if is_memory(&error) => Err(error),
        Err(_) => listed(rt),
    }
}

/// Whether memory ran out.
pub fn is_memory(error: &io::Error) -> bool {
    error.kind() == io::ErrorKind::OutOfMemory
}

// The variables of the standard library.
fn listed(rt: &HostRuntime) -> io::Result<Vec<(String, Vec<u8>)>> {
    let Ok(variables) = env::vars(rt) else {
        return Err(io::Error::from(io::ErrorKind::InvalidData));
    };
    let mut all = Vec::new(rt.alloc());
    for (name, value) in variables {
        all.push((name, value.into_bytes()))?;
    }
    Ok(all)
}

// Variables that end with a byte 0 each. One whose name isn't UTF-8 is left out: nothing looks for it.
fn parted_all(rt: &HostRuntime, bytes: &[u8]) -> io::Result<Vec<(String, Vec<u8>)>> {
    let mut all = Vec::new(rt.alloc());
    for entry in bytes.split(|byte| *byte == 0) {
        if let Some((name, value)) = parted(entry) {
            let name = String::from_str(rt.alloc(), name)?;
            all.push((name, Vec::from_slice(rt.alloc(), value)?))?;
        }
    }
    Ok(all)
}

// A variable's name, where it is UTF-8, and its value: what is before and after the first `=`.
fn parted(entry: &[u8]) -> Option<(&str, &[u8])> {
    for (at, byte) in entry.iter().enumerate() {
        if *byte == b'=' {
            let (name, value) = entry.split_at(at);
            return match std::str::from_utf8(name) {
                Ok(name) => Some((name, value.get(1..)?)),
                Err(_) => None,
            };
        }
    }
    None
}
