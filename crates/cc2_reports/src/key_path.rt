//! Key paths: copied, and as TOML writes them.
ghost use Rattle.std.specs.Prelude.{◌≡◌, IfOk, map, string_bytes};

use cc2_cli::text::{push, quoted};
use cc2_error::error::NoMemory;
use std::alloc::Global;

/// The keys once more.
///
/// # Errors
/// `NoMemory` where memory ran out.
pub fn copied(alloc: Global, path: &[String]) -> Result<Vec<String>, NoMemory>
    ensures { IfOk result (λ copy. map string_bytes copy.items ≡ map string_bytes path.now) }
{
    let mut copy = Vec::new(alloc);
    for key in path {
        copy.push(String::from_str(alloc, key.as_str())?)?;
    }
    Ok(copy)
}

/// The keys, separated by dots; a key that isn't a bare word is quoted.
///
/// # Errors
/// `NoMemory` where memory ran out.
pub fn dotted(alloc: Global, path: &[String]) -> Result<String, NoMemory> {
    let mut shown = Vec::new(alloc);
    for (at, key) in path.iter().enumerate() {
        if at > 0 {
            push(&mut shown, ".")?;
        }
        push_key(&mut shown, alloc, key.as_str())?;
    }
    text_of(alloc, shown.as_slice())
}

fn push_key(shown: &mut Vec<u8>, alloc: Global, key: &str) -> Result<(), NoMemory> {
    if is_bare(key) {
        push(shown, key)
    } else {
        shown.extend_from_slice(quoted(alloc, key)?.as_slice())?;
        Ok(())
    }
}

// Whether the key is a bare word of TOML.
fn is_bare(key: &str) -> bool {
    !key.is_empty()
        && key.as_bytes().iter().all(|byte| byte.is_ascii_alphanumeric()
            || *byte == b'-'
            || *byte == b'_')
}

fn text_of(alloc: Global, bytes: &[u8]) -> Result<String, NoMemory> {
    match std::str::from_utf8(bytes) {
        Ok(text) => Ok(String::from_str(alloc, text)?),
        Err(_) => Ok(String::new(alloc)),
    }
}
