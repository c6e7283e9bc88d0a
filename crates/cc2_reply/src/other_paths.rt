//! The paths besides the walk's that a reply may ask about.
ghost use Rattle.std.specs.Prelude.{◌≡◌, ◌++◌, map, option_map, string_bytes, IfOk, OnOk};
ghost use Rattle.cc2_base.specs.Paths.{joined};
ghost use Rattle.cc2_reply.specs.Asked.{cargo_in, dir_of, other_paths};

use cc2_base::machine::Machine;
use cc2_base::path::join;
use cc2_error::error::NoMemory;
use cc2_rustc::beside_cargo;
use std::alloc::Global;

/// The directory that words ask about: the first of them, or nothing.
pub fn dir_of(words: &[String]) -> &str
    ensures { result.now ≡ dir_of (map string_bytes words.now) }
{
    match words {
        [dir, ..] => dir.as_str(),
        [] => "",
    }
}

/// The path of rustc in the folder of Cargo's program, and each of these words as a path seen from the directory: one may be
/// that of an override's file.
///
/// # Errors
/// `NoMemory` if memory runs out.
pub fn other_paths(
    alloc: Global,
    dir: &str,
    words: &[String],
    machine: &Machine,
) -> Result<Vec<String>, NoMemory>
    ensures { IfOk result (λ paths. map string_bytes paths.items
        ≡ other_paths dir.now (map string_bytes words.now) machine.now) }
{
    let mut paths = Vec::new(alloc);
    paths.push(beside_cargo(alloc, cargo_in(machine.variable("CARGO")))?)?;
    push_joined(alloc, dir, words, &mut paths)?;
    Ok(paths)
}

// The program of Cargo that a variable names.
fn cargo_in(value: Option<&[u8]>) -> &str
    ensures { result.now ≡ cargo_in (option_map (λ value. value.now) value.entry) }
{
    match value {
        Some(value) => match str::from_utf8(value) {
            Ok(program) => program,
            Err(_) => "cargo",
        },
        None => "cargo",
    }
}

// Appends each of these as a path seen from the directory.
fn push_joined(
    alloc: Global,
    dir: &str,
    words: &[String],
    paths: &mut Vec<String>,
) -> Result<(), NoMemory>
    ensures { OnOk result (map string_bytes paths.new.items
        ≡ map string_bytes paths.old.items ++ map (joined dir.now) (map string_bytes words.now)) }
{
    for word in words {
        paths.push(join(alloc, dir, word.as_str())?)?;
    }
    Ok(())
}
