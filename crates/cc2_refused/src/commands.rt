//! Arguments put after a command, flags after flags, and variables kept.
use cargo_config2::{Error, Flags, NoMemory, PathAndArgs, ResolveOptions};
use std::alloc::Global;

/// A command that is extended by one argument, and then by four, each again where memory ran out: it then had the
/// arguments that it had before.
///
/// # Errors
/// `ErrorKind::Memory` where memory ran out elsewhere, or a second time.
pub fn command(alloc: Global) -> Result<String, Error> {
    let mut text = String::new(alloc);
    let mut command = PathAndArgs::new(alloc, String::from_str(alloc, "p")?);
    if command.arg(String::from_str(alloc, "a")?).is_err() {
        push_line(alloc, &mut text, "one refused", &command)?;
        command.arg(String::from_str(alloc, "a")?)?;
    }
    let more = four(alloc)?;
    let again = four(alloc)?;
    if command.args(more).is_err() {
        push_line(alloc, &mut text, "four refused", &command)?;
        command.args(again)?;
    }
    push_line(alloc, &mut text, "all", &command)?;
    Ok(text)
}

// More than a list has room for that has one.
fn four(alloc: Global) -> Result<Vec<String>, NoMemory> {
    let mut more = Vec::new(alloc);
    for arg in ["b", "c", "d", "e"] {
        more.push(String::from_str(alloc, arg)?)?;
    }
    Ok(more)
}

fn push_line(
    alloc: Global,
    text: &mut String,
    name: &str,
    command: &PathAndArgs,
) -> Result<(), Error> {
    let args = &command.args;
    text.push_str(format!(in alloc; "{name}: {args:?}\n")?.as_str())?;
    Ok(())
}

/// Flags, to which one is added that finds no room; again where memory ran out: they were then as they were.
///
/// # Errors
/// `ErrorKind::Memory` where memory ran out elsewhere, or a second time.
pub fn flag(alloc: Global) -> Result<String, Error> {
    let mut text = String::new(alloc);
    let mut flags = Flags::from_space_separated(alloc, "a b c d")?;
    if flags.push(String::from_str(alloc, "e")?).is_err() {
        let kept = &flags.flags;
        text.push_str(format!(in alloc; "refused: {kept:?}\n")?.as_str())?;
        flags.push(String::from_str(alloc, "e")?)?;
    }
    let all = &flags.flags;
    text.push_str(format!(in alloc; "all: {all:?}\n")?.as_str())?;
    Ok(text)
}

/// Options that keep variables.
///
/// # Errors
/// `ErrorKind::Memory` where memory ran out.
pub fn options(alloc: Global) -> Result<ResolveOptions, Error> {
    let mut env = Vec::new(alloc);
    for name in ["CARGO_BUILD_JOBS", "PATH", "RUSTFLAGS"] {
        let value = Vec::from_slice(alloc, b"1")?;
        env.push((String::from_str(alloc, name)?, value))?;
    }
    ResolveOptions::default().env(alloc, env)
}
