//! The names of environment variables that set keys.
ghost use Rattle.std.specs.Prelude.{◌≡◌, ◌++◌, IfOk, OnOk, map, string_bytes};
ghost use Rattle.cc2_base.specs.VariableNames.{in_variable, target_variable};

use cc2_error::error::NoMemory;
use std::alloc::Global;

/// The name of the variable that sets this of a triple, such as `_LINKER`: `CARGO_TARGET_`, the
/// triple with `-` and `.` as `_` and its ASCII letters in upper case, and then what it sets (Cargo
/// Reference, Configuration,
/// [`target.<triple>.linker`](https://doc.rust-lang.org/cargo/reference/config.html#targettriplelinker)).
///
/// # Errors
/// `NoMemory` where the name finds no memory.
pub fn target_variable(alloc: Global, triple: &str, what: &str) -> Result<String, NoMemory>
    ensures { IfOk result (λ name. string_bytes name ≡ target_variable triple.now what.now) }
{
    let mut name = String::from_str(alloc, "CARGO_TARGET_")?;
    push_in_variable(&mut name, triple)?;
    name.push_str(what)?;
    Ok(name)
}

/// Appends a key as names of variables have it: with `-` and `.` as `_`, and its ASCII letters in upper case (Cargo
/// Reference, Configuration,
/// [environment variables](https://doc.rust-lang.org/cargo/reference/config.html#environment-variables)).
///
/// # Errors
/// `NoMemory` where the name can't grow.
pub fn push_in_variable(name: &mut String, key: &str) -> Result<(), NoMemory>
    ensures { OnOk result
        (string_bytes name.new ≡ string_bytes name.old ++ map in_variable key.now) }
{
    for c in key.chars() {
        name.push(upper(c))?;
    }
    Ok(())
}

// A character of a key, as variables have it.
fn upper(c: char) -> char
    ensures { result ≡ in_variable c }
{
    if c == '-' || c == '.' {
        '_'
    } else {
        c.to_ascii_uppercase()
    }
}
