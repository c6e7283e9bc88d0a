//! The names of the variables of keys.
ghost use Rattle.std.specs.Prelude.{◌≡◌, IfOk, map, string_bytes};
ghost use Rattle.cc2_cargo_settings.specs.Names.{key_variable};

use cc2_base::variable_name::push_in_variable;
use cc2_error::error::NoMemory;
use std::alloc::Global;

/// The name of the variable that sets the key at a path: `CARGO_`, and the keys, joined by `_`, in upper case and with `-`
/// and `.` as `_` (Cargo Reference, Configuration,
/// [environment variables](https://doc.rust-lang.org/cargo/reference/config.html#environment-variables)). Of
/// `build.target-dir` it is `CARGO_BUILD_TARGET_DIR`.
///
/// # Errors
/// `NoMemory` where the name finds no memory.
pub fn key_variable(alloc: Global, path: &[&str]) -> Result<String, NoMemory>
    ensures { IfOk result (λ name.
        string_bytes name ≡ key_variable (map (λ k. k.now) path.now)) }
{
    let mut name = String::from_str(alloc, "CARGO")?;
    for key in path {
        name.push('_')?;
        push_in_variable(&mut name, *key)?;
    }
    Ok(name)
}
