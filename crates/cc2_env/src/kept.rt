//! The environment variables that are kept: those that Cargo or rustc looks at, and the browser.
ghost use Rattle.std.specs.Prelude.{◌≡◌, OnOk, IfOk, IfErr, ℕ, List, string_bytes};
ghost use Rattle.std.specs.BTreeMap.{get_by_text};
ghost use Rattle.std.specs.Str.{bytes_eq};
ghost use Rattle.cc2_error.specs.Causes.{refusal_of, plain, memory};
ghost use Rattle.cc2_env.specs.Kept.{is_kept_name, kept_of, variables_in};

use cc2_error::error::Result;
use cc2_value::put;
use std::alloc::Global;
use std::collections::BTreeMap;

// Whether a variable of this name is kept.
fn is_kept(name: &str) -> bool
    ensures { result ≡ is_kept_name name.now }
{
    name.starts_with("CARGO") || name.starts_with("RUST") || name == "BROWSER"
}

/// What is kept of an environment, by name; of a name that occurs twice the last value (Cargo
/// Reference, Configuration,
/// [environment variables](https://doc.rust-lang.org/cargo/reference/config.html#environment-variables)).
pub fn kept(alloc: Global, env: Vec<(String, Vec<u8>)>) -> Result<BTreeMap<String, Vec<u8>>>
    ensures ok { IfOk result (λ m. (name : List ℕ) → variables_in m name ≡ kept_of env.items name) }
    ensures refused { IfErr result (λ e. refusal_of e ≡ plain memory) }
{
    let mut map = BTreeMap::new(alloc);
    for (name, value) in env {
        if is_kept(name.as_str()) {
            put(&mut map, name, value)?;
        }
    }
    Ok(map)
}

/// The same of an environment that stays as it is (Cargo Reference, Configuration,
/// [environment variables](https://doc.rust-lang.org/cargo/reference/config.html#environment-variables)).
pub fn kept_copies(alloc: Global, env: &[(String, Vec<u8>)]) -> Result<BTreeMap<String, Vec<u8>>>
    ensures ok { IfOk result (λ m. (name : List ℕ) → variables_in m name ≡ kept_of env.now name) }
    ensures refused { IfErr result (λ e. refusal_of e ≡ plain memory) }
{
    let mut map = BTreeMap::new(alloc);
    for entry in env {
        if is_kept(entry.0.as_str()) {
            let value = Vec::from_slice(alloc, entry.1.as_slice())?;
            put(&mut map, entry.0.clone()?, value)?;
        }
    }
    Ok(map)
}
