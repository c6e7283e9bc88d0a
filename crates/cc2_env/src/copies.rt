//! Copies of what options and contexts hold. Each fails only if memory runs out.
ghost use Rattle.std.specs.Prelude.{◌≡◌, IfOk, IfErr, ℕ, List, option_map, string_bytes};
ghost use Rattle.cc2_error.specs.Causes.{refusal_of, plain, memory};
ghost use Rattle.cc2_error.specs.Commands.{command_of};
ghost use Rattle.cc2_env.specs.Kept.{variables_in};
ghost use Rattle.cc2_env.specs.Options.{home_text, IsSameEnv};

use cc2_error::error::Result;
use cc2_error::path_and_args::PathAndArgs;
use std::alloc::Global;
use std::collections::BTreeMap;

/// The same command once more, where there is one.
pub fn copied_command(alloc: Global, command: &Option<PathAndArgs>) -> Result<Option<PathAndArgs>>
    ensures ok { IfOk result (λ copy.
        option_map command_of copy ≡ option_map command_of command.now) }
    ensures refused { IfErr result (λ e. refusal_of e ≡ plain memory) }
{
    match command {
        None => Ok(None),
        Some(command) => Ok(Some(command.try_clone(alloc)?)),
    }
}

/// The same text once more, where there is one.
pub fn copied_text(text: &Option<String>) -> Result<Option<String>>
    ensures ok { IfOk result (λ copy.
        option_map string_bytes copy ≡ option_map string_bytes text.now) }
    ensures refused { IfErr result (λ e. refusal_of e ≡ plain memory) }
{
    match text {
        None => Ok(None),
        Some(text) => Ok(Some(text.clone()?)),
    }
}

/// The same home once more, where one was chosen.
pub fn copied_home(home: &Option<Option<String>>) -> Result<Option<Option<String>>>
    ensures ok { IfOk result (λ copy. home_text copy ≡ home_text home.now) }
    ensures refused { IfErr result (λ e. refusal_of e ≡ plain memory) }
{
    match home {
        None => Ok(None),
        Some(dir) => Ok(Some(copied_text(dir)?)),
    }
}

/// The same variables once more.
pub fn copied_variables(env: &BTreeMap<String, Vec<u8>>) -> Result<BTreeMap<String, Vec<u8>>>
    ensures ok { IfOk result (λ copy.
        (name : List ℕ) → variables_in copy name ≡ variables_in env.now name) }
    ensures refused { IfErr result (λ e. refusal_of e ≡ plain memory) }
{
    let copy = env.clone()?;
    Ok(copy)
}

/// The same variables once more, where there are any.
pub fn copied_env(
    env: &Option<BTreeMap<String, Vec<u8>>>,
) -> Result<Option<BTreeMap<String, Vec<u8>>>>
    ensures ok { IfOk result (IsSameEnv env.now) }
    ensures refused { IfErr result (λ e. refusal_of e ≡ plain memory) }
{
    match env {
        None => Ok(None),
        Some(env) => Ok(Some(copied_variables(env)?)),
    }
}
