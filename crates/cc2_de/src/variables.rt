//! What the variables of a machine set by themselves.
ghost use Rattle.std.specs.Prelude.{◌⊎◌, IfErr, IfOk};
ghost use Rattle.cc2_error.specs.Causes.{refusal_of};
ghost use Rattle.cc2_error.specs.Outcomes.{IsWantOfMemory};
ghost use Rattle.cc2_de.specs.Config.{config_at};
ghost use Rattle.cc2_de.specs.VariablesAlone.{IsSetBy, IsVariableCause};

use crate::Config;
use cc2_base::machine::Machine;
use cc2_env::ResolveOptions;
use cc2_error::error::Result;
use std::alloc::Global;

/// What the machine's variables make of a configuration with nothing in it, each value with its variable (Cargo
/// Reference, Configuration,
/// [environment variables](https://doc.rust-lang.org/cargo/reference/config.html#environment-variables)).
///
/// # Errors
/// - `ErrorKind::EnvNotText` where `CARGO`, or a variable that sets a setting, isn't UTF-8;
/// - `ErrorKind::EnvParse` where a variable's text is none that its setting takes;
/// - `ErrorKind::EmptyCommand`, `ProviderArgs` or `ProviderNoCommand` of one that sets a command or a provider;
/// - `ErrorKind::Memory` where memory ran out.
pub fn set_by_variables(alloc: Global, machine: &Machine) -> Result<Config>
    ensures ok { IfOk result (λ config. IsSetBy machine.now (config_at config)) }
    ensures refused { IfErr result (λ e.
        IsWantOfMemory e ⊎ IsVariableCause machine.now (refusal_of e)) }
{
    let nowhere = String::new(alloc);
    let context = ResolveOptions::default().into_context(alloc, nowhere, machine)?;
    Config::empty(alloc).apply_env(alloc, &context)
}
