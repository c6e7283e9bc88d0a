//! What the overrides of a command line set by themselves.
ghost use Rattle.std.specs.Prelude.{◌⊎◌, IfErr, IfOk};
ghost use Rattle.cc2_error.specs.Causes.{refusal_of};
ghost use Rattle.cc2_error.specs.Outcomes.{IsWantOfMemory};
ghost use Rattle.cc2_base.specs.Told.{WhereTold};
ghost use Rattle.cc2_env.specs.Options.{chosen_overrides};
ghost use Rattle.cc2_de.specs.Config.{config_at};
ghost use Rattle.cc2_de.specs.OverridesAlone.{IsOptionCause, IsSetOver};

use crate::Config;
use cc2_base::files::Files;
use cc2_base::machine::Machine;
use cc2_env::ResolveOptions;
use cc2_error::error::Result;
use std::alloc::Global;

/// What the overrides of these options make of a configuration with nothing in it, the latest the strongest. The path of a
/// file is seen from the directory (Cargo Reference, Configuration,
/// [command-line overrides](https://doc.rust-lang.org/cargo/reference/config.html#command-line-overrides)).
///
/// # Errors
/// - `ErrorKind::EnvNotText` where the options choose no program for Cargo and `CARGO` isn't UTF-8;
/// - `ErrorKind::ReadFile` or `ParseFile` of an override, and `EmptyCommand`, `ProviderArgs` or `ProviderNoCommand` of a
///   command or a provider in one;
/// - `ErrorKind::Merge` where they don't merge;
/// - `ErrorKind::Memory` where memory ran out.
pub fn set_by_overrides<F: Files>(
    alloc: Global,
    dir: &str,
    options: ResolveOptions,
    machine: &Machine,
    files: &F,
) -> Result<Config>
    ensures ok { WhereTold (F.told files.now) (λ fs. IfOk result (λ config.
        IsSetOver fs dir.now (chosen_overrides options) (config_at config))) }
    ensures refused { WhereTold (F.told files.now) (λ fs. IfErr result (λ e.
        IsWantOfMemory e ⊎ IsOptionCause fs machine.now dir.now options (refusal_of e))) }
{
    let place = String::from_str(alloc, dir)?;
    let context = options.into_context(alloc, place, machine)?;
    Config::empty(alloc).apply_overrides(alloc, &context, files)
}
