//! A configuration under the variables and the overrides of its context.
ghost use Rattle.std.specs.Prelude.{option_map};
ghost use Rattle.std.specs.Option.{option_copied};
ghost use Rattle.cc2_error.specs.Outcomes.{Answered};
ghost use Rattle.cc2_base.specs.Told.{WhereTold};
ghost use Rattle.cc2_de.specs.Configured.{IsConfigured, IsConfiguredCause};
ghost use Rattle.cc2_de.specs.LoadIn.{IsLoadIn, IsLoadWith};

use crate::config::Config;
use cc2_base::files::Files;
use cc2_base::machine::Machine;
use cc2_env::{ResolveContext, ResolveOptions};
use cc2_error::error::Result;
use std::alloc::Global;

/// A configuration under the variables and the overrides of its context.
#[derive(Drop)]
pub struct Configured {
    /// The files of the directory, of its ancestors and of the cargo home, under the variables and the overrides.
    pub config: Config,
    /// The directory, the variables, and what was chosen.
    pub context: ResolveContext,
}

/// Loads the files of a directory, of its ancestors and of the cargo home, and sets what the variables
/// of the context say, which comes of the options, the directory and the machine, and above them what
/// its overrides say (Cargo Reference, Configuration,
/// [hierarchical structure](https://doc.rust-lang.org/cargo/reference/config.html#hierarchical-structure),
/// [environment variables](https://doc.rust-lang.org/cargo/reference/config.html#environment-variables)
/// and
/// [command-line overrides](https://doc.rust-lang.org/cargo/reference/config.html#command-line-overrides)).
/// The cargo home is the chosen one, where that was chosen: none then means no home, and
/// `CARGO_HOME` isn't looked at.
///
/// Refused exactly where no program was chosen for Cargo and `CARGO` isn't UTF-8, where no home was
/// chosen and `CARGO_HOME` isn't UTF-8, where a file is refused or doesn't merge with the nearer ones,
/// where a variable that is looked at is refused, or where an override is refused or doesn't merge.
pub fn load_under<F: Files>(
    alloc: Global,
    cwd: &str,
    options: ResolveOptions,
    machine: &Machine,
    files: &F,
) -> Result<Configured>
    ensures { WhereTold (F.told files.now) (λ fs. Answered (λ c. c) result
        (IsConfigured fs machine.now cwd.now options)
        (IsConfiguredCause fs machine.now cwd.now options)) }
{
    let place = String::from_str(alloc, cwd)?;
    let context = options.into_context(alloc, place, machine)?;
    match load_in(alloc, &context, machine, files) {
        Ok(config) => Ok(Configured { config, context }),
        Err(error) => Err(error),
    }
}

// Loads the files of a context's directory under its variables, and then its overrides.
fn load_in<F: Files>(
    alloc: Global,
    context: &ResolveContext,
    machine: &Machine,
    files: &F,
) -> Result<Config>
    ensures { WhereTold (F.told files.now) (λ fs. IsLoadIn fs machine.now context.now result) }
{
    let home = context.cargo_home();
    let loaded = load_chosen(alloc, context.current_dir(), home, machine, files)?;
    let ranked = loaded.apply_env(alloc, context)?;
    ranked.apply_overrides(alloc, context, files)
}

// Loads with the home that was chosen, else with the machine's.
fn load_chosen<F: Files>(
    alloc: Global,
    cwd: &str,
    chosen: Option<Option<&str>>,
    machine: &Machine,
    files: &F,
) -> Result<Config>
    ensures { WhereTold (F.told files.now) (λ fs.
        IsLoadWith fs cwd.now machine.now (option_map option_copied chosen.entry) result) }
{
    match chosen {
        Some(home) => Config::load_with_options(alloc, cwd, home, files),
        None => Config::load_with_cwd(alloc, cwd, machine, files),
    }
}
