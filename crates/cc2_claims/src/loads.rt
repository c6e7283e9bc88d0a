//! Loads of a directory, and what is above its files.
ghost use Rattle.std.specs.Prelude.{IfOk, IfErr, string_bytes};
ghost use Rattle.std.specs.Option.{option_copied};
ghost use Rattle.cc2_base.specs.Told.{WhereTold};
ghost use Rattle.cc2_base.specs.Walked.{walked};
ghost use Rattle.cc2_env.specs.Options.{overrides_of, variables_of};
ghost use Rattle.cc2_de.specs.Config.{config_at};
ghost use Rattle.cc2_de.specs.ConfigRanks.{config_rank};
ghost use Rattle.cc2_de.specs.Configured.{IsConfigured, IsConfiguredCause};
ghost use Rattle.cc2_env.specs.Ranked.{IsRanked, IsRankCause};
ghost use Rattle.cc2_de.specs.LoadFrom.{IsLoadOf};
ghost use Rattle.cc2_de.specs.Overrides.{IsOver, IsOverCause};
ghost use Rattle.cc2_error.specs.Outcomes.{Answered};

use cc2_de::{Config, Configured, Files, Machine, ResolveContext, ResolveOptions, load_under};
use cc2_error::error::Result;
use std::alloc::Global;

/// `de::Config::load_with_options`: all files of the walk, the cargo home's among them.
///
/// # Errors
/// Those of `de::Config::load_with_options`.
pub fn loaded<F: Files>(
    alloc: Global,
    cwd: &str,
    cargo_home: Option<&str>,
    files: &F,
) -> Result<Config>
    ensures { WhereTold (F.told files.now) (λ fs.
        IsLoadOf fs (walked fs cwd.now (option_copied cargo_home.entry)) result) }
{
    Config::load_with_options(alloc, cwd, cargo_home, files)
}

/// `de::Config::apply_overrides`: what the command line set takes precedence over all.
///
/// # Errors
/// Those of `de::Config::apply_overrides`.
pub fn under_overrides<F: Files>(
    alloc: Global,
    config: Config,
    context: &ResolveContext,
    files: &F,
) -> Result<Config>
    ensures { let dir = string_bytes context.now.current_dir in let os = overrides_of context.now in
        WhereTold (F.told files.now) (λ fs. Answered config_at result
        (IsOver fs dir os (config_at config)) (IsOverCause fs dir os (config_at config))) }
{
    config.apply_overrides(alloc, context, files)
}

/// `de::Config::apply_env`: each setting is what the first of its variables that is set makes of it, and
/// only the variables that are looked at are causes.
///
/// # Errors
/// Those of `de::Config::apply_env`.
pub fn under_variables(alloc: Global, config: Config, context: &ResolveContext) -> Result<Config>
    ensures ok { IfOk result (IsRanked config_at config_rank (variables_of context.now) config) }
    ensures refused { IfErr result
        (IsRankCause config_at config_rank (variables_of context.now) config) }
{
    config.apply_env(alloc, context)
}

/// `load_under`: a variable is a cause only where all walked files are configurations and merge.
///
/// # Errors
/// Those of `load_under`.
pub fn configured<F: Files>(
    alloc: Global,
    cwd: &str,
    options: ResolveOptions,
    machine: &Machine,
    files: &F,
) -> Result<Configured>
    ensures { WhereTold (F.told files.now) (λ fs. Answered (λ c. c) result
        (IsConfigured fs machine.now cwd.now options)
        (IsConfiguredCause fs machine.now cwd.now options)) }
{
    load_under(alloc, cwd, options, machine, files)
}
