//! Loading the configuration that Cargo itself would use.
ghost use Rattle.std.specs.Prelude.{string_bytes};
ghost use Rattle.cc2_error.specs.Outcomes.{Answered};
ghost use Rattle.cc2_base.specs.Told.{WhereTold};
ghost use Rattle.cargo_config2.specs.Loads.{IsConfig, IsConfigCause, nothing_chosen};
ghost use Rattle.cargo_config2.specs.Resolution.{IsResolutionOf, IsUnresolved};

use crate::config::{Config, Loaded};
use crate::tables::resolve_tables;
use cc2_base::files::Files;
use cc2_base::machine::Machine;
use cc2_de::{Configured, ResolveOptions, load_under};
use cc2_error::error::Result;
use std::alloc::Global;
use std::collections::BTreeMap;
use std::mem::replace;

impl Config {
    /// The configuration of the machine's directory, under the machine's variables and with its cargo
    /// home (Cargo Reference,
    /// [Configuration](https://doc.rust-lang.org/cargo/reference/config.html)).
    ///
    /// # Errors
    /// Those of `load_with_options`.
    pub fn load<F: Files>(alloc: Global, machine: &Machine, files: &F) -> Result<Config>
        ensures { let cwd = string_bytes machine.now.current_dir in
            WhereTold (F.told files.now) (λ fs.
            Answered (λ c. c) result (IsConfig fs machine.now cwd nothing_chosen)
            (IsConfigCause fs machine.now cwd nothing_chosen)) }
    {
        Config::load_with_cwd(alloc, machine.current_dir.as_str(), machine, files)
    }

    /// The same of a directory (Cargo Reference, Configuration,
    /// [hierarchical structure](https://doc.rust-lang.org/cargo/reference/config.html#hierarchical-structure)).
    /// It is taken as it is: a relative one has the ancestors of its own text (`a/b`, `a` and the
    /// empty path), and what is resolved from there stays relative.
    ///
    /// # Errors
    /// Those of `load_with_options`.
    pub fn load_with_cwd<F: Files>(
        alloc: Global,
        cwd: &str,
        machine: &Machine,
        files: &F,
    ) -> Result<Config>
        ensures { WhereTold (F.told files.now) (λ fs.
            Answered (λ c. c) result (IsConfig fs machine.now cwd.now nothing_chosen)
            (IsConfigCause fs machine.now cwd.now nothing_chosen)) }
    {
        Config::load_with_options(alloc, cwd, ResolveOptions::default(), machine, files)
    }

    /// The configuration of a directory: its files, those of its ancestors and of the cargo home,
    /// merged with the nearest the strongest, under the environment variables and then under the
    /// options' overrides, the latest the strongest, and resolved (Cargo Reference, Configuration,
    /// [hierarchical structure](https://doc.rust-lang.org/cargo/reference/config.html#hierarchical-structure),
    /// [environment variables](https://doc.rust-lang.org/cargo/reference/config.html#environment-variables),
    /// [command-line overrides](https://doc.rust-lang.org/cargo/reference/config.html#command-line-overrides),
    /// [config-relative paths](https://doc.rust-lang.org/cargo/reference/config.html#config-relative-paths)).
    /// What the options choose is taken in place of what the machine has; but `CARGO_HOME` is the
    /// machine's, also where other variables were chosen. The variables of a target are read by
    /// `target` alone.
    ///
    /// # Errors
    /// Refused exactly where there is one of these:
    /// - `EnvNotText` of `CARGO` where no program was chosen for Cargo, or of `CARGO_HOME` where no
    ///   home was;
    /// - `ReadFile` or `ParseFile` of a walked file, and `EmptyCommand`, `ProviderArgs` or
    ///   `ProviderNoCommand` of a command or provider in it;
    /// - `Merge` of the first walked file with which the files no longer merge;
    /// - `EnvNotText` of a variable that sets a setting and is not UTF-8; `EnvParse` of one whose text
    ///   the setting doesn't take; `EmptyCommand`, `ProviderArgs` or `ProviderNoCommand` of one that
    ///   sets a command or a provider;
    /// - `ReadFile`, `ParseFile`, `EmptyCommand`, `ProviderArgs` or `ProviderNoCommand` of an override,
    ///   with its number or its file, and `Merge` of overrides that don't merge, or not over what
    ///   is below them;
    /// - `NoRoot` of a relative value whose file has no root, `SpecName` of a spec path of
    ///   `build.target` without file name, `EmptyCommand` of a blank provider that is no alias.
    ///
    /// `Memory` may come of any allocation. A refusal gives nothing, and what was lent is as it was.
    pub fn load_with_options<F: Files>(
        alloc: Global,
        cwd: &str,
        options: ResolveOptions,
        machine: &Machine,
        files: &F,
    ) -> Result<Config>
        ensures { WhereTold (F.told files.now) (λ fs.
            Answered (λ c. c) result (IsConfig fs machine.now cwd.now options)
            (IsConfigCause fs machine.now cwd.now options)) }
    {
        let configured = load_under(alloc, cwd, options, machine, files)?;
        Ok(Config::resolve(alloc, configured)?)
    }

    /// The configuration that was loaded, resolved in the directory of its context. Relative paths and programs are
    /// joined to the folder that holds the folder of their file, or to the directory where a variable or a text of
    /// the command line set them (Cargo Reference, Configuration,
    /// [config-relative paths](https://doc.rust-lang.org/cargo/reference/config.html#config-relative-paths)). The tables
    /// of `target` stay as they are until a target is asked.
    ///
    /// # Errors
    /// `NoRoot` of a relative value whose file has no root; `SpecName` of a spec path of `build.target` without file name;
    /// `EmptyCommand` of a blank provider that is no alias; `Memory` where memory ran out. What was loaded is taken also
    /// where it is refused.
    pub fn resolve(alloc: Global, configured: Configured) -> Result<Config>
        ensures { Answered (λ c. c) result (IsResolutionOf configured) (IsUnresolved configured) }
    {
        let Configured { config, context } = configured;
        let mut config = config;
        let (flags_overridden, doc_flags_overridden) = config.overrides();
        match resolve_tables(alloc, context.current_dir(), &mut config) {
            Ok(tables) => {
                let loaded = Loaded {
                    target: replace(&mut config.target, BTreeMap::new(alloc)),
                    flags_overridden,
                    doc_flags_overridden,
                    context,
                };
                drop(config);
                Ok(Config::new(alloc, tables, loaded))
            }
            Err(error) => {
                drop(config);
                drop(context);
                Err(error)
            }
        }
    }
}
