//! What the overrides of a command line make of a configuration.
ghost use Rattle.std.specs.Prelude.{◌≡◌, ◌⊎◌, ◌+◌, ◌++◌, ◌∷◌, [], length, map, reverse, IfOk, OnOk, IfErr, Err, string_bytes};
ghost use Rattle.cc2_error.specs.Causes.{refusal_of};
ghost use Rattle.cc2_error.specs.Outcomes.{Answered, IsWantOfMemory};
ghost use Rattle.cc2_base.specs.Told.{WhereTold};
ghost use Rattle.cc2_env.specs.CommandLine.{override_of};
ghost use Rattle.cc2_env.specs.Options.{overrides_of};
ghost use Rattle.cc2_de.specs.Config.{config_at};
ghost use Rattle.cc2_de.specs.LoadedOverrides.{AreOfOverrides};
ghost use Rattle.cc2_de.specs.Overrides.{IsOfOverride, IsOverrideCause, IsCauseFrom, IsOver, IsOverCause};

use crate::config::Config;
use crate::context::{over_merging, overriding};
use crate::load_file::{read_file_as, read_text};
use cc2_base::files::Files;
use cc2_base::path::join;
use cc2_env::{Override, ResolveContext};
use cc2_error::error::{Error, ErrorKind, Result};
use cc2_leaf::{Definition, MergeAllFault};
use std::alloc::Global;

impl Config {
    /// The configuration under the overrides of a context: of single values the latest override's is kept, of
    /// arrays its items come last, and all take precedence over this configuration (Cargo Reference, Configuration,
    /// [command-line overrides](https://doc.rust-lang.org/cargo/reference/config.html#command-line-overrides)).
    /// The path of a file is seen from the context's directory. Without overrides it is this
    /// configuration.
    ///
    /// # Errors
    /// - `ErrorKind::ReadFile` where a file can't be read or isn't UTF-8;
    /// - `ErrorKind::ParseFile` where a file or a text is no TOML or has a value of a wrong type;
    /// - `ErrorKind::EmptyCommand`, `ProviderArgs` or `ProviderNoCommand` of a command or a provider in one;
    /// - `ErrorKind::Merge` of the latest override, or of this configuration, that doesn't merge into those after
    ///   it;
    /// - `ErrorKind::Memory` where memory ran out.
    ///
    /// But for `Memory` the error's line names the file, or the override by its number, counted from 1. The
    /// configuration is taken also where it is refused.
    pub fn apply_overrides<F: Files>(
        self,
        alloc: Global,
        context: &ResolveContext,
        files: &F,
    ) -> Result<Config>
        ensures { let dir = string_bytes context.now.current_dir in
            let os = overrides_of context.now in
            WhereTold (F.told files.now) (λ fs. Answered config_at result
            (IsOver fs dir os (config_at self)) (IsOverCause fs dir os (config_at self))) }
    {
        let overrides = context.command_line();
        if overrides.is_empty() {
            return Ok(self);
        }
        let read = read_overrides(alloc, overrides, context.current_dir(), files);
        let layers = laid_over(read, self)?;
        match Config::merge_all(alloc, layers) {
            Ok(config) => Ok(config),
            Err(MergeAllFault::Memory) => Err(Error::new(ErrorKind::Memory)),
            Err(MergeAllFault::Mixed { place, error }) => {
                Err(over_merging(alloc, overrides.len(), place, error))
            }
        }
    }
}

// Reads the overrides, in their order.
fn read_overrides<F: Files>(
    alloc: Global,
    overrides: &[Override],
    directory: &str,
    files: &F,
) -> Result<Vec<Config>>
    ensures counted { IfOk result (λ read. length read.items ≡ length overrides.now) }
    ensures ok { WhereTold (F.told files.now) (λ fs. IfOk result (λ read.
        AreOfOverrides fs directory.now (map override_of overrides.now) read.items)) }
    ensures refused { WhereTold (F.told files.now) (λ fs. IfErr result (λ e.
        IsWantOfMemory e ⊎ IsCauseFrom fs directory.now 1 (map override_of overrides.now)
        (refusal_of e))) }
{
    let mut read = Vec::new(alloc);
    for one in overrides {
        let number = read.len() + 1;
        read.push(load_override(alloc, one, number, directory, files)?)?;
    }
    Ok(read)
}

// The override of this number, counted from 1.
fn load_override<F: Files>(
    alloc: Global,
    one: &Override,
    number: usize,
    directory: &str,
    files: &F,
) -> Result<Config>
    ensures ok { WhereTold (F.told files.now) (λ fs.
        IfOk result (IsOfOverride fs directory.now (override_of one.now))) }
    ensures refused { WhereTold (F.told files.now) (λ fs. IfErr result (λ e.
        IsWantOfMemory e ⊎ IsOverrideCause fs directory.now number (override_of one.now)
        (refusal_of e))) }
{
    let mut config = Config::empty(alloc);
    match read_override(alloc, &mut config, one, number, directory, files) {
        Ok(()) => Ok(config),
        Err(error) => Err(error),
    }
}

// The same in place of what a configuration has.
#[inline(never)]
fn read_override<F: Files>(
    alloc: Global,
    config: &mut Config,
    one: &Override,
    number: usize,
    directory: &str,
    files: &F,
) -> Result<()>
    ensures ok { WhereTold (F.told files.now) (λ fs.
        OnOk result (IsOfOverride fs directory.now (override_of one.now) config.new)) }
    ensures refused { WhereTold (F.told files.now) (λ fs. IfErr result (λ e.
        IsWantOfMemory e ⊎ IsOverrideCause fs directory.now number (override_of one.now)
        (refusal_of e))) }
{
    match one {
        Override::Text(text) => {
            match read_text(alloc, config, text.as_str(), &Definition::Cli(None)) {
                Ok(()) => Ok(()),
                Err(error) => Err(overriding(alloc, number, error)),
            }
        }
        Override::File(path) => {
            let whole = join(alloc, directory, path.as_str())?;
            let definition = Definition::Cli(Some(whole.clone()?));
            read_file_as(alloc, config, whole.as_str(), &definition, files)
        }
    }
}

// The latest first, and the last value after them; where they were refused it is dropped.
fn laid_over<T: Drop>(read: Result<Vec<T>>, below: T) -> Result<Vec<T>>
    ensures ok { IfOk read (λ list.
        IfOk result (λ all. all.items ≡ reverse list.items ++ below ∷ [])) }
    ensures refused { IfErr read (λ e. result ≡ Err e) }
    ensures memory { OnOk read (IfErr result IsWantOfMemory) }
{
    let mut layers = read?;
    layers.reverse();
    layers.push(below)?;
    Ok(layers)
}
