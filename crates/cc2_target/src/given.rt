//! What the settings of targets are made of, and the settings that come of it.
ghost use Rattle.std.specs.Prelude.{map};
ghost use Rattle.cc2_error.specs.Outcomes.{Answered};
ghost use Rattle.cc2_env.specs.Options.{variables_of};
ghost use Rattle.cc2_target.specs.Given.{given_in, AreFrom, IsRefusedFrom};
ghost use Rattle.cc2_target.specs.Settings.{IsSettings, IsUnresolved};
ghost use Rattle.cc2_resolved.specs.TargetConfigs.{shown};
ghost use Rattle.cc2_target.specs.Variables.{AreRead};

use crate::find::find_table;
use crate::flags::{rustdocflags_of, rustflags_of};
use crate::programs::{linker_of, runner_of};
use crate::sources::TargetSources;
use crate::variables::TargetVariables;
use cc2_env::ResolveContext;
use cc2_error::error::Result;
use cc2_resolved::target_config::TargetConfig;
use cc2_resolved_tables::BuildConfig;
use std::alloc::Global;
use std::collections::BTreeMap;

/// What the settings of targets are made of, beside what rustc prints (Cargo Reference, Configuration,
/// [`[target]`](https://doc.rust-lang.org/cargo/reference/config.html#target)).
#[derive(Clone, Copy)]
pub struct Given<'a> {
    /// The tables below `target`, by their keys (Cargo Reference, Configuration,
    /// [`[target]`](https://doc.rust-lang.org/cargo/reference/config.html#target)).
    pub tables: &'a BTreeMap<String, cc2_target_table::TargetConfig>,
    /// The variables, and the directory to which their relative values are joined.
    pub context: &'a ResolveContext,
    /// The table `build`, whose flags are taken where a target has none.
    pub build: &'a BuildConfig,
    /// Whether variables override the flags of targets.
    pub flags_overridden: bool,
    /// The same of the flags for rustdoc.
    pub doc_flags_overridden: bool,
}

impl Given<'_> {
    /// The settings of a triple, by what its variables set and by the tables at the keys that are true
    /// for it, in byte order of the keys. See the Cargo Reference, Configuration,
    /// [`[target]`](https://doc.rust-lang.org/cargo/reference/config.html#target).
    ///
    /// # Errors
    /// `NoRoot` where the linker or the runner must be joined to a root and its file has none, and
    /// `Memory` where memory ran out.
    pub fn settings(
        &self,
        alloc: Global,
        triple: &str,
        variables: &TargetVariables,
        true_tables: &[&cc2_target_table::TargetConfig],
    ) -> Result<TargetConfig>
        ensures { AreRead (variables_of self.now.context.now) triple.now variables.now
            → Answered shown result
            (IsSettings (given_in self.now) triple.now (map (λ t. t.now) true_tables.now))
            (IsUnresolved (given_in self.now) triple.now (map (λ t. t.now) true_tables.now)) }
    {
        let sources = TargetSources {
            variables,
            table: find_table(self.tables, triple),
            true_tables,
        };
        match self.settings_from(alloc, &sources) {
            Ok(settings) => Ok(settings),
            Err(error) => Err(error),
        }
    }

    // The settings by these sources.
    fn settings_from(&self, alloc: Global, sources: &TargetSources<'_>) -> Result<TargetConfig>
        ensures { Answered shown result (AreFrom (given_in self.now) sources.now)
            (IsRefusedFrom (given_in self.now) sources.now) }
    {
        let directory = self.context.current_dir();
        let linker = linker_of(alloc, directory, sources.linker())?;
        let runner = runner_of(alloc, directory, sources.runner())?;
        let rustflags = rustflags_of(alloc, sources, self)?;
        let rustdocflags = rustdocflags_of(alloc, sources, self)?;
        Ok(TargetConfig {
            linker,
            runner,
            rustflags,
            rustdocflags,
        })
    }
}
