//! The configuration once more.
ghost use Rattle.std.specs.Prelude.{◌≡◌, ℕ, List, IfOk, IfErr, OnOk};
ghost use Rattle.cc2_error.specs.Outcomes.{IsWantOfMemory};
ghost use Rattle.cc2_resolved.specs.Copies.{AllSame};
ghost use Rattle.cc2_resolved_tables.specs.Tables.{tables_rows};
ghost use Rattle.cargo_config2.specs.Config.{tables_of};
ghost use Rattle.cargo_config2.specs.Copies.{IsSameConfig, IsSameLoaded};
ghost use Rattle.cargo_config2.specs.Targets.{kept_settings};

use crate::config::{Config, Loaded};
use cc2_de::TryClone;
use cc2_error::error::Result;
use cc2_resolved::target_config::TargetConfig;
use cc2_resolved::{ResolvedTable, copy_fields};
use cc2_resolved_tables::Tables;
use std::alloc::Global;
use std::collections::BTreeMap;

impl Config {
    /// The same configuration once more: its tables, what queries read beside them, and what they keep.
    ///
    /// # Errors
    /// `ErrorKind::Memory` where the copy finds no memory.
    pub fn try_clone(&self, alloc: Global) -> Result<Config>
        ensures same { IfOk result (IsSameConfig self.now) }
        ensures refused { IfErr result IsWantOfMemory }
    {
        let mut tables = Tables::empty(alloc);
        self.copy_tables(alloc, &mut tables)?;
        let loaded = copied_loaded(alloc, &self.loaded)?;
        let kept = self.kept.try_clone(alloc)?;
        let target = copied_settings(alloc, &self.target)?;
        let mut config = Config::new(alloc, tables, loaded);
        config.kept = kept;
        config.target = target;
        Ok(config)
    }

    // Copies each table in place of the copy's.
    fn copy_tables(&self, alloc: Global, copy: &mut Tables) -> Result<()>
        ensures same { OnOk result (AllSame tables_rows (tables_of self.now) copy.new) }
        ensures refused { IfErr result IsWantOfMemory }
    {
        copy_fields!(alloc, self, copy;
            alias,
            build,
            credential_alias,
            doc,
            env,
            future_incompat_report,
            cargo_new,
            http,
            net,
            registries,
            registry,
            source,
            term,
        )
    }
}

// What queries read beside the tables, once more.
fn copied_loaded(alloc: Global, loaded: &Loaded) -> Result<Loaded>
    ensures same { IfOk result (IsSameLoaded loaded.now) }
    ensures refused { IfErr result IsWantOfMemory }
{
    let target = TryClone::try_clone(&loaded.target, alloc)?;
    let context = loaded.context.try_clone(alloc)?;
    Ok(Loaded {
        target,
        flags_overridden: loaded.flags_overridden,
        doc_flags_overridden: loaded.doc_flags_overridden,
        context,
    })
}

// The settings of targets that are kept, once more.
fn copied_settings(
    alloc: Global,
    settings: &BTreeMap<String, TargetConfig>,
) -> Result<BTreeMap<String, TargetConfig>>
    ensures same { IfOk result (λ copies.
        (name : List ℕ) → kept_settings copies name ≡ kept_settings settings.now name) }
    ensures refused { IfErr result IsWantOfMemory }
{
    Ok(cc2_resolved::TryClone::try_clone(settings, alloc)?)
}
