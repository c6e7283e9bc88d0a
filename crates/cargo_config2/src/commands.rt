//! The commands of a configuration that are asked for versions and the host.
ghost use Rattle.std.specs.Prelude.{◌≡◌, IfOk, IfErr};
ghost use Rattle.cc2_error.specs.Outcomes.{IsWantOfMemory};
ghost use Rattle.cc2_base.specs.Told.{WhereTold};
ghost use Rattle.cc2_rustc.specs.Asked.{asks};
ghost use Rattle.cargo_config2.specs.Kept.{asked_by};

use crate::config::Config;
use crate::rustc::parts_of;
use cc2_base::files::Files;
use cc2_error::error::Result;
use cc2_rustc::Commands;
use std::alloc::Global;

impl Config {
    // The commands of this configuration. Files are asked for the rustc beside cargo.
    pub(crate) fn commands<F: Files>(&self, alloc: Global, files: &F) -> Result<Commands>
        ensures told { WhereTold (F.told files.now) (λ fs. IfOk result (λ commands.
            asks (asked_by fs self.now).host commands ≡ asked_by fs self.now)) }
        ensures refused { IfErr result IsWantOfMemory }
    {
        let context = &self.loaded.context;
        let parts = parts_of(context, &self.build);
        Commands::of(alloc, &parts, context.env_value("RUSTC_BOOTSTRAP"), files)
    }
}
