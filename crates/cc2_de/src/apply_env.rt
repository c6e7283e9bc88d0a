//! What environment variables make of a configuration.
ghost use Rattle.std.specs.Prelude.{◌≡◌, IfOk, OnOk, IfErr, Ok, Err};
ghost use Rattle.cc2_env.specs.Kept.{Variables};
ghost use Rattle.cc2_env.specs.Options.{variables_of};
ghost use Rattle.cc2_env.specs.Ranked.{IsRanked, IsRankCause};
ghost use Rattle.cc2_env.specs.Tokens.{DifferInTokens};
ghost use Rattle.cc2_de.specs.Config.{config_at};
ghost use Rattle.cc2_de.specs.ConfigRanks.{config_rank};

use crate::config::Config;
use cc2_env::{
    ApplyEnv, ResolveContext, apply_aliases, apply_credential_aliases, apply_fields,
    apply_registries, apply_registry_table, apply_table,
};
use cc2_error::error::Result;
use cc2_leaf::Visited;
use std::alloc::Global;

impl Config {
    /// The configuration under the variables of a context: each setting is what the first of its
    /// variables that is set makes of it, and stays where none is; `overrides` then says whether the
    /// variables of flags are set (Cargo Reference, Configuration,
    /// [environment variables](https://doc.rust-lang.org/cargo/reference/config.html#environment-variables)).
    ///
    /// # Errors
    /// - `ErrorKind::EnvNotText` where a variable that is looked at is not UTF-8;
    /// - `ErrorKind::EnvParse` where its text is none that the setting takes;
    /// - `ErrorKind::EmptyCommand`, `ProviderArgs` or `ProviderNoCommand` where it sets such a command
    ///   or provider;
    /// - `ErrorKind::Memory` where memory ran out.
    ///
    /// The configuration is taken also where it is refused. What an error says doesn't depend on a token's bytes.
    pub fn apply_env(self, alloc: Global, context: &ResolveContext) -> Result<Config>
        ensures ok { IfOk result (IsRanked config_at config_rank (variables_of context.now) self) }
        ensures refused { IfErr result
            (IsRankCause config_at config_rank (variables_of context.now) self) }
        ensures tokens { IfErr result (λ e.
            (other : Variables) → DifferInTokens (variables_of context.now) other
            → IsRankCause config_at config_rank other self e) }
    {
        let mut config = self;
        let applied = config.apply_variables(alloc, context);
        on_ok(config, applied)
    }

    // The same in place.
    fn apply_variables(&mut self, alloc: Global, context: &ResolveContext) -> Result<()>
        ensures ok { OnOk result
            (IsRanked config_at config_rank (variables_of context.now) self.old self.new) }
        ensures refused { IfErr result
            (IsRankCause config_at config_rank (variables_of context.now) self.old) }
    {
        match apply_table(alloc, context, self) {
            Ok(()) => {
                self.mark(context.overrides());
                Ok(())
            }
            Err(error) => Err(error),
        }
    }
}

/// Table by table; the marks stay.
impl ApplyEnv for Config {
    ghost use Rattle.cc2_env.specs.Ranks.{config_ranks};

    ghost ranks = { config_ranks };

    fn apply_each(&mut self, alloc: Global, context: &ResolveContext) -> Visited {
        apply_fields!(alloc, context, self;
            "alias" alias apply_aliases(),
            "build" build apply_table(),
            "credential-alias" credential_alias apply_credential_aliases(),
            "doc" doc apply_table(),
            "future-incompat-report" future_incompat_report apply_table(),
            "cargo-new" cargo_new apply_table(),
            "http" http apply_table(),
            "net" net apply_table(),
            "registries" registries apply_registries(),
            "registry" registry apply_registry_table(),
            "term" term apply_table(),
        )
    }
}

// The value where the outcome is Ok, else what that was refused for.
fn on_ok<T: Drop>(value: T, outcome: Result<()>) -> Result<T>
    ensures ok { OnOk outcome (result ≡ Ok value) }
    ensures refused { IfErr outcome (λ e. result ≡ Err e) }
{
    match outcome {
        Ok(()) => Ok(value),
        Err(error) => Err(error),
    }
}
