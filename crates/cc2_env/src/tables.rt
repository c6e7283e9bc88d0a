//! The tables that are not `build`, by their variables.
ghost use Rattle.std.specs.Prelude.{OnOk, IfErr};
ghost use Rattle.cc2_value.specs.Shown.{fields_at};
ghost use Rattle.cc2_tables.specs.Registry.{registry_fields};
ghost use Rattle.cc2_env.specs.Kept.{Variables};
ghost use Rattle.cc2_env.specs.Options.{variables_of};
ghost use Rattle.cc2_env.specs.Ranked.{by_field, IsRanked, IsRankCause};
ghost use Rattle.cc2_env.specs.Ranks.{registry_ranks};
ghost use Rattle.cc2_env.specs.Tokens.{DifferInTokens};

use crate::apply_env::{ApplyEnv, apply_table};
use crate::read::{read_browser, read_one, read_whole};
use crate::{ResolveContext, apply_fields};
use cc2_error::error::Result;
use cc2_tables::{
    CargoNewConfig, DocConfig, FutureIncompatReportConfig, HttpConfig, NetConfig, RegistryConfig,
    TermConfig, TermProgress,
};
use cc2_value::Visited;
use std::alloc::Global;

impl ApplyEnv for DocConfig {
    ghost use Rattle.cc2_env.specs.Ranks.{doc_ranks};

    ghost ranks = { doc_ranks };

    fn apply_each(&mut self, alloc: Global, context: &ResolveContext) -> Visited {
        apply_fields!(alloc, context, self;
            "browser" browser read_browser(),
        )
    }
}

impl ApplyEnv for FutureIncompatReportConfig {
    ghost use Rattle.cc2_env.specs.Ranks.{report_ranks};

    ghost ranks = { report_ranks };

    fn apply_each(&mut self, alloc: Global, context: &ResolveContext) -> Visited {
        apply_fields!(alloc, context, self;
            "frequency" frequency read_one("CARGO_FUTURE_INCOMPAT_REPORT_FREQUENCY"),
        )
    }
}

impl ApplyEnv for CargoNewConfig {
    ghost use Rattle.cc2_env.specs.Ranks.{new_ranks};

    ghost ranks = { new_ranks };

    fn apply_each(&mut self, alloc: Global, context: &ResolveContext) -> Visited {
        apply_fields!(alloc, context, self;
            "vcs" vcs read_one("CARGO_CARGO_NEW_VCS"),
        )
    }
}

impl ApplyEnv for HttpConfig {
    ghost use Rattle.cc2_env.specs.Ranks.{http_ranks};

    ghost ranks = { http_ranks };

    fn apply_each(&mut self, alloc: Global, context: &ResolveContext) -> Visited {
        apply_fields!(alloc, context, self;
            "debug" debug read_one("CARGO_HTTP_DEBUG"),
            "proxy" proxy read_one("CARGO_HTTP_PROXY"),
            "timeout" timeout read_one("CARGO_HTTP_TIMEOUT"),
            "cainfo" cainfo read_one("CARGO_HTTP_CAINFO"),
            "check-revoke" check_revoke read_one("CARGO_HTTP_CHECK_REVOKE"),
            "low-speed-limit" low_speed_limit read_one("CARGO_HTTP_LOW_SPEED_LIMIT"),
            "multiplexing" multiplexing read_one("CARGO_HTTP_MULTIPLEXING"),
            "user-agent" user_agent read_one("CARGO_HTTP_USER_AGENT"),
        )
    }
}

impl ApplyEnv for NetConfig {
    ghost use Rattle.cc2_env.specs.Ranks.{net_ranks};

    ghost ranks = { net_ranks };

    fn apply_each(&mut self, alloc: Global, context: &ResolveContext) -> Visited {
        apply_fields!(alloc, context, self;
            "retry" retry read_one("CARGO_NET_RETRY"),
            "git-fetch-with-cli" git_fetch_with_cli read_one("CARGO_NET_GIT_FETCH_WITH_CLI"),
            "offline" offline read_one("CARGO_NET_OFFLINE"),
        )
    }
}

impl ApplyEnv for RegistryConfig {
    ghost use Rattle.cc2_env.specs.Ranks.{registry_ranks};

    ghost ranks = { registry_ranks };

    fn apply_each(&mut self, alloc: Global, context: &ResolveContext) -> Visited {
        apply_fields!(alloc, context, self;
            "default" default read_one("CARGO_REGISTRY_DEFAULT"),
            "credential-provider" credential_provider read_one("CARGO_REGISTRY_CREDENTIAL_PROVIDER"),
            "token" token read_one("CARGO_REGISTRY_TOKEN"),
            "global-credential-providers" global_credential_providers
                read_whole(&["CARGO_REGISTRY_GLOBAL_CREDENTIAL_PROVIDERS"]),
        )
    }
}

/// What the variables make of the table `registry` (Cargo Reference, Configuration,
/// [`[registry]`](https://doc.rust-lang.org/cargo/reference/config.html#registry)). What is refused
/// says nothing of the token's bytes.
pub fn apply_registry_table(
    alloc: Global,
    context: &ResolveContext,
    registry: &mut RegistryConfig,
) -> Result<()>
    ensures ok { OnOk result (IsRanked (fields_at registry_fields) (by_field registry_ranks)
        (variables_of context.now) registry.old registry.new) }
    ensures refused { IfErr result
        (IsRankCause (fields_at registry_fields) (by_field registry_ranks)
        (variables_of context.now) registry.old) }
    ensures tokens { IfErr result (λ e.
        (other : Variables) → DifferInTokens (variables_of context.now) other
        → IsRankCause (fields_at registry_fields) (by_field registry_ranks) other registry.old e) }
{
    apply_table(alloc, context, registry)
}

impl ApplyEnv for TermProgress {
    ghost use Rattle.cc2_env.specs.Ranks.{progress_ranks};

    ghost ranks = { progress_ranks };

    fn apply_each(&mut self, alloc: Global, context: &ResolveContext) -> Visited {
        apply_fields!(alloc, context, self;
            "when" when read_one("CARGO_TERM_PROGRESS_WHEN"),
            "width" width read_one("CARGO_TERM_PROGRESS_WIDTH"),
        )
    }
}

impl ApplyEnv for TermConfig {
    ghost use Rattle.cc2_env.specs.Ranks.{term_ranks};

    ghost ranks = { term_ranks };

    fn apply_each(&mut self, alloc: Global, context: &ResolveContext) -> Visited {
        apply_fields!(alloc, context, self;
            "quiet" quiet read_one("CARGO_TERM_QUIET"),
            "verbose" verbose read_one("CARGO_TERM_VERBOSE"),
            "color" color read_one("CARGO_TERM_COLOR"),
            "progress" progress apply_table(),
        )
    }
}
