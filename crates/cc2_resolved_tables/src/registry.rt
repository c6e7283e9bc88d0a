//! The table `registry`, resolved.
use crate::settle_fields;
use crate::table::ResolveTable;
use cc2_error::error::Result;
use cc2_resolved::provider::{CredentialProvider, GlobalCredentialProviders};
use cc2_resolved::{Place, ResolvedTable, copy_fields};
use cc2_tables::hidden;
use cc2_value::Visited;
use serde::Serialize;
use std::alloc::Global;
use std::fmt;

/// The table `registry` (Cargo Reference, Configuration,
/// [`[registry]`](https://doc.rust-lang.org/cargo/reference/config.html#registry)), resolved.
#[derive(Drop, Serialize)]
#[serde(rename_all = "kebab-case")]
pub struct RegistryConfig {
    /// The registry that is meant where none is named (Cargo Reference, Configuration,
    /// [`registry.default`](https://doc.rust-lang.org/cargo/reference/config.html#registrydefault)).
    #[serde(skip_serializing_if = "Option::is_none")]
    pub default: Option<String>,
    /// Where the credentials of crates.io are kept (Cargo Reference, Configuration,
    /// [`registry.credential-provider`](https://doc.rust-lang.org/cargo/reference/config.html#registrycredential-provider)).
    #[serde(skip_serializing_if = "Option::is_none")]
    pub credential_provider: Option<CredentialProvider>,
    /// The token to log in to crates.io with (Cargo Reference, Configuration,
    /// [`registry.token`](https://doc.rust-lang.org/cargo/reference/config.html#registrytoken)).
    #[serde(skip_serializing_if = "Option::is_none")]
    pub token: Option<String>,
    /// Where credentials of any registry are kept (Cargo Reference, Configuration,
    /// [`registry.global-credential-providers`](https://doc.rust-lang.org/cargo/reference/config.html#registryglobal-credential-providers)).
    #[serde(skip_serializing_if = "GlobalCredentialProviders::is_empty")]
    pub global_credential_providers: GlobalCredentialProviders,
}

/// The token is not shown: `[REDACTED]` is shown in its place.
impl fmt::Debug for RegistryConfig {
    fn fmt<W: fmt::Write>(&self, f: &mut fmt::Formatter<W>) -> fmt::Result {
        f.debug_struct("RegistryConfig")
            .field("default", &self.default)
            .field("credential_provider", &self.credential_provider)
            .field("token", &hidden(&self.token))
            .field(
                "global_credential_providers",
                &self.global_credential_providers,
            )
            .finish()
    }
}

/// The fields of the table `registry`: each with its key, and what its text is resolved as.
#[macro_export]
macro_rules! registry_fields {
    ($visit:ident!($($with:tt)*)) => {
        $visit!($($with)*;
            "default" default,
            "credential-provider" credential_provider,
            "token" token,
            "global-credential-providers" global_credential_providers,
        )
    };
}

impl ResolvedTable for RegistryConfig {
    ghost use Rattle.cc2_resolved_tables.specs.Registry.{registry_rows};

    ghost rows = { registry_rows };

    fn empty(alloc: Global) -> RegistryConfig {
        RegistryConfig {
            default: None,
            credential_provider: None,
            token: None,
            global_credential_providers: GlobalCredentialProviders::empty(alloc),
        }
    }

    fn copy_each(&self, alloc: Global, copy: &mut RegistryConfig) -> Result<()> {
        registry_fields!(copy_fields!(alloc, self, copy))
    }
}

impl ResolveTable for cc2_tables::RegistryConfig {
    ghost use Rattle.cc2_tables.specs.Registry.{registry_fields};

    type Resolved = RegistryConfig;

    ghost fields = { registry_fields };

    fn settle_each(
        &mut self,
        alloc: Global,
        place: &Place<'_>,
        resolved: &mut RegistryConfig,
    ) -> Visited {
        registry_fields!(settle_fields!(alloc, place, self, resolved))
    }
}
