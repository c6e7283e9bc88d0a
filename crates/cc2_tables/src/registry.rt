//! The table `registry`.
ghost use Rattle.cc2_tables.specs.Registry.{registry_fields};

use crate::redacted::hidden;
use cc2_error::error::{NoMemory, Result};
use cc2_leaf::{
    CredentialProvider, Fields, Four, GlobalCredentialProviders, Rows, Section, Take, Value, Visit,
    VisitAlone, VisitRef, Visited, each, each_alone, each_ref, each_taken, into_row, is_unset,
    keys,
};
use serde::Serialize;
use std::alloc::Global;
use std::fmt;

/// The table `registry` (Cargo Reference, Configuration,
/// [`[registry]`](https://doc.rust-lang.org/cargo/reference/config.html#registry)).
#[derive(Drop, Serialize)]
#[serde(rename_all = "kebab-case")]
pub struct RegistryConfig {
    /// The registry that is meant where none is named (Cargo Reference, Configuration,
    /// [`registry.default`](https://doc.rust-lang.org/cargo/reference/config.html#registrydefault)).
    #[serde(skip_serializing_if = "Option::is_none")]
    pub default: Option<Value<String>>,
    /// Where the credentials of crates.io are kept (Cargo Reference, Configuration,
    /// [`registry.credential-provider`](https://doc.rust-lang.org/cargo/reference/config.html#registrycredential-provider)).
    #[serde(skip_serializing_if = "Option::is_none")]
    pub credential_provider: Option<CredentialProvider>,
    /// The token to log in to crates.io with (Cargo Reference, Configuration,
    /// [`registry.token`](https://doc.rust-lang.org/cargo/reference/config.html#registrytoken)).
    #[serde(skip_serializing_if = "Option::is_none")]
    pub token: Option<Value<String>>,
    /// Where credentials of any registry are kept (Cargo Reference, Configuration,
    /// [`registry.global-credential-providers`](https://doc.rust-lang.org/cargo/reference/config.html#registryglobal-credential-providers)).
    #[serde(skip_serializing_if = "GlobalCredentialProviders::is_empty")]
    pub global_credential_providers: GlobalCredentialProviders,
}

/// The token is not shown: `[REDACTED]` is printed in its place.
impl fmt::Debug for RegistryConfig {
    fn fmt<W: fmt::Write>(&self, f: &mut fmt::Formatter<W>) -> fmt::Result {
        f.debug_struct("RegistryConfig")
            .field("default", &self.default)
            .field("credential_provider", &self.credential_provider)
            .field("token", &hidden(&self.token))
            .field(
                "global_credential_providers",
                &self.global_credential_providers,
            )
            .finish()
    }
}

macro_rules! fields {
    ($each:ident!($($head:tt)*)) => {
        $each!($($head)*;
            "default" default,
            "credential-provider" credential_provider,
            "token" token,
            "global-credential-providers" global_credential_providers,
        )
    };
}

impl Fields for RegistryConfig {
    ghost use Rattle.std.specs.Prelude.{refl};

    ghost fields = { registry_fields };

    fn absent(alloc: Global) -> RegistryConfig {
        RegistryConfig {
            default: None,
            credential_provider: None,
            token: None,
            global_credential_providers: GlobalCredentialProviders::empty(alloc),
        }
    }

    fn each<V: Visit>(&mut self, other: &mut RegistryConfig, visit: &V) -> Visited {
        fields!(each!(visit, self, other))
    }

    fn each_ref<V: VisitRef>(&self, copy: &mut RegistryConfig, visit: &V) -> Result<()> {
        fields!(each_ref!(visit, self, copy))
    }

    fn each_alone<V: VisitAlone>(&mut self, visit: &V) -> std::result::Result<(), NoMemory> {
        fields!(each_alone!(visit, self))
    }

    fn each_taken<V: Take>(&mut self, visit: &mut V) {
        fields!(each_taken!(visit, self))
    }

    fn is_unset(&self) -> bool {
        fields!(is_unset!(self))
    }

    ghost distinct = { refl };
}

impl Rows for RegistryConfig {
    type Row = Four<
        Option<Value<String>>,
        Option<CredentialProvider>,
        Option<Value<String>>,
        GlobalCredentialProviders,
    >;

    fn keys() -> &'static [&'static str] {
        fields!(keys!())
    }

    fn into_row(self) -> Self::Row {
        fields!(into_row!(self))
    }
}

impl Section for RegistryConfig {}
