//! A registry of the table `registries`, resolved.
use crate::settle_fields;
use crate::table::ResolveTable;
use cc2_error::error::Result;
use cc2_leaf::RegistriesProtocol;
use cc2_resolved::provider::CredentialProvider;
use cc2_resolved::{Place, ResolvedTable, copy_fields};
use cc2_tables::hidden;
use cc2_value::Visited;
use serde::Serialize;
use std::alloc::Global;
use std::fmt;

/// A registry of the table `registries` (Cargo Reference, Configuration,
/// [`[registries]`](https://doc.rust-lang.org/cargo/reference/config.html#registries)), resolved.
#[derive(Default, Drop, Serialize)]
#[serde(rename_all = "kebab-case")]
pub struct RegistriesConfigValue {
    /// The address of its index (Cargo Reference, Configuration,
    /// [`registries.<name>.index`](https://doc.rust-lang.org/cargo/reference/config.html#registriesnameindex)).
    #[serde(skip_serializing_if = "Option::is_none")]
    pub index: Option<String>,
    /// The token to log in with (Cargo Reference, Configuration,
    /// [`registries.<name>.token`](https://doc.rust-lang.org/cargo/reference/config.html#registriesnametoken)).
    #[serde(skip_serializing_if = "Option::is_none")]
    pub token: Option<String>,
    /// Where its credentials are kept (Cargo Reference, Configuration,
    /// [`registries.<name>.credential-provider`](https://doc.rust-lang.org/cargo/reference/config.html#registriesnamecredential-provider)).
    #[serde(skip_serializing_if = "Option::is_none")]
    pub credential_provider: Option<CredentialProvider>,
    /// How its index is had (Cargo Reference, Configuration,
    /// [`registries.crates-io.protocol`](https://doc.rust-lang.org/cargo/reference/config.html#registriescrates-ioprotocol)).
    #[serde(skip_serializing_if = "Option::is_none")]
    pub protocol: Option<RegistriesProtocol>,
}

/// The token is not shown: `[REDACTED]` is shown in its place.
impl fmt::Debug for RegistriesConfigValue {
    fn fmt<W: fmt::Write>(&self, f: &mut fmt::Formatter<W>) -> fmt::Result {
        f.debug_struct("RegistriesConfigValue")
            .field("index", &self.index)
            .field("token", &hidden(&self.token))
            .field("credential_provider", &self.credential_provider)
            .field("protocol", &self.protocol)
            .finish()
    }
}

/// The fields of a member of `registries`: each with its key, and what its text is resolved as.
#[macro_export]
macro_rules! registries_fields {
    ($visit:ident!($($with:tt)*)) => {
        $visit!($($with)*;
            "index" index,
            "token" token,
            "credential-provider" credential_provider,
            "protocol" protocol,
        )
    };
}

impl ResolvedTable for RegistriesConfigValue {
    ghost use Rattle.cc2_resolved_tables.specs.Registries.{registries_rows};

    ghost rows = { registries_rows };

    fn empty(_alloc: Global) -> RegistriesConfigValue {
        RegistriesConfigValue::default()
    }

    fn copy_each(&self, alloc: Global, copy: &mut RegistriesConfigValue) -> Result<()> {
        registries_fields!(copy_fields!(alloc, self, copy))
    }
}

impl ResolveTable for cc2_tables::RegistriesConfigValue {
    ghost use Rattle.cc2_tables.specs.Registries.{registries_fields};

    type Resolved = RegistriesConfigValue;

    ghost fields = { registries_fields };

    fn settle_each(
        &mut self,
        alloc: Global,
        place: &Place<'_>,
        resolved: &mut RegistriesConfigValue,
    ) -> Visited {
        registries_fields!(settle_fields!(alloc, place, self, resolved))
    }
}
