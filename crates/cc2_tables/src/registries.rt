//! A registry of the table `registries`.
ghost use Rattle.std.specs.Prelude.{◌≡◌, None, true};
ghost use Rattle.cc2_value.specs.Cells.{KeyPath};
ghost use Rattle.cc2_value.specs.Shown.{fields_at};
ghost use Rattle.cc2_tables.specs.Registries.{registries_fields};

use crate::redacted::hidden;
use cc2_error::error::{NoMemory, Result};
use cc2_leaf::{
    CredentialProvider, Fields, Four, RegistriesProtocol, Rows, Table, Take, Value, Visit,
    VisitAlone, VisitRef, Visited, each, each_alone, each_ref, each_taken, into_row, keys,
};
use serde::Serialize;
use std::alloc::Global;
use std::fmt;

/// A registry of the table `registries` (Cargo Reference, Configuration,
/// [`[registries]`](https://doc.rust-lang.org/cargo/reference/config.html#registries)).
#[derive(Default, Drop, Serialize)]
#[serde(rename_all = "kebab-case")]
pub struct RegistriesConfigValue {
    /// The address of its index (Cargo Reference, Configuration,
    /// [`registries.<name>.index`](https://doc.rust-lang.org/cargo/reference/config.html#registriesnameindex)).
    #[serde(skip_serializing_if = "Option::is_none")]
    pub index: Option<Value<String>>,
    /// The token to log in with (Cargo Reference, Configuration,
    /// [`registries.<name>.token`](https://doc.rust-lang.org/cargo/reference/config.html#registriesnametoken)).
    #[serde(skip_serializing_if = "Option::is_none")]
    pub token: Option<Value<String>>,
    /// Where its credentials are kept (Cargo Reference, Configuration,
    /// [`registries.<name>.credential-provider`](https://doc.rust-lang.org/cargo/reference/config.html#registriesnamecredential-provider)).
    #[serde(skip_serializing_if = "Option::is_none")]
    pub credential_provider: Option<CredentialProvider>,
    /// How its index is had (Cargo Reference, Configuration,
    /// [`registries.crates-io.protocol`](https://doc.rust-lang.org/cargo/reference/config.html#registriescrates-ioprotocol)).
    #[serde(skip_serializing_if = "Option::is_none")]
    pub protocol: Option<Value<RegistriesProtocol>>,
}

/// The token is not shown: `[REDACTED]` is printed in its place.
impl fmt::Debug for RegistriesConfigValue {
    fn fmt<W: fmt::Write>(&self, f: &mut fmt::Formatter<W>) -> fmt::Result {
        f.debug_struct("RegistriesConfigValue")
            .field("index", &self.index)
            .field("token", &hidden(&self.token))
            .field("credential_provider", &self.credential_provider)
            .field("protocol", &self.protocol)
            .finish()
    }
}

macro_rules! fields {
    ($each:ident!($($head:tt)*)) => {
        $each!($($head)*;
            "index" index,
            "token" token,
            "credential-provider" credential_provider,
            "protocol" protocol,
        )
    };
}

impl Fields for RegistriesConfigValue {
    ghost use Rattle.std.specs.Prelude.{refl};

    ghost fields = { registries_fields };

    fn absent(_alloc: Global) -> RegistriesConfigValue {
        RegistriesConfigValue::default()
    }

    fn each<V: Visit>(&mut self, other: &mut RegistriesConfigValue, visit: &V) -> Visited {
        fields!(each!(visit, self, other))
    }

    fn each_ref<V: VisitRef>(&self, copy: &mut RegistriesConfigValue, visit: &V) -> Result<()> {
        fields!(each_ref!(visit, self, copy))
    }

    fn each_alone<V: VisitAlone>(&mut self, visit: &V) -> std::result::Result<(), NoMemory> {
        fields!(each_alone!(visit, self))
    }

    fn each_taken<V: Take>(&mut self, visit: &mut V) {
        fields!(each_taken!(visit, self))
    }

    ghost distinct = { refl };
}

impl Rows for RegistriesConfigValue {
    type Row = Four<
        Option<Value<String>>,
        Option<Value<String>>,
        Option<CredentialProvider>,
        Option<Value<RegistriesProtocol>>,
    >;

    fn keys() -> &'static [&'static str] {
        fields!(keys!())
    }

    fn into_row(self) -> Self::Row {
        fields!(into_row!(self))
    }
}

impl Table for RegistriesConfigValue {
    ghost member = { true };
}

impl RegistriesConfigValue {
    /// Nothing in it. It takes no memory.
    pub fn empty(alloc: Global) -> RegistriesConfigValue
        ensures { (p : KeyPath) → fields_at registries_fields result p ≡ None }
    {
        RegistriesConfigValue::absent(alloc)
    }
}
