//! The table `net`, resolved.
use crate::settle_fields;
use crate::table::ResolveTable;
use cc2_error::error::Result;
use cc2_resolved::{Place, ResolvedTable, copy_fields};
use cc2_value::Visited;
use serde::Serialize;
use std::alloc::Global;

/// The table `net` (Cargo Reference, Configuration,
/// [`[net]`](https://doc.rust-lang.org/cargo/reference/config.html#net)), resolved.
#[derive(Debug, Default, Drop, Serialize)]
#[serde(rename_all = "kebab-case")]
pub struct NetConfig {
    /// How often a request is tried again (Cargo Reference, Configuration,
    /// [`net.retry`](https://doc.rust-lang.org/cargo/reference/config.html#netretry)).
    #[serde(skip_serializing_if = "Option::is_none")]
    pub retry: Option<u32>,
    /// Whether `git` itself fetches (Cargo Reference, Configuration,
    /// [`net.git-fetch-with-cli`](https://doc.rust-lang.org/cargo/reference/config.html#netgit-fetch-with-cli)).
    #[serde(skip_serializing_if = "Option::is_none")]
    pub git_fetch_with_cli: Option<bool>,
    /// Whether the network is left alone (Cargo Reference, Configuration,
    /// [`net.offline`](https://doc.rust-lang.org/cargo/reference/config.html#netoffline)).
    #[serde(skip_serializing_if = "Option::is_none")]
    pub offline: Option<bool>,
}

/// The fields of the table `net`: each with its key, and what its text is resolved as.
#[macro_export]
macro_rules! net_fields {
    ($visit:ident!($($with:tt)*)) => {
        $visit!($($with)*;
            "retry" retry,
            "git-fetch-with-cli" git_fetch_with_cli,
            "offline" offline,
        )
    };
}

impl ResolvedTable for NetConfig {
    ghost use Rattle.cc2_resolved_tables.specs.Net.{net_rows};

    ghost rows = { net_rows };

    fn empty(_alloc: Global) -> NetConfig {
        NetConfig::default()
    }

    fn copy_each(&self, alloc: Global, copy: &mut NetConfig) -> Result<()> {
        net_fields!(copy_fields!(alloc, self, copy))
    }
}

impl ResolveTable for cc2_tables::NetConfig {
    ghost use Rattle.cc2_tables.specs.Net.{net_fields};

    type Resolved = NetConfig;

    ghost fields = { net_fields };

    fn settle_each(
        &mut self,
        alloc: Global,
        place: &Place<'_>,
        resolved: &mut NetConfig,
    ) -> Visited {
        net_fields!(settle_fields!(alloc, place, self, resolved))
    }
}
