//! The table `http`, resolved.
use crate::settle_fields;
use crate::table::ResolveTable;
use cc2_error::error::Result;
use cc2_resolved::{Place, ResolvedTable, copy_fields};
use cc2_value::Visited;
use serde::Serialize;
use std::alloc::Global;

/// The table `http` (Cargo Reference, Configuration,
/// [`[http]`](https://doc.rust-lang.org/cargo/reference/config.html#http)), resolved.
#[derive(Debug, Default, Drop, Serialize)]
#[serde(rename_all = "kebab-case")]
pub struct HttpConfig {
    /// Whether requests are logged (Cargo Reference, Configuration,
    /// [`http.debug`](https://doc.rust-lang.org/cargo/reference/config.html#httpdebug)).
    #[serde(skip_serializing_if = "Option::is_none")]
    pub debug: Option<bool>,
    /// The proxy (Cargo Reference, Configuration,
    /// [`http.proxy`](https://doc.rust-lang.org/cargo/reference/config.html#httpproxy)).
    #[serde(skip_serializing_if = "Option::is_none")]
    pub proxy: Option<String>,
    /// How many seconds a request may take (Cargo Reference, Configuration,
    /// [`http.timeout`](https://doc.rust-lang.org/cargo/reference/config.html#httptimeout)).
    #[serde(skip_serializing_if = "Option::is_none")]
    pub timeout: Option<u32>,
    /// The file of certificate authorities, as it was set: a relative path is not joined to a root
    /// (Cargo Reference, Configuration,
    /// [`http.cainfo`](https://doc.rust-lang.org/cargo/reference/config.html#httpcainfo)).
    #[serde(skip_serializing_if = "Option::is_none")]
    pub cainfo: Option<String>,
    /// Whether revoked certificates are refused (Cargo Reference, Configuration,
    /// [`http.check-revoke`](https://doc.rust-lang.org/cargo/reference/config.html#httpcheck-revoke)).
    #[serde(skip_serializing_if = "Option::is_none")]
    pub check_revoke: Option<bool>,
    /// How many bytes a second are too few (Cargo Reference, Configuration,
    /// [`http.low-speed-limit`](https://doc.rust-lang.org/cargo/reference/config.html#httplow-speed-limit)).
    #[serde(skip_serializing_if = "Option::is_none")]
    pub low_speed_limit: Option<u32>,
    /// Whether requests share a connection (Cargo Reference, Configuration,
    /// [`http.multiplexing`](https://doc.rust-lang.org/cargo/reference/config.html#httpmultiplexing)).
    #[serde(skip_serializing_if = "Option::is_none")]
    pub multiplexing: Option<bool>,
    /// The name that requests go by.
    #[serde(skip_serializing_if = "Option::is_none")]
    pub user_agent: Option<String>,
}

/// The fields of the table `http`: each with its key, and what its text is resolved as.
#[macro_export]
macro_rules! http_fields {
    ($visit:ident!($($with:tt)*)) => {
        $visit!($($with)*;
            "debug" debug,
            "proxy" proxy,
            "timeout" timeout,
            "cainfo" cainfo,
            "check-revoke" check_revoke,
            "low-speed-limit" low_speed_limit,
            "multiplexing" multiplexing,
            "user-agent" user_agent,
        )
    };
}

impl ResolvedTable for HttpConfig {
    ghost use Rattle.cc2_resolved_tables.specs.Http.{http_rows};

    ghost rows = { http_rows };

    fn empty(_alloc: Global) -> HttpConfig {
        HttpConfig::default()
    }

    fn copy_each(&self, alloc: Global, copy: &mut HttpConfig) -> Result<()> {
        http_fields!(copy_fields!(alloc, self, copy))
    }
}

impl ResolveTable for cc2_tables::HttpConfig {
    ghost use Rattle.cc2_tables.specs.Http.{http_fields};

    type Resolved = HttpConfig;

    ghost fields = { http_fields };

    fn settle_each(
        &mut self,
        alloc: Global,
        place: &Place<'_>,
        resolved: &mut HttpConfig,
    ) -> Visited {
        http_fields!(settle_fields!(alloc, place, self, resolved))
    }
}
