//! The table `http`.
ghost use Rattle.cc2_tables.specs.Http.{http_fields};

use cc2_error::error::{NoMemory, Result};
use cc2_leaf::{
    Eight, Fields, Rows, Section, Take, Value, Visit, VisitAlone, VisitRef, Visited, each,
    each_alone, each_ref, each_taken, into_row, is_unset, keys,
};
use serde::Serialize;
use std::alloc::Global;

/// The table `http` (Cargo Reference, Configuration,
/// [`[http]`](https://doc.rust-lang.org/cargo/reference/config.html#http)).
#[derive(Debug, Default, Drop, Serialize)]
#[serde(rename_all = "kebab-case")]
pub struct HttpConfig {
    /// Whether requests are logged (Cargo Reference, Configuration,
    /// [`http.debug`](https://doc.rust-lang.org/cargo/reference/config.html#httpdebug)).
    #[serde(skip_serializing_if = "Option::is_none")]
    pub debug: Option<Value<bool>>,
    /// The proxy (Cargo Reference, Configuration,
    /// [`http.proxy`](https://doc.rust-lang.org/cargo/reference/config.html#httpproxy)).
    #[serde(skip_serializing_if = "Option::is_none")]
    pub proxy: Option<Value<String>>,
    /// How many seconds a request may take (Cargo Reference, Configuration,
    /// [`http.timeout`](https://doc.rust-lang.org/cargo/reference/config.html#httptimeout)).
    #[serde(skip_serializing_if = "Option::is_none")]
    pub timeout: Option<Value<u32>>,
    /// The file of certificate authorities (Cargo Reference, Configuration,
    /// [`http.cainfo`](https://doc.rust-lang.org/cargo/reference/config.html#httpcainfo)).
    #[serde(skip_serializing_if = "Option::is_none")]
    pub cainfo: Option<Value<String>>,
    /// Whether revoked certificates are refused (Cargo Reference, Configuration,
    /// [`http.check-revoke`](https://doc.rust-lang.org/cargo/reference/config.html#httpcheck-revoke)).
    #[serde(skip_serializing_if = "Option::is_none")]
    pub check_revoke: Option<Value<bool>>,
    /// How many bytes a second are too few (Cargo Reference, Configuration,
    /// [`http.low-speed-limit`](https://doc.rust-lang.org/cargo/reference/config.html#httplow-speed-limit)).
    #[serde(skip_serializing_if = "Option::is_none")]
    pub low_speed_limit: Option<Value<u32>>,
    /// Whether requests share a connection (Cargo Reference, Configuration,
    /// [`http.multiplexing`](https://doc.rust-lang.org/cargo/reference/config.html#httpmultiplexing)).
    #[serde(skip_serializing_if = "Option::is_none")]
    pub multiplexing: Option<Value<bool>>,
    /// The name that requests go by.
    #[serde(skip_serializing_if = "Option::is_none")]
    pub user_agent: Option<Value<String>>,
}

macro_rules! fields {
    ($each:ident!($($head:tt)*)) => {
        $each!($($head)*;
            "debug" debug,
            "proxy" proxy,
            "timeout" timeout,
            "cainfo" cainfo,
            "check-revoke" check_revoke,
            "low-speed-limit" low_speed_limit,
            "multiplexing" multiplexing,
            "user-agent" user_agent,
        )
    };
}

impl Fields for HttpConfig {
    ghost use Rattle.std.specs.Prelude.{refl};

    ghost fields = { http_fields };

    fn absent(_alloc: Global) -> HttpConfig {
        HttpConfig::default()
    }

    fn each<V: Visit>(&mut self, other: &mut HttpConfig, visit: &V) -> Visited {
        fields!(each!(visit, self, other))
    }

    fn each_ref<V: VisitRef>(&self, copy: &mut HttpConfig, visit: &V) -> Result<()> {
        fields!(each_ref!(visit, self, copy))
    }

    fn each_alone<V: VisitAlone>(&mut self, visit: &V) -> std::result::Result<(), NoMemory> {
        fields!(each_alone!(visit, self))
    }

    fn each_taken<V: Take>(&mut self, visit: &mut V) {
        fields!(each_taken!(visit, self))
    }

    fn is_unset(&self) -> bool {
        fields!(is_unset!(self))
    }

    ghost distinct = { refl };
}

impl Rows for HttpConfig {
    type Row = Eight<
        Option<Value<bool>>,
        Option<Value<String>>,
        Option<Value<u32>>,
        Option<Value<String>>,
        Option<Value<bool>>,
        Option<Value<u32>>,
        Option<Value<bool>>,
        Option<Value<String>>,
    >;

    fn keys() -> &'static [&'static str] {
        fields!(keys!())
    }

    fn into_row(self) -> Self::Row {
        fields!(into_row!(self))
    }
}

impl Section for HttpConfig {}
