//! The table `net`.
ghost use Rattle.cc2_tables.specs.Net.{net_fields};

use cc2_error::error::{NoMemory, Result};
use cc2_leaf::{
    Fields, Rows, Section, Take, Three, Value, Visit, VisitAlone, VisitRef, Visited, each,
    each_alone, each_ref, each_taken, into_row, is_unset, keys,
};
use serde::Serialize;
use std::alloc::Global;

/// The table `net` (Cargo Reference, Configuration,
/// [`[net]`](https://doc.rust-lang.org/cargo/reference/config.html#net)).
#[derive(Debug, Default, Drop, Serialize)]
#[serde(rename_all = "kebab-case")]
pub struct NetConfig {
    /// How often a request is tried again (Cargo Reference, Configuration,
    /// [`net.retry`](https://doc.rust-lang.org/cargo/reference/config.html#netretry)).
    #[serde(skip_serializing_if = "Option::is_none")]
    pub retry: Option<Value<u32>>,
    /// Whether `git` itself fetches (Cargo Reference, Configuration,
    /// [`net.git-fetch-with-cli`](https://doc.rust-lang.org/cargo/reference/config.html#netgit-fetch-with-cli)).
    #[serde(skip_serializing_if = "Option::is_none")]
    pub git_fetch_with_cli: Option<Value<bool>>,
    /// Whether the network is left alone (Cargo Reference, Configuration,
    /// [`net.offline`](https://doc.rust-lang.org/cargo/reference/config.html#netoffline)).
    #[serde(skip_serializing_if = "Option::is_none")]
    pub offline: Option<Value<bool>>,
}

macro_rules! fields {
    ($each:ident!($($head:tt)*)) => {
        $each!($($head)*;
            "retry" retry,
            "git-fetch-with-cli" git_fetch_with_cli,
            "offline" offline,
        )
    };
}

impl Fields for NetConfig {
    ghost use Rattle.std.specs.Prelude.{refl};

    ghost fields = { net_fields };

    fn absent(_alloc: Global) -> NetConfig {
        NetConfig::default()
    }

    fn each<V: Visit>(&mut self, other: &mut NetConfig, visit: &V) -> Visited {
        fields!(each!(visit, self, other))
    }

    fn each_ref<V: VisitRef>(&self, copy: &mut NetConfig, visit: &V) -> Result<()> {
        fields!(each_ref!(visit, self, copy))
    }

    fn each_alone<V: VisitAlone>(&mut self, visit: &V) -> std::result::Result<(), NoMemory> {
        fields!(each_alone!(visit, self))
    }

    fn each_taken<V: Take>(&mut self, visit: &mut V) {
        fields!(each_taken!(visit, self))
    }

    fn is_unset(&self) -> bool {
        fields!(is_unset!(self))
    }

    ghost distinct = { refl };
}

impl Rows for NetConfig {
    type Row = Three<Option<Value<u32>>, Option<Value<bool>>, Option<Value<bool>>>;

    fn keys() -> &'static [&'static str] {
        fields!(keys!())
    }

    fn into_row(self) -> Self::Row {
        fields!(into_row!(self))
    }
}

impl Section for NetConfig {}
