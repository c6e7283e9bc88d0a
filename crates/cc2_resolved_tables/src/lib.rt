//! The resolved tables, each a list of fields that resolving and copying visit, and all of them as one.
//! It uses `cc2_tables` (what is resolved) and `cc2_resolved` (how).
#![tactic(auto)]

mod build;
mod cargo_new;
mod doc;
mod env;
mod future_incompat_report;
mod http;
mod member;
mod net;
mod providers;
mod registries;
mod registry;
mod slot;
mod source;
mod table;
mod tables;
mod term;
mod term_progress;

pub use build::BuildConfig;
pub use cargo_new::CargoNewConfig;
pub use doc::DocConfig;
pub use future_incompat_report::FutureIncompatReportConfig;
pub use http::HttpConfig;
pub use member::Member;
pub use net::NetConfig;
pub use registries::RegistriesConfigValue;
pub use registry::RegistryConfig;
pub use slot::Slot;
pub use source::SourceConfigValue;
pub use table::{ResolveTable, resolve_table};
pub use tables::Tables;
pub use term::TermConfig;
pub use term_progress::TermProgressConfig;
