//! The tables of a configuration, each a list of fields that reading, merging and copying visit.
//! It depends on `cc2_leaf`.
#![tactic(auto)]

mod build;
mod cargo_new;
mod doc;
mod future_incompat_report;
mod http;
mod net;
mod redacted;
mod registries;
mod registry;
mod source;
mod term;
mod term_progress;

pub use build::BuildConfig;
pub use cargo_new::CargoNewConfig;
pub use doc::DocConfig;
pub use future_incompat_report::FutureIncompatReportConfig;
pub use http::HttpConfig;
pub use net::NetConfig;
pub use redacted::{Redacted, hidden};
pub use registries::RegistriesConfigValue;
pub use registry::RegistryConfig;
pub use source::SourceConfigValue;
pub use term::TermConfig;
pub use term_progress::TermProgress;
