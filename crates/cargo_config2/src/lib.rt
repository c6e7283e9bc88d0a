//! The configuration that Cargo itself would use.
//! This file is a table of contents: everything that a caller needs is here under one name.
#![tactic(auto)]

mod build_target;
mod cfg_query;
mod commands;
mod config;
mod copies;
mod host;
mod lent;
mod load;
mod queried;
mod rustc;
mod setting;
mod tables;
mod target_query;
mod target_settings;

pub use cc2_base::files::{FileTable, Files, HostFiles, ReadFault};
pub use cc2_base::home::{cargo_home_with_cwd, home_dir, rustup_home_with_cwd};
pub use cc2_base::machine::Machine;
pub use cc2_base::path::{ancestors, components, extension, is_absolute, join, parent, same, stem};
pub use cc2_base::path_iter::{Ancestors, Components};
pub use cc2_base::programs::{HostPrograms, ProgramTable, Programs, RunAnswer};
pub use cc2_base::walk::Walk;
pub use cc2_de::{Configured, Override, ResolveContext, ResolveOptions, load_under};
pub use cc2_error::error::{
    CfgValueFault, Error, ErrorKind, NoMemory, ParseCause, ReadCause, Result, Separator, Shape,
};
pub use cc2_error::path_and_args::PathAndArgs;
pub use cc2_leaf::{Color, Frequency, RegistriesProtocol, VersionControlSoftware, When};
pub use cc2_resolved::env::EnvConfigValue;
pub use cc2_resolved::flags::Flags;
pub use cc2_resolved::provider::{CredentialProvider, GlobalCredentialProviders};
pub use cc2_resolved::string_list::StringList;
pub use cc2_resolved::target_config::TargetConfig;
pub use cc2_resolved::target_triple::{TargetTriple, TargetTripleRef};
pub use cc2_resolved::{ResolvedTable, TryClone};
pub use cc2_resolved_tables::{
    BuildConfig, CargoNewConfig, DocConfig, FutureIncompatReportConfig, HttpConfig, NetConfig,
    RegistriesConfigValue, RegistryConfig, SourceConfigValue, TermConfig, TermProgressConfig,
};
pub use cc2_rustc::{CargoVersion, RustcVersion};
pub use config::Config;
pub use lent::{HostRef, RustcRef};
pub use queried::Queried;

/// The configuration as the files have it, each value with where it was set (Cargo Reference,
/// Configuration,
/// [configuration format](https://doc.rust-lang.org/cargo/reference/config.html#configuration-format)).
pub mod de {
    pub use cc2_de::{
        BuildConfig, CargoNewConfig, Color, Config, ConfigRelativePath, CredentialProvider,
        CredentialProviderKind, Definition, DocConfig, EnvConfigValue, Flags, Frequency,
        FutureIncompatReportConfig, GlobalCredentialProviders, HttpConfig, Joined, Merge,
        MergeAllFault, MergeFrom, Nested, NetConfig, Node, Part, PathAndArgs,
        RegistriesConfigValue, RegistriesProtocol, RegistryConfig, SetPath, SourceConfigValue,
        SplitEncoded, SplitSpaces, StringList, StringOrArray, TargetConfig, TermConfig,
        TermProgress, TryClone, Value, VersionControlSoftware, When,
    };
}

/// Questions for the values of a cfg name: `Cfg` says how they are read, and `Config::cfg` asks. `CfgSet` is all that
/// rustc prints for a target
/// (Rust Reference, Conditional compilation,
/// [Set configuration options](https://doc.rust-lang.org/reference/conditional-compilation.html#set-configuration-options)).
pub mod cfg {
    pub use cc2_rustc::{Cfg, CfgFault, CfgSet};
}

/// Expressions of conditional compilation (Rust Reference,
/// [Conditional compilation](https://doc.rust-lang.org/reference/conditional-compilation.html)).
pub mod cfg_expr {
    pub use cc2_cfg::{
        CfgError, Expression, LexFault, Lexer, LexerToken, Logic, ParseError, Predicate, Reason,
        Token,
    };
}
