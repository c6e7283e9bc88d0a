//! A configuration as the files have it: read, merged, and loaded from a directory upwards; and what environment
//! variables make of it. `variables`, `overrides`: what these two sources set by themselves.
//! It depends on `cc2_env` and what lies below, whose items it exports again.
#![tactic(auto)]

mod apply_env;
mod apply_overrides;
mod config;
mod configured;
mod context;
mod load;
mod load_file;
mod overrides;
mod variables;

pub use cc2_base::files::{FileTable, Files, HostFiles, ReadFault};
pub use cc2_base::machine::Machine;
pub use cc2_base::walk::Walk;
pub use cc2_env::{Override, ResolveContext, ResolveOptions};
pub use cc2_error::error::{Error, ErrorKind, NoMemory, ParseCause, ReadCause, Shape};
pub use cc2_leaf::{
    Color, ConfigRelativePath, CredentialProvider, CredentialProviderKind, Decode, Definition,
    EnvConfigValue, Flags, Frequency, GlobalCredentialProviders, Joined, Merge, MergeAllFault,
    MergeFrom, Part, PathAndArgs, ReadEnv, RegistriesProtocol, SetPath, SplitEncoded, SplitSpaces,
    StringList, StringOrArray, TryClone, Value, VersionControlSoftware, When, merges_group, put,
};
pub use cc2_tables::{
    BuildConfig, CargoNewConfig, DocConfig, FutureIncompatReportConfig, HttpConfig, NetConfig,
    RegistriesConfigValue, RegistryConfig, SourceConfigValue, TermConfig, TermProgress,
};
pub use cc2_target_table::{Nested, Node, TargetConfig};
pub use config::Config;
pub use configured::{Configured, load_under};
pub use overrides::set_by_overrides;
pub use variables::set_by_variables;
