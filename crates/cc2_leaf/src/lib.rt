//! The values that a configuration has at its leaves: how each is read and merged.
//! It depends on `cc2_value`, whose items it re-exports.
#![tactic(auto)]

mod config_relative_path;
mod env;
mod flags;
mod listed;
mod path_and_args;
mod provider;
mod providers;
mod read_env;
mod repr;
mod split;
mod split_encoded;
mod string_list;
mod string_or_array;
mod text_copies;
mod texts;
mod words;

pub use cc2_value::{
    Color, Decode, Definition, Eight, Fields, Four, Frequency, Joined, Merge, MergeAllFault,
    MergeFrom, One, Pair, Part, Parts, Plain, RegistriesProtocol, Rows, Section, SetPath, Spelled,
    Table, Take, Three, TryClone, Two, Value, VersionControlSoftware, Visit, VisitAlone, VisitRef,
    Visited, When, copy_fields, defined, each, each_alone, each_ref, each_taken, from_sorted,
    gather_fields, into_row, is_unset, join_list, keys, merges_group, mixed, prints_nothing, put,
    read_field, read_fields, reverse_fields, wrong_type,
};
pub use config_relative_path::ConfigRelativePath;
pub use env::EnvConfigValue;
pub use flags::Flags;
pub use path_and_args::PathAndArgs;
pub use provider::{CredentialProvider, CredentialProviderKind};
pub use providers::GlobalCredentialProviders;
pub use read_env::ReadEnv;
pub use split::SplitSpaces;
pub use split_encoded::SplitEncoded;
pub use string_list::StringList;
pub use string_or_array::StringOrArray;
