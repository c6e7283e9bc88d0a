//! What is wrong in configuration files though they can be read: keys that nothing reads, keys of `[target]` that
//! never hold or are no cfg expressions, and values that Cargo refuses. It depends on `cc2_de` (the fields of a
//! configuration) and on `cc2_rustc` (the keys of `[target]`).
#![tactic(auto)]

mod alone;
mod at_key;
mod cfg_key;
mod cfg_keys;
mod clash;
mod dead;
mod dir;
mod file;
mod finding;
mod form;
mod kind;
mod nearest;
mod place;
mod refusal;
mod template;
mod values;
mod wanted;

pub use alone::{Judge, ValueFault, faults_alone};
pub use at_key::member;
pub use cfg_key::{KeyFault, key_fault};
pub use cfg_keys::{CfgFinding, cfg_findings};
pub use clash::{Clash, clashes};
pub use dir::{LintedFile, dir_findings, is_directory};
pub use file::{FileFault, FileFindings, TomlFault, file_findings, read_findings};
pub use finding::{Finding, Look, table_findings};
pub use form::{Form, form_at, form_of};
pub use kind::{Kind, kind_at};
pub use nearest::nearest_key;
pub use place::{Place, is_among};
pub use refusal::no_memory_wanted;
pub use template::unknown_variable;
pub use values::{Setting, value_faults};
pub use wanted::{Wanted, wanted_at};
