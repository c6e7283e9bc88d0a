//! What queries read from programs, through their interface alone: no file, variable or configuration is read here.
//!
//! - `rustc`, `commands`: the command for rustc, as Cargo would start it
//! - `version`, `host`, `release`: versions and the host, from what cargo and rustc print with `-vV`
//! - `cfg_set`, `cfg`, `key`, `asking`: what `rustc --print cfg` lists, and which keys of `[target]` it makes true
//! - `kept`, `kept_versions`, `by_target`, `cfg_sets`: what a configuration caches of all this
#![tactic(auto)]

mod ask;
pub mod asking;
mod by_target;
pub mod cfg;
pub mod cfg_set;
mod cfg_sets;
mod commands;
mod host;
mod kept;
mod kept_versions;
pub mod key;
mod line_ends;
mod lines;
mod lists;
mod output;
mod printed;
mod release;
mod rustc;
mod values;
mod version;

pub use asking::{Asking, asking_keys, asks, true_values};
pub use by_target::{has_kept, keep};
pub use cfg::{Cfg, CfgFault, cfg_answer};
pub use cfg_set::CfgSet;
pub use commands::Commands;
pub use host::{find_host, host_of_rustc};
pub use kept::Kept;
pub use kept_versions::{Asked, Versions};
pub use key::{read_key, value_by};
pub use lists::find_set;
pub use output::said;
pub use rustc::{Parts, beside_cargo, find_rustc};
pub use version::{CargoVersion, RustcVersion, find_cargo_version, find_rustc_version};
