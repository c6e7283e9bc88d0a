//! What is wrong in the configuration files of directories, of their ancestors and of the cargo home, as reports. It depends
//! on `cc2_findings` and the crates above it (what is wrong), and on `cc2_reports` (the positions of keys and values).
#![tactic(auto)]

mod accepted;
mod at_keys;
mod between_files;
mod files;
pub mod laws;
mod load;
mod messages;
mod paths;
mod permissions;
mod question;
mod rivals;
mod values;

pub use cc2_reports::{Counts, Format, LINTS, Level, Lint, Linted, is_lint};
pub use paths::all_reports;
pub use permissions::{HostPermissions, Permissions};
pub use question::Question;
