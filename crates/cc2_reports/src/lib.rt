//! Problems of configuration files as they are reported: each with its lint and level, its file and its position.
//!
//! - `lint`, `level`, `grade`, `select`: which are reported, how many there are of each level, and the exit status
//! - `text`, `json`, `sarif`: how they are printed: as rustc prints its diagnostics, as JSON and as SARIF
//! - `locator` and its parts: for each key path of a TOML text a line and a column
//! - `key_path`: key paths, copied and as TOML writes them
//! - `visible`: text as a terminal gets it
//!
//! It knows no configuration.
#![tactic(auto)]

mod answer;
mod escapes;
mod format;
mod found;
mod grade;
mod json;
mod key_path;
mod key_text;
mod level;
mod lint;
mod location;
mod locator;
mod path;
mod position;
mod report;
mod sarif;
mod scanner;
mod select;
mod source;
mod text;
mod uri;
mod value;
mod visible;

pub use answer::{Linted, Printing, answer_for};
pub use format::{Format, printed};
pub use found::Place;
pub use grade::{Counts, counts_of, status_for};
pub use key_path::{copied, dotted};
pub use level::Level;
pub use lint::{LINTS, Lint, is_lint};
pub use location::{Location, Span};
pub use locator::Locator;
pub use position::{Part, placed};
pub use report::{Report, are_same_keys, sort};
pub use select::append_new;
pub use source::{Source, is_short};
pub use visible::{visible_line, visible_text};
