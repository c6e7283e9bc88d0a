//! What is wrong with settings of files that can be read, found by comparing what they set.
//!
//! - `hidden_*`: keys of files that aren't used, since an environment variable sets their setting
//! - `rival*`, `rivals_each`: keys `cfg(..)` of `[target]` that both match a target and set the same value
//! - `unresolved*`: values that can't be resolved, since their file has no root to which they could be relative
//!
//! It depends on `cc2_findings` (the keys of a file) and on `cargo_config2` (how a configuration is loaded and resolved).
#![tactic(auto)]

mod givers;
mod held;
mod hidden_each;
mod hidden_keys;
mod hidden_settings;
mod rival;
mod rival_cfg_set;
mod rival_setting;
mod rivals_each;
mod setter;
mod unresolved;
mod unresolved_key;
mod unresolved_program;
mod unresolved_settings;
mod unresolved_tables;

pub use hidden_each::hidden_in_each;
pub use hidden_keys::HiddenKey;
pub use rival::Rival;
pub use rivals_each::rivals_in_each;
pub use unresolved_settings::unresolved_values;
