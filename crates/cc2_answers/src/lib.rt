//! Answers composed of a load before they are written: the table `build`, the command for rustc, the host and a target's
//! settings (`question`), and several questions that share one load (`several`). It depends on `cargo_config2`, and on
//! `cc2_cli` for how each is printed.
#![tactic(auto)]

mod answer;
mod build_lines;
mod cfg_lines;
mod chosen;
mod item;
mod item_build_lines;
mod let_go;
mod question;
mod several;
mod target;
pub mod target_lines;
mod version_lines;
mod words;

pub use chosen::{load_built, load_chosen, options_by};
pub use let_go::LetGo;
pub use question::answer_to;
pub use several::{items_answer, several_to};
pub use words::are_items_alone;
