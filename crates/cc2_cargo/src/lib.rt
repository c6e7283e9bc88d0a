//! Configurations as Cargo 1.95 itself reads them.
//!
//! `raw`: what files have at each key, whether Cargo knows the key or not, and how it merges (Cargo Reference,
//! [Configuration](https://doc.rust-lang.org/cargo/reference/config.html)).
//!
//! `include`: which files a file includes. `expand`: the files that it expands to with them. `layer`: files merged. `load`:
//! files loaded with those that they include. `home`: the cargo home, unless the walk has it by another path. `real_paths`: the
//! real paths by which it is known.
//!
//! `cfg_key`: whether a key of `[target]` matches. Cargo's grammar is that of the Cargo Reference,
//! [`[target]`](https://doc.rust-lang.org/cargo/reference/config.html#target), and of the Rust Reference,
//! [Conditional compilation](https://doc.rust-lang.org/reference/conditional-compilation.html).
//! It differs from that of `cc2_cfg`, which is the grammar of the crate `cargo-config2`: a key is
//! always `cfg(..)`, only spaces separate tokens, words may be raw, and commas are counted.
#![tactic(auto)]

mod cfg_key;
mod cfg_reader;
mod cfg_token;
mod dotted;
mod expand;
mod home;
mod include;
mod layer;
mod load;
mod marks;
mod overrides;
mod raw;
mod real_paths;

pub use crate::cfg_key::key_holds;
pub use crate::dotted::{OverrideFault, read_override};
pub use crate::expand::{ConfigFile, FileFault, expanded};
pub use crate::home::home_beside;
pub use crate::include::{Include, IncludeFault, includes};
pub use crate::layer::{Layer, LayerFault, LayerOrigin, merged};
pub use crate::load::{LoadFault, load_paths, load_with};
pub use crate::raw::{Raw, RawArray, is_of_override};
pub use crate::real_paths::{HostRealPaths, RealPathTable, RealPaths};
pub use cc2_cfg::Predicate;
