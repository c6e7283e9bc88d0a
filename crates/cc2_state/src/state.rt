//! What queries read of a load.
use cc2_target_table::TargetConfig;
use std::collections::BTreeMap;

/// What queries read of a load: the tables below `target`, and settings of the table `build`, resolved (Cargo Reference,
/// Configuration, [`[target]`](https://doc.rust-lang.org/cargo/reference/config.html#target),
/// [`[build]`](https://doc.rust-lang.org/cargo/reference/config.html#build)).
#[derive(Debug, Drop)]
pub struct State {
    /// Whether variables override the flags of targets.
    pub flags_overridden: bool,
    /// The same of the flags for rustdoc.
    pub doc_flags_overridden: bool,
    /// The setting `build.rustc`.
    pub rustc: Option<String>,
    /// The setting `build.rustc-wrapper`.
    pub rustc_wrapper: Option<String>,
    /// The setting `build.rustc-workspace-wrapper`.
    pub rustc_workspace_wrapper: Option<String>,
    /// The setting `build.rustflags`.
    pub rustflags: Option<Vec<String>>,
    /// The setting `build.rustdocflags`.
    pub rustdocflags: Option<Vec<String>>,
    /// The tables below `target`, by their keys; none of them holds a table.
    pub target: BTreeMap<String, TargetConfig>,
}

/// The same, lent.
#[derive(Clone, Copy, Debug)]
pub struct StateParts<'a> {
    /// Whether variables override the flags of targets.
    pub flags_overridden: bool,
    /// The same of the flags for rustdoc.
    pub doc_flags_overridden: bool,
    /// The setting `build.rustc`.
    pub rustc: Option<&'a str>,
    /// The setting `build.rustc-wrapper`.
    pub rustc_wrapper: Option<&'a str>,
    /// The setting `build.rustc-workspace-wrapper`.
    pub rustc_workspace_wrapper: Option<&'a str>,
    /// The setting `build.rustflags`.
    pub rustflags: Option<&'a [String]>,
    /// The setting `build.rustdocflags`.
    pub rustdocflags: Option<&'a [String]>,
    /// The tables below `target`, by their keys.
    pub target: &'a BTreeMap<String, TargetConfig>,
}
