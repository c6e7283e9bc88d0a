//! What is wrong at a key of a file.
ghost use Rattle.std.specs.Prelude.{◌≡◌, option_map};
ghost use Rattle.toml.specs.View.{view, items_view, table_view};
ghost use Rattle.cc2_findings.specs.Kinds.{kind_at, cargo_kind, unread_kind, is_removed, is_text_include, known_kind, build_kind, source_kind, target_kind};
ghost use Rattle.cc2_findings.specs.Kinds.{is_command, is_quoted_triple, is_zero, lacks_location, has_locations, are_locations, has_directory, has_member};
ghost use Rattle.cc2_findings.specs.Kinds.{is_empty_text, is_bad_template, names_target_file, holds_target_file, has_target_file, is_target_file, ends_in_json, is_quiet_and_verbose, is_true, table_has, has_other_space};

use crate::at_key::member;
use crate::finding::Look;
use crate::place::{Place, is_among};
use crate::template::has_stray_brace;

/// What is wrong at a key of a file (Cargo Reference, Configuration,
/// [configuration keys](https://doc.rust-lang.org/cargo/reference/config.html#configuration-keys)).
#[derive(Clone, Copy, Debug, PartialEq, Eq)]
pub enum Kind {
    /// Nothing reads the key.
    UnknownKey,
    /// Cargo reads the key, and this library doesn't.
    CargoOnly,
    /// An alias has the name of a command of Cargo, which is run in its place.
    HiddenAlias,
    /// `build.jobs` is 0, which Cargo refuses.
    ZeroJobs,
    /// A source says neither a registry, nor a directory, nor a repository, which Cargo refuses.
    NoLocation,
    /// A source says more than one of them, which Cargo refuses.
    ManyLocations,
    /// The file has a token.
    Token,
    /// A key of `[target]` is a triple with dots, in quotes. Cargo passes over it, as it takes the dots apart.
    QuotedTriple,
    /// Cargo doesn't support the key any more, and refuses it.
    RemovedKey,
    /// `include` is a string, which Cargo refuses: it takes an array.
    TextInclude,
    /// `build.target-dir` or `build.build-dir` is empty, which Cargo refuses.
    EmptyDirectory,
    /// `build.build-dir` has a brace outside of Cargo's variables, which Cargo refuses.
    BadTemplate,
    /// A wrapper is empty, which Cargo takes for none.
    EmptyWrapper,
    /// `build.target` is the path of a target's file, or an array with one, which stable Cargo refuses.
    JsonTarget,
    /// Both `term.quiet` and `term.verbose` are true, which Cargo refuses.
    QuietAndVerbose,
    /// A table at a key `cfg(..)` has `rustdocflags`, which Cargo passes over.
    IgnoredDocFlags,
    /// A key `cfg(..)` has white space other than spaces, so that Cargo passes over its table.
    OtherSpace,
}

impl Look for Kind {
    ghost look = { kind_at };

    fn look(place: Place, key: &str, value: &toml::Value) -> Option<Kind> {
        kind_at(place, key, value)
    }
}

/// What is wrong at a key of a table at this place, if anything is (Cargo Reference,
/// Configuration,
/// [configuration keys](https://doc.rust-lang.org/cargo/reference/config.html#configuration-keys)).
pub fn kind_at(place: Place, key: &str, value: &toml::Value) -> Option<Kind>
    ensures { result ≡ kind_at place key.now (view value.now) }
{
    if place.is_cargo_only() {
        return cargo_kind(place, key);
    }
    if place.below(key, value.is_table()).is_none() {
        return Some(unread_kind(place, key, value));
    }
    known_kind(place, key, value)
}

// What is wrong at a key of a table that Cargo alone reads.
fn cargo_kind(place: Place, key: &str) -> Option<Kind>
    ensures { result ≡ cargo_kind place key.now }
{
    if place.cargo_below(key).is_some() || is_among(place.cargo_keys(), key) {
        None
    } else {
        Some(Kind::UnknownKey)
    }
}

// The kind of a key that this library doesn't read.
fn unread_kind(place: Place, key: &str, value: &toml::Value) -> Kind
    ensures { result ≡ unread_kind place key.now (view value.now) }
{
    if is_removed(place, key) {
        Kind::RemovedKey
    } else if is_text_include(place, key, value) {
        Kind::TextInclude
    } else if is_among(place.cargo_keys(), key) {
        Kind::CargoOnly
    } else {
        Kind::UnknownKey
    }
}

// Whether Cargo 1.95 refuses the key.
fn is_removed(place: Place, key: &str) -> bool
    ensures { result ≡ is_removed place key.now }
{
    match place {
        Place::Registry => key == "index",
        _ => false,
    }
}

// Whether it is an include that is a string.
fn is_text_include(place: Place, key: &str, value: &toml::Value) -> bool
    ensures { result ≡ is_text_include place key.now (view value.now) }
{
    match place {
        Place::Config => key == "include" && value.is_str(),
        _ => false,
    }
}

// What is wrong at a key that it reads.
fn known_kind(place: Place, key: &str, value: &toml::Value) -> Option<Kind>
    ensures { result ≡ known_kind place key.now (view value.now) }
{
    match place {
        Place::Config if key == "term" && is_quiet_and_verbose(value) => Some(
            Kind::QuietAndVerbose,
        ),
        Place::Aliases if is_command(key) => Some(Kind::HiddenAlias),
        Place::Build => build_kind(key, value),
        Place::NamedRegistry | Place::Registry if key == "token" => Some(Kind::Token),
        Place::Sources => source_kind(key, value),
        Place::Targets => target_kind(key, value),
        _ => None,
    }
}

// What is wrong at a key of `build`.
fn build_kind(key: &str, value: &toml::Value) -> Option<Kind>
    ensures { result ≡ build_kind key.now (view value.now) }
{
    match key {
        "jobs" if is_zero(value) => Some(Kind::ZeroJobs),
        "target-dir" | "build-dir" if is_empty_text(value) => Some(Kind::EmptyDirectory),
        "build-dir" if is_bad_template(value) => Some(Kind::BadTemplate),
        "rustc-wrapper" | "rustc-workspace-wrapper" if is_empty_text(value) => {
            Some(Kind::EmptyWrapper)
        }
        "target" if names_target_file(value) => Some(Kind::JsonTarget),
        _ => None,
    }
}

// What is wrong at a source.
fn source_kind(key: &str, value: &toml::Value) -> Option<Kind>
    ensures { result ≡ source_kind key.now (view value.now) }
{
    if key != "crates-io" && lacks_location(value) {
        Some(Kind::NoLocation)
    } else if has_locations(value) {
        Some(Kind::ManyLocations)
    } else {
        None
    }
}

// What is wrong at a key of `target`.
fn target_kind(key: &str, value: &toml::Value) -> Option<Kind>
    ensures { result ≡ target_kind key.now (view value.now) }
{
    if is_quoted_triple(key) {
        Some(Kind::QuotedTriple)
    } else if key.starts_with("cfg(") && has_other_space(key) {
        Some(Kind::OtherSpace)
    } else if key.starts_with("cfg(") && table_has(value, "rustdocflags") {
        Some(Kind::IgnoredDocFlags)
    } else {
        None
    }
}

// The commands of Cargo 1.95, as `cargo --list` has them, without aliases and without what else is installed.
const COMMANDS: &[&str] = &[
    "add",
    "bench",
    "build",
    "check",
    "clean",
    "config",
    "doc",
    "fetch",
    "fix",
    "generate-lockfile",
    "git-checkout",
    "help",
    "info",
    "init",
    "install",
    "locate-project",
    "login",
    "logout",
    "metadata",
    "new",
    "owner",
    "package",
    "pkgid",
    "publish",
    "read-manifest",
    "remove",
    "report",
    "run",
    "rustc",
    "rustdoc",
    "search",
    "test",
    "tree",
    "uninstall",
    "update",
    "vendor",
    "verify-project",
    "version",
    "yank",
];

// Whether Cargo has a command of the name.
fn is_command(name: &str) -> bool
    ensures { result ≡ is_command name.now }
{
    is_among(COMMANDS, name)
}

fn is_zero(value: &toml::Value) -> bool
    ensures { result ≡ is_zero (view value.now) }
{
    value.as_integer() == Some(0)
}

// Whether it is a table that says nowhere to look.
fn lacks_location(value: &toml::Value) -> bool
    ensures { result ≡ lacks_location (view value.now) }
{
    match value.as_table() {
        None => false,
        Some(table) => !(has_key(table, "registry")
            || has_directory(table)
            || has_key(table, "git")),
    }
}

// Whether it is a table that says in two ways where to look.
fn has_locations(value: &toml::Value) -> bool
    ensures { result ≡ has_locations (view value.now) }
{
    match value.as_table() {
        None => false,
        Some(table) => are_locations(table),
    }
}

// Whether the table says in two ways where to look.
fn are_locations(table: &toml::Table) -> bool
    ensures { result ≡ are_locations (table_view table.now) }
{
    let has_registry = has_key(table, "registry");
    let has_git = has_key(table, "git");
    let has_local = has_key(table, "local-registry");
    let has_folder = has_key(table, "directory");
    (has_registry && (has_git || has_local || has_folder))
        || (has_git && (has_local || has_folder))
        || (has_local && has_folder)
}

// Whether the table says a folder to look in.
fn has_directory(table: &toml::Table) -> bool
    ensures { result ≡ has_directory (table_view table.now) }
{
    has_key(table, "local-registry") || has_key(table, "directory")
}

// Whether it is a text without characters.
fn is_empty_text(value: &toml::Value) -> bool
    ensures { result ≡ is_empty_text (view value.now) }
{
    match value.as_str() {
        Some(text) => text.is_empty(),
        None => false,
    }
}

// Whether it is a text with a brace outside of Cargo's variables.
fn is_bad_template(value: &toml::Value) -> bool
    ensures { result ≡ is_bad_template (view value.now) }
{
    match value.as_str() {
        Some(text) => has_stray_brace(text),
        None => false,
    }
}

// Whether it is the name of a target's file, or an array with one.
fn names_target_file(value: &toml::Value) -> bool
    ensures { result ≡ names_target_file (view value.now) }
{
    is_target_file(value) || holds_target_file(value)
}

// Whether it is an array with the name of a target's file.
fn holds_target_file(value: &toml::Value) -> bool
    ensures { result ≡ holds_target_file (view value.now) }
{
    match value.as_array() {
        Some(items) => has_target_file(items.as_slice()),
        None => false,
    }
}

// Whether one of these is the name of a target's file.
fn has_target_file(items: &[toml::Value]) -> bool
    ensures { result ≡ has_target_file (items_view items.now) }
{
    for item in items {
        if is_target_file(item) {
            return true;
        }
    }
    false
}

// Whether it is the name of a target's file.
fn is_target_file(value: &toml::Value) -> bool
    ensures { result ≡ is_target_file (view value.now) }
{
    match value.as_str() {
        Some(text) => ends_in_json(text),
        None => false,
    }
}

fn ends_in_json(text: &str) -> bool
    ensures { result ≡ ends_in_json text.now }
{
    text.ends_with(".json")
}

// Whether it is a table in which `quiet` and `verbose` are true.
fn is_quiet_and_verbose(value: &toml::Value) -> bool
    ensures { result ≡ is_quiet_and_verbose (view value.now) }
{
    match value.as_table() {
        Some(table) => is_true(member(table, "quiet")) && is_true(member(table, "verbose")),
        None => false,
    }
}

// Whether the value is there and true.
fn is_true(value: Option<&toml::Value>) -> bool
    ensures { result ≡ is_true (option_map (λ v. view v.now) value.entry) }
{
    match value {
        Some(value) => value.as_bool() == Some(true),
        None => false,
    }
}

// Whether it is a table with this key.
fn table_has(value: &toml::Value, key: &str) -> bool
    ensures { result ≡ table_has (view value.now) key.now }
{
    match value.as_table() {
        Some(table) => has_key(table, key),
        None => false,
    }
}

// Whether a key of `[target]` is a triple with dots: TOML has them in one key only between quotes.
fn is_quoted_triple(key: &str) -> bool
    ensures { result ≡ is_quoted_triple key.now }
{
    key.as_bytes().contains(&b'.') && !key.starts_with("cfg(")
}

// Whether a key without quotes has white space other than spaces.
fn has_other_space(key: &str) -> bool
    ensures { result ≡ has_other_space key.now }
{
    let bytes = key.as_bytes();
    (bytes.contains(&b'\t') || bytes.contains(&b'\n') || bytes.contains(&b'\r'))
        && !bytes.contains(&b'"')
}

fn has_key(table: &toml::Table, key: &str) -> bool
    ensures { result ≡ has_member key.now (table_view table.now) }
{
    member(table, key).is_some()
}
