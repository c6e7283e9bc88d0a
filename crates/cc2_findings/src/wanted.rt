//! What values are taken at the keys that are read.
use crate::place::Place;

/// What a key takes (Cargo Reference, Configuration,
/// [configuration keys](https://doc.rust-lang.org/cargo/reference/config.html#configuration-keys)).
#[derive(Clone, Copy, Debug, PartialEq, Eq)]
pub enum Wanted {
    /// A whole number between these two.
    Integer(i64, i64),
    /// `true` or `false`.
    Boolean,
    /// A string.
    Text,
    /// One of these strings, which are listed as a sentence has them.
    Choice(&'static str),
    /// A string, or an array of strings.
    TextOrTexts,
    /// An array of strings.
    Texts,
    /// A string, or a table with `value`.
    Variable,
    /// A table.
    Table,
}

const FLAG: Wanted = Wanted::Boolean;

const INT32: Wanted = Wanted::Integer(-2147483648, 2147483647);

const UINT32: Wanted = Wanted::Integer(0, 4294967295);

/// What the last key of a path takes; none where this library doesn't read it, or reads it as a part of something
/// else.
pub fn wanted_at(path: &[String]) -> Option<Wanted> {
    let (key, parents) = path.split_last()?;
    let mut place = Place::Config;
    for parent in parents {
        place = place.below(parent.as_str(), true)?;
    }
    kind_wanted(place, key.as_str())
}

// What a key of a table at this place takes.
fn kind_wanted(place: Place, key: &str) -> Option<Wanted> {
    match place {
        Place::Config if place.below(key, true).is_some() => Some(Wanted::Table),
        Place::Registries | Place::Sources | Place::Targets => Some(Wanted::Table),
        Place::Aliases | Place::Commands => Some(Wanted::TextOrTexts),
        Place::Variables => Some(Wanted::Variable),
        Place::Build => build_wanted(key),
        Place::Http | Place::Net => network_wanted(key),
        Place::NamedRegistry | Place::Registry => registry_wanted(key),
        Place::Source => Some(Wanted::Text),
        Place::Target => target_wanted(key),
        Place::Term | Place::Progress => term_wanted(key),
        _ => other_wanted(key),
    }
}

// What a key of `build` takes.
fn build_wanted(key: &str) -> Option<Wanted> {
    match key {
        "jobs" => Some(INT32),
        "incremental" => Some(FLAG),
        "target" | "rustflags" | "rustdocflags" => Some(Wanted::TextOrTexts),
        _ => Some(Wanted::Text),
    }
}

// What a key of `http` or `net` takes.
fn network_wanted(key: &str) -> Option<Wanted> {
    match key {
        "timeout" | "low-speed-limit" | "retry" => Some(UINT32),
        "debug" | "check-revoke" | "multiplexing" | "git-fetch-with-cli" | "offline" => Some(FLAG),
        _ => Some(Wanted::Text),
    }
}

// What a key of `registry` or of a table below `registries` takes.
fn registry_wanted(key: &str) -> Option<Wanted> {
    match key {
        "credential-provider" => Some(Wanted::TextOrTexts),
        "global-credential-providers" => Some(Wanted::Texts),
        "protocol" => Some(Wanted::Choice("`git` or `sparse`")),
        _ => Some(Wanted::Text),
    }
}

// What a key of a table below `target` takes.
fn target_wanted(key: &str) -> Option<Wanted> {
    match key {
        "linker" => Some(Wanted::Text),
        "runner" | "rustflags" | "rustdocflags" => Some(Wanted::TextOrTexts),
        _ => None,
    }
}

// What a key of `term` or of `term.progress` takes.
fn term_wanted(key: &str) -> Option<Wanted> {
    match key {
        "quiet" | "verbose" => Some(FLAG),
        "color" | "when" => Some(Wanted::Choice("`auto`, `always` or `never`")),
        "progress" => Some(Wanted::Table),
        "width" => Some(UINT32),
        _ => None,
    }
}

// What a key of `cargo-new`, of `doc`, of a table below `env` or of `future-incompat-report` takes.
fn other_wanted(key: &str) -> Option<Wanted> {
    match key {
        "vcs" => Some(Wanted::Choice("`git`, `hg`, `pijul`, `fossil` or `none`")),
        "browser" => Some(Wanted::TextOrTexts),
        "value" => Some(Wanted::Text),
        "force" | "relative" => Some(FLAG),
        "frequency" => Some(Wanted::Choice("`always` or `never`")),
        _ => None,
    }
}
