//! Where a table of a file is, and the keys that are read there.
ghost use Rattle.std.specs.Prelude.{◌≡◌};
ghost use Rattle.cc2_value.specs.Rows.{texts_of};
ghost use Rattle.cc2_findings.specs.Places.{keys_at, cargo_keys_at, is_among, is_cargo_only, section, listed_place, other_place, below, opened, cargo_section, profile_table, cargo_below};

use cc2_leaf::Rows;
use cc2_tables::{
    BuildConfig, CargoNewConfig, DocConfig, FutureIncompatReportConfig, HttpConfig, NetConfig,
    RegistriesConfigValue, RegistryConfig, SourceConfigValue, TermConfig, TermProgress,
};

/// Where a table of a file is.
#[derive(Clone, Copy, Debug, PartialEq, Eq)]
pub enum Place {
    /// The top of the file.
    Config,
    /// `alias`, whose keys are names.
    Aliases,
    /// `build`.
    Build,
    /// `cargo-new`.
    CargoNew,
    /// `credential-alias`, whose keys are names.
    Commands,
    /// `doc`.
    Doc,
    /// `env`, whose keys are names.
    Variables,
    /// A table below `env`.
    Variable,
    /// `future-incompat-report`.
    Report,
    /// `http`.
    Http,
    /// `install`, which Cargo alone reads.
    Install,
    /// `net`.
    Net,
    /// A table `package` of a profile, whose keys are package specs.
    Packages,
    /// A profile, `build-override` of one, or a table below its `package`: Cargo reads the same keys in all of them.
    Profile,
    /// `profile`, whose keys are names. Cargo alone reads it.
    Profiles,
    /// `registries`, whose keys are names.
    Registries,
    /// A table below `registries`.
    NamedRegistry,
    /// `registry`.
    Registry,
    /// `resolver`, which Cargo alone reads.
    Resolver,
    /// `source`, whose keys are names.
    Sources,
    /// A table below `source`.
    Source,
    /// `target`, whose keys are triples and cfg expressions.
    Targets,
    /// A table below `target`.
    Target,
    /// `term`.
    Term,
    /// `term.progress`.
    Progress,
    /// A value in which no key is looked at.
    Whole,
}

impl Place {
    /// The keys of the fields of a table there; none where keys are names (Cargo Reference,
    /// Configuration,
    /// [configuration keys](https://doc.rust-lang.org/cargo/reference/config.html#configuration-keys)).
    pub fn keys(self) -> &'static [&'static str]
        ensures { texts_of result.now ≡ keys_at self }
    {
        match self {
            Place::Config => &[
                "alias",
                "build",
                "credential-alias",
                "doc",
                "env",
                "future-incompat-report",
                "cargo-new",
                "http",
                "net",
                "registries",
                "registry",
                "source",
                "target",
                "term",
            ],
            Place::Build => BuildConfig::keys(),
            Place::CargoNew => CargoNewConfig::keys(),
            Place::Doc => DocConfig::keys(),
            Place::Variable => &["value", "force", "relative"],
            Place::Report => FutureIncompatReportConfig::keys(),
            Place::Http => HttpConfig::keys(),
            Place::Net => NetConfig::keys(),
            Place::NamedRegistry => RegistriesConfigValue::keys(),
            Place::Registry => RegistryConfig::keys(),
            Place::Source => SourceConfigValue::keys(),
            Place::Target => &["linker", "runner", "rustflags", "rustdocflags"],
            Place::Term => TermConfig::keys(),
            Place::Progress => TermProgress::keys(),
            _ => &[],
        }
    }

    /// The keys that Cargo 1.95 reads there and this library doesn't (Cargo Reference,
    /// [Configuration](https://doc.rust-lang.org/cargo/reference/config.html), and
    /// [Unstable Features](https://doc.rust-lang.org/cargo/reference/unstable.html)).
    pub fn cargo_keys(self) -> &'static [&'static str]
        ensures { texts_of result.now ≡ cargo_keys_at self }
    {
        match self {
            Place::Config => &[
                "cache",
                "host",
                "include",
                "install",
                "patch",
                "path-bases",
                "paths",
                "profile",
                "resolver",
                "target-applies-to-host",
                "unstable",
            ],
            Place::Build => &["analysis", "artifact-dir", "pipelining", "sbom", "warnings"],
            Place::CargoNew => &["email", "name"],
            Place::Doc => &["extern-map"],
            Place::Http => &["proxy-cainfo", "ssl-version"],
            Place::Install => &["root"],
            Place::Net => &["ssh"],
            Place::Profile => &[
                "build-override",
                "codegen-backend",
                "codegen-units",
                "debug",
                "debug-assertions",
                "dir-name",
                "hint-mostly-unused",
                "incremental",
                "inherits",
                "lto",
                "opt-level",
                "overflow-checks",
                "package",
                "panic",
                "rpath",
                "rustflags",
                "split-debuginfo",
                "strip",
                "trim-paths",
            ],
            Place::NamedRegistry => &["secret-key", "secret-key-subject"],
            Place::Registry => &["secret-key", "secret-key-subject"],
            Place::Resolver => &[
                "feature-unification",
                "incompatible-rust-versions",
                "lockfile-path",
            ],
            Place::Target => &["ar"],
            Place::Term => &["hyperlinks", "unicode"],
            Place::Progress => &["term-integration"],
            _ => &[],
        }
    }

    /// Whether Cargo alone reads the table, and its keys are known.
    pub fn is_cargo_only(self) -> bool
        ensures { result ≡ is_cargo_only self }
    {
        matches!(
            self,
            Place::Install | Place::Packages | Place::Profile | Place::Profiles | Place::Resolver
        )
    }

    /// The place of the value at a key of a table there; none where this library doesn't read the
    /// key. See the Cargo Reference, Configuration,
    /// [configuration keys](https://doc.rust-lang.org/cargo/reference/config.html#configuration-keys).
    pub fn below(self, key: &str, is_table: bool) -> Option<Place>
        ensures { result ≡ below self key.now is_table }
    {
        if is_among(self.keys(), key) {
            Some(self.listed(key))
        } else {
            self.other(is_table)
        }
    }

    /// The place of the value at a key of a table there, where this library reads the key, or where Cargo alone reads
    /// it and the keys below it are known.
    pub fn opened(self, key: &str, is_table: bool) -> Option<Place>
        ensures { result ≡ opened self key.now is_table }
    {
        match self.below(key, is_table) {
            Some(place) => Some(place),
            None => self.cargo_below(key),
        }
    }

    /// The same of a key that Cargo alone reads.
    pub fn cargo_below(self, key: &str) -> Option<Place>
        ensures { result ≡ cargo_below self key.now }
    {
        match self {
            Place::Config => cargo_section(key),
            Place::Packages | Place::Profiles => Some(Place::Profile),
            Place::Profile => profile_table(key),
            _ => None,
        }
    }

    // The place of the value at the key of a field.
    fn listed(self, key: &str) -> Place
        ensures { result ≡ listed_place self key.now }
    {
        match self {
            Place::Config => section(key),
            Place::Term => setting(key),
            _ => Place::Whole,
        }
    }

    // The place of the value at another key: a name, or below a target a table of a native library.
    fn other(self, is_table: bool) -> Option<Place>
        ensures { result ≡ other_place self is_table }
    {
        match self {
            Place::Aliases | Place::Commands | Place::Whole => Some(Place::Whole),
            Place::Variables => Some(Place::Variable),
            Place::Registries => Some(Place::NamedRegistry),
            Place::Sources => Some(Place::Source),
            Place::Targets => Some(Place::Target),
            Place::Target if is_table => Some(Place::Whole),
            _ => None,
        }
    }
}

/// Whether the key is one of these.
pub fn is_among(keys: &[&str], key: &str) -> bool
    ensures { result ≡ is_among (texts_of keys.now) key.now }
{
    keys.contains(&key)
}

// The place of a table of the configuration.
fn section(key: &str) -> Place
    ensures { result ≡ section key.now }
{
    match key {
        "alias" => Place::Aliases,
        "build" => Place::Build,
        "cargo-new" => Place::CargoNew,
        "credential-alias" => Place::Commands,
        "doc" => Place::Doc,
        "env" => Place::Variables,
        "future-incompat-report" => Place::Report,
        "http" => Place::Http,
        "net" => Place::Net,
        "registries" => Place::Registries,
        "registry" => Place::Registry,
        "source" => Place::Sources,
        "target" => Place::Targets,
        "term" => Place::Term,
        _ => Place::Whole,
    }
}

// The place of a table of the configuration that Cargo alone reads.
fn cargo_section(key: &str) -> Option<Place>
    ensures { result ≡ cargo_section key.now }
{
    match key {
        "install" => Some(Place::Install),
        "profile" => Some(Place::Profiles),
        "resolver" => Some(Place::Resolver),
        _ => None,
    }
}

// The place of a table of a profile.
fn profile_table(key: &str) -> Option<Place>
    ensures { result ≡ profile_table key.now }
{
    match key {
        "build-override" => Some(Place::Profile),
        "package" => Some(Place::Packages),
        _ => None,
    }
}

// The place of the value at a key of `term`.
fn setting(key: &str) -> Place
    ensures { result ≡ listed_place Place.Term key.now }
{
    match key {
        "progress" => Place::Progress,
        _ => Place::Whole,
    }
}
