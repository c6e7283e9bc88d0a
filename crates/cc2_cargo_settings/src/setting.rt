//! The settings that Cargo reads by a fixed name.
ghost use Rattle.std.specs.Prelude.{◌≡◌, map};
ghost use Rattle.cc2_cargo_settings.specs.Names.{key_variable};
ghost use Rattle.cc2_cargo_settings.specs.Settings.{row_of, rows};

use crate::check::{Check, Width};
use crate::mixed::Mixed;

/// What a setting is read as.
#[derive(Clone, Copy)]
pub(crate) enum Kind {
    /// A text.
    Text,
    /// A text of some.
    Checked(Check),
    /// A boolean.
    Flag,
    /// A whole number in a range.
    Number(Width),
    /// A list of words; files, the variable and the command line add to it.
    Words,
    /// A command.
    Command,
    /// A text, or a list of texts; Cargo takes a variable's `true`, `false` and whole numbers for no text.
    TextOrList,
    /// A text, or a list of words.
    TextOrWords,
    /// One of several types.
    Mixed(Mixed),
}

/// A setting that Cargo reads by a fixed name.
#[derive(Clone, Copy)]
pub(crate) struct Setting {
    /// The keys that lead to it.
    pub path: &'static [&'static str],
    /// What it is read as.
    pub kind: Kind,
    /// The name of its variable.
    pub variable: &'static str,
    /// A variable of its own, which precedes even the command line.
    pub own: Option<&'static str>,
}

/// The settings that Cargo reads by a fixed name (Cargo Reference, Configuration,
/// [configuration keys](https://doc.rust-lang.org/cargo/reference/config.html#configuration-keys), and
/// [environment variables Cargo reads](https://doc.rust-lang.org/cargo/reference/environment-variables.html)).
pub(crate) fn settings() -> &'static [Setting]
    ensures rows { map row_of result.now ≡ rows }
    ensures named { map (λ s. s.variable.now) result.now
        ≡ map (λ r. key_variable r.path) rows }
{
    SETTINGS
}

const SETTINGS: &[Setting] = &[
    Setting {
        path: &["build", "incremental"],
        kind: Kind::Flag,
        variable: "CARGO_BUILD_INCREMENTAL",
        own: Some("CARGO_INCREMENTAL"),
    },
    Setting {
        path: &["build", "rustc"],
        kind: Kind::Text,
        variable: "CARGO_BUILD_RUSTC",
        own: Some("RUSTC"),
    },
    Setting {
        path: &["build", "rustc-wrapper"],
        kind: Kind::Text,
        variable: "CARGO_BUILD_RUSTC_WRAPPER",
        own: Some("RUSTC_WRAPPER"),
    },
    Setting {
        path: &["build", "rustc-workspace-wrapper"],
        kind: Kind::Text,
        variable: "CARGO_BUILD_RUSTC_WORKSPACE_WRAPPER",
        own: Some("RUSTC_WORKSPACE_WRAPPER"),
    },
    Setting {
        path: &["build", "rustdoc"],
        kind: Kind::Text,
        variable: "CARGO_BUILD_RUSTDOC",
        own: Some("RUSTDOC"),
    },
    Setting {
        path: &["build", "target-dir"],
        kind: Kind::Checked(Check::Directory),
        variable: "CARGO_BUILD_TARGET_DIR",
        own: Some("CARGO_TARGET_DIR"),
    },
    Setting {
        path: &["build", "build-dir"],
        kind: Kind::Checked(Check::Directory),
        variable: "CARGO_BUILD_BUILD_DIR",
        own: None,
    },
    Setting {
        path: &["build", "dep-info-basedir"],
        kind: Kind::Text,
        variable: "CARGO_BUILD_DEP_INFO_BASEDIR",
        own: None,
    },
    Setting {
        path: &["build", "jobs"],
        kind: Kind::Mixed(Mixed::Jobs),
        variable: "CARGO_BUILD_JOBS",
        own: None,
    },
    Setting {
        path: &["build", "rustdocflags"],
        kind: Kind::Words,
        variable: "CARGO_BUILD_RUSTDOCFLAGS",
        own: None,
    },
    Setting {
        path: &["build", "rustflags"],
        kind: Kind::Words,
        variable: "CARGO_BUILD_RUSTFLAGS",
        own: None,
    },
    Setting {
        path: &["build", "target"],
        kind: Kind::TextOrList,
        variable: "CARGO_BUILD_TARGET",
        own: None,
    },
    Setting {
        path: &["cache", "auto-clean-frequency"],
        kind: Kind::Text,
        variable: "CARGO_CACHE_AUTO_CLEAN_FREQUENCY",
        own: None,
    },
    Setting {
        path: &["cargo-new", "vcs"],
        kind: Kind::Checked(Check::VersionControl),
        variable: "CARGO_CARGO_NEW_VCS",
        own: None,
    },
    Setting {
        path: &["doc", "browser"],
        kind: Kind::Command,
        variable: "CARGO_DOC_BROWSER",
        own: None,
    },
    Setting {
        path: &["future-incompat-report", "frequency"],
        kind: Kind::Text,
        variable: "CARGO_FUTURE_INCOMPAT_REPORT_FREQUENCY",
        own: None,
    },
    Setting {
        path: &["http", "cainfo"],
        kind: Kind::Text,
        variable: "CARGO_HTTP_CAINFO",
        own: None,
    },
    Setting {
        path: &["http", "check-revoke"],
        kind: Kind::Flag,
        variable: "CARGO_HTTP_CHECK_REVOKE",
        own: None,
    },
    Setting {
        path: &["http", "debug"],
        kind: Kind::Flag,
        variable: "CARGO_HTTP_DEBUG",
        own: None,
    },
    Setting {
        path: &["http", "low-speed-limit"],
        kind: Kind::Number(Width::Short),
        variable: "CARGO_HTTP_LOW_SPEED_LIMIT",
        own: None,
    },
    Setting {
        path: &["http", "multiplexing"],
        kind: Kind::Flag,
        variable: "CARGO_HTTP_MULTIPLEXING",
        own: None,
    },
    Setting {
        path: &["http", "proxy"],
        kind: Kind::Text,
        variable: "CARGO_HTTP_PROXY",
        own: None,
    },
    Setting {
        path: &["http", "proxy-cainfo"],
        kind: Kind::Text,
        variable: "CARGO_HTTP_PROXY_CAINFO",
        own: None,
    },
    Setting {
        path: &["http", "timeout"],
        kind: Kind::Number(Width::Long),
        variable: "CARGO_HTTP_TIMEOUT",
        own: None,
    },
    Setting {
        path: &["http", "user-agent"],
        kind: Kind::Text,
        variable: "CARGO_HTTP_USER_AGENT",
        own: None,
    },
    Setting {
        path: &["install", "root"],
        kind: Kind::Text,
        variable: "CARGO_INSTALL_ROOT",
        own: None,
    },
    Setting {
        path: &["net", "git-fetch-with-cli"],
        kind: Kind::Flag,
        variable: "CARGO_NET_GIT_FETCH_WITH_CLI",
        own: None,
    },
    Setting {
        path: &["net", "offline"],
        kind: Kind::Flag,
        variable: "CARGO_NET_OFFLINE",
        own: None,
    },
    Setting {
        path: &["net", "retry"],
        kind: Kind::Number(Width::Short),
        variable: "CARGO_NET_RETRY",
        own: None,
    },
    Setting {
        path: &["net", "ssh", "known-hosts"],
        kind: Kind::Words,
        variable: "CARGO_NET_SSH_KNOWN_HOSTS",
        own: None,
    },
    Setting {
        path: &["registry", "credential-provider"],
        kind: Kind::Command,
        variable: "CARGO_REGISTRY_CREDENTIAL_PROVIDER",
        own: None,
    },
    Setting {
        path: &["registry", "default"],
        kind: Kind::Text,
        variable: "CARGO_REGISTRY_DEFAULT",
        own: None,
    },
    Setting {
        path: &["registry", "global-credential-providers"],
        kind: Kind::Words,
        variable: "CARGO_REGISTRY_GLOBAL_CREDENTIAL_PROVIDERS",
        own: None,
    },
    Setting {
        path: &["registry", "secret-key"],
        kind: Kind::Text,
        variable: "CARGO_REGISTRY_SECRET_KEY",
        own: None,
    },
    Setting {
        path: &["registry", "secret-key-subject"],
        kind: Kind::Text,
        variable: "CARGO_REGISTRY_SECRET_KEY_SUBJECT",
        own: None,
    },
    Setting {
        path: &["registry", "token"],
        kind: Kind::Text,
        variable: "CARGO_REGISTRY_TOKEN",
        own: None,
    },
    Setting {
        path: &["resolver", "incompatible-rust-versions"],
        kind: Kind::Checked(Check::RustVersions),
        variable: "CARGO_RESOLVER_INCOMPATIBLE_RUST_VERSIONS",
        own: None,
    },
    Setting {
        path: &["term", "color"],
        kind: Kind::Checked(Check::Color),
        variable: "CARGO_TERM_COLOR",
        own: None,
    },
    Setting {
        path: &["term", "hyperlinks"],
        kind: Kind::Flag,
        variable: "CARGO_TERM_HYPERLINKS",
        own: None,
    },
    Setting {
        path: &["term", "quiet"],
        kind: Kind::Flag,
        variable: "CARGO_TERM_QUIET",
        own: None,
    },
    Setting {
        path: &["term", "unicode"],
        kind: Kind::Flag,
        variable: "CARGO_TERM_UNICODE",
        own: None,
    },
    Setting {
        path: &["term", "verbose"],
        kind: Kind::Flag,
        variable: "CARGO_TERM_VERBOSE",
        own: None,
    },
    Setting {
        path: &["term", "progress", "term-integration"],
        kind: Kind::Flag,
        variable: "CARGO_TERM_PROGRESS_TERM_INTEGRATION",
        own: None,
    },
    Setting {
        path: &["term", "progress", "when"],
        kind: Kind::Checked(Check::Progress),
        variable: "CARGO_TERM_PROGRESS_WHEN",
        own: None,
    },
    Setting {
        path: &["term", "progress", "width"],
        kind: Kind::Number(Width::Long),
        variable: "CARGO_TERM_PROGRESS_WIDTH",
        own: None,
    },
];
