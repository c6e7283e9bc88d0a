//! The tables whose keys are names that users choose, as those of aliases and registries.
ghost use Rattle.std.specs.Prelude.{◌≡◌, All, map};
ghost use Rattle.cc2_cargo_settings.specs.Named.{HasFront, named_table_view, tables};

use crate::check::{Check, Width};
use crate::mixed::Mixed;
use crate::setting::Kind;

/// What is read below a name.
#[derive(Clone, Copy)]
pub(crate) struct Below {
    /// At which key; none for the name itself.
    pub key: Option<&'static str>,
    /// As what it is read.
    pub kind: Kind,
}

/// A table of names.
#[derive(Clone, Copy)]
pub(crate) struct NamedTable {
    /// Its key.
    pub table: &'static str,
    /// What the names of variables below it begin with.
    pub front: &'static str,
    /// The names that there always are.
    pub always: &'static [&'static str],
    /// What is read below each name.
    pub below: &'static [Below],
}

/// The tables of names (Cargo Reference, Configuration,
/// [configuration keys](https://doc.rust-lang.org/cargo/reference/config.html#configuration-keys)).
pub(crate) fn tables() -> &'static [NamedTable]
    ensures tables { map named_table_view result.now ≡ tables }
    ensures fronts { All HasFront result.now }
{
    TABLES
}

// What a profile has (Cargo Reference, Configuration,
// [`[profile]`](https://doc.rust-lang.org/cargo/reference/config.html#profile)).
const PROFILE: &[Below] = &[
    Below {
        key: Some("codegen-units"),
        kind: Kind::Number(Width::Short),
    },
    Below {
        key: Some("debug"),
        kind: Kind::Mixed(Mixed::Debug),
    },
    Below {
        key: Some("debug-assertions"),
        kind: Kind::Flag,
    },
    Below {
        key: Some("incremental"),
        kind: Kind::Flag,
    },
    Below {
        key: Some("inherits"),
        kind: Kind::Text,
    },
    Below {
        key: Some("lto"),
        kind: Kind::Mixed(Mixed::Lto),
    },
    Below {
        key: Some("opt-level"),
        kind: Kind::Mixed(Mixed::OptLevel),
    },
    Below {
        key: Some("overflow-checks"),
        kind: Kind::Flag,
    },
    Below {
        key: Some("panic"),
        kind: Kind::Checked(Check::Panic),
    },
    Below {
        key: Some("rpath"),
        kind: Kind::Flag,
    },
    Below {
        key: Some("split-debuginfo"),
        kind: Kind::Text,
    },
    Below {
        key: Some("strip"),
        kind: Kind::Mixed(Mixed::Strip),
    },
];

const TABLES: &[NamedTable] = &[
    NamedTable {
        table: "alias",
        front: "CARGO_ALIAS_",
        always: &[],
        below: &[Below {
            key: None,
            kind: Kind::TextOrWords,
        }],
    },
    NamedTable {
        table: "credential-alias",
        front: "CARGO_CREDENTIAL_ALIAS_",
        always: &[],
        below: &[Below {
            key: None,
            kind: Kind::Command,
        }],
    },
    NamedTable {
        table: "profile",
        front: "CARGO_PROFILE_",
        always: &["bench", "dev", "release", "test"],
        below: PROFILE,
    },
    NamedTable {
        table: "registries",
        front: "CARGO_REGISTRIES_",
        always: &[],
        below: &[
            Below {
                key: Some("credential-provider"),
                kind: Kind::Command,
            },
            Below {
                key: Some("index"),
                kind: Kind::Text,
            },
            Below {
                key: Some("protocol"),
                kind: Kind::Text,
            },
            Below {
                key: Some("secret-key"),
                kind: Kind::Text,
            },
            Below {
                key: Some("secret-key-subject"),
                kind: Kind::Text,
            },
            Below {
                key: Some("token"),
                kind: Kind::Text,
            },
        ],
    },
    NamedTable {
        table: "target",
        front: "CARGO_TARGET_",
        always: &[],
        below: &[
            Below {
                key: Some("linker"),
                kind: Kind::Text,
            },
            Below {
                key: Some("runner"),
                kind: Kind::Command,
            },
            Below {
                key: Some("rustdocflags"),
                kind: Kind::Words,
            },
            Below {
                key: Some("rustflags"),
                kind: Kind::Words,
            },
        ],
    },
];
