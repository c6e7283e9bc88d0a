//! What of a directory is compared.
ghost use Rattle.std.specs.Prelude.{◌≡◌};
ghost use Rattle.cc2_value.specs.Rows.{texts_of};
ghost use Rattle.cc2_compare.specs.Between.{part_keys};

/// What of a directory is compared.
#[derive(Clone, Copy, Debug)]
pub enum Part {
    /// Its configuration.
    Config,
    /// The settings of targets.
    Targets,
}

impl Part {
    /// The keys of all of it.
    pub(crate) fn keys(self) -> &'static [&'static str]
        ensures { texts_of result.now ≡ part_keys self }
    {
        match self {
            Part::Config => &[],
            Part::Targets => &["target"],
        }
    }

    /// What a message calls it.
    pub(crate) fn name(self) -> &'static str {
        match self {
            Part::Config => "this configuration",
            Part::Targets => "these targets",
        }
    }

    /// The verb of a message for what is there.
    pub(crate) fn verb(self) -> &'static str {
        match self {
            Part::Config => "has",
            Part::Targets => "resolves",
        }
    }

    /// That cargo-config2 0.1.45 alone accepts it.
    pub(crate) fn crate_accepts(self) -> &'static str {
        match self {
            Part::Config => "cargo-config2 0.1.45 accepts it",
            Part::Targets => "cargo-config2 0.1.45 accepts them",
        }
    }

    /// That Cargo alone accepts it.
    pub(crate) fn cargo_accepts(self) -> &'static str {
        match self {
            Part::Config => "Cargo loads it; a wrong type is an error where Cargo reads the key",
            Part::Targets => "Cargo accepts them",
        }
    }

    /// How the values of both are printed.
    pub(crate) fn help(self) -> &'static str {
        match self {
            Part::Config => {
                "`cargo config2 get` prints what Cargo has, and with `--rules crate` what cargo-config2 0.1.45 has"
            }
            Part::Targets => {
                "`cargo config2 target` prints what Cargo uses, and with `--rules crate` what cargo-config2 0.1.45 uses"
            }
        }
    }
}
