//! The settings of a target that Cargo takes from one key alone.
ghost use Rattle.std.specs.Prelude.{◌≡◌};
ghost use Rattle.cc2_lint_settings.specs.Givers.{key_of, variable_end};

/// A setting of a target of which Cargo refuses two values at keys `cfg(..)` that hold (Cargo Reference, Configuration,
/// [`target.<cfg>.linker`](https://doc.rust-lang.org/cargo/reference/config.html#targetcfglinker)).
#[derive(Clone, Copy, Debug)]
pub(crate) enum Setting {
    /// The linker.
    Linker,
    /// The program that runs what is built.
    Runner,
}

impl Setting {
    /// Its key.
    pub(crate) fn key(self) -> &'static str
        ensures { result.now ≡ key_of self }
    {
        match self {
            Setting::Linker => "linker",
            Setting::Runner => "runner",
        }
    }

    /// The end of the variable that sets it for a triple.
    pub(crate) fn variable_end(self) -> &'static str
        ensures { result.now ≡ variable_end self }
    {
        match self {
            Setting::Linker => "_LINKER",
            Setting::Runner => "_RUNNER",
        }
    }
}
