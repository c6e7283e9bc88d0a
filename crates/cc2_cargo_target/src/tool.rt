//! The tools that get flags.
ghost use Rattle.std.specs.Prelude.{◌≡◌, map};
ghost use Rattle.cc2_cargo_target.specs.Flags.{build_variable, encoded_variable, flags_key, flags_suffix, keys_for, plain_variable};

/// A tool that gets flags.
#[derive(Clone, Copy, Debug, PartialEq, Eq)]
pub(crate) enum Tool {
    /// rustc.
    Rustc,
    /// rustdoc.
    Rustdoc,
}

impl Tool {
    /// The variable that overrides everything, with U+001F between flags.
    pub(crate) fn encoded_variable(self) -> &'static str
        ensures { result.now ≡ encoded_variable self }
    {
        match self {
            Tool::Rustc => "CARGO_ENCODED_RUSTFLAGS",
            Tool::Rustdoc => "CARGO_ENCODED_RUSTDOCFLAGS",
        }
    }

    /// The variable that overrides everything else, with spaces between flags.
    pub(crate) fn plain_variable(self) -> &'static str
        ensures { result.now ≡ plain_variable self }
    {
        match self {
            Tool::Rustc => "RUSTFLAGS",
            Tool::Rustdoc => "RUSTDOCFLAGS",
        }
    }

    /// The variable of the key in `[build]`.
    pub(crate) fn build_variable(self) -> &'static str
        ensures { result.now ≡ build_variable self }
    {
        match self {
            Tool::Rustc => "CARGO_BUILD_RUSTFLAGS",
            Tool::Rustdoc => "CARGO_BUILD_RUSTDOCFLAGS",
        }
    }

    /// The key in `[build]` and in the tables of `[target]`.
    pub(crate) fn flags_key(self) -> &'static str
        ensures { result.now ≡ flags_key self }
    {
        match self {
            Tool::Rustc => "rustflags",
            Tool::Rustdoc => "rustdocflags",
        }
    }

    /// What ends the name of a triple's variable.
    pub(crate) fn flags_suffix(self) -> &'static str
        ensures { result.now ≡ flags_suffix self }
    {
        match self {
            Tool::Rustc => "_RUSTFLAGS",
            Tool::Rustdoc => "_RUSTDOCFLAGS",
        }
    }

    /// Those of the keys that have flags for it.
    pub(crate) fn keys_for<'a, 'b>(self, keys: &'b [&'a str]) -> &'b [&'a str]
        ensures { map (λ k. k.now) result.now ≡ keys_for self (map (λ k. k.now) keys.now) }
    {
        match self {
            Tool::Rustc => keys,
            Tool::Rustdoc => &keys[..0],
        }
    }
}
