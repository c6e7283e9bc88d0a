//! What resolution looks at beside the files.
ghost use Rattle.std.specs.Prelude.{◌≡◌, IfOk, IfErr, option_map, string_bytes};
ghost use Rattle.cc2_error.specs.Causes.{refusal_of, plain, memory};
ghost use Rattle.cc2_env.specs.Options.{variables_of, IsSameContext};
ghost use Rattle.cc2_env.specs.Overrides.{is_either_set, is_overridden};

use crate::command_line::{Override, copied_overrides};
use crate::copies::{copied_command, copied_home, copied_text, copied_variables};
use crate::names::Names;
use cc2_error::error::Result;
use cc2_error::path_and_args::PathAndArgs;
use std::alloc::Global;
use std::collections::BTreeMap;
use std::fmt;

/// What resolution looks at beside the files: the directory, the variables that are kept (those whose
/// names begin with `CARGO` or `RUST`, and `BROWSER`), and what a caller chose. It is made by
/// `ResolveOptions::into_context`.
#[derive(Drop)]
pub struct ResolveContext {
    pub(crate) env: BTreeMap<String, Vec<u8>>,
    pub(crate) rustc: Option<PathAndArgs>,
    pub(crate) cargo: String,
    pub(crate) cargo_home: Option<Option<String>>,
    pub(crate) host_triple: Option<String>,
    pub(crate) current_dir: String,
    pub(crate) command_line: Vec<Override>,
}

/// Variables are shown by their names alone, and overrides without their texts: a value may be a token.
impl fmt::Debug for ResolveContext {
    fn fmt<W: fmt::Write>(&self, f: &mut fmt::Formatter<W>) -> fmt::Result {
        f.debug_struct("ResolveContext")
            .field("env", &Names { env: &self.env })
            .field("rustc", &self.rustc)
            .field("cargo", &self.cargo)
            .field("cargo_home", &self.cargo_home)
            .field("host_triple", &self.host_triple)
            .field("current_dir", &self.current_dir)
            .field("command_line", &self.command_line)
            .finish()
    }
}

impl ResolveContext {
    /// The same once more.
    ///
    /// # Errors
    /// `ErrorKind::Memory` where the copy finds no memory.
    pub fn try_clone(&self, alloc: Global) -> Result<ResolveContext>
        ensures ok { IfOk result (IsSameContext self.now) }
        ensures refused { IfErr result (λ e. refusal_of e ≡ plain memory) }
    {
        let rustc = copied_command(alloc, &self.rustc)?;
        let cargo = self.cargo.clone()?;
        let cargo_home = copied_home(&self.cargo_home)?;
        let host_triple = copied_text(&self.host_triple)?;
        let current_dir = self.current_dir.clone()?;
        let command_line = copied_overrides(alloc, self.command_line.as_slice())?;
        let env = copied_variables(&self.env)?;
        Ok(ResolveContext {
            env,
            rustc,
            cargo,
            cargo_home,
            host_triple,
            current_dir,
            command_line,
        })
    }

    /// The directory.
    pub fn current_dir(&self) -> &str
        ensures { result.now ≡ string_bytes self.now.current_dir }
    {
        self.current_dir.as_str()
    }

    /// The program of Cargo (Cargo Reference,
    /// [environment variables that Cargo sets for subcommands](https://doc.rust-lang.org/cargo/reference/environment-variables.html#environment-variables-cargo-sets-for-3rd-party-subcommands)).
    pub fn cargo(&self) -> &str
        ensures { result.now ≡ string_bytes self.now.cargo }
    {
        self.cargo.as_str()
    }

    /// The command for rustc, where one was chosen (Cargo Reference, Configuration,
    /// [`build.rustc`](https://doc.rust-lang.org/cargo/reference/config.html#buildrustc)).
    pub fn rustc(&self) -> Option<&PathAndArgs>
        ensures { option_map (λ rustc. rustc.now) result ≡ self.now.rustc }
    {
        self.rustc.as_ref()
    }

    /// The triple of the host, where one was chosen.
    pub fn host_triple(&self) -> Option<&str>
        ensures { option_map (λ triple. triple.now) result
            ≡ option_map string_bytes self.now.host_triple }
    {
        match &self.host_triple {
            Some(triple) => Some(triple.as_str()),
            None => None,
        }
    }

    /// Cargo's home, where that was chosen: a directory, or none (Cargo Book,
    /// [Cargo home](https://doc.rust-lang.org/cargo/guide/cargo-home.html)).
    pub fn cargo_home(&self) -> Option<Option<&str>>
        ensures { option_map (λ home. option_map (λ dir. dir.now) home) result
            ≡ option_map (λ home. option_map string_bytes home) self.now.cargo_home }
    {
        match &self.cargo_home {
            Some(Some(home)) => Some(Some(home.as_str())),
            Some(None) => Some(None),
            None => None,
        }
    }

    /// The value of a variable; none where it is not set, and for a name that isn't kept.
    pub fn env_value(&self, name: &str) -> Option<&[u8]>
        ensures { option_map (λ value. value.now) result ≡ variables_of self.now name.now }
    {
        match self.env.get(name) {
            Some(value) => Some(value.as_slice()),
            None => None,
        }
    }

    /// Whether variables override the flags of targets, and whether they override their doc flags:
    /// where the variable of encoded flags or the plain one is set (Cargo Reference, Configuration,
    /// [`build.rustflags`](https://doc.rust-lang.org/cargo/reference/config.html#buildrustflags)).
    pub fn overrides(&self) -> (bool, bool)
        ensures { result ≡ is_overridden (variables_of self.now) }
    {
        let flags = self.has_either("CARGO_ENCODED_RUSTFLAGS", "RUSTFLAGS");
        let doc_flags = self.has_either("CARGO_ENCODED_RUSTDOCFLAGS", "RUSTDOCFLAGS");
        (flags, doc_flags)
    }

    /// The variables that are kept, by name (Cargo Reference, Configuration,
    /// [environment variables](https://doc.rust-lang.org/cargo/reference/config.html#environment-variables)).
    pub fn variables(&self) -> &BTreeMap<String, Vec<u8>>
        ensures { result.now ≡ self.now.env }
    {
        &self.env
    }

    /// What the command line sets, in its order; the last overrides those before it (Cargo
    /// Reference, Configuration,
    /// [command-line overrides](https://doc.rust-lang.org/cargo/reference/config.html#command-line-overrides)).
    pub fn command_line(&self) -> &[Override]
        ensures { result.now ≡ self.now.command_line.items }
    {
        self.command_line.as_slice()
    }

    // Whether one of the two variables is set.
    fn has_either(&self, name: &str, other: &str) -> bool
        ensures { result ≡ is_either_set (variables_of self.now) name.now other.now }
    {
        self.env_value(name).is_some() || self.env_value(other).is_some()
    }
}
