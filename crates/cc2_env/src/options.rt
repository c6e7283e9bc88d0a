//! What a caller chooses in place of the machine's.
ghost use Rattle.std.specs.Prelude.{◌≡◌, Some, None, IfOk, IfErr, string_bytes, ℕ, List, [], ◌∷◌, ◌++◌, codes, String, Vec};
ghost use Rattle.std.specs.declared.alloc.Global.{Global};
ghost use Rattle.cc2_error.specs.Causes.{refusal_of, plain, memory};
ghost use Rattle.cc2_error.specs.Outcomes.{IsRefusal, Gives};
ghost use Rattle.cc2_env.specs.CommandLine.{from_text, from_file, override_of};
ghost use Rattle.cc2_env.specs.Kept.{variables_in, AgreeOnKept};
ghost use Rattle.cc2_env.specs.Options.{chosen_cargo, chosen_overrides, cargo_of, IsContext, IsKeptOf, IsSameOptions};

use crate::command_line::{Override, copied_choice, with_last};
use crate::context::ResolveContext;
use crate::copies::{copied_command, copied_env, copied_home, copied_text};
use crate::kept::{kept, kept_copies};
use crate::names::Names;
use cc2_base::machine::Machine;
use cc2_base::variable::env_text;
use cc2_error::error::Result;
use cc2_error::path_and_args::PathAndArgs;
use std::alloc::Global;
use std::collections::BTreeMap;
use std::fmt;

/// What a caller chooses in place of what the machine has. Nothing is chosen by default.
#[derive(Default, Drop)]
pub struct ResolveOptions {
    pub(crate) env: Option<BTreeMap<String, Vec<u8>>>,
    pub(crate) rustc: Option<PathAndArgs>,
    pub(crate) cargo: Option<String>,
    pub(crate) cargo_home: Option<Option<String>>,
    pub(crate) host_triple: Option<String>,
    pub(crate) command_line: Option<Vec<Override>>,
}

/// Variables are shown by their names alone, and overrides without their texts: a value may be a token.
impl fmt::Debug for ResolveOptions {
    fn fmt<W: fmt::Write>(&self, f: &mut fmt::Formatter<W>) -> fmt::Result {
        f.debug_struct("ResolveOptions")
            .field("env", &names_in(&self.env))
            .field("rustc", &self.rustc)
            .field("cargo", &self.cargo)
            .field("cargo_home", &self.cargo_home)
            .field("host_triple", &self.host_triple)
            .field("command_line", &self.command_line)
            .finish()
    }
}

fn names_in(env: &Option<BTreeMap<String, Vec<u8>>>) -> Option<Names<'_>> {
    match env {
        Some(env) => Some(Names { env }),
        None => None,
    }
}

impl ResolveOptions {
    /// The same once more.
    ///
    /// # Errors
    /// `ErrorKind::Memory` where the copy finds no memory.
    pub fn try_clone(&self, alloc: Global) -> Result<ResolveOptions>
        ensures ok { IfOk result (IsSameOptions self.now) }
        ensures refused { IfErr result (λ e. refusal_of e ≡ plain memory) }
    {
        let rustc = copied_command(alloc, &self.rustc)?;
        let cargo = copied_text(&self.cargo)?;
        let cargo_home = copied_home(&self.cargo_home)?;
        let host_triple = copied_text(&self.host_triple)?;
        let command_line = copied_choice(alloc, &self.command_line)?;
        let env = copied_env(&self.env)?;
        Ok(ResolveOptions {
            env,
            rustc,
            cargo,
            cargo_home,
            host_triple,
            command_line,
        })
    }

    /// With this command for rustc, wrappers and all: `build.rustc` and the wrappers then say nothing,
    /// and versions and cfg lists are asked of it. See the Cargo Reference, Configuration,
    /// [`build.rustc`](https://doc.rust-lang.org/cargo/reference/config.html#buildrustc),
    /// [`build.rustc-wrapper`](https://doc.rust-lang.org/cargo/reference/config.html#buildrustc-wrapper)
    /// and
    /// [`build.rustc-workspace-wrapper`](https://doc.rust-lang.org/cargo/reference/config.html#buildrustc-workspace-wrapper).
    pub fn rustc(self, rustc: PathAndArgs) -> ResolveOptions
        ensures { result ≡ record self { rustc = Some rustc } }
    {
        ResolveOptions {
            rustc: Some(rustc),
            ..self
        }
    }

    /// With this program for Cargo, in place of the variable `CARGO` (Cargo Reference,
    /// [environment variables that Cargo sets for subcommands](https://doc.rust-lang.org/cargo/reference/environment-variables.html#environment-variables-cargo-sets-for-3rd-party-subcommands)).
    pub fn cargo(self, cargo: String) -> ResolveOptions
        ensures { result ≡ record self { cargo = Some cargo } }
    {
        ResolveOptions {
            cargo: Some(cargo),
            ..self
        }
    }

    /// With this directory for Cargo's home, in place of `CARGO_HOME` and of `.cargo` in the user's
    /// home; `None` for no home. See the Cargo Book,
    /// [Cargo home](https://doc.rust-lang.org/cargo/guide/cargo-home.html).
    pub fn cargo_home(self, cargo_home: Option<String>) -> ResolveOptions
        ensures { result ≡ record self { cargo_home = Some cargo_home } }
    {
        ResolveOptions {
            cargo_home: Some(cargo_home),
            ..self
        }
    }

    /// With this triple for the host; then no program is asked for it.
    pub fn host_triple(self, host_triple: String) -> ResolveOptions
        ensures { result ≡ record self { host_triple = Some host_triple } }
    {
        ResolveOptions {
            host_triple: Some(host_triple),
            ..self
        }
    }

    /// With these variables in place of the machine's, each a name and the bytes of its value
    /// (Cargo Reference, Configuration,
    /// [environment variables](https://doc.rust-lang.org/cargo/reference/config.html#environment-variables)).
    /// Those are kept whose names begin with `CARGO` or `RUST`, and `BROWSER`; of a name that
    /// occurs twice the last value. They don't say where Cargo's home is: that is chosen by
    /// `cargo_home`, else the machine's.
    ///
    /// # Errors
    /// `ErrorKind::Memory` where memory ran out.
    pub fn env(self, alloc: Global, env: Vec<(String, Vec<u8>)>) -> Result<ResolveOptions>
        ensures kept { IfOk result (IsKeptOf env.items) }
        ensures agree { IfOk result
            (λ o. (other : List (String Global × Vec ℕ Global)) → AgreeOnKept env.items other
            → IsKeptOf other o) }
        ensures rest { IfOk result (λ o. o ≡ record self { env = o.env }) }
        ensures refused { IfErr result (λ e. refusal_of e ≡ plain memory) }
    {
        let env = kept(alloc, env)?;
        Ok(ResolveOptions {
            env: Some(env),
            ..self
        })
    }

    /// With this TOML text set on the command line, as by `cargo --config`, above what was set there
    /// before (Cargo Reference, Configuration,
    /// [command-line overrides](https://doc.rust-lang.org/cargo/reference/config.html#command-line-overrides)).
    ///
    /// # Errors
    /// `ErrorKind::Memory` where memory ran out.
    pub fn config_text(self, alloc: Global, text: String) -> Result<ResolveOptions>
        ensures added { IfOk result (λ o.
            chosen_overrides o ≡ chosen_overrides self ++ from_text (string_bytes text) ∷ []) }
        ensures rest { IfOk result (λ o. o ≡ record self { command_line = o.command_line }) }
        ensures refused { IfErr result (λ e. refusal_of e ≡ plain memory) }
    {
        self.overridden(alloc, Override::Text(text))
    }

    /// The same with the file at a path, which is seen from the directory of the context (Cargo
    /// Reference, Configuration,
    /// [command-line overrides](https://doc.rust-lang.org/cargo/reference/config.html#command-line-overrides)).
    ///
    /// # Errors
    /// `ErrorKind::Memory` where memory ran out.
    pub fn config_file(self, alloc: Global, path: String) -> Result<ResolveOptions>
        ensures added { IfOk result (λ o.
            chosen_overrides o ≡ chosen_overrides self ++ from_file (string_bytes path) ∷ []) }
        ensures rest { IfOk result (λ o. o ≡ record self { command_line = o.command_line }) }
        ensures refused { IfErr result (λ e. refusal_of e ≡ plain memory) }
    {
        self.overridden(alloc, Override::File(path))
    }

    // With one override more.
    fn overridden(self, alloc: Global, last: Override) -> Result<ResolveOptions>
        ensures added { IfOk result
            (λ o. chosen_overrides o ≡ chosen_overrides self ++ override_of last ∷ []) }
        ensures rest { IfOk result (λ o. o ≡ record self { command_line = o.command_line }) }
        ensures refused { IfErr result (λ e. refusal_of e ≡ plain memory) }
    {
        let ResolveOptions {
            env,
            rustc,
            cargo,
            cargo_home,
            host_triple,
            command_line,
        } = self;
        let command_line = Some(with_last(alloc, command_line, last)?);
        Ok(ResolveOptions {
            env,
            rustc,
            cargo,
            cargo_home,
            host_triple,
            command_line,
        })
    }

    /// The context in a directory: what was chosen, else what the machine has.
    ///
    /// # Errors
    /// `ErrorKind::EnvNotText` where no program was chosen for Cargo and the variable `CARGO` is not
    /// UTF-8; the error's line names it. `ErrorKind::Memory` where memory ran out.
    pub fn into_context(
        self,
        alloc: Global,
        current_dir: String,
        machine: &Machine,
    ) -> Result<ResolveContext>
        ensures ok { IfOk result (IsContext self current_dir machine.now) }
        ensures refused { IfErr result (IsRefusal (chosen_cargo self machine.now)) }
    {
        let ResolveOptions {
            env,
            rustc,
            cargo,
            cargo_home,
            host_triple,
            command_line,
        } = self;
        let env = match env {
            Some(env) => env,
            None => kept_copies(alloc, machine.env.as_slice())?,
        };
        let cargo = match cargo {
            Some(cargo) => cargo,
            None => cargo_by(alloc, &env)?,
        };
        let command_line = match command_line {
            Some(list) => list,
            None => Vec::new(alloc),
        };
        Ok(ResolveContext {
            env,
            rustc,
            cargo,
            cargo_home,
            host_triple,
            current_dir,
            command_line,
        })
    }
}

// The program of Cargo that the variables name.
fn cargo_by(alloc: Global, env: &BTreeMap<String, Vec<u8>>) -> Result<String>
    ensures { Gives string_bytes result (cargo_of None (variables_in env.now (codes "CARGO"))) }
{
    match env.get("CARGO") {
        Some(value) => {
            let program = env_text(alloc, "CARGO", value.as_slice())?;
            Ok(String::from_str(alloc, program)?)
        }
        None => Ok(String::from_str(alloc, "cargo")?),
    }
}
