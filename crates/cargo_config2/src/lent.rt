//! What `rustc` and `host_triple` lend: their answer, with the configuration that keeps it.
ghost use Rattle.std.specs.Prelude.{◌≡◌, Some, IsSome};
ghost use Rattle.cargo_config2.specs.Kept.{host_of};

use crate::config::Config;
use cc2_error::path_and_args::PathAndArgs;
use std::ops::Deref;

/// The command for rustc, lent from a configuration. The configuration is lent on with it, and nothing
/// can be changed through it.
#[derive(Drop)]
pub struct RustcRef<'a> {
    pub(crate) config: &'a mut Config,
    ghost kept: { IsSome config.now.kept.rustc },
}

impl<'a> RustcRef<'a> {
    // Lends the command of a configuration that keeps one.
    pub(crate) fn new(config: &'a mut Config) -> RustcRef<'a>
        requires { IsSome config.old.kept.rustc }
        ensures same_reference { result.config.ghost_name ≡ config.entry.ghost_name }
        ensures same { result.config.now ≡ config.old }
    {
        RustcRef { config }
    }
}

/// The command.
impl Deref for RustcRef<'_> {
    type Target = PathAndArgs;

    ghost deref_gives = { λ lent command. lent.config.now.kept.rustc ≡ Some command };

    fn deref(&self) -> &PathAndArgs {
        match &self.config.kept.rustc {
            Some(command) => command,
            None => unreachable!(),
        }
    }
}

/// The triple of the host, lent from a configuration. The configuration is lent on with it, and nothing
/// can be changed through it.
#[derive(Drop)]
pub struct HostRef<'a> {
    pub(crate) config: &'a mut Config,
    ghost known: { IsSome (host_of config.now) },
}

impl<'a> HostRef<'a> {
    // Lends the host of a configuration that knows it.
    pub(crate) fn new(config: &'a mut Config) -> HostRef<'a>
        requires { IsSome (host_of config.old) }
        ensures same_reference { result.config.ghost_name ≡ config.entry.ghost_name }
        ensures same { result.config.now ≡ config.old }
    {
        HostRef { config }
    }
}

impl HostRef<'_> {
    /// Its text.
    pub fn as_str(&self) -> &str
        ensures { host_of self.now.config.now ≡ Some result.now }
    {
        match self.config.known_host() {
            Some(host) => host,
            None => unreachable!(),
        }
    }
}
