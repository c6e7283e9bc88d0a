//! Providers of credentials, once aliases are distinguished from programs.
use cc2_error::error::Result;
use cc2_error::path_and_args::PathAndArgs;
use serde::{Described, Serialize, Serializer};
use std::alloc::Global;

/// A provider of credentials (Cargo Reference,
/// [Registry Authentication](https://doc.rust-lang.org/cargo/reference/registry-authentication.html)).
#[derive(Debug, Drop, PartialEq, Eq)]
pub enum CredentialProvider {
    /// [`cargo:token`](https://doc.rust-lang.org/cargo/reference/registry-authentication.html#cargotoken):
    /// the file of credentials.
    CargoToken,
    /// [`cargo:wincred`](https://doc.rust-lang.org/cargo/reference/registry-authentication.html#cargowincred):
    /// the Windows Credential Manager.
    CargoWincred,
    /// [`cargo:macos-keychain`](https://doc.rust-lang.org/cargo/reference/registry-authentication.html#cargomacos-keychain):
    /// the keychain of macOS.
    CargoMacosKeychain,
    /// [`cargo:libsecret`](https://doc.rust-lang.org/cargo/reference/registry-authentication.html#cargolibsecret):
    /// libsecret.
    CargoLibsecret,
    /// [`cargo:token-from-stdout`](https://doc.rust-lang.org/cargo/reference/registry-authentication.html#cargotoken-from-stdout-command-args):
    /// this program writes the token.
    CargoTokenFromStdout(PathAndArgs),
    /// A program that speaks the protocol of
    /// [credential plugins](https://doc.rust-lang.org/cargo/reference/registry-authentication.html#credential-plugins).
    Plugin(PathAndArgs),
    /// A name that the table
    /// [`credential-alias`](https://doc.rust-lang.org/cargo/reference/config.html#credential-alias)
    /// has.
    Alias(String),
}

impl CredentialProvider {
    ghost use Rattle.std.specs.Prelude.{◌≡◌, IfOk, IfErr};
    ghost use Rattle.cc2_error.specs.Causes.{no_memory};
    ghost use Rattle.cc2_resolved.specs.Providers.{provider_of};

    /// The same provider once more.
    ///
    /// # Errors
    /// `ErrorKind::Memory` where the copy finds no memory.
    pub fn try_clone(&self, alloc: Global) -> Result<CredentialProvider>
        ensures same { IfOk result (λ copy. provider_of copy ≡ provider_of self.now) }
        ensures refused { IfErr result (λ e. e ≡ no_memory) }
    {
        match self {
            CredentialProvider::CargoToken => Ok(CredentialProvider::CargoToken),
            CredentialProvider::CargoWincred => Ok(CredentialProvider::CargoWincred),
            CredentialProvider::CargoMacosKeychain => Ok(CredentialProvider::CargoMacosKeychain),
            CredentialProvider::CargoLibsecret => Ok(CredentialProvider::CargoLibsecret),
            CredentialProvider::CargoTokenFromStdout(command) => {
                Ok(CredentialProvider::CargoTokenFromStdout(command.try_clone(alloc)?))
            }
            CredentialProvider::Plugin(command) => {
                Ok(CredentialProvider::Plugin(command.try_clone(alloc)?))
            }
            CredentialProvider::Alias(name) => {
                Ok(CredentialProvider::Alias(String::from_str(alloc, name.as_str())?))
            }
        }
    }
}

impl Described for CredentialProvider {}

/// An array of texts: the name or the program, and the arguments after it.
impl Serialize for CredentialProvider {
    fn serialize<S: Serializer>(&self, out: &mut S) -> std::result::Result<(), S::Error> {
        match self {
            CredentialProvider::CargoToken => ["cargo:token"].serialize(out),
            CredentialProvider::CargoWincred => ["cargo:wincred"].serialize(out),
            CredentialProvider::CargoMacosKeychain => ["cargo:macos-keychain"].serialize(out),
            CredentialProvider::CargoLibsecret => ["cargo:libsecret"].serialize(out),
            CredentialProvider::CargoTokenFromStdout(command) => send_behind_name(command, out),
            CredentialProvider::Plugin(command) => command.serialize(out),
            CredentialProvider::Alias(name) => [name.as_str()].serialize(out),
        }
    }
}

// Sends the command of `cargo:token-from-stdout` after that name.
fn send_behind_name<S: Serializer>(
    command: &PathAndArgs,
    out: &mut S,
) -> std::result::Result<(), S::Error> {
    out.begin_seq(None)?;
    out.str("cargo:token-from-stdout")?;
    command.path.serialize(out)?;
    for arg in &command.args {
        arg.serialize(out)?;
    }
    out.end_seq()
}

/// Providers of credentials for every registry, the one to try first last (Cargo Reference,
/// Configuration,
/// [`registry.global-credential-providers`](https://doc.rust-lang.org/cargo/reference/config.html#registryglobal-credential-providers)).
#[derive(Debug, Drop, PartialEq, Eq, Serialize)]
#[serde(transparent)]
pub struct GlobalCredentialProviders {
    providers: Vec<CredentialProvider>,
}

impl GlobalCredentialProviders {
    ghost use Rattle.std.specs.Prelude.{◌≡◌, ◌==◌, [], length, IfOk, IfErr};
    ghost use Rattle.cc2_error.specs.Causes.{no_memory};
    ghost use Rattle.cc2_resolved.specs.Providers.{providers_of};

    /// No provider. It takes no memory.
    pub fn empty(alloc: Global) -> GlobalCredentialProviders
        ensures { providers_of result ≡ [] }
    {
        GlobalCredentialProviders {
            providers: Vec::new(alloc),
        }
    }

    /// The providers, in their order.
    pub fn as_ref(&self) -> &[CredentialProvider]
        ensures { result.now ≡ self.now.providers.items }
    {
        self.providers.as_slice()
    }

    /// Whether there is no provider.
    pub fn is_empty(&self) -> bool
        ensures { result ≡ (length self.now.providers.items == 0) }
    {
        self.providers.is_empty()
    }

    /// The same providers once more.
    ///
    /// # Errors
    /// `ErrorKind::Memory` where the copy finds no memory.
    pub fn try_clone(&self, alloc: Global) -> Result<GlobalCredentialProviders>
        ensures same { IfOk result (λ copy. providers_of copy ≡ providers_of self.now) }
        ensures refused { IfErr result (λ e. e ≡ no_memory) }
    {
        let mut providers = Vec::new(alloc);
        for provider in self.providers.as_slice() {
            providers.push(provider.try_clone(alloc)?)?;
        }
        Ok(GlobalCredentialProviders { providers })
    }
}

/// The providers of the list, in their order. It takes no memory.
impl From<Vec<CredentialProvider>> for GlobalCredentialProviders {
    ghost use Rattle.std.specs.Prelude.{◌≡◌};
    ghost use Rattle.cc2_resolved.specs.Providers.{providers_in, providers_of};

    ghost from_gives = { λ list providers. providers_of providers ≡ providers_in list.items };

    fn from(providers: Vec<CredentialProvider>) -> GlobalCredentialProviders {
        GlobalCredentialProviders { providers }
    }
}
