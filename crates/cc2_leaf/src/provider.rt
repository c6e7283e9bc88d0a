//! Providers of credentials.
ghost use Rattle.std.specs.Prelude.{◌≡◌, ℕ, List, Some, None, Ok, Err, IfOk, IfErr, option_map, if◌then◌else◌};
ghost use Rattle.cc2_error.specs.Causes.{refusal_of, plain, no_memory};
ghost use Rattle.cc2_value.specs.Cells as cell;
ghost use Rattle.cc2_value.specs.Copies.{origin_given, provider_set, setting_set};
ghost use Rattle.cc2_value.specs.Values.{word_of, words_of};
ghost use Rattle.cc2_value.specs.Ways.{Fault, fault_cause, IsFaultBehind};
ghost use Rattle.cc2_leaf.specs.Lists.{is_array};
ghost use Rattle.cc2_leaf.specs.Made.{faults_of};
ghost use Rattle.cc2_leaf.specs.Providers.{is_builtin, named, other_named, provider_made, provider_of, setting_of_provider};

use crate::listed::{Texts, read_texts};
use crate::path_and_args::{PathAndArgs, copied_command};
use crate::read_env::{ReadEnv, spaced_by};
use crate::repr::Repr;
use crate::text_copies::copied_text;
use crate::texts::first_and_rest;
use crate::words::send_words;
use cc2_error::error::{Error, ErrorKind, NoMemory, Result};
use cc2_value::{Decode, Definition, MergeFrom, TryClone, Value};
use serde::{Described, Serialize, Serializer};
use std::alloc::Global;

/// A provider of credentials, which remembers whether it came as one text or as an array (Cargo
/// Reference,
/// [Registry Authentication](https://doc.rust-lang.org/cargo/reference/registry-authentication.html)).
#[derive(Debug, Drop)]
pub struct CredentialProvider {
    /// What it is.
    pub kind: CredentialProviderKind,
    repr: Repr,
}

/// What a provider of credentials is (Cargo Reference,
/// [Registry Authentication](https://doc.rust-lang.org/cargo/reference/registry-authentication.html)).
#[derive(Debug, Drop)]
pub enum CredentialProviderKind {
    /// [`cargo:token`](https://doc.rust-lang.org/cargo/reference/registry-authentication.html#cargotoken):
    /// the file of credentials.
    CargoToken,
    /// [`cargo:wincred`](https://doc.rust-lang.org/cargo/reference/registry-authentication.html#cargowincred):
    /// the Windows Credential Manager.
    CargoWincred,
    /// [`cargo:macos-keychain`](https://doc.rust-lang.org/cargo/reference/registry-authentication.html#cargomacos-keychain):
    /// the keychain of macOS.
    CargoMacosKeychain,
    /// [`cargo:libsecret`](https://doc.rust-lang.org/cargo/reference/registry-authentication.html#cargolibsecret):
    /// libsecret.
    CargoLibsecret,
    /// [`cargo:token-from-stdout`](https://doc.rust-lang.org/cargo/reference/registry-authentication.html#cargotoken-from-stdout-command-args):
    /// this program writes the token.
    CargoTokenFromStdout(PathAndArgs),
    /// A program that speaks the protocol of
    /// [credential plugins](https://doc.rust-lang.org/cargo/reference/registry-authentication.html#credential-plugins).
    Plugin(PathAndArgs),
    /// One word that is not built in: an alias, or else a plugin.
    MaybeAlias(Value<String>),
}

impl CredentialProvider {
    ghost use Rattle.std.specs.Prelude.{◌≡◌};
    ghost use Rattle.cc2_leaf.specs.Lists.{is_array};

    /// Whether it came as an array, and not as a text.
    pub fn is_array(&self) -> bool
        ensures { result ≡ is_array self.now.repr }
    {
        matches!(self.repr, Repr::Array)
    }
}

/// The stronger takes precedence.
impl MergeFrom for CredentialProvider {
    ghost use Rattle.cc2_value.specs.Shown.{single_at};
    ghost use Rattle.cc2_leaf.specs.Providers.{setting_of_provider};

    ghost cell_at = { single_at setting_of_provider };

    #[tactic(auto, using(cc2_value::proofs::Gathers::single_gathered))]
    fn gather(&mut self, _alloc: Global, _low: &mut CredentialProvider) -> Result<()> {
        Ok(())
    }

    #[tactic(auto, using(cc2_value::proofs::Gathers::single_reversed))]
    fn reverse_lists(&mut self, _alloc: Global) -> std::result::Result<(), NoMemory> {
        Ok(())
    }

    #[tactic(auto, using(cc2_value::proofs::Gathers::single_unlisted))]
    fn has_lists() -> bool {
        false
    }
}

/// A text that is split at spaces: a name and its arguments.
impl ReadEnv for CredentialProvider {
    ghost use Rattle.cc2_leaf.specs.TextWays.{provider_text_way};

    ghost text_way = { provider_text_way };

    fn read_env(alloc: Global, text: &str, name: &str) -> Result<CredentialProvider> {
        let list = spaced_by(alloc, text, name)?;
        match provider(Texts {
            list,
            repr: Repr::Text,
        }) {
            Ok(provider) => Ok(provider),
            Err(error) => Err(error),
        }
    }
}

/// A text that is split at spaces, or an array of texts: a name and its arguments.
impl Decode for CredentialProvider {
    ghost use Rattle.cc2_leaf.specs.Providers.{provider_way};

    ghost way = { provider_way };

    fn read(
        alloc: Global,
        value: toml::Value,
        key: &str,
        definition: Option<&Definition>,
    ) -> Result<CredentialProvider> {
        match read_texts(alloc, value, key, definition) {
            Ok(texts) => match provider(texts) {
                Ok(provider) => Ok(provider),
                Err(error) => Err(error),
            },
            Err(error) => Err(error),
        }
    }
}

/// The provider whose name and arguments these are (Cargo Reference,
/// [Registry Authentication](https://doc.rust-lang.org/cargo/reference/registry-authentication.html)).
/// Refused where there is none, where a built-in one has arguments, and where
/// `cargo:token-from-stdout` has no command.
pub fn provider(texts: Texts) -> Result<CredentialProvider>
    ensures ok { IfOk result (λ c.
        provider_made (is_array texts.repr) (words_of texts.list.items)
        ≡ Ok (setting_of_provider c)) }
    ensures refused { IfErr result (λ e.
        (keys : List (List ℕ))
        → IsFaultBehind keys (faults_of
        (provider_made (is_array texts.repr) (words_of texts.list.items))) e) }
{
    let repr = texts.repr;
    match first_and_rest(texts.list) {
        Some((name, args)) => match kind_of(name, args, repr) {
            Ok(kind) => Ok(CredentialProvider { kind, repr }),
            Err(error) => Err(error),
        },
        None => Err(Error::new(ErrorKind::EmptyCommand)),
    }
}

// What the provider of this name is, with these arguments.
fn kind_of(
    name: Value<String>,
    args: Vec<Value<String>>,
    repr: Repr,
) -> Result<CredentialProviderKind>
    ensures ok { IfOk result (λ kind.
        named (is_array repr) (word_of name) (words_of args.items) ≡ Ok (provider_of kind)) }
    ensures refused { IfErr result (λ e.
        (fault : Fault) × (named (is_array repr) (word_of name) (words_of args.items) ≡ Err fault)
        × ((path : List (List ℕ)) → refusal_of e ≡ plain (fault_cause path fault))) }
{
    match builtin(name.val.as_str()) {
        None => other_kind(name, args, repr),
        Some((kind, name)) => {
            if args.is_empty() {
                Ok(kind)
            } else {
                Err(Error::new(ErrorKind::ProviderArgs { kind: name }))
            }
        }
    }
}

// The built-in provider of this name that takes no argument, and the name.
fn builtin(name: &str) -> Option<(CredentialProviderKind, &'static str)>
    ensures { option_map {U = cell.Provider × List ℕ} (λ b.
        (provider_of b.0, b.1.now)) result ≡
        (if is_builtin name.now then Some (cell.builtin name.now, name.now) else None) }
{
    match name {
        "cargo:token" => Some((CredentialProviderKind::CargoToken, "cargo:token")),
        "cargo:wincred" => Some((CredentialProviderKind::CargoWincred, "cargo:wincred")),
        "cargo:macos-keychain" => Some((
            CredentialProviderKind::CargoMacosKeychain,
            "cargo:macos-keychain",
        )),
        "cargo:libsecret" => Some((CredentialProviderKind::CargoLibsecret, "cargo:libsecret")),
        _ => None,
    }
}

// The same where it is no built-in one that takes no argument.
fn other_kind(
    name: Value<String>,
    args: Vec<Value<String>>,
    repr: Repr,
) -> Result<CredentialProviderKind>
    ensures ok { IfOk result (λ kind.
        other_named (is_array repr) (word_of name) (words_of args.items) ≡ Ok (provider_of kind)) }
    ensures refused { IfErr result (λ e.
        (fault : Fault)
        × (other_named (is_array repr) (word_of name) (words_of args.items) ≡ Err fault)
        × ((path : List (List ℕ)) → refusal_of e ≡ plain (fault_cause path fault))) }
{
    if name.val.as_str() == "cargo:token-from-stdout" {
        return match first_and_rest(args) {
            Some((path, args)) => Ok(CredentialProviderKind::CargoTokenFromStdout(
                PathAndArgs::of_words(path, args, repr),
            )),
            None => Err(Error::new(ErrorKind::ProviderNoCommand)),
        };
    }
    if args.is_empty() {
        Ok(CredentialProviderKind::MaybeAlias(name))
    } else {
        Ok(CredentialProviderKind::Plugin(PathAndArgs::of_words(name, args, repr)))
    }
}

impl Described for CredentialProvider {}

/// As it came: a text with a space between each two words, or an array of texts.
impl Serialize for CredentialProvider {
    fn serialize<S: Serializer>(&self, out: &mut S) -> std::result::Result<(), S::Error> {
        match &self.kind {
            CredentialProviderKind::CargoTokenFromStdout(command) => send_words(
                &["cargo:token-from-stdout", command.path.raw_value()],
                command.args.as_slice(),
                self.repr,
                out,
            ),
            CredentialProviderKind::Plugin(command) => send_words(
                &[command.path.raw_value()],
                command.args.as_slice(),
                self.repr,
                out,
            ),
            CredentialProviderKind::MaybeAlias(name) => {
                send_words(&[name.val.as_str()], &[], self.repr, out)
            }
            CredentialProviderKind::CargoToken => send_words(&["cargo:token"], &[], self.repr, out),
            CredentialProviderKind::CargoWincred => {
                send_words(&["cargo:wincred"], &[], self.repr, out)
            }
            CredentialProviderKind::CargoMacosKeychain => {
                send_words(&["cargo:macos-keychain"], &[], self.repr, out)
            }
            CredentialProviderKind::CargoLibsecret => {
                send_words(&["cargo:libsecret"], &[], self.repr, out)
            }
        }
    }
}

impl TryClone for CredentialProvider {
    ghost use Rattle.cc2_value.specs.Shown.{single_at};
    ghost use Rattle.cc2_leaf.specs.Providers.{setting_of_provider};

    ghost shown = { single_at setting_of_provider };

    fn copied(&self, alloc: Global, definition: Option<&Definition>) -> Result<CredentialProvider> {
        Ok(copied_provider(alloc, self, definition)?)
    }
}

/// A copy of a provider, word by word. A built-in one has no word.
pub fn copied_provider(
    alloc: Global,
    provider: &CredentialProvider,
    definition: Option<&Definition>,
) -> Result<CredentialProvider>
    ensures ok { IfOk result (λ copy.
        setting_of_provider copy ≡ setting_set (origin_given definition.entry)
        (setting_of_provider provider.now)) }
    ensures refused { IfErr result (λ e. e ≡ no_memory) }
{
    let kind = copied_kind(alloc, &provider.kind, definition)?;
    Ok(CredentialProvider {
        kind,
        repr: provider.repr,
    })
}

// The same of what it is.
fn copied_kind(
    alloc: Global,
    kind: &CredentialProviderKind,
    definition: Option<&Definition>,
) -> Result<CredentialProviderKind>
    ensures ok { IfOk result (λ copy.
        provider_of copy ≡ provider_set (origin_given definition.entry) (provider_of kind.now)) }
    ensures refused { IfErr result (λ e. e ≡ no_memory) }
{
    match kind {
        CredentialProviderKind::CargoToken => Ok(CredentialProviderKind::CargoToken),
        CredentialProviderKind::CargoWincred => Ok(CredentialProviderKind::CargoWincred),
        CredentialProviderKind::CargoMacosKeychain => Ok(
            CredentialProviderKind::CargoMacosKeychain,
        ),
        CredentialProviderKind::CargoLibsecret => Ok(CredentialProviderKind::CargoLibsecret),
        CredentialProviderKind::CargoTokenFromStdout(command) => {
            let command = copied_command(alloc, command, definition)?;
            Ok(CredentialProviderKind::CargoTokenFromStdout(command))
        }
        CredentialProviderKind::Plugin(command) => {
            let command = copied_command(alloc, command, definition)?;
            Ok(CredentialProviderKind::Plugin(command))
        }
        CredentialProviderKind::MaybeAlias(name) => {
            let name = copied_text(alloc, name, definition)?;
            Ok(CredentialProviderKind::MaybeAlias(name))
        }
    }
}
