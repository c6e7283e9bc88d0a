//! Providers of credentials: a single word may be an alias, the others' programs are joined to their
//! roots.
ghost use Rattle.std.specs.Prelude.{◌≡◌, map, string_bytes, option_map, IfOk, IfErr};
ghost use Rattle.cc2_error.specs.Causes.{no_memory};
ghost use Rattle.cc2_error.specs.Outcomes.{Gives};
ghost use Rattle.cc2_value.specs.Cells as cell;
ghost use Rattle.cc2_value.specs.Values.{origin_of, word_of};
ghost use Rattle.cc2_leaf.specs.Pieces.{spaced, spaced_left};
ghost use Rattle.cc2_leaf.specs.Providers.{provider_of as kind_of};
ghost use Rattle.cc2_resolved.specs.Providers.{provider_of};
ghost use Rattle.cc2_resolved.specs.Resolving.{plugin_for, provider_for};
ghost use Rattle.cc2_resolved.specs.Sites.{site_of};

use crate::command::resolve_command;
use crate::place::Place;
use crate::provider::CredentialProvider;
use crate::resolve::Resolve;
use crate::roots::{Meant, resolve_at};
use cc2_error::error::{Error, ErrorKind, Result};
use cc2_error::path_and_args::PathAndArgs;
use cc2_leaf::{CredentialProviderKind, SplitSpaces, Value};
use std::alloc::Global;

// One word that isn't built in: an alias where there is one of that name, else a plugin.
fn alias_or_plugin(
    alloc: Global,
    place: &Place<'_>,
    name: Value<String>,
) -> Result<CredentialProvider>
    ensures { Gives provider_of result
        (provider_for (site_of place.now) (cell.maybe_alias (word_of name))) }
{
    if place.is_alias(name.val.as_str()) {
        return Ok(CredentialProvider::Alias(name.val));
    }
    split_plugin(alloc, place.directory, &name)
}

// The plugin whose words are a text's pieces.
fn split_plugin(alloc: Global, directory: &str, name: &Value<String>) -> Result<CredentialProvider>
    ensures { Gives provider_of result (plugin_for directory.now
        (option_map origin_of name.now.definition) (spaced (string_bytes name.now.val))) }
{
    let mut pieces = SplitSpaces::new(name.val.as_str());
    match pieces.next() {
        None => Err(Error::new(ErrorKind::EmptyCommand)),
        Some(path) => {
            let path = resolve_at(alloc, directory, Meant::Program, path, &name.definition)?;
            let args = copied_pieces(alloc, pieces)?;
            Ok(CredentialProvider::Plugin(PathAndArgs { path, args }))
        }
    }
}

// The pieces that are left.
fn copied_pieces(alloc: Global, pieces: SplitSpaces<'_>) -> Result<Vec<String>>
    ensures ok { IfOk result (λ copies.
        map string_bytes copies.items ≡ spaced_left pieces.entry.rest) }
    ensures refused { IfErr result (λ e. e ≡ no_memory) }
{
    let mut copies = Vec::new(alloc);
    for piece in pieces {
        copies.push(String::from_str(alloc, piece)?)?;
    }
    Ok(copies)
}

/// Resolves a provider of this kind (Cargo Reference,
/// [Registry Authentication](https://doc.rust-lang.org/cargo/reference/registry-authentication.html)).
///
/// Refused exactly where a command of it has no root, or where it is blank and no alias.
pub fn resolve_kind(
    alloc: Global,
    place: &Place<'_>,
    kind: CredentialProviderKind,
) -> Result<CredentialProvider>
    ensures { Gives provider_of result (provider_for (site_of place.now) (kind_of kind)) }
{
    match kind {
        CredentialProviderKind::CargoToken => Ok(CredentialProvider::CargoToken),
        CredentialProviderKind::CargoWincred => Ok(CredentialProvider::CargoWincred),
        CredentialProviderKind::CargoMacosKeychain => Ok(CredentialProvider::CargoMacosKeychain),
        CredentialProviderKind::CargoLibsecret => Ok(CredentialProvider::CargoLibsecret),
        CredentialProviderKind::CargoTokenFromStdout(command) => {
            match resolve_command(alloc, place.directory, command) {
                Ok(command) => Ok(CredentialProvider::CargoTokenFromStdout(command)),
                Err(error) => Err(error),
            }
        }
        CredentialProviderKind::Plugin(command) => {
            match resolve_command(alloc, place.directory, command) {
                Ok(command) => Ok(CredentialProvider::Plugin(command)),
                Err(error) => Err(error),
            }
        }
        CredentialProviderKind::MaybeAlias(name) => alias_or_plugin(alloc, place, name),
    }
}

impl Resolve for cc2_leaf::CredentialProvider {
    ghost use Rattle.cc2_value.specs.Cells.{Single};
    ghost use Rattle.cc2_leaf.specs.Providers.{setting_of_provider};
    ghost use Rattle.cc2_resolved.specs.Answers.{provider_answer};
    ghost use Rattle.cc2_resolved.specs.Resolving.{settled};

    type Resolved = CredentialProvider;

    ghost cell = { λ c. Single (setting_of_provider c) };

    ghost answer = { provider_answer };

    ghost how = { settled };

    fn resolve(self, alloc: Global, place: &Place<'_>) -> Result<CredentialProvider> {
        match resolve_kind(alloc, place, self.kind) {
            Ok(provider) => Ok(provider),
            Err(error) => Err(error),
        }
    }
}
