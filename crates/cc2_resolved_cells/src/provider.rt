//! Providers of credentials in bytes.
ghost use Rattle.std.specs.Prelude.{◌≡◌, ◌∷◌, ◌++◌, OnOk, codes, map};
ghost use Rattle.cc2_error.specs.Commands.{command_of};
ghost use Rattle.cc2_resolved.specs.Providers.{provider_of, providers_in};
ghost use Rattle.cc2_resolved_cells.specs.Bytes.{item_bytes, items_bytes, value_bytes};
ghost use Rattle.cc2_resolved_cells.specs.Short.{AreShortItems, IsShortItem, IsShortValue};
ghost use Rattle.cc2_resolved_cells.specs.Values as item;
ghost use Rattle.cc2_resolved_cells.specs.Values.{command_words, provider_item, several};

use crate::words::{push_command, push_text, push_words};
use cc2_ask::{push_field, push_number};
use cc2_error::path_and_args::PathAndArgs;
use cc2_resolved::provider::CredentialProvider;
use std::alloc::AllocError;

/// Appends a provider: the name of one that is built in, or of an alias, as a text; a program and its
/// arguments as a list.
///
/// # Errors
/// `AllocError` where memory ran out, or where a text or list is too long for four bytes.
pub fn push_provider(out: &mut Vec<u8>, provider: &CredentialProvider) -> Result<(), AllocError>
    ensures bytes { OnOk result (out.new.items
        ≡ out.old.items ++ item_bytes (provider_item (provider_of provider.now))) }
    ensures short { OnOk result (IsShortItem (provider_item (provider_of provider.now))) }
{
    match provider {
        CredentialProvider::CargoToken => push_text(out, "cargo:token"),
        CredentialProvider::CargoWincred => push_text(out, "cargo:wincred"),
        CredentialProvider::CargoMacosKeychain => push_text(out, "cargo:macos-keychain"),
        CredentialProvider::CargoLibsecret => push_text(out, "cargo:libsecret"),
        CredentialProvider::CargoTokenFromStdout(command) => push_stdout(out, command),
        CredentialProvider::Plugin(command) => push_command(out, command),
        CredentialProvider::Alias(name) => push_text(out, name.as_str()),
    }
}

/// Appends providers: how many, and each.
///
/// # Errors
/// `AllocError` where memory ran out, or where a text or list is too long for four bytes.
pub fn push_providers(out: &mut Vec<u8>, providers: &[CredentialProvider]) -> Result<(), AllocError>
    ensures bytes { OnOk result (out.new.items
        ≡ out.old.items ++ value_bytes (several (map provider_item (providers_in providers.now)))) }
    ensures short { OnOk result
        (IsShortValue (several (map provider_item (providers_in providers.now)))) }
{
    out.push(b'p')?;
    push_number(out, providers.len())?;
    push_each(out, providers)
}

// Appends each provider.
fn push_each(out: &mut Vec<u8>, providers: &[CredentialProvider]) -> Result<(), AllocError>
    ensures bytes { OnOk result (out.new.items
        ≡ out.old.items ++ items_bytes (map provider_item (providers_in providers.now))) }
    ensures short { OnOk result
        (AreShortItems (map provider_item (providers_in providers.now))) }
{
    for provider in providers {
        push_provider(out, provider)?;
    }
    Ok(())
}

// Appends a command that writes the token, as a list whose first text says so.
fn push_stdout(out: &mut Vec<u8>, command: &PathAndArgs) -> Result<(), AllocError>
    ensures bytes { OnOk result (out.new.items ≡ out.old.items ++ item_bytes
        (item.list (codes "cargo:token-from-stdout" ∷ command_words (command_of command.now)))) }
    ensures short { OnOk result (IsShortItem
        (item.list (codes "cargo:token-from-stdout" ∷ command_words (command_of command.now)))) }
{
    out.push(b'a')?;
    push_number(out, command.args.len() + 2)?;
    push_field(out, b"cargo:token-from-stdout")?;
    push_words(out, command)
}
