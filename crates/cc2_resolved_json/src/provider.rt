//! Providers of credentials as JSON.
ghost use Rattle.std.specs.Prelude.{◌≡◌, ◌∷◌, [], true, false, IfOk, codes, map};
ghost use Rattle.serde_json.specs.View.{view};
ghost use Rattle.cc2_error.specs.Commands.{command_of};
ghost use Rattle.cc2_json.specs.Forms.{setting_data, command_texts, words_data};
ghost use Rattle.cc2_resolved.specs.Providers.{provider_of, providers_in};
ghost use Rattle.cc2_resolved_json.specs.Plain.{bare_word, bare_words, provider_setting};

use crate::words::{command_json, push_command};
use cc2_error::path_and_args::PathAndArgs;
use cc2_json::{Json, words_json};
use cc2_resolved::provider::CredentialProvider;
use std::alloc::{AllocError, Global};

/// A provider: the name of one that is built in, or of an alias, as a text; a program and its arguments
/// as an array.
pub fn provider_json(alloc: Global, provider: &CredentialProvider) -> Result<Json, AllocError>
    ensures { IfOk result (λ json.
        view json ≡ setting_data false (provider_setting (provider_of provider.now))) }
{
    match provider {
        CredentialProvider::CargoToken => word_json(alloc, "cargo:token"),
        CredentialProvider::CargoWincred => word_json(alloc, "cargo:wincred"),
        CredentialProvider::CargoMacosKeychain => word_json(alloc, "cargo:macos-keychain"),
        CredentialProvider::CargoLibsecret => word_json(alloc, "cargo:libsecret"),
        CredentialProvider::CargoTokenFromStdout(command) => stdout_json(alloc, command),
        CredentialProvider::Plugin(command) => command_json(alloc, command),
        CredentialProvider::Alias(name) => word_json(alloc, name.as_str()),
    }
}

fn word_json(alloc: Global, word: &str) -> Result<Json, AllocError>
    ensures { IfOk result (λ json. view json ≡ words_data false (word.now ∷ [])) }
{
    let words = [word];
    words_json(alloc, false, words.as_slice())
}

// A command that writes the token, after the name that says so.
fn stdout_json(alloc: Global, command: &PathAndArgs) -> Result<Json, AllocError>
    ensures { IfOk result (λ json. view json ≡ words_data true (codes "cargo:token-from-stdout"
        ∷ command_texts (bare_word (command_of command.now).program)
        (bare_words (command_of command.now).args))) }
{
    let mut words = Vec::new(alloc);
    words.push("cargo:token-from-stdout")?;
    push_command(&mut words, command)?;
    words_json(alloc, true, words.as_slice())
}

/// Each of several providers.
pub fn each_json(alloc: Global, providers: &[CredentialProvider]) -> Result<Vec<Json>, AllocError>
    ensures { IfOk result (λ items.
        map view items.items ≡ map (setting_data false)
        (map provider_setting (providers_in providers.now))) }
{
    let mut items = Vec::new(alloc);
    for provider in providers {
        items.push(provider_json(alloc, provider)?)?;
    }
    Ok(items)
}
