//! Global providers of credentials.
ghost use Rattle.std.specs.Prelude.{◌≡◌, ◌∷◌, [], Some, None, Ok, IfOk, IfErr, map};
ghost use Rattle.toml.specs.Data.{as_str};
ghost use Rattle.toml.specs.View.{view, items_view};
ghost use Rattle.cc2_error.specs.Causes.{no_memory};
ghost use Rattle.cc2_value.specs.Copies.{origin_given, setting_set};
ghost use Rattle.cc2_value.specs.Values.{origin_of};
ghost use Rattle.cc2_value.specs.Ways.{IsFaultBehind};
ghost use Rattle.cc2_leaf.specs.Made.{faults_of};
ghost use Rattle.cc2_leaf.specs.Providers.{setting_of_provider};
ghost use Rattle.cc2_leaf.specs.ManyProviders.{text_made, each_setting, each_fault};
ghost use Rattle.cc2_leaf.specs.Pieces.{spaced};
ghost use Rattle.cc2_leaf.specs.TextWays.{IsTextFault, making_faults, word_made, word_settings, word_faults};

use crate::listed::Texts;
use crate::provider::{CredentialProvider, copied_provider, provider};
use crate::read_env::{ReadEnv, set_by};
use crate::repr::Repr;
use crate::split::SplitSpaces;
use crate::texts::{append_reversed, spaced_texts, text_at};
use cc2_error::error::{NoMemory, Result};
use cc2_value::{Decode, Definition, MergeFrom, Part, TryClone, read_field, wrong_type};
use serde::Serialize;
use std::alloc::Global;

/// Providers of credentials for every registry, the one to try first last (Cargo Reference,
/// Configuration,
/// [`registry.global-credential-providers`](https://doc.rust-lang.org/cargo/reference/config.html#registryglobal-credential-providers)).
/// They are serialized as an array of texts.
#[derive(Debug, Drop, Serialize)]
#[serde(transparent)]
pub struct GlobalCredentialProviders {
    providers: Vec<CredentialProvider>,
}

impl GlobalCredentialProviders {
    ghost use Rattle.std.specs.Prelude.{◌≡◌, ◌==◌, [], length};

    /// No provider. It takes no memory.
    pub fn empty(alloc: Global) -> GlobalCredentialProviders
        ensures { result.providers.items ≡ [] }
    {
        GlobalCredentialProviders {
            providers: Vec::new(alloc),
        }
    }

    /// The providers, in their order.
    pub fn as_ref(&self) -> &[CredentialProvider]
        ensures { result.now ≡ self.now.providers.items }
    {
        self.providers.as_slice()
    }

    /// Whether there is no provider.
    pub fn is_empty(&self) -> bool
        ensures { result ≡ (length self.now.providers.items == 0) }
    {
        self.providers.is_empty()
    }

    /// The providers, in their order, taken out.
    pub fn into_vec(self) -> Vec<CredentialProvider>
        ensures { result ≡ self.providers }
    {
        self.providers
    }
}

/// The weaker one's providers, and then the stronger one's.
impl MergeFrom for GlobalCredentialProviders {
    ghost use Rattle.cc2_leaf.specs.ManyProviders.{providers_value};

    ghost cell_at = { providers_value };

    fn gather(&mut self, _alloc: Global, low: &mut GlobalCredentialProviders) -> Result<()> {
        append_reversed(&mut self.providers, &mut low.providers)
    }

    fn reverse_lists(&mut self, _alloc: Global) -> std::result::Result<(), NoMemory> {
        self.providers.reverse();
        Ok(())
    }

    fn is_unset(&self) -> bool {
        self.is_empty()
    }
}

impl Part for GlobalCredentialProviders {
    ghost use Rattle.cc2_leaf.specs.ManyProviders.{providers_way};

    ghost way = { providers_way };

    fn empty(alloc: Global) -> GlobalCredentialProviders {
        GlobalCredentialProviders::empty(alloc)
    }

    fn read_at(
        &mut self,
        alloc: Global,
        table: &mut toml::Table,
        key: &str,
        definition: Option<&Definition>,
    ) -> Result<()> {
        *self = match read_field(alloc, table, key, definition)? {
            Some(read) => read,
            None => GlobalCredentialProviders::empty(alloc),
        };
        Ok(())
    }
}

/// A text that is split at spaces, each word a provider.
impl ReadEnv for GlobalCredentialProviders {
    ghost use Rattle.cc2_leaf.specs.TextWays.{providers_text_way};

    ghost text_way = { providers_text_way };

    fn read_env(alloc: Global, text: &str, name: &str) -> Result<GlobalCredentialProviders> {
        let definition = set_by(alloc, name)?;
        match read_words(alloc, text, &definition) {
            Ok(providers) => Ok(GlobalCredentialProviders { providers }),
            Err(error) => Err(error),
        }
    }
}

// Each word of a text that is set where the definition says, as a provider.
fn read_words(alloc: Global, text: &str, definition: &Definition) -> Result<Vec<CredentialProvider>>
    ensures settings { IfOk result (λ ps.
        word_settings (Some (origin_of definition.now))
        (spaced text.now) ≡ map setting_of_provider ps.items) }
    ensures faults { IfOk result (λ ps. word_faults (spaced text.now) ≡ []) }
    ensures refused { IfErr result (IsTextFault (word_faults (spaced text.now))) }
{
    let mut providers = Vec::new(alloc);
    for word in SplitSpaces::new(text) {
        match read_word(alloc, word, definition) {
            Ok(provider) => providers.push(provider)?,
            Err(error) => return Err(error),
        }
    }
    Ok(providers)
}

// A word that is set where the definition says, as a provider.
fn read_word(alloc: Global, word: &str, definition: &Definition) -> Result<CredentialProvider>
    ensures ok { IfOk result (λ p.
        word_made (Some (origin_of definition.now)) word.now ≡ Ok (setting_of_provider p)) }
    ensures faults { IfOk result (λ p. making_faults (word_made None word.now) ≡ []) }
    ensures refused { IfErr result (IsTextFault (making_faults (word_made None word.now))) }
{
    let mut list = Vec::new(alloc);
    list.push(text_at(alloc, word, Some(definition))?)?;
    match provider(Texts {
        list,
        repr: Repr::Text,
    }) {
        Ok(provider) => Ok(provider),
        Err(error) => Err(error),
    }
}

/// An array of texts, each a provider as a text.
impl Decode for GlobalCredentialProviders {
    ghost use Rattle.cc2_leaf.specs.ManyProviders.{providers_way};

    ghost way = { providers_way };

    fn read(
        alloc: Global,
        value: toml::Value,
        key: &str,
        definition: Option<&Definition>,
    ) -> Result<GlobalCredentialProviders> {
        match value.as_array() {
            None => Err(wrong_type(alloc, key)),
            Some(items) => match read_each(alloc, items.as_slice(), key, definition) {
                Ok(providers) => Ok(GlobalCredentialProviders { providers }),
                Err(error) => Err(error),
            },
        }
    }
}

// Each item as a provider; what is wrong with one is reported at the key.
fn read_each(
    alloc: Global,
    items: &[toml::Value],
    key: &str,
    definition: Option<&Definition>,
) -> Result<Vec<CredentialProvider>>
    ensures settings { IfOk result (λ ps.
        each_setting (origin_given definition.entry)
        (items_view items.now) ≡ map setting_of_provider ps.items) }
    ensures faults { IfOk result (λ ps. each_fault (items_view items.now) ≡ []) }
    ensures refused { IfErr result
        (IsFaultBehind (key.now ∷ []) (each_fault (items_view items.now))) }
{
    let mut providers = Vec::new(alloc);
    for item in items {
        match read_text(alloc, item, key, definition) {
            Ok(provider) => providers.push(provider)?,
            Err(error) => return Err(error),
        }
    }
    Ok(providers)
}

// A text as a provider.
fn read_text(
    alloc: Global,
    item: &toml::Value,
    key: &str,
    definition: Option<&Definition>,
) -> Result<CredentialProvider>
    ensures ok { IfOk result (λ p.
        text_made (origin_given definition.entry) (as_str (view item.now))
        ≡ Ok (setting_of_provider p)) }
    ensures faults { IfOk result (λ p. faults_of (text_made None (as_str (view item.now))) ≡ []) }
    ensures refused { IfErr result
        (IsFaultBehind (key.now ∷ []) (faults_of (text_made None (as_str (view item.now))))) }
{
    match item.as_str() {
        None => Err(wrong_type(alloc, key)),
        Some(text) => {
            let list = spaced_texts(alloc, text, definition)?;
            match provider(Texts {
                list,
                repr: Repr::Text,
            }) {
                Ok(provider) => Ok(provider),
                Err(error) => Err(error),
            }
        }
    }
}

impl TryClone for GlobalCredentialProviders {
    ghost use Rattle.cc2_leaf.specs.ManyProviders.{providers_value};

    ghost shown = { providers_value };

    fn copied(
        &self,
        alloc: Global,
        definition: Option<&Definition>,
    ) -> Result<GlobalCredentialProviders> {
        let providers = copied_providers(alloc, self.as_ref(), definition)?;
        Ok(GlobalCredentialProviders { providers })
    }
}

// A copy of each provider, in their order.
fn copied_providers(
    alloc: Global,
    providers: &[CredentialProvider],
    definition: Option<&Definition>,
) -> Result<Vec<CredentialProvider>>
    ensures ok { IfOk result (λ copies.
        map setting_of_provider copies.items ≡ map (setting_set (origin_given definition.entry))
        (map setting_of_provider providers.now)) }
    ensures refused { IfErr result (λ e. e ≡ no_memory) }
{
    let mut copies = Vec::new(alloc);
    for provider in providers {
        copies.push(copied_provider(alloc, provider, definition)?)?;
    }
    Ok(copies)
}
