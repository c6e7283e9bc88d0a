//! Values that are one cell, as JSON.
ghost use Rattle.std.specs.Prelude.{◌≡◌, ◌∷◌, [], false, codes, Some, IfOk, option_map, if◌then◌else◌};
ghost use Rattle.serde_json.specs.View.{view};
ghost use Rattle.cc2_value.specs.Cells.{Cell, Single, Text, Items, KeyPath, is_entry};
ghost use Rattle.cc2_value.specs.Rows.{texts_of};
ghost use Rattle.cc2_value.specs.Shown.{leaf_at};
ghost use Rattle.cc2_value.specs.Values.{word_of, words_of};
ghost use Rattle.cc2_leaf.specs.Providers as providers;
ghost use Rattle.cc2_json.specs.Forms.{cell_data, setting_data, placed, first_origin, command_texts, provider_texts};

use crate::Json;
use crate::form::Form;
use crate::origin::placed;
use crate::plain::PlainJson;
use crate::words::{items, push_texts, words_json};
use cc2_leaf::{
    CredentialProvider, CredentialProviderKind, Flags, MergeFrom, PathAndArgs, StringList,
    StringOrArray, Value,
};
use std::alloc::{AllocError, Global};

/// A value that is one cell, at the value itself.
pub trait Leaf: MergeFrom {
    /// The cell.
    ghost cell: { Self → Cell };

    /// The cell as JSON.
    fn leaf(&self, alloc: Global, form: Form) -> Result<Json, AllocError>
        ensures { IfOk result (λ json. Some (view json) ≡ cell_data form.origins (cell self.now)) };

    /// It shows that cell and nothing else.
    ghost alone: { (a : Self) (p : KeyPath) → Self.MergeFrom.cell_at a p ≡ leaf_at cell a p };

    /// The cell isn't a table.
    ghost no_table: { (a : Self) → is_entry (cell a) ≡ false };
}

impl<T: PlainJson> Leaf for Value<T> {
    ghost use Rattle.std.specs.Prelude.{refl};
    ghost use Rattle.cc2_value.specs.Values.{setting_of};

    ghost cell = { λ v. Single (setting_of T.payload v) };

    ghost alone = { λ a p. refl };

    ghost no_table = { λ a. refl };

    fn leaf(&self, alloc: Global, form: Form) -> Result<Json, AllocError> {
        let value = self.val.plain_json(alloc)?;
        placed(alloc, form, &self.definition, value)
    }
}

impl Leaf for StringOrArray {
    ghost use Rattle.std.specs.Prelude.{refl};
    ghost use Rattle.cc2_leaf.specs.Wholes.{whole_cell};
    ghost use Rattle.cc2_json.specs.CellLaws.{whole_kept};

    ghost cell = { whole_cell };

    ghost alone = { λ a p. refl };

    ghost no_table = { whole_kept };

    fn leaf(&self, alloc: Global, form: Form) -> Result<Json, AllocError> {
        match self {
            StringOrArray::String(text) => text_json(alloc, form, text),
            StringOrArray::Array(texts) => Ok(Json::Array(items(alloc, form, texts.as_slice())?)),
        }
    }
}

impl Leaf for Flags {
    ghost use Rattle.std.specs.Prelude.{refl};
    ghost use Rattle.cc2_leaf.specs.Lists.{texts_cell, texts_as};
    ghost use Rattle.cc2_json.specs.CellLaws.{words_kept};

    ghost cell = { λ f. texts_cell (texts_as f.repr f.flags) };

    ghost alone = { λ a p. refl };

    ghost no_table = { λ f. words_kept f.repr _ };

    fn leaf(&self, alloc: Global, form: Form) -> Result<Json, AllocError> {
        list_json(alloc, form, self.is_array(), self.flags.as_slice())
    }
}

impl Leaf for StringList {
    ghost use Rattle.std.specs.Prelude.{refl};
    ghost use Rattle.cc2_leaf.specs.Lists.{texts_cell, texts_as};
    ghost use Rattle.cc2_json.specs.CellLaws.{words_kept};

    ghost cell = { λ l. texts_cell (texts_as l.repr l.list) };

    ghost alone = { λ a p. refl };

    ghost no_table = { λ l. words_kept l.repr _ };

    fn leaf(&self, alloc: Global, form: Form) -> Result<Json, AllocError> {
        list_json(alloc, form, self.is_array(), self.list.as_slice())
    }
}

impl Leaf for PathAndArgs {
    ghost use Rattle.std.specs.Prelude.{refl};
    ghost use Rattle.cc2_leaf.specs.Commands.{setting_of_command};

    ghost cell = { λ c. Single (setting_of_command c) };

    ghost alone = { λ a p. refl };

    ghost no_table = { λ a. refl };

    fn leaf(&self, alloc: Global, form: Form) -> Result<Json, AllocError> {
        let words = command_words(alloc, self)?;
        let value = words_json(alloc, self.is_array(), words.as_slice())?;
        placed(alloc, form, &self.path.value().definition, value)
    }
}

impl Leaf for CredentialProvider {
    ghost use Rattle.std.specs.Prelude.{refl};
    ghost use Rattle.cc2_leaf.specs.Providers.{setting_of_provider};

    ghost cell = { λ c. Single (setting_of_provider c) };

    ghost alone = { λ a p. refl };

    ghost no_table = { λ a. refl };

    fn leaf(&self, alloc: Global, form: Form) -> Result<Json, AllocError> {
        provider_json(alloc, form, self)
    }
}

/// A provider of credentials.
pub fn provider_json(
    alloc: Global,
    form: Form,
    provider: &CredentialProvider,
) -> Result<Json, AllocError>
    ensures { IfOk result (λ json.
        view json ≡ setting_data form.origins (providers.setting_of_provider provider.now)) }
{
    let words = provider_words(alloc, &provider.kind)?;
    let value = words_json(alloc, provider.is_array(), words.as_slice())?;
    placed_as(alloc, form, &provider.kind, value)
}

/// A text of one word.
pub fn text_json(alloc: Global, form: Form, text: &Value<String>) -> Result<Json, AllocError>
    ensures { IfOk result (λ json.
        Some (view json) ≡ cell_data form.origins (Text (word_of text.now ∷ []))) }
{
    let words = [text.val.as_str()];
    let value = words_json(alloc, false, words.as_slice())?;
    placed(alloc, form, &text.definition, value)
}

// A list of words: an array, or one text.
fn list_json(
    alloc: Global,
    form: Form,
    is_array: bool,
    list: &[Value<String>],
) -> Result<Json, AllocError>
    ensures { IfOk result (λ json. Some (view json)
        ≡ cell_data form.origins
        (if is_array then Items (words_of list.now) else Text (words_of list.now))) }
{
    if is_array {
        Ok(Json::Array(items(alloc, form, list)?))
    } else {
        spaced_json(alloc, form, list)
    }
}

// A list of words as one text.
fn spaced_json(alloc: Global, form: Form, list: &[Value<String>]) -> Result<Json, AllocError>
    ensures { IfOk result (λ json.
        Some (view json) ≡ cell_data form.origins (Text (words_of list.now))) }
{
    let mut words = Vec::new(alloc);
    push_texts(&mut words, list)?;
    let value = words_json(alloc, false, words.as_slice())?;
    placed_first(alloc, form, list, value)
}

// A value, set where the first word was.
fn placed_first(
    alloc: Global,
    form: Form,
    list: &[Value<String>],
    value: Json,
) -> Result<Json, AllocError>
    ensures { IfOk result (λ json.
        view json ≡ placed form.origins (first_origin (words_of list.now)) (view value)) }
{
    match list.first() {
        Some(word) => placed(alloc, form, &word.definition, value),
        None => placed(alloc, form, &None, value),
    }
}

// The words of a command: its program and its arguments.
fn command_words(alloc: Global, command: &PathAndArgs) -> Result<Vec<&str>, AllocError>
    ensures { IfOk result (λ words. texts_of words.items
        ≡ command_texts (word_of command.now.path.value) (words_of command.now.args.items)) }
{
    let mut words = Vec::new(alloc);
    words.push(command.path.raw_value())?;
    push_texts(&mut words, command.args.as_slice())?;
    Ok(words)
}

// The words of a provider: its name, and its arguments or its command.
fn provider_words(alloc: Global, kind: &CredentialProviderKind) -> Result<Vec<&str>, AllocError>
    ensures { IfOk result (λ words.
        texts_of words.items ≡ provider_texts (providers.provider_of kind.now)) }
{
    match kind {
        CredentialProviderKind::CargoToken => one_word(alloc, "cargo:token"),
        CredentialProviderKind::CargoWincred => one_word(alloc, "cargo:wincred"),
        CredentialProviderKind::CargoMacosKeychain => one_word(alloc, "cargo:macos-keychain"),
        CredentialProviderKind::CargoLibsecret => one_word(alloc, "cargo:libsecret"),
        CredentialProviderKind::CargoTokenFromStdout(command) => stdout_words(alloc, command),
        CredentialProviderKind::Plugin(command) => command_words(alloc, command),
        CredentialProviderKind::MaybeAlias(name) => one_word(alloc, name.val.as_str()),
    }
}

fn one_word(alloc: Global, word: &str) -> Result<Vec<&str>, AllocError>
    ensures { IfOk result (λ words. texts_of words.items ≡ word.now ∷ []) }
{
    let mut words = Vec::new(alloc);
    words.push(word)?;
    Ok(words)
}

// The words of a command that writes the token.
fn stdout_words(alloc: Global, command: &PathAndArgs) -> Result<Vec<&str>, AllocError>
    ensures { IfOk result (λ words. texts_of words.items ≡ codes "cargo:token-from-stdout"
        ∷ command_texts (word_of command.now.path.value) (words_of command.now.args.items)) }
{
    let mut words = Vec::new(alloc);
    words.push("cargo:token-from-stdout")?;
    words.push(command.path.raw_value())?;
    push_texts(&mut words, command.args.as_slice())?;
    Ok(words)
}

// A value, set where the words that a provider keeps were; nowhere where it keeps none.
fn placed_as(
    alloc: Global,
    form: Form,
    kind: &CredentialProviderKind,
    value: Json,
) -> Result<Json, AllocError>
    ensures { IfOk result (λ json. view json
        ≡ placed form.origins (providers.provider_origin (providers.provider_of kind.now))
        (view value)) }
{
    match kind {
        CredentialProviderKind::CargoToken
        | CredentialProviderKind::CargoWincred
        | CredentialProviderKind::CargoMacosKeychain
        | CredentialProviderKind::CargoLibsecret => placed(alloc, form, &None, value),
        CredentialProviderKind::CargoTokenFromStdout(command)
        | CredentialProviderKind::Plugin(command) => {
            placed(alloc, form, &command.path.value().definition, value)
        }
        CredentialProviderKind::MaybeAlias(name) => placed(alloc, form, &name.definition, value),
    }
}
