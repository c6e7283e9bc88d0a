//! A program with its arguments.
ghost use Rattle.std.specs.Prelude.{◌≡◌, ℕ, List, Ok, IfOk, IfErr};
ghost use Rattle.cc2_error.specs.Causes.{no_memory};
ghost use Rattle.cc2_value.specs.Copies.{origin_given};
ghost use Rattle.cc2_value.specs.Values.{words_of};
ghost use Rattle.cc2_value.specs.Ways.{IsFaultBehind};
ghost use Rattle.cc2_leaf.specs.Lists.{is_array};
ghost use Rattle.cc2_leaf.specs.Made.{faults_of};
ghost use Rattle.cc2_leaf.specs.Commands.{command_made, setting_of_command, AreWordsCopied};

use crate::config_relative_path::ConfigRelativePath;
use crate::listed::{Texts, read_texts};
use crate::read_env::{ReadEnv, spaced_by};
use crate::repr::{Repr, repr_of};
use crate::text_copies::{copied_text, copied_texts};
use crate::texts::first_and_rest;
use crate::words::send_words;
use cc2_error::error::{Error, ErrorKind, NoMemory, Result};
use cc2_value::{Decode, Definition, MergeFrom, TryClone, Value};
use serde::{Described, Serialize, Serializer};
use std::alloc::Global;

/// A program with its arguments, which remembers whether it came as one text or as an array (Cargo
/// Reference, Configuration,
/// [executable paths with arguments](https://doc.rust-lang.org/cargo/reference/config.html#executable-paths-with-arguments)).
#[derive(Debug, Drop)]
pub struct PathAndArgs {
    /// The program, as it was set.
    pub path: ConfigRelativePath,
    /// The arguments, without the program.
    pub args: Vec<Value<String>>,
    repr: Repr,
}

impl PathAndArgs {
    ghost use Rattle.std.specs.Prelude.{◌≡◌};
    ghost use Rattle.cc2_leaf.specs.Lists.{is_array};

    // The command of this path, with these arguments.
    pub(crate) fn of_words(path: Value<String>, args: Vec<Value<String>>, repr: Repr) -> PathAndArgs
        ensures { result ≡ record { path = record { value = path }; args = args; repr = repr } }
    {
        PathAndArgs {
            path: ConfigRelativePath::new(path),
            args,
            repr,
        }
    }

    /// The command of this program and these arguments, each with where it was set, which came as an array or as a
    /// text.
    pub fn of_values(path: Value<String>, args: Vec<Value<String>>, array: bool) -> PathAndArgs
        ensures path { result.path.value ≡ path }
        ensures args { result.args ≡ args }
        ensures array { is_array result.repr ≡ array }
    {
        PathAndArgs::of_words(path, args, repr_of(array))
    }

    /// Whether it came as an array, and not as a text.
    pub fn is_array(&self) -> bool
        ensures { result ≡ is_array self.now.repr }
    {
        matches!(self.repr, Repr::Array)
    }
}

/// The stronger takes precedence.
impl MergeFrom for PathAndArgs {
    ghost use Rattle.cc2_value.specs.Shown.{single_at};
    ghost use Rattle.cc2_leaf.specs.Commands.{setting_of_command};

    ghost cell_at = { single_at setting_of_command };

    #[tactic(auto, using(cc2_value::proofs::Gathers::single_gathered))]
    fn gather(&mut self, _alloc: Global, _low: &mut PathAndArgs) -> Result<()> {
        Ok(())
    }

    #[tactic(auto, using(cc2_value::proofs::Gathers::single_reversed))]
    fn reverse_lists(&mut self, _alloc: Global) -> std::result::Result<(), NoMemory> {
        Ok(())
    }

    #[tactic(auto, using(cc2_value::proofs::Gathers::single_unlisted))]
    fn has_lists() -> bool {
        false
    }
}

/// A text that is split at spaces, with at least one word.
impl ReadEnv for PathAndArgs {
    ghost use Rattle.cc2_leaf.specs.TextWays.{command_text_way};

    ghost text_way = { command_text_way };

    fn read_env(alloc: Global, text: &str, name: &str) -> Result<PathAndArgs> {
        let list = spaced_by(alloc, text, name)?;
        match command(Texts {
            list,
            repr: Repr::Text,
        }) {
            Ok(command) => Ok(command),
            Err(error) => Err(error),
        }
    }
}

/// A text that is split at spaces, or an array of texts, with at least one word.
impl Decode for PathAndArgs {
    ghost use Rattle.cc2_leaf.specs.Commands.{command_way};

    ghost way = { command_way };

    fn read(
        alloc: Global,
        value: toml::Value,
        key: &str,
        definition: Option<&Definition>,
    ) -> Result<PathAndArgs> {
        match read_texts(alloc, value, key, definition) {
            Ok(texts) => match command(texts) {
                Ok(command) => Ok(command),
                Err(error) => Err(error),
            },
            Err(error) => Err(error),
        }
    }
}

/// The command whose words these are; refused where there is none (Cargo Reference, Configuration,
/// [executable paths with arguments](https://doc.rust-lang.org/cargo/reference/config.html#executable-paths-with-arguments)).
pub fn command(texts: Texts) -> Result<PathAndArgs>
    ensures ok { IfOk result (λ c.
        command_made (is_array texts.repr) (words_of texts.list.items)
        ≡ Ok (setting_of_command c)) }
    ensures refused { IfErr result (λ e.
        (keys : List (List ℕ))
        → IsFaultBehind keys
        (faults_of (command_made (is_array texts.repr) (words_of texts.list.items))) e) }
{
    match first_and_rest(texts.list) {
        Some((path, args)) => Ok(PathAndArgs::of_words(path, args, texts.repr)),
        None => Err(Error::new(ErrorKind::EmptyCommand)),
    }
}

impl Described for PathAndArgs {}

/// As it came: a text with a space between each two words, or an array of texts.
impl Serialize for PathAndArgs {
    fn serialize<S: Serializer>(&self, out: &mut S) -> std::result::Result<(), S::Error> {
        send_words(
            &[self.path.raw_value()],
            self.args.as_slice(),
            self.repr,
            out,
        )
    }
}

impl TryClone for PathAndArgs {
    ghost use Rattle.cc2_value.specs.Shown.{single_at};
    ghost use Rattle.cc2_leaf.specs.Commands.{setting_of_command};

    ghost shown = { single_at setting_of_command };

    fn copied(&self, alloc: Global, definition: Option<&Definition>) -> Result<PathAndArgs> {
        Ok(copied_command(alloc, self, definition)?)
    }
}

/// A copy of a command, word by word.
pub fn copied_command(
    alloc: Global,
    command: &PathAndArgs,
    definition: Option<&Definition>,
) -> Result<PathAndArgs>
    ensures ok { IfOk result (AreWordsCopied (origin_given definition.entry) command.now) }
    ensures refused { IfErr result (λ e. e ≡ no_memory) }
{
    let path = copied_text(alloc, command.path.value(), definition)?;
    let args = copied_texts(alloc, command.args.as_slice(), definition)?;
    Ok(PathAndArgs::of_words(path, args, command.repr))
}
