//! Reading one file.
ghost use Rattle.std.specs.Prelude.{◌≡◌, ◌⊎◌, ℕ, List, IfOk, OnOk, IfErr, Some, None};
ghost use Rattle.toml.specs.Parse.{parse_document};
ghost use Rattle.toml.specs.View.{table_view};
ghost use Rattle.cc2_error.specs.Causes.{refusal_of, plain, memory, refused_text, in_context, read_cause};
ghost use Rattle.cc2_base.specs.Told.{WhereTold};
ghost use Rattle.cc2_value.specs.Cells.{KeyPath};
ghost use Rattle.cc2_value.specs.Values.{origin_of};
ghost use Rattle.cc2_de.specs.Config.{config_at};
ghost use Rattle.cc2_de.specs.ConfigFile.{IsConfig, IsFileCause, file_at};
ghost use Rattle.cc2_de.specs.ConfigText.{IsOfText, IsTextCause};
ghost use Rattle.cc2_de.specs.Contexts.{read_line};
ghost use Rattle.cc2_de.specs.LoadedFiles.{IsOfFile, IsOfFileAs};

use crate::config::Config;
use crate::context::{parsing, reading};
use cc2_base::files::{Files, ReadFault};
use cc2_error::error::{Error, ErrorKind, NoMemory, ParseCause, ReadCause, Result};
use cc2_leaf::Definition;
use std::alloc::Global;

impl Config {
    /// Reads the file at a path; each value is defined by the path (Cargo Reference, Configuration,
    /// [configuration format](https://doc.rust-lang.org/cargo/reference/config.html#configuration-format)).
    ///
    /// # Errors
    /// - `ErrorKind::ReadFile` where the file can't be read or isn't UTF-8;
    /// - `ErrorKind::ParseFile` where it is no TOML or has a value of a wrong type;
    /// - `ErrorKind::EmptyCommand`, `ProviderArgs` or `ProviderNoCommand` of a command or a provider
    ///   in it;
    /// - `ErrorKind::Memory` where memory ran out.
    pub fn load_file<F: Files>(alloc: Global, path: &str, files: &F) -> Result<Config>
        ensures ok { WhereTold (F.told files.now) (λ fs. IfOk result (λ config.
            IsConfig fs path.now × ((p : KeyPath) → config_at config p ≡ file_at fs path.now p))) }
        ensures refused { WhereTold (F.told files.now) (λ fs. IfErr result (λ e.
            (refusal_of e ≡ plain memory) ⊎ IsFileCause fs path.now (refusal_of e))) }
    {
        let mut config = Config::empty(alloc);
        match read_file(alloc, &mut config, path, files) {
            Ok(()) => Ok(config),
            Err(error) => Err(error),
        }
    }
}

/// Reads the file at a path in place of what a configuration has, each value with the path.
pub(crate) fn read_file<F: Files>(
    alloc: Global,
    config: &mut Config,
    path: &str,
    files: &F,
) -> Result<()>
    ensures ok { WhereTold (F.told files.now) (λ fs.
        OnOk result (IsOfFile fs path.now config.new)) }
    ensures refused { WhereTold (F.told files.now) (λ fs. IfErr result (λ e.
        (refusal_of e ≡ plain memory) ⊎ IsFileCause fs path.now (refusal_of e))) }
{
    let definition = Definition::Path(String::from_str(alloc, path)?);
    read_file_as(alloc, config, path, &definition, files)
}

/// The same, each value set where the definition says.
#[inline(never)]
pub(crate) fn read_file_as<F: Files>(
    alloc: Global,
    config: &mut Config,
    path: &str,
    definition: &Definition,
    files: &F,
) -> Result<()>
    ensures ok { WhereTold (F.told files.now) (λ fs. OnOk result
        (IsOfFileAs fs path.now (origin_of definition.now) config.new)) }
    ensures refused { WhereTold (F.told files.now) (λ fs. IfErr result (λ e.
        (refusal_of e ≡ plain memory) ⊎ IsFileCause fs path.now (refusal_of e))) }
{
    let bytes = match files.read(alloc, path) {
        Ok(bytes) => bytes,
        Err(ReadFault::Memory) => return Err(Error::new(ErrorKind::Memory)),
        Err(ReadFault::Unreadable) => return Err(unread(alloc, path, ReadCause::Unreadable)),
    };
    let text = match std::str::from_utf8(bytes.as_slice()) {
        Ok(text) => text,
        Err(_) => return Err(unread(alloc, path, ReadCause::NotText)),
    };
    match read_text(alloc, config, text, definition) {
        Ok(()) => Ok(()),
        Err(error) => Err(parsing(alloc, path, error)),
    }
}

/// Reads a text in place of what a configuration has, each value set where the definition says. A refusal has
/// no line.
#[inline(never)]
pub(crate) fn read_text(
    alloc: Global,
    config: &mut Config,
    text: &str,
    definition: &Definition,
) -> Result<()>
    ensures ok { OnOk result (IsOfText text.now (origin_of definition.now) config.new) }
    ensures refused { IfErr result (λ e.
        (refusal_of e ≡ plain memory) ⊎ IsTextCause text.now (refusal_of e)) }
{
    let table = parse(alloc, text)?;
    config.read_members(alloc, table, Some(definition))
}

// The refusal of a file that wasn't read.
fn unread(alloc: Global, path: &str, cause: ReadCause) -> Error
    ensures { (refusal_of result ≡ plain memory)
        ⊎ (refusal_of result ≡ in_context (read_line path.now) (plain (read_cause cause))) }
{
    reading(alloc, path, Error::new(ErrorKind::ReadFile(cause)))
}

// The table of a text.
fn parse(alloc: Global, text: &str) -> Result<toml::Table>
    ensures ok { IfOk result (λ table. parse_document text.now ≡ Some (table_view table)) }
    ensures refused { IfErr result (λ e.
        (refusal_of e ≡ plain memory) ⊎ ((parse_document text.now ≡ None) × ((message : List ℕ)
        × (refusal_of e ≡ plain (refused_text message))))) }
{
    match toml::table_from_str(alloc, text) {
        Ok(table) => Ok(table),
        Err(error) => {
            if error.is_memory() {
                return Err(Error::new(ErrorKind::Memory));
            }
            let text = message(alloc, &error)?;
            Err(Error::new(ErrorKind::ParseFile(ParseCause::Refused { text })))
        }
    }
}

// The text of the TOML reader's refusal, without the line break at its end.
fn message(alloc: Global, error: &toml::de::Error) -> std::result::Result<String, NoMemory> {
    let text = format!(in alloc; "{error}")?;
    Ok(String::from_str(alloc, text.trim_end())?)
}
