//! Why files aren't loaded, as it is printed.
ghost use Rattle.std.specs.Prelude.{◌≡◌, ◌<◌, IfOk, string_bytes};
ghost use Rattle.cc2_error.specs.Causes.{cause_of, plain, refusal_of, in_context, refused_text};
ghost use Rattle.cc2_value.specs.Values.{origin_of};
ghost use Rattle.cargo_rules.specs.Messages as spec;

use cc2_cargo::{FileFault, IncludeFault, LayerFault, LoadFault, OverrideFault};
use cc2_error::error::{Error, ErrorKind, NoMemory, ParseCause, ReadCause};
use cc2_value::Definition;
use std::alloc::Global;

type Composed = std::result::Result<Error, NoMemory>;

type Text = std::result::Result<String, NoMemory>;

/// The error that is printed of a fault.
///
/// # Errors
/// `NoMemory` where memory ran out.
pub(crate) fn composed(alloc: Global, fault: LoadFault) -> Composed
    ensures { IfOk result (λ error. refusal_of error ≡ spec.refusal_for fault) }
{
    match fault {
        LoadFault::File(fault) => of_file(alloc, fault),
        LoadFault::Override(text, fault) => {
            let error = rejected(override_text(alloc, fault)?);
            of_override(alloc, text.as_str(), error)
        }
        LoadFault::OverrideInclude(text, fault) => {
            let error = rejected(include_text(alloc, fault)?);
            of_override(alloc, text.as_str(), error)
        }
        LoadFault::Layer(fault) => of_layer(alloc, fault),
    }
}

// Why a file isn't read.
fn of_file(alloc: Global, fault: FileFault) -> Composed
    ensures { IfOk result (λ error. refusal_of error ≡ spec.of_file fault) }
{
    match fault {
        FileFault::Unreadable(path) => reading(alloc, path.as_str(), ReadCause::Unreadable),
        FileFault::NotText(path) => reading(alloc, path.as_str(), ReadCause::NotText),
        FileFault::NoToml(path, message) => parsing(alloc, path.as_str(), rejected(message)),
        FileFault::Include(path, fault) => {
            let text = include_text(alloc, fault)?;
            parsing(alloc, path.as_str(), rejected(text))
        }
        FileFault::Twice(path) => {
            let path = path.as_str();
            Ok(rejected(format!(in alloc; "`{path}` is included more than once")?))
        }
        FileFault::Memory => Err(NoMemory),
    }
}

// Why an override that is a text isn't read.
fn of_override(alloc: Global, text: &str, error: Error) -> Composed
    ensures { IfOk result (λ outer. refusal_of outer
        ≡ in_context (spec.bad_override_line text.now) (refusal_of error)) }
{
    let key = key_of(text);
    let line = format!(in alloc; "failed to parse `--config {key}` as cargo configuration")?;
    Ok(error.with_context(line))
}

// The key of a text `KEY = VALUE`, without the value, which may be a secret.
fn key_of(text: &str) -> &str
    ensures { result.now ≡ spec.key_of text.now }
{
    front_before(front_before(front_before(text, '='), ' '), '\n')
}

// What is before the first such character of a text; all of it where there is none.
fn front_before(text: &str, end: char) -> &str
    requires { end < 128 }
    ensures { result.now ≡ spec.front_before text.now end }
{
    match text.split_once(end) {
        Some((front, _)) => front,
        None => text,
    }
}

// What is wrong with such a text.
fn override_text(alloc: Global, fault: OverrideFault) -> Text
    ensures { IfOk result (λ text. string_bytes text ≡ spec.override_text fault) }
{
    match fault {
        OverrideFault::NoToml(message) => Ok(message),
        OverrideFault::NoDottedKey => Ok(String::from_str(
            alloc,
            "it must be one dotted key with a value, such as `build.jobs = 2`",
        )?),
        OverrideFault::Comment => Ok(String::from_str(
            alloc,
            "it must have no comment before the key or after the value",
        )?),
        OverrideFault::InlineTable => Ok(String::from_str(
            alloc,
            "its value must not be an inline table",
        )?),
        OverrideFault::Secret => Ok(String::from_str(
            alloc,
            "a token or a secret key of a registry can't be set on the command line",
        )?),
        OverrideFault::Memory => Err(NoMemory),
    }
}

// Why layers don't merge.
fn of_layer(alloc: Global, fault: LayerFault) -> Composed
    ensures { IfOk result (λ error. refusal_of error ≡ spec.of_layer fault) }
{
    match fault {
        LayerFault::Value(definition, error) => parsing(alloc, definition_name(&definition), error),
        LayerFault::Mixed(definition, error) => {
            let line = mixed_line(alloc, definition_name(&definition), &error)?;
            Ok(error.with_context(line))
        }
        LayerFault::Memory => Err(NoMemory),
    }
}

// What a line calls the place where a layer is set.
fn definition_name(definition: &Definition) -> &str
    ensures { result.now ≡ spec.definition_name (origin_of definition.now) }
{
    match definition {
        Definition::Path(path) => path.as_str(),
        Definition::Environment(name) => name.as_str(),
        Definition::Cli(Some(path)) => path.as_str(),
        Definition::Cli(None) => "--config",
    }
}

// What the reader of TOML or of `include` says.
fn rejected(text: String) -> Error
    ensures { refusal_of result ≡ plain (refused_text (string_bytes text)) }
{
    Error::new(ErrorKind::ParseFile(ParseCause::Refused { text }))
}

fn reading(alloc: Global, path: &str, cause: ReadCause) -> Composed
    ensures { IfOk result (λ error. refusal_of error
        ≡ in_context (spec.reading_line path.now) (plain (spec.cause_of_reading cause))) }
{
    let error = Error::new(ErrorKind::ReadFile(cause));
    Ok(error.with_context(format!(in alloc; "failed to read `{path}`")?))
}

fn parsing(alloc: Global, path: &str, error: Error) -> Composed
    ensures { IfOk result (λ outer. refusal_of outer
        ≡ in_context (spec.parsing_line path.now) (refusal_of error)) }
{
    let line = format!(in alloc; "failed to parse `{path}` as cargo configuration")?;
    Ok(error.with_context(line))
}

// Which key of which file doesn't merge.
fn mixed_line(alloc: Global, path: &str, error: &Error) -> Text
    ensures { IfOk result (λ line.
        string_bytes line ≡ spec.mixed_line path.now (refusal_of error.now).cause) }
{
    let key = mixed_key(alloc, error.kind())?;
    let key = key.as_str();
    Ok(format!(in alloc; "failed to merge `{key}` of `{path}` with files of lower precedence")?)
}

// The key at which two values don't merge.
fn mixed_key(alloc: Global, kind: &ErrorKind) -> Text
    ensures { IfOk result (λ key. string_bytes key ≡ spec.mixed_key (cause_of kind.now)) }
{
    match kind {
        ErrorKind::Merge { path, .. } => Ok(path.as_slice().join(alloc, ".")?),
        _ => Ok(String::new(alloc)),
    }
}

// What is wrong with an `include`.
fn include_text(alloc: Global, fault: IncludeFault) -> Text
    ensures { IfOk result (λ text. string_bytes text ≡ spec.include_text fault) }
{
    match fault {
        IncludeFault::NoArray => Ok(String::from_str(alloc, "`include` must be an array")?),
        IncludeFault::WrongType(index) => {
            let item = numbered(index)?;
            Ok(format!(in alloc;
                "item {item} of `include` must be a path, or a table with a `path`"
            )?)
        }
        IncludeFault::WrongPath(index) => {
            let item = numbered(index)?;
            Ok(format!(in alloc; "item {item} of `include` must be the path of one `.toml` file")?)
        }
        IncludeFault::Memory => Err(NoMemory),
    }
}

// The number of the item at an index. No array has so many that there is none.
fn numbered(index: usize) -> Result<usize, NoMemory>
    ensures { IfOk result (λ number. number ≡ spec.item_number index) }
{
    match index.checked_add(1) {
        Some(number) => Ok(number),
        None => Err(NoMemory),
    }
}
