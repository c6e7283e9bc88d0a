//! What `--config` takes as text: one dotted key with a value, as Cargo 1.95 reads it.
ghost use Rattle.std.specs.Prelude.{◌≡◌, ◌⊎◌, ◌==◌, ◌<◌, ℕ, List, [], ◌∷◌, length, option_map, is_some, IfOk, IfErr, MatchOption, Some, None};
ghost use Rattle.std.specs.List.{after_first, before_first, position_or_len};
ghost use Rattle.toml.specs.View.{table_view, view};
ghost use Rattle.toml.specs.Parse.{parse_document};
ghost use Rattle.cc2_cargo.specs.Dotted as spec;
ghost use Rattle.cc2_cargo.specs.Dotted.{IsAccepted, IsOverrideFault, IsRefused};
ghost use Rattle.cc2_cargo.specs.declared.dotted.OverrideFault.TheVariants as fault;

use crate::expand::message;
use cc2_error::error::NoMemory;
use std::alloc::{AllocError, Global};

/// Why a text is no override.
#[derive(Debug, Drop)]
pub enum OverrideFault {
    /// It is no TOML, with the reader's message.
    NoToml(String),
    /// It isn't one dotted key with a value.
    NoDottedKey,
    /// It has a comment before the key, or after the value in its line.
    Comment,
    /// Its value is an inline table.
    InlineTable,
    /// Its key is a token or a secret key of a registry.
    Secret,
    /// Memory ran out.
    Memory,
}

impl From<AllocError> for OverrideFault {
    ghost from_gives = { λ _ why. why ≡ fault.Memory };

    fn from(_error: AllocError) -> OverrideFault {
        OverrideFault::Memory
    }
}

impl From<NoMemory> for OverrideFault {
    ghost from_gives = { λ _ why. why ≡ fault.Memory };

    fn from(_error: NoMemory) -> OverrideFault {
        OverrideFault::Memory
    }
}

/// The table of an override that is a text: one dotted key with a value, as `build.jobs = 2` (Cargo Reference,
/// Configuration,
/// [command-line overrides](https://doc.rust-lang.org/cargo/reference/config.html#command-line-overrides)).
///
/// # Errors
/// The first of these:
/// - `OverrideFault::NoToml` where the text is no TOML;
/// - `OverrideFault::Comment` where a comment comes before the key;
/// - `OverrideFault::NoDottedKey` where the text doesn't begin with a key, as a table header;
/// - `OverrideFault::InlineTable` where the value is an inline table;
/// - `OverrideFault::NoDottedKey` where there are several keys;
/// - `OverrideFault::Comment` where a comment comes after the value in its line;
/// - `OverrideFault::Secret` where the key begins with `registry.token`, `registry.secret-key`, `registries.NAME.token` or
///   `registries.NAME.secret-key`;
/// - `OverrideFault::Memory` where memory ran out.
pub fn read_override(alloc: Global, text: &str) -> Result<toml::Table, OverrideFault>
    ensures ok { IfOk result (λ table. IsAccepted text.now (table_view table)) }
    ensures refused { IfErr result (λ why.
        (why ≡ fault.Memory) ⊎ IsOverrideFault text.now why) }
{
    let table = parsed(alloc, text)?;
    match reason_of(alloc, text, &table)? {
        None => Ok(table),
        Some(reason) => Err(fault_of(reason)),
    }
}

// Why a text that is TOML is no override.
#[derive(Clone, Copy, Debug, PartialEq, Eq)]
enum Reason {
    NoDottedKey,
    Comment,
    InlineTable,
    Secret,
}

// A part of an override's text.
#[derive(Clone, Copy, Debug, PartialEq, Eq)]
enum Part {
    // The key: an equals sign follows it.
    Key,
    // The value: a line break may follow it.
    Value,
}

fn fault_of(reason: Reason) -> OverrideFault
    ensures { (text : List ℕ) → IsRefused text reason → IsOverrideFault text result }
{
    match reason {
        Reason::NoDottedKey => OverrideFault::NoDottedKey,
        Reason::Comment => OverrideFault::Comment,
        Reason::InlineTable => OverrideFault::InlineTable,
        Reason::Secret => OverrideFault::Secret,
    }
}

// The table of a text.
fn parsed(alloc: Global, text: &str) -> Result<toml::Table, OverrideFault>
    ensures ok { IfOk result (λ table. parse_document text.now ≡ Some (table_view table)) }
    ensures refused { IfErr result (λ why. (why ≡ fault.Memory)
        ⊎ IsOverrideFault text.now why) }
{
    match toml::table_from_str(alloc, text) {
        Ok(table) => Ok(table),
        Err(error) => {
            if error.is_memory() {
                return Err(OverrideFault::Memory);
            }
            Err(OverrideFault::NoToml(message(alloc, &error)?))
        }
    }
}

// The first reason against a text, which has this table.
fn reason_of(alloc: Global, text: &str, table: &toml::Table) -> Result<Option<Reason>, NoMemory>
    ensures { IfOk result (λ reason.
        reason ≡ spec.reason_of text.now (table_view table.now)) }
{
    if begins_with(text.trim_start(), b'#') {
        return Ok(Some(Reason::Comment));
    }
    match after_part(alloc, Part::Key, text)? {
        Some(value) => reason_of_value(alloc, value, table),
        None => Ok(Some(Reason::NoDottedKey)),
    }
}

// The same by the value's text.
fn reason_of_value(
    alloc: Global,
    value: &str,
    table: &toml::Table,
) -> Result<Option<Reason>, NoMemory>
    ensures { IfOk result (λ reason.
        reason ≡ spec.reason_of_value value.now (table_view table.now)) }
{
    if begins_with(value.trim_start(), b'{') {
        return Ok(Some(Reason::InlineTable));
    }
    if !is_chain(table) {
        return Ok(Some(Reason::NoDottedKey));
    }
    if !ends_line(alloc, value)? {
        return Ok(Some(Reason::Comment));
    }
    Ok(if is_secret(table) {
        Some(Reason::Secret)
    } else {
        None
    })
}

// Whether a text begins with this byte.
fn begins_with(text: &str, byte: u8) -> bool
    ensures { result ≡ spec.begins_with byte text.now }
{
    match text.as_bytes().first() {
        Some(first) => *first == byte,
        None => false,
    }
}

// Whether nothing but blank space follows the value in its line.
fn ends_line(alloc: Global, value: &str) -> Result<bool, NoMemory>
    ensures { IfOk result (λ ends. ends ≡ spec.ends_line value.now) }
{
    if is_part(alloc, Part::Value, value)? {
        return Ok(true);
    }
    Ok(after_part(alloc, Part::Value, value)?.is_some())
}

// What follows the first such part of a text, and the byte that ends it.
fn after_part(alloc: Global, part: Part, text: &str) -> Result<Option<&str>, NoMemory>
    ensures { IfOk result (λ rest. option_map (λ r. r.now) rest
        ≡ spec.after_part part [] text.now) }
{
    let mut front = String::new(alloc);
    let mut rest = text;
    'parts: while let Some((more, left)) = cut(part, rest) {
        front.push_str(more)?;
        if is_part(alloc, part, front.as_str())? {
            return Ok(Some(left));
        }
        front.push_str(end_of(part))?;
        rest = left;
    }
    Ok(None)
}

// A text before and after the first byte that may end such a part.
fn cut(part: Part, text: &str) -> Option<(&str, &str)>
    ensures { MatchOption result (position_or_len (λ b. b == spec.end_of part) text.now
        ≡ length text.now) (λ x. (x.0.now ≡ before_first (λ b. b == spec.end_of part) text.now)
        × (x.1.now ≡ after_first (λ b. b == spec.end_of part) text.now)
        × (position_or_len (λ b. b == spec.end_of part) text.now < length text.now)) }
{
    match part {
        Part::Key => text.split_once('='),
        Part::Value => text.split_once('\n'),
    }
}

// The byte that ends such a part.
fn end_of(part: Part) -> &'static str
    ensures { result.now ≡ spec.end_of part ∷ [] }
{
    match part {
        Part::Key => "=",
        Part::Value => "\n",
    }
}

// Whether a text is such a part: a key of an inline table, or a value of an array.
fn is_part(alloc: Global, part: Part, text: &str) -> Result<bool, NoMemory>
    ensures { IfOk result (λ is. is ≡ spec.is_part part text.now) }
{
    match part {
        Part::Key => is_toml_between(alloc, "v = {", text, " = 0}"),
        Part::Value => is_toml_between(alloc, "v = [", text, "]"),
    }
}

// Whether a text between two others is TOML.
fn is_toml_between(alloc: Global, before: &str, text: &str, after: &str) -> Result<bool, NoMemory>
    ensures { IfOk result (λ is.
        is ≡ spec.is_toml_between before.now after.now text.now) }
{
    let text = text.trim();
    let whole = format!(in alloc; "{before}{text}{after}")?;
    is_toml(alloc, whole.as_str())
}

// Whether a text is TOML.
fn is_toml(alloc: Global, text: &str) -> Result<bool, NoMemory>
    ensures { IfOk result (λ is. is ≡ is_some (parse_document text.now)) }
{
    match toml::table_from_str(alloc, text) {
        Ok(_) => Ok(true),
        Err(error) => {
            if error.is_memory() {
                return Err(NoMemory);
            }
            Ok(false)
        }
    }
}

// Whether each table has one member, down to a value that is no table.
#[cycle(chain)]
fn is_chain(table: &toml::Table) -> bool
    ensures { result ≡ spec.is_chain (table_view table.now) }
{
    table.len() == 1 && are_chains(table)
}

// Whether each member ends such a chain.
#[cycle(chain)]
fn are_chains(table: &toml::Table) -> bool
    ensures { result ≡ spec.are_chains (table_view table.now) }
{
    for (_, value) in table.iter() {
        if !ends_chain(value) {
            return false;
        }
    }
    true
}

// Whether a value ends such a chain, by itself or below.
#[cycle(chain)]
fn ends_chain(value: &toml::Value) -> bool
    ensures { result ≡ spec.ends_chain (view value.now) }
{
    match value {
        toml::Value::Table(table) => is_chain(table),
        _ => true,
    }
}

// Whether the key is a token or a secret key of a registry.
fn is_secret(table: &toml::Table) -> bool
    ensures { result ≡ spec.is_secret (table_view table.now) }
{
    holds_secret(table.get("registry")) || any_holds_secret(table.get("registries"))
}

// Whether a registry has one.
fn holds_secret(registry: Option<&toml::Value>) -> bool
    ensures { result ≡ spec.holds_secret (option_map (λ v. view v.now) registry.entry) }
{
    match registry {
        Some(registry) => {
            registry.get("token").is_some() || registry.get("secret-key").is_some()
        }
        None => false,
    }
}

// Whether one of the registries has one.
fn any_holds_secret(registries: Option<&toml::Value>) -> bool
    ensures { result ≡ spec.any_holds_secret (option_map (λ v. view v.now) registries.entry) }
{
    match registries {
        Some(toml::Value::Table(table)) => one_holds_secret(table),
        _ => false,
    }
}

fn one_holds_secret(table: &toml::Table) -> bool
    ensures { result ≡ spec.one_holds_secret (table_view table.now) }
{
    for (_, registry) in table.iter() {
        if holds_secret(Some(registry)) {
            return true;
        }
    }
    false
}
