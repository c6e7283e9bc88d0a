//! Environment variables that are consulted as text, and what is shown of those that are none.
ghost use Rattle.std.specs.Prelude.{◌≡◌, ◌<◌, ◌/◌, ◌%◌, [], ◌∷◌, ◌++◌, IfOk, OnOk, string_bytes};
ghost use Rattle.cc2_error.specs.Causes.{refusal_of};
ghost use Rattle.cc2_base.specs.EnvTexts.{variable_context, not_text_refusal, env_text_of};
ghost use Rattle.cc2_error.specs.Outcomes.{Gives};
ghost use Rattle.cc2_base.specs.ShownValue.{is_token_name, hex_digit_of, shown_byte, shown_of};

use cc2_error::error::{Error, ErrorKind, NoMemory};
use std::alloc::Global;

/// The text of a consulted variable of this name.
///
/// # Errors
/// `ErrorKind::EnvNotText` where the value is not UTF-8; the context then names the variable.
/// `Memory` where the refusal's texts find no memory.
pub fn env_text<'a>(alloc: Global, name: &str, bytes: &'a [u8]) -> Result<&'a str, Error>
    ensures { Gives (λ text. text.now) result (env_text_of name.now bytes.now) }
{
    match str::from_utf8(bytes) {
        Ok(text) => Ok(text),
        Err(_) => Err(not_text(alloc, name, bytes)?),
    }
}

fn not_text(alloc: Global, name: &str, bytes: &[u8]) -> Result<Error, NoMemory>
    ensures { IfOk result (λ e. refusal_of e ≡ not_text_refusal name.now bytes.now) }
{
    let shown = shown_value(alloc, name, bytes)?;
    let context = variable_line(alloc, name)?;
    Ok(Error::new(ErrorKind::EnvNotText { shown }).with_context(context))
}

/// The line that names a variable in a refusal: ``failed to parse environment variable `NAME` ``.
///
/// # Errors
/// `NoMemory` where the line finds no memory.
pub fn variable_line(alloc: Global, name: &str) -> Result<String, NoMemory>
    ensures { IfOk result (λ line. string_bytes line ≡ variable_context name.now) }
{
    Ok(format!(in alloc; "failed to parse environment variable `{name}`")?)
}

/// A variable's value as a refusal may show it: between two `"`, with the bytes from space to `~`
/// as themselves, `"` and `\` after a `\`, and every other byte as `\x` and two digits in upper
/// case. Of `CARGO_REGISTRY_TOKEN` and of each `CARGO_REGISTRIES_n_TOKEN` it is `[REDACTED]`: a
/// token is never shown (Cargo Reference,
/// [Credentials](https://doc.rust-lang.org/cargo/reference/config.html#credentials)).
///
/// # Errors
/// `NoMemory` where the shown text finds no memory.
#[tactic(auto, unfolding(crate::specs::ShownValue::shown_of))]
pub fn shown_value(alloc: Global, name: &str, bytes: &[u8]) -> Result<String, NoMemory>
    ensures { IfOk result (λ shown. string_bytes shown ≡ shown_of name.now bytes.now) }
{
    if is_token(name) {
        return Ok(String::from_str(alloc, "[REDACTED]")?);
    }
    let mut shown = String::from_str(alloc, "\"")?;
    for byte in bytes {
        push_shown(&mut shown, *byte)?;
    }
    shown.push('"')?;
    Ok(shown)
}

#[tactic(auto, unfolding(crate::specs::ShownValue::is_token_name))]
fn is_token(name: &str) -> bool
    ensures { result ≡ is_token_name name.now }
{
    match name.strip_prefix("CARGO_REGISTRIES_") {
        Some(rest) => rest.ends_with("_TOKEN"),
        None => name == "CARGO_REGISTRY_TOKEN",
    }
}

fn push_shown(shown: &mut String, byte: u8) -> Result<(), NoMemory>
    ensures { OnOk result (string_bytes shown.new ≡ string_bytes shown.old ++ shown_byte byte) }
{
    if byte == b'"' || byte == b'\\' {
        shown.push('\\')?;
        shown.push(char::from(byte))?;
    } else if b' ' <= byte && byte <= b'~' {
        shown.push(char::from(byte))?;
    } else {
        push_hex(shown, byte)?;
    }
    Ok(())
}

fn push_hex(shown: &mut String, byte: u8) -> Result<(), NoMemory>
    ensures { OnOk result (string_bytes shown.new ≡ string_bytes shown.old
        ++ 92 ∷ (120 ∷ (hex_digit_of (byte / 16) ∷ (hex_digit_of (byte % 16) ∷ [])))) }
{
    shown.push_str("\\x")?;
    shown.push(hex_digit(byte / 16))?;
    shown.push(hex_digit(byte % 16))?;
    Ok(())
}

fn hex_digit(digit: u8) -> char
    requires { digit < 16 }
    ensures { result ≡ hex_digit_of digit }
{
    if digit < 10 {
        char::from(b'0' + digit)
    } else {
        char::from(b'A' + (digit - 10))
    }
}
