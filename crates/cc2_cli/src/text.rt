//! Texts as they are printed: appended, and between quotes.
ghost use Rattle.std.specs.Prelude.{◌≡◌, ◌++◌, ◌<◌, OnOk, IfOk, IfSome};
ghost use Rattle.cc2_cli.specs.Lines.{hex_digit, quoted_byte, quoted};

use cc2_error::error::NoMemory;
use std::alloc::Global;
use std::fmt::Display;
use std::io::Write;

/// What appending returns: it fails only if memory runs out.
pub type Done = std::result::Result<(), NoMemory>;

/// Appends a text.
///
/// # Errors
/// `NoMemory` where memory ran out.
pub fn push(out: &mut Vec<u8>, text: &str) -> Done
    ensures { OnOk result (out.new.items ≡ out.old.items ++ text.now) }
{
    out.extend_from_slice(text.as_bytes())?;
    Ok(())
}

// Appends what a value prints. It is written in place, where `format!` makes a text of its own first.
pub(crate) fn push_shown<D: Display + Drop>(out: &mut Vec<u8>, value: D) -> Done
    ensures { OnOk result (IfSome (D.output value) (λ text.
        out.new.items ≡ out.old.items ++ text)) }
{
    match write!(out, "{value}") {
        Ok(()) => Ok(()),
        Err(_) => Err(NoMemory),
    }
}

// The digit of a number below 16.
fn hex_digit(number: u8) -> u8
    requires { number < 16 }
    ensures { result ≡ hex_digit number }
{
    if number < 10 {
        b'0' + number
    } else {
        b'A' - 10 + number
    }
}

// Appends a byte of a text between quotes.
fn push_byte(out: &mut Vec<u8>, byte: u8) -> Done
    ensures { OnOk result (out.new.items ≡ out.old.items ++ quoted_byte byte) }
{
    if byte == b'"' || byte == b'\\' {
        out.extend_from_slice(&[b'\\', byte])?;
    } else if byte < 0x20 || byte == 0x7f {
        let digits = [b'\\', b'x', hex_digit(byte / 16), hex_digit(byte % 16)];
        out.extend_from_slice(&digits)?;
    } else {
        out.push(byte)?;
    }
    Ok(())
}

/// Appends a text between quotes: a quote and a backslash are escaped by a backslash, and a control
/// character of ASCII is `\xNN`.
///
/// # Errors
/// `NoMemory` where memory ran out.
pub fn push_quoted(out: &mut Vec<u8>, text: &str) -> Done
    ensures { OnOk result (out.new.items ≡ out.old.items ++ quoted text.now) }
{
    out.push(b'"')?;
    for byte in text.as_bytes() {
        push_byte(out, *byte)?;
    }
    out.push(b'"')?;
    Ok(())
}

/// The same as a text of its own.
///
/// # Errors
/// `NoMemory` where memory ran out.
pub fn quoted(alloc: Global, text: &str) -> std::result::Result<Vec<u8>, NoMemory>
    ensures { IfOk result (λ shown. shown.items ≡ quoted text.now) }
{
    let mut shown = Vec::new(alloc);
    push_quoted(&mut shown, text)?;
    Ok(shown)
}
