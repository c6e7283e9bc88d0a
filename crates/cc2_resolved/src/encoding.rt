//! Flags in one text, with a separator between them.
ghost use Rattle.std.specs.Prelude.{◌≡◌, ◌∷◌, [], IfOk, IfErr, OnOk, string_bytes};
ghost use Rattle.cc2_error.specs.Causes.{no_memory};
ghost use Rattle.cc2_error.specs.Outcomes.{Gives};
ghost use Rattle.cc2_resolved.specs.Texts.{texts_of, any_holds};
ghost use Rattle.cc2_resolved.specs.Encodings.{separator_byte, with_flag, encoding, encoded_with};

use cc2_error::error::{Error, ErrorKind, Result, Separator};
use std::alloc::Global;

fn byte_of(separator: Separator) -> u8
    ensures { result ≡ separator_byte separator }
{
    match separator {
        Separator::Unit => 0x1f,
        Separator::Space => b' ',
    }
}

fn text_of(separator: Separator) -> &'static str
    ensures { result.now ≡ separator_byte separator ∷ [] }
{
    match separator {
        Separator::Unit => "\x1f",
        Separator::Space => " ",
    }
}

// Whether a flag holds the byte.
fn any_holds(flags: &[String], byte: u8) -> bool
    ensures { result ≡ any_holds byte (texts_of flags.now) }
{
    for flag in flags {
        if flag.as_bytes().contains(&byte) {
            return true;
        }
    }
    false
}

// Appends a flag to the others, with the separator between them. As long as the text is empty, so
// were the flags, and no separator follows those.
fn put_behind(text: &mut String, separator: Separator, flag: &str) -> Result<()>
    ensures put { OnOk result (string_bytes text.new
        ≡ with_flag (separator_byte separator) (string_bytes text.old) flag.now) }
    ensures refused { IfErr result (λ e. e ≡ no_memory) }
{
    if !text.is_empty() {
        text.push_str(text_of(separator))?;
    }
    text.push_str(flag)?;
    Ok(())
}

// The flags with the separator between them, whatever they hold.
fn joined(alloc: Global, flags: &[String], separator: Separator) -> Result<String>
    ensures joined { IfOk result (λ text.
        string_bytes text ≡ encoding (separator_byte separator) (texts_of flags.now)) }
    ensures refused { IfErr result (λ e. e ≡ no_memory) }
{
    let mut text = String::new(alloc);
    for flag in flags {
        put_behind(&mut text, separator, flag.as_str())?;
    }
    Ok(text)
}

// The flags with the separator between them, without leading empty ones; refused where one holds it.
pub(crate) fn encoded(alloc: Global, flags: &[String], separator: Separator) -> Result<String>
    ensures { Gives string_bytes result (encoded_with separator (texts_of flags.now)) }
{
    if any_holds(flags, byte_of(separator)) {
        return Err(Error::new(ErrorKind::Separator(separator)));
    }
    joined(alloc, flags, separator)
}
