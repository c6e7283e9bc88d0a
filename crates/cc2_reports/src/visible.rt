//! Text as a terminal gets it: what would move the cursor, colour, end a line or turn the direction of text is written by its number.
ghost use Rattle.std.specs.Prelude.{◌≡◌, ◌++◌, ◌<◌, IfOk, OnOk, string_bytes};
ghost use Rattle.cc2_cli.specs.Lines.{hex_digit};
ghost use Rattle.cc2_reports.specs.Characters as spec;

use cc2_error::error::NoMemory;
use std::alloc::Global;

/// A text with each control character, mark of direction and separator of lines as its number, as in `\u001B`. Tabs are as they
/// are, and where `keeps_lines` is set line feeds too (Unicode Standard,
/// [control codes](https://www.unicode.org/versions/Unicode15.0.0/ch23.pdf)).
///
/// # Errors
/// `NoMemory` where memory ran out.
pub fn visible_text(alloc: Global, keeps_lines: bool, text: &str) -> Result<String, NoMemory>
    ensures { IfOk result (λ shown. string_bytes shown ≡ spec.visible_text keeps_lines text.now) }
{
    let mut shown = String::new(alloc);
    for character in text.chars() {
        push_char(&mut shown, keeps_lines, character)?;
    }
    Ok(shown)
}

/// The same in one line.
///
/// # Errors
/// `NoMemory` where memory ran out.
pub fn visible_line(alloc: Global, text: &str) -> Result<String, NoMemory>
    ensures { IfOk result (λ shown. string_bytes shown ≡ spec.visible_line text.now) }
{
    visible_text(alloc, false, text)
}

fn push_char(shown: &mut String, keeps_lines: bool, character: char) -> Result<(), NoMemory>
    ensures { OnOk result (string_bytes shown.new
        ≡ string_bytes shown.old ++ spec.shown_char keeps_lines character) }
{
    if acts_on_terminal(keeps_lines, character) {
        return push_escape(shown, character as u32);
    }
    shown.push(character)?;
    Ok(())
}

/// Whether a terminal may take the character for more than text. A line feed is one where `keeps_lines` isn't set.
pub(crate) fn acts_on_terminal(keeps_lines: bool, character: char) -> bool
    ensures { result ≡ spec.acts_on_terminal keeps_lines character }
{
    if character == '\n' {
        return !keeps_lines;
    }
    let number = character as u32;
    is_control(number) || is_mark(number)
}

// Whether it is the number of a control character other than the tab.
fn is_control(number: u32) -> bool
    ensures { result ≡ spec.is_control_character number }
{
    number < 32 && number != 9 || 127 <= number && number < 160
}

// Whether it is the number of a mark of direction, or of a separator of lines or paragraphs.
fn is_mark(number: u32) -> bool
    ensures { result ≡ spec.is_mark number }
{
    number == 0x61c
        || 0x200e <= number && number <= 0x200f
        || 0x2028 <= number && number <= 0x202e
        || 0x2066 <= number && number <= 0x2069
}

fn push_escape(shown: &mut String, number: u32) -> Result<(), NoMemory>
    ensures { OnOk result (string_bytes shown.new ≡ string_bytes shown.old ++ spec.escape number) }
{
    shown.push_str("\\u")?;
    shown.push(digit(number / 4096 % 16))?;
    shown.push(digit(number / 256 % 16))?;
    shown.push(digit(number / 16 % 16))?;
    shown.push(digit(number % 16))?;
    Ok(())
}

// The digit of a number below 16.
fn digit(number: u32) -> char
    requires { number < 16 }
    ensures { result ≡ hex_digit number }
{
    let number = number as u8;
    if number < 10 {
        char::from(b'0' + number)
    } else {
        char::from(b'A' + (number - 10))
    }
}
