//! Keys that are spelled with escapes.
use std::alloc::{AllocError, Global};

/// The key that a text between quotes spells with escapes (TOML's specification,
/// [String](https://toml.io/en/v1.0.0#string)). An escape that TOML doesn't have is left as it is.
///
/// # Errors
/// `AllocError` where memory ran out.
pub fn unescaped(alloc: Global, spelled: &str) -> Result<String, AllocError> {
    let mut key = String::new(alloc);
    let mut state = State::Plain;
    for character in spelled.chars() {
        state = step(&mut key, state, character)?;
    }
    Ok(key)
}

// What the next character is read as.
#[derive(Clone, Copy)]
enum State {
    Plain,
    // The character after a backslash.
    Escape,
    // One of so many digits that are left of a character's number, and what the digits before it come to.
    Digits { left: u8, number: u32 },
}

fn step(key: &mut String, state: State, character: char) -> Result<State, AllocError> {
    match state {
        State::Plain if character == '\\' => Ok(State::Escape),
        State::Plain => {
            key.push(character)?;
            Ok(State::Plain)
        }
        State::Escape => after_backslash(key, character),
        State::Digits { left, number } => digit(key, left, number, character),
    }
}

fn after_backslash(key: &mut String, character: char) -> Result<State, AllocError> {
    let meant = match character {
        'x' => return Ok(State::Digits { left: 2, number: 0 }),
        'u' => return Ok(State::Digits { left: 4, number: 0 }),
        'U' => return Ok(State::Digits { left: 8, number: 0 }),
        'b' => '\u{8}',
        't' => '\t',
        'n' => '\n',
        'f' => '\u{c}',
        'r' => '\r',
        'e' => '\u{1b}',
        other => other,
    };
    key.push(meant)?;
    Ok(State::Plain)
}

fn digit(key: &mut String, left: u8, number: u32, character: char) -> Result<State, AllocError> {
    let value = character.to_digit(16).unwrap_or(0);
    let number = number.wrapping_mul(16).wrapping_add(value);
    if left > 1 {
        return Ok(State::Digits {
            left: left.saturating_sub(1),
            number,
        });
    }
    if let Some(meant) = char::from_u32(number) {
        key.push(meant)?;
    }
    Ok(State::Plain)
}
