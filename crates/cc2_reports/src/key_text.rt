//! Whether a piece of a text is a key, or a key with what follows it up to its value.
ghost use Rattle.std.specs.Prelude.{◌≡◌, ◌++◌, true, option_map, IfOk, Some};
ghost use Rattle.toml.specs.Data.{get_member};
ghost use Rattle.toml.specs.View.{table_view, view};
ghost use Rattle.cc2_reports.specs.Positions.{IsKeyAndEquals, IsKeyText, SetsAlone, is_one_line, member_count, boolean_at, starts_blank};

use cc2_error::error::NoMemory;
use std::alloc::Global;

/// Whether a piece of a text is a key, bare or in quotes: with `=` and a boolean after it, it sets
/// the key to that.
///
/// # Errors
/// `NoMemory` where memory ran out.
pub fn is_key_text(alloc: Global, key: &str, piece: &str) -> Result<bool, NoMemory>
    ensures { IfOk result (λ yes. yes ≡ true → IsKeyText key.now piece.now) }
{
    let bytes = piece.as_bytes();
    Ok(
        is_one_line(bytes)
            && !starts_blank(bytes.first().copied())
            && !starts_blank(bytes.last().copied())
            && sets_alone(alloc, key, piece, "=true", true)?
            && sets_alone(alloc, key, piece, "=false", false)?,
    )
}

/// Whether a piece of a text is a key with what follows it up to its value: with a boolean after it, it sets
/// the key to that.
///
/// # Errors
/// `NoMemory` where memory ran out.
pub fn is_key_and_equals(alloc: Global, key: &str, piece: &str) -> Result<bool, NoMemory>
    ensures { IfOk result (λ yes. yes ≡ true → IsKeyAndEquals key.now piece.now) }
{
    Ok(
        is_one_line(piece.as_bytes())
            && sets_alone(alloc, key, piece, "true", true)?
            && sets_alone(alloc, key, piece, "false", false)?,
    )
}

/// Whether a byte is a space or a tab, or there is none.
pub fn starts_blank(byte: Option<u8>) -> bool
    ensures { result ≡ starts_blank byte }
{
    match byte {
        Some(byte) => byte == b' ' || byte == b'\t',
        None => true,
    }
}

fn is_one_line(bytes: &[u8]) -> bool
    ensures { result ≡ is_one_line bytes.now }
{
    !bytes.contains(&b'\n')
}

// Whether a text and what is after it are TOML that sets a key to true, or to false, and nothing else.
fn sets_alone(
    alloc: Global,
    key: &str,
    text: &str,
    behind: &str,
    is_true: bool,
) -> Result<bool, NoMemory>
    ensures { IfOk result (λ yes. yes ≡ true
        → SetsAlone key.now is_true (text.now ++ behind.now)) }
{
    let mut whole = String::from_str(alloc, text)?;
    whole.push_str(behind)?;
    match toml::table_from_str(alloc, whole.as_str()) {
        Ok(table) => Ok(is_alone(&table, key, is_true)),
        Err(error) if error.is_memory() => Err(NoMemory),
        Err(_) => Ok(false),
    }
}

// Whether a table has this boolean at a key, and nothing else.
fn is_alone(table: &toml::Table, key: &str, is_true: bool) -> bool
    ensures one { result ≡ true → member_count (table_view table.now) ≡ 1 }
    ensures value { result ≡ true → boolean_at key.now (table_view table.now) ≡ Some is_true }
{
    match boolean_at(table, key) {
        Some(value) => value == is_true && member_count(table) == 1,
        None => false,
    }
}

// The boolean at a key of a table, if there is one.
fn boolean_at(table: &toml::Table, key: &str) -> Option<bool>
    ensures { result ≡ boolean_at key.now (table_view table.now) }
{
    match member(table, key) {
        Some(value) => value.as_bool(),
        None => None,
    }
}

fn member<'a>(table: &'a toml::Table, key: &str) -> Option<&'a toml::Value>
    ensures { option_map (λ v. view v.now) result ≡ get_member key.now (table_view table.now) }
{
    table.get(key)
}

fn member_count(table: &toml::Table) -> usize
    ensures { result ≡ member_count (table_view table.now) }
{
    table.len()
}
