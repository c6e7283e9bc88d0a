//! Writing numbers, fields and texts.
ghost use Rattle.std.specs.Prelude.{◌≡◌, ◌++◌, OnOk, map, string_bytes, length};
ghost use Rattle.cc2_ask.specs.Fields.{number_at, field_at, text_at};
ghost use Rattle.cc2_ask.specs.Fields.{number_bytes, field_bytes, fields_bytes, list_bytes};
ghost use Rattle.cc2_ask.specs.Fields.{IsSmall, AreShort, IsShortList};
ghost use Rattle.cc2_ask.specs.Written.{IsAppended};

use std::alloc::AllocError;

/// Appends a number in four bytes, the lowest first.
///
/// # Errors
/// `AllocError` where memory ran out, or where the number is 2 to the power of 32 or more.
pub fn push_number(out: &mut Vec<u8>, number: usize) -> Result<(), AllocError>
    ensures bytes { OnOk result (out.new.items ≡ out.old.items ++ number_bytes number) }
    ensures short { OnOk result (IsSmall number) }
    ensures read { OnOk result (IsAppended number_at number out.old.items out.new.items) }
{
    let Ok(number) = u32::try_from(number) else {
        return Err(AllocError);
    };
    out.extend_from_slice(number.to_le_bytes().as_slice())
}

/// Appends a field.
///
/// # Errors
/// `AllocError` where memory ran out, or where the field has 4 GiB or more.
pub fn push_field(out: &mut Vec<u8>, field: &[u8]) -> Result<(), AllocError>
    ensures bytes { OnOk result (out.new.items ≡ out.old.items ++ field_bytes field.now) }
    ensures short { OnOk result (IsSmall (length field.now)) }
    ensures read { OnOk result (IsAppended field_at field.now out.old.items out.new.items) }
{
    push_number(out, field.len())?;
    out.extend_from_slice(field)
}

/// Appends a text, as a field.
///
/// # Errors
/// `AllocError` where memory ran out, or where the text has 4 GiB or more.
pub fn push_text(out: &mut Vec<u8>, text: &str) -> Result<(), AllocError>
    ensures { OnOk result (IsAppended text_at text.now out.old.items out.new.items) }
{
    push_field(out, text.as_bytes())
}

/// Appends a list of texts.
///
/// # Errors
/// `AllocError` where memory ran out, or where the list or a text is too long for four bytes.
pub fn push_list(out: &mut Vec<u8>, texts: &[String]) -> Result<(), AllocError>
    ensures bytes { OnOk result
        (out.new.items ≡ out.old.items ++ list_bytes (map string_bytes texts.now)) }
    ensures short { OnOk result (IsShortList (map string_bytes texts.now)) }
{
    push_number(out, texts.len())?;
    push_fields(out, texts)
}

/// Appends a field for each text.
///
/// # Errors
/// `AllocError` where memory ran out, or where a text is too long for four bytes.
pub fn push_fields(out: &mut Vec<u8>, texts: &[String]) -> Result<(), AllocError>
    ensures bytes { OnOk result
        (out.new.items ≡ out.old.items ++ fields_bytes (map string_bytes texts.now)) }
    ensures short { OnOk result (AreShort (map string_bytes texts.now)) }
{
    for text in texts {
        push_field(out, text.as_bytes())?;
    }
    Ok(())
}
