//! Numbers in the range of their type, and numbers and truth values as a text writes them.
ghost use Rattle.std.specs.Prelude.{◌≡◌};
ghost use Rattle.cc2_value.specs.Decimals.{int32_text, uint32_text};
ghost use Rattle.cc2_value.specs.Numbers.{int32_of, uint32_of};
ghost use Rattle.cc2_value.specs.SingleTexts.{truth_text};
ghost use Rattle.cc2_value.specs.Singles.{int32_in, uint32_in};

// The number, where it is in the range of an `i32`.
fn int32(number: i64) -> Option<i32>
    ensures { result ≡ int32_of number }
{
    if -2147483648 <= number && number <= 2147483647 {
        Some(number as i32)
    } else {
        None
    }
}

/// A whole number, where it is in the range of an `i32`.
pub fn int32_in(number: Option<i64>) -> Option<i32>
    ensures { result ≡ int32_in number }
{
    match number {
        Some(number) => int32(number),
        None => None,
    }
}

// The number, where it is in the range of a `u32`.
fn uint32(number: i64) -> Option<u32>
    ensures { result ≡ uint32_of number }
{
    if 0 <= number && number <= 4294967295 {
        Some(number as u32)
    } else {
        None
    }
}

/// A whole number, where it is in the range of a `u32`.
pub fn uint32_in(number: Option<i64>) -> Option<u32>
    ensures { result ≡ uint32_in number }
{
    match number {
        Some(number) => uint32(number),
        None => None,
    }
}

/// The whole number from -2147483648 to 2147483647 that the text writes: decimal digits, which may
/// follow a `+` or a `-`.
pub fn int32_of_text(text: &str) -> Option<i32>
    ensures { result ≡ int32_text text.now }
{
    text.parse::<i32>().ok()
}

/// The whole number from 0 to 4294967295 that the text writes: decimal digits, which may follow
/// a `+`.
pub fn uint32_of_text(text: &str) -> Option<u32>
    ensures { result ≡ uint32_text text.now }
{
    text.parse::<u32>().ok()
}

/// The truth value that the text names.
pub fn truth_of_text(text: &str) -> Option<bool>
    ensures { result ≡ truth_text text.now }
{
    match text {
        "true" => Some(true),
        "false" => Some(false),
        _ => None,
    }
}
