//! Why a cfg text is refused, and where in it.

ghost use Rattle.std.specs.Prelude.{◌≡◌, ◌∷◌, map, Some};
ghost use Rattle.std.specs.Fmt.{DisplaysOnOk};
ghost use Rattle.std.specs.List.{repeat};
ghost use Rattle.cc2_error.specs.CfgErrorTexts.{reason_text, expected_text, several_text, others_text, parse_error_text, mark_text, cfg_error_text};
ghost use Rattle.cc2_error.specs.declared.cfg_error.CfgError.TheVariants.{Memory};

use std::alloc::{AllocError, AllocFailed};
use std::fmt;
use std::ops::Range;

/// Why a cfg text is refused.
#[derive(Clone, Copy, Debug, PartialEq, Eq)]
pub enum Reason {
    /// `not` doesn't have exactly one predicate, but this many.
    InvalidNot(usize),
    /// A function isn't closed.
    UnclosedParens,
    /// A parenthesis closes no function.
    UnopenedParens,
    /// A value has no closing quote.
    UnclosedQuotes,
    /// The text is blank.
    Empty,
    /// Something else is where one of these was expected; nothing was expected, where there are none.
    Unexpected(&'static [&'static str]),
    /// More than one predicate is outside of functions.
    MultipleRootPredicates,
}

impl fmt::Display for Reason {
    ghost output = { λ reason. Some (reason_text reason) };

    fn fmt<W: fmt::Write>(&self, f: &mut fmt::Formatter<W>) -> fmt::Result {
        match *self {
            Reason::InvalidNot(found) => write!(f, "not() takes 1 predicate, found {found}"),
            Reason::UnclosedParens => f.write_str("unclosed parens"),
            Reason::UnopenedParens => f.write_str("unopened parens"),
            Reason::UnclosedQuotes => f.write_str("unclosed quotes"),
            Reason::Empty => f.write_str("empty expression"),
            Reason::Unexpected(terms) => write_expected(terms, f),
            Reason::MultipleRootPredicates => f.write_str("multiple root predicates"),
        }
    }
}

// What was expected in place of what is there.
fn write_expected<W: fmt::Write>(terms: &[&str], f: &mut fmt::Formatter<W>) -> fmt::Result
    ensures { DisplaysOnOk W.write_str_gives f.old result
        (Some (expected_text (map (λ t. t.now) terms.now))) f.new }
{
    match terms.split_first() {
        None => f.write_str("the term was not expected here"),
        Some((term, others)) => {
            if others.is_empty() {
                write!(f, "expected a `{term}` here")
            } else {
                write_several(term, others, f)
            }
        }
    }
}

// That one of several terms was expected.
fn write_several<W: fmt::Write>(
    first: &str,
    others: &[&str],
    f: &mut fmt::Formatter<W>,
) -> fmt::Result
    ensures { DisplaysOnOk W.write_str_gives f.old result
        (Some (several_text (first.now ∷ map (λ t. t.now) others.now))) f.new }
{
    write!(f, "expected one of `{first}`")?;
    write_others(others, f)?;
    f.write_str(" here")
}

// Each term after a comma.
fn write_others<W: fmt::Write>(terms: &[&str], f: &mut fmt::Formatter<W>) -> fmt::Result
    ensures { DisplaysOnOk W.write_str_gives f.old result
        (Some (others_text (map (λ t. t.now) terms.now))) f.new }
{
    'terms: for term in terms {
        write!(f, ", `{term}`")?;
    }
    Ok(())
}

/// Where a cfg text goes wrong: the bytes of the stripped text, which are whole characters, and why.
/// The lexer gives it where there is no token.
#[derive(Debug, Drop, PartialEq, Eq)]
pub struct LexFault {
    /// The bytes of the stripped text that are at fault.
    pub span: Range<usize>,
    /// Why.
    pub reason: Reason,
}

/// A refused cfg text: the text without `cfg(` and `)` round it, the bytes of it that are at fault, which
/// are whole characters, and why. See the Rust Reference,
/// [Conditional compilation](https://doc.rust-lang.org/reference/conditional-compilation.html).
#[derive(Debug, Drop, PartialEq, Eq)]
pub struct ParseError {
    /// The text without `cfg(` and `)` round it.
    pub original: String,
    /// The bytes of that text that are at fault.
    pub span: Range<usize>,
    /// Why.
    pub reason: Reason,
}

/// The text, and below it a mark under the span and the reason.
impl fmt::Display for ParseError {
    ghost output = { λ error. Some (parse_error_text error) };

    fn fmt<W: fmt::Write>(&self, f: &mut fmt::Formatter<W>) -> fmt::Result {
        let original = self.original.as_str();
        writeln!(f, "{original}")?;
        write_times(f, " ", self.span.start)?;
        write_mark(self, f)?;
        let reason = self.reason;
        write!(f, "{reason}")
    }
}

impl std::error::Error for ParseError {}

// The mark under the span.
fn write_mark<W: fmt::Write>(error: &ParseError, f: &mut fmt::Formatter<W>) -> fmt::Result
    ensures { DisplaysOnOk W.write_str_gives f.old result (Some (mark_text error.now)) f.new }
{
    match error.reason {
        Reason::UnclosedParens | Reason::UnclosedQuotes => f.write_str("- "),
        Reason::UnopenedParens => f.write_str("^ "),
        _ => {
            write_times(f, "^", error.span.end.saturating_sub(error.span.start))?;
            f.write_str(" ")
        }
    }
}

// A text, this many times.
fn write_times<W: fmt::Write>(f: &mut fmt::Formatter<W>, text: &str, times: usize) -> fmt::Result
    ensures { DisplaysOnOk W.write_str_gives f.old result (Some (repeat times text.now)) f.new }
{
    'times: for _ in 0..times {
        f.write_str(text)?;
    }
    Ok(())
}

/// What refuses a cfg expression.
#[derive(Debug, Drop, PartialEq, Eq)]
pub enum CfgError {
    /// Memory ran out.
    Memory,
    /// The text is no cfg expression.
    Parse(ParseError),
}

impl fmt::Display for CfgError {
    ghost output = { λ error. Some (cfg_error_text error) };

    fn fmt<W: fmt::Write>(&self, f: &mut fmt::Formatter<W>) -> fmt::Result {
        match self {
            CfgError::Memory => f.write_str("out of memory"),
            CfgError::Parse(error) => write!(f, "{error}"),
        }
    }
}

impl std::error::Error for CfgError {}

impl From<AllocError> for CfgError {
    ghost from_gives = { λ _ error. error ≡ Memory };

    fn from(_refused: AllocError) -> CfgError {
        CfgError::Memory
    }
}

impl<T: Drop> From<AllocFailed<T>> for CfgError {
    ghost from_gives = { λ _ error. error ≡ Memory };

    fn from(_refused: AllocFailed<T>) -> CfgError {
        CfgError::Memory
    }
}
