//! The tokens of a cfg text, and the one at the front of a text.

ghost use Rattle.std.specs.Prelude.{◌≡◌, ◌≢◌, ℕ, ◌<◌, ◌≤◌, List, ◌∷◌, ◌++◌, length, slice_index, IfSome, IfNone, true, false};
ghost use Rattle.cc2_cfg.specs.Tokens.{Lexeme, is_word_start, is_word_byte, IsRun, IsLexeme, EndsBefore, NoWordByteFirst, spelling};
ghost use Rattle.cc2_cfg.specs.Lexing.{lexeme_of, Fronts};

use std::fmt;

/// A token of a cfg text (Rust Reference,
/// [Conditional compilation](https://doc.rust-lang.org/reference/conditional-compilation.html)).
#[derive(Clone, Copy, Debug, PartialEq, Eq)]
pub enum Token<'a> {
    /// A word that is no function name.
    Key(&'a str),
    /// A value, without its quotes.
    Value(&'a str),
    /// `=`
    Equals,
    /// `all`
    All,
    /// `any`
    Any,
    /// `not`
    Not,
    /// `(`
    OpenParen,
    /// `)`
    CloseParen,
    /// `,`
    Comma,
}

/// The token in debug form, as the crate `cargo-config2` prints it.
impl fmt::Display for Token<'_> {
    fn fmt<W: fmt::Write>(&self, f: &mut fmt::Formatter<W>) -> fmt::Result {
        write!(f, "{self:?}")
    }
}

fn is_word_start(byte: u8) -> bool
    ensures { result ≡ is_word_start byte }
{
    byte.is_ascii_lowercase() || byte.is_ascii_uppercase() || byte == b'_'
}

fn is_word_byte(byte: u8) -> bool
    ensures { result ≡ is_word_byte byte }
{
    is_word_start(byte) || byte.is_ascii_digit()
}

// Whether the text begins with a word or a function name.
fn starts_word(text: &str) -> bool
    ensures yes { result ≡ true
        → (0 < length text.now) × (is_word_start (slice_index text.now 0) ≡ true) }
    ensures no { result ≡ false → 0 < length text.now
        → is_word_start (slice_index text.now 0) ≡ false }
{
    match text.as_bytes() {
        [first, ..] => is_word_start(*first),
        [] => false,
    }
}

// How many word characters the text begins with.
fn word_len(bytes: &[u8]) -> usize
    ensures within { result ≤ length bytes.now }
    ensures before { (k : ℕ) → k < result → is_word_byte (slice_index bytes.now k) ≡ true }
    ensures stop { result < length bytes.now → is_word_byte (slice_index bytes.now result) ≡ false }
{
    for (i, byte) in bytes.iter().enumerate() {
        if !is_word_byte(*byte) {
            return i;
        }
    }
    bytes.len()
}

// The token of these word characters.
fn word_token(word: &str) -> Token<'_>
    requires { IsRun word.now }
    ensures valid { IsLexeme (lexeme_of result) }
    ensures spelled { spelling (lexeme_of result) ≡ word.now }
    ensures ends { (rest : List ℕ) → NoWordByteFirst rest → EndsBefore (lexeme_of result) rest }
{
    match word {
        "all" => Token::All,
        "any" => Token::Any,
        "not" => Token::Not,
        _ => Token::Key(word),
    }
}

// The word or function name at the front of the text, and what follows it.
fn word(text: &str) -> (Token<'_>, &str)
    requires some { 0 < length text.now }
    requires start { is_word_start (slice_index text.now 0) ≡ true }
    ensures { Fronts text.now (lexeme_of result.0) result.1.now }
{
    let (word, rest) = text.split_at(word_len(text.as_bytes()));
    (word_token(word), rest)
}

// The value after an opening quote, and what follows its closing quote.
fn quoted(body: &str) -> Option<(Token<'_>, &str)>
    ensures some { IfSome result (λ p. Fronts (34 ∷ body.now) (lexeme_of p.0) p.1.now) }
    ensures none { IfNone result ((v rest : List ℕ) → body.now ≢ v ++ 34 ∷ rest) }
{
    match body.split_once('"') {
        Some((value, rest)) => Some((Token::Value(value), rest)),
        None => None,
    }
}

// The token at the front of the text, and what follows it.
pub(crate) fn front(text: &str) -> Option<(Token<'_>, &str)>
    ensures some { IfSome result (λ p. Fronts text.now (lexeme_of p.0) p.1.now) }
    ensures none { IfNone result ((t : Lexeme) (rest : List ℕ) → Fronts text.now t rest → ⊥) }
{
    if let Some(rest) = text.strip_prefix('=') {
        return Some((Token::Equals, rest));
    }
    if let Some(rest) = text.strip_prefix('(') {
        return Some((Token::OpenParen, rest));
    }
    if let Some(rest) = text.strip_prefix(')') {
        return Some((Token::CloseParen, rest));
    }
    if let Some(rest) = text.strip_prefix(',') {
        return Some((Token::Comma, rest));
    }
    if let Some(body) = text.strip_prefix('"') {
        return quoted(body);
    }
    if starts_word(text) {
        Some(word(text))
    } else {
        None
    }
}
