//! The tokens of a key, and the one at the front of a text.

ghost use Rattle.std.specs.Prelude.{◌≡◌, ◌≢◌, ℕ, ◌<◌, ◌≤◌, List, ◌++◌, ◌∷◌, length, slice_index};
ghost use Rattle.std.specs.Prelude.{codes, IfSome, IfNone, true, false};
ghost use Rattle.cc2_cfg.specs.Lexing.{Fronts};
ghost use Rattle.cc2_cfg.specs.Tokens.{Lexeme, Word, Fun, Quoted, IsRun, IsLexeme, EndsBefore};
ghost use Rattle.cc2_cfg.specs.Tokens.{NoWordByteFirst, is_word_start, is_word_byte, spelling};
ghost use Rattle.cc2_cargo.specs.Reading.{token_of};
ghost use Rattle.cc2_cargo.specs.Grammar.{CargoToken, IsFront};

// What a function name means.
#[derive(Clone, Copy)]
pub(crate) enum Function {
    All,
    Any,
    Not,
}

#[derive(Clone, Copy)]
pub(crate) enum Token<'a> {
    // A word that is no function name.
    Word(&'a str),
    // A word with the prefix `r#`, without it.
    RawWord(&'a str),
    // A text without its quotes.
    Quoted(&'a str),
    Function(Function),
    Equals,
    OpenParen,
    CloseParen,
    Comma,
}

fn is_word_start(byte: u8) -> bool
    ensures { result ≡ is_word_start byte }
{
    byte.is_ascii_lowercase() || byte.is_ascii_uppercase() || byte == b'_'
}

fn is_word_byte(byte: u8) -> bool
    ensures { result ≡ is_word_byte byte }
{
    is_word_start(byte) || byte.is_ascii_digit()
}

// Whether a word or a function name is at the front of the text.
fn starts_word(text: &str) -> bool
    ensures yes { result ≡ true → 0 < length text.now }
    ensures first { result ≡ true → is_word_start (slice_index text.now 0) ≡ true }
    ensures no { result ≡ false → 0 < length text.now
        → is_word_start (slice_index text.now 0) ≡ false }
{
    match text.as_bytes() {
        [first, ..] => is_word_start(*first),
        [] => false,
    }
}

// How many word characters the text begins with.
fn word_len(bytes: &[u8]) -> usize
    ensures within { result ≤ length bytes.now }
    ensures before { (k : ℕ) → k < result → is_word_byte (slice_index bytes.now k) ≡ true }
    ensures stop { result < length bytes.now
        → is_word_byte (slice_index bytes.now result) ≡ false }
{
    for (i, byte) in bytes.iter().enumerate() {
        if !is_word_byte(*byte) {
            return i;
        }
    }
    bytes.len()
}

// The word at the front of the text, and what follows it.
fn split_word(text: &str) -> (&str, &str)
    requires some { 0 < length text.now }
    requires start { is_word_start (slice_index text.now 0) ≡ true }
    ensures run { IsRun result.0.now }
    ensures ends { NoWordByteFirst result.1.now }
    ensures whole { text.now ≡ result.0.now ++ result.1.now }
{
    text.split_at(word_len(text.as_bytes()))
}

// The token of a word without a prefix.
fn word_token(word: &str) -> Token<'_>
    requires { IsRun word.now }
    ensures { (rest : List ℕ) → NoWordByteFirst rest
        → ((other : List ℕ) → word.now ++ rest ≢ codes "r#" ++ other)
        → IsFront (word.now ++ rest) (token_of result) rest }
{
    match word {
        "all" => Token::Function(Function::All),
        "any" => Token::Function(Function::Any),
        "not" => Token::Function(Function::Not),
        _ => Token::Word(word),
    }
}

// The word or function name at the front of the text, which has no prefix, and what follows it.
fn word(text: &str) -> Option<(Token<'_>, &str)>
    requires { (other : List ℕ) → text.now ≢ codes "r#" ++ other }
    ensures some { IfSome result (λ p. IsFront text.now (token_of p.0) p.1.now) }
    ensures none { IfNone result (0 < length text.now
        → is_word_start (slice_index text.now 0) ≡ false) }
{
    if !starts_word(text) {
        return None;
    }
    let (word, rest) = split_word(text);
    Some((word_token(word), rest))
}

// The raw word whose prefix `r#` was taken off, and what follows it.
fn raw_word(text: &str) -> Option<(Token<'_>, &str)>
    ensures some { IfSome result (λ p. IsFront (codes "r#" ++ text.now) (token_of p.0) p.1.now) }
    ensures none { IfNone result (0 < length text.now
        → is_word_start (slice_index text.now 0) ≡ false) }
{
    if !starts_word(text) {
        return None;
    }
    let (word, rest) = split_word(text);
    Some((Token::RawWord(word), rest))
}

// The quoted text after an opening quote, and what follows its closing quote.
fn quoted(body: &str) -> Option<(Token<'_>, &str)>
    ensures some { IfSome result (λ p. IsFront (34 ∷ body.now) (token_of p.0) p.1.now) }
    ensures none { IfNone result ((v rest : List ℕ) → body.now ≢ v ++ 34 ∷ rest) }
{
    match body.split_once('"') {
        Some((value, rest)) => Some((Token::Quoted(value), rest)),
        None => None,
    }
}

// The token at the front of the text, and what follows it.
pub(crate) fn front(text: &str) -> Option<(Token<'_>, &str)>
    ensures some { IfSome result (λ p. IsFront text.now (token_of p.0) p.1.now) }
    ensures none { IfNone result ((t : CargoToken) (rest : List ℕ) → IsFront text.now t rest → ⊥) }
{
    if let Some(rest) = text.strip_prefix('=') {
        return Some((Token::Equals, rest));
    }
    if let Some(rest) = text.strip_prefix('(') {
        return Some((Token::OpenParen, rest));
    }
    if let Some(rest) = text.strip_prefix(')') {
        return Some((Token::CloseParen, rest));
    }
    if let Some(rest) = text.strip_prefix(',') {
        return Some((Token::Comma, rest));
    }
    if let Some(body) = text.strip_prefix('"') {
        return quoted(body);
    }
    if let Some(name) = text.strip_prefix("r#") {
        return raw_word(name);
    }
    word(text)
}
