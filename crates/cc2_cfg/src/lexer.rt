//! Goes over the tokens of a cfg text.

ghost use Rattle.std.specs.Prelude.{◌≡◌, ◌-◌, ◌≤◌, length, drop};
ghost use Rattle.cc2_cfg.specs.Tokens.{IsStripped};

use crate::token::{Token, front};
use cc2_error::{LexFault, Reason};
use std::ops::Range;

/// A token, and where it is in the stripped text.
#[derive(Debug, Drop)]
pub struct LexerToken<'a> {
    /// The token.
    pub token: Token<'a>,
    /// The bytes of the stripped text at which it occurs.
    pub span: Range<usize>,
}

/// Goes over the tokens of a cfg text, without `cfg(` and `)` round it (Rust Reference,
/// [Conditional compilation](https://doc.rust-lang.org/reference/conditional-compilation.html)).
#[derive(Debug, Drop)]
pub struct Lexer<'a> {
    pub(crate) original: &'a str,
    rest: &'a str,
    ended: bool,
    ghost room: { length rest.now ≤ length original.now },
    ghost suffix: { rest.now ≡ drop (length original.now - length rest.now) original.now },
}

// The text without a leading `cfg(` together with a final `)`.
fn stripped(text: &str) -> &str
    ensures { IsStripped text.now result.now }
{
    match text.strip_prefix("cfg(") {
        Some(inner) => match inner.strip_suffix(')') {
            Some(inner) => inner,
            None => text,
        },
        None => text,
    }
}

impl<'a> Lexer<'a> {
    ghost use Rattle.cc2_cfg.specs.Runs.{text_of, IsAtStart, GivesFronts, GivesWhole};

    /// A lexer of the text without a leading `cfg(` together with a final `)`, which are taken off once.
    /// Its items are the tokens that the stripped text spells (Rust Reference,
    /// [Conditional compilation](https://doc.rust-lang.org/reference/conditional-compilation.html)),
    /// in order, each with the span at which its spelling occurs. It takes no memory.
    ///
    /// Where the text spells no list of tokens the last item is a `LexFault`, what precedes its span
    /// spells the tokens given, and nothing follows it.
    pub fn new(text: &'a str) -> Lexer<'a>
        ensures stripped { IsStripped text.now (text_of result) }
        ensures start { IsAtStart result }
        ensures fronts { GivesFronts result }
        ensures whole { GivesWhole result }
    {
        let original = stripped(text);
        Lexer {
            original,
            rest: original,
            ended: false,
        }
    }
}

impl<'a> Iterator for Lexer<'a> {
    type Item = Result<LexerToken<'a>, LexFault>;

    ghost use Rattle.cc2_cfg.specs.Steps.{lexer_gives, lexer_remaining};

    ghost next_gives = { lexer_gives };

    ghost remaining = { lexer_remaining };

    fn next(&mut self) -> Option<Result<LexerToken<'a>, LexFault>> {
        if self.ended {
            return None;
        }
        let text = self.rest.trim_start();
        let start = self.original.len() - text.len();
        match front(text) {
            Some((token, rest)) => {
                let end = self.original.len() - rest.len();
                self.rest = rest;
                Some(Ok(LexerToken {
                    token,
                    span: start..end,
                }))
            }
            None => {
                self.ended = true;
                if text.is_empty() {
                    return None;
                }
                if text.starts_with('"') {
                    return Some(Err(LexFault {
                        span: start..self.original.len(),
                        reason: Reason::UnclosedQuotes,
                    }));
                }
                Some(Err(LexFault {
                    span: start..self.original.ceil_char_boundary(start + 1),
                    reason: Reason::Unexpected(&["<key>", "all", "any", "not"]),
                }))
            }
        }
    }
}
