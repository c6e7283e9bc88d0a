//! Why the parser refuses a text, and the span that it points at.

ghost use Rattle.std.specs.Prelude.{◌≡◌, ◌≢◌};
ghost use Rattle.cc2_cfg.specs.Refusing.{IsFaultAt};
ghost use Rattle.cc2_error.specs.declared.cfg_error.Reason.TheVariants.{Empty};

use crate::parser::{Frame, Last, Parser};
use crate::token::Token;
use cc2_error::{CfgError, LexFault, ParseError, Reason};
use std::alloc::Global;
use std::ops::Range;

/// The refusal of this stripped text. What of the span lies after the text is cut off, and it begins
/// and ends at whole characters.
pub(crate) fn refused(alloc: Global, original: &str, fault: LexFault) -> CfgError
    ensures { IsFaultAt original.now fault.reason result }
{
    let end = original.ceil_char_boundary(fault.span.end);
    let start = original.floor_char_boundary(fault.span.start.min(end));
    match String::from_str(alloc, original) {
        Ok(original) => CfgError::Parse(ParseError {
            original,
            span: start..end,
            reason: fault.reason,
        }),
        Err(_) => CfgError::Memory,
    }
}

impl Parser<'_> {
    /// Why this token at this span doesn't fit, in a text of this length.
    pub(crate) fn unexpected(&self, token: Token<'_>, span: Range<usize>, len: usize) -> LexFault
        ensures { result.reason ≢ Empty }
    {
        match token {
            Token::CloseParen => self.unclosable(span),
            Token::Key(_) | Token::All | Token::Any | Token::Not => self.misplaced(span, len),
            _ => self.unexpected_at(span),
        }
    }

    /// Why the text, of this length, can't end here.
    pub(crate) fn unfinished(&self, len: usize) -> LexFault
        ensures { result.reason ≢ Empty }
    {
        match self.last {
            Last::Name(_, at) => self.unexpected_at(at..at.saturating_add(3)),
            Last::Equals(_) => LexFault {
                span: len..len,
                reason: Reason::Unexpected(&["\"<value>\""]),
            },
            _ => match self.stack.last() {
                Some(frame) => LexFault {
                    span: frame.paren..len,
                    reason: Reason::UnclosedParens,
                },
                None => self.unexpected_at(len..len),
            },
        }
    }

    // Why no predicate may begin here.
    fn misplaced(&self, span: Range<usize>, len: usize) -> LexFault
        ensures { result.reason ≢ Empty }
    {
        match self.last {
            Last::Comma => LexFault {
                span: 0..len,
                reason: Reason::MultipleRootPredicates,
            },
            _ => self.unexpected_at(span),
        }
    }

    // Why this parenthesis closes nothing.
    fn unclosable(&self, span: Range<usize>) -> LexFault
        ensures { result.reason ≢ Empty }
    {
        match self.last {
            Last::Opening | Last::Comma | Last::End => match self.unfit {
                Some(frame) => LexFault {
                    span: frame.name..span.end,
                    reason: Reason::InvalidNot(self.predicate_count(frame)),
                },
                None => LexFault {
                    span,
                    reason: Reason::UnopenedParens,
                },
            },
            _ => self.unexpected_at(span),
        }
    }

    // How many predicates this function has, the innermost of those that are open.
    fn predicate_count(&self, frame: Frame) -> usize {
        let mut count = 0;
        let mut next = frame.place.saturating_add(1);
        for (i, node) in self.nodes.iter().enumerate() {
            if i == next {
                count += 1;
                next = node.end;
            }
        }
        count
    }

    // That something else was expected at this span.
    fn unexpected_at(&self, span: Range<usize>) -> LexFault
        ensures { result.reason ≢ Empty }
    {
        let reason = match self.last {
            Last::Start => Reason::Unexpected(&["<key>", "all", "any", "not"]),
            Last::Name(_, _) => Reason::Unexpected(&["("]),
            Last::Opening => Reason::Unexpected(&["<key>", ")", "all", "any", "not"]),
            Last::Comma => Reason::Unexpected(&[")", "<key>"]),
            Last::Key(_) => Reason::Unexpected(&["=", ",", ")"]),
            Last::Equals(_) => Reason::Unexpected(&["\""]),
            Last::End => Reason::Unexpected(&[",", ")"]),
        };
        LexFault { span, reason }
    }
}
