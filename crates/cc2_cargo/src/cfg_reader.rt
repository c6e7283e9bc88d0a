//! The reader goes over the tokens once, without recursion: it keeps the functions that are open,
//! each with the value of its operands so far.

ghost use Rattle.std.specs.Prelude.{◌≡◌, Bool, List, [], Option, Some, None, IfOk, IfErr, true};
ghost use Rattle.std.specs.Prelude.{false};
ghost use Rattle.cc2_cfg.specs.Meaning.{Atom};
ghost use Rattle.cc2_cfg.specs.Table.{atom_of};
ghost use Rattle.cc2_cfg.specs.Tokens.{Word, Quoted, Fun, Equals, Close, Comma};
ghost use Rattle.cc2_cfg.specs.Tokens.{Open as OpenParen};
ghost use Rattle.cc2_cargo.specs.Meaning.{AnswerMap, Follows, IsAmong, IsValue, leaf};
ghost use Rattle.cc2_cargo.specs.Meaning.{constant_of};
ghost use Rattle.cc2_cargo.specs.Machine.{ReaderState, next_state, tree_at_end, start};
ghost use Rattle.cc2_cargo.specs.Reading.{token_of, operator_for, of_no_operand, added};
ghost use Rattle.cc2_cargo.specs.Reading.{KeepsState, NextState, Covers};
ghost use Rattle.cc2_cargo.specs.Reading.{CoversFlag, EndsWith, flag_ended, allows_predicate};
ghost use Rattle.cc2_cargo.specs.Reading.{ending, OpensInside};
ghost use Rattle.cc2_cargo.specs.Grammar.{Raw, Plain};

use crate::cfg_token::{Function, Token};
use cc2_cfg::Predicate;
use std::alloc::{AllocError, Global};

// What came last.
#[derive(Clone, Copy)]
pub(crate) enum Last<'a> {
    // Nothing, or `not(`: a predicate has to follow.
    Wanted,
    // `all(`, `any(` or a comma: a predicate may follow.
    Allowed,
    Name(Function),
    Key(&'a str),
    Equals(&'a str),
    // A predicate with this value.
    Value(bool),
}

// An open function, and the value of its operands so far.
#[derive(Clone, Copy)]
pub(crate) struct Open {
    pub(crate) function: Function,
    pub(crate) value: bool,
}

impl Open {
    fn new(function: Function) -> Open
        ensures function { result.function ≡ function }
        ensures value { result.value ≡ of_no_operand function }
    {
        let value = match function {
            Function::All => true,
            Function::Any => false,
            Function::Not => true,
        };
        Open { function, value }
    }

    // The function with one more operand.
    fn add(self, operand: bool) -> Open
        ensures function { result.function ≡ self.function }
        ensures value { result.value ≡ added self.function self.value operand }
    {
        let value = match self.function {
            Function::All => self.value && operand,
            Function::Any => self.value || operand,
            Function::Not => !operand,
        };
        Open {
            function: self.function,
            value,
        }
    }
}

// The innermost function that is open, those around it, outermost first, and what came last.
#[derive(Drop)]
pub(crate) struct Reader<'a> {
    pub(crate) current: Option<Open>,
    pub(crate) outer: Vec<Open>,
    pub(crate) last: Last<'a>,
}

// The value of a constant.
fn constant(predicate: &Predicate<'_>) -> Option<bool>
    ensures { result ≡ constant_of (atom_of predicate.now) }
{
    match predicate {
        Predicate::Flag("true") => Some(true),
        Predicate::Flag("false") => Some(false),
        _ => None,
    }
}

// The value of a predicate: `holds` is asked where it is no constant.
fn value_of<F: FnMut(&Predicate<'_>) -> bool>(holds: &mut F, predicate: &Predicate<'_>) -> bool
    requires { F.IsAlwaysCallable holds.old }
    ensures callable { F.IsAlwaysCallable holds.new }
    ensures value { (known : AnswerMap) (asked : List Atom) → Follows F.FnMut known asked holds.old
        → IsAmong known asked (atom_of predicate.now)
        → IsValue known (leaf (atom_of predicate.now)) result }
    ensures again { (known : AnswerMap) (asked : List Atom) → Follows F.FnMut known asked holds.old
        → IsAmong known asked (atom_of predicate.now)
        → Follows F.FnMut known asked holds.new }
{
    match constant(predicate) {
        Some(value) => value,
        None => holds(predicate),
    }
}

impl<'a> Reader<'a> {
    pub(crate) fn new(alloc: Global) -> Reader<'a>
        ensures { (known : AnswerMap) → KeepsState known result start }
    {
        Reader {
            current: None,
            outer: Vec::new(alloc),
            last: Last::Wanted,
        }
    }

    // Whether a predicate may begin here.
    fn may_begin(&self) -> bool
        ensures { (known : AnswerMap) (s : ReaderState) → KeepsState known self.now s
            → result ≡ allows_predicate s }
    {
        match self.last {
            Last::Wanted | Last::Allowed => true,
            _ => false,
        }
    }

    fn word(&mut self, word: &'a str) -> bool
        ensures plain { (known : AnswerMap) (s : ReaderState) → KeepsState known self.old s
            → NextState known (next_state s (Plain (Word word.now))) result self.new }
        ensures raw { (known : AnswerMap) (s : ReaderState) → KeepsState known self.old s
            → NextState known (next_state s (Raw word.now)) result self.new }
    {
        let fits = self.may_begin();
        if fits {
            self.last = Last::Key(word);
        }
        fits
    }

    fn function(&mut self, function: Function) -> bool
        ensures { (known : AnswerMap) (s : ReaderState) → KeepsState known self.old s
            → NextState known (next_state s (Plain (Fun (operator_for function)))) result self.new }
    {
        let fits = self.may_begin();
        if fits {
            self.last = Last::Name(function);
        }
        fits
    }

    fn equals(&mut self) -> bool
        ensures { (known : AnswerMap) (s : ReaderState) → KeepsState known self.old s
            → NextState known (next_state s (Plain Equals)) result self.new }
    {
        match self.last {
            Last::Key(key) => {
                self.last = Last::Equals(key);
                true
            }
            _ => false,
        }
    }

    fn quoted<F: FnMut(&Predicate<'_>) -> bool>(&mut self, holds: &mut F, val: &str) -> bool
        requires { F.IsAlwaysCallable holds.old }
        ensures callable { F.IsAlwaysCallable holds.new }
        ensures next { (known : AnswerMap) (asked : List Atom) (s : ReaderState)
            → Follows F.FnMut known asked holds.old → KeepsState known self.old s
            → Covers known asked s (Plain (Quoted val.now))
            → NextState known (next_state s (Plain (Quoted val.now))) result self.new }
        ensures again { (known : AnswerMap) (asked : List Atom) (s : ReaderState)
            → Follows F.FnMut known asked holds.old → KeepsState known self.old s
            → Covers known asked s (Plain (Quoted val.now))
            → Follows F.FnMut known asked holds.new }
    {
        match self.last {
            Last::Equals(key) => {
                self.last = Last::Value(value_of(holds, &Predicate::KeyValue { key, val }));
                true
            }
            _ => false,
        }
    }

    fn open_paren(&mut self) -> Result<bool, AllocError>
        ensures next { IfOk result (λ fits. (known : AnswerMap) (s : ReaderState)
            → KeepsState known self.old s
            → NextState known (next_state s (Plain OpenParen)) fits self.new) }
        ensures inside { IfErr result (λ _. (known : AnswerMap) (s : ReaderState)
            → KeepsState known self.old s → OpensInside s) }
    {
        match self.last {
            Last::Name(function) => {
                if let Some(outer) = self.current {
                    self.outer.push(outer)?;
                }
                self.current = Some(Open::new(function));
                self.last = match function {
                    Function::All | Function::Any => Last::Allowed,
                    Function::Not => Last::Wanted,
                };
                Ok(true)
            }
            _ => Ok(false),
        }
    }

    // A word is a flag where no `=` follows.
    fn settle<F: FnMut(&Predicate<'_>) -> bool>(&mut self, holds: &mut F)
        requires { F.IsAlwaysCallable holds.old }
        ensures callable { F.IsAlwaysCallable holds.new }
        ensures next { (known : AnswerMap) (asked : List Atom) (s : ReaderState)
            → Follows F.FnMut known asked holds.old → KeepsState known self.old s
            → CoversFlag known asked s → KeepsState known self.new (flag_ended s) }
        ensures again { (known : AnswerMap) (asked : List Atom) (s : ReaderState)
            → Follows F.FnMut known asked holds.old → KeepsState known self.old s
            → CoversFlag known asked s → Follows F.FnMut known asked holds.new }
    {
        if let Last::Key(word) = self.last {
            self.last = Last::Value(value_of(holds, &Predicate::Flag(word)));
        }
    }

    // A comma after a predicate.
    fn separate(&mut self) -> bool
        ensures { (known : AnswerMap) (s : ReaderState) → KeepsState known self.old (flag_ended s)
            → NextState known (next_state s (Plain Comma)) result self.new }
    {
        let Last::Value(operand) = self.last else {
            return false;
        };
        let Some(top) = self.current else {
            return false;
        };
        match top.function {
            Function::All | Function::Any => {
                self.current = Some(top.add(operand));
                self.last = Last::Allowed;
                true
            }
            Function::Not => false,
        }
    }

    // The value of the innermost function that is open, where it may end here.
    fn ending(&self) -> Option<bool>
        ensures { result ≡ ending self.now.last self.now.current }
    {
        let top = self.current?;
        match self.last {
            Last::Value(operand) => Some(top.add(operand).value),
            Last::Allowed => Some(top.value),
            _ => None,
        }
    }

    // The end of the innermost function that is open.
    fn close(&mut self) -> bool
        ensures { (known : AnswerMap) (s : ReaderState) → KeepsState known self.old (flag_ended s)
            → NextState known (next_state s (Plain Close)) result self.new }
    {
        let Some(value) = self.ending() else {
            return false;
        };
        self.current = self.outer.pop();
        self.last = Last::Value(value);
        true
    }

    // Takes a token, if it fits.
    pub(crate) fn accept<F: FnMut(&Predicate<'_>) -> bool>(
        &mut self,
        holds: &mut F,
        token: Token<'a>,
    ) -> Result<bool, AllocError>
        requires { F.IsAlwaysCallable holds.old }
        ensures callable { F.IsAlwaysCallable holds.new }
        ensures next { IfOk result (λ fits.
            (known : AnswerMap) (asked : List Atom) (s : ReaderState)
            → Follows F.FnMut known asked holds.old → KeepsState known self.old s
            → Covers known asked s (token_of token.entry)
            → NextState known (next_state s (token_of token.entry)) fits self.new) }
        ensures again { IfOk result (λ _.
            (known : AnswerMap) (asked : List Atom) (s : ReaderState)
            → Follows F.FnMut known asked holds.old → KeepsState known self.old s
            → Covers known asked s (token_of token.entry) → Follows F.FnMut known asked holds.new) }
        ensures inside { IfErr result (λ _. (known : AnswerMap) (s : ReaderState)
            → KeepsState known self.old s → OpensInside s) }
    {
        match token {
            Token::Word(word) => Ok(self.word(word)),
            Token::RawWord(word) => Ok(self.word(word)),
            Token::Quoted(val) => Ok(self.quoted(holds, val)),
            Token::Function(function) => Ok(self.function(function)),
            Token::Equals => Ok(self.equals()),
            Token::OpenParen => self.open_paren(),
            Token::CloseParen => {
                self.settle(holds);
                Ok(self.close())
            }
            Token::Comma => {
                self.settle(holds);
                Ok(self.separate())
            }
        }
    }

    // The value at the end of the text; false where it may not end here.
    pub(crate) fn finish<F: FnMut(&Predicate<'_>) -> bool>(&mut self, holds: &mut F) -> bool
        requires { F.IsAlwaysCallable holds.old }
        ensures { (known : AnswerMap) (asked : List Atom) (s : ReaderState)
            → Follows F.FnMut known asked holds.old → KeepsState known self.old s
            → CoversFlag known asked s → EndsWith known (tree_at_end s) result }
    {
        self.settle(holds);
        match self.current {
            None => match self.last {
                Last::Value(value) => value,
                _ => false,
            },
            Some(_) => false,
        }
    }
}
