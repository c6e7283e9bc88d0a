//! The parser: it goes over the tokens once and builds the table of nodes, without recursion.

ghost use Rattle.std.specs.Prelude.{◌≡◌, ℕ, ◌+◌, List, [], ◌∷◌, ◌++◌, map, length, IfOk, IfErr, is_some, true, false, ◌<◌};
ghost use Rattle.cc2_cfg.specs.Tokens.{Operator, Lexeme, Word, Quoted, Fun, Equals, Open, Close, Comma, IsBlank, Spelled};
ghost use Rattle.cc2_cfg.specs.Lexing.{lexeme_of};
ghost use Rattle.cc2_cfg.specs.Grammar.{Tree, Trees, IsTree};
ghost use Rattle.cc2_cfg.specs.Machine.{State, Frames, Above, step, finish, close, ended};
ghost use Rattle.cc2_cfg.specs.Table.{operator_of, label_of, row_of};
ghost use Rattle.cc2_cfg.specs.Reading.{Represents, Stepped, Finished, frame_place, may_begin, settled, single, is_not, front_rows, places};
ghost use Rattle.cc2_cfg.specs.Refusing.{IsRefusal};
ghost use Rattle.cc2_cfg.specs.Shown.{tree_of};

use crate::expression::{Expression, Func, Kind, Node};
use crate::lexer::{Lexer, LexerToken};
use crate::refusal::refused;
use crate::token::Token;
use cc2_error::{CfgError, LexFault, Reason};
use std::alloc::{AllocError, Global};

// What came last.
#[derive(Clone, Copy)]
pub(crate) enum Last<'a> {
    Start,
    // A function's name, and where it begins.
    Name(Func, usize),
    Opening,
    Comma,
    Key(&'a str),
    Equals(&'a str),
    End,
}

// An open function: its place in the table, and where its name and its parenthesis are in the text.
#[derive(Clone, Copy)]
pub(crate) struct Frame {
    pub(crate) place: usize,
    pub(crate) name: usize,
    pub(crate) paren: usize,
}

// The table so far, the functions that are open, and what came last.
#[derive(Drop)]
pub(crate) struct Parser<'a> {
    pub(crate) nodes: Vec<Node>,
    pub(crate) stack: Vec<Frame>,
    pub(crate) last: Last<'a>,
    // The function that may not end at the parenthesis which was refused.
    pub(crate) unfit: Option<Frame>,
}

fn is_not(kind: &Kind) -> bool
    ensures { result ≡ is_not (label_of kind.now) }
{
    match kind {
        Kind::Function(Func::Not) => true,
        _ => false,
    }
}

impl<'a> Parser<'a> {
    // Whether a predicate may begin here.
    fn may_begin(&self) -> bool
        ensures { (s : State) → Represents self.now s → result ≡ may_begin s }
    {
        match self.last {
            Last::Start | Last::Opening => true,
            Last::Comma => !self.stack.is_empty(),
            _ => false,
        }
    }

    fn word(&mut self, word: &'a str) -> bool
        ensures { (s : State) → Represents self.old s
            → Stepped (step s (Word word.now)) result self.new }
    {
        let fits = self.may_begin();
        if fits {
            self.last = Last::Key(word);
        }
        fits
    }

    fn function(&mut self, func: Func, at: usize) -> bool
        ensures { (s : State) → Represents self.old s
            → Stepped (step s (Fun (operator_of func))) result self.new }
    {
        let fits = self.may_begin();
        if fits {
            self.last = Last::Name(func, at);
        }
        fits
    }

    fn equals(&mut self) -> bool
        ensures { (s : State) → Represents self.old s → Stepped (step s Equals) result self.new }
    {
        match self.last {
            Last::Key(key) => {
                self.last = Last::Equals(key);
                true
            }
            _ => false,
        }
    }

    // Adds a flag or a pair, which ends there.
    fn push_leaf(&mut self, kind: Kind) -> Result<(), AllocError>
        ensures table { IfOk result (λ _. map row_of self.new.nodes.items
            ≡ map row_of self.old.nodes.items
            ++ record { label = label_of kind; end = length self.old.nodes.items + 1 } ∷ []) }
        ensures stack { IfOk result (λ _. self.new.stack ≡ self.old.stack) }
        ensures last { IfOk result (λ _. self.new.last ≡ Last.End) }
    {
        let end = self.nodes.len() + 1;
        self.nodes.push(Node { kind, end })?;
        self.last = Last::End;
        Ok(())
    }

    fn value(&mut self, alloc: Global, value: &str) -> Result<bool, AllocError>
        ensures { IfOk result (λ fits. (s : State) → Represents self.old s
            → Stepped (step s (Quoted value.now)) fits self.new) }
    {
        match self.last {
            Last::Equals(key) => {
                let key = String::from_str(alloc, key)?;
                let value = String::from_str(alloc, value)?;
                self.push_leaf(Kind::Pair(key, value))?;
                Ok(true)
            }
            _ => Ok(false),
        }
    }

    fn open_paren(&mut self, paren: usize) -> Result<bool, AllocError>
        ensures { IfOk result (λ fits.
            (s : State) → Represents self.old s → Stepped (step s Open) fits self.new) }
    {
        match self.last {
            Last::Name(func, name) => {
                let place = self.nodes.len();
                self.stack.push(Frame { place, name, paren })?;
                self.nodes.push(Node {
                    kind: Kind::Function(func),
                    end: 0,
                })?;
                self.last = Last::Opening;
                Ok(true)
            }
            _ => Ok(false),
        }
    }

    // A word is a predicate where no `=` follows.
    fn settle(&mut self, alloc: Global) -> Result<(), AllocError>
        ensures { IfOk result (λ _.
            (s : State) → Represents self.old s → Represents self.new (settled s)) }
    {
        if let Last::Key(key) = self.last {
            let key = String::from_str(alloc, key)?;
            self.push_leaf(Kind::Flag(key))?;
        }
        Ok(())
    }

    fn comma(&mut self, alloc: Global) -> Result<bool, AllocError>
        ensures { IfOk result (λ fits.
            (s : State) → Represents self.old s → Stepped (step s Comma) fits self.new) }
    {
        self.settle(alloc)?;
        match self.last {
            Last::End => {
                self.last = Last::Comma;
                Ok(true)
            }
            Last::Comma => Ok(true),
            _ => Ok(false),
        }
    }

    // Whether the function at this place, the innermost that is open, has one predicate.
    fn is_single(&self, place: usize) -> bool
        requires { place < length self.now.nodes.items }
        ensures { (frames : Frames) (f : Operator) (trees : Trees)
            → map row_of self.now.nodes.items ≡ front_rows (Above f trees frames)
            → place ≡ length (front_rows frames) → result ≡ single trees }
    {
        let end = self.nodes.len();
        if place + 1 == end {
            return false;
        }
        let first = &self.nodes[place + 1];
        first.end == end
    }

    // Whether that function may end here.
    fn may_end(&self, place: usize) -> bool
        requires { place < length self.now.nodes.items }
        ensures { (frames : Frames) (f : Operator) (trees : Trees)
            → map row_of self.now.nodes.items ≡ front_rows (Above f trees frames)
            → place ≡ length (front_rows frames) → result ≡ is_some (close f trees) }
    {
        let node = &self.nodes[place];
        if is_not(&node.kind) {
            self.is_single(place)
        } else {
            true
        }
    }

    // Ends the innermost function that is open.
    fn close_top(&mut self) -> bool
        ensures some { (frames : Frames) (f : Operator) (trees : Trees)
            → map row_of self.old.nodes.items ≡ front_rows (Above f trees frames)
            → map frame_place self.old.stack.items ≡ places (Above f trees frames)
            → Stepped (ended frames (close f trees)) result self.new }
        ensures none { map frame_place self.old.stack.items ≡ [] → result ≡ false }
    {
        let Some(frame) = self.stack.pop() else {
            return false;
        };
        let end = self.nodes.len();
        if frame.place >= end {
            return false;
        }
        if !self.may_end(frame.place) {
            self.unfit = Some(frame);
            return false;
        }
        self.nodes[frame.place].end = end;
        self.last = Last::End;
        true
    }

    fn close_paren(&mut self, alloc: Global) -> Result<bool, AllocError>
        ensures { IfOk result (λ fits.
            (s : State) → Represents self.old s → Stepped (step s Close) fits self.new) }
    {
        self.settle(alloc)?;
        match self.last {
            Last::Opening | Last::Comma | Last::End => Ok(self.close_top()),
            _ => Ok(false),
        }
    }

    // Takes a token that begins at this place of the text, if it fits.
    fn accept(&mut self, alloc: Global, token: Token<'a>, at: usize) -> Result<bool, AllocError>
        ensures { IfOk result (λ fits. (s : State) → Represents self.old s
            → Stepped (step s (lexeme_of token.entry)) fits self.new) }
    {
        match token {
            Token::Key(word) => Ok(self.word(word)),
            Token::Value(value) => self.value(alloc, value),
            Token::Equals => Ok(self.equals()),
            Token::All => Ok(self.function(Func::All, at)),
            Token::Any => Ok(self.function(Func::Any, at)),
            Token::Not => Ok(self.function(Func::Not, at)),
            Token::OpenParen => self.open_paren(at),
            Token::CloseParen => self.close_paren(alloc),
            Token::Comma => self.comma(alloc),
        }
    }

    // Whether the text may end here; then the table is complete.
    fn finish(&mut self, alloc: Global) -> Result<bool, AllocError>
        ensures { IfOk result (λ fits.
            (s : State) → Represents self.old s → Finished (finish s) fits self.new) }
    {
        self.settle(alloc)?;
        match self.last {
            Last::End | Last::Comma => Ok(self.stack.is_empty()),
            _ => Ok(false),
        }
    }
}

// Whether the text is white space alone, or nothing.
fn is_blank(text: &str) -> bool
    ensures yes { result ≡ true → IsBlank text.now }
    ensures no { result ≡ false → IsBlank text.now → ⊥ }
{
    text.trim_start().is_empty()
}

impl Expression {
    /// Reads a cfg text, with or without `cfg(` and `)` round it (Rust Reference,
    /// [Conditional compilation](https://doc.rust-lang.org/reference/conditional-compilation.html);
    /// any number of commas may occur between two predicates and after the last). Neither nesting
    /// nor length has a limit but memory.
    ///
    /// # Errors
    /// `CfgError::Parse` exactly where the text is no cfg expression: it holds the stripped text, the
    /// span of whole characters of it that is at fault, and the reason, which is `Reason::Empty`
    /// exactly for blank texts. `CfgError::Memory` where memory ran out.
    pub fn parse(alloc: Global, text: &str) -> Result<Expression, CfgError>
        ensures accepted { IfOk result (λ e.
            (tokens : List Lexeme) × Spelled text.now tokens × IsTree tokens (tree_of e)) }
        ensures only { IfOk result (λ e. (tokens : List Lexeme) (tree : Tree)
            → Spelled text.now tokens → IsTree tokens tree → tree ≡ tree_of e) }
        ensures refused { IfErr result (IsRefusal text.now) }
    {
        let mut lexer = Lexer::new(text);
        let original = lexer.original;
        if is_blank(original) {
            let fault = LexFault {
                span: 0..original.len(),
                reason: Reason::Empty,
            };
            return Err(refused(alloc, original, fault));
        }
        let mut parser = Parser {
            nodes: Vec::new(alloc),
            stack: Vec::new(alloc),
            last: Last::Start,
            unfit: None,
        };
        'tokens: while let Some(item) = lexer.next() {
            match item {
                Ok(found) => {
                    let LexerToken { token, span } = found;
                    if !parser.accept(alloc, token, span.start)? {
                        let fault = parser.unexpected(token, span, original.len());
                        return Err(refused(alloc, original, fault));
                    }
                }
                Err(fault) => return Err(refused(alloc, original, fault)),
            }
        }
        if !parser.finish(alloc)? {
            let fault = parser.unfinished(original.len());
            return Err(refused(alloc, original, fault));
        }
        let Parser { nodes, .. } = parser;
        Ok(Expression { nodes })
    }
}
