//! A TOML text, byte by byte: where its keys are spelled.
ghost use Rattle.std.specs.Prelude.{◌≡◌, ◌≤◌, ◌-◌, ◌^◌, ℕ, suc, length, List, None, slice_get, IfOk, IfSome, OnOk, Some};
ghost use Rattle.cc2_reports.specs.Locations.{IsLocation};
ghost use Rattle.cc2_reports.specs.Scanning.{ArePlaces, IsPlace, IsTrueOf, KeepsTrue, KeepsAt};

use crate::found::{Found, Place};
use crate::location::{Location, Span};
use crate::path::{Piece, byte_count, joined};
use std::alloc::{AllocError, Global};
use std::collections::BTreeMap;

// A path of more keys or more bytes isn't kept, so that a key costs no more than so much.
const MOST_KEYS: usize = 8;

const MOST_BYTES: usize = 1_000;

// What the next byte is read as.
#[derive(Clone, Copy)]
enum State {
    // What precedes a key or a header.
    Start,
    // A comment, up to the end of its line.
    Comment,
    // A dotted key, outside of quotes.
    Key,
    // A piece of a key between quotes, after a backslash or not.
    QuotedKey { quote: u8, escaped: bool },
    // A value, outside of texts.
    Value,
    // A text that began with one quote, or with two.
    Opening { quote: u8, is_second: bool },
    // A text of one line, after a backslash or not.
    Text { quote: u8, escaped: bool },
    // A text of several lines, after a backslash or not, and after so many quotes.
    LongText { quote: u8, escaped: bool, run: u8 },
}

// A bracket that is open in a value.
#[derive(Clone, Copy)]
enum Open {
    Array,
    // An inline table, and how many keys lead to it.
    Table(usize),
}

/// What was read of a text, and where its keys were found.
#[derive(Drop)]
pub struct Scanner<'a> {
    alloc: Global,
    text: &'a str,
    here: Location,
    state: State,
    is_header: bool,
    // The keys that lead here, and how many of them lead to the table of the last header.
    path: Vec<Piece<'a>>,
    in_table: usize,
    open: Vec<Open>,
    // Where the piece of a key began that is being read, and whether a backslash occurs in it.
    piece: Option<Location>,
    has_escapes: bool,
    // The number of the last key that was found, if it was kept, and whether its value begins next.
    last: Option<usize>,
    is_before_value: bool,
    found: Found,
}

impl<'a> Scanner<'a> {
    /// Nothing is read yet; the text is read from a location on.
    pub fn new(alloc: Global, text: &'a str, start: Location) -> Scanner<'a>
        ensures { (whole : List ℕ) → IsLocation whole start
            → IsTrueOf whole result × (result.here ≡ start) }
    {
        Scanner {
            alloc,
            text,
            here: start,
            state: State::Start,
            is_header: false,
            path: Vec::new(alloc),
            in_table: 0,
            open: Vec::new(alloc),
            piece: None,
            has_escapes: false,
            last: None,
            is_before_value: false,
            found: Found {
                places: Vec::new(alloc),
                numbers: BTreeMap::new(alloc),
            },
        }
    }

    /// Where each key was first found.
    pub fn into_found(self) -> Found
        ensures { result ≡ self.entry.found }
    {
        self.found
    }

    /// Reads the next byte.
    ///
    /// # Errors
    /// `AllocError` where memory ran out.
    pub fn step(&mut self, byte: u8) -> Result<(), AllocError>
        ensures { (text : List ℕ) → length text ≤ 2 ^ 64 - 1 → IsTrueOf text self.old
            → slice_get text self.old.here.offset ≡ Some byte
            → OnOk result (IsTrueOf text self.new
            × (self.new.here.offset ≡ suc self.old.here.offset)) }
    {
        self.read(byte)?;
        self.here = self.here.behind(byte);
        Ok(())
    }

    // Reads the byte that is here.
    fn read(&mut self, byte: u8) -> Result<(), AllocError>
        ensures { OnOk result (KeepsAt byte self.old self.new) }
    {
        match self.state {
            State::Start => self.at_start(byte),
            State::Comment => {
                if byte == b'\n' {
                    self.end_line();
                }
                Ok(())
            }
            State::Key => self.in_key(byte),
            State::QuotedKey { quote, escaped } => self.in_quoted_key(byte, quote, escaped),
            State::Value => self.in_value(byte),
            State::Opening { quote, is_second } => self.in_opening(byte, quote, is_second),
            State::Text { quote, escaped } => {
                self.in_text(byte, quote, escaped);
                Ok(())
            }
            State::LongText {
                quote,
                escaped,
                run,
            } => self.in_long_text(byte, quote, escaped, run),
        }
    }

    fn at_start(&mut self, byte: u8) -> Result<(), AllocError>
        ensures { OnOk result (KeepsAt byte self.old self.new) }
    {
        match byte {
            b' ' | b'\t' | b'\r' | b'\n' | b',' => (),
            b'#' => self.state = State::Comment,
            b'}' => self.close(),
            b'[' if self.open.is_empty() => {
                self.path.clear();
                self.is_header = true;
                self.state = State::Key;
            }
            _ => {
                self.is_header = false;
                self.state = State::Key;
                self.in_key(byte)?;
            }
        }
        Ok(())
    }

    fn in_key(&mut self, byte: u8) -> Result<(), AllocError>
        ensures { OnOk result (KeepsAt byte self.old self.new) }
    {
        match byte {
            b'"' | b'\'' => {
                self.piece = Some(self.here.behind(byte));
                self.state = State::QuotedKey {
                    quote: byte,
                    escaped: false,
                };
            }
            b'.' | b' ' | b'\t' | b'[' => self.end_piece()?,
            b'=' => {
                self.end_piece()?;
                self.is_before_value = true;
                self.state = State::Value;
            }
            b']' if self.is_header => {
                self.end_piece()?;
                self.in_table = self.path.len();
                self.state = State::Comment;
            }
            b'\n' => {
                self.end_piece()?;
                self.end_line();
            }
            _ => {
                if self.piece.is_none() {
                    self.piece = Some(self.here);
                }
            }
        }
        Ok(())
    }

    fn in_quoted_key(&mut self, byte: u8, quote: u8, escaped: bool) -> Result<(), AllocError>
        ensures { OnOk result (KeepsTrue self.old self.new) }
    {
        if !escaped && byte == quote {
            self.state = State::Key;
            return self.end_piece();
        }
        let escaped = !escaped && quote == b'"' && byte == b'\\';
        if escaped {
            self.has_escapes = true;
        }
        self.state = State::QuotedKey { quote, escaped };
        Ok(())
    }

    fn in_value(&mut self, byte: u8) -> Result<(), AllocError>
        ensures { OnOk result (KeepsTrue self.old self.new) }
    {
        self.begin_value(byte);
        match byte {
            b'"' | b'\'' => {
                self.state = State::Opening {
                    quote: byte,
                    is_second: false,
                };
            }
            b'[' => self.open.push(Open::Array)?,
            b'{' => {
                self.open.push(Open::Table(self.path.len()))?;
                self.state = State::Start;
            }
            b']' | b'}' => self.close(),
            b',' => self.next_member(),
            b'#' => self.state = State::Comment,
            b'\n' => self.end_line(),
            _ => self.state = State::Value,
        }
        Ok(())
    }

    fn in_opening(&mut self, byte: u8, quote: u8, is_second: bool) -> Result<(), AllocError>
        ensures { OnOk result (KeepsTrue self.old self.new) }
    {
        if byte == quote && is_second {
            self.state = State::LongText {
                quote,
                escaped: false,
                run: 0,
            };
        } else if byte == quote {
            self.state = State::Opening {
                quote,
                is_second: true,
            };
        } else if is_second {
            self.state = State::Value;
            self.in_value(byte)?;
        } else {
            self.in_text(byte, quote, false);
        }
        Ok(())
    }

    fn in_text(&mut self, byte: u8, quote: u8, escaped: bool)
        ensures { KeepsTrue self.old self.new }
    {
        if byte == b'\n' {
            self.end_line();
        } else if !escaped && byte == quote {
            self.state = State::Value;
        } else {
            let escaped = !escaped && quote == b'"' && byte == b'\\';
            self.state = State::Text { quote, escaped };
        }
    }

    // Three quotes end it; up to two more before them belong to the text.
    fn in_long_text(
        &mut self,
        byte: u8,
        quote: u8,
        escaped: bool,
        run: u8,
    ) -> Result<(), AllocError>
        ensures { OnOk result (KeepsTrue self.old self.new) }
    {
        if !escaped && byte == quote {
            self.state = State::LongText {
                quote,
                escaped: false,
                run: run.saturating_add(1),
            };
        } else if run >= 3 {
            self.state = State::Value;
            self.in_value(byte)?;
        } else {
            let escaped = !escaped && quote == b'"' && byte == b'\\';
            self.state = State::LongText {
                quote,
                escaped,
                run: 0,
            };
        }
        Ok(())
    }

    // Notes that the value of the last key begins here, where it does with this byte.
    fn begin_value(&mut self, byte: u8)
        ensures { KeepsTrue self.old self.new }
    {
        if !self.is_before_value || byte == b' ' || byte == b'\t' {
            return;
        }
        self.is_before_value = false;
        if let Some(last) = self.last {
            if let Some(place) = self.found.places.get_mut(last) {
                place.value = Some(self.here);
            }
        }
    }

    // Ends the piece of a key that is being read, if one is, before the byte here.
    fn end_piece(&mut self) -> Result<(), AllocError>
        ensures { OnOk result (KeepsTrue self.old self.new) }
    {
        let Some(start) = self.piece.take() else {
            return Ok(());
        };
        let has_escapes = self.has_escapes;
        self.has_escapes = false;
        if let Some(spelled) = self.text.get(start.offset..self.here.offset) {
            self.path.push(Piece {
                spelled,
                has_escapes,
            })?;
            self.keep(start)?;
        }
        Ok(())
    }

    // KeepsTrue where the last key of the path is spelled, where it is the first of its path, which isn't too long.
    fn keep(&mut self, start: Location) -> Result<(), AllocError>
        ensures { (text : List ℕ) → IsLocation text start → start.offset ≤ self.old.here.offset
            → IsTrueOf text self.old
            → OnOk result (IsTrueOf text self.new × (self.new.here ≡ self.old.here)) }
    {
        self.last = None;
        if self.path.len() > MOST_KEYS || byte_count(self.path.as_slice()) > MOST_BYTES {
            return Ok(());
        }
        let name = joined(self.alloc, self.path.as_slice())?;
        if self.found.numbers.get(name.as_str()).is_none() {
            let number = self.found.places.len();
            self.found.places.push(Place {
                key: Span {
                    start,
                    end: self.here,
                },
                value: None,
            })?;
            self.found.numbers.insert(name, number)?;
            self.last = Some(number);
        }
        Ok(())
    }

    // A line ends outside of texts: with it a statement, where no bracket is open.
    fn end_line(&mut self)
        ensures { KeepsTrue self.old self.new }
    {
        if self.open.is_empty() {
            self.path.truncate(self.in_table);
            self.state = State::Start;
        } else {
            self.state = State::Value;
        }
    }

    // The innermost bracket is closed.
    fn close(&mut self)
        ensures { KeepsTrue self.old self.new }
    {
        self.state = State::Value;
        if let Some(Open::Table(keys)) = self.open.pop() {
            self.path.truncate(keys);
        }
    }

    // A comma: in an inline table a key comes next.
    fn next_member(&mut self)
        ensures { KeepsTrue self.old self.new }
    {
        if let Some(Open::Table(keys)) = self.open.last() {
            self.path.truncate(*keys);
            self.state = State::Start;
        }
    }
}
