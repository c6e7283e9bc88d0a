//! Reading fields: four bytes that tell a length, the lowest first, and so many bytes.
ghost use Rattle.std.specs.Prelude.{◌≡◌, ◌↔◌, [], ◌∷◌, IsTrue, map, string_bytes, Some, None, MatchOption};
ghost use Rattle.cc2_ask.specs.Fields.{number_at, bytes_at, field_at, text_at, list_at, texts_at};
ghost use Rattle.cc2_ask.specs.Views.{IsRead, IsText};

use crate::fault::Fault;
use std::alloc::Global;

/// What is left of a request.
#[derive(Drop)]
pub struct Reader<'a> {
    rest: &'a [u8],
}

impl<'a> Reader<'a> {
    /// All of a request.
    pub fn new(request: &'a [u8]) -> Reader<'a>
        ensures { result.rest.now ≡ request.now }
    {
        Reader { rest: request }
    }

    /// Whether nothing is left.
    pub fn is_at_end(&self) -> bool
        ensures { IsTrue result ↔ (self.now.rest.now ≡ []) }
    {
        self.rest.is_empty()
    }

    /// Takes the next byte.
    pub fn byte(&mut self) -> Option<u8>
        ensures { MatchOption result (self.old.rest.now ≡ []) (λ b.
            self.old.rest.now ≡ b ∷ self.new.rest.now) }
    {
        let (first, rest) = self.rest.split_first()?;
        self.rest = rest;
        Some(*first)
    }

    /// Takes four bytes that tell a number.
    pub fn number(&mut self) -> Option<usize>
        ensures { MatchOption result (number_at self.old.rest.now ≡ None) (λ n.
            number_at self.old.rest.now ≡ Some (n, self.new.rest.now)) }
    {
        let (number, rest) = number_in(self.rest)?;
        self.rest = rest;
        Some(number)
    }

    // Takes so many bytes.
    fn take(&mut self, count: usize) -> Option<&'a [u8]>
        ensures { MatchOption result (bytes_at count self.old.rest.now ≡ None) (λ bytes.
            bytes_at count self.old.rest.now ≡ Some (bytes.now, self.new.rest.now)) }
    {
        let (bytes, rest) = self.rest.split_at_checked(count)?;
        self.rest = rest;
        Some(bytes)
    }

    // Takes a field.
    fn field(&mut self) -> Option<&'a [u8]>
        ensures { MatchOption result (field_at self.old.rest.now ≡ None) (λ field.
            field_at self.old.rest.now ≡ Some (field.now, self.new.rest.now)) }
    {
        let length = self.number()?;
        self.take(length)
    }

    /// Takes a field.
    ///
    /// # Errors
    /// `Fault::Malformed` where the request ends within it, `Fault::Memory` where memory ran out.
    pub fn bytes(&mut self, alloc: Global) -> Result<Vec<u8>, Fault>
        ensures { IsRead
            (λ bytes. bytes.items) (field_at self.old.rest.now) result self.new.rest.now }
    {
        match self.field() {
            Some(field) => Ok(Vec::from_slice(alloc, field)?),
            None => Err(Fault::Malformed),
        }
    }

    /// Takes a field that is text.
    ///
    /// # Errors
    /// `Fault::Malformed` where the request ends within it or it isn't UTF-8, `Fault::Memory` where memory ran out.
    pub fn text(&mut self, alloc: Global) -> Result<String, Fault>
        ensures { IsRead string_bytes (text_at self.old.rest.now) result self.new.rest.now }
    {
        match self.field() {
            Some(field) => text_of(alloc, field),
            None => Err(Fault::Malformed),
        }
    }

    /// Takes a list of texts: a number in four bytes, and so many fields.
    ///
    /// # Errors
    /// `Fault::Malformed` where the request ends within it or a field isn't UTF-8, `Fault::Memory` where memory
    /// ran out.
    pub fn texts(&mut self, alloc: Global) -> Result<Vec<String>, Fault>
        ensures { IsRead (λ texts. map string_bytes texts.items)
            (list_at self.old.rest.now) result self.new.rest.now }
    {
        match self.number() {
            Some(count) => self.so_many_texts(alloc, count),
            None => Err(Fault::Malformed),
        }
    }

    // Takes so many fields that are text.
    fn so_many_texts(&mut self, alloc: Global, count: usize) -> Result<Vec<String>, Fault>
        ensures { IsRead
            (λ texts. map string_bytes texts.items) (texts_at count self.old.rest.now) result
            self.new.rest.now }
    {
        let mut texts = Vec::new(alloc);
        for _ in 0..count {
            texts.push(self.text(alloc)?)?;
        }
        Ok(texts)
    }
}

// The bytes as text.
fn text_of(alloc: Global, bytes: &[u8]) -> Result<String, Fault>
    ensures { IsText bytes.now result }
{
    match str::from_utf8(bytes) {
        Ok(text) => Ok(String::from_str(alloc, text)?),
        Err(_) => Err(Fault::Malformed),
    }
}

// The number in four bytes at the front, and what is after it.
fn number_in(bytes: &[u8]) -> Option<(usize, &[u8])>
    ensures { MatchOption result (number_at bytes.now ≡ None) (λ r.
        number_at bytes.now ≡ Some (r.0, r.1.now)) }
{
    match bytes {
        [a, b, c, d, rest @ ..] => Some((u32::from_le_bytes([*a, *b, *c, *d]) as usize, rest)),
        _ => None,
    }
}
