//! Places in a text.
ghost use Rattle.std.specs.Prelude.{◌≡◌, ◌+◌, ◌-◌, ◌^◌, ◌≤◌, List, ℕ, take, drop, length};
ghost use Rattle.cc2_reports.specs.Locations.{counted, is_first, IsLocation};
ghost use Rattle.cc2_reports.specs.Scanning.{behind};

/// A place in a text.
#[derive(Clone, Copy, Debug, PartialEq, Eq)]
pub struct Location {
    /// How many bytes come before it.
    pub offset: usize,
    /// Its line; the first one is 1.
    pub line: usize,
    /// Its column in characters; the first one is 1.
    pub column: usize,
}

/// A piece of one line.
#[derive(Clone, Copy, Debug, PartialEq, Eq)]
pub struct Span {
    /// Where it begins.
    pub start: Location,
    /// The place after its last character, in the same line.
    pub end: Location,
}

impl Location {
    /// The beginning of a text, after so many bytes that have no column, as a byte order mark.
    pub(crate) fn start(bytes: usize) -> Location
        ensures { result ≡ record { offset = bytes; line = 1; column = 1 } }
    {
        Location {
            offset: bytes,
            line: 1,
            column: 1,
        }
    }

    /// The place after this byte, which is here.
    pub(crate) fn behind(self, byte: u8) -> Location
        ensures { result ≡ behind self byte }
    {
        let offset = self.offset.saturating_add(1);
        let (line, column) = if byte == b'\n' {
            (self.line.saturating_add(1), 1)
        } else if is_first(byte) {
            (self.line, self.column.saturating_add(1))
        } else {
            (self.line, self.column)
        };
        Location {
            offset,
            line,
            column,
        }
    }

    /// The place after these bytes, which begin here.
    pub(crate) fn behind_all(self, bytes: &[u8]) -> Location
        ensures { (text : List ℕ) → length text ≤ 2 ^ 64 - 1 → IsLocation text self
            → take (length bytes.now) (drop self.offset text) ≡ bytes.now
            → IsLocation text result × (result.offset ≡ self.offset + length bytes.now) }
    {
        let mut here = self;
        for byte in bytes {
            here = here.behind(*byte);
        }
        here
    }
}

// Whether the byte is the first one of a character of UTF-8.
fn is_first(byte: u8) -> bool
    ensures { result ≡ is_first byte }
{
    !(0x80..=0xbf).contains(&byte)
}
