//! How far a value reaches in its line.

/// How many bytes the value has that begins with a text of one line; of one that goes on in the next line those
/// of this line, without the white space at its end.
pub fn value_length(line: &str) -> usize {
    if line.starts_with("\"\"\"") {
        long_text_length(line, "\"\"\"")
    } else if line.starts_with("'''") {
        long_text_length(line, "'''")
    } else {
        short_length(line)
    }
}

// That of a text between three quotes each.
fn long_text_length(line: &str, quotes: &str) -> usize {
    match line.get(3..).and_then(|rest| rest.find(quotes)) {
        Some(inner) => inner.saturating_add(6).min(line.len()),
        None => trimmed(line, line.len()),
    }
}

// What is read of a value.
#[derive(Clone, Copy)]
struct Reading {
    // The quote of the text that is being read, and whether a backslash precedes the next byte.
    quote: Option<u8>,
    is_escaped: bool,
    // How many brackets are open.
    depth: usize,
}

// Whether the value goes on.
#[derive(Clone, Copy)]
enum Reach {
    // It goes on.
    More(Reading),
    // It ends with this byte.
    Last,
    // It ended before it.
    Ended,
}

fn short_length(line: &str) -> usize {
    let mut reading = Reading {
        quote: None,
        is_escaped: false,
        depth: 0,
    };
    for (at, byte) in line.as_bytes().iter().enumerate() {
        match next(reading, *byte) {
            Reach::More(more) => reading = more,
            Reach::Last => return at.saturating_add(1),
            Reach::Ended => return trimmed(line, at),
        }
    }
    trimmed(line, line.len())
}

fn next(reading: Reading, byte: u8) -> Reach {
    match reading.quote {
        Some(quote) => in_text(reading, quote, byte),
        None => outside(reading, byte),
    }
}

fn in_text(reading: Reading, quote: u8, byte: u8) -> Reach {
    if reading.is_escaped {
        Reach::More(Reading {
            is_escaped: false,
            ..reading
        })
    } else if byte == quote && reading.depth == 0 {
        Reach::Last
    } else if byte == quote {
        Reach::More(Reading {
            quote: None,
            ..reading
        })
    } else {
        Reach::More(Reading {
            is_escaped: quote == b'"' && byte == b'\\',
            ..reading
        })
    }
}

fn outside(reading: Reading, byte: u8) -> Reach {
    match byte {
        b'"' | b'\'' => Reach::More(Reading {
            quote: Some(byte),
            ..reading
        }),
        b'[' | b'{' => Reach::More(Reading {
            depth: reading.depth.saturating_add(1),
            ..reading
        }),
        b']' | b'}' if reading.depth == 1 => Reach::Last,
        b']' | b'}' if reading.depth > 1 => Reach::More(Reading {
            depth: reading.depth.saturating_sub(1),
            ..reading
        }),
        b']' | b'}' | b'#' => Reach::Ended,
        b',' if reading.depth == 0 => Reach::Ended,
        _ => Reach::More(reading),
    }
}

// How many bytes are left of so many without the white space at their end.
fn trimmed(line: &str, length: usize) -> usize {
    match line.get(..length) {
        Some(front) => front.trim_end().len(),
        None => length,
    }
}
