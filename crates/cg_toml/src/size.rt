//! The memory that a text may take once parsed.

/// The most bytes that the values of one text may take.
pub const MOST_MEMORY: u64 = 1_000_000_000;

/// The greatest depth at which values may nest, and the greatest number of dots in a key. The parser goes no further.
const MOST_DEPTH: u32 = 96;

/// The place of a byte in a text. The quote is `"` or `'`.
#[derive(Clone, Copy)]
enum Place {
    /// Outside of strings and comments.
    Bare,
    Comment,
    /// After one quote: in a string of one line, or before the second of three quotes.
    Opened(u8),
    /// After two quotes: an empty string, or before the third.
    Empty(u8),
    /// In a string of one line.
    Line(u8),
    /// In a string of one line, after a backslash.
    Escaped,
    /// In a string of several lines, after a number of quotes, at most three.
    Lines(u8, u8),
    /// In a string of several lines, after a backslash.
    EscapedInLines,
}

impl Place {
    /// Returns the place after one more byte, `byte`.
    fn after(self, byte: u8) -> Place {
        match self {
            Place::Bare => bare(byte),
            Place::Comment => if byte == b'\n' { Place::Bare } else { self },
            Place::Opened(quote) => if byte == quote {
                Place::Empty(quote)
            } else {
                in_line(quote, byte)
            },
            Place::Empty(quote) => if byte == quote {
                Place::Lines(quote, 0)
            } else {
                bare(byte)
            },
            Place::Line(quote) => in_line(quote, byte),
            Place::Escaped => Place::Line(b'"'),
            Place::Lines(quote, quotes) => in_lines(quote, quotes, byte),
            Place::EscapedInLines => Place::Lines(b'"', 0),
        }
    }
}

fn bare(byte: u8) -> Place {
    match byte {
        b'#' => Place::Comment,
        b'"' | b'\'' => Place::Opened(byte),
        _ => Place::Bare,
    }
}

fn in_line(quote: u8, byte: u8) -> Place {
    if byte == quote || byte == b'\n' {
        Place::Bare
    } else if quote == b'"' && byte == b'\\' {
        Place::Escaped
    } else {
        Place::Line(quote)
    }
}

fn in_lines(quote: u8, quotes: u8, byte: u8) -> Place {
    if byte == quote {
        Place::Lines(quote, if quotes < 3 { quotes + 1 } else { 3 })
    } else if quotes == 3 {
        bare(byte)
    } else if quote == b'"' && byte == b'\\' {
        Place::EscapedInLines
    } else {
        Place::Lines(quote, 0)
    }
}

/// Estimates the most bytes that the values of the text `bytes` take, with what a reader makes of them. The first key
/// of a table takes a node of a map, and so does each dot of a key; an array with items takes a list of at least four,
/// and each item of a list its place there. What comes after too many open brackets, or in a key after too many dots,
/// isn't counted, since it isn't parsed.
pub(crate) fn memory_for(bytes: &[u8]) -> u64 {
    let mut memory = 0u64;
    let mut place = Place::Bare;
    let mut before = b' ';
    let mut depth = 0u32;
    let mut dots = 0u32;
    let mut is_first = true;
    for byte in bytes {
        place = place.after(*byte);
        if is_mark(place, *byte) {
            depth = depth_after(depth, *byte);
            dots = dots_after(dots, *byte);
            if depth > MOST_DEPTH || dots > MOST_DEPTH {
                return memory;
            }
            memory = memory.saturating_add(weight(before, *byte, is_first));
            is_first = matches!(*byte, b'[' | b'{') || (is_first && *byte != b'=');
            before = *byte;
        } else {
            memory = memory.saturating_add(4);
        }
    }
    memory
}

/// Returns whether `byte` is outside of strings and comments, or begins a string, and is not a blank.
fn is_mark(place: Place, byte: u8) -> bool {
    matches!(place, Place::Bare | Place::Opened(_)) && !matches!(byte, b' ' | b'\t' | b'\r' | b'\n')
}

/// Returns how many brackets are open after the byte `byte`, which `is_mark` accepts.
fn depth_after(depth: u32, byte: u8) -> u32 {
    match byte {
        b'[' | b'{' => depth.saturating_add(1),
        b']' | b'}' => depth.saturating_sub(1),
        _ => depth,
    }
}

/// Returns the number of dots since the last bracket, comma or `=`, after `byte`. A value has at most one dot, so that
/// nearly all of them belong to a key.
fn dots_after(dots: u32, byte: u8) -> u32 {
    match byte {
        b'.' => dots.saturating_add(1),
        b'[' | b'{' | b']' | b'}' | b',' | b'=' => 0,
        _ => dots,
    }
}

/// Returns the bytes of memory for `byte`, after the last such byte `before` it. An `=` may be the first of its table.
fn weight(before: u8, byte: u8, is_first: bool) -> u64 {
    match (before, byte) {
        (b'[', b']') => 4,
        (b'[', _) => 160,
        (_, b'.') => 900,
        (_, b'=') => if is_first { 1300 } else { 220 },
        (_, b',') => 110,
        _ => 4,
    }
}
