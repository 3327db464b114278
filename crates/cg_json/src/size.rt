//! The memory that a text may take once parsed.

/// The most bytes that the values of one text may take.
pub const MOST_MEMORY: u64 = 1_000_000_000;

/// The greatest depth at which values may nest. The parser goes no deeper.
const MOST_DEPTH: u32 = 128;

/// The place of a byte in a text.
#[derive(Clone, Copy, PartialEq, Eq)]
enum Place {
    Bare,
    /// In a string.
    Text,
    /// In a string, after a backslash.
    Escaped,
}

impl Place {
    /// Returns the place after one more byte, `byte`.
    fn after(self, byte: u8) -> Place {
        match (self, byte) {
            (Place::Bare, b'"') | (Place::Escaped, _) => Place::Text,
            (Place::Text, b'\\') => Place::Escaped,
            (Place::Text, b'"') => Place::Bare,
            _ => self,
        }
    }
}

/// Estimates the most bytes that the values of a text take, with what a reader makes of them. An object with members
/// takes a node of a map, an array with items a list of at least four, and each item of a list its place there. What
/// comes after too many open brackets isn't counted, since it isn't parsed.
pub(crate) fn memory_for(bytes: &[u8]) -> u64 {
    let mut memory = 0u64;
    let mut place = Place::Bare;
    let mut depth = 0u32;
    let mut before = b' ';
    for byte in bytes {
        let is_bare = place == Place::Bare;
        memory = memory.saturating_add(if is_bare { weight(before, *byte) } else { 4 });
        if is_bare {
            depth = depth_after(depth, *byte);
        }
        if depth > MOST_DEPTH {
            return memory;
        }
        place = place.after(*byte);
        before = *byte;
    }
    memory
}

/// Returns the bytes of memory for `byte` after `before`, outside of strings.
fn weight(before: u8, byte: u8) -> u64 {
    match (before, byte) {
        (b'{', b'}') | (b'[', b']') => 4,
        (b'{', _) => 1024,
        (b'[', _) => 160,
        (b',', _) => 110,
        _ => 4,
    }
}

/// Returns how many brackets are open after `byte`, outside of strings.
fn depth_after(depth: u32, byte: u8) -> u32 {
    match byte {
        b'[' | b'{' => depth.saturating_add(1),
        b']' | b'}' => depth.saturating_sub(1),
        _ => depth,
    }
}
