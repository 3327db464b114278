//! Places in architecture files.

/// Returns the byte at which the header `[[tiles.TILE]]` of part `part`, counted from 0, of the tile `tile` begins in
/// `text`, an architecture file. Returns None if `text` has no such header. A line within a multi-line string that
/// looks like a header counts as one.
pub fn tile_part_at(text: &[u8], tile: &str, part: usize) -> Option<usize> {
    let mut passed = 0usize;
    let mut is_at_front = true;
    for (place, byte) in text.iter().enumerate() {
        if is_at_front && is_header(&text[place..], tile.as_bytes()) {
            if passed == part {
                return Some(place);
            }
            passed = passed.saturating_add(1);
        }
        is_at_front = *byte == b'\n' || (is_at_front && is_blank(*byte));
    }
    None
}

/// Returns whether `rest` begins with the header of a part of the tile `tile`.
fn is_header(rest: &[u8], tile: &[u8]) -> bool {
    after_header(rest, tile).is_some()
}

/// Returns the bytes after the header of a part of the tile `tile`, if `rest` begins with one.
fn after_header<'a>(rest: &'a [u8], tile: &[u8]) -> Option<&'a [u8]> {
    let tiles = rest.strip_prefix(b"[[")?;
    let dot = after_key(after_blanks(tiles), b"tiles")?;
    let name = after_blanks(dot).strip_prefix(b".")?;
    let end = after_key(after_blanks(name), tile)?;
    after_blanks(end).strip_prefix(b"]]")
}

/// Returns the bytes after the key `key`, bare or in quotes, if `rest` begins with it.
fn after_key<'a>(rest: &'a [u8], key: &[u8]) -> Option<&'a [u8]> {
    let quote = match rest.first()? {
        b'"' | b'\'' => rest.get(..1)?,
        _ => &[],
    };
    rest.strip_prefix(quote)?
        .strip_prefix(key)?
        .strip_prefix(quote)
}

/// Returns `rest` from its first byte on that isn't a blank.
fn after_blanks(rest: &[u8]) -> &[u8] {
    for (place, byte) in rest.iter().enumerate() {
        if !is_blank(*byte) {
            return &rest[place..];
        }
    }
    &[]
}

/// Returns whether `byte` is a blank or a tab.
fn is_blank(byte: u8) -> bool {
    byte == b' ' || byte == b'\t'
}
