//! Headers of tiles in architecture files.

/// Returns the byte at which the line of `bytes` begins that opens `tile` as one table, `[tiles.A]`.
pub fn table_line(bytes: &[u8], tile: &str) -> Option<usize> {
    let mut at = 0usize;
    for line in bytes.split(|byte| *byte == b'\n') {
        let begins = at;
        at = at.saturating_add(line.len()).saturating_add(1);
        if tile_between(line, "[tiles.", "]") == Some(tile) {
            return Some(begins);
        }
    }
    None
}

/// Returns the tile of the header that `rest` begins with, in single or double brackets.
pub fn header_tile(rest: &[u8]) -> Option<&str> {
    let line = rest.split(|byte| *byte == b'\n').next()?;
    tile_between(line, "[[tiles.", "]]").or(tile_between(line, "[tiles.", "]"))
}

/// Returns the tile of the last header of a part in `before`.
pub fn last_tile(before: &[u8]) -> Option<&str> {
    before
        .split(|byte| *byte == b'\n')
        .filter_map(|line| tile_between(line, "[[tiles.", "]]"))
        .last()
}

/// Returns the text in `line` between `open`, with which it begins, and `close`, with which it ends, apart from blanks
/// around the line.
fn tile_between<'a>(line: &'a [u8], open: &str, close: &str) -> Option<&'a str> {
    let text = std::str::from_utf8(line).ok()?;
    text.trim().strip_prefix(open)?.strip_suffix(close)
}
