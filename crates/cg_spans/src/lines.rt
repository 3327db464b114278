//! Lines of TOML that set a key.

/// Returns the byte at which the first line of `bytes` begins that sets the bare key `key`.
pub fn key_line(bytes: &[u8], key: &str) -> Option<usize> {
    let mut at = 0usize;
    for line in bytes.split(|byte| *byte == b'\n') {
        let begins = at;
        at = at.saturating_add(line.len()).saturating_add(1);
        if key_of(line).map(|(_, said)| said) == Some(key) {
            return Some(begins);
        }
    }
    None
}

/// Returns the first bare key that isn't one of `keys`, and its place, in the lines of `bytes` from byte `first` on, up
/// to one that begins with a bracket. The line at `first` may itself be the header of a table.
pub fn unknown_key_line<'a>(
    bytes: &'a [u8],
    first: usize,
    keys: &[&str],
) -> Option<(usize, &'a str)> {
    let mut at = first;
    for line in bytes.get(first..)?.split(|byte| *byte == b'\n') {
        let begins = at;
        at = at.saturating_add(line.len()).saturating_add(1);
        if begins > first && begins_with_bracket(line) {
            return None;
        }
        if let Some((blanks, key)) = key_of(line) {
            if !keys.contains(&key) {
                return Some((begins.saturating_add(blanks), key));
            }
        }
    }
    None
}

/// Returns the byte at which the first line of `bytes` begins that sets the bare key `key`, from byte `first` on, up to
/// a line that begins with a bracket. The line at `first` may itself be the header of a table.
pub fn key_line_in(bytes: &[u8], first: usize, key: &str) -> Option<usize> {
    let mut at = first;
    for line in bytes.get(first..)?.split(|byte| *byte == b'\n') {
        let begins = at;
        at = at.saturating_add(line.len()).saturating_add(1);
        if begins > first && begins_with_bracket(line) {
            return None;
        }
        match key_of(line) {
            Some((blanks, said)) if said == key => return Some(begins.saturating_add(blanks)),
            _ => {}
        }
    }
    None
}

/// Checks whether the first byte of `line` that isn't a blank is a bracket.
fn begins_with_bracket(line: &[u8]) -> bool {
    line.iter().find(|byte| !is_blank(**byte)) == Some(&b'[')
}

/// Returns the bare key that `line` sets, and the number of blanks before it.
fn key_of(line: &[u8]) -> Option<(usize, &str)> {
    let text = std::str::from_utf8(line).ok()?;
    let (left, _) = text.split_once('=')?;
    let blanks = line.iter().take_while(|byte| is_blank(**byte)).count();
    let key = left.trim();
    if is_bare(key) {
        Some((blanks, key))
    } else {
        None
    }
}

/// Checks whether `key` is a bare key.
fn is_bare(key: &str) -> bool {
    !key.is_empty()
        && key.bytes().all(|byte| byte.is_ascii_alphanumeric() || byte == b'_' || byte == b'-')
}

/// Checks whether `byte` is a blank or a tab.
fn is_blank(byte: u8) -> bool {
    byte == b' ' || byte == b'\t'
}
