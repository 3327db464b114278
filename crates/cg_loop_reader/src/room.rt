//! The memory that the values of a text may take.

/// The greatest number of bytes that the values of a text may take.
const MOST_BYTES: usize = 1 << 30;

/// Returns the number of bytes of the longest beginning of `bytes` whose values take no more memory than the limit, by
/// the signs among its tokens.
///
/// Each statement has a `=`, and each operand of an expression except the first follows a sign.
pub(crate) fn room_in(bytes: &[u8]) -> usize {
    let mut taken: usize = 0;
    for (place, byte) in bytes.iter().enumerate() {
        taken = taken.saturating_add(bytes_for(*byte));
        if taken > MOST_BYTES {
            return place;
        }
    }
    bytes.len()
}

/// Returns the greatest number of bytes that the values of a token take that begins with `byte`.
fn bytes_for(byte: u8) -> usize {
    match byte {
        b'=' => 1600,
        b'+' | b'-' | b'*' | b'(' | b'[' | b',' | b'<' => 500,
        b';' => 100,
        _ => 16,
    }
}
