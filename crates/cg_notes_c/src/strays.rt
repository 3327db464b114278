//! Hints on bytes at which no token begins.

use std::alloc::{AllocError, Global};

/// Returns the message on the byte with which `rest` begins, at which no token begins.
pub(crate) fn stray_text(alloc: Global, rest: &[u8]) -> Result<String, AllocError> {
    let hint = stray_hint(rest);
    match rest.first() {
        Some(byte) if byte.is_ascii_graphic() => {
            let byte = char::from(*byte);
            format!(in alloc; "unexpected \"{byte}\"{hint}")
        }
        Some(byte) => format!(in alloc; "unexpected byte 0x{byte:02X}{hint}"),
        None => String::from_str(alloc, "the text ends here"),
    }
}

/// Returns a hint on the byte with which `rest` begins; empty if there is none.
fn stray_hint(rest: &[u8]) -> &'static str {
    if rest.starts_with(b"/*") {
        return "; this comment isn't closed by */";
    }
    match rest {
        [b'#', ..] => directive_hint(rest),
        [b'/', ..] =>
            "; there is no division: x >> 1 is x divided by 2 and rounded down, and a table can hold quotients",
        [b'%', ..] => "; there is no remainder: x & 7 is that of a division by 8",
        [b'.', ..] => "; there are no structures and no fractions",
        [b'"' | b'\'', ..] => "; there are no texts and no characters: write a number",
        [b'\\', ..] => "; lines can't be joined, not even in comments",
        [b'?', b'?', b'/', ..] => "; C reads ??/ as a backslash, and lines can't be joined",
        [b'\r', ..] =>
            "; a line ends with a line feed, which is missing after this carriage return",
        [b'0'..=b'9', ..] => number_hint(rest),
        _ => "",
    }
}

/// Returns a hint on the directive with which `rest` begins.
fn directive_hint(rest: &[u8]) -> &'static str {
    if begins_with_word(rest, b"include") {
        "; only \"cgra.h\" can be included, and before it <stdint.h>"
    } else if begins_with_word(rest, b"define") {
        "; a directive begins its line"
    } else {
        "; the only directives are #include \"cgra.h\", #include <stdint.h> and #define of a number"
    }
}

/// Checks whether `rest` begins with `#`, spaces and `word`.
fn begins_with_word(rest: &[u8], word: &[u8]) -> bool {
    let spaces = rest
        .iter()
        .skip(1)
        .take_while(|byte| **byte == b' ' || **byte == b'\t')
        .count();
    rest.get(spaces.saturating_add(1)..)
        .unwrap_or(&[])
        .starts_with(word)
}

/// Returns a hint on the number with which `rest` begins, which isn't one here.
fn number_hint(rest: &[u8]) -> &'static str {
    let length = rest
        .iter()
        .take_while(|byte| byte.is_ascii_alphanumeric() || **byte == b'.')
        .count();
    let number = rest.get(..length).unwrap_or(&[]);
    if number.contains(&b'.') {
        return "; numbers are integers, without a point";
    }
    match number {
        [b'0', b'0'..=b'9', ..] =>
            "; a decimal number doesn't begin with 0, since C would read it as octal",
        [b'0', b'b' | b'B', ..] => "; numbers are decimal or hexadecimal",
        [.., b'l' | b'L'] => "; words have 32 bits: a number ends in no letter but u",
        [.., b'e' | b'E'] =>
            "; C reads this and the sign after it as one number: write a blank between",
        _ => "; a name begins with a letter or _, and a number has only digits and u at its end",
    }
}
