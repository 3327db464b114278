//! Hints on unexpected tokens in loop bodies.

use crate::foreign::{call_hint, is_type};
use crate::token::{Quoted, Token};
use cg_help::nearest_name;
use cg_lints::operation_meant;
use cg_spans::{is_word_byte, last_byte, last_word};
use cg_word::Op;
use std::alloc::{AllocError, Global};

/// The operations that a loop body calls.
const CALLED: [&str; 16] = [
    "add", "sub", "mul", "and", "or", "xor", "shl", "shr", "sar", "eq", "ne", "lts", "ltu", "mins",
    "maxs", "select",
];

/// The hint on a loop within a loop body.
const LOOP_HINT: &str =
    "; write only the body of the loop, which each turn executes; turn is the number of the turn";

/// The maximum number of digits of a number.
const MOST_DIGITS: usize = 10;

/// Returns a hint on `token`, with which `rest` begins, after `before` in a loop body; empty if there is none.
pub(crate) fn loop_hint(before: &[u8], rest: &[u8], token: Token<'_>) -> &'static str {
    let Some(last) = last_byte(before) else {
        return match token {
            Token::Byte(b'{') =>
                "; a loop body begins with cgl1; is this already a kernel, for other commands?",
            _ => "; a loop body begins with cgl1;",
        };
    };
    if is_word_byte(last) && last_name(before) == "in" {
        return "; in is followed by the number of an input stream, for example in 0";
    }
    match token {
        Token::Word(word) => word_hint(before, last, word),
        Token::Byte(byte) => sign_hint(last, rest).unwrap_or(other_hint(last, byte)),
    }
}

/// Returns the last word of `before` as a text; empty if there is none.
fn last_name(before: &[u8]) -> &str {
    std::str::from_utf8(last_word(before)).unwrap_or("")
}

/// Returns a hint on `word` after `before`, whose last byte is `last`; empty if there is none.
fn word_hint(before: &[u8], last: u8, word: &str) -> &'static str {
    if is_word_byte(last) {
        if let Some(hint) = hint_behind(last_name(before)) {
            return hint;
        }
    }
    if begins_with_digit(word) {
        return number_hint(word);
    }
    if last == b'0' && (word.starts_with('x') || word.starts_with('X')) {
        return "; numbers are decimal: 16 for 0x10";
    }
    match (last_name(before), word) {
        ("let" | "array" | "carry", _) if is_word_byte(last) =>
            "; this is a keyword of the language, not a name",
        (named, _) if is_word_byte(last) && is_type(named) =>
            "; there are no types: let x = 3; names a value of this turn, and carry x = 3; before the first statement declares one that is passed on to the next turn",
        ("return" | "print", _) if is_word_byte(last) =>
            "; an output is written out 0 = s; with the number of its stream",
        (_, "else") => "; there is no else: select(c, x, y) chooses a value",
        (_, "and" | "or" | "xor" | "not") if is_word_byte(last) || last == b')' || last == b']' =>
            "; write and(a < b, c == d) for a < b and c == d, and or(..) in the same way",
        (_, "array" | "carry") if last == b';' => "; declarations come before the first statement",
        (_, "if") if last == b';' =>
            "; a condition is written after a store or an output, for example a[turn] = s if s < 6;",
        (_, "if") =>
            "; only a store or an output takes a condition, after it: select(c, x, y) chooses a value",
        _ => "",
    }
}

/// Returns what to write instead of `word`, a word of other languages, before another word; None if it isn't one.
fn hint_behind(word: &str) -> Option<&'static str> {
    match word {
        "input" | "recv" | "receive" => Some(
            "; write in 0 for the word of an input stream, with the number of the stream",
        ),
        "for" | "while" => Some(LOOP_HINT),
        _ => None,
    }
}

/// Returns a hint on `word`, which begins with a digit; empty if there is none.
fn number_hint(word: &str) -> &'static str {
    if word.starts_with("0x") || word.starts_with("0X") {
        return "; numbers are decimal: 16 for 0x10";
    }
    if !word.bytes().all(|byte| byte.is_ascii_digit()) {
        return "; a name begins with a letter or _, and a number has only digits";
    }
    match word.parse::<u32>() {
        Ok(_) if word.len() <= MOST_DIGITS => "",
        _ => "; a number has at most ten digits, and is at most 4294967295",
    }
}

/// Checks whether `word` begins with a digit.
fn begins_with_digit(word: &str) -> bool {
    match word.as_bytes().first() {
        Some(first) => first.is_ascii_digit(),
        None => false,
    }
}

/// Returns what to write instead of a sign of two bytes or more of other languages, if `rest` begins with it or, after
/// the byte `last`, with its second byte. Returns None if there is no such sign.
fn sign_hint(last: u8, rest: &[u8]) -> Option<&'static str> {
    let hint = match (last, rest) {
        (_, [b'+', b'=', ..]) | (b'+', [b'=', ..]) =>
            "; write the assignment out: x = x + 2 for x += 2",
        (_, [b'-', b'=', ..]) | (b'-', [b'=', ..]) =>
            "; write the assignment out: x = x - 2 for x -= 2",
        (_, [b'*', b'=', ..]) | (b'*', [b'=', ..]) =>
            "; write the assignment out: x = x * 2 for x *= 2",
        (_, [b'+', b'+', ..]) | (b'+', [b'+', b';' | b')', ..]) =>
            "; write the assignment out: x = x + 1 for x++",
        (_, [b'-', b'-', ..]) | (b'-', [b'-', b';' | b')', ..]) =>
            "; write the assignment out: x = x - 1 for x--",
        (_, [b'>', b'>', ..]) => "; write sar(a, 2) for a >> 2, or shr(a, 2) if a is unsigned",
        (_, [b'<', b'<', ..]) | (b'<', [b'<', ..]) => "; write shl(a, 2) for a << 2",
        (_, [b'>', b'=', ..]) => "; write (a < b) == 0 for a >= b",
        (_, [b'<', b'=', ..]) | (b'<', [b'=', ..]) => "; write (b < a) == 0 for a <= b",
        (_, [b'!', b'=', ..]) => "; write ne(a, b), which is (a == b) == 0, for a != b",
        (_, [b'&', b'&', ..]) => "; write and(a, b) for a && b, where both are 0 or 1",
        (_, [b'|', b'|', ..]) => "; write or(a, b) for a || b, where both are 0 or 1",
        (b'*', [b'*', ..]) => "; write a * a for a ** 2",
        _ => return None,
    };
    Some(hint)
}

/// Returns a hint on `byte`, which doesn't begin a sign of two bytes, after the byte `last`; empty if there is none.
fn other_hint(last: u8, byte: u8) -> &'static str {
    match (last, byte) {
        (b'=' | b'(' | b'[' | b',' | b'+' | b'-' | b'*' | b'<', b'-') =>
            "; numbers have no sign: write (0 - 1) for -1, or 4294967295 in a declaration",
        (b'0'..=b'9', b'.') => "; numbers are integers, without a decimal point",
        (_, b'>') => "; write b < a for a > b",
        (_, b'/' | b'%') =>
            "; there is no division: shr(a, 1) halves a, and and(a, 7) is the remainder of a division by 8",
        (_, b'&') => "; write and(a, b) for a & b",
        (_, b'|') => "; write or(a, b) for a | b",
        (_, b'^') => "; write xor(a, b) for a ^ b",
        (_, b'!') => "; write a == 0 for !a",
        (_, b'~') => "; write xor(a, 4294967295) for ~a",
        (_, b'?') => "; write select(c, a, b) for c ? a : b",
        (_, b'{' | b'}') => "; there are no braces",
        (_, b'<') => "; combine two comparisons with and, for example and(a < b, b < c)",
        (_, b':') => "; there are no types: write let x = 3; for let x: int = 3;",
        (_, b'"' | b'\'') => "; there are no texts, and names stand without quotes",
        _ => "",
    }
}

/// Returns what is wrong with a call where `token`, a bracket or a comma, follows `before` in a loop body: the name
/// that is called, or the number of operands. Returns None if the token doesn't belong to a call.
pub(crate) fn describe_call(
    alloc: Global,
    before: &[u8],
    token: Token<'_>,
) -> Result<Option<String>, AllocError> {
    match token {
        Token::Byte(b'(') => describe_called(alloc, before),
        Token::Byte(b',' | b')') => describe_count(alloc, before, token),
        _ => Ok(None),
    }
}

/// Returns the operation that may be meant by `name`, among those that a loop body calls.
fn called_near(alloc: Global, name: &str) -> Result<Option<&'static str>, AllocError> {
    match operation_meant(alloc, name)? {
        Some(meant) if CALLED.contains(&meant) => Ok(Some(meant)),
        _ => nearest_name(alloc, name, &CALLED),
    }
}

/// Returns the message that the name at the end of `before` can't be called.
fn describe_called(alloc: Global, before: &[u8]) -> Result<Option<String>, AllocError> {
    if let Some(hint) = call_hint(last_name(before)) {
        let text = format!(in alloc; "unexpected \"(\"; {hint}")?;
        return Ok(Some(text));
    }
    let text = match last_name(before) {
        "" => return Ok(None),
        "for" | "while" => format!(in alloc; "unexpected \"(\"{LOOP_HINT}")?,
        "if" => String::from_str(
            alloc,
            "unexpected \"(\"; a condition is written after a store or an output, for example a[turn] = s if s < 6;",
        )?,
        name => match called_near(alloc, name)? {
            Some(near) => format!(in alloc;
                "unexpected \"(\"; no operation is called {name}, did you mean {near}?"
            )?,
            None => format!(in alloc; "unexpected \"(\"; no operation is called {name}")?,
        },
    };
    Ok(Some(text))
}

/// Returns the message on the number of operands of the operation in whose brackets `token` follows `before`.
fn describe_count(
    alloc: Global,
    before: &[u8],
    token: Token<'_>,
) -> Result<Option<String>, AllocError> {
    let Some(open) = open_bracket(before) else {
        return Ok(None);
    };
    let name = last_name(before.get(..open).unwrap_or(&[]));
    match Op::from_name(name) {
        Some(op) => {
            let arity = op.arity();
            let token = Quoted(token);
            let text = format!(in alloc; "unexpected {token}; {name} takes {arity} operands")?;
            Ok(Some(text))
        }
        None => Ok(None),
    }
}

/// Returns the place in `before` of the last round bracket of its last statement that is still open at its end.
fn open_bracket(before: &[u8]) -> Option<usize> {
    let mut closed = 0usize;
    for back in 0..before.len() {
        let place = before.len().saturating_sub(back).saturating_sub(1);
        match before.get(place) {
            Some(b')') => closed = closed.saturating_add(1),
            Some(b'(') if closed == 0 => return Some(place),
            Some(b'(') => closed = closed.saturating_sub(1),
            Some(b';') => return None,
            _ => {}
        }
    }
    None
}
