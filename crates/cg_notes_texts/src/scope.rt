//! Names in loop bodies.

use crate::token::Token;
use cg_help::{nearest_name, short_list};
use cg_spans::{Place, is_word_byte, last_word};
use std::alloc::{AllocError, Global};

/// The maximum number of names among which the nearest one is sought.
const MOST_NAMES: usize = 256;

/// Names that other languages give to the number of an iteration.
const COUNTERS: [&str; 8] = ["i", "j", "k", "n", "t", "iter", "idx", "index"];

/// The words before a name that is declared.
const DECLARING: [&[u8]; 3] = [b"array", b"carry", b"let"];

/// Returns what is wrong with the assignments of the carry `name`, at byte `offset` of the loop body `bytes`, which is
/// the place of its declaration if it has no assignment.
pub(crate) fn describe_carry(
    alloc: Global,
    bytes: &[u8],
    offset: usize,
    name: Token<'_>,
) -> Result<String, AllocError> {
    let before = bytes.get(..offset).unwrap_or(&[]);
    if last_word(before) == b"carry".as_slice() {
        return format!(in alloc;
            "the carry {name} is never assigned: assign it once, as {name} = ..; or write a constant as a number"
        );
    }
    let line = assigned_line(before, name);
    format!(in alloc;
        "the carry {name} is assigned in line {line} already, but a carry is assigned once per turn; combine both into one expression, or name the first value with let t = ..; to choose by a condition, use select(c, x, y)"
    )
}

/// Returns the line of the first statement of `before` that begins with `name`.
fn assigned_line(before: &[u8], name: Token<'_>) -> usize {
    let mut at = 0usize;
    for statement in before.split(|byte| *byte == b';') {
        let blanks = statement
            .iter()
            .take_while(|byte| byte.is_ascii_whitespace())
            .count();
        let words = statement.get(blanks..).unwrap_or(&[]);
        at = at.saturating_add(blanks);
        if begins_with(words, name) {
            break;
        }
        at = at.saturating_add(words.len()).saturating_add(1);
    }
    let Place { line, .. } = Place::at(before, at);
    line
}

/// Checks whether `words` begin with the token `name`.
fn begins_with(words: &[u8], name: Token<'_>) -> bool {
    match (Token::at_start(words), name) {
        (Some(Token::Word(word)), Token::Word(name)) => word == name,
        _ => false,
    }
}

/// Returns the message that `name`, at byte `offset` of the loop body `bytes`, is already declared, and in which line.
pub(crate) fn describe_repeated(
    alloc: Global,
    bytes: &[u8],
    offset: usize,
    name: &str,
) -> Result<String, AllocError> {
    let before = bytes.get(..offset).unwrap_or(&[]);
    if last_word(before) == b"let".as_slice() && is_carry(before, name) {
        return format!(in alloc; "{name} is a carry: assign it without let, as {name} = ..;");
    }
    match declared_line(before, name) {
        Some(line) => format!(in alloc;
            "{name} is already declared in line {line}: choose another name"
        ),
        None => format!(in alloc; "{name} is already declared: choose another name"),
    }
}

/// Checks whether `before` declares `name` as a carry.
pub(crate) fn is_carry(before: &[u8], name: &str) -> bool {
    declared_as(before, before.len(), name) == b"carry".as_slice()
}

/// Returns the line of `before` that declares `name`.
fn declared_line(before: &[u8], name: &str) -> Option<usize> {
    let mut at = 0usize;
    let mut last: &[u8] = &[];
    for word in before.split(|byte| !is_word_byte(*byte)) {
        if word == name.as_bytes() && DECLARING.iter().any(|declaring| *declaring == last) {
            let Place { line, .. } = Place::at(before, at);
            return Some(line);
        }
        at = at.saturating_add(word.len()).saturating_add(1);
        if !word.is_empty() {
            last = word;
        }
    }
    None
}

/// Returns what is wrong with `name` at byte `offset` of the loop body `bytes`, where it isn't known as what it is used
/// as.
pub(crate) fn describe_name(
    alloc: Global,
    bytes: &[u8],
    offset: usize,
    name: &str,
) -> Result<String, AllocError> {
    match std::str::from_utf8(declared_as(bytes, offset, name)) {
        Ok("array") => format!(in alloc; "{name} is an array, which needs an index"),
        Ok("let") => describe_let(alloc, bytes, offset, name),
        Ok("carry") => format!(in alloc; "{name} is a carry, and only an array has an index"),
        _ => describe_unknown(alloc, bytes.get(..offset).unwrap_or(&[]), name),
    }
}

/// Returns the message that `name`, which a let declares, has an index or is assigned at byte `offset` of the loop body
/// `bytes`.
fn describe_let(
    alloc: Global,
    bytes: &[u8],
    offset: usize,
    name: &str,
) -> Result<String, AllocError> {
    let rest = bytes
        .get(offset.saturating_add(name.len())..)
        .unwrap_or(&[]);
    let next = rest.iter().find(|byte| !byte.is_ascii_whitespace());
    if next == Some(&b'[') {
        return format!(in alloc; "{name} is declared by let, and only an array has an index");
    }
    format!(in alloc;
        "{name} is declared by let, and only a carry is assigned: name the new value by another let, or, to keep it from turn to turn, declare carry {name} = 0; before the first statement"
    )
}

/// Returns the message that no name `name` is declared in `before`, the part of the loop body before it, and which name
/// may be meant.
fn describe_unknown(alloc: Global, before: &[u8], name: &str) -> Result<String, AllocError> {
    let mut names: Vec<&str> = Vec::new(alloc);
    names.push("turn")?;
    add_declared(before, &mut names)?;
    if let Some(near) = nearest_name(alloc, name, names.as_slice())? {
        return format!(in alloc; "unknown name {name}, did you mean {near}?");
    }
    if COUNTERS.contains(&name) {
        return format!(in alloc; "unknown name {name}: the number of the turn is called turn");
    }
    let known = short_list(alloc, names.as_slice())?;
    let known = known.as_str();
    format!(in alloc;
        "unknown name {name}, the names here are {known}; arrays and carries are declared at the beginning, other values with let"
    )
}

/// Adds to `names` the names that `before` declares, up to a limit.
fn add_declared<'a>(before: &'a [u8], names: &mut Vec<&'a str>) -> Result<(), AllocError> {
    let mut last: &'a [u8] = &[];
    for word in before.split(|byte| !is_word_byte(*byte)) {
        if DECLARING.iter().any(|declaring| *declaring == last) && names.len() < MOST_NAMES {
            if let Ok(word) = std::str::from_utf8(word) {
                names.push(word)?;
            }
        }
        if !word.is_empty() {
            last = word;
        }
    }
    Ok(())
}

/// Returns the word before the first `name` among the first `offset` bytes of `bytes`; empty if there is none.
fn declared_as<'a>(bytes: &'a [u8], offset: usize, name: &str) -> &'a [u8] {
    let before = bytes.get(..offset).unwrap_or(&[]);
    let mut last: &'a [u8] = &[];
    for word in before.split(|byte| !is_word_byte(*byte)) {
        if word == name.as_bytes() {
            return last;
        }
        if !word.is_empty() {
            last = word;
        }
    }
    &[]
}
