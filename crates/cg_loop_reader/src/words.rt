//! Tokens by their texts.
ghost use Rattle.std.specs.Prelude.{◌≡◌, ◌<◌, ◌≤◌, ◌^◌, true, length, bytes_eq, suc, IfOk};
ghost use Rattle.std.specs.List.{list_all};
ghost use Rattle.std.specs.Char.{is_ascii_digit};
ghost use Rattle.cg_word.specs.Word.{arity};
ghost use Rattle.cg_model.specs.Names as names;
ghost use Rattle.cg_loop_syntax.specs.Well as rules;
ghost use Rattle.cg_loop_text_spec.specs.Words as spec;
ghost use Rattle.cg_loop_reader.specs.Kinds as kinds;

use cg_loop_syntax::{Name, Op};
use std::alloc::{AllocError, Global};

/// The kinds of token with which an operand may begin.
#[derive(Clone, Copy, Drop)]
pub(crate) enum Beginning {
    /// A number of this value.
    Number(u32),
    Turn,
    In,
    Name,
    /// A round bracket, an operation's name, or nothing that begins an operand.
    Other,
}

/// Returns whether the texts `left` and `right` are equal.
pub(crate) fn same(left: &[u8], right: &[u8]) -> bool
    ensures { result ≡ bytes_eq left.now right.now }
{
    left == right
}

/// Returns whether a name may begin with `byte`.
fn begins_name(byte: u8) -> bool
    ensures { result ≡ names.begins_name byte }
{
    matches!(byte, b'A'..=b'Z' | b'a'..=b'z' | b'_')
}

/// Returns whether `byte` may occur in a name.
fn within_name(byte: u8) -> bool
    ensures { result ≡ names.within_name byte }
{
    begins_name(byte) || byte.is_ascii_digit()
}

/// Returns whether all bytes of `text` may occur in a name.
fn are_within_name(text: &[u8]) -> bool
    ensures { result ≡ list_all names.within_name text.now }
{
    text.iter().all(|byte| within_name(*byte))
}

/// Returns whether `text` is a letter or `_`, followed by letters, digits and `_`.
fn is_identifier(text: &[u8]) -> bool
    ensures { result ≡ names.is_identifier text.now }
{
    match text {
        [first, ..] => begins_name(*first) && are_within_name(text),
        [] => false,
    }
}

/// Returns whether `text` is a keyword of the language.
fn is_keyword(text: &[u8]) -> bool
    ensures { result ≡ rules.is_keyword text.now }
{
    same(text, b"cgl1")
        || same(text, b"array")
        || same(text, b"at")
        || same(text, b"len")
        || same(text, b"carry")
        || same(text, b"let")
        || same(text, b"out")
        || same(text, b"if")
        || same(text, b"in")
        || same(text, b"turn")
}

/// Returns whether an expression may use `op`, by its name or as a sign.
fn is_word_op(op: Op) -> bool
    ensures { result ≡ rules.is_word_op op }
{
    4 <= op.code() && op.code() <= 19
}

/// Finds the operation that `text` names in an expression.
pub(crate) fn op_called(text: &[u8]) -> Option<Op>
    ensures { result ≡ spec.op_called text.now }
{
    Op::ALL
        .iter()
        .copied()
        .find(|op| is_word_op(*op) && op.name().as_bytes() == text)
}

/// Returns the number of operands of `op` after the first.
pub(crate) fn further_operands(op: Op) -> u32
    requires { rules.is_word_op op ≡ true }
    ensures value { arity op ≡ suc result }
    ensures few { result ≤ 2 }
{
    match op {
        Op::Select => 2,
        _ => 1,
    }
}

/// Returns whether a body may declare `text` as a name.
#[tactic(auto, using(crate::proofs::Called::called_is))]
pub(crate) fn is_name(text: &[u8]) -> bool
    ensures { result ≡ rules.is_loop_name text.now }
{
    is_identifier(text) && !(is_keyword(text) || op_called(text).is_some())
}

/// Returns the name `name` as a text.
fn text_of(name: &[u8]) -> &str
    requires { rules.is_loop_name name.now ≡ true }
    ensures { result.now ≡ name.now }
{
    match std::str::from_utf8(name) {
        Ok(text) => text,
        Err(_) => "",
    }
}

/// Returns a copy of the name `name`.
pub(crate) fn name_of(alloc: Global, name: &[u8]) -> Result<Name, AllocError>
    requires { rules.is_loop_name name.now ≡ true }
    ensures { IfOk result (λ copy. copy ≡ name.now) }
{
    Name::copy_of(alloc, text_of(name))
}

/// Returns whether all bytes of `text` are digits.
fn are_digits(text: &[u8]) -> bool
    ensures { result ≡ list_all is_ascii_digit text.now }
{
    text.iter().all(|byte| byte.is_ascii_digit())
}

/// Returns the number that the digits of `text` denote, if there are one to ten of them, and the number is a word.
pub(crate) fn number_of(text: &[u8]) -> Option<u32>
    ensures { result ≡ kinds.number_in text.now }
{
    if text.is_empty() || text.len() > 10 || !are_digits(text) {
        return None;
    }
    u32::try_from(value_of(text)).ok()
}

/// Returns the number that the digits of `text` denote.
fn value_of(text: &[u8]) -> u64
    requires digits { list_all is_ascii_digit text.now ≡ true }
    requires few { length text.now ≤ 10 }
    ensures { result ≡ spec.number_of text.now }
{
    let mut number: u64 = 0;
    for digit in text {
        number = 10 * number + u64::from(*digit - b'0');
    }
    number
}

/// Returns the operation of the sign `text`, if it joins products.
pub(crate) fn added_by(text: &[u8]) -> Option<Op>
    ensures { result ≡ spec.added_by text.now }
{
    if same(text, b"+") {
        Some(Op::Add)
    } else if same(text, b"-") {
        Some(Op::Sub)
    } else {
        None
    }
}

/// Returns the operation of the sign `text`, if it compares sums.
pub(crate) fn compared_by(text: &[u8]) -> Option<Op>
    ensures { result ≡ spec.compared_by text.now }
{
    if same(text, b"==") {
        Some(Op::Eq)
    } else if same(text, b"<") {
        Some(Op::Lts)
    } else {
        None
    }
}

/// Returns the kind of operand that begins with the token `text`.
pub(crate) fn beginning_of(text: &[u8]) -> Beginning
    ensures { result ≡ kinds.beginning_of text.now }
{
    if let Some(value) = number_of(text) {
        Beginning::Number(value)
    } else if same(text, b"turn") {
        Beginning::Turn
    } else if same(text, b"in") {
        Beginning::In
    } else if is_name(text) {
        Beginning::Name
    } else {
        Beginning::Other
    }
}
