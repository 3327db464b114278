//! Faults of loop bodies.

use crate::arrays::describe_array;
use crate::conditions::describe_if;
use crate::hints::{describe_call, loop_hint};
use crate::scope::{describe_carry, describe_name, describe_repeated};
use crate::statements::{open_hint, statement_hint};
use crate::token::{Quoted, Token, begins_comment, missing_semicolon};
use cg_loop_syntax::{Excess, LoopFault};
use cg_spans::Finding;
use std::alloc::{AllocError, Global};

/// Returns the finding of `fault` in `bytes`, a loop body, and `None` if there is none.
pub fn find_in_loop(
    alloc: Global,
    bytes: &[u8],
    fault: &LoopFault,
) -> Result<Option<Finding>, AllocError> {
    match fault {
        LoopFault::Memory => Ok(None),
        LoopFault::TooLarge(excess) => {
            let text = excess_text(alloc, *excess)?;
            Ok(Some(Finding { place: None, text }))
        }
        LoopFault::Text(at)
        | LoopFault::UnknownName(at)
        | LoopFault::RepeatedName(at)
        | LoopFault::CarryAssign(at)
        | LoopFault::BadArray(at)
        | LoopFault::BadPort(at) => {
            let token = Token::at_start(bytes.get(*at..).unwrap_or(&[]));
            match token_text(alloc, bytes, *at, fault, token)? {
                Some(text) => Ok(Some(Finding::at(bytes, *at, text))),
                None => Ok(None),
            }
        }
    }
}

/// Returns the message on `excess` of a kernel.
fn excess_text(alloc: Global, excess: Excess) -> Result<String, AllocError> {
    match excess {
        Excess::Nodes(count) => format!(in alloc;
            "the kernel would have {count} nodes, but at most 1024 are allowed"
        ),
        Excess::Order(count) => format!(in alloc;
            "the kernel would have {count} order edges, but at most 4096 are allowed"
        ),
    }
}

/// Returns the message of `fault` on `token`, at byte `at` of `bytes`, or on the end of the text if that is `None`.
/// Returns `None` if the fault can't occur there.
fn token_text(
    alloc: Global,
    bytes: &[u8],
    at: usize,
    fault: &LoopFault,
    token: Option<Token<'_>>,
) -> Result<Option<String>, AllocError> {
    let text = match (fault, token) {
        (LoopFault::Text(_), Some(token)) => unexpected(alloc, bytes, at, token)?,
        (LoopFault::Text(_), None) => String::from_str(
            alloc,
            "the text ends here: a semicolon or a closing bracket is missing",
        )?,
        (LoopFault::UnknownName(_), Some(Token::Word(name))) => {
            describe_name(alloc, bytes, at, name)?
        }
        (LoopFault::UnknownName(_), Some(token)) => format!(in alloc; "unknown name {token}")?,
        (LoopFault::RepeatedName(_), Some(Token::Word(name))) => {
            describe_repeated(alloc, bytes, at, name)?
        }
        (LoopFault::CarryAssign(_), Some(name)) => describe_carry(alloc, bytes, at, name)?,
        (LoopFault::BadArray(_), Some(Token::Word(name))) => {
            describe_array(alloc, bytes, at, name)?
        }
        (LoopFault::BadPort(_), Some(port)) if port.is_port() => format!(in alloc;
            "another output already has port {port}: use select(c, x, y) to choose what one output sends"
        )?,
        (LoopFault::BadPort(_), Some(port)) => format!(in alloc; "port {port} is above 15")?,
        _ => return Ok(None),
    };
    Ok(Some(text))
}

/// Returns the message that `token` isn't allowed at byte `at` of `bytes`, with a hint on what may be wrong there.
fn unexpected(
    alloc: Global,
    bytes: &[u8],
    at: usize,
    token: Token<'_>,
) -> Result<String, AllocError> {
    let before = bytes.get(..at).unwrap_or(&[]);
    if let Some(text) = describe_if(alloc, bytes, at, token)? {
        return Ok(text);
    }
    if let Some(text) = describe_call(alloc, before, token)? {
        return Ok(text);
    }
    if let Some(text) = open_hint(alloc, before, token)? {
        return Ok(text);
    }
    let rest = bytes.get(at..).unwrap_or(&[]);
    if let Some(text) = missing_semicolon(alloc, before, rest, token)? {
        return Ok(text);
    }
    let hint = if begins_comment(rest) {
        "; there are no comments: remove it"
    } else {
        match loop_hint(before, rest, token) {
            "" => statement_hint(before, token),
            hint => hint,
        }
    };
    let quoted = Quoted(token);
    format!(in alloc; "unexpected {quoted}{hint}")
}
