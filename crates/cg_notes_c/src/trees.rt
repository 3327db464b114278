//! Notes on the faults of sources that no grammar sees.

use crate::context::{Around, look_around};
use crate::foreign::contain;
use cg_c_check::CheckFault;
use cg_c_reader::{Cursor, next_token};
use cg_c_syntax::{Kind, Line};
use cg_help::nearest_name;
use cg_spans::{Finding, Place};
use std::alloc::{AllocError, Global};

/// The marks that assign.
const ASSIGNING: &str = "= += -= *= &= |= ^= <<= >>= ++ --";

/// The greatest number of words among which a name is sought.
const MOST_WORDS: usize = 256;

/// Returns the finding of `fault` in `bytes`, a source with this fault, and `None` if there is none.
pub fn find_in_tree(
    alloc: Global,
    bytes: &[u8],
    fault: CheckFault,
) -> Result<Option<Finding>, AllocError> {
    let Some(place) = fault.place() else {
        return Ok(None);
    };
    let around = look_around(bytes, place);
    let text = text_of(alloc, bytes, fault, place, around)?;
    Ok(Some(Finding::at(bytes, place, text)))
}

/// Returns the message of `fault` at `place` of `bytes`, around which `around` stands.
fn text_of(
    alloc: Global,
    bytes: &[u8],
    fault: CheckFault,
    place: usize,
    around: Around<'_>,
) -> Result<String, AllocError> {
    let name = around.at;
    match fault {
        CheckFault::Reserved(_) => format!(in alloc;
            "{name} can't be declared: it is a word of C or of its headers; choose another name"
        ),
        CheckFault::RepeatedName(_) => repeated(alloc, bytes, name, place),
        CheckFault::UnknownName(_) => unknown(alloc, bytes, name, place),
        CheckFault::WrongUse(_) => wrong_use(alloc, bytes, name, place),
        CheckFault::NotConstant(_) => not_constant(alloc, name),
        _ => String::from_str(alloc, rule_of(fault, name)),
    }
}

/// Returns the rule that `fault` breaks at the token `token`, where it says it all.
fn rule_of(fault: CheckFault, token: &str) -> &'static str {
    match fault {
        CheckFault::BadNumber(_) =>
            "the greatest number is 4294967295, and the greatest enumerator 2147483647",
        CheckFault::BadShift(_) => "a word is shifted by at most 31",
        CheckFault::BadArray(_) if token == "{" =>
            "this list has not as many values as its dimension has elements",
        CheckFault::BadArray(_) =>
            "a dimension is at least 1, and all arrays together have at most 1048576 words",
        CheckFault::BadLoop(_) =>
            "at most four loops lie in one another, each has a turn, a positive step and a counter up to 2147483647, and the innermost at most 1000000 turns in all",
        CheckFault::BadPort(_) if token == "in" =>
            "each turn reads a stream once: in stands in the innermost loop, and not under if, &&, || or ?:, where its value can be used",
        CheckFault::BadPort(_) =>
            "a port is a number from 0 to 15, and each has one in and one out",
        _ => "",
    }
}

/// Returns the message that `name`, declared at `place` of `bytes`, is already declared.
fn repeated(alloc: Global, bytes: &[u8], name: &str, place: usize) -> Result<String, AllocError> {
    match earlier(alloc, bytes, place)?
        .iter()
        .find(|word| word.name == name)
    {
        Some(word) => {
            let line = Place::at(bytes, word.place).line;
            format!(in alloc;
                "{name} is already declared, first named in line {line}: a name isn't declared again where it is visible"
            )
        }
        None => format!(in alloc; "{name} is already declared: cgra.h or stdint.h declares it"),
    }
}

/// Returns the message that `name`, at `place` of `bytes`, is unknown there, and which may be meant.
fn unknown(alloc: Global, bytes: &[u8], name: &str, place: usize) -> Result<String, AllocError> {
    let mut names: Vec<&str> = Vec::new(alloc);
    for word in &earlier(alloc, bytes, place)? {
        if word.name == name {
            return format!(in alloc;
                "{name} isn't visible here: it is declared in braces or a head that ended, or later"
            );
        }
        names.push(word.name)?;
    }
    match nearest_name(alloc, name, names.as_slice())? {
        Some(near) => format!(in alloc; "unknown name {name}, did you mean {near}?"),
        None => format!(in alloc; "unknown name {name}: a name is declared before it is used"),
    }
}

/// Returns the message that `name`, at `place` of `bytes`, is used as what it isn't.
fn wrong_use(alloc: Global, bytes: &[u8], name: &str, place: usize) -> Result<String, AllocError> {
    let behind = look_around(bytes, place.saturating_add(name.len()));
    if behind.at == "[" {
        return format!(in alloc;
            "{name} isn't an array with that number of dimensions, or it is a table, which isn't assigned"
        );
    }
    if contain(ASSIGNING, behind.at) {
        return format!(in alloc;
            "{name} isn't assigned: words and elements of arrays are, and no counters, constants and whole arrays"
        );
    }
    format!(in alloc; "{name} isn't a value: an array has an index for each dimension")
}

/// Returns the message that a constant is wanted where `token` stands.
fn not_constant(alloc: Global, token: &str) -> Result<String, AllocError> {
    format!(in alloc;
        "a constant is expected, and {token} is none: bounds, steps, dimensions, ports and values of tables are known before the run, as N after #define N 8 or enum {{ N = 8 }};"
    )
}

/// A word of a text, and its position.
#[derive(Clone, Copy, Drop)]
struct Word<'a> {
    name: &'a str,
    place: usize,
}

/// Returns the first words of `bytes` before `place`, up to a limit.
fn earlier(alloc: Global, bytes: &[u8], place: usize) -> Result<Vec<Word<'_>>, AllocError> {
    let mut words = Vec::new(alloc);
    let mut cursor = Cursor {
        place: 0,
        line: Line::Fresh,
    };
    for _ in 0..bytes.len() {
        if cursor.place > bytes.len() {
            break;
        }
        let cut = next_token(bytes, cursor);
        if cut.token.place >= place || words.len() >= MOST_WORDS {
            break;
        }
        if cut.token.kind == Kind::Word {
            words.push(Word {
                name: std::str::from_utf8(cut.token.text).unwrap_or(""),
                place: cut.token.place,
            })?;
        }
        cursor = cut.next;
    }
    Ok(words)
}
