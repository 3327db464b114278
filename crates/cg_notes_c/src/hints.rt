//! Hints on tokens with which no source goes on.

use crate::context::Around;
use crate::foreign::{Hint, contain, hint_for, is_foreign_type, statement_hint};
use crate::heads::head_hint;
use cg_c_syntax::Kind;

/// The types of words.
const WORDS: &str = "int int32_t uint32_t";

/// What is said of types.
const TYPE: &str =
    "; the types are int, int32_t and uint32_t, in casts also int8_t, int16_t, uint8_t and uint16_t";

/// Hints on tokens before the function, after the token that is given first.
static OUTSIDE: [(&'static str, &'static str, &'static str); 6] = [
    (
        "[",
        "]",
        "; the length of each dimension is written: int a[8];",
    ),
    ("]", "[", "; an array has at most three dimensions"),
    (
        "]",
        "=",
        "; an array that has first values is a table: const int a[4] = { .. };",
    ),
    (
        "]",
        ";",
        "; a table has its values: const int a[4] = { .. };",
    ),
    ("{", "}", "; a list isn't empty"),
    (",", "}", "; a list doesn't end with a comma"),
];

/// Hints on tokens in the function, outside of the heads of loops.
static INSIDE: [Hint; 10] = [
    (
        "for",
        "; a loop stands in braces of the function or of another loop, not in if, and only once in each",
    ),
    (
        "else",
        "; else follows one statement: several are in braces after if",
    ),
    (
        WORDS,
        "; a declaration stands in braces of its own, not right after if, else or the head of a loop",
    ),
    (
        "const static enum void",
        "; this is declared before the function",
    ),
    (
        "= += -= *= &= |= ^= <<= >>=",
        "; an assignment is a statement of its own, and == compares",
    ),
    ("&", "; there are no addresses"),
    (
        "*",
        "; there are no pointers: an element of an array is a[i]",
    ),
    (":", "; there are no labels"),
    (",", "; there is no comma operator: write two statements"),
    ("(", "; only in, out, min and max can be called"),
];

/// Returns a hint on what may be meant at a place at which a token stands with which no source goes on; empty if there
/// is none.
pub(crate) fn hint(around: Around<'_>) -> &'static str {
    if around.is_after_function() {
        return "; nothing follows the function";
    }
    if let Some(hint) = word_hint(around) {
        return hint;
    }
    if around.first.starts_with('#') {
        return define_hint(around);
    }
    match around.head {
        Some(semicolons) => head_hint(around, semicolons),
        None if around.inside => inside_hint(around),
        None => outside_hint(around),
    }
}

/// Returns a hint on a word of C that sources have not, at the place or before it.
fn word_hint(around: Around<'_>) -> Option<&'static str> {
    if around.at == "*" && contain(WORDS, around.last) {
        return Some("; there are no pointers: declare an array before the function, as int a[8];");
    }
    if is_foreign_type(around.at) || is_foreign_type(around.last) {
        return Some(TYPE);
    }
    if around.last == ")" && is_foreign_type(around.second) {
        return Some(TYPE);
    }
    statement_hint(around.last).or(statement_hint(around.at))
}

/// Returns a hint on a token in a `#define`.
fn define_hint(around: Around<'_>) -> &'static str {
    if around.at == "(" && around.second.starts_with('#') {
        return "; there are no macros with parameters, and a number in round brackets stands after a blank";
    }
    if around.at == "-" {
        return "; a negative number stands in round brackets: #define N (-1)";
    }
    if around.kind == Kind::LineEnd {
        return "; a #define has a name and a number in its line: #define N 8";
    }
    "; a #define has one number: write an enumerator for what is computed, as enum { M = 2 * N };"
}

/// Returns a hint on a token before the function.
fn outside_hint(around: Around<'_>) -> &'static str {
    if around.last.is_empty() || around.kind == Kind::Cgra || around.kind == Kind::Stdint {
        return "; a source begins with #include \"cgra.h\", or with #include <stdint.h> and then that";
    }
    if around.first == "void" && around.last == "(" {
        return "; the function has no parameters: void f(void)";
    }
    if around.last == "static" {
        return "; static stands before const alone";
    }
    if let Some(hint) = array_hint(around) {
        return hint;
    }
    if around.at == "(" {
        return "; the function has no result: void f(void)";
    }
    if !contain("= ; ,", around.at) {
        return "";
    }
    if contain("const static", around.first) {
        return "; a constant word is defined by #define N 8 or by enum { N = 8 };";
    }
    "; a word is declared in the function, with a first value, and an array here, as int a[8];"
}

/// Returns a hint on a token in the declaration of an array.
fn array_hint(around: Around<'_>) -> Option<&'static str> {
    for (last, at, hint) in &OUTSIDE {
        if around.last == *last && around.at == *at {
            return Some(*hint);
        }
    }
    None
}

/// Returns a hint on a token in the function, outside of the head of a loop.
fn inside_hint(around: Around<'_>) -> &'static str {
    if around.kind == Kind::TextEnd {
        return "; a } is missing";
    }
    if around.at == "}" && around.braces == 1 {
        return "; the function has a loop: for (int i = 0; i < 8; i++)";
    }
    if contain(WORDS, around.first) && around.second == around.first {
        return declared_hint(around);
    }
    if contain("++ --", around.at) {
        return step_hint(around);
    }
    if around.at == ";" && around.is_first() {
        return "; a statement isn't empty: write { }";
    }
    if around.last == "-" && around.at == ">" {
        return "; there are no pointers and no structures";
    }
    if around.last == "]" && around.at == "[" {
        return "; an array has at most three dimensions";
    }
    hint_for(&INSIDE, around.at).unwrap_or("")
}

/// Returns a hint on the token after the name of a declared word.
fn declared_hint(around: Around<'_>) -> &'static str {
    if around.at == "[" {
        return "; arrays are declared before the function";
    }
    if contain("; ,", around.at) {
        return "; a word has a first value: int x = 0;";
    }
    hint_for(&INSIDE, around.at).unwrap_or("")
}

/// Returns a hint on `++` and `--`, which stand in no expression.
fn step_hint(around: Around<'_>) -> &'static str {
    if around.is_first() {
        "; write x++ for ++x"
    } else {
        "; x++ is a statement of its own: write x += 1 before or after"
    }
}
