//! Tokens by their texts.
ghost use Rattle.std.specs.Prelude.{◌≡◌};
ghost use Rattle.cg_c_syntax.specs.declared.token.Kind.TheVariants as kinds;
ghost use Rattle.cg_c_syntax.specs.Grammar as grammar;
ghost use Rattle.cg_c_syntax.specs.Words as spec;

use cg_c_syntax::{Beginning, Binary, Cast, Change, Kind, Opening, Pick, Sign, Signedness};

/// Returns whether the texts `left` and `right` are equal.
pub(crate) fn same(left: &[u8], right: &[u8]) -> bool
    ensures { result ≡ spec.same left.now right.now }
{
    left == right
}

/// Returns whether `kind` is that of words.
pub(crate) fn is_word(kind: Kind) -> bool
    ensures { result ≡ spec.is_word kind }
{
    matches!(kind, Kind::Word)
}

/// Returns whether `kind` is that of marks.
pub(crate) fn is_mark(kind: Kind) -> bool
    ensures { result ≡ spec.is_mark kind }
{
    matches!(kind, Kind::Mark)
}

/// Returns whether `kind` is that of numbers.
pub(crate) fn is_number(kind: Kind) -> bool
    ensures { result ≡ spec.is_number kind }
{
    matches!(kind, Kind::Number)
}

/// Returns whether `kind` is that of definitions of constants.
pub(crate) fn is_define(kind: Kind) -> bool
    ensures { result ≡ spec.is_define kind }
{
    matches!(kind, Kind::Define)
}

/// Returns whether `kind` is that of the ends of directives.
pub(crate) fn is_line_end(kind: Kind) -> bool
    ensures { result ≡ grammar.is_kind kinds.LineEnd kind }
{
    matches!(kind, Kind::LineEnd)
}

/// Returns whether `kind` is that of the end of a text.
pub(crate) fn is_text_end(kind: Kind) -> bool
    ensures { result ≡ grammar.is_kind kinds.TextEnd kind }
{
    matches!(kind, Kind::TextEnd)
}

/// Returns whether `kind` is that of the include of `cgra.h`.
pub(crate) fn is_cgra(kind: Kind) -> bool
    ensures { result ≡ grammar.is_kind kinds.Cgra kind }
{
    matches!(kind, Kind::Cgra)
}

/// Returns the type of a cast that `text` names.
#[tactic(auto, unfolding(cg_c_syntax::specs::Words::cast_called))]
pub(crate) fn cast_called(text: &[u8]) -> Option<Cast>
    ensures { result ≡ spec.cast_called text.now }
{
    if same(text, b"int") || same(text, b"int32_t") {
        Some(Cast::Signed)
    } else if same(text, b"uint32_t") {
        Some(Cast::Unsigned)
    } else if same(text, b"int8_t") {
        Some(Cast::SignedByte)
    } else if same(text, b"int16_t") {
        Some(Cast::SignedHalf)
    } else if same(text, b"uint8_t") {
        Some(Cast::UnsignedByte)
    } else if same(text, b"uint16_t") {
        Some(Cast::UnsignedHalf)
    } else {
        None
    }
}

/// Returns the type of a cast that a token of the kind `kind` with the bytes `text` names.
pub(crate) fn cast_by(kind: Kind, text: &[u8]) -> Option<Cast>
    ensures { result ≡ spec.cast_by kind text.now }
{
    if is_word(kind) {
        cast_called(text)
    } else {
        None
    }
}

/// Returns how the words of the type `cast` are read, if it holds whole words.
pub(crate) fn whole(cast: Option<Cast>) -> Option<Signedness>
    ensures { result ≡ spec.whole cast }
{
    match cast {
        Some(Cast::Signed) => Some(Signedness::Signed),
        Some(Cast::Unsigned) => Some(Signedness::Unsigned),
        _ => None,
    }
}

/// Returns whether `text` is a word of the language that is no type.
#[tactic(auto, unfolding(cg_c_syntax::specs::Words::is_language_word))]
pub(crate) fn is_language_word(text: &[u8]) -> bool
    ensures { result ≡ spec.is_language_word text.now }
{
    same(text, b"in")
        || same(text, b"out")
        || same(text, b"min")
        || same(text, b"max")
        || same(text, b"void")
        || same(text, b"static")
        || same(text, b"const")
        || same(text, b"enum")
        || same(text, b"if")
        || same(text, b"else")
        || same(text, b"for")
}

/// Returns whether a token of the kind `kind` with the bytes `text` is a name.
pub(crate) fn is_name(kind: Kind, text: &[u8]) -> bool
    ensures { result ≡ spec.is_name_by kind text.now }
{
    is_word(kind) && !(cast_called(text).is_some() || is_language_word(text))
}

/// Returns whether a token of the kind `kind` with the bytes `text` is a type that a counter may have.
pub(crate) fn is_counter_type(kind: Kind, text: &[u8]) -> bool
    ensures { result ≡ spec.is_counter_type_by kind text.now }
{
    is_word(kind) && (same(text, b"int") || same(text, b"int32_t"))
}

/// Returns the sign that `text` is.
#[tactic(auto, unfolding(cg_c_syntax::specs::Words::sign_called))]
fn sign_called(text: &[u8]) -> Option<Sign>
    ensures { result ≡ spec.sign_called text.now }
{
    if same(text, b"-") {
        Some(Sign::Minus)
    } else if same(text, b"~") {
        Some(Sign::Complement)
    } else if same(text, b"!") {
        Some(Sign::Not)
    } else if same(text, b"+") {
        Some(Sign::Plus)
    } else {
        None
    }
}

/// Returns the comparison that `text` is.
#[tactic(auto, unfolding(cg_c_syntax::specs::Words::comparison_called))]
fn comparison_called(text: &[u8]) -> Option<Binary>
    ensures { result ≡ spec.comparison_called text.now }
{
    if same(text, b"==") {
        Some(Binary::Equal)
    } else if same(text, b"!=") {
        Some(Binary::Unequal)
    } else if same(text, b"<") {
        Some(Binary::Less)
    } else if same(text, b"<=") {
        Some(Binary::AtMost)
    } else if same(text, b">") {
        Some(Binary::Greater)
    } else if same(text, b">=") {
        Some(Binary::AtLeast)
    } else {
        None
    }
}

/// Returns the operator on bits that `text` is.
#[tactic(auto, unfolding(cg_c_syntax::specs::Words::bitwise_called))]
fn bitwise_called(text: &[u8]) -> Option<Binary>
    ensures { result ≡ spec.bitwise_called text.now }
{
    if same(text, b"|") {
        Some(Binary::Or)
    } else if same(text, b"^") {
        Some(Binary::Xor)
    } else if same(text, b"&") {
        Some(Binary::And)
    } else if same(text, b"<<") {
        Some(Binary::ShiftLeft)
    } else if same(text, b">>") {
        Some(Binary::ShiftRight)
    } else {
        None
    }
}

/// Returns the operator of arithmetic that `text` is.
#[tactic(auto, unfolding(cg_c_syntax::specs::Words::arithmetic_called))]
fn arithmetic_called(text: &[u8]) -> Option<Binary>
    ensures { result ≡ spec.arithmetic_called text.now }
{
    if same(text, b"+") {
        Some(Binary::Add)
    } else if same(text, b"-") {
        Some(Binary::Sub)
    } else if same(text, b"*") {
        Some(Binary::Mul)
    } else {
        None
    }
}

/// Returns the operator of conditions that `text` is.
#[tactic(auto, unfolding(cg_c_syntax::specs::Words::logical_called))]
fn logical_called(text: &[u8]) -> Option<Binary>
    ensures { result ≡ spec.logical_called text.now }
{
    if same(text, b"||") {
        Some(Binary::OrElse)
    } else if same(text, b"&&") {
        Some(Binary::AndThen)
    } else {
        None
    }
}

/// Returns `first`, or `second` where there is none.
fn or_else(first: Option<Binary>, second: Option<Binary>) -> Option<Binary>
    ensures { result ≡ spec.or_else first second }
{
    match first {
        Some(op) => Some(op),
        None => second,
    }
}

/// Returns the operator that `text` is.
#[tactic(auto, unfolding(cg_c_syntax::specs::Words::binary_called, cg_c_syntax::specs::Words::computing_called))]
fn binary_called(text: &[u8]) -> Option<Binary>
    ensures { result ≡ spec.binary_called text.now }
{
    let computing = or_else(arithmetic_called(text), bitwise_called(text));
    let other = or_else(comparison_called(text), logical_called(text));
    or_else(computing, other)
}

/// Returns the level of the operator `op`: from 1 for `*` to 10 for `||`.
fn level_of(op: Binary) -> u32
    ensures { result ≡ spec.level_of op }
{
    match op {
        Binary::Mul => 1,
        Binary::Add | Binary::Sub => 2,
        Binary::ShiftLeft | Binary::ShiftRight => 3,
        Binary::Less | Binary::AtMost | Binary::Greater | Binary::AtLeast => 4,
        Binary::Equal | Binary::Unequal => 5,
        Binary::And => 6,
        Binary::Xor => 7,
        Binary::Or => 8,
        Binary::AndThen => 9,
        Binary::OrElse => 10,
    }
}

/// Returns the operator of the level `level` that a token of the kind `kind` with the bytes `text` is.
pub(crate) fn operator_at(level: u32, kind: Kind, text: &[u8]) -> Option<Binary>
    ensures { result ≡ spec.at_level level (spec.binary_by kind text.now) }
{
    if !is_mark(kind) {
        return None;
    }
    match binary_called(text) {
        Some(op) => {
            if level_of(op) == level {
                Some(op)
            } else {
                None
            }
        }
        None => None,
    }
}

/// Returns the operand that the mark `text` begins.
#[tactic(auto, unfolding(cg_c_syntax::specs::Words::mark_opening))]
fn mark_opening(text: &[u8]) -> Opening
    ensures { result ≡ spec.mark_opening text.now (spec.sign_called text.now) }
{
    match sign_called(text) {
        Some(sign) => Opening::Sign(sign),
        None => {
            if same(text, b"(") {
                Opening::Bracket
            } else {
                Opening::Nothing
            }
        }
    }
}

/// Returns the operand that the word `text` begins.
#[tactic(auto, unfolding(cg_c_syntax::specs::Words::word_opening))]
fn word_opening(text: &[u8]) -> Opening
    ensures { result ≡ spec.word_opening text.now }
{
    if same(text, b"in") {
        Opening::Input
    } else if same(text, b"min") {
        Opening::Pick(Pick::Min)
    } else if same(text, b"max") {
        Opening::Pick(Pick::Max)
    } else if cast_called(text).is_some() || is_language_word(text) {
        Opening::Nothing
    } else {
        Opening::Name
    }
}

/// Returns the operand that a token of the kind `kind` with the bytes `text` begins.
pub(crate) fn opening_by(kind: Kind, text: &[u8]) -> Opening
    ensures { result ≡ spec.opening_by kind text.now }
{
    match kind {
        Kind::Word => word_opening(text),
        Kind::Number => Opening::Number,
        Kind::Mark => mark_opening(text),
        _ => Opening::Nothing,
    }
}

/// Returns the statement that a token of the kind `kind` with the bytes `text` begins.
pub(crate) fn beginning_by(kind: Kind, text: &[u8]) -> Beginning
    ensures { result ≡ spec.beginning_by kind text.now }
{
    match kind {
        Kind::Word => word_beginning(text),
        Kind::Mark => {
            if same(text, b"{") {
                Beginning::Block
            } else {
                Beginning::Nothing
            }
        }
        _ => Beginning::Nothing,
    }
}

/// Returns the statement that the word `text` begins.
#[tactic(auto, unfolding(cg_c_syntax::specs::Words::word_beginning))]
fn word_beginning(text: &[u8]) -> Beginning
    ensures { result ≡ spec.word_beginning text.now }
{
    if same(text, b"if") {
        Beginning::If
    } else if same(text, b"out") {
        Beginning::Output
    } else if cast_called(text).is_some() || is_language_word(text) {
        Beginning::Nothing
    } else {
        Beginning::Name
    }
}

/// Returns the operator that the mark `text` joins with an assignment.
#[tactic(auto, unfolding(cg_c_syntax::specs::Words::computing_change))]
fn computing_change(text: &[u8]) -> Option<Binary>
    ensures { result ≡ spec.computing_change text.now }
{
    if same(text, b"+=") {
        Some(Binary::Add)
    } else if same(text, b"-=") {
        Some(Binary::Sub)
    } else if same(text, b"*=") {
        Some(Binary::Mul)
    } else if same(text, b"&=") {
        Some(Binary::And)
    } else if same(text, b"|=") {
        Some(Binary::Or)
    } else if same(text, b"^=") {
        Some(Binary::Xor)
    } else if same(text, b"<<=") {
        Some(Binary::ShiftLeft)
    } else if same(text, b">>=") {
        Some(Binary::ShiftRight)
    } else {
        None
    }
}

/// Returns what an assignment by the mark `text` does.
#[tactic(auto, unfolding(cg_c_syntax::specs::Words::change_called))]
fn change_called(text: &[u8]) -> Option<Change>
    ensures { result ≡ spec.change_called text.now }
{
    if same(text, b"++") {
        Some(Change::Step(Binary::Add))
    } else if same(text, b"--") {
        Some(Change::Step(Binary::Sub))
    } else if same(text, b"=") {
        Some(Change::Set(None))
    } else {
        match computing_change(text) {
            Some(op) => Some(Change::Set(Some(op))),
            None => None,
        }
    }
}

/// Returns what an assignment by a token of the kind `kind` with the bytes `text` does.
pub(crate) fn change_by(kind: Kind, text: &[u8]) -> Option<Change>
    ensures { result ≡ spec.change_by kind text.now }
{
    if is_mark(kind) {
        change_called(text)
    } else {
        None
    }
}
