//! The rules of C for words of 32 bits.
ghost use Rattle.std.specs.Prelude.{◌≡◌, ◌≤◌};
ghost use Rattle.cg_word.specs.Word.{rank as rank_of};
ghost use Rattle.cg_c_check.specs.Rules as spec;

use crate::program::Constant;
use cg_c_syntax::{Binary, Cast, Number, Sign, Signedness};
use cg_word::{Op, apply};

/// The greatest signed word.
pub(crate) const MOST_SIGNED: u32 = 0x7FFF_FFFF;

/// Returns whether `op` is a shift.
pub(crate) fn is_shift(op: Binary) -> bool
    ensures { result ≡ spec.is_shift op }
{
    matches!(op, Binary::ShiftLeft | Binary::ShiftRight)
}

/// Returns whether `op` evaluates its right side only where it needs it.
pub(crate) fn is_conditional(op: Binary) -> bool
    ensures { result ≡ spec.is_conditional op }
{
    matches!(op, Binary::OrElse | Binary::AndThen)
}

/// Returns whether the value of `op` is 0 or 1.
fn is_truth(op: Binary) -> bool
    ensures { result ≡ spec.is_truth op }
{
    match op {
        Binary::OrElse
        | Binary::AndThen
        | Binary::Equal
        | Binary::Unequal
        | Binary::Less
        | Binary::AtMost
        | Binary::Greater
        | Binary::AtLeast => true,
        Binary::Or
        | Binary::Xor
        | Binary::And
        | Binary::ShiftLeft
        | Binary::ShiftRight
        | Binary::Add
        | Binary::Sub
        | Binary::Mul => false,
    }
}

/// Returns how two words of one operation are read, of which one alone is read like `left` and the other like `right`.
pub(crate) fn common(left: Signedness, right: Signedness) -> Signedness
    ensures { result ≡ spec.common left right }
{
    match left {
        Signedness::Signed => right,
        Signedness::Unsigned => Signedness::Unsigned,
    }
}

/// Returns how `op` reads operands that are read like `left` and `right`.
pub fn reading_of(op: Binary, left: Signedness, right: Signedness) -> Signedness
    ensures { result ≡ spec.reading_of op left right }
{
    if is_shift(op) {
        left
    } else {
        common(left, right)
    }
}

/// Returns how the value of `op` is read, where `op` reads its operands as `reading` says.
pub(crate) fn value_signedness(op: Binary, reading: Signedness) -> Signedness
    ensures { result ≡ spec.value_signedness op reading }
{
    if is_truth(op) {
        Signedness::Signed
    } else {
        reading
    }
}

/// Returns how the value of `sign` is read before an operand that is read as `signedness` says.
pub(crate) fn sign_signedness(sign: Sign, signedness: Signedness) -> Signedness
    ensures { result ≡ spec.sign_signedness sign signedness }
{
    match sign {
        Sign::Not => Signedness::Signed,
        Sign::Minus | Sign::Complement | Sign::Plus => signedness,
    }
}

/// Returns how the value of a cast to `to` is read.
pub(crate) fn cast_signedness(to: Cast) -> Signedness
    ensures { result ≡ spec.cast_signedness to }
{
    match to {
        Cast::Unsigned => Signedness::Unsigned,
        Cast::Signed
        | Cast::SignedByte
        | Cast::SignedHalf
        | Cast::UnsignedByte
        | Cast::UnsignedHalf => Signedness::Signed,
    }
}

/// Returns whether `x` is less than `y`, where both are read as `reading` says.
fn is_less(reading: Signedness, x: u32, y: u32) -> bool
    ensures { result ≡ spec.is_less reading x y }
{
    match reading {
        Signedness::Signed => rank(x) < rank(y),
        Signedness::Unsigned => x < y,
    }
}

/// Returns how many signed words are less than `word`.
pub(crate) fn rank(word: u32) -> u32
    ensures { result ≡ rank_of word }
{
    word.wrapping_add(0x8000_0000)
}

/// Returns the shift to the right of a word that is read as `reading` says.
fn right_shift(reading: Signedness) -> Op
    ensures { result ≡ spec.right_shift reading }
{
    match reading {
        Signedness::Signed => Op::Sar,
        Signedness::Unsigned => Op::Shr,
    }
}

/// Returns what `op` gives for `x` and `y`, where it reads them as `reading` says.
fn two_words(op: Binary, reading: Signedness, x: u32, y: u32) -> u32
    ensures { result ≡ spec.two_words op reading x y }
{
    match op {
        Binary::OrElse => u32::from(x != 0 || y != 0),
        Binary::AndThen => u32::from(x != 0 && y != 0),
        Binary::Or => apply(Op::Or, x, y, 0),
        Binary::Xor => apply(Op::Xor, x, y, 0),
        Binary::And => apply(Op::And, x, y, 0),
        Binary::Equal => u32::from(x == y),
        Binary::Unequal => u32::from(x != y),
        Binary::Less => u32::from(is_less(reading, x, y)),
        Binary::AtMost => u32::from(!is_less(reading, y, x)),
        Binary::Greater => u32::from(is_less(reading, y, x)),
        Binary::AtLeast => u32::from(!is_less(reading, x, y)),
        Binary::ShiftLeft => apply(Op::Shl, x, y, 0),
        Binary::ShiftRight => apply(right_shift(reading), x, y, 0),
        Binary::Add => apply(Op::Add, x, y, 0),
        Binary::Sub => apply(Op::Sub, x, y, 0),
        Binary::Mul => apply(Op::Mul, x, y, 0),
    }
}

/// Returns what `sign` gives for `x`.
fn signed_word(sign: Sign, x: u32) -> u32
    ensures { result ≡ spec.signed_word sign x }
{
    match sign {
        Sign::Minus => apply(Op::Sub, 0, x, 0),
        Sign::Complement => apply(Op::Xor, x, u32::MAX, 0),
        Sign::Not => u32::from(x == 0),
        Sign::Plus => x,
    }
}

/// Returns the lowest `bits` bits of `x`, of which the first is a sign.
fn extended(bits: u32, x: u32) -> u32
    requires { bits ≤ 32 }
    ensures { result ≡ spec.extended bits x }
{
    apply(Op::Sar, apply(Op::Shl, x, 32 - bits, 0), 32 - bits, 0)
}

/// Returns what a cast to `to` gives for `x`.
fn cast_word(to: Cast, x: u32) -> u32
    ensures { result ≡ spec.cast_word to x }
{
    match to {
        Cast::Signed | Cast::Unsigned => x,
        Cast::SignedByte => extended(8, x),
        Cast::SignedHalf => extended(16, x),
        Cast::UnsignedByte => apply(Op::And, x, 0xFF, 0),
        Cast::UnsignedHalf => apply(Op::And, x, 0xFFFF, 0),
    }
}

/// Returns whether words like `signedness` are read signed.
pub(crate) fn is_signed(signedness: Signedness) -> bool
    ensures { result ≡ spec.is_signed signedness }
{
    matches!(signedness, Signedness::Signed)
}

/// Returns whether `number` is a word, and a signed one if it is decimal without `u`.
pub(crate) fn fits(number: &Number) -> bool
    ensures { result ≡ spec.fits number.now }
{
    number.value <= u64::from(u32::MAX)
        && (number.unsigned || number.hexadecimal || number.value <= u64::from(MOST_SIGNED))
}

/// Returns how `number` is read.
pub(crate) fn number_signedness(number: &Number) -> Signedness
    ensures { result ≡ spec.number_signedness number.now }
{
    if number.unsigned || number.value > u64::from(MOST_SIGNED) {
        Signedness::Unsigned
    } else {
        Signedness::Signed
    }
}

/// Returns whether the value of an enumerator may be `constant`.
pub(crate) fn fits_enumerator(constant: Constant) -> bool
    ensures { result ≡ spec.fits_enumerator constant }
{
    is_signed(constant.signedness) || constant.word <= MOST_SIGNED
}

/// Returns whether `op` is a shift by more than 31 where its right side is `count`.
pub(crate) fn is_wide(op: Binary, count: Constant) -> bool
    ensures { result ≡ spec.is_wide op count }
{
    is_shift(op) && count.word > 31
}

/// Returns the value of `op` for `x` and `y`.
pub(crate) fn folded_two(op: Binary, x: Constant, y: Constant) -> Constant
    ensures { result ≡ spec.folded_two op x y }
{
    let reading = reading_of(op, x.signedness, y.signedness);
    Constant {
        word: two_words(op, reading, x.word, y.word),
        signedness: value_signedness(op, reading),
    }
}

/// Returns the value of `sign` before `x`.
pub(crate) fn folded_sign(sign: Sign, x: Constant) -> Constant
    ensures { result ≡ spec.folded_sign sign x }
{
    Constant {
        word: signed_word(sign, x.word),
        signedness: sign_signedness(sign, x.signedness),
    }
}

/// Returns the value of a cast of `x` to `to`.
pub(crate) fn folded_cast(to: Cast, x: Constant) -> Constant
    ensures { result ≡ spec.folded_cast to x }
{
    Constant {
        word: cast_word(to, x.word),
        signedness: cast_signedness(to),
    }
}

/// Returns the value of `condition ? x : y`.
pub(crate) fn folded_choice(condition: Constant, x: Constant, y: Constant) -> Constant
    ensures { result ≡ spec.folded_choice condition x y }
{
    Constant {
        word: if condition.word != 0 { x.word } else { y.word },
        signedness: common(x.signedness, y.signedness),
    }
}
