//! The values of operations.
ghost use Rattle.std.specs.Prelude.{◌≡◌, ◌<◌, ◌+◌, ◌%◌, ◌^◌};
ghost use Rattle.cg_word.specs.Word.{apply_of, rank, sar, words};

use crate::op::Op;

/// Returns the value of an operation that needs its operands alone, on words of 32 bits.
///
/// Operands past the arity are ignored. Operations whose value comes from elsewhere (`iter`, `input`, the loads) and
/// those without a value give 0.
#[tactic(auto, unfolding(crate::specs::Word::apply_of))]
pub fn apply(op: Op, a: u32, b: u32, c: u32) -> u32
    ensures { result ≡ apply_of op a b c }
{
    match op {
        Op::Const => a,
        Op::Add => a.wrapping_add(b),
        Op::Sub => a.wrapping_sub(b),
        Op::Mul => a.wrapping_mul(b),
        Op::And => a & b,
        Op::Or => a | b,
        Op::Xor => a ^ b,
        Op::Shl => a.wrapping_shl(b),
        Op::Shr => a >> (b % 32),
        Op::Sar => shifted_signed(a, b % 32),
        Op::Eq => u32::from(a == b),
        Op::Ne => u32::from(a != b),
        Op::Lts => u32::from(signed_rank(a) < signed_rank(b)),
        Op::Ltu => u32::from(a < b),
        Op::Mins => if signed_rank(b) < signed_rank(a) {
            b
        } else {
            a
        },
        Op::Maxs => if signed_rank(a) < signed_rank(b) {
            b
        } else {
            a
        },
        Op::Select => if a != 0 { b } else { c },
        Op::Iter
        | Op::Input
        | Op::Load
        | Op::Store
        | Op::Output
        | Op::LoadIf
        | Op::StoreIf
        | Op::OutputIf => 0,
    }
}

/// Returns the rank of the word `a` in the order of two's complement, counted from the least word.
fn signed_rank(a: u32) -> u32
    ensures { result ≡ rank a }
{
    a.wrapping_add(0x8000_0000)
}

/// Returns the word `a` shifted right by `by` bits, with its sign bit shifted in.
fn shifted_signed(a: u32, by: u32) -> u32
    requires { by < 32 }
    ensures { result ≡ sar a by }
{
    if a < 0x8000_0000 {
        a >> by
    } else {
        u32::MAX - ((u32::MAX - a) >> by)
    }
}
