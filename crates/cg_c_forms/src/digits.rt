//! Digits of the turn's number, as quotients, masks and differences.
ghost use Rattle.std.specs.Prelude.{◌≡◌, ℕ, ◌*◌, ◌/◌, ◌%◌, ◌<◌, ◌≤◌, length, IfOk, IfSome};
ghost use Rattle.cg_c_values.specs.Listed.{listed};
ghost use Rattle.cg_c_values.specs.Values.{Extends, Means};
ghost use Rattle.cg_word.specs.declared.op.Op.TheVariants as ops;
ghost use Rattle.cg_word.specs.Word.{apply_of};
ghost use Rattle.cg_c_quotients.specs.Quotients.{masked};
ghost use Rattle.cg_c_forms.specs.Remade.{Adds, IsComputed, MeansIn};

use cg_c_quotients::{Quotient, mask_of, quotient_of};
use cg_c_values::{Value, Values};
use cg_word::Op;
use std::alloc::AllocError;

/// Returns a value that is the number of the turn shifted right by `bits`.
#[tactic(auto, using(crate::proofs::Later::extends_twice))]
fn shifted(values: &mut Values, bits: u32) -> Result<usize, AllocError>
    ensures kept { Extends (listed values.old) (listed values.new) }
    ensures means { IfOk result (λ v. Means (listed values.new) v (λ x E. apply_of ops.Shr x.turn bits 0)) }
{
    let turn = values.add(Value::Turn)?;
    let bits = values.constant(bits)?;
    values.two(Op::Shr, turn, bits)
}

/// Returns a value that is the number of the turn times `factor`, shifted right by `shift`.
#[tactic(auto, using(crate::proofs::Later::extends_twice))]
fn scaled(values: &mut Values, factor: u32, shift: u32) -> Result<usize, AllocError>
    ensures kept { Extends (listed values.old) (listed values.new) }
    ensures means { IfOk result (λ v. Means (listed values.new) v (λ x E. apply_of ops.Shr (apply_of ops.Mul x.turn factor 0) shift 0)) }
{
    let turn = values.add(Value::Turn)?;
    let factor = values.constant(factor)?;
    let product = values.two(Op::Mul, turn, factor)?;
    let shift = values.constant(shift)?;
    values.two(Op::Shr, product, shift)
}

/// Returns a value that is the number of the turn divided by `divisor`, in each of `turns` turns.
fn quotient(values: &mut Values, divisor: u32, turns: u32) -> Result<usize, AllocError>
    requires positive { 1 ≤ divisor }
    requires within { divisor ≤ turns }
    requires limited { turns ≤ 1000000 }
    ensures kept { Adds (IsComputed turns) (listed values.old) (listed values.new) }
    ensures means { IfOk result (λ v. MeansIn turns (listed values.new) v (λ t. t / divisor)) }
{
    match quotient_of(divisor, turns) {
        Quotient::Turn => values.add(Value::Turn),
        Quotient::Shift(bits) => shifted(values, bits),
        Quotient::Product { factor, shift } => scaled(values, factor, shift),
        Quotient::Recurrence => values.insert(Value::Quotient(divisor)),
    }
}

/// Returns a value that is what `mask` leaves of the quotient by `divisor`, in each of `turns` turns.
#[tactic(auto, using(crate::proofs::Later::extends_twice))]
fn masked_quotient(
    values: &mut Values,
    divisor: u32,
    mask: u32,
    turns: u32,
) -> Result<usize, AllocError>
    requires positive { 1 ≤ divisor }
    requires within { divisor ≤ turns }
    requires limited { turns ≤ 1000000 }
    ensures kept { Adds (IsComputed turns) (listed values.old) (listed values.new) }
    ensures means { IfOk result (λ v. MeansIn turns (listed values.new) v (λ t. masked (t / divisor) mask)) }
{
    let all = quotient(values, divisor, turns)?;
    let mask = values.constant(mask)?;
    values.two(Op::And, all, mask)
}

/// Returns a value that is the remainder by `radix` of the quotient by `divisor`, in each of `turns` turns: that quotient
/// less `radix` times the quotient by both.
#[tactic(auto, using(crate::proofs::Later::extends_twice))]
fn remainder(values: &mut Values, divisor: u32, radix: u32, turns: u32) -> Result<usize, AllocError>
    requires positive { (1 ≤ divisor) × (1 ≤ radix) }
    requires within { divisor * radix ≤ turns }
    requires limited { turns ≤ 1000000 }
    ensures kept { Adds (IsComputed turns) (listed values.old) (listed values.new) }
    ensures means { IfOk result (λ v. MeansIn turns (listed values.new) v (λ t. t / divisor % radix)) }
{
    let all = quotient(values, divisor, turns)?;
    let rounds = quotient(values, divisor * radix, turns)?;
    let radix = values.constant(radix)?;
    let before = values.two(Op::Mul, rounds, radix)?;
    values.two(Op::Sub, all, before)
}

/// Returns a value that is the number of the turn divided by any `divisor`, in each of `turns` turns. It is 0 if
/// `divisor` is 0 or exceeds `turns`.
pub(crate) fn any_quotient(
    values: &mut Values,
    divisor: u32,
    turns: u32,
) -> Result<usize, AllocError>
    requires limited { turns ≤ 1000000 }
    ensures kept { Adds (IsComputed turns) (listed values.old) (listed values.new) }
    ensures means { IfOk result (λ v. MeansIn turns (listed values.new) v (λ t. t / divisor)) }
{
    if divisor == 0 || divisor > turns {
        return values.constant(0);
    }
    quotient(values, divisor, turns)
}

/// Returns a value that is the digit of the turn's number for `divisor` and `radix`, in each of `turns` turns.
///
/// It is the quotient by `divisor` alone if the product of `divisor` and `radix` is at least `turns` or one of them is 0:
/// a number divided by 0 is 0, and its remainder by 0 is the number itself. It stays a digit only if it is the lowest of
/// radix 3, which is a rotation of three words.
pub(crate) fn digit(
    values: &mut Values,
    divisor: u32,
    radix: u32,
    turns: u32,
) -> Result<usize, AllocError>
    requires limited { turns ≤ 1000000 }
    ensures kept { Adds (IsComputed turns) (listed values.old) (listed values.new) }
    ensures means { IfOk result (λ v. MeansIn turns (listed values.new) v (λ t. t / divisor % radix)) }
{
    if radix == 1 {
        return values.constant(0);
    }
    let span = u64::from(divisor) * u64::from(radix);
    if span == 0 || span >= u64::from(turns) {
        return any_quotient(values, divisor, turns);
    }
    if let Some(mask) = mask_of(radix) {
        return masked_quotient(values, divisor, mask, turns);
    }
    if divisor == 1 && radix == 3 {
        return values.insert(Value::Digit { divisor, radix });
    }
    remainder(values, divisor, radix, turns)
}
