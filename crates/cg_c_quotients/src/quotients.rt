//! The forms of a quotient, and which one is chosen.
ghost use Rattle.std.specs.Prelude.{◌≡◌, ℕ, ◌/◌, ◌<◌, ◌≤◌};
ghost use Rattle.cg_c_quotients.specs.Quotients.{IsChoice, word_at};

use crate::factors::{factor_of, least_shift};
use crate::powers::exponent_of;

/// How the number of a turn divided by a constant is computed.
#[derive(Clone, Copy)]
pub enum Quotient {
    /// The number itself.
    Turn,
    /// The number shifted right.
    Shift(u32),
    /// The number times `factor`, shifted right by `shift`.
    Product { factor: u32, shift: u32 },
    /// A recurrence over two turns, which counts how often the remainder begins again.
    Recurrence,
}

/// Returns how the number of a turn divided by `divisor` is computed at each of `turns` turns.
pub fn quotient_of(divisor: u32, turns: u32) -> Quotient
    requires positive { 1 ≤ divisor }
    requires within { divisor ≤ turns }
    requires limited { turns ≤ 1000000 }
    ensures quotient { (t : ℕ) → t < turns → word_at result divisor t ≡ t / divisor }
    ensures choice { IsChoice divisor turns result }
{
    choice_of(divisor, turns)
}

/// Returns the form that is chosen for `divisor` and `turns`.
#[tactic(auto, using(crate::proofs::Exponents::positive_exponent), unfolding(crate::specs::Quotients::IsChoice))]
fn choice_of(divisor: u32, turns: u32) -> Quotient
    requires positive { 1 ≤ divisor }
    requires within { divisor ≤ turns }
    requires limited { turns ≤ 1000000 }
    ensures { IsChoice divisor turns result }
{
    if divisor == 1 {
        return Quotient::Turn;
    }
    if let Some(bits) = exponent_of(divisor) {
        return Quotient::Shift(bits);
    }
    match least_shift(divisor, turns) {
        Some(shift) => Quotient::Product {
            factor: factor_of(divisor, shift),
            shift,
        },
        None => Quotient::Recurrence,
    }
}
