//! Products with a factor, shifted, in place of a division.
ghost use Rattle.std.specs.Prelude.{◌≡◌, ◌<◌, ◌≤◌, ◌↔◌, MatchOption, IsTrue};
ghost use Rattle.cg_c_quotients.specs.Quotients.{NonePassesBelow, Passes, factor_for};

use crate::powers::power;

/// Returns the least number whose product with `divisor` is at least 2 to the power `shift`.
pub(crate) fn factor_of(divisor: u32, shift: u32) -> u32
    requires positive { 1 ≤ divisor }
    requires within { shift < 32 }
    ensures { result ≡ factor_for divisor shift }
{
    power(shift).div_ceil(divisor)
}

/// Returns whether `shift` passes the test, under which the product with the factor for `divisor` gives the quotient at
/// each of `turns` turns.
fn passes(divisor: u32, turns: u32, shift: u32) -> bool
    requires positive { 1 ≤ divisor }
    requires within { divisor ≤ turns }
    requires limited { turns ≤ 1000000 }
    requires small { shift < 32 }
    ensures { IsTrue result ↔ Passes divisor turns shift }
{
    let factor = u64::from(factor_of(divisor, shift));
    let excess = factor * u64::from(divisor) - u64::from(power(shift));
    let last = turns - 1;
    let quotients = u64::from(last / divisor + 1);
    quotients * excess < factor && u64::from(last) * factor < 1 << 32
}

/// Returns the least shift below 32 that passes for `divisor` and `turns`, if there is one.
pub(crate) fn least_shift(divisor: u32, turns: u32) -> Option<u32>
    requires positive { 1 ≤ divisor }
    requires within { divisor ≤ turns }
    requires limited { turns ≤ 1000000 }
    ensures { MatchOption result (NonePassesBelow divisor turns 32)
        (λ shift. (shift < 32) × Passes divisor turns shift × NonePassesBelow divisor turns shift) }
{
    for shift in 0..32 {
        if passes(divisor, turns, shift) {
            return Some(shift);
        }
    }
    None
}
