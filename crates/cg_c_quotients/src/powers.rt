//! Powers of two.
ghost use Rattle.std.specs.Prelude.{◌≡◌, ◌<◌, ◌^◌, MatchOption};
ghost use Rattle.cg_c_quotients.specs.Quotients.{IsNoPower};

/// Returns 2 to the power `bits`.
pub(crate) fn power(bits: u32) -> u32
    requires { bits < 32 }
    ensures { result ≡ 2 ^ bits }
{
    1 << bits
}

/// Returns the exponent of 2 whose power is `number`, if there is one.
pub(crate) fn exponent_of(number: u32) -> Option<u32>
    ensures { MatchOption result (IsNoPower number) (λ bits. (bits < 32) × (number ≡ 2 ^ bits)) }
{
    for bits in 0..32 {
        if power(bits) == number {
            return Some(bits);
        }
    }
    None
}
