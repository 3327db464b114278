//! The digits of a turn's number: remainders of its quotients.
ghost use Rattle.std.specs.Prelude.{◌≡◌, ℕ, ◌+◌, ◌%◌, IfSome, MatchOption};
ghost use Rattle.cg_c_quotients.specs.Quotients.{IsNoPower, masked};

use crate::powers::exponent_of;

/// Returns the mask that leaves of each word its remainder by `radix`, where `radix` is a power of two.
pub fn mask_of(radix: u32) -> Option<u32>
    ensures which { MatchOption result (IsNoPower radix) (λ mask. mask + 1 ≡ radix) }
    ensures remainder { IfSome result (λ mask. (word : ℕ) → masked word mask ≡ word % radix) }
{
    match exponent_of(radix) {
        Some(_) => Some(radix - 1),
        None => None,
    }
}
