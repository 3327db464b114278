//! The least number of turns after which two addresses of one stride meet.
ghost use Rattle.std.specs.Prelude.{◌≡◌, ◌*◌, ◌%◌, ◌^◌, ◌<◌, ◌≤◌, MatchOption};
ghost use Rattle.cg_depend.specs.Congruence.{HasNone, IsLeast};

use std::marker::Model;

/// A stride with the power of two in it and the inverse of its odd part, which `gap` needs. Contracts see it as the
/// stride.
#[derive(Debug, Drop)]
pub(crate) struct Stride {
    stride: u32,
    /// How many times 2 divides it; 32 for 0.
    zeros: u32,
    inverse: u32,
}

impl Model for Stride {
    ghost use Rattle.std.specs.Prelude.{ℕ};
    ghost use Rattle.cg_depend.specs.Congruence.{IsParted};

    ghost Value = { ℕ };

    ghost view = { λ s. s.stride };

    ghost invariant = { λ s. IsParted s.stride s.zeros s.inverse };
}

impl Stride {
    ghost use Rattle.std.specs.Prelude.{◌≡◌};

    /// Returns the stride itself.
    pub(crate) fn word(&self) -> u32
        ensures { result ≡ self.now }
    {
        self.stride
    }
}

/// Returns the inverse of `odd` modulo 2^32, computed bit by bit.
fn inverse(odd: u64) -> u64
    requires word { odd < 2 ^ 32 }
    requires odd { odd % 2 ≡ 1 }
    ensures small { result < 2 ^ 32 }
    ensures inverse { (odd * result) % 2 ^ 32 ≡ 1 }
{
    let mut known: u64 = 1;
    let mut power: u64 = 2;
    for _bit in 1..32u32 {
        if odd * known / power % 2 == 1 {
            known += power;
        }
        power *= 2;
    }
    known
}

/// Splits `stride` into a power of two and an odd part, and finds the inverse of the odd part.
pub(crate) fn parted(stride: u32) -> Stride
    ensures { result ≡ stride }
{
    if stride == 0 {
        return Stride {
            stride,
            zeros: 32,
            inverse: 1,
        };
    }
    let zeros = stride.trailing_zeros();
    let inverse = inverse(u64::from(stride >> zeros)) as u32;
    Stride {
        stride,
        zeros,
        inverse,
    }
}

/// Returns the least number that is at least `least` and below 1,000,000 and whose product with `stride` is `delta`,
/// modulo 2^32.
pub(crate) fn gap(stride: &Stride, delta: u32, least: u32) -> Option<u32>
    ensures { MatchOption result (HasNone stride.now delta least 1000000) (IsLeast stride.now delta least 1000000) }
{
    let part: u64 = 1 << stride.zeros;
    let delta = u64::from(delta);
    if delta % part != 0 {
        return None;
    }
    // for stride 0 the modulus is 1, and each number solves it
    let modulus: u64 = 1 << (32 - stride.zeros);
    let first = delta / part * u64::from(stride.inverse) % modulus;
    let least = u64::from(least);
    let x = least + (first + modulus - least % modulus) % modulus;
    if x < 1_000_000 { Some(x as u32) } else { None }
}
