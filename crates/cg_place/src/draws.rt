//! Numbers below a bound from random words.
ghost use Rattle.std.specs.Prelude.{◌≡◌, ◌<◌};
ghost use Rattle.cg_place.specs.Draws.{draw as drawn};

/// Returns a number below `k` from the random word `word`.
pub(crate) fn draw(k: u32, word: u32) -> u32
    requires { 0 < k }
    ensures value { result ≡ drawn k word }
    ensures below { result < k }
{
    (u64::from(word) * u64::from(k) / (1 << 32)) as u32
}
