//! Whether a move is accepted.
ghost use Rattle.std.specs.Prelude.{◌≡◌, ◌<◌, ◌≤◌};
ghost use Rattle.cg_walk_spec.specs.Walk as spec;

/// How much hotter the walk is at its start than at its end.
const HOTTEST: u64 = 64;

/// Returns how hot the walk is at its move `k` of `moves`.
fn heat(moves: u32, k: u32) -> u64
    requires { k < moves }
    ensures value { result ≡ spec.heat moves k }
    ensures some { 0 < result }
{
    1 + HOTTEST * u64::from(moves - k) / u64::from(moves)
}

/// Checks whether move `k` of `moves`, which takes the cost from `before` to `after`, is accepted by the random `word`.
pub(crate) fn is_taken(moves: u32, k: u32, before: u64, after: u64, word: u32) -> bool
    requires { k < moves }
    ensures { result ≡ spec.is_taken moves k before after word }
{
    if after <= before {
        return true;
    }
    let halves = ((after - before) / heat(moves, k)).min(31);
    u64::from(word) < (1 << 32) / (1 << halves)
}
