//! The random words and numbers of a generator.
ghost use Rattle.std.specs.Prelude.{◌≡◌, ◌<◌, IfOk, OnOk};
ghost use Rattle.cg_trial.specs.Words as spec;

use rand_core::utils::NextWord;
use rand_pcg::Lcg64Xsh32;
use std::alloc::{AllocError, Global};

/// Returns the generator for `seed`.
#[tactic(auto, unfolding(crate::specs::Words::generator))]
pub(crate) fn generator(seed: u64) -> Lcg64Xsh32
    ensures { result ≡ spec.generator seed }
{
    Lcg64Xsh32::new(seed, 0)
}

/// Returns the next random word of a generator.
#[tactic(auto, unfolding(crate::specs::Words::next, crate::specs::Words::rest))]
pub(crate) fn next(generator: &mut Lcg64Xsh32) -> u32
    ensures word { result ≡ spec.next generator.old }
    ensures rest { generator.new ≡ spec.rest generator.old }
{
    generator.next_word()
}

/// Returns a random number below `n`, computed from the next word.
#[tactic(auto, unfolding(crate::specs::Words::below))]
pub(crate) fn below(generator: &mut Lcg64Xsh32, n: u32) -> u32
    requires { 0 < n }
    ensures number { result ≡ spec.below n generator.old }
    ensures less { result < n }
    ensures rest { generator.new ≡ spec.rest generator.old }
{
    (u64::from(next(generator)) * u64::from(n) / (1 << 32)) as u32
}

/// Returns the next `n` random words.
pub(crate) fn words(
    alloc: Global,
    generator: &mut Lcg64Xsh32,
    n: u32,
) -> Result<Vec<u32>, AllocError>
    ensures words { IfOk result (λ v. v.items ≡ spec.words_of n generator.old) }
    ensures rest { OnOk result (generator.new ≡ spec.after n generator.old) }
{
    let mut list = Vec::new(alloc);
    for _k in 0..n {
        list.push(next(generator))?;
    }
    Ok(list)
}
