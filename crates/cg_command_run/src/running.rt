//! A run whose number of iterations is within the limit.
ghost use Rattle.std.specs.Prelude.{◌≡◌, ◌≤◌, ℕ, IfOk};
ghost use Rattle.cg_model.specs.Limits.{most_turns};
ghost use Rattle.cg_model.specs.Turns.{turns_left};
ghost use Rattle.cg_turns.specs.Done.{left_of, IsSmall};
ghost use Rattle.cg_turns.specs.Pairs.{IsPairOf};

use cg_model::Kernel;
use cg_pad::Image;
use cg_turns::{TurnsDone, TurnsFault, run_turns};
use std::alloc::{AllocError, Global};

/// Runs `turns` iterations of `kernel` from `image`. `turns` is within the limit.
pub(crate) fn run(
    alloc: Global,
    kernel: &Kernel,
    turns: u32,
    image: &Image,
) -> Result<TurnsDone, AllocError>
    requires { turns ≤ most_turns }
    ensures done { IfOk result (λ d. left_of d ≡ turns_left kernel.now turns image.now) }
    ensures pair { IfOk result (λ d. IsPairOf kernel.now turns image.now d.pair) }
    ensures small { IfOk result (λ d. IsSmall image.now turns d.image) }
{
    match run_turns(alloc, kernel, turns, image) {
        Ok(done) => Ok(done),
        Err(fault) => Err(want_of(fault)),
    }
}

/// Converts `fault` to the only fault that remains when the number of iterations is within the limit: memory ran out.
fn want_of(fault: TurnsFault) -> AllocError
    requires { (t : ℕ) → fault ≡ TurnsFault.TooManyTurns t → ⊥ }
{
    match fault {
        TurnsFault::Memory => AllocError,
        TurnsFault::TooManyTurns(_) => unreachable!(),
    }
}
