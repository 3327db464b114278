//! Turns, one after the other.
ghost use Rattle.std.specs.Prelude.{◌≡◌, ◌<◌, ◌≤◌, ◌↔◌, ℕ, Err, IfOk, length};
ghost use Rattle.cg_model.specs.Limits.{most_turns, port_count};
ghost use Rattle.cg_model.specs.Turns.{turns_left};
ghost use Rattle.cg_turns.specs.Done.{IsSmall, left_by, left_of};
ghost use Rattle.cg_turns.specs.Pairs.{IsPairOf};

use crate::fault::TurnsFault;
use crate::frame::{Frame, Program, one_turn, start};
use crate::pair::UnorderedPair;
use crate::watch::unwatched;
use crate::window::Turn;
use cg_distance::min_distance;
use cg_model::{Kernel, MOST_TURNS};
use cg_pad::{Image, Streams};
use std::alloc::{AllocError, Global};

/// The results of turns: the memory and the output streams, the number of accesses outside the memory, and the first
/// two accesses that no edges order.
#[derive(Drop)]
pub struct TurnsDone {
    pub image: Image,
    pub outside: u64,
    pub pair: Option<UnorderedPair>,
}

/// Runs `n` turns of a kernel from an image: its nodes in program order, one turn after the other.
///
/// Only the values of the last turns are kept, so the memory taken doesn't grow with `n`, except for the output
/// streams.
pub fn run_turns(
    alloc: Global,
    kernel: &Kernel,
    n: u32,
    image: &Image,
) -> Result<TurnsDone, TurnsFault>
    ensures done { IfOk result (λ d. left_of d ≡ turns_left kernel.now n image.now) }
    ensures pair { IfOk result (λ d. IsPairOf kernel.now n image.now d.pair) }
    ensures small { IfOk result (λ d. IsSmall image.now n d.image) }
    ensures many { (t : ℕ) → (result ≡ Err (TurnsFault.TooManyTurns t)) ↔ ((t ≡ n) × (most_turns < n)) }
{
    if n > MOST_TURNS {
        return Err(TurnsFault::TooManyTurns(n));
    }
    Ok(run(alloc, kernel, n, image)?)
}

fn run(alloc: Global, kernel: &Kernel, n: u32, image: &Image) -> Result<TurnsDone, AllocError>
    requires { n ≤ most_turns }
    ensures done { IfOk result (λ d. left_of d ≡ turns_left kernel.now n image.now) }
    ensures pair { IfOk result (λ d. IsPairOf kernel.now n image.now d.pair) }
    ensures small { IfOk result (λ d. IsSmall image.now n d.image) }
{
    let table = min_distance(alloc, kernel)?;
    let mut watch = unwatched(alloc, kernel, image.memory().len())?;
    let mut frame = start(alloc, kernel, image)?;
    let program = Program {
        kernel,
        table: &table,
        image,
    };
    let mut row = 0;
    for turn in 0..n {
        let here = Turn { number: turn, row };
        one_turn(program, here, &mut frame, &mut watch)?;
        row = if row == 4 { 0 } else { row + 1 };
    }
    Ok(done(frame, watch.pair))
}

/// Returns the results in the frame.
fn done(frame: Frame, pair: Option<UnorderedPair>) -> TurnsDone
    requires { length frame.streams.items ≡ port_count }
    ensures left { left_of result ≡ left_by frame.memory frame.streams.items frame.outside }
    ensures pair { result.pair ≡ pair }
{
    let Frame {
        memory,
        streams,
        outside,
        ..
    } = frame;
    TurnsDone {
        image: Image {
            memory: memory.into_words(),
            streams: Streams::new(streams),
        },
        outside,
        pair,
    }
}
