//! Moves that are tried, and accepted or rejected.
ghost use Rattle.std.specs.Prelude.{◌≡◌};
ghost use Rattle.rand_pcg.specs.Pcg.{pcg32};
ghost use Rattle.cg_walk_spec.specs.Words as words;

use crate::chance::is_taken;
use crate::counting::Counting;
use crate::walk::Walk;
use cg_place::Move;
use rand_core::utils::NextWord;
use rand_pcg::Lcg64Xsh32;
use std::alloc::{AllocError, Global};

/// The number of moves after which histories grow.
const PERIOD: u32 = 64;

/// The number of a move, the number of all moves, and how the costs of states are counted.
#[derive(Clone, Copy, Drop)]
pub(crate) struct Pace {
    pub(crate) counting: Counting,
    pub(crate) moves: u32,
    pub(crate) k: u32,
}

/// Four words of a generator, one after another.
#[derive(Clone, Copy, Drop)]
struct Drawn {
    node: u32,
    unit: u32,
    time: u32,
    stands: u32,
}

/// Returns the next word of `generator`.
fn next(generator: &mut Lcg64Xsh32) -> u32
    ensures word { result ≡ (pcg32 generator.old).0 }
    ensures next { generator.new ≡ (pcg32 generator.old).1 }
{
    generator.next_word()
}

/// Draws the next four words of `generator`.
fn draw(generator: &mut Lcg64Xsh32) -> Drawn
    ensures node { result.node ≡ words.word 0 generator.old }
    ensures unit { result.unit ≡ words.word 1 generator.old }
    ensures time { result.time ≡ words.word 2 generator.old }
    ensures stands { result.stands ≡ words.word 3 generator.old }
    ensures next { generator.new ≡ words.after_words 4 generator.old }
{
    let node = next(generator);
    let unit = next(generator);
    let time = next(generator);
    let stands = next(generator);
    Drawn {
        node,
        unit,
        time,
        stands,
    }
}

impl<'g, 'a> Walk<'g, 'a> {
    ghost use Rattle.std.specs.Prelude.{◌≡◌, ◌<◌, ◌≤◌, All, OnOk};
    ghost use Rattle.cg_model.specs.Kernel.{size};
    ghost use Rattle.cg_walk_spec.specs.Walk.{touching, rested};
    ghost use Rattle.cg_walk_spec.specs.Words.{after_words};
    ghost use Rattle.cg_anneal.specs.Walking as spec;
    ghost use Rattle.cg_anneal.specs.Steps.{IsAttempt, IsStep};

    /// Tries the move `change`; `list` has the edge operands that touch its node. Where the move is rejected by `word`,
    /// the new routes are removed, the node is placed as before, and the old routes are put back.
    fn attempt(
        &mut self,
        alloc: Global,
        pace: Pace,
        change: Move,
        list: &[u32],
        word: u32,
    ) -> Result<(), AllocError>
        requires left { pace.k < pace.moves }
        requires may { spec.MayPlace self.old change }
        requires list { list.now ≡ touching self.old.kernel change.node }
        ensures { OnOk result (IsAttempt self.old change pace.moves pace.k word self.new) }
    {
        self.holds();
        let before = self.cost_by(alloc, pace.counting)?;
        let routes = self.take_all(alloc, list)?;
        let back = self.place(change);
        self.route_all(alloc, list)?;
        let after = self.cost_by(alloc, pace.counting)?;
        if is_taken(pace.moves, pace.k, before, after, word) {
            return Ok(());
        }
        self.drop_all(list);
        let _ = self.place(back);
        self.put_all(list, routes)?;
        Ok(())
    }

    /// Lets histories grow after move `k`, where the number of moves made, `k + 1`, is a multiple of `PERIOD`.
    fn rest(&mut self, k: u32)
        requires left { k < 1000000 }
        requires small { All (λ h. h < 4294967295) self.old.state.history }
        ensures { self.new ≡ spec.at_state self.old (rested self.old.arch self.old.kernel self.old.ii k self.old.state) }
    {
        if (k + 1) % PERIOD == 0 {
            self.age();
        }
    }

    /// Makes a move, by the next four words of `generator`.
    pub(crate) fn step(
        &mut self,
        alloc: Global,
        pace: Pace,
        generator: &mut Lcg64Xsh32,
    ) -> Result<(), AllocError>
        requires left { pace.k < pace.moves }
        requires few { pace.moves ≤ 1000000 }
        requires some { 0 < size self.old.kernel }
        requires small { All (λ h. h ≤ pace.k) self.old.state.history }
        ensures step { OnOk result (IsStep self.old pace.moves pace.k generator.old self.new) }
        ensures next { OnOk result (generator.new ≡ after_words 4 generator.old) }
    {
        let words = draw(generator);
        let change = self.propose(words.node, words.unit, words.time);
        let list = self.touching(alloc, change.node)?;
        self.attempt(alloc, pace, change, &list, words.stands)?;
        self.rest(pace.k);
        Ok(())
    }
}
