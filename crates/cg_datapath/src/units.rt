//! The units of a cycle, in order.
ghost use Rattle.std.specs.Prelude.{◌≡◌, ◌<◌, ◌≤◌, ◌+◌, ◌*◌, ◌^◌, ℕ, length, slice_index, vec_len, vec_capacity};
ghost use Rattle.cg_model.specs.Limits.{latest_time, most_turns, most_units};
ghost use Rattle.cg_model.specs.Config as configs;
ghost use Rattle.cg_model.specs.Canonical.{arity_of};
ghost use Rattle.cg_model.specs.Machine.{begun, argument, arguments};
ghost use Rattle.cg_config.specs.Known.{HasUnit};
ghost use Rattle.cg_datapath.specs.Terminals.{terminals, on_ports, works_on};
ghost use Rattle.cg_datapath.specs.Effects.{HasRoom, AreRoomy, Begins, BeginsAll, HasRow};

use crate::effects::{Effects, begin_work};
use crate::moment::Moment;
use crate::terminals::Terminals;
use crate::unit_in_slot::UnitInSlot;
use cg_config::Contexts;
use cg_pad::{Image, Work};

/// Returns argument number `place` of `unit`, which is active in iteration `turn`: its initial word or immediate if it
/// has one, else the word on its port in `ports` among `words`.
fn argument_word<C: Contexts>(
    unit: &UnitInSlot<'_, C>,
    place: usize,
    turn: u32,
    ports: [u32; 3],
    words: &[u32],
) -> u32
    requires argument { place < arity_of unit.now.op }
    requires ports { (p : ℕ) → p < 3 → slice_index ports p < length words.now }
    ensures { result ≡ argument unit.now turn (on_ports ports words.now place) (configs.arg unit.now place) }
{
    match unit.told(place, turn) {
        Some(word) => word,
        None => word_on_port(ports, place, words),
    }
}

/// Returns the word on port number `place` of `ports` among `words`.
fn word_on_port(ports: [u32; 3], place: usize, words: &[u32]) -> u32
    requires place { place < 3 }
    requires ports { (p : ℕ) → p < 3 → slice_index ports p < length words.now }
    ensures { result ≡ on_ports ports words.now place }
{
    words[ports[place] as usize]
}

/// Returns argument number `place` of the `count` arguments of `unit` in iteration `turn`, with its `ports` among
/// `words`; 0 past the last.
fn operand<C: Contexts>(
    unit: &UnitInSlot<'_, C>,
    count: u32,
    place: usize,
    turn: u32,
    ports: [u32; 3],
    words: &[u32],
) -> u32
    requires count { count ≤ arity_of unit.now.op }
    requires ports { (p : ℕ) → p < 3 → slice_index ports p < length words.now }
    ensures { result ≡ slice_index (arguments unit.now turn (on_ports ports words.now) count) place }
{
    if place < count as usize {
        argument_word(unit, place, turn, ports, words)
    } else {
        0
    }
}

/// Begins the operation, if any, of `unit` in `round` of a run of `n` iterations from `image`, with its `ports` among
/// `words`. Returns the result; a store is pending in `effects` until the end of the cycle.
fn begin<C: Contexts>(
    image: &Image,
    unit: &UnitInSlot<'_, C>,
    n: u32,
    round: u32,
    ports: [u32; 3],
    words: &[u32],
    effects: &mut Effects,
) -> u32
    requires rounds { unit.now.stage + n < 2 ^ 32 }
    requires ports { (p : ℕ) → p < 3 → slice_index ports p < length words.now }
    requires pending { vec_len effects.old.pending < vec_capacity effects.old.pending }
    requires outside { effects.old.outside < 2 ^ 63 }
    requires room { HasRoom effects.old.streams.items unit.now n round }
    ensures work { Begins image.now (begun unit.now n round (on_ports ports words.now)) effects.old effects.new result }
    ensures few { effects.new.outside ≤ effects.old.outside + 1 }
{
    let head = unit.head();
    let Some(op) = head.op else { return 0 };
    if round < head.stage || round >= head.stage + n {
        return 0;
    }
    let turn = round - head.stage;
    let count = op.arity();
    let a = operand(unit, count, 0, turn, ports, words);
    let b = operand(unit, count, 1, turn, ports, words);
    let c = operand(unit, count, 2, turn, ports, words);
    let work = Work {
        op,
        port: head.port,
        turn,
        args: [a, b, c],
    };
    begin_work(work, image, effects)
}

/// Begins the `units` of the cycle at `moment` in order, on `words`. Their results are written to the cycle's row of
/// `history`, and their stores are pending in `effects`.
pub(crate) fn begin_units<C: Contexts>(
    units: &[Terminals],
    contexts: &C,
    image: &Image,
    n: u32,
    moment: Moment,
    words: &[u32],
    history: &mut [u32],
    effects: &mut Effects,
)
    requires turns { n ≤ most_turns }
    requires known { (x : ℕ) → x < length units.now → HasUnit (C.config contexts.now) x moment.slot }
    requires stages { (x : ℕ) → x < length units.now → (configs.fields (C.config contexts.now) x moment.slot).stage ≤ latest_time }
    requires ports { (x p : ℕ) → x < length units.now → p < 3 → slice_index (terminals units.now x).ports p < length words.now }
    requires few { length units.now ≤ most_units }
    requires row { moment.row < 4 }
    requires history { length history.old ≡ 4 * length units.now }
    requires pending { vec_len effects.old.pending + length units.now ≤ vec_capacity effects.old.pending }
    requires outside { effects.old.outside < 2 ^ 62 }
    requires room { AreRoomy (C.config contexts.now) units.now n moment.slot moment.round words.now effects.old.streams.items }
    ensures effects { BeginsAll image.now (works_on (C.config contexts.now) units.now n moment.slot moment.round words.now) (length units.now) effects.old effects.new }
    ensures history { HasRow image.now effects.old.memory (works_on (C.config contexts.now) units.now n moment.slot moment.round words.now) moment.row (length units.now) history.old history.new }
    ensures few { effects.new.outside ≤ effects.old.outside + length units.now }
{
    for x in 0..units.len() {
        let unit = UnitInSlot::new(contexts, x as u32, moment.slot);
        let ports = units[x].ports;
        let result = begin(image, &unit, n, moment.round, ports, words, effects);
        history[4 * x + moment.row] = result;
    }
}
