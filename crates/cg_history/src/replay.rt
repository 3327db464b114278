//! The cycles of a run by tasks.
ghost use Rattle.std.specs.Prelude.{◌≡◌, ◌<◌, ◌≤◌, ◌+◌, ◌-◌, ◌*◌, ◌^◌, ◌↔◌, ℕ, [], Some, IfOk, length, slice_index, vec_len, vec_capacity};
ghost use Rattle.std.specs.Option.{unwrap_or};
ghost use Rattle.cg_word.specs.Word.{arity};
ghost use Rattle.cg_model.specs.Array.{Arch, IsArch};
ghost use Rattle.cg_model.specs.Canonical.{IsCanonical, arity_of};
ghost use Rattle.cg_model.specs.Config as configs;
ghost use Rattle.cg_model.specs.Limits.{latest_time, most_turns};
ghost use Rattle.cg_model.specs.Machine.{begins, cycles, machine_left};
ghost use Rattle.cg_config.specs.Known.{HasUnit};
ghost use Rattle.cg_config.specs.Told.{told};
ghost use Rattle.cg_pad.specs.Bytes.{IsStorable};
ghost use Rattle.cg_datapath.specs.Reserved as reserved;
ghost use Rattle.cg_datapath.specs.Effects.{Begins, BeginsAll, HasRoom};
ghost use Rattle.cg_datapath.specs.State.{AreEffects};
ghost use Rattle.cg_origins.specs.Source.{delay_of};
ghost use Rattle.cg_origins.specs.Tasks.{AreAllTasks, AreTasks, IsTask, source_at};
ghost use Rattle.cg_history.specs.Plain.{is_plain};
ghost use Rattle.cg_history.specs.Results.{IsKnown, KeepsRows, word_of};
ghost use Rattle.cg_history.specs.State.{HasNow, HasResults, IsAt, cycle_in};

use crate::history::History;
use cg_arch::Arch;
use cg_config::{Contexts, Op};
use cg_datapath::{Effects, RunEnd, all_words, begin_work, length_in_cycles, no_effects};
use cg_model::Words;
use cg_origins::{Source, Task, Tasks};
use cg_pad::{Image, PORTS, Streams, Work};
use cg_word::apply;
use std::alloc::{AllocError, Global};

/// What a run is of.
#[derive(Drop)]
pub(crate) struct Run<'a, C: Contexts> {
    /// The array.
    pub(crate) arch: &'a Arch,
    /// Its configuration.
    pub(crate) contexts: &'a C,
    /// The number of iterations.
    pub(crate) n: u32,
    /// The image from which it starts.
    pub(crate) image: &'a Image,
}

/// Returns the turn in which a unit with that `stage` works in `round` of a run of `n` iterations, if in any.
fn turn_in(round: u32, stage: u32, n: u32) -> Option<u32>
    requires round { round < 2 ^ 27 }
    requires stage { stage ≤ latest_time }
    requires turns { n ≤ most_turns }
    ensures { (turn : ℕ) → (result ≡ Some turn) ↔ ((stage ≤ round) × (turn ≡ round - stage) × (turn < n)) }
{
    let turn = round.wrapping_sub(stage);
    if turn < n { Some(turn) } else { None }
}

/// Returns the word of `source` among the results in `history`.
fn source_word(source: Source, history: &History) -> u32
    requires known { IsKnown history.now source }
    ensures { result ≡ word_of history.now source }
{
    match source {
        Source::Word(word) => word,
        Source::Result(unit, delay) => history.ago(unit, delay),
    }
}

/// Returns the words of the sources of `task` among the results in `history`.
fn source_words(task: &Task, history: &History) -> [u32; 3]
    requires known { (p : ℕ) → IsKnown history.now (source_at task.now p) }
    ensures { (p : ℕ) → p < 3 → slice_index result p ≡ word_of history.now (source_at task.now p) }
{
    let [first, second, third] = task.sources;
    [
        source_word(first, history),
        source_word(second, history),
        source_word(third, history),
    ]
}

/// Returns the initial word or immediate that argument number `place` of `task` has in its `slot` in iteration `turn`,
/// and `word` where it has none.
fn initial_or<C: Contexts>(
    contexts: &C,
    task: &Task,
    slot: u32,
    place: usize,
    turn: u32,
    word: u32,
) -> u32
    requires known { HasUnit (C.config contexts.now) task.now.unit slot }
    requires op { (configs.fields (C.config contexts.now) task.now.unit slot).op ≡ Some task.now.op }
    ensures told { place < arity task.now.op → result ≡ unwrap_or (told (configs.fields (C.config contexts.now) task.now.unit slot) place turn) word }
    ensures rest { arity task.now.op ≤ place → result ≡ word }
{
    if place >= task.op.arity() as usize {
        return word;
    }
    match contexts.told(task.unit, slot, place, turn) {
        Some(word) => word,
        None => word,
    }
}

/// Returns the operands of `task` in its `slot` in iteration `turn`: its initial words and immediates, and where it has
/// none, `words`.
fn initial_words<C: Contexts>(
    contexts: &C,
    task: &Task,
    slot: u32,
    turn: u32,
    words: [u32; 3],
) -> [u32; 3]
    requires known { HasUnit (C.config contexts.now) task.now.unit slot }
    requires op { (configs.fields (C.config contexts.now) task.now.unit slot).op ≡ Some task.now.op }
    ensures told { (p : ℕ) → p < 3 → p < arity task.now.op → slice_index result p ≡ unwrap_or (told (configs.fields (C.config contexts.now) task.now.unit slot) p turn) (slice_index words p) }
    ensures rest { (p : ℕ) → p < 3 → arity task.now.op ≤ p → slice_index result p ≡ slice_index words p }
{
    [
        initial_or(contexts, task, slot, 0, turn, words[0]),
        initial_or(contexts, task, slot, 1, turn, words[1]),
        initial_or(contexts, task, slot, 2, turn, words[2]),
    ]
}

/// Returns whether `op` gives its value by its operands alone, and has no effect.
fn is_plain(op: Op) -> bool
    ensures { result ≡ is_plain op }
{
    !matches!(
        op,
        Op::Iter
            | Op::Input
            | Op::Load
            | Op::Store
            | Op::Output
            | Op::LoadIf
            | Op::StoreIf
            | Op::OutputIf
    )
}

/// Begins `task` in its `slot` in `round` of `run`, with the results of earlier cycles in `history`. Returns the result;
/// a store is pending in `effects` until the end of the cycle.
fn begin_task<C: Contexts>(
    run: &Run<'_, C>,
    task: &Task,
    slot: u32,
    round: u32,
    history: &History,
    effects: &mut Effects,
) -> u32
    requires canonical { IsCanonical run.now.arch.now (C.config run.now.contexts.now) }
    requires turns { run.now.n ≤ most_turns }
    requires slot { slot < (C.config run.now.contexts.now).ii }
    requires round { round < 2 ^ 27 }
    requires task { IsTask run.now.arch.now (C.config run.now.contexts.now) slot history.now.rows task.now }
    requires units { history.now.units ≡ length run.now.arch.now.units }
    requires results { HasResults run.now.arch.now (C.config run.now.contexts.now) run.now.n run.now.image.now (cycle_in (C.config run.now.contexts.now) slot round) history.now }
    requires pending { vec_len effects.old.pending < vec_capacity effects.old.pending }
    requires outside { effects.old.outside < 2 ^ 63 }
    requires room { HasRoom effects.old.streams.items (configs.fields (C.config run.now.contexts.now) task.now.unit slot) run.now.n round }
    ensures work { Begins run.now.image.now (begins run.now.arch.now (C.config run.now.contexts.now) run.now.n run.now.image.now task.now.unit (cycle_in (C.config run.now.contexts.now) slot round)) effects.old effects.new result }
    ensures few { effects.new.outside ≤ effects.old.outside + 1 }
{
    let Some(turn) = turn_in(round, task.stage, run.n) else {
        return 0;
    };
    let words = source_words(task, history);
    let args = if turn < task.warm {
        initial_words(run.contexts, task, slot, turn, words)
    } else {
        words
    };
    if is_plain(task.op) {
        return apply(task.op, args[0], args[1], args[2]);
    }
    let work = Work {
        op: task.op,
        port: task.port,
        turn,
        args,
    };
    begin_work(work, run.image, effects)
}

/// Begins the `tasks` of the units that are on in `slot` in `round` of `run`, in order. Their results are written to the
/// current row of `history`, and their stores are pending in `effects`.
fn begin_tasks<C: Contexts>(
    run: &Run<'_, C>,
    tasks: &[Task],
    slot: u32,
    round: u32,
    history: &mut History,
    effects: &mut Effects,
)
    requires canonical { IsCanonical run.now.arch.now (C.config run.now.contexts.now) }
    requires valid { IsArch run.now.arch.now }
    requires turns { run.now.n ≤ most_turns }
    requires slot { slot < (C.config run.now.contexts.now).ii }
    requires round { round < 2 ^ 27 }
    requires tasks { AreTasks run.now.arch.now (C.config run.now.contexts.now) slot history.old.rows tasks.now }
    requires state { IsAt run.now.arch.now (C.config run.now.contexts.now) run.now.n run.now.image.now (cycle_in (C.config run.now.contexts.now) slot round) history.old effects.old }
    ensures effects { BeginsAll run.now.image.now (λ x. begins run.now.arch.now (C.config run.now.contexts.now) run.now.n run.now.image.now x (cycle_in (C.config run.now.contexts.now) slot round)) (length run.now.arch.now.units) effects.old effects.new }
    ensures few { effects.new.outside ≤ effects.old.outside + length run.now.arch.now.units }
    ensures kept { KeepsRows history.old history.new }
    ensures now { HasNow run.now.arch.now (C.config run.now.contexts.now) run.now.n run.now.image.now (cycle_in (C.config run.now.contexts.now) slot round) history.new }
{
    for j in 0..tasks.len() {
        let task = &tasks[j];
        let result = begin_task(run, task, slot, round, history, effects);
        history.set(task.unit, result);
    }
}

/// Runs the cycle of `slot` in `round` of `run`, in which the units begin `tasks`.
fn run_cycle<C: Contexts>(
    run: &Run<'_, C>,
    tasks: &[Task],
    slot: u32,
    round: u32,
    history: &mut History,
    effects: &mut Effects,
)
    requires canonical { IsCanonical run.now.arch.now (C.config run.now.contexts.now) }
    requires valid { IsArch run.now.arch.now }
    requires turns { run.now.n ≤ most_turns }
    requires slot { slot < (C.config run.now.contexts.now).ii }
    requires round { round < 2 ^ 27 }
    requires tasks { AreTasks run.now.arch.now (C.config run.now.contexts.now) slot history.old.rows tasks.now }
    requires state { IsAt run.now.arch.now (C.config run.now.contexts.now) run.now.n run.now.image.now (cycle_in (C.config run.now.contexts.now) slot round) history.old effects.old }
    ensures rows { history.new.rows ≡ history.old.rows }
    ensures state { IsAt run.now.arch.now (C.config run.now.contexts.now) run.now.n run.now.image.now (cycle_in (C.config run.now.contexts.now) slot round + 1) history.new effects.new }
{
    begin_tasks(run, tasks, slot, round, history, effects);
    effects.store_pending();
    history.advance();
}

/// Runs all cycles of `run`, in which the units begin `tasks`, and returns what they leave.
pub(crate) fn replay<C: Contexts>(
    alloc: Global,
    run: &Run<'_, C>,
    tasks: &Tasks,
) -> Result<RunEnd, AllocError>
    requires canonical { IsCanonical run.now.arch.now (C.config run.now.contexts.now) }
    requires turns { run.now.n ≤ most_turns }
    requires fits { length run.now.image.now.memory ≤ run.now.arch.now.memory }
    requires tasks { AreAllTasks run.now.arch.now (C.config run.now.contexts.now) tasks.now }
    ensures cycles { IfOk result (λ end. end.cycles ≡ cycles (C.config run.now.contexts.now) run.now.n) }
    ensures left { IfOk result (λ end. record { image = end.image; outside = end.outside } ≡ machine_left run.now.arch.now (C.config run.now.contexts.now) run.now.n run.now.image.now) }
    ensures storable { IfOk result (λ end. IsStorable end.image) }
{
    let units = run.arch.units().len();
    let ii = run.contexts.ii();
    let stages = run.contexts.stages();
    let mut history = History::new(alloc, units, tasks.rows as usize)?;
    let mut effects = no_effects(alloc, run.arch, run.contexts, run.n, run.image)?;
    let finished = Vec::with_capacity(alloc, PORTS)?;
    for round in 0..rounds(run.n, stages) {
        for slot in 0..ii {
            let row = tasks.slots[slot as usize].as_slice();
            run_cycle(run, row, slot, round, &mut history, &mut effects);
        }
    }
    Ok(ended(effects, finished, length_in_cycles(run.n, stages, ii)))
}

/// Returns the number of rounds of a run of `n` iterations of `stages` stages.
fn rounds(n: u32, stages: u32) -> u32
    requires turns { n ≤ most_turns }
    requires stages { (0 < stages) × (stages ≤ 65535) }
    ensures value { (C : configs.Config) → C.stages ≡ stages → result * C.ii ≡ cycles C n }
    ensures few { result < 2 ^ 27 }
{
    if n == 0 { 0 } else { n + stages - 1 }
}

/// Returns what a run of that many `cycles` has left: the memory and streams of `effects`, moved into `finished`, which
/// has room for them.
fn ended(effects: Effects, finished: Vec<Words>, cycles: u64) -> RunEnd
    requires sixteen { length effects.streams.items ≡ 16 }
    requires empty { finished.items ≡ [] }
    requires enough { length effects.streams.items ≤ vec_capacity finished }
    ensures cycles { result.cycles ≡ cycles }
    ensures outside { result.outside ≡ effects.outside }
    ensures memory { result.image.memory ≡ effects.memory }
    ensures streams { result.image.streams ≡ reserved.all_words effects.streams.items }
{
    let Effects {
        memory,
        streams,
        outside,
        ..
    } = effects;
    RunEnd {
        cycles,
        image: Image {
            memory: memory.into_words(),
            streams: Streams::new(all_words(streams, finished)),
        },
        outside,
    }
}
