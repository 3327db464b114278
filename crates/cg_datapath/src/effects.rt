//! The effects of the units of a cycle: words in streams, and stores that are pending until the cycle's end.
ghost use Rattle.std.specs.Prelude.{◌≡◌, ◌<◌, ◌≤◌, ◌+◌, ◌++◌, ◌^◌, ℕ, List, Some, true, length, vec_len, vec_capacity};
ghost use Rattle.cg_word.specs.Word.{is_output};
ghost use Rattle.cg_model.specs.Work.{stored, sent};
ghost use Rattle.cg_pad.specs.Work.{work_of};
ghost use Rattle.cg_datapath.specs.Reserved.{stream};
ghost use Rattle.cg_datapath.specs.Effects.{applied, Begins};

use cg_model::Words;
use cg_pad::{Image, Scratchpad, Work};
use std::marker::Model;

/// A stream with room reserved. Contracts see its words and its room.
#[derive(Drop)]
pub struct Stream {
    pub(crate) words: Vec<u32>,
}

impl Model for Stream {
    ghost use Rattle.std.specs.Prelude.{vec_capacity};
    ghost use Rattle.cg_datapath.specs.Reserved.{Reserved};

    ghost Value = { Reserved };

    ghost view = { λ s. record { words = s.words.items; room = vec_capacity s.words } };
}

impl Stream {
    ghost use Rattle.std.specs.Prelude.{◌≡◌, ◌<◌, ◌≤◌, ◌∷◌, ◌++◌, [], length};

    /// Appends `word`, for which there is room.
    fn push(&mut self, word: u32)
        requires { length self.old.words < self.old.room }
        ensures words { self.new.words ≡ self.old.words ++ word ∷ [] }
        ensures room { self.old.room ≤ self.new.room }
    {
        let _done = self.words.push(word);
    }

    /// Returns the words, and consumes the stream.
    pub(crate) fn into_words(self) -> Words
        ensures { result ≡ self.words }
    {
        let Stream { words } = self;
        Words::new(words)
    }
}

/// A store that is to take effect at the end of the cycle.
#[derive(Clone, Copy)]
pub struct Store {
    pub address: u32,
    pub value: u32,
}

/// The effects of a run so far, and the pending stores of the current cycle.
#[derive(Drop)]
pub struct Effects {
    /// The memory at the start of the current cycle.
    pub memory: Scratchpad,
    /// The stores of the current cycle, in the order of the units.
    pub pending: Vec<Store>,
    /// The words sent so far to each of the sixteen ports.
    pub streams: Vec<Stream>,
    /// The number of accesses outside the memory so far.
    pub outside: u64,
}

impl Effects {
    ghost use Rattle.std.specs.Prelude.{◌≡◌, ◌≤◌, [], vec_capacity};
    ghost use Rattle.cg_datapath.specs.Effects.{applied};

    /// Ends the cycle: applies the pending stores to the memory, in order.
    pub fn store_pending(&mut self)
        ensures memory { self.new.memory ≡ applied self.old.memory self.old.pending.items }
        ensures pending { self.new.pending.items ≡ [] }
        ensures room { vec_capacity self.old.pending ≤ vec_capacity self.new.pending }
        ensures streams { self.new.streams ≡ self.old.streams }
        ensures outside { self.new.outside ≡ self.old.outside }
    {
        store_all(&mut self.memory, &self.pending);
        self.pending.clear();
    }
}

/// Begins `work` in a run from `image`, and returns its result. In `effects` its access outside the memory is counted, the
/// word that it sends is in its stream, and its store is pending until the end of the cycle.
pub fn begin_work(work: Work, image: &Image, effects: &mut Effects) -> u32
    requires port { is_output work.op ≡ true → (work.port < length effects.old.streams.items) × (length (stream effects.old.streams.items work.port).words < (stream effects.old.streams.items work.port).room) }
    requires pending { vec_len effects.old.pending < vec_capacity effects.old.pending }
    requires outside { effects.old.outside < 2 ^ 63 }
    ensures work { Begins image.now (Some (work_of work)) effects.old effects.new result }
    ensures few { effects.new.outside ≤ effects.old.outside + 1 }
{
    let value = work.value(image, &effects.memory);
    effects.outside += work.missed(effects.memory.size());
    send(work, &mut effects.streams);
    hold(work, &mut effects.pending);
    value
}

/// Appends the word that the operation of `work` sends, if any, to its stream of `streams`.
#[tactic(auto, unfolding(cg_model::specs::Work::sent))]
fn send(work: Work, streams: &mut [Stream])
    requires { is_output work.op ≡ true → (work.port < length streams.old) × (length (stream streams.old work.port).words < (stream streams.old work.port).room) }
    ensures words { (port : ℕ) → (stream streams.new port).words ≡ (stream streams.old port).words ++ sent port (work_of work) }
    ensures room { (port : ℕ) → (stream streams.old port).room ≤ (stream streams.new port).room }
{
    if work.op.is_output() && work.acts() {
        let stream = &mut streams[work.port as usize];
        stream.push(work.last_operand());
    }
}

/// Adds the store of `work` to those in `pending`, if it is a store that takes effect.
#[tactic(auto, unfolding(cg_model::specs::Work::stored))]
fn hold(work: Work, pending: &mut Vec<Store>)
    requires { vec_len pending.old < vec_capacity pending.old }
    ensures stores { (memory : List ℕ) → applied memory pending.new.items ≡ stored (applied memory pending.old.items) (work_of work) }
    ensures few { vec_len pending.new ≤ vec_len pending.old + 1 }
    ensures room { vec_capacity pending.old ≤ vec_capacity pending.new }
{
    if work.op.is_store() && work.acts() {
        let _done = pending.push(Store {
            address: work.address(),
            value: work.last_operand(),
        });
    }
}

/// Applies the pending stores `pending` of a cycle to `memory`, in order.
fn store_all(memory: &mut Scratchpad, pending: &[Store])
    ensures { memory.new ≡ applied memory.old pending.now }
{
    for store in pending {
        memory.store(store.address, store.value);
    }
}
