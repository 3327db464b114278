//! An operation at work.
ghost use Rattle.std.specs.Prelude.{◌≡◌, [], slice_index, slice_index_or};

use crate::image::Image;
use crate::scratchpad::Scratchpad;
use cg_model::Words;
use cg_word::{Op, apply};
use std::alloc::AllocError;
use std::marker::Model;

/// An operation at work, in a turn and on its operands. Operands past the arity are ignored.
#[derive(Clone, Copy)]
pub struct Work {
    pub op: Op,
    pub port: u32,
    pub turn: u32,
    pub args: [u32; 3],
}

impl Work {
    ghost use Rattle.std.specs.Prelude.{◌≡◌, ◌<◌, ◌≤◌, ◌++◌, ℕ, [], OnOk, OnErr, length, slice_index, slice_index_or};
    ghost use Rattle.cg_model.specs.Work.{acts, address, last_operand, value, stored, sent, missed};
    ghost use Rattle.cg_pad.specs.Work.{work_of};

    /// Returns whether it acts: it isn't guarded, or its guard isn't 0.
    pub fn acts(self) -> bool
        ensures { result ≡ acts self.op self.args }
    {
        !self.op.is_guarded() || self.args[0] != 0
    }

    /// Returns the address in the scratchpad that an access uses.
    pub fn address(self) -> u32
        ensures { result ≡ address self.op self.args }
    {
        self.args[self.op.address_arg()]
    }

    /// Returns the word that is stored or sent.
    pub fn last_operand(self) -> u32
        ensures { result ≡ last_operand self.op self.args }
    {
        self.args[self.op.last_arg()]
    }

    /// Returns its value, given the streams of an image and the memory at that moment.
    #[tactic(auto, unfolding(cg_model::specs::Work::value_by))]
    pub fn value(self, image: &Image, memory: &Scratchpad) -> u32
        ensures { result ≡ value image.now memory.now (work_of self) }
    {
        match self.op {
            Op::Iter => self.turn,
            Op::Input => word_at(stream_of(image.streams(), self.port), self.turn),
            Op::Load | Op::LoadIf => if self.acts() {
                memory.load(self.address())
            } else {
                0
            },
            _ => apply(self.op, self.args[0], self.args[1], self.args[2]),
        }
    }

    /// Performs its store, if it is a store that acts.
    #[tactic(auto, unfolding(cg_model::specs::Work::stored))]
    pub fn store(self, memory: &mut Scratchpad)
        ensures { memory.new ≡ stored memory.old (work_of self) }
    {
        if self.op.is_store() && self.acts() {
            memory.store(self.address(), self.last_operand());
        }
    }

    /// Appends the word that it sends to the stream of its port, if it is an output that acts.
    #[tactic(auto, unfolding(cg_model::specs::Work::sent))]
    pub fn send(self, streams: &mut [Words]) -> Result<(), AllocError>
        requires { self.port < length streams.old }
        ensures ok { OnOk result ((port : ℕ) → slice_index_or streams.new port []
            ≡ slice_index_or streams.old port [] ++ sent port (work_of self)) }
        ensures err { OnErr result (streams.new ≡ streams.old) }
    {
        if self.op.is_output() && self.acts() {
            streams[self.port as usize].push(self.last_operand())?;
        }
        Ok(())
    }

    /// Returns the number of its accesses outside a memory of `size` words: 1 for an access that acts outside it, and
    /// otherwise 0.
    #[tactic(auto, unfolding(cg_model::specs::Work::missed))]
    pub fn missed(self, size: usize) -> u64
        ensures count { result ≡ missed size (work_of self) }
        ensures few { result ≤ 1 }
    {
        u64::from(self.op.is_access() && self.acts() && size <= self.address() as usize)
    }
}

/// Returns the word of `words` at `place`, 0 past the end.
pub(crate) fn word_at(words: &[u32], place: u32) -> u32
    ensures { result ≡ slice_index words.now place }
{
    match words.get(place as usize) {
        Some(word) => *word,
        None => 0,
    }
}

/// Returns the words of the stream of `port`, none past the last port.
fn stream_of(streams: &[Words], port: u32) -> &[u32]
    ensures { result.now ≡ slice_index_or streams.now port [] }
{
    match streams.get(port as usize) {
        Some(stream) => stream.as_slice(),
        None => &[],
    }
}
