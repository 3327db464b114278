//! The scratchpad of a run.
ghost use Rattle.std.specs.Borrow.{Lends, sem, Array, u32 as word};
ghost use Rattle.cg_pad.specs.Lent.{overlaid};
ghost use Rattle.cg_pad.specs.contracts.scratchpad.Scratchpad.{the_row};

use cg_model::Words;
use std::alloc::{AllocError, Global};
use std::marker::Model;

/// The words of the scratchpad, by address.
#[derive(Drop)]
pub struct Scratchpad {
    words: Vec<u32>,
}

impl Model for Scratchpad {
    ghost use Rattle.std.specs.Prelude.{List, ℕ};

    ghost Value = { List ℕ };

    ghost view = { λ s. s.words.items };
}

impl Scratchpad {
    ghost use Rattle.std.specs.Prelude.{◌≡◌, ◌<◌, ◌↔◌, IfOk, IsTrue, length, slice_index, slice_set};

    /// Returns a scratchpad that holds a copy of `words`.
    pub fn new(alloc: Global, words: &[u32]) -> Result<Scratchpad, AllocError>
        ensures { IfOk result (λ s. s ≡ words.now) }
    {
        Ok(Scratchpad {
            words: Vec::from_slice(alloc, words)?,
        })
    }

    /// Returns the number of words.
    pub fn size(&self) -> usize
        ensures { result ≡ length self.now }
    {
        self.words.len()
    }

    /// Returns whether `address` is that of a word.
    pub fn inside(&self, address: u32) -> bool
        ensures { IsTrue result ↔ (address < length self.now) }
    {
        (address as usize) < self.words.len()
    }

    /// Returns the word at `address`, 0 outside the memory.
    pub fn load(&self, address: u32) -> u32
        ensures { result ≡ slice_index self.now address }
    {
        match self.words.get(address as usize) {
            Some(word) => *word,
            None => 0,
        }
    }

    /// Sets the word at `address` to `value`; outside the memory nothing changes.
    pub fn store(&mut self, address: u32, value: u32)
        ensures { self.new ≡ slice_set self.old address value }
    {
        if self.inside(address) {
            self.words[address as usize] = value;
        }
    }

    /// Lends all words, by address.
    pub fn words(&self) -> &[u32]
        ensures { result.now ≡ self.now }
    {
        self.words.as_slice()
    }

    /// Lends all words, by address, for changes in place: the scratchpad keeps what is written through the loan.
    pub fn words_mut(&mut self) -> &mut [u32]
        ensures* written { sem 𝓛 (Lends the_row (Array word 0) self.entry result (overlaid self.entry.now)) }
        ensures value { result.now ≡ self.old }
    {
        self.words.as_mut_slice()
    }

    /// Returns the words, consuming the scratchpad.
    pub fn into_words(self) -> Words
        ensures { result ≡ self }
    {
        Words::new(self.words)
    }
}
