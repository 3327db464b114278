//! Which edge carries a word from turn to turn.

use crate::edges::{Edge, Edges};
use crate::emission::Emission;
use crate::marked::Live;
use crate::marks::final_of;
use crate::sketch::Ref;
use cg_c_values::Value;
use std::alloc::{AllocError, Global};

/// The initial words of words, by their numbers, and their edges so far.
#[derive(Drop)]
pub struct Carrying<'a> {
    alloc: Global,
    initial: &'a [u32],
    pub edges: Edges,
}

impl<'a> Carrying<'a> {
    ghost use Rattle.std.specs.Prelude.{◌≡◌, ℕ, ◌<◌, true, length, slice_index, IfOk, IfSome};
    ghost use Rattle.cg_c_values.specs.Listed.{listed};
    ghost use Rattle.cg_c_kernel.specs.Edges.{AreEdges, IsEdge, IsEdgeAfter, IsEdgeTo, IsSettled, KeepsEdges, has_edge};
    ghost use Rattle.cg_c_kernel.specs.Live.{final_in};
    ghost use Rattle.cg_c_kernel.specs.Made.{AddsQuiet, HasLoads, IsLiveWord, MayBeMade, Stands, made_of};

    /// Returns no edges, for words with these initial words.
    pub fn new(alloc: Global, initial: &'a [u32]) -> Carrying<'a> {
        Carrying {
            alloc,
            initial,
            edges: Edges::new(alloc),
        }
    }

    /// Returns the word that the word of a number has when the first turn begins.
    fn initial_of(&self, number: usize) -> u32
        ensures { result ≡ slice_index self.now.initial.now number }
    {
        if number < self.initial.len() {
            self.initial[number]
        } else {
            0
        }
    }

    /// Returns the edge of a word with the initial word `word` that becomes word `next`: a turn more than that one's, or
    /// one from a copy of it.
    fn follow(
        &self,
        emission: &mut Emission,
        live: &Live,
        next: usize,
        word: u32,
    ) -> Result<Edge, AllocError>
        requires stands { Stands (listed live.now.values.now) live.now.marks.items (made_of emission.now) }
        requires live { IsLiveWord (listed live.now.values.now) live.now.marks.items next }
        ensures adds { IfOk result (λ e. AddsQuiet (listed live.now.values.now) live.now.marks.items (made_of emission.old) (made_of emission.new)) }
        ensures edge { IfOk result (λ e. IsEdgeAfter (made_of emission.new) self.now.edges.edges.items next word e) }
    {
        if let Some(edge) = self.edges.over_more(next, word)? {
            return Ok(edge);
        }
        let from = emission.copy(live, next)?;
        self.edges.over_one(from, word)
    }

    /// Returns the edge of a word with the initial word `word` that becomes the live value `v`.
    fn edge_to(
        &self,
        emission: &mut Emission,
        live: &Live,
        v: usize,
        word: u32,
    ) -> Result<Edge, AllocError>
        requires stands { Stands (listed live.now.values.now) live.now.marks.items (made_of emission.now) }
        requires may { MayBeMade (listed live.now.values.now) live.now.marks.items (made_of emission.now) v }
        ensures adds { IfOk result (λ e. AddsQuiet (listed live.now.values.now) live.now.marks.items (made_of emission.old) (made_of emission.new)) }
        ensures edge { IfOk result (λ e. IsEdgeTo (listed live.now.values.now) (made_of emission.new) self.now.edges.edges.items v word e) }
    {
        match live.values.value(v) {
            Value::Carried(next) => self.follow(emission, live, next, word),
            Value::Const(last) => {
                let from = emission.constant(Ref::Word(last))?;
                self.edges.over_one(from, word)
            }
            _ => {
                emission.emit(live, v)?;
                let from = emission.node_of(v);
                self.edges.over_one(from, word)
            }
        }
    }

    /// Returns the edge of a live word.
    fn edge_of(
        &self,
        emission: &mut Emission,
        live: &Live,
        number: usize,
    ) -> Result<Edge, AllocError>
        requires stands { Stands (listed live.now.values.now) live.now.marks.items (made_of emission.now) }
        requires live { IsLiveWord (listed live.now.values.now) live.now.marks.items number }
        requires loads { HasLoads (listed live.now.values.now) live.now.marks.items (made_of emission.now) (length (listed live.now.values.now)) }
        ensures adds { IfOk result (λ e. AddsQuiet (listed live.now.values.now) live.now.marks.items (made_of emission.old) (made_of emission.new)) }
        ensures edge { IfOk result (λ e. IsEdge (listed live.now.values.now) (made_of emission.new) self.now.edges.edges.items number (final_in live.now.finals.now number) (slice_index self.now.initial.now number) e) }
    {
        let word = self.initial_of(number);
        match final_of(live.finals, number) {
            None => self.follow(emission, live, number, word),
            Some(v) => self.edge_to(emission, live, v, word),
        }
    }

    /// Gives a live word its edge, unless it has one.
    fn settle(
        &mut self,
        emission: &mut Emission,
        live: &Live,
        number: usize,
    ) -> Result<(), AllocError>
        requires stands { Stands (listed live.now.values.now) live.now.marks.items (made_of emission.now) }
        requires live { IsLiveWord (listed live.now.values.now) live.now.marks.items number }
        requires loads { HasLoads (listed live.now.values.now) live.now.marks.items (made_of emission.now) (length (listed live.now.values.now)) }
        requires edges { AreEdges (listed live.now.values.now) live.now.finals.now self.now.initial.now (made_of emission.now) self.now.edges.edges.items }
        ensures adds { IfOk result (λ u. AddsQuiet (listed live.now.values.now) live.now.marks.items (made_of emission.old) (made_of emission.new)) }
        ensures edges { IfOk result (λ u. AreEdges (listed live.now.values.now) live.now.finals.now self.new.initial.now (made_of emission.new) self.new.edges.edges.items) }
        ensures kept { IfOk result (λ u. KeepsEdges self.old.edges.edges.items self.new.edges.edges.items) }
        ensures there { IfOk result (λ u. has_edge self.new.edges.edges.items number ≡ true) }
        ensures same { self.new.initial.now ≡ self.old.initial.now }
    {
        if self.edges.has(number) {
            return Ok(());
        }
        let edge = self.edge_of(emission, live, number)?;
        self.edges.set(number, edge)
    }

    /// Returns the word that a live word becomes, if that one has no edge yet.
    fn next_of(&self, live: &Live, number: usize) -> Option<usize>
        requires { IsLiveWord (listed live.now.values.now) live.now.marks.items number }
        ensures { IfSome result (λ next. IsLiveWord (listed live.now.values.now) live.now.marks.items next) }
    {
        let v = final_of(live.finals, number)?;
        match live.values.value(v) {
            Value::Carried(next) if !self.edges.has(next) => Some(next),
            _ => None,
        }
    }

    /// Returns a live word and those that it becomes, one after another, up to one that has an edge or comes again.
    fn way_from(&self, live: &Live, number: usize) -> Result<Vec<usize>, AllocError>
        requires { IsLiveWord (listed live.now.values.now) live.now.marks.items number }
        ensures { IfOk result (λ way. (i : ℕ) → i < length way.items → IsLiveWord (listed live.now.values.now) live.now.marks.items (slice_index way.items i)) }
    {
        let mut way = vec![in self.alloc; number]?;
        let mut last = number;
        for _ in 0..live.finals.len() {
            match self.next_of(live, last) {
                Some(next) if !way.contains(&next) => {
                    way.push(next)?;
                    last = next;
                }
                _ => break,
            }
        }
        Ok(way)
    }

    /// Gives a live word its edge, after the words that it becomes.
    fn resolve(
        &mut self,
        emission: &mut Emission,
        live: &Live,
        number: usize,
    ) -> Result<(), AllocError>
        requires stands { Stands (listed live.now.values.now) live.now.marks.items (made_of emission.now) }
        requires live { IsLiveWord (listed live.now.values.now) live.now.marks.items number }
        requires loads { HasLoads (listed live.now.values.now) live.now.marks.items (made_of emission.now) (length (listed live.now.values.now)) }
        requires edges { AreEdges (listed live.now.values.now) live.now.finals.now self.now.initial.now (made_of emission.now) self.now.edges.edges.items }
        ensures adds { IfOk result (λ u. AddsQuiet (listed live.now.values.now) live.now.marks.items (made_of emission.old) (made_of emission.new)) }
        ensures edges { IfOk result (λ u. AreEdges (listed live.now.values.now) live.now.finals.now self.new.initial.now (made_of emission.new) self.new.edges.edges.items) }
        ensures same { self.new.initial.now ≡ self.old.initial.now }
    {
        let way = self.way_from(live, number)?;
        for i in 0..way.len() {
            self.settle(emission, live, way[way.len() - 1 - i])?;
        }
        Ok(())
    }

    /// Gives the word that was met as number `i` its edge, if so many were.
    fn resolve_at(
        &mut self,
        emission: &mut Emission,
        live: &Live,
        i: usize,
    ) -> Result<(), AllocError>
        requires stands { Stands (listed live.now.values.now) live.now.marks.items (made_of emission.now) }
        requires loads { HasLoads (listed live.now.values.now) live.now.marks.items (made_of emission.now) (length (listed live.now.values.now)) }
        requires edges { AreEdges (listed live.now.values.now) live.now.finals.now self.now.initial.now (made_of emission.now) self.now.edges.edges.items }
        ensures adds { IfOk result (λ u. AddsQuiet (listed live.now.values.now) live.now.marks.items (made_of emission.old) (made_of emission.new)) }
        ensures edges { IfOk result (λ u. AreEdges (listed live.now.values.now) live.now.finals.now self.new.initial.now (made_of emission.new) self.new.edges.edges.items) }
        ensures same { self.new.initial.now ≡ self.old.initial.now }
    {
        match emission.met_at(i) {
            Some(number) => self.resolve(emission, live, number),
            None => Ok(()),
        }
    }

    /// Gives the words that were met their edges, in their order.
    pub fn resolve_met(&mut self, emission: &mut Emission, live: &Live) -> Result<(), AllocError>
        requires stands { Stands (listed live.now.values.now) live.now.marks.items (made_of emission.now) }
        requires loads { HasLoads (listed live.now.values.now) live.now.marks.items (made_of emission.now) (length (listed live.now.values.now)) }
        requires edges { AreEdges (listed live.now.values.now) live.now.finals.now self.now.initial.now (made_of emission.now) self.now.edges.edges.items }
        ensures adds { IfOk result (λ u. AddsQuiet (listed live.now.values.now) live.now.marks.items (made_of emission.old) (made_of emission.new)) }
        ensures edges { IfOk result (λ u. AreEdges (listed live.now.values.now) live.now.finals.now self.new.initial.now (made_of emission.new) self.new.edges.edges.items) }
        ensures same { self.new.initial.now ≡ self.old.initial.now }
    {
        for i in 0..live.values.len() {
            self.resolve_at(emission, live, i)?;
        }
        Ok(())
    }

    /// Gives the value `v` its edge, if it is a live word that is carried.
    fn settle_value(
        &mut self,
        emission: &mut Emission,
        live: &Live,
        v: usize,
    ) -> Result<(), AllocError>
        requires within { v < length (listed live.now.values.now) }
        requires stands { Stands (listed live.now.values.now) live.now.marks.items (made_of emission.now) }
        requires loads { HasLoads (listed live.now.values.now) live.now.marks.items (made_of emission.now) (length (listed live.now.values.now)) }
        requires edges { AreEdges (listed live.now.values.now) live.now.finals.now self.now.initial.now (made_of emission.now) self.now.edges.edges.items }
        ensures adds { IfOk result (λ u. AddsQuiet (listed live.now.values.now) live.now.marks.items (made_of emission.old) (made_of emission.new)) }
        ensures edges { IfOk result (λ u. AreEdges (listed live.now.values.now) live.now.finals.now self.new.initial.now (made_of emission.new) self.new.edges.edges.items) }
        ensures kept { IfOk result (λ u. KeepsEdges self.old.edges.edges.items self.new.edges.edges.items) }
        ensures there { IfOk result (λ u. IsSettled (listed live.now.values.now) live.now.marks.items self.new.edges.edges.items v) }
        ensures same { self.new.initial.now ≡ self.old.initial.now }
    {
        match live.values.value(v) {
            Value::Carried(number) if live.marks[v] => self.settle(emission, live, number),
            _ => Ok(()),
        }
    }

    /// Gives each live word its edge.
    pub fn settle_all(&mut self, emission: &mut Emission, live: &Live) -> Result<(), AllocError>
        requires stands { Stands (listed live.now.values.now) live.now.marks.items (made_of emission.now) }
        requires loads { HasLoads (listed live.now.values.now) live.now.marks.items (made_of emission.now) (length (listed live.now.values.now)) }
        requires edges { AreEdges (listed live.now.values.now) live.now.finals.now self.now.initial.now (made_of emission.now) self.now.edges.edges.items }
        ensures adds { IfOk result (λ u. AddsQuiet (listed live.now.values.now) live.now.marks.items (made_of emission.old) (made_of emission.new)) }
        ensures edges { IfOk result (λ u. AreEdges (listed live.now.values.now) live.now.finals.now self.new.initial.now (made_of emission.new) self.new.edges.edges.items) }
        ensures all { IfOk result (λ u. (v : ℕ) → v < length (listed live.now.values.now) → IsSettled (listed live.now.values.now) live.now.marks.items self.new.edges.edges.items v) }
        ensures same { self.new.initial.now ≡ self.old.initial.now }
    {
        for v in 0..live.values.len() {
            self.settle_value(emission, live, v)?;
        }
        Ok(())
    }
}
