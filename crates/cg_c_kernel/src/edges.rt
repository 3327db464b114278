//! The edges of words that are carried from turn to turn.

use std::alloc::{AllocError, Global};

/// The edge of a word: it is what was the value of node `from` some turns ago, one for each of `words`, which it is in the
/// first turns.
#[derive(Drop)]
pub struct Edge {
    pub from: u32,
    pub words: Vec<u32>,
}

/// The edges of words, by their numbers.
#[derive(Drop)]
pub struct Edges {
    alloc: Global,
    pub edges: Vec<Option<Edge>>,
}

impl Edges {
    ghost use Rattle.std.specs.Prelude.{◌≡◌, ℕ, ◌==◌, ◌∷◌, [], true, if◌then◌else◌, IfOk, IfSome, Some, None};
    ghost use Rattle.cg_c_kernel.specs.Edges.{IsOneMore, edge_in, has_edge};

    /// Returns no edges.
    pub fn new(alloc: Global) -> Edges
        ensures { result.edges.items ≡ [] }
    {
        Edges {
            alloc,
            edges: Vec::new(alloc),
        }
    }

    /// Returns whether the word of a number has an edge.
    pub fn has(&self, number: usize) -> bool
        ensures { result ≡ has_edge self.now.edges.items number }
    {
        number < self.edges.len() && self.edges[number].is_some()
    }

    /// Gives the word of a number an edge.
    pub fn set(&mut self, number: usize, edge: Edge) -> Result<(), AllocError>
        ensures { IfOk result (λ u. (n : ℕ) → edge_in self.new.edges.items n ≡ (if n == number then Some edge else edge_in self.old.edges.items n)) }
    {
        while self.edges.len() <= number {
            self.edges.push(None)?;
        }
        self.edges[number] = Some(edge);
        Ok(())
    }

    /// Returns the edge from node `from` over a turn, at first with `word`.
    pub fn over_one(&self, from: u32, word: u32) -> Result<Edge, AllocError>
        ensures from { IfOk result (λ e. e.from ≡ from) }
        ensures words { IfOk result (λ e. e.words.items ≡ word ∷ []) }
    {
        let words = vec![in self.alloc; word]?;
        Ok(Edge { from, words })
    }

    /// Returns an edge over a turn more than that of word `next`, at first with `word`, if that is at most four turns.
    pub fn over_more(&self, next: usize, word: u32) -> Result<Option<Edge>, AllocError>
        ensures { IfOk result (λ o. IfSome o (λ e. IsOneMore (edge_in self.now.edges.items next) word e)) }
    {
        if next >= self.edges.len() {
            return Ok(None);
        }
        match &self.edges[next] {
            Some(edge) if edge.words.len() < 4 => {
                let mut words = vec![in self.alloc; word]?;
                words.extend_from_slice(&edge.words)?;
                Ok(Some(Edge {
                    from: edge.from,
                    words,
                }))
            }
            _ => Ok(None),
        }
    }
}
