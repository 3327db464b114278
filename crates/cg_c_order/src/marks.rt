//! Marks of nodes, and tables of them with a row for each node.
ghost use Rattle.std.specs.Prelude.{◌≡◌, ◌<◌, true, false, IfOk, length, replicate};
ghost use Rattle.cg_c_order.specs.Marks.{AreAfter, AreBefore, AreJoined, IsJoined, IsSquare};

use std::alloc::{AllocError, Global};
use std::marker::Model;

/// A mark for each node, set or not. Contracts see the list of them.
#[derive(Drop)]
pub(crate) struct Marks {
    cells: Vec<bool>,
}

impl Model for Marks {
    ghost use Rattle.std.specs.Prelude.{Bool, List};

    ghost Value = { List Bool };

    ghost view = { λ m. m.cells.items };
}

impl Marks {
    ghost use Rattle.std.specs.Prelude.{◌≡◌, ◌<◌, true, false, IfOk, length, replicate, slice_set};
    ghost use Rattle.cg_c_order.specs.Marks.{IsJoined, has, takes};

    /// Returns `count` marks, none of them set.
    pub(crate) fn new(alloc: Global, count: usize) -> Result<Marks, AllocError>
        ensures { IfOk result (λ m. m ≡ replicate count false) }
    {
        let cells = vec![in alloc; false; count]?;
        Ok(Marks { cells })
    }

    /// Returns a copy of these marks.
    pub(crate) fn copy(&self, alloc: Global) -> Result<Marks, AllocError>
        ensures { IfOk result (λ m. m ≡ self.now) }
    {
        let cells = Vec::from_slice(alloc, &self.cells)?;
        Ok(Marks { cells })
    }

    /// Returns whether the mark of node `node` is set.
    pub(crate) fn has(&self, node: usize) -> bool
        requires { node < length self.now }
        ensures { result ≡ has self.now node }
    {
        self.cells[node]
    }

    /// Sets the mark of node `node`.
    fn set(&mut self, node: usize)
        requires { node < length self.old }
        ensures { self.new ≡ slice_set self.old node true }
    {
        self.cells[node] = true;
    }

    /// Sets the marks that are set in `others`.
    fn join(&mut self, others: &Marks)
        requires { length others.now ≡ length self.old }
        ensures { IsJoined true others.now self.old self.new }
    {
        join_cells(&mut self.cells, &others.cells);
    }

    /// Sets the marks that are set in `targets` if `is_source` and that of node `to` isn't set.
    fn lead(&mut self, is_source: bool, to: usize, targets: &Marks)
        requires to { to < length self.old }
        requires targets { length targets.now ≡ length self.old }
        ensures { IsJoined (takes is_source to self.old) targets.now self.old self.new }
    {
        if is_source && !self.has(to) {
            self.join(targets);
        }
    }
}

/// Sets those of `cells` that are set in `others`.
fn join_cells(cells: &mut [bool], others: &[bool])
    requires { length others.now ≡ length cells.old }
    ensures { IsJoined true others.now cells.old cells.new }
{
    for node in 0..cells.len() {
        if others[node] {
            cells[node] = true;
        }
    }
}

/// Returns `size` rows of `size` marks, none of them set.
pub(crate) fn no_rows(alloc: Global, size: usize) -> Result<Vec<Marks>, AllocError>
    ensures { IfOk result (λ rows. rows.items ≡ replicate size (replicate size false)) }
{
    let mut rows = Vec::new(alloc);
    for _ in 0..size {
        rows.push(Marks::new(alloc, size)?)?;
    }
    Ok(rows)
}

/// Returns a copy of `rows`.
pub(crate) fn copy_rows(alloc: Global, rows: &[Marks]) -> Result<Vec<Marks>, AllocError>
    ensures { IfOk result (λ copy. copy.items ≡ rows.now) }
{
    let mut copy = Vec::new(alloc);
    for row in rows {
        copy.push(row.copy(alloc)?)?;
    }
    Ok(copy)
}

/// Returns the marks of the nodes that lead to node `node` by `rows`, and of `node`.
pub(crate) fn nodes_before(alloc: Global, rows: &[Marks], node: usize) -> Result<Marks, AllocError>
    requires square { IsSquare (length rows.now) rows.now }
    requires node { node < length rows.now }
    ensures { IfOk result (AreBefore rows.now node) }
{
    let mut cells = Vec::new(alloc);
    for source in 0..rows.len() {
        cells.push(source == node || rows[source].has(node))?;
    }
    Ok(Marks { cells })
}

/// Returns the marks of the nodes to which node `node` leads by `rows`, and of `node`.
pub(crate) fn nodes_after(alloc: Global, rows: &[Marks], node: usize) -> Result<Marks, AllocError>
    requires square { IsSquare (length rows.now) rows.now }
    requires node { node < length rows.now }
    ensures { IfOk result (AreAfter rows.now node) }
{
    let mut marks = rows[node].copy(alloc)?;
    marks.set(node);
    Ok(marks)
}

/// Sets the marks of `targets` in the rows of those `sources` that don't lead to node `to` yet.
pub(crate) fn join_rows(rows: &mut [Marks], sources: &Marks, to: usize, targets: &Marks)
    requires square { IsSquare (length rows.old) rows.old }
    requires sources { length sources.now ≡ length rows.old }
    requires to { to < length rows.old }
    requires targets { length targets.now ≡ length rows.old }
    ensures { AreJoined sources.now to targets.now rows.old rows.new }
{
    for source in 0..rows.len() {
        rows[source].lead(sources.has(source), to, targets);
    }
}
