//! The plain use table, whose contract is that of the faster one.
ghost use Rattle.std.specs.Prelude.{◌≡◌, ℕ, ◌+◌, ◌-◌, ◌*◌, ◌^◌, ◌<◌, ◌≤◌, ◌++◌, ◌&&◌, eqb, nat_lt, not, true, [], Some, length, All, HoldsAt, IfOk, OnOk, OnErr, IfSome, IfNone, replicate, map, take, slice_index, if◌then◌else◌};
ghost use Rattle.std.specs.List.{list_any, range_with_len};
ghost use Rattle.cg_model.specs.Mapping.{Position, positions_on};
ghost use Rattle.cg_mrrg.specs.Nodes.{node_at};
ghost use Rattle.cg_congestion.specs.Claims as claims;
ghost use Rattle.cg_model.specs.Mapping as mappings;
ghost use Rattle.cg_congestion.specs.Plain.{plain, plains};

use crate::claim::CLAIM_TOLL;
use crate::usage::{arrives, comes_from, place};
use cg_mrrg::{Arch, MNode, Mrrg};
use std::alloc::{AllocError, Global};
use std::marker::Model;

/// A position of a path: the value of a source is on a resource at a time, and comes from another resource, or from its
/// unit.
#[derive(Clone, Copy, Debug, PartialEq, Eq, Drop)]
pub struct PlainPosition {
    /// The node of the kernel whose value it is.
    pub source: u32,
    /// The resource.
    pub resource: u32,
    /// The cycle of the first iteration in which the value is there.
    pub time: u32,
    /// The resource from which it comes; none if the path begins there.
    pub from: Option<u32>,
}

/// A use table that keeps the positions of all paths, and recounts at each query.
#[derive(Drop)]
pub struct PlainUsage<'a> {
    arch: &'a Arch,
    interval: u32,
    positions: Vec<PlainPosition>,
    history: Vec<u32>,
}

impl<'a> Model for PlainUsage<'a> {
    ghost use Rattle.cg_congestion.specs.Table.{Table};
    ghost use Rattle.cg_congestion.specs.Plain.{plain_table, IsPlain};

    ghost Value = { Table };

    ghost view = { λ u. plain_table u.arch.now u.interval u.positions.items u.history.items };

    ghost invariant = { λ u. IsPlain u.arch.now u.interval u.positions.items u.history.items };
}

impl<'a> PlainUsage<'a> {
    ghost use Rattle.std.specs.Prelude.{◌≡◌, ℕ, ◌+◌, ◌*◌, ◌^◌, ◌<◌, ◌≤◌, ◌&&◌, eqb, [], length, All, IfOk, OnOk, OnErr, replicate, Some};
    ghost use Rattle.std.specs.List.{list_any};
    ghost use Rattle.cg_model.specs.Mapping.{Position, positions_on};
    ghost use Rattle.cg_mrrg.specs.Graph as graphs;
    ghost use Rattle.cg_congestion.specs.Claims.{same, uses};
    ghost use Rattle.cg_congestion.specs.Table.{IsMore, aged};
    ghost use Rattle.cg_congestion.specs.Table as tables;

    /// Returns the table of `graph` without claims, with histories of 0.
    pub fn new(alloc: Global, graph: &Mrrg<'a>) -> Result<PlainUsage<'a>, AllocError>
        ensures { IfOk result (λ u. u ≡ record { arch = graph.now.arch; interval = graph.now.interval; positions = []; history = replicate (length graph.now.arch.resources * graph.now.interval) 0 }) }
    {
        let interval = graph.interval();
        let count = graph.resources() as usize * interval as usize;
        Ok(PlainUsage {
            arch: graph.arch(),
            interval,
            positions: Vec::new(alloc),
            history: vec![in alloc; 0; count]?,
        })
    }

    /// Returns the interval, in cycles.
    pub fn interval(&self) -> u32
        ensures value { result ≡ self.now.interval }
        ensures some { 0 < result }
        ensures few { result ≤ 64 }
    {
        self.interval
    }

    /// Adds the claims of `path`, which the value of `source` enters at the time `start`.
    pub fn add(&mut self, source: u32, start: u32, path: &[u32]) -> Result<(), AllocError>
        requires known { All (λ r. r < length self.old.arch.resources) path.now }
        requires near { start + length path.now < 2 ^ 32 }
        requires room { length self.old.positions + length path.now ≤ 2 ^ 48 }
        ensures added { OnOk result (IsMore self.old self.new (positions_on self.old.arch source start path.now)) }
        ensures unchanged { OnErr result (self.new ≡ self.old) }
    {
        push_path(&mut self.positions, self.arch, source, start, path)
    }

    /// Removes the claims of `path`.
    pub fn remove(&mut self, source: u32, start: u32, path: &[u32])
        requires known { All (λ r. r < length self.old.arch.resources) path.now }
        requires near { start + length path.now < 2 ^ 32 }
        requires held { (p : Position) → uses (positions_on self.old.arch source start path.now) p ≤ uses self.old.positions p }
        ensures { IsMore self.new self.old (positions_on self.old.arch source start path.now) }
    {
        take_path(&mut self.positions, self.arch, source, start, path);
    }

    /// Returns the number of claims beyond one, over all nodes.
    pub fn excess(&self) -> u64
        ensures { result ≡ tables.excess self.now }
    {
        excess_of(&self.positions, self.interval, self.history.len())
    }

    /// Adds 1 to the history of each node with excess.
    pub fn age(&mut self)
        requires { All (λ h. h < 4294967295) self.old.history }
        ensures { self.new ≡ record self.old { history = aged self.old } }
    {
        age_all(&mut self.history, &self.positions, self.interval);
    }

    /// Returns the cost of one more claim on `node`.
    pub fn toll(&self, node: MNode) -> u64
        requires node { graphs.IsNode (record { arch = self.now.arch; interval = self.now.interval }) node }
        ensures toll { result ≡ tables.toll self.now node }
        ensures small { result ≤ 2 ^ 52 }
    {
        let place = place(self.interval, node.resource, node.slot);
        1 + u64::from(self.history[place])
            + CLAIM_TOLL * count_claims(&self.positions, self.interval, node)
    }

    /// Returns whether the value of `source` is on `resource` at `time`.
    pub fn has_value(&self, source: u32, resource: u32, time: u32) -> bool
        requires { resource < length self.now.arch.resources }
        ensures { result ≡ list_any (λ (p : Position). eqb p.source source && eqb p.resource resource && eqb p.time time) self.now.positions }
    {
        any_value(&self.positions, source, resource, time)
    }

    /// Returns whether the value of `source` is on `resource` at `time` and comes from the resource `before`.
    pub fn has_claim(&self, source: u32, resource: u32, time: u32, before: u32) -> bool
        requires { resource < length self.now.arch.resources }
        ensures { result ≡ list_any (same (record { source = source; resource = resource; time = time; from = Some before })) self.now.positions }
    {
        has(
            &self.positions,
            PlainPosition {
                source,
                resource,
                time,
                from: Some(before),
            },
        )
    }
}

/// Adds the positions of a path to `positions`; if memory runs out, adds none.
fn push_path(
    positions: &mut Vec<PlainPosition>,
    arch: &Arch,
    source: u32,
    start: u32,
    path: &[u32],
) -> Result<(), AllocError>
    requires known { All (λ r. r < length arch.now.resources) path.now }
    requires near { start + length path.now < 2 ^ 32 }
    ensures added { OnOk result (plains positions.new.items ≡ plains positions.old.items ++ positions_on arch.now source start path.now) }
    ensures unchanged { OnErr result (positions.new.items ≡ positions.old.items) }
{
    let count = positions.len();
    let pushed = push_all(positions, arch, source, start, path);
    if pushed.is_err() {
        positions.truncate(count);
    }
    pushed
}

/// Adds the positions of a path to `positions`; if memory runs out, only the first ones.
fn push_all(
    positions: &mut Vec<PlainPosition>,
    arch: &Arch,
    source: u32,
    start: u32,
    path: &[u32],
) -> Result<(), AllocError>
    requires known { All (λ r. r < length arch.now.resources) path.now }
    requires near { start + length path.now < 2 ^ 32 }
    ensures added { OnOk result (plains positions.new.items ≡ plains positions.old.items ++ positions_on arch.now source start path.now) }
    ensures first { take (length positions.old.items) positions.new.items ≡ positions.old.items }
{
    let mut time = start;
    let mut from = None;
    for resource in path {
        time = arrives(arch, from, time, *resource);
        positions.push(PlainPosition {
            source,
            resource: *resource,
            time,
            from,
        })?;
        from = Some(*resource);
    }
    Ok(())
}

/// Removes the positions of `path` from `positions`.
fn take_path(positions: &mut Vec<PlainPosition>, arch: &Arch, source: u32, start: u32, path: &[u32])
    requires known { All (λ r. r < length arch.now.resources) path.now }
    requires near { start + length path.now < 2 ^ 32 }
    requires held { (p : Position) → claims.uses (positions_on arch.now source start path.now) p ≤ claims.uses (plains positions.old.items) p }
    ensures taken { (p : Position) → claims.uses (plains positions.old.items) p ≡ claims.uses (plains positions.new.items) p + claims.uses (positions_on arch.now source start path.now) p }
    ensures count { length positions.old.items ≡ length positions.new.items + length path.now }
{
    let mut time = start;
    let mut from = None;
    for resource in path {
        time = arrives(arch, from, time, *resource);
        take_one(
            positions,
            PlainPosition {
                source,
                resource: *resource,
                time,
                from,
            },
        );
        from = Some(*resource);
    }
}

/// Removes one occurrence of `position` from `positions`.
fn take_one(positions: &mut Vec<PlainPosition>, position: PlainPosition)
    requires { 0 < claims.uses (plains positions.old.items) (plain position) }
    ensures taken { (p : Position) → claims.uses (plains positions.old.items) p ≡ claims.uses (plains positions.new.items) p + (if claims.same p (plain position) then 1 else 0) }
    ensures count { length positions.old.items ≡ length positions.new.items + 1 }
{
    if let Some(place) = find(positions, position) {
        positions.swap_remove(place);
    }
}

/// Finds the index of `position` in `positions`.
fn find(positions: &[PlainPosition], position: PlainPosition) -> Option<usize>
    ensures some { IfSome result (λ i. (i < length positions.now) × HoldsAt (λ q. claims.same (plain position) (plain q) ≡ true) positions.now i) }
    ensures none { IfNone result (claims.uses (plains positions.now) (plain position) ≡ 0) }
{
    for (place, other) in positions.iter().enumerate() {
        if is_same(position, *other) {
            return Some(place);
        }
    }
    None
}

/// Returns whether two positions are equal.
fn is_same(a: PlainPosition, b: PlainPosition) -> bool
    ensures { result ≡ claims.same (plain a) (plain b) }
{
    a.source == b.source
        && a.resource == b.resource
        && a.time == b.time
        && same_from(a.from, b.from)
}

/// Returns whether two predecessors are equal.
fn same_from(a: Option<u32>, b: Option<u32>) -> bool
    ensures { result ≡ mappings.same_from a b }
{
    match a {
        Some(resource) => comes_from(resource, b),
        None => b.is_none(),
    }
}

/// Returns whether `position` is in `positions`.
fn has(positions: &[PlainPosition], position: PlainPosition) -> bool
    ensures { result ≡ list_any (λ q. claims.same (plain position) (plain q)) positions.now }
{
    positions.iter().any(|other| is_same(position, *other))
}

/// Returns whether the value of `source` is on `resource` at `time` in one of `positions`.
fn any_value(positions: &[PlainPosition], source: u32, resource: u32, time: u32) -> bool
    ensures { result ≡ list_any (λ (p : PlainPosition). eqb p.source source && eqb p.resource resource && eqb p.time time) positions.now }
{
    positions.iter().any(|p| p.source == source && p.resource == resource && p.time == time)
}

/// Returns the number of claims on `node`.
fn count_claims(positions: &[PlainPosition], interval: u32, node: MNode) -> u64
    requires { 0 < interval }
    ensures { result ≡ claims.claims_at interval (plains positions.now) node }
{
    let mut count = 0u64;
    for (place, position) in positions.iter().enumerate() {
        if counts(*position, &positions[place + 1..], interval, node) {
            count += 1;
        }
    }
    count
}

/// Returns whether `position` is on `node`, and none of the `later` ones is equal to it.
fn counts(position: PlainPosition, later: &[PlainPosition], interval: u32, node: MNode) -> bool
    requires { 0 < interval }
    ensures { result ≡ (claims.is_at interval node (plain position) && not (list_any (λ q. claims.same (plain position) (plain q)) later.now)) }
{
    position.resource == node.resource
        && position.time % interval == node.slot
        && !has(later, position)
}

/// Returns the number of claims beyond one, over the first `count` nodes.
fn excess_of(positions: &[PlainPosition], interval: u32, count: usize) -> u64
    requires some { 0 < interval }
    requires near { count ≤ 2 ^ 32 * interval }
    requires room { length positions.now ≤ 2 ^ 48 }
    ensures { result ≡ claims.excess_below interval (plains positions.now) count }
{
    let mut total = 0u64;
    for place in 0..count {
        total += count_claims(positions, interval, node(interval, place)).saturating_sub(1);
    }
    total
}

/// Returns node number `place`.
fn node(interval: u32, place: usize) -> MNode
    requires some { 0 < interval }
    requires near { place < 2 ^ 32 * interval }
    ensures { result ≡ node_at interval place }
{
    MNode {
        resource: (place / interval as usize) as u32,
        slot: (place % interval as usize) as u32,
    }
}

/// Adds 1 to the history of each node with more than one claim.
fn age_all(history: &mut [u32], positions: &[PlainPosition], interval: u32)
    requires some { 0 < interval }
    requires near { length history.old ≤ 2 ^ 32 * interval }
    requires small { All (λ h. h < 4294967295) history.old }
    ensures { history.new ≡ map (λ k. slice_index history.old k + (if nat_lt 1 (claims.claims_at interval (plains positions.now) (node_at interval k)) then 1 else 0)) (range_with_len 0 (length history.old)) }
{
    for place in 0..history.len() {
        if count_claims(positions, interval, node(interval, place)) > 1 {
            history[place] += 1;
        }
    }
}
