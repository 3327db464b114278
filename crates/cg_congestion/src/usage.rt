//! The use table.
ghost use Rattle.std.specs.Prelude.{◌≡◌, ℕ, ◌+◌, ◌-◌, ◌*◌, ◌%◌, ◌^◌, ◌<◌, ◌≤◌, ◌&&◌, eqb, nat_lt, List, [], ◌∷◌, Option, Some, None, length, All, IfOk, OnOk, OnErr, replicate, map, slice_index, slice_index_or, if◌then◌else◌};
ghost use Rattle.std.specs.List.{list_any, range_with_len};
ghost use Rattle.cg_model.specs.Mapping.{Position, positions_on};
ghost use Rattle.cg_mrrg.specs.Graph as graphs;
ghost use Rattle.cg_congestion.specs.Claims.{same, uses};
ghost use Rattle.cg_model.specs.Mapping.{same_from};
ghost use Rattle.cg_congestion.specs.Table.{IsMore, aged};
ghost use Rattle.cg_congestion.specs.Table as tables;
ghost use Rattle.cg_congestion.specs.Kept.{AreClaims, position_of};
ghost use Rattle.cg_congestion.specs.Nodes.{IsListed};
ghost use Rattle.cg_congestion.specs.Along as along;

use crate::claim::{CLAIM_TOLL, ClaimUse};
use crate::list::ClaimList;
use cg_arch::Kind;
use cg_mrrg::{Arch, MNode, Mrrg};
use std::alloc::{AllocError, Global};
use std::marker::Model;

/// The claims on the nodes of an architecture at an interval, and a history for each node (negotiated congestion,
/// McMurchie and Ebeling 1995).
#[derive(Drop)]
pub struct Usage<'a> {
    arch: &'a Arch,
    interval: u32,
    nodes: Vec<ClaimList>,
    history: Vec<u32>,
    excess: u64,
}

impl<'a> Model for Usage<'a> {
    ghost use Rattle.cg_congestion.specs.Table.{Table};
    ghost use Rattle.cg_congestion.specs.Nodes.{table_of, IsKept};

    ghost Value = { Table };

    ghost view = { λ u. table_of u.arch.now u.interval u.nodes.items u.history.items };

    ghost invariant = { λ u. IsKept u.arch.now u.interval u.nodes.items u.history.items u.excess };
}

impl<'a> Usage<'a> {
    ghost use Rattle.std.specs.Prelude.{◌≡◌, ℕ, ◌+◌, ◌*◌, ◌^◌, ◌<◌, ◌≤◌, ◌&&◌, eqb, [], ◌∷◌, length, All, IfOk, OnOk, OnErr, replicate, Some};
    ghost use Rattle.std.specs.List.{list_any};
    ghost use Rattle.cg_model.specs.Mapping.{Position, positions_on};
    ghost use Rattle.cg_mrrg.specs.Graph as graphs;
    ghost use Rattle.cg_congestion.specs.Claims.{same, uses};
    ghost use Rattle.cg_congestion.specs.Table.{IsMore, aged};
    ghost use Rattle.cg_congestion.specs.Table as tables;
    ghost use Rattle.cg_congestion.specs.Kept.{AreClaims, position_of};
    ghost use Rattle.cg_congestion.specs.Nodes.{IsListed};

    /// Returns the table of `graph` without claims, with histories of 0.
    pub fn new(alloc: Global, graph: &Mrrg<'a>) -> Result<Usage<'a>, AllocError>
        ensures { IfOk result (λ u. u ≡ record { arch = graph.now.arch; interval = graph.now.interval; positions = []; history = replicate (length graph.now.arch.resources * graph.now.interval) 0 }) }
    {
        let interval = graph.interval();
        let count = graph.resources() as usize * interval as usize;
        Ok(Usage {
            arch: graph.arch(),
            interval,
            nodes: no_claims(alloc, count)?,
            history: vec![in alloc; 0; count]?,
            excess: 0,
        })
    }

    /// Returns the interval, in cycles.
    pub fn interval(&self) -> u32
        ensures value { result ≡ self.now.interval }
        ensures some { 0 < result }
        ensures few { result ≤ 64 }
    {
        self.interval
    }

    /// Adds the claims of `path`, which the value of `source` enters at the time `start`.
    pub fn add(&mut self, source: u32, start: u32, path: &[u32]) -> Result<(), AllocError>
        requires known { All (λ r. r < length self.old.arch.resources) path.now }
        requires near { start + length path.now < 2 ^ 32 }
        requires room { length self.old.positions + length path.now ≤ 2 ^ 48 }
        ensures added { OnOk result (IsMore self.old self.new (positions_on self.old.arch source start path.now)) }
        ensures unchanged { OnErr result (self.new ≡ self.old) }
    {
        let arch = self.arch;
        let mut time = start;
        let mut before = None;
        for (place, resource) in path.iter().enumerate() {
            time = arrives(arch, before, time, *resource);
            if let Err(error) = self.raise(*resource, one_use(source, time, before)) {
                self.take(source, start, &path[..place]);
                return Err(error);
            }
            before = Some(*resource);
        }
        Ok(())
    }

    /// Removes the claims of `path`.
    pub fn remove(&mut self, source: u32, start: u32, path: &[u32])
        requires known { All (λ r. r < length self.old.arch.resources) path.now }
        requires near { start + length path.now < 2 ^ 32 }
        requires held { (p : Position) → uses (positions_on self.old.arch source start path.now) p ≤ uses self.old.positions p }
        ensures { IsMore self.new self.old (positions_on self.old.arch source start path.now) }
    {
        self.take(source, start, path);
    }

    /// Returns the number of claims beyond one, over all nodes.
    pub fn excess(&self) -> u64
        ensures { result ≡ tables.excess self.now }
    {
        self.excess
    }

    /// Adds 1 to the history of each node with excess.
    pub fn age(&mut self)
        requires { All (λ h. h < 4294967295) self.old.history }
        ensures { self.new ≡ record self.old { history = aged self.old } }
    {
        age_nodes(&mut self.history, &self.nodes);
    }

    /// Returns the claims on `node`: by source, then time, then predecessor.
    pub fn claims_at(&self, node: MNode) -> &[ClaimUse]
        requires node { graphs.IsNode (record { arch = self.now.arch; interval = self.now.interval }) node }
        ensures { AreClaims self.now.interval self.now.positions node result.now }
    {
        self.nodes[place(self.interval, node.resource, node.slot)].as_slice()
    }

    /// Returns the cost of one more claim on `node`.
    pub fn toll(&self, node: MNode) -> u64
        requires node { graphs.IsNode (record { arch = self.now.arch; interval = self.now.interval }) node }
        ensures toll { result ≡ tables.toll self.now node }
        ensures small { result ≤ 2 ^ 52 }
    {
        let place = place(self.interval, node.resource, node.slot);
        1 + u64::from(self.history[place]) + CLAIM_TOLL * self.nodes[place].len()
    }

    /// Returns whether the value of `source` is on `resource` at `time`.
    pub fn has_value(&self, source: u32, resource: u32, time: u32) -> bool
        requires { resource < length self.now.arch.resources }
        ensures { result ≡ list_any (λ (p : Position). eqb p.source source && eqb p.resource resource && eqb p.time time) self.now.positions }
    {
        let place = place(self.interval, resource, time);
        any_value(self.nodes[place].as_slice(), source, time)
    }

    /// Returns whether the value of `source` is on `resource` at `time` and comes from the resource `before`.
    pub fn has_claim(&self, source: u32, resource: u32, time: u32, before: u32) -> bool
        requires { resource < length self.now.arch.resources }
        ensures { result ≡ list_any (same (record { source = source; resource = resource; time = time; from = Some before })) self.now.positions }
    {
        let place = place(self.interval, resource, time);
        any_claim(self.nodes[place].as_slice(), source, time, before)
    }

    /// Adds one use of `claim` on `resource`.
    fn raise(&mut self, resource: u32, claim: ClaimUse) -> Result<(), AllocError>
        requires known { resource < length self.old.arch.resources }
        requires one { claim.uses ≡ 1 }
        requires room { length self.old.positions < 2 ^ 48 }
        ensures added { OnOk result (IsMore self.old self.new (position_of resource claim ∷ [])) }
        ensures unchanged { OnErr result (self.new ≡ self.old) }
    {
        let place = place(self.interval, resource, claim.time);
        let excess = self.nodes[place].excess();
        self.nodes[place].raise(claim)?;
        self.excess = self.excess - excess + self.nodes[place].excess();
        Ok(())
    }

    /// Subtracts one use of `claim` on `resource`.
    fn lower(&mut self, resource: u32, claim: ClaimUse)
        requires known { resource < length self.old.arch.resources }
        requires one { claim.uses ≡ 1 }
        requires held { 0 < uses self.old.positions (position_of resource claim) }
        ensures taken { IsMore self.new self.old (position_of resource claim ∷ []) }
        ensures listed { IsListed self.new }
    {
        let place = place(self.interval, resource, claim.time);
        let excess = self.nodes[place].excess();
        self.nodes[place].lower(claim);
        self.excess = self.excess - excess + self.nodes[place].excess();
    }

    /// Removes the claims of `path`.
    fn take(&mut self, source: u32, start: u32, path: &[u32])
        requires known { All (λ r. r < length self.old.arch.resources) path.now }
        requires near { start + length path.now < 2 ^ 32 }
        requires held { (p : Position) → uses (positions_on self.old.arch source start path.now) p ≤ uses self.old.positions p }
        ensures taken { IsMore self.new self.old (positions_on self.old.arch source start path.now) }
        ensures listed { IsListed self.new }
    {
        let arch = self.arch;
        let mut time = start;
        let mut before = None;
        for resource in path {
            time = arrives(arch, before, time, *resource);
            self.lower(*resource, one_use(source, time, before));
            before = Some(*resource);
        }
    }
}

/// Returns `count` empty lists of claims.
fn no_claims(alloc: Global, count: usize) -> Result<Vec<ClaimList>, AllocError>
    ensures { IfOk result (λ t. t.items ≡ replicate count []) }
{
    let mut nodes = Vec::new(alloc);
    for _ in 0..count {
        nodes.push(ClaimList::new(alloc))?;
    }
    Ok(nodes)
}

/// Returns the number of the node of `resource` in the slot of `time`: nodes are ordered by resource, then slot.
pub(crate) fn place(interval: u32, resource: u32, time: u32) -> usize
    requires some { 0 < interval }
    requires few { interval ≤ 64 }
    ensures { result ≡ resource * interval + time % interval }
{
    resource as usize * interval as usize + (time % interval) as usize
}

/// Returns the time at which a value arrives on `resource`: it was on the resource `before` at `time`, or, without one,
/// enters there at `time`.
pub(crate) fn arrives(arch: &Arch, before: Option<u32>, time: u32, resource: u32) -> u32
    requires known { resource < length arch.now.resources }
    requires near { time + 1 < 2 ^ 32 }
    ensures time { result ≡ along.arrives arch.now before time resource }
    ensures near { result ≤ time + 1 }
{
    match (before, arch.resources()[resource as usize].kind) {
        (Some(_), Kind::Register) => time + 1,
        _ => time,
    }
}

/// Returns a claim with one use.
fn one_use(source: u32, time: u32, before: Option<u32>) -> ClaimUse
    ensures { result ≡ record { source = source; time = time; before = before; uses = 1 } }
{
    ClaimUse {
        source,
        time,
        before,
        uses: 1,
    }
}

/// Adds 1 to the history of each node with more than one claim.
fn age_nodes(history: &mut [u32], nodes: &[ClaimList])
    requires each { length nodes.now ≡ length history.old }
    requires small { All (λ h. h < 4294967295) history.old }
    ensures { history.new ≡ map (λ k. slice_index history.old k + (if nat_lt 1 (length (slice_index_or nodes.now k [])) then 1 else 0)) (range_with_len 0 (length nodes.now)) }
{
    for node in 0..nodes.len() {
        if nodes[node].len() > 1 {
            history[node] += 1;
        }
    }
}

/// Returns whether one of `claims` is of `source` at `time`.
fn any_value(claims: &[ClaimUse], source: u32, time: u32) -> bool
    ensures { result ≡ list_any (λ (c : ClaimUse). eqb c.source source && eqb c.time time) claims.now }
{
    claims
        .iter()
        .any(|claim| claim.source == source && claim.time == time)
}

/// Returns whether one of `claims` is of `source` at `time`, and comes from the resource `before`.
fn any_claim(claims: &[ClaimUse], source: u32, time: u32, before: u32) -> bool
    ensures { result ≡ list_any (λ (c : ClaimUse). eqb source c.source && eqb time c.time && same_from (Some before) c.before) claims.now }
{
    claims.iter().any(|claim| {
        source == claim.source && time == claim.time && comes_from(before, claim.before)
    })
}

/// Returns whether the predecessor `before` is `resource`.
pub(crate) fn comes_from(resource: u32, before: Option<u32>) -> bool
    ensures { result ≡ same_from (Some resource) before }
{
    match before {
        Some(other) => resource == other,
        None => false,
    }
}
