//! A walk over resources, from each to those that drive it in the same cycle.
ghost use Rattle.std.specs.Prelude.{◌≡◌, ◌≢◌, ℕ, ◌<◌, ◌≤◌, OnOk, IfOk, IfErr, IfSome, IfNone, [], length, replicate, slice_index};
ghost use Rattle.cg_levelize.specs.declared.walk.Mark.TheVariants.{New, Done};
ghost use Rattle.cg_levelize.specs.Fault.{IsFaultOf};
ghost use Rattle.cg_levelize.specs.Topological.{AreKnown};
ghost use Rattle.cg_levelize.specs.Walk.{mark, taken, IsWalk, IsLast, Opens, Closes, AreAlike, IsWaiting, AreDone, IsStep, Places};

use crate::fault::OrderFault;
use crate::ring::ring_of;
use cg_model::{Kind, Resource, Words};
use std::alloc::{AllocError, Global};

/// The state of a resource in the walk.
#[derive(Clone, Copy, Debug, PartialEq, Eq)]
pub(crate) enum Mark {
    /// It wasn't met yet.
    New,
    /// It is on the path.
    Open,
    /// It is in the order.
    Done,
}

/// A walk over resources.
#[derive(Drop)]
pub(crate) struct Walk {
    /// A mark for each resource.
    pub(crate) marks: Vec<Mark>,
    /// The number of drivers of each resource that are known to be done.
    pub(crate) passed: Vec<usize>,
    /// The open resources, each driven by the next one.
    pub(crate) path: Vec<u32>,
    /// The resources that are done, each after those that drive it in the same cycle.
    pub(crate) order: Vec<u32>,
}

/// Returns the drivers whose words `resource` takes in the same cycle: a register takes none.
fn inputs(resource: &Resource) -> &[u32]
    ensures { result.now ≡ taken resource.now.kind resource.now.drivers }
{
    match resource.kind {
        Kind::Register => &[],
        Kind::Wire | Kind::Port | Kind::Out => resource.drivers.as_slice(),
    }
}

/// Returns the position of the first of `drivers` that isn't done, from position `from` on, or the number of drivers.
fn first_waiting(marks: &[Mark], drivers: &[u32], from: usize) -> usize
    requires { (k : ℕ) → k < length drivers.now → slice_index drivers.now k < length marks.now }
    ensures within { result ≤ length drivers.now }
    ensures done { (k : ℕ) → from ≤ k → k < result → mark marks.now (slice_index drivers.now k) ≡ Done }
    ensures waits { result < length drivers.now → mark marks.now (slice_index drivers.now result) ≢ Done }
{
    for place in from..drivers.len() {
        if marks[drivers[place] as usize] != Mark::Done {
            return place;
        }
    }
    drivers.len()
}

impl Walk {
    /// Returns a walk over `count` resources that has met none.
    pub(crate) fn new(alloc: Global, count: usize) -> Result<Walk, AllocError>
        ensures marks { IfOk result (λ walk. walk.marks.items ≡ replicate count New) }
        ensures passed { IfOk result (λ walk. walk.passed.items ≡ replicate count 0) }
        ensures path { IfOk result (λ walk. walk.path.items ≡ []) }
        ensures order { IfOk result (λ walk. walk.order.items ≡ []) }
    {
        Ok(Walk {
            marks: vec![in alloc; Mark::New; count]?,
            passed: vec![in alloc; 0usize; count]?,
            path: Vec::new(alloc),
            order: Vec::new(alloc),
        })
    }

    /// Opens `resource`.
    fn open(&mut self, resource: u32) -> Result<(), AllocError>
        requires { resource < length self.old.marks.items }
        ensures { OnOk result (Opens self.old self.new resource) }
    {
        self.path.push(resource)?;
        self.marks[resource as usize] = Mark::Open;
        Ok(())
    }

    /// Closes `resource`, the last one of the path.
    fn close(&mut self, resource: u32) -> Result<(), AllocError>
        requires known { resource < length self.old.marks.items }
        requires last { IsLast self.old.path.items resource }
        ensures { OnOk result (Closes self.old self.new resource) }
    {
        self.order.push(resource)?;
        self.path.pop();
        self.marks[resource as usize] = Mark::Done;
        Ok(())
    }

    /// Returns the next driver of `resource` that isn't done, if there is one.
    fn next_driver(&mut self, resources: &[Resource], resource: u32) -> Option<u32>
        requires known { AreKnown resources.now }
        requires resource { resource < length resources.now }
        requires walk { IsWalk resources.now self.old }
        ensures walk { IsWalk resources.now self.new }
        ensures alike { AreAlike self.old self.new }
        ensures waits { IfSome result (IsWaiting resources.now self.new resource) }
        ensures none { IfNone result (AreDone resources.now self.new resource) }
    {
        let drivers = inputs(&resources[resource as usize]);
        let place = first_waiting(&self.marks, drivers, self.passed[resource as usize]);
        self.passed[resource as usize] = place;
        if place < drivers.len() {
            Some(drivers[place])
        } else {
            None
        }
    }

    /// Continues from the last resource of the path: opens a driver that isn't done, or closes the resource where all
    /// are done.
    fn step(&mut self, alloc: Global, resources: &[Resource]) -> Result<(), OrderFault>
        requires known { AreKnown resources.now }
        requires walk { IsWalk resources.now self.old }
        requires some { 0 < length self.old.path.items }
        ensures ok { OnOk result (IsStep resources.now self.old self.new) }
        ensures ring { IfErr result (IsFaultOf resources.now) }
    {
        let last = self.path[self.path.len() - 1];
        match self.next_driver(resources, last) {
            None => self.close(last)?,
            Some(driver) => {
                if self.marks[driver as usize] == Mark::Open {
                    let ring = ring_of(alloc, &self.path, driver)?;
                    return Err(OrderFault::CombinationalLoop(Words::new(ring)));
                }
                self.open(driver)?;
            }
        }
        Ok(())
    }

    /// Adds `start` to the order, after the resources that must come before it.
    pub(crate) fn place(
        &mut self,
        alloc: Global,
        resources: &[Resource],
        start: u32,
    ) -> Result<(), OrderFault>
        requires known { AreKnown resources.now }
        requires start { start < length resources.now }
        requires walk { IsWalk resources.now self.old }
        requires no_path { self.old.path.items ≡ [] }
        ensures ok { OnOk result (Places resources.now self.old self.new start) }
        ensures ring { IfErr result (IsFaultOf resources.now) }
    {
        if self.marks[start as usize] == Mark::New {
            self.open(start)?;
        }
        'steps: while !self.path.is_empty() {
            self.step(alloc, resources)?;
        }
        Ok(())
    }
}
