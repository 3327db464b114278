//! The search for a least path.
ghost use Rattle.std.specs.Prelude.{◌||◌, nat_lt, eqb, ◌≡◌, ◌≢◌, ◌<◌, ◌≤◌, ◌^◌, ◌*◌, ◌+◌, ℕ, ◌-◌, [], ◌∷◌, List, IfSome, IfNone, replicate, Option, Some, None, length, IfOk};
ghost use Rattle.cg_route.specs.Layers as spec;

use crate::step::{NO_WAY, Step, Way, better, held};
use cg_congestion::{MNode, Mrrg, Usage};
use cg_model::Items;
use std::alloc::{AllocError, Global};
use std::marker::Model;

/// The resource where a path begins, and the resource and time where it ends.
#[derive(Clone, Copy, Drop)]
pub(crate) struct PathEnds {
    pub from: u32,
    pub to: u32,
    pub end: u32,
}

/// A search for paths of a source's value to a resource at a time.
#[derive(Drop)]
pub(crate) struct Search<'s, 'a> {
    graph: &'s Mrrg<'a>,
    usage: &'s Usage<'a>,
    order: &'a [u32],
    count: usize,
    interval: u32,
    met: Vec<bool>,
    source: u32,
    from: u32,
    to: u32,
    end: u32,
}

impl<'s, 'a> Model for Search<'s, 'a> {
    ghost use Rattle.std.specs.Prelude.{◌≡◌, length};
    ghost use Rattle.cg_route.specs.Layers.{Sought, IsSearch, AreOpen};

    ghost Value = { Sought };

    ghost view = { λ s. record { table = s.usage.now; order = s.order.now; source = s.source; from = s.from; to = s.to; end = s.end } };

    ghost invariant = { λ s. IsSearch (record { table = s.usage.now; order = s.order.now; source = s.source; from = s.from; to = s.to; end = s.end }) × (s.graph.now.arch ≡ s.usage.now.arch) × (s.graph.now.interval ≡ s.usage.now.interval) × (s.count ≡ length s.usage.now.arch.resources) × (s.interval ≡ s.usage.now.interval) × AreOpen s.usage.now.arch s.from s.met.items };
}

impl<'s, 'a> Search<'s, 'a> {
    ghost use Rattle.std.specs.Prelude.{◌≡◌, ◌≢◌, ◌<◌, ◌≤◌, ◌^◌, ◌*◌, ◌+◌, ℕ, ◌-◌, [], ◌∷◌, List, IfSome, IfNone, replicate, Option, Some, None, length, IfOk, Contains, ◌%◌, ◌&&◌, eqb};
    ghost use Rattle.std.specs.List.{list_any};
    ghost use Rattle.cg_model.specs.Mapping.{Position};
    ghost use Rattle.cg_mrrg.specs.Graph.{registers_after};
    ghost use Rattle.cg_congestion.specs.Table as tables;
    ghost use Rattle.cg_route.specs.Layers as spec;

    /// Returns a search in `graph`, by the prices of a use table.
    pub(crate) fn new(
        alloc: Global,
        graph: &'s Mrrg<'a>,
        usage: &'s Usage<'a>,
        source: u32,
        ends: PathEnds,
    ) -> Result<Search<'s, 'a>, AllocError>
        requires arch { graph.now.arch ≡ usage.now.arch }
        requires interval { graph.now.interval ≡ usage.now.interval }
        requires to { ends.to < length graph.now.arch.resources }
        ensures table { IfOk result (λ s. s.table ≡ usage.now) }
        ensures source { IfOk result (λ s. s.source ≡ source) }
        ensures from { IfOk result (λ s. s.from ≡ ends.from) }
        ensures to { IfOk result (λ s. s.to ≡ ends.to) }
        ensures end { IfOk result (λ s. s.end ≡ ends.end) }
        ensures search { IfOk result spec.IsSearch }
    {
        Ok(Search {
            graph,
            usage,
            order: graph.order(),
            count: graph.arch().resources().len(),
            interval: graph.interval(),
            met: met(alloc, graph, ends.from)?,
            source,
            from: ends.from,
            to: ends.to,
            end: ends.end,
        })
    }

    /// Returns the price of a link from `driver` into `resource` at `time`: 0 if the value already comes there by this
    /// link, else `toll`.
    fn link(&self, resource: u32, time: u32, driver: u32, toll: u128, shared: bool) -> u128
        requires known { resource < spec.size self.now }
        requires toll { toll ≡ tables.toll self.now.table (record { resource = resource; slot = time % self.now.table.interval }) }
        requires small { toll ≤ 2 ^ 52 }
        requires shared { shared ≡ list_any (λ (p : Position). eqb p.source self.now.source && eqb p.resource resource && eqb p.time time) self.now.table.positions }
        ensures link { result ≡ spec.link self.now time resource driver }
        ensures small { result ≤ 2 ^ 52 }
    {
        if shared && self.usage.has_claim(self.source, resource, time, driver) {
            0
        } else {
            toll
        }
    }

    /// Offers the drivers of `resource` the way on through it, if the value is there at `time` and the price from there
    /// on is `price`.
    fn offer(&self, resource: u32, time: u32, price: u128, layer: &mut [Option<Step>])
        requires known { resource < spec.size self.now }
        requires all { length layer.old ≡ spec.size self.now }
        requires small { price ≤ 2 ^ 127 }
        ensures offered { spec.IsOffered self.now time resource price layer.old layer.new }
        ensures below { (high : ℕ) → price + 2 ^ 52 ≤ high → spec.IsBelow high layer.old → spec.IsBelow high layer.new }
    {
        let node = MNode {
            resource,
            slot: time % self.interval,
        };
        let toll = u128::from(self.usage.toll(node));
        let shared = self.usage.has_value(self.source, resource, time);
        for link in self.graph.links_into(node) {
            let driver = link.node.resource;
            let link = self.link(resource, time, driver, toll, shared);
            let found = layer[driver as usize];
            layer[driver as usize] = better(found, link + price, resource);
        }
    }

    /// Offers the drivers of `resource` the way on through it, if there is one and a link into it takes `delay` cycles.
    fn pass(
        &self,
        delay: u32,
        resource: u32,
        time: u32,
        step: Option<Step>,
        layer: &mut [Option<Step>],
    )
        requires known { resource < spec.size self.now }
        requires all { length layer.old ≡ spec.size self.now }
        requires small { (s : spec.Step) → step ≡ Some s → s.price ≤ 2 ^ 127 }
        ensures passed { spec.delay_into self.now resource ≡ delay → spec.IsPassed self.now time resource step layer.old layer.new }
        ensures kept { spec.delay_into self.now resource ≢ delay → layer.new ≡ layer.old }
        ensures below { (high : ℕ) → ((s : spec.Step) → step ≡ Some s → s.price + 2 ^ 52 ≤ high) → spec.IsBelow high layer.old → spec.IsBelow high layer.new }
    {
        if let Some(step) = step {
            if self.graph.delay_into(resource) == delay {
                self.offer(resource, time, step.price, layer);
            }
        }
    }

    /// Returns a layer without ways.
    fn none(&self, alloc: Global) -> Result<Vec<Option<Step>>, AllocError>
        ensures { IfOk result (λ v. v.items ≡ replicate (spec.size self.now) None) }
    {
        vec![in alloc; None; self.count]
    }

    /// Returns the way on through `resource`, if the value is there at `time` and continues by `step`.
    fn way(&self, resource: u32, time: u32, slot: u32, step: Step) -> Way
        requires known { resource < spec.size self.now }
        requires slot { slot ≡ time % self.now.table.interval }
        requires small { step.price ≤ 2 ^ 127 }
        ensures way { Some result ≡ spec.way_of self.now time resource (Some step) }
        ensures cheap { spec.IsCheap result }
    {
        let node = MNode { resource, slot };
        Way {
            onward: step.price,
            through: u128::from(self.usage.toll(node)) + step.price,
            shared: self.usage.has_value(self.source, resource, time),
        }
    }

    /// Returns the ways on through all registers at a time, by the layer of that time.
    fn ways(
        &self,
        alloc: Global,
        time: u32,
        later: &[Option<Step>],
    ) -> Result<Vec<Option<Way>>, AllocError>
        requires all { length later.now ≡ spec.size self.now }
        requires small { spec.IsBelow (2 ^ 127) later.now }
        ensures ways { IfOk result (λ v. v.items ≡ spec.ways_of self.now time later.now) }
        ensures cheap { IfOk result (λ v. spec.AreCheap v.items) }
    {
        let mut ways = vec![in alloc; None; self.count]?;
        let slot = time % self.interval;
        for resource in 0..self.count {
            if self.graph.delay_into(resource as u32) == 1 {
                if let Some(step) = later[resource] {
                    ways[resource] = Some(self.way(resource as u32, time, slot, step));
                }
            }
        }
        Ok(ways)
    }

    /// Returns the price of `way` for `driver`.
    fn way_price(&self, driver: u32, resource: u32, time: u32, way: Way) -> u128
        requires known { resource < spec.size self.now }
        requires cheap { spec.IsCheap way }
        ensures price { result ≡ spec.way_price self.now time resource driver way }
        ensures cheap { result ≤ way.onward + 2 ^ 52 }
    {
        if way.shared && self.usage.has_claim(self.source, resource, time, driver) {
            way.onward
        } else {
            way.through
        }
    }

    /// Returns the best way on through a register, which the value enters at `time`.
    ///
    /// The registers are in ascending order: among ways of equal price the first is the one to the lowest number.
    fn best(&self, driver: u32, time: u32, ways: &[Option<Way>]) -> Option<Step>
        requires known { driver < spec.size self.now }
        requires all { length ways.now ≡ spec.size self.now }
        requires cheap { spec.AreCheap ways.now }
        ensures best { (later : spec.Layer) → ways.now ≡ spec.ways_of self.now time later → spec.IsBest (λ x. Contains (registers_after self.now.table.arch driver) x) (spec.at later) (λ x. spec.link self.now time x driver) result }
        ensures below { (later : spec.Layer) (high : ℕ) → ways.now ≡ spec.ways_of self.now time later → spec.IsBelow high later → (s : spec.Step) → result ≡ Some s → s.price ≤ high + 2 ^ 52 }
    {
        let mut price = NO_WAY;
        let mut next = 0;
        for register in self.graph.registers_after(driver) {
            if let Some(way) = ways[*register as usize] {
                let found = self.way_price(driver, *register, time, way);
                if found < price {
                    price = found;
                    next = *register;
                }
            }
        }
        held(price, next)
    }

    /// Returns the best ways on of all resources through registers, which the value enters at that time.
    fn carry(
        &self,
        alloc: Global,
        time: u32,
        ways: &[Option<Way>],
    ) -> Result<Vec<Option<Step>>, AllocError>
        requires some { 0 < time }
        requires all { length ways.now ≡ spec.size self.now }
        requires cheap { spec.AreCheap ways.now }
        ensures begun { IfOk result (λ here. (later : spec.Layer) → ways.now ≡ spec.ways_of self.now time later → spec.IsBegun self.now (time - 1) (spec.size self.now) later here.items) }
        ensures below { IfOk result (λ here. (later : spec.Layer) (high : ℕ) → ways.now ≡ spec.ways_of self.now time later → spec.IsBelow high later → spec.IsBelow (high + 2 ^ 52) here.items) }
    {
        let mut here = self.none(alloc)?;
        for resource in 0..self.count {
            if self.met[resource] {
                here[resource] = self.best(resource as u32, time, ways);
            }
        }
        Ok(here)
    }

    /// Returns a layer before its own links are visited: empty at the end, else with the ways through registers.
    fn begun(
        &self,
        alloc: Global,
        k: u32,
        later: &[Option<Step>],
    ) -> Result<Vec<Option<Step>>, AllocError>
        requires near { k ≤ 416 }
        requires time { k ≤ self.now.end }
        requires none { k ≡ 0 → later.now ≡ [] }
        requires all { 0 < k → length later.now ≡ spec.size self.now }
        requires within { spec.IsWithin (k * (spec.size self.now + 1)) later.now }
        ensures begun { IfOk result (λ here. spec.IsBegun self.now (self.now.end - k) (spec.size self.now) later.now here.items) }
        ensures within { IfOk result (λ here. spec.IsWithin (k * (spec.size self.now + 1) + 1) here.items) }
    {
        if k == 0 {
            self.none(alloc)
        } else {
            let time = self.end - (k - 1);
            let ways = self.ways(alloc, time, later)?;
            self.carry(alloc, time, &ways)
        }
    }

    /// Enters the end of the path, if it is `resource` in layer `k`.
    fn enter(&self, k: u32, resource: u32, here: &mut [Option<Step>])
        requires { resource < length here.old }
        ensures { here.new ≡ spec.entered self.now k resource here.old }
    {
        if k == 0 && resource == self.to {
            here[resource as usize] = Some(Step {
                price: 0,
                next: resource,
            });
        }
    }

    /// Enters `resource`, and offers its drivers the way on through it, if links to it have no delay.
    fn visit(&self, k: u32, resource: u32, here: &mut [Option<Step>])
        requires known { resource < spec.size self.now }
        requires time { k ≤ self.now.end }
        requires all { length here.old ≡ spec.size self.now }
        requires small { spec.IsBelow (2 ^ 127) here.old }
        ensures visited { spec.IsVisited self.now k resource here.old here.new }
        ensures below { (high : ℕ) → spec.IsBelow high here.old → spec.IsBelow (high + 2 ^ 52) here.new }
    {
        self.enter(k, resource, here);
        let step = here[resource as usize];
        self.pass(0, resource, self.end - k, step, here);
    }

    /// Enters the ways on through resources to which links have no delay, from the last resource of the order to the
    /// first.
    fn settle(&self, k: u32, here: &mut [Option<Step>])
        requires near { k ≤ 416 }
        requires time { k ≤ self.now.end }
        requires small { spec.IsWithin (k * (spec.size self.now + 1) + 1) here.old }
        requires all { length here.old ≡ spec.size self.now }
        ensures settled { (later : spec.Layer) → spec.IsBegun self.now (self.now.end - k) (spec.size self.now) later here.old → spec.IsLayer self.now k (self.now.end - k) later here.new }
        ensures within { spec.IsWithin ((k + 1) * (spec.size self.now + 1)) here.new }
    {
        for place in 0..self.count {
            self.visit(k, self.order[self.count - 1 - place], here);
        }
    }

    /// Returns the layer of `k` cycles before the end, from the layer of the next cycle.
    fn layer(
        &self,
        alloc: Global,
        k: u32,
        later: &[Option<Step>],
    ) -> Result<Items<Option<Step>>, AllocError>
        requires near { k ≤ 416 }
        requires time { k ≤ self.now.end }
        requires none { k ≡ 0 → later.now ≡ [] }
        requires all { 0 < k → length later.now ≡ spec.size self.now }
        requires within { spec.IsWithin (k * (spec.size self.now + 1)) later.now }
        ensures layer { IfOk result (λ here. spec.IsLayer self.now k (self.now.end - k) later.now here) }
        ensures within { IfOk result (λ here. spec.IsWithin ((k + 1) * (spec.size self.now + 1)) here) }
    {
        let mut here = self.begun(alloc, k, later)?;
        self.settle(k, &mut here);
        Ok(Items::new(here))
    }

    /// Returns the layers of the last cycles, that of the end first.
    pub(crate) fn layers(
        &self,
        alloc: Global,
        last: u32,
    ) -> Result<Vec<Items<Option<Step>>>, AllocError>
        requires near { last ≤ 416 }
        requires time { last ≤ self.now.end }
        ensures all { IfOk result (λ v. length v.items ≡ last + 1) }
        ensures layers { IfOk result (λ v. spec.AreLayers self.now v.items) }
    {
        let mut layers: Vec<Items<Option<Step>>> = Vec::new(alloc);
        for k in 0..last + 1 {
            let here = self.layer(alloc, k, later(&layers, k))?;
            layers.push(here)?;
        }
        Ok(layers)
    }

    /// Returns the path by the next resources of the entries, from a resource `last` cycles before the end.
    pub(crate) fn trace(
        &self,
        alloc: Global,
        layers: &[Items<Option<Step>>],
        last: u32,
        from: u32,
    ) -> Result<Option<Vec<u32>>, AllocError>
        requires leads { spec.Leads self.now layers.now }
        requires last { last < length layers.now }
        requires from { spec.IsOpen self.now from }
        ensures none { IfOk result (λ found. IfNone found (spec.at (spec.layer_at layers.now last) from ≡ None)) }
        ensures path { IfOk result (λ found. IfSome found (λ path. (rest : List ℕ) × (path.items ≡ from ∷ rest) × spec.Follows self.now layers.now last from rest)) }
    {
        if entry_at(layers, last, from).is_none() {
            return Ok(None);
        }
        let mut path = Vec::new(alloc);
        path.push(from)?;
        let mut k = last;
        let mut q = from;
        'walk: loop {
            if q == self.to && k == 0 {
                return Ok(Some(path));
            }
            let Some(step) = entry_at(layers, k, q) else {
                return Ok(None);
            };
            path.push(step.next)?;
            k -= self.graph.delay_into(step.next);
            q = step.next;
        }
    }
}

/// Returns the layer of the cycle after that of `k` cycles before the end.
fn later(layers: &[Items<Option<Step>>], k: u32) -> &[Option<Step>]
    requires { k ≤ length layers.now }
    ensures { result.now ≡ spec.later_at layers.now k }
{
    if k == 0 {
        &[]
    } else {
        layers[k as usize - 1].as_slice()
    }
}

/// Returns the way on from `resource` `k` cycles before the end.
fn entry_at(layers: &[Items<Option<Step>>], k: u32, resource: u32) -> Option<Step>
    requires { k < length layers.now }
    ensures { result ≡ spec.at (spec.layer_at layers.now k) resource }
{
    match layers[k as usize].as_slice().get(resource as usize) {
        Some(step) => *step,
        None => None,
    }
}

/// Returns for each resource whether a path from the resource `from` may meet it.
fn met(alloc: Global, graph: &Mrrg, from: u32) -> Result<Vec<bool>, AllocError>
    ensures { IfOk result (λ v. spec.AreOpen graph.now.arch from v.items) }
{
    let resources = graph.arch().resources();
    let mut met = Vec::with_capacity(alloc, resources.len())?;
    for resource in 0..resources.len() {
        let drivers = resources[resource].drivers.as_slice();
        met.push(may_meet(drivers, resource as u32, from))?;
    }
    Ok(met)
}

/// Returns whether a path from the resource `from` may meet `resource`, which has the drivers `drivers`.
fn may_meet(drivers: &[u32], resource: u32, from: u32) -> bool
    ensures { result ≡ (nat_lt 0 (length drivers.now) || eqb resource from) }
{
    !drivers.is_empty() || resource == from
}
