//! The graph.
ghost use Rattle.std.specs.Prelude.{◌≡◌, ◌<◌, ◌≤◌, ◌+◌, ◌*◌, ◌++◌, ◌∷◌, [], IfOk, OnOk, All, length, map};
ghost use Rattle.cg_model.specs.Array.{delay};
ghost use Rattle.cg_mrrg.specs.Graph as spec;
ghost use Rattle.cg_mrrg.specs.Nodes.{into, out_of};
ghost use Rattle.cg_mrrg.specs.Lists.{AreParts};
ghost use Rattle.cg_mrrg.specs.Users.{AreUsers, users_of};

use crate::links::{Link, MNode, link_from, link_to};
use crate::lists::LinkLists;
use crate::registers::registers;
use crate::users::users;
use cg_arch::{Arch, Kind};
use cg_model::Items;
use std::alloc::{AllocError, Global};
use std::marker::Model;

/// The modulo routing resource graph of an architecture at an interval (Mei et al. 2002): each resource once in each
/// slot. It lends the links at a node, which it keeps node by node, and copies nothing. It takes about 24 bytes for
/// each link in each slot, at most about 100 MB.
#[derive(Drop)]
pub struct Mrrg<'a> {
    arch: &'a Arch,
    interval: u32,
    into: LinkLists,
    out: LinkLists,
    registers: Vec<Items<u32>>,
}

impl<'a> Model for Mrrg<'a> {
    ghost use Rattle.cg_mrrg.specs.Graph.{Graph};
    ghost use Rattle.std.specs.Prelude.{length};
    ghost use Rattle.cg_mrrg.specs.Nodes.{IsKept};
    ghost use Rattle.cg_mrrg.specs.Users.{AreRegisters};

    ghost Value = { Graph };

    ghost view = { λ g. record { arch = g.arch.now; interval = g.interval } };

    ghost invariant = { λ g. IsKept g.arch.now g.interval g.into.links.items g.into.starts.items g.out.links.items g.out.starts.items × AreRegisters g.arch.now (length g.arch.now.resources) g.registers.items };
}

impl<'a> Mrrg<'a> {
    ghost use Rattle.std.specs.Prelude.{◌≡◌, ◌<◌, ◌≤◌, IfOk, length};
    ghost use Rattle.cg_model.specs.Array.{delay};
    ghost use Rattle.cg_levelize.specs.Topological.{IsTopological};
    ghost use Rattle.cg_mrrg.specs.Graph as spec;

    /// Returns the graph of `arch` at an interval of 1 to 64 cycles.
    pub fn expand(alloc: Global, arch: &'a Arch, interval: u32) -> Result<Mrrg<'a>, AllocError>
        requires some { 0 < interval }
        requires few { interval ≤ 64 }
        ensures { IfOk result (λ g. g ≡ record { arch = arch.now; interval = interval }) }
    {
        Ok(Mrrg {
            arch,
            interval,
            into: links_into(alloc, arch, interval)?,
            out: links_out(alloc, arch, interval)?,
            registers: registers(alloc, arch)?,
        })
    }

    /// Returns the interval, in cycles.
    pub fn interval(&self) -> u32
        ensures value { result ≡ self.now.interval }
        ensures some { 0 < result }
        ensures few { result ≤ 64 }
    {
        self.interval
    }

    /// Returns the number of resources of the architecture.
    pub fn resources(&self) -> u32
        ensures { result ≡ length self.now.arch.resources }
    {
        self.arch.resources().len() as u32
    }

    /// Returns the architecture.
    pub fn arch(&self) -> &'a Arch
        ensures { result.now ≡ self.now.arch }
    {
        self.arch
    }

    /// Returns the numbers of all resources, each after those from which a link without delay leads to it.
    pub fn order(&self) -> &'a [u32]
        ensures { IsTopological self.now.arch.resources result.now }
    {
        self.arch.order()
    }

    /// Returns the delay of a link into `resource`, in cycles: 1 into a register, else 0.
    pub fn delay_into(&self, resource: u32) -> u32
        requires { resource < length self.now.arch.resources }
        ensures { result ≡ delay self.now.arch resource }
    {
        delay_of(self.arch, resource)
    }

    /// Returns the links that end in `node`, each with its start, in the order of drivers.
    pub fn links_into(&self, node: MNode) -> &[Link]
        requires { spec.IsNode self.now node }
        ensures { result.now ≡ spec.links_into self.now node }
    {
        self.into.get(self.place(node))
    }

    /// Returns the links that start in `node`, each with its end, in the order of resources.
    pub fn links_out_of(&self, node: MNode) -> &[Link]
        requires { spec.IsNode self.now node }
        ensures { result.now ≡ spec.links_out_of self.now node }
    {
        self.out.get(self.place(node))
    }

    /// Returns the registers that `resource` drives, ascending: the ends of its links of one cycle, in each slot.
    pub fn registers_after(&self, resource: u32) -> &[u32]
        requires { resource < length self.now.arch.resources }
        ensures { result.now ≡ spec.registers_after self.now.arch resource }
    {
        self.registers[resource as usize].as_slice()
    }

    /// Returns the number of `node`: nodes are ordered by resource, then slot.
    fn place(&self, node: MNode) -> usize
        ensures { result ≡ node.resource * self.now.interval + node.slot }
    {
        node.resource as usize * self.interval as usize + node.slot as usize
    }
}

/// Returns the delay of a link into `resource`, in cycles.
pub(crate) fn delay_of(arch: &Arch, resource: u32) -> u32
    requires { resource < length arch.now.resources }
    ensures value { result ≡ delay arch.now resource }
    ensures small { result ≤ 1 }
{
    match arch.resources()[resource as usize].kind {
        Kind::Register => 1,
        Kind::Wire | Kind::Port | Kind::Out => 0,
    }
}

/// Returns the links that end in each node.
fn links_into(alloc: Global, arch: &Arch, interval: u32) -> Result<LinkLists, AllocError>
    requires some { 0 < interval }
    requires few { interval ≤ 64 }
    ensures { IfOk result (λ l. AreParts (into arch.now interval) (length arch.now.resources * interval) l.links.items l.starts.items) }
{
    let mut lists = LinkLists::new(alloc)?;
    for resource in 0..arch.resources().len() {
        for slot in 0..interval {
            add_drivers(&mut lists, arch, interval, resource as u32, slot)?;
        }
    }
    Ok(lists)
}

/// Adds the links that end in a node to `lists`.
fn add_drivers(
    lists: &mut LinkLists,
    arch: &Arch,
    interval: u32,
    resource: u32,
    slot: u32,
) -> Result<(), AllocError>
    requires resource { resource < length arch.now.resources }
    requires slot { slot < interval }
    requires few { interval ≤ 64 }
    ensures links { OnOk result (lists.new.links.items ≡ lists.old.links.items ++ spec.links_into (record { arch = arch.now; interval = interval }) (record { resource = resource; slot = slot })) }
    ensures starts { OnOk result (lists.new.starts.items ≡ lists.old.starts.items ++ length lists.new.links.items ∷ []) }
{
    let delay = delay_of(arch, resource);
    for driver in arch.resources()[resource as usize].drivers.as_slice() {
        lists.links.push(link_from(*driver, delay, slot, interval))?;
    }
    lists.end()
}

/// Returns the links that start in each node.
fn links_out(alloc: Global, arch: &Arch, interval: u32) -> Result<LinkLists, AllocError>
    requires some { 0 < interval }
    requires few { interval ≤ 64 }
    ensures { IfOk result (λ l. AreParts (out_of arch.now interval) (length arch.now.resources * interval) l.links.items l.starts.items) }
{
    let users = users(alloc, arch)?;
    let mut lists = LinkLists::new(alloc)?;
    for resource in 0..users.len() {
        for slot in 0..interval {
            add_users(&mut lists, arch, interval, users[resource].as_slice(), slot)?;
        }
    }
    Ok(lists)
}

/// Adds the links from a slot to the given resources to `lists`.
fn add_users(
    lists: &mut LinkLists,
    arch: &Arch,
    interval: u32,
    users: &[u32],
    slot: u32,
) -> Result<(), AllocError>
    requires users { All (λ r. r < length arch.now.resources) users.now }
    requires slot { slot < interval }
    requires few { interval ≤ 64 }
    ensures links { OnOk result (lists.new.links.items ≡ lists.old.links.items ++ map (spec.link_to arch.now slot interval) users.now) }
    ensures starts { OnOk result (lists.new.starts.items ≡ lists.old.starts.items ++ length lists.new.links.items ∷ []) }
{
    for user in users {
        lists
            .links
            .push(link_to(*user, delay_of(arch, *user), slot, interval))?;
    }
    lists.end()
}
