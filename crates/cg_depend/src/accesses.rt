//! The accesses of a kernel, and the edge that a pair of them needs.
ghost use Rattle.std.specs.Prelude.{◌≡◌, ◌↔◌, IfOk, IsTrue};
ghost use Rattle.cg_depend.specs.Depend.{Within, distance_for};
ghost use Rattle.cg_depend.specs.Gathered.{HasRoles, meet, role_of};

use crate::addresses::Addresses;
use cg_distance::{DistanceTable, min_distance};
use cg_model::{Kernel, MOST_ORDER_DISTANCE, OrderEdge};
use cg_word::Op;
use std::alloc::{AllocError, Global};
use std::marker::Model;

/// How a node accesses the memory.
#[derive(Clone, Copy, Debug, PartialEq, Eq)]
pub(crate) enum Role {
    /// It doesn't access it.
    Apart,
    /// It is a load or loadif.
    Loads,
    /// It is a store or storeif.
    Stores,
}

/// A kernel with the roles of its nodes, their addresses and the least distances of its chains. Contracts see it as the
/// kernel.
#[derive(Drop)]
pub(crate) struct Accesses<'k> {
    addresses: Addresses<'k>,
    roles: Vec<Role>,
    table: DistanceTable<'k>,
}

impl<'k> Model for Accesses<'k> {
    ghost use Rattle.std.specs.Prelude.{◌≡◌};
    ghost use Rattle.cg_model.specs.Kernel as kernels;
    ghost use Rattle.cg_depend.specs.Gathered.{HasRoles};

    ghost Value = { kernels.Kernel };

    ghost view = { λ a. a.addresses };

    ghost invariant = { λ a. HasRoles a.addresses a.roles.items × (a.table ≡ a.addresses) };
}

impl<'k> Accesses<'k> {
    ghost use Rattle.std.specs.Prelude.{◌≡◌, ◌<◌, ◌∷◌, [], IfOk};
    ghost use Rattle.cg_word.specs.Word.{is_access};
    ghost use Rattle.cg_model.specs.Kernel.{node, size};
    ghost use Rattle.cg_depend.specs.Depend.{Added, conflict};
    ghost use Rattle.cg_depend.specs.Gathered.{ask, list_of};

    /// Returns the accesses of `kernel`.
    pub fn of(alloc: Global, kernel: &'k Kernel) -> Result<Accesses<'k>, AllocError>
        ensures { IfOk result (λ a. a ≡ kernel.now) }
    {
        let addresses = Addresses::of(alloc, kernel)?;
        let roles = roles_of(alloc, kernel)?;
        let table = min_distance(alloc, kernel)?;
        Ok(Accesses {
            addresses,
            roles,
            table,
        })
    }

    /// Returns the number of nodes.
    pub fn size(&self) -> usize
        ensures { result ≡ size self.now }
    {
        self.addresses.nodes().len()
    }

    /// Returns whether the node `u` accesses the memory.
    pub fn is_access(&self, u: u32) -> bool
        requires { u < size self.now }
        ensures { result ≡ is_access (node self.now u).op }
    {
        self.addresses.nodes()[u as usize].op.is_access()
    }

    /// Returns whether the nodes `u` and `v` access the memory and at least one of them stores.
    pub fn conflict(&self, u: u32, v: u32) -> bool
        requires u { u < size self.now }
        requires v { v < size self.now }
        ensures { result ≡ conflict self.now u v }
    {
        meet(self.roles[u as usize], self.roles[v as usize])
    }

    /// Returns the edge to be added so that `to` comes after `from` wherever it accesses the same word, `least` turns
    /// later or more; None where none is needed.
    pub fn edge(&self, from: u32, to: u32, least: u32) -> Option<OrderEdge>
        requires from { from < size self.now }
        requires to { to < size self.now }
        ensures { Added self.now (ask from to least ∷ []) (list_of result) }
    {
        let Some(gap) = self.addresses.gap(from, to, least) else {
            return None;
        };
        let distance = distance_for(gap);
        if is_within(&self.table, from, to, distance) {
            None
        } else {
            Some(OrderEdge { from, to, distance })
        }
    }
}

/// Returns the roles of the nodes of `kernel`.
fn roles_of(alloc: Global, kernel: &Kernel) -> Result<Vec<Role>, AllocError>
    ensures { IfOk result (λ roles. HasRoles kernel.now roles.items) }
{
    let nodes = kernel.nodes();
    let mut roles = Vec::new(alloc);
    for number in 0..nodes.len() {
        roles.push(role_of(nodes[number].op))?;
    }
    Ok(roles)
}

/// Returns the role of a node with the operation `op`.
fn role_of(op: Op) -> Role
    ensures { result ≡ role_of op }
{
    if op.is_store() {
        Role::Stores
    } else if op.is_access() {
        Role::Loads
    } else {
        Role::Apart
    }
}

/// Returns whether two nodes of the roles `one` and `other` both access the memory, and at least one of them stores.
fn meet(one: Role, other: Role) -> bool
    ensures { result ≡ meet one other }
{
    match (one, other) {
        (Role::Apart, _) | (_, Role::Apart) | (Role::Loads, Role::Loads) => false,
        _ => true,
    }
}

/// Returns the distance of an order edge for a gap of `gap` turns.
fn distance_for(gap: u32) -> u32
    ensures { result ≡ distance_for gap }
{
    gap.min(MOST_ORDER_DISTANCE)
}

/// Returns whether a chain leads from `from` to `to` over at most `most` turns.
pub fn is_within(table: &DistanceTable, from: u32, to: u32, most: u32) -> bool
    ensures { IsTrue result ↔ Within table.now from to most }
{
    match table.get(from, to) {
        Some(distance) => distance <= most,
        None => false,
    }
}
