//! The addresses of a kernel's accesses, and after how many turns two accesses may reach one word.
ghost use Rattle.std.specs.Prelude.{◌≡◌, ◌<◌, IfOk, option_map, Some};
ghost use Rattle.cg_model.specs.Kernel.{Kernel as KernelValue, size};
ghost use Rattle.cg_depend.specs.Affine.{address_pair};
ghost use Rattle.cg_depend.specs.Depend.{Ask, Gap};
ghost use Rattle.cg_depend.specs.Gathered.{HasAddresses, pair_in};

use crate::gap::{Stride, gap, parted};
use crate::table::{AffineTable, affine};
use cg_model::{Kernel, Node};
use std::alloc::{AllocError, Global};
use std::marker::Model;

/// The address of an access that has a pair: its base, and its stride in the form that `gap` takes.
#[derive(Drop)]
pub(crate) struct Address {
    pub base: u32,
    pub stride: Stride,
}

/// The addresses of a kernel's accesses. Contracts see them as the kernel.
#[derive(Drop)]
pub struct Addresses<'k> {
    kernel: &'k Kernel,
    addresses: Vec<Option<Address>>,
}

impl<'k> Model for Addresses<'k> {
    ghost use Rattle.cg_model.specs.Kernel as kernels;
    ghost use Rattle.cg_depend.specs.Gathered.{HasAddresses};

    ghost Value = { kernels.Kernel };

    ghost view = { λ a. a.kernel.now };

    ghost invariant = { λ a. HasAddresses a.kernel.now a.addresses.items };
}

impl<'k> Addresses<'k> {
    ghost use Rattle.std.specs.Prelude.{◌≡◌, ◌<◌, IfOk};
    ghost use Rattle.cg_model.specs.Kernel.{size};
    ghost use Rattle.cg_depend.specs.Depend.{Gap};
    ghost use Rattle.cg_depend.specs.Gathered.{ask};

    /// Returns the addresses of the accesses of `kernel`.
    pub fn of(alloc: Global, kernel: &'k Kernel) -> Result<Addresses<'k>, AllocError>
        ensures { IfOk result (λ a. a ≡ kernel.now) }
    {
        let addresses = addresses_of(alloc, kernel)?;
        Ok(Addresses { kernel, addresses })
    }

    /// Returns the nodes of the kernel.
    pub(crate) fn nodes(&self) -> &[Node]
        ensures { result.now ≡ self.now.nodes }
    {
        self.kernel.nodes()
    }

    /// Returns the least number of turns, from `least` on, after which node `to` may access the word that node `from`
    /// accesses; None where it doesn't in any run of at most 1,000,000 turns. Where the addresses don't have one
    /// stride, it is `least`.
    pub fn gap(&self, from: u32, to: u32, least: u32) -> Option<u32>
        requires from { from < size self.now }
        requires to { to < size self.now }
        ensures { Gap self.now (ask from to least) result }
    {
        let source = &self.addresses[from as usize];
        let target = &self.addresses[to as usize];
        gap_between(source, target, least)
    }
}

/// Returns the address of each node of `kernel`, None where it has no pair.
fn addresses_of(alloc: Global, kernel: &Kernel) -> Result<Vec<Option<Address>>, AllocError>
    ensures { IfOk result (λ addresses. HasAddresses kernel.now addresses.items) }
{
    let table = affine(alloc, kernel)?;
    let mut addresses = Vec::new(alloc);
    for node in 0..kernel.nodes().len() {
        addresses.push(address_at(&table, node as u32))?;
    }
    Ok(addresses)
}

/// Returns the address of node number `node`, None where it has no pair.
fn address_at(table: &AffineTable, node: u32) -> Option<Address>
    requires { node < size table.now }
    ensures { option_map pair_in result ≡ address_pair table.now node }
{
    match table.address(node) {
        Some(pair) => Some(Address {
            base: pair.base,
            stride: parted(pair.stride),
        }),
        None => None,
    }
}

/// Returns the least number of turns, from `least` on, after which an access at `to` may access the word of one at
/// `from`; None where it doesn't in any run.
fn gap_between(from: &Option<Address>, to: &Option<Address>, least: u32) -> Option<u32>
    ensures { (K : KernelValue) (a : Ask) → address_pair K a.source ≡ option_map pair_in from.now → address_pair K a.target ≡ option_map pair_in to.now → a.least ≡ least → Gap K a result }
{
    match (from, to) {
        (Some(one), Some(other)) => address_gap(one, other, least),
        _ => Some(least),
    }
}

/// Returns the least number of turns, from `least` on, after which an access at `to` accesses the word of one at
/// `from`, both with pairs. Where their strides differ it is `least`; None where they don't meet in any run.
fn address_gap(from: &Address, to: &Address, least: u32) -> Option<u32>
    ensures { (K : KernelValue) (a : Ask) → address_pair K a.source ≡ Some (pair_in from.now) → address_pair K a.target ≡ Some (pair_in to.now) → a.least ≡ least → Gap K a result }
{
    if from.stride.word() != to.stride.word() {
        return Some(least);
    }
    gap(&from.stride, from.base.wrapping_sub(to.base), least)
}
