//! The places of nodes in a mapping, and the units and resources of an architecture; past the end, the defaults of the
//! model.
ghost use Rattle.std.specs.Prelude.{◌≡◌, ◌≤◌, eqb, slice_get};
ghost use Rattle.std.specs.List.{list_any};
ghost use Rattle.cg_model.specs.Array.{unit, delay as delay_of};
ghost use Rattle.cg_model.specs.Mapping.{place as place_of, leaves as leaves_of};
ghost use Rattle.cg_check.specs.Rules.{drives as drives_of};

use cg_arch::Arch;
use cg_model::{Kind, Mapping, Place};

/// Returns the place of `node`.
pub(crate) fn place(mapping: &Mapping, node: u32) -> Place
    ensures { result ≡ place_of mapping.now node }
{
    let places = mapping.places();
    if node as usize >= places.len() {
        return Place { unit: 0, time: 0 };
    }
    places[node as usize]
}

/// Returns the latency of unit number `number`, in cycles.
fn latency(arch: &Arch, number: u32) -> u32
    ensures value { result ≡ (unit arch.now number).latency }
    ensures small { result ≤ 4 }
{
    let units = arch.units();
    if number as usize >= units.len() {
        return 1;
    }
    units[number as usize].latency
}

/// Returns the number of the out of unit number `number`.
pub(crate) fn out(arch: &Arch, number: u32) -> u32
    ensures { result ≡ (unit arch.now number).out }
{
    let units = arch.units();
    if number as usize >= units.len() {
        return 0;
    }
    units[number as usize].out
}

/// Returns the number of port `arg` of unit number `number`, if it has that port.
pub(crate) fn port(arch: &Arch, number: u32, arg: u32) -> Option<u32>
    ensures { result ≡ slice_get (unit arch.now number).ports arg }
{
    let units = arch.units();
    if number as usize >= units.len() {
        return None;
    }
    let ports = units[number as usize].ports.as_slice();
    ports.get(arg as usize).copied()
}

/// Returns the cycle in which the value of `node` leaves its unit, counted from its iteration's start.
pub fn leaves(arch: &Arch, mapping: &Mapping, node: u32) -> u64
    ensures value { result ≡ leaves_of arch.now mapping.now node }
    ensures soon { result ≤ 4294967299 }
{
    let at = place(mapping, node);
    u64::from(at.time) + u64::from(latency(arch, at.unit))
}

/// Returns the cycles that a link into `resource` takes.
pub fn delay(arch: &Arch, resource: u32) -> u64
    ensures value { result ≡ delay_of arch.now resource }
    ensures small { result ≤ 1 }
{
    let resources = arch.resources();
    if resource as usize >= resources.len() {
        return 0;
    }
    match resources[resource as usize].kind {
        Kind::Register => 1,
        Kind::Wire | Kind::Port | Kind::Out => 0,
    }
}

/// Returns whether there is a link from resource `from` to resource `to`.
pub(crate) fn drives(arch: &Arch, from: u32, to: u32) -> bool
    ensures { result ≡ drives_of arch.now from to }
{
    let resources = arch.resources();
    if to as usize >= resources.len() {
        return false;
    }
    has(resources[to as usize].drivers.as_slice(), from)
}

/// Returns whether `wanted` is in `numbers`.
fn has(numbers: &[u32], wanted: u32) -> bool
    ensures { result ≡ list_any (λ number. eqb number wanted) numbers.now }
{
    numbers.iter().any(|number| *number == wanted)
}
