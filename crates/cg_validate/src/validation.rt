//! Validates parts.
ghost use Rattle.std.specs.Prelude.{◌≡◌, IfOk, None};
ghost use Rattle.cg_model.specs.Array.{IsArch};
ghost use Rattle.cg_parts.specs.Parts.{entries};
ghost use Rattle.cg_parts.specs.Numbers.{IsNumbering};
ghost use Rattle.cg_parts.specs.Rules.{fault_before_loops};
ghost use Rattle.cg_levelize.specs.Topological.{IsTopological};
ghost use Rattle.cg_validate.specs.Flat.{arch_of};
ghost use Rattle.cg_validate.specs.Answer as spec;

use crate::build::flat_of;
use crate::hub::{hub_fault, name_of};
use cg_arch::{Arch, keep};
use cg_flat::Flat;
use cg_levelize::{OrderFault, topological_order};
use cg_model::Words;
use cg_parts::{
    ArchFault, Entry, Names, Numbers, Parts, entries_of_all, fault_before_loops, numbers_of,
    unit_or_contexts_fault,
};
use std::alloc::{AllocError, Global};

/// Returns the architecture that `parts` define, or the lowest of A1 to A9 that applies, at its first place. Where
/// links without delay form loops, one loop is reported, from its resource with the least number on and along its
/// links.
pub fn validate(alloc: Global, parts: &Parts) -> Result<Arch, ArchFault>
    ensures answer { spec.IsAnswer parts.now result }
    ensures valid { IfOk result IsArch }
{
    let resources = entries_of_all(alloc, parts.elements.as_slice())?;
    let numbers = numbers_of(alloc, &resources)?;
    if let Some(fault) = fault_before_loops(alloc, parts, &resources, &numbers)? {
        return Err(fault);
    }
    numbered(alloc, parts, &resources, &numbers)
}

/// Returns the architecture or the lowest fault, for parts to which none of A1 to A5 applies.
fn numbered(
    alloc: Global,
    parts: &Parts,
    resources: &[Entry],
    numbers: &Numbers,
) -> Result<Arch, ArchFault>
    requires resources { resources.now ≡ entries parts.now.elements }
    requires numbers { IsNumbering numbers.now resources.now }
    requires early { fault_before_loops parts.now ≡ None }
    ensures answer { spec.IsAnswer parts.now result }
    ensures valid { IfOk result IsArch }
{
    let flat = flat_of(alloc, parts, resources, numbers)?;
    match topological_order(alloc, flat.resources()) {
        Ok(order) => ordered(alloc, parts, resources, numbers, flat, order),
        Err(OrderFault::CombinationalLoop(ring)) => Err(ArchFault::ZeroDelayLoop(names_of(
            alloc,
            &flat,
            ring.as_slice(),
        )?)),
        Err(OrderFault::Memory) => Err(ArchFault::Memory),
    }
}

/// Returns the architecture or the lowest fault, for parts whose links without delay form no loop.
fn ordered(
    alloc: Global,
    parts: &Parts,
    resources: &[Entry],
    numbers: &Numbers,
    flat: Flat,
    order: Words,
) -> Result<Arch, ArchFault>
    requires resources { resources.now ≡ entries parts.now.elements }
    requires numbers { IsNumbering numbers.now resources.now }
    requires early { fault_before_loops parts.now ≡ None }
    requires flat { flat ≡ arch_of parts.now }
    requires order { IsTopological flat.resources order }
    ensures answer { spec.IsAnswer parts.now result }
    ensures valid { IfOk result IsArch }
{
    if let Some(fault) = fault_after_loops(alloc, parts, resources, numbers, &flat)? {
        return Err(fault);
    }
    Ok(keep(alloc, flat, order)?)
}

/// Returns the lowest of A7 to A9 that applies, at its first place.
#[tactic(auto, unfolding(crate::specs::Answer::fault_after_loops))]
fn fault_after_loops(
    alloc: Global,
    parts: &Parts,
    resources: &[Entry],
    numbers: &Numbers,
    flat: &Flat,
) -> Result<Option<ArchFault>, AllocError>
    requires resources { resources.now ≡ entries parts.now.elements }
    requires numbers { IsNumbering numbers.now resources.now }
    requires flat { flat.now ≡ arch_of parts.now }
    ensures { IfOk result (λ found. found ≡ spec.fault_after_loops parts.now) }
{
    if let Some(fault) = unit_or_contexts_fault(parts) {
        return Ok(Some(fault));
    }
    hub_fault(alloc, parts, resources, numbers, flat)
}

/// Returns the names of the resources `numbers`.
fn names_of(alloc: Global, flat: &Flat, numbers: &[u32]) -> Result<Names, AllocError>
    ensures { IfOk result (λ names. names ≡ spec.names_of flat.now numbers.now) }
{
    let mut names = Vec::new(alloc);
    for number in numbers {
        names.push(name_of(alloc, flat, *number)?)?;
    }
    Ok(Names::new(names))
}
