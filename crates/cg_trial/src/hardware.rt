//! The architecture of a trial.
ghost use Rattle.std.specs.Prelude.{◌≡◌, [], ◌++◌, IfOk, fold, map};
ghost use Rattle.std.specs.List.{range_with_len};
ghost use Rattle.cg_word.specs.Sets.{with_op};
ghost use Rattle.cg_model.specs.Array.{IsArch};
ghost use Rattle.cg_trial.specs.Trial as spec;

use cg_arch::{Arch, Name, Op, OpSet};
use cg_model::Items;
use cg_parts::{ArchFault, Element, Names, Parts};
use cg_validate::validate;
use std::alloc::{AllocError, Global};

/// The number of registers of the hub.
const REGISTERS: u32 = 96;

/// Returns the names of `count` registers.
fn register_names(alloc: Global, count: u32) -> Result<Vec<Name>, AllocError>
    ensures { IfOk result (λ list. list.items ≡ spec.register_names count) }
{
    let mut list = Vec::new(alloc);
    for number in 0..count {
        list.push(register_name(alloc, number)?)?;
    }
    Ok(list)
}

fn register_name(alloc: Global, number: u32) -> Result<Name, AllocError>
    ensures { IfOk result (λ name. name ≡ spec.register_name number) }
{
    Ok(Name::new(format!(in alloc; "h{number}")?))
}

/// Returns the names of the outs, followed by those of `count` registers.
fn all_names(alloc: Global, count: u32) -> Result<Vec<Name>, AllocError>
    ensures { IfOk result (λ list. list.items ≡ spec.out_names ++ spec.register_names count) }
{
    let mut list = vec![in alloc;
        Name::copy_of(alloc, "u0_o")?,
        Name::copy_of(alloc, "u1_o")?,
        Name::copy_of(alloc, "u2_o")?,
        Name::copy_of(alloc, "u3_o")?,
    ]?;
    for number in 0..count {
        list.push(register_name(alloc, number)?)?;
    }
    Ok(list)
}

/// Returns the set of the operations `ops`.
fn set_of(ops: &[Op]) -> OpSet
    ensures { result ≡ fold with_op [] ops.now }
{
    let mut set = OpSet::empty();
    for op in ops {
        set = set.with(*op);
    }
    set
}

/// Returns the set of the operations with codes 1 to 22.
fn unit_ops() -> OpSet
    ensures { result ≡ spec.unit_ops }
{
    set_of(&Op::ALL[..22])
}

fn register_part(alloc: Global, count: u32, number: u32) -> Result<Element, AllocError>
    ensures { IfOk result (λ part. part ≡ spec.register_part count number) }
{
    Ok(Element::Register {
        name: register_name(alloc, number)?,
        drivers: Names::new(all_names(alloc, count)?),
    })
}

fn unit_part(alloc: Global, count: u32, name: &str) -> Result<Element, AllocError>
    ensures { IfOk result (λ part. part ≡ spec.unit_part count name.now) }
{
    let ports = vec![in alloc;
        Names::new(register_names(alloc, count)?),
        Names::new(register_names(alloc, count)?),
        Names::new(register_names(alloc, count)?),
    ]?;
    Ok(Element::Unit {
        name: Name::copy_of(alloc, name)?,
        ops: unit_ops(),
        latency: 1,
        ports: Items::new(ports),
    })
}

/// Returns the parts of the architecture with `count` registers.
#[tactic(auto, unfolding(crate::specs::Trial::parts_with))]
fn parts_with(alloc: Global, count: u32) -> Result<Parts, AllocError>
    ensures { IfOk result (λ parts. parts ≡ spec.parts_with count) }
{
    let mut elements = register_parts(alloc, count)?;
    elements.push(unit_part(alloc, count, "u0")?)?;
    elements.push(unit_part(alloc, count, "u1")?)?;
    elements.push(unit_part(alloc, count, "u2")?)?;
    elements.push(unit_part(alloc, count, "u3")?)?;
    Ok(Parts {
        name: Name::copy_of(alloc, "trial")?,
        contexts: 64,
        memory: 256,
        elements: Items::new(elements),
        hub: Names::new(register_names(alloc, count)?),
    })
}

fn register_parts(alloc: Global, count: u32) -> Result<Vec<Element>, AllocError>
    ensures { IfOk result (λ list. list.items ≡ map (spec.register_part count) (range_with_len 0 count)) }
{
    let mut list = Vec::new(alloc);
    for number in 0..count {
        list.push(register_part(alloc, count, number)?)?;
    }
    Ok(list)
}

/// Returns the architecture of a trial.
#[tactic(auto, unfolding(crate::specs::Trial::trial_arch))]
pub(crate) fn trial_arch(alloc: Global) -> Result<Arch, AllocError>
    ensures arch { IfOk result (λ arch. arch ≡ spec.trial_arch) }
    ensures valid { IfOk result IsArch }
{
    match validate(alloc, &parts_with(alloc, REGISTERS)?) {
        Ok(arch) => Ok(arch),
        Err(fault) => match fault {
            ArchFault::Memory => Err(AllocError),
            _ => unreachable!(),
        },
    }
}
