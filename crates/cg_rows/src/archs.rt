//! Checks beyond the reach of architecture files: names that don't begin with the letter of a cell, and the slot of an
//! architecture.

use cg_arch::{Arch, Name, Op, OpSet, flat_text};
use cg_model::Items;
use cg_parts::{ArchFault, Element, NamePlace, Names, Parts};
use cg_validate::validate;
use std::alloc::{AllocError, Global};

fn name(alloc: Global, text: &str) -> Result<Name, AllocError> {
    Ok(Name::new(String::from_str(alloc, text)?))
}

/// Returns the names in `text`, which are separated by blanks.
fn names(alloc: Global, text: &str) -> Result<Names, AllocError> {
    let mut names = Vec::new(alloc);
    for word in text.split(' ') {
        names.push(name(alloc, word)?)?;
    }
    Ok(Names::new(names))
}

/// Returns a register named `register`, driven by `drivers`, and a unit of two ports, each driven by `u_o` and `r`.
fn one_unit(alloc: Global, register: &str, drivers: &str) -> Result<Parts, AllocError> {
    let ports = vec![in alloc; names(alloc, "u_o r")?, names(alloc, "u_o r")?]?;
    let elements = vec![in alloc;
        Element::Register {
            name: name(alloc, register)?,
            drivers: names(alloc, drivers)?,
        },
        Element::Unit {
            name: name(alloc, "u")?,
            ops: OpSet::empty().with(Op::Output).with(Op::Iter).with(Op::Add),
            latency: 1,
            ports: Items::new(ports),
        },
    ]?;
    Ok(Parts {
        name: name(alloc, "t1")?,
        contexts: 4,
        memory: 16,
        elements: Items::new(elements),
        hub: Names::new(Vec::new(alloc)),
    })
}

/// Checks whether the flat text, the length of a slot and the order of evaluation of `arch` are those of one unit: the
/// text is `wanted`, and a slot has three selects of 2 bits and a unit of 6 + 16 + 4 + 32 + 2 * 132 bits.
pub(crate) fn text_and_slot_of_one_unit(
    alloc: Global,
    arch: &Arch,
    wanted: &[u8],
) -> Result<bool, AllocError> {
    let text = flat_text(alloc, arch)?;
    Ok(text.as_slice() == wanted && arch.slot_bits() == 328 && arch.order().len() == 4)
}

/// Checks whether a register named `register` and driven by `drivers` is refused for its name.
fn is_bad_name(alloc: Global, register: &str, drivers: &str) -> Result<bool, AllocError> {
    let fault = validate(alloc, &one_unit(alloc, register, drivers)?).err();
    Ok(matches!(fault, Some(ArchFault::BadName(NamePlace::Element(0)))))
}

/// Checks whether names that can't occur in an architecture file are refused.
pub(crate) fn names_that_no_file_gives(alloc: Global) -> Result<bool, AllocError> {
    let empty = is_bad_name(alloc, "", "u_o")?;
    let digit = is_bad_name(alloc, "9r", "u_o")?;
    let fault = validate(alloc, &one_unit(alloc, "r", "u_o ")?).err();
    Ok(empty && digit && matches!(fault, Some(ArchFault::UnknownDriver(_))))
}
