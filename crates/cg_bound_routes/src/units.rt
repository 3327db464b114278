//! The ways between units that offer two operations.
ghost use Rattle.std.specs.Prelude.{◌≡◌, ◌<◌, if◌then◌else◌, IfOk, None, length, slice_get};
ghost use Rattle.cg_word.specs.Sets.{among};
ghost use Rattle.cg_bound_routes.specs.Search.{AreBelow, IsFound};
ghost use Rattle.cg_bound_routes.specs.Question.{IsAnswer, IsFloor, AreOuts, ArePorts, IsAskedWayTo, lesser};

use crate::question::{Ends, Question};
use crate::search::least;
use cg_arch::{Arch, Op, Unit};
use std::alloc::{AllocError, Global};

/// Returns the outs of the units that offer `op` and fit the ends with unit number `place`.
fn outs(
    alloc: Global,
    arch: &Arch,
    op: Op,
    ends: Ends,
    place: usize,
) -> Result<Vec<u32>, AllocError>
    ensures known { IfOk result (λ list. AreBelow (length arch.now.resources) list.items) }
    ensures exact { IfOk result (λ list. AreOuts arch.now op ends place (length arch.now.units) list.items) }
{
    let units = arch.units();
    let mut outs = Vec::new(alloc);
    for source in 0..units.len() {
        if units[source].ops.has(op) && ends.fit(source, place) {
            outs.push(units[source].out)?;
        }
    }
    Ok(outs)
}

/// Returns port number `arg` of a unit that offers `op`; `None` if it doesn't, or has no such port.
fn port_for(unit: &Unit, op: Op, arg: usize) -> Option<u32>
    ensures { result ≡ (if among unit.now.ops op then slice_get unit.now.ports arg else None) }
{
    if unit.ops.has(op) {
        unit.ports.as_slice().get(arg).copied()
    } else {
        None
    }
}

/// Returns port number `arg` of each unit that offers `op`.
fn ports(alloc: Global, arch: &Arch, op: Op, arg: usize) -> Result<Vec<u32>, AllocError>
    ensures known { IfOk result (λ list. AreBelow (length arch.now.resources) list.items) }
    ensures exact { IfOk result (λ list. ArePorts arch.now op arg (length arch.now.units) list.items) }
{
    let units = arch.units();
    let mut ports = Vec::new(alloc);
    for place in 0..units.len() {
        if let Some(port) = port_for(&units[place], op, arg) {
            ports.push(port)?;
        }
    }
    Ok(ports)
}

/// Returns the lesser of two numbers if both exist, else the one that exists.
fn lesser(a: Option<u32>, b: Option<u32>) -> Option<u32>
    ensures { result ≡ lesser a b }
{
    match (a, b) {
        (None, _) => b,
        (Some(_), None) => a,
        (Some(x), Some(y)) => { if y < x { b } else { a } }
    }
}

/// Finds the least number of registers on a way for `question`, without a condition on the units at its ends.
fn at_any(alloc: Global, arch: &Arch, question: Question) -> Result<Option<u32>, AllocError>
    ensures floor { IfOk result (IsFloor arch.now question) }
    ensures answer { question.ends ≡ Ends.Any → IfOk result (IsAnswer arch.now question) }
{
    // With `Ends::Any` no unit is left out, whichever the other unit is.
    let outs = outs(alloc, arch, question.from, Ends::Any, 0)?;
    let ports = ports(alloc, arch, question.to, question.arg)?;
    least(alloc, arch, &outs, &ports)
}

/// Finds the least number of registers on a way for `question` to the port of unit number `place`.
fn at_unit(
    alloc: Global,
    arch: &Arch,
    question: Question,
    place: usize,
) -> Result<Option<u32>, AllocError>
    requires { place < length arch.now.units }
    ensures { IfOk result (IsFound arch.now (IsAskedWayTo arch.now question place)) }
{
    match port_for(&arch.units()[place], question.to, question.arg) {
        Some(port) => {
            let outs = outs(alloc, arch, question.from, question.ends, place)?;
            least(alloc, arch, &outs, &[port])
        }
        None => Ok(None),
    }
}

/// Answers `question` unit by unit, until an answer is `floor`, below which no answer is possible.
fn at_units(
    alloc: Global,
    arch: &Arch,
    question: Question,
    floor: Option<u32>,
) -> Result<Option<u32>, AllocError>
    requires { IsFloor arch.now question floor }
    ensures { IfOk result (IsAnswer arch.now question) }
{
    let mut best = None;
    for place in 0..arch.units().len() {
        if best == floor {
            return Ok(best);
        }
        best = lesser(best, at_unit(alloc, arch, question, place)?);
    }
    Ok(best)
}

/// Answers `question`.
pub(crate) fn work_out(
    alloc: Global,
    arch: &Arch,
    question: Question,
) -> Result<Option<u32>, AllocError>
    ensures { IfOk result (IsAnswer arch.now question) }
{
    let floor = at_any(alloc, arch, question)?;
    if question.ends == Ends::Any {
        return Ok(floor);
    }
    at_units(alloc, arch, question, floor)
}
