//! The faults A7 and A8: of units, and of the number of contexts.
ghost use Rattle.std.specs.Prelude.{◌≡◌, ◌&&◌, nat_lt};
ghost use Rattle.std.specs.List.{list_any};
ghost use Rattle.cg_word.specs.Word.{arity, all_ops};
ghost use Rattle.cg_word.specs.Sets.{among};
ghost use Rattle.cg_model.specs.First.{first_from};
ghost use Rattle.cg_parts.specs.Rules as spec;

use crate::fault::ArchFault;
use crate::parts::{Element, Parts};
use cg_model::MOST_CONTEXTS;
use cg_word::{Op, OpSet};

/// Returns A7 at its first place, or else A8.
#[tactic(auto, unfolding(crate::specs::Rules::unit_or_contexts_fault))]
pub fn unit_or_contexts_fault(parts: &Parts) -> Option<ArchFault>
    ensures { result ≡ spec.unit_or_contexts_fault parts.now }
{
    match first_bad_unit(parts.elements.as_slice()) {
        Some(number) => Some(ArchFault::BadUnit(number)),
        None => if parts.contexts < 1 || parts.contexts > MOST_CONTEXTS {
            Some(ArchFault::BadContexts(parts.contexts))
        } else {
            None
        },
    }
}

fn first_bad_unit(elements: &[Element]) -> Option<usize>
    ensures { result ≡ first_from (λ number e. spec.is_bad_unit e) 0 elements.now }
{
    for (number, element) in elements.iter().enumerate() {
        if is_bad_unit(element) {
            return Some(number);
        }
    }
    None
}

fn is_bad_unit(element: &Element) -> bool
    ensures { result ≡ spec.is_bad_unit element.now }
{
    match element {
        Element::Wire { .. } | Element::Register { .. } => false,
        Element::Unit {
            ops,
            latency,
            ports,
            ..
        } => {
            let ports = ports.as_slice().len();
            *latency < 1
                || *latency > 4
                || ports > 3
                || !has_some_op(*ops)
                || takes_more(*ops, ports)
        }
    }
}

/// Returns whether `ops` has an operation.
fn has_some_op(ops: OpSet) -> bool
    ensures { result ≡ list_any (among ops) all_ops }
{
    Op::ALL.iter().any(|op| ops.has(*op))
}

/// Returns whether an operation of `ops` takes more than `ports` arguments.
fn takes_more(ops: OpSet, ports: usize) -> bool
    ensures { result ≡ list_any (λ op. among ops op && nat_lt ports (arity op)) all_ops }
{
    Op::ALL
        .iter()
        .any(|op| ops.has(*op) && ports < op.arity() as usize)
}
