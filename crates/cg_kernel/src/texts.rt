//! The texts of kernel faults in reports.
ghost use Rattle.std.specs.Prelude.{◌≡◌, IfOk, string_bytes};
ghost use Rattle.cg_kernel.specs.Texts.{kernel_fault_text, kernel_fault_name, kernel_fault_place, place_text};

use crate::fault::{KernelFault, KernelPlace};
use std::alloc::{AllocError, Global};

/// Returns code, name and place of `fault`, for example `K8 WrongOperandCount nodes 2`. Out of memory has none of them.
pub fn kernel_fault_text(alloc: Global, fault: &KernelFault) -> Result<String, AllocError>
    ensures { IfOk result (λ s. string_bytes s ≡ kernel_fault_text fault.now) }
{
    let name = fault_name(fault);
    let place = place_text(alloc, fault_place(fault))?;
    format!(in alloc; "{name} {place}")
}

fn place_text(alloc: Global, place: KernelPlace) -> Result<String, AllocError>
    ensures { IfOk result (λ s. string_bytes s ≡ place_text place) }
{
    match place {
        KernelPlace::File => String::from_str(alloc, "file"),
        KernelPlace::Node(node) => format!(in alloc; "nodes {node}"),
        KernelPlace::Order(edge) => format!(in alloc; "order {edge}"),
    }
}

fn fault_place(fault: &KernelFault) -> KernelPlace
    ensures { result ≡ kernel_fault_place fault.now }
{
    match fault {
        KernelFault::Memory | KernelFault::NotJson | KernelFault::TooLarge => KernelPlace::File,
        KernelFault::WrongShape(place)
        | KernelFault::UnknownKey(place)
        | KernelFault::BadName(place)
        | KernelFault::RepeatedName(place)
        | KernelFault::UnknownOp(place)
        | KernelFault::WrongOperandCount(place)
        | KernelFault::UnknownNode(place)
        | KernelFault::NoValue(place)
        | KernelFault::BackEdgeWithoutDistance(place)
        | KernelFault::BadDistance(place)
        | KernelFault::InitCount(place)
        | KernelFault::TwoConstants(place)
        | KernelFault::BadPort(place)
        | KernelFault::RepeatedOutputPort(place) => *place,
    }
}

fn fault_name(fault: &KernelFault) -> &'static str
    ensures { result.now ≡ kernel_fault_name fault.now }
{
    match fault {
        KernelFault::Memory => "",
        KernelFault::NotJson => "K1 NotJson",
        KernelFault::WrongShape(_) => "K2 WrongShape",
        KernelFault::UnknownKey(_) => "K3 UnknownKey",
        KernelFault::TooLarge => "K4 TooLarge",
        KernelFault::BadName(_) => "K5 BadName",
        KernelFault::RepeatedName(_) => "K6 RepeatedName",
        KernelFault::UnknownOp(_) => "K7 UnknownOp",
        KernelFault::WrongOperandCount(_) => "K8 WrongOperandCount",
        KernelFault::UnknownNode(_) => "K9 UnknownNode",
        KernelFault::NoValue(_) => "K10 NoValue",
        KernelFault::BackEdgeWithoutDistance(_) => "K11 BackEdgeWithoutDistance",
        KernelFault::BadDistance(_) => "K12 BadDistance",
        KernelFault::InitCount(_) => "K13 InitCount",
        KernelFault::TwoConstants(_) => "K14 TwoConstants",
        KernelFault::BadPort(_) => "K15 BadPort",
        KernelFault::RepeatedOutputPort(_) => "K16 RepeatedOutputPort",
    }
}
