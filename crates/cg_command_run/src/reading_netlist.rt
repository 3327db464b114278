//! Reads the file of a netlist. A file without a valid netlist ends the call with the outcome that refuses it.
ghost use Rattle.std.specs.Prelude.{◌≡◌, IfOk, IfErr, OnOk, Ok};
ghost use Rattle.cg_cause.specs.Allowed.{EndsBy};
ghost use Rattle.cg_effects.specs.Outcome.{file_of};
ghost use Rattle.cg_netlist_reader.specs.Reading as netlists;
ghost use Rattle.cg_gates.specs.Accepts.{IsAccepted};
ghost use Rattle.cg_command_run.specs.Refused.{RefusesNetlist, RefusesGates};

use cg_arch::Arch;
use cg_cause::{Cause, Stop};
use cg_effects::File;
use cg_gates::GateFault;
use cg_gates_run::Gates;
use cg_netlist::NetGraph;
use cg_netlist_reader::{VerilogFault, read_verilog};
use std::alloc::Global;

/// Reads the netlist in `file`. A fault in it ends the call with status 3.
pub(crate) fn netlist_in(alloc: Global, file: &File) -> Result<NetGraph, Stop>
    ensures given { IfOk result (λ graph. netlists.IsAnswer (file_of file.now).bytes (Ok graph)) }
    ensures refused { IfErr result (EndsBy (RefusesNetlist (file_of file.now))) }
{
    match read_verilog(alloc, file.bytes.as_slice()) {
        Ok(graph) => Ok(graph),
        Err(VerilogFault::Memory) => Err(Stop::Memory),
        Err(fault) => Err(Stop::refused(alloc, file, Cause::Netlist(fault))),
    }
}

/// Interprets `graph`, which was read from `file`, over `arch`. A fault in it ends the call with status 3.
pub(crate) fn gates_in<'a>(
    alloc: Global,
    arch: &'a Arch,
    graph: &'a NetGraph,
    file: &File,
) -> Result<Gates<'a>, Stop>
    ensures found { IfOk result (λ gates. gates ≡ record { arch = arch.now; netlist = graph.now }) }
    ensures accepted { OnOk result (IsAccepted arch.now graph.now) }
    ensures refused { IfErr result (EndsBy (RefusesGates arch.now graph.now (file_of file.now).name)) }
{
    match Gates::build(alloc, arch, graph) {
        Ok(gates) => Ok(gates),
        Err(GateFault::Memory) => Err(Stop::Memory),
        Err(fault) => Err(Stop::refused(alloc, file, Cause::Gates(fault))),
    }
}
