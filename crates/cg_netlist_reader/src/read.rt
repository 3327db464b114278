//! Reading netlists from text.
ghost use Rattle.std.specs.Prelude.{◌≡◌, ◌≢◌, All, IfOk, IfErr};
ghost use Rattle.cg_verilog.specs.Module as texts;
ghost use Rattle.cg_verilog.specs.Read as modules;
ghost use Rattle.cg_netlist.specs.Netlist as netlists;
ghost use Rattle.cg_netlist.specs.Graph.{IsNetGraph};
ghost use Rattle.cg_netlist.specs.Text.{module_of};
ghost use Rattle.cg_netlist_reader.specs.declared.fault.VerilogFault as faults;
ghost use Rattle.cg_netlist_reader.specs.Wrong.{IsBad, IsWrong};
ghost use Rattle.cg_netlist_reader.specs.Reading as spec;
ghost use Rattle.cg_verilog.specs.Printed as printed;

use crate::fault::VerilogFault;
use crate::forming::unknown_cell;
use crate::joining::check_nets;
use crate::taken::{cells_of, nets_of};
use cg_netlist::{Cell, Net, NetGraph};
use cg_verilog::{Module, ModuleFault, read_module};
use std::alloc::Global;

/// Returns the netlist that `bytes` encode.
#[tactic(auto, using(crate::proofs::Answered::only_of, crate::proofs::Answered::printed_spells))]
pub fn read_verilog(alloc: Global, bytes: &[u8]) -> Result<NetGraph, VerilogFault>
    // The bytes encode the netlist that is read.
    ensures found { IfOk result (λ graph. spec.Spells bytes.now graph) }
    // A netlist that the bytes encode is read, unless memory runs out.
    ensures only { (graph : netlists.NetGraph) → IsNetGraph graph → spec.Spells bytes.now graph → spec.Gives graph result }
    // A printed netlist is read likewise.
    ensures printed { (graph : netlists.NetGraph) → IsNetGraph graph → bytes.now ≡ printed.module_text (module_of graph) → spec.Gives graph result }
    // The fault is one that the bytes have.
    ensures fault { IfErr result (λ e. spec.IsFault e bytes.now) }
    // A fault that applies is the result, unless memory runs out.
    ensures exact { (e : faults.VerilogFault) → e ≢ VerilogFault.Memory → spec.IsFault e bytes.now → spec.GivesFault e result }
    // The result is an answer.
    ensures answer { spec.IsAnswer bytes.now result }
{
    read(alloc, bytes)
}

/// Returns the netlist that `bytes` encode, without the laws that follow from its clauses.
#[tactic(auto, using(crate::proofs::Faults::read_found, crate::proofs::Faults::read_fault))]
fn read(alloc: Global, bytes: &[u8]) -> Result<NetGraph, VerilogFault>
    // The bytes encode the netlist that is read.
    ensures found { IfOk result (λ graph. spec.Spells bytes.now graph) }
    ensures valid { IfOk result IsNetGraph }
    // The fault is one that the bytes have.
    ensures fault { IfErr result (λ e. spec.IsFault e bytes.now) }
{
    match read_module(alloc, bytes) {
        Ok(module) => graph_of(alloc, &module),
        Err(ModuleFault::Memory) => Err(VerilogFault::Memory),
        Err(ModuleFault::Text(place)) => Err(VerilogFault::Text(place)),
    }
}

/// Returns the netlist of the module `text`.
#[tactic(auto, using(crate::proofs::Faults::graph_found, crate::proofs::Faults::graph_fault))]
fn graph_of(alloc: Global, text: &Module<'_>) -> Result<NetGraph, VerilogFault>
    requires { texts.IsModule (modules.module_of text.now) }
    ensures found { IfOk result (λ graph. module_of graph ≡ modules.module_of text.now) }
    ensures valid { IfOk result IsNetGraph }
    ensures fault { IfErr result (λ e. IsWrong e (modules.module_of text.now)) }
{
    if let Some(number) = unknown_cell(&text.cells) {
        return Err(VerilogFault::UnknownCell(number));
    }
    let nets = nets_of(alloc, &text.wires)?;
    let cells = cells_of(alloc, &text.cells)?;
    checked(alloc, nets, cells)
}

/// Returns the netlist of `nets` and `cells`, where each pin's net is declared once.
#[tactic(auto, using(crate::proofs::Checked::graph_of, crate::proofs::Faults::net_bad))]
fn checked(alloc: Global, nets: Vec<Net>, cells: Vec<Cell>) -> Result<NetGraph, VerilogFault>
    requires text { texts.IsModule (module_of (record { nets = nets.items; cells = cells.items })) }
    requires formed { All spec.IsFormed cells.items }
    ensures found { IfOk result (λ graph. graph ≡ record { nets = nets.items; cells = cells.items }) }
    ensures valid { IfOk result IsNetGraph }
    ensures fault { IfErr result (λ e. IsBad e (record { nets = nets.items; cells = cells.items })) }
{
    if let Err(fault) = check_nets(alloc, &nets, &cells) {
        return Err(fault);
    }
    Ok(NetGraph::new(nets, cells))
}
