//! `verilog ARCH OUT`.
ghost use Rattle.std.specs.Prelude.{◌≡◌, IfOk};
ghost use Rattle.cg_cause.specs.Allowed.{Allows};
ghost use Rattle.cg_effects.specs.Outcome.{file_of};
ghost use Rattle.cg_command_files.specs.Verilog.{IsVerilog, netlisted, verilog_report};

use cg_arch::Arch;
use cg_cause::Stop;
use cg_effects::{File, Outcome, Status};
use cg_inputs::arch_in;
use cg_netlist::{NetGraph, netlist, verilog as text_of};
use std::alloc::{AllocError, Global};

/// Returns the outcome of `verilog`: the netlist of the architecture in `file`, to be written under the name `out`.
pub fn verilog(alloc: Global, file: &File, out: &str) -> Result<Outcome, Stop>
    ensures { Allows (IsVerilog (file_of file.now) out.now) result }
{
    let arch = arch_in(alloc, file)?;
    netlisted(alloc, &arch, out)
}

/// Returns the outcome for `arch`: the text of its netlist, to be written under `out`, and the report on it.
fn netlisted(alloc: Global, arch: &Arch, out: &str) -> Result<Outcome, Stop>
    ensures { Allows (λ o. o ≡ netlisted arch.now out.now) result }
{
    let graph = netlist(alloc, arch)?;
    let report = verilog_report(alloc, &graph)?;
    let text = text_of(alloc, &graph)?;
    Ok(Outcome::with_file(alloc, Status::Done, report, out, text)?)
}

/// Returns the report on `graph`: the numbers of its nets and cells.
fn verilog_report(alloc: Global, graph: &NetGraph) -> Result<Vec<u8>, AllocError>
    ensures { IfOk result (λ v. v.items ≡ verilog_report graph.now) }
{
    let nets = graph.nets().len();
    let cells = graph.cells().len();
    let report = format!(in alloc; "nets {nets}\ncells {cells}\n")?;
    Ok(report.into_bytes())
}
