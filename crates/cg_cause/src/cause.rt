//! The fault for which a file is refused.
ghost use Rattle.std.specs.Prelude.{◌≡◌, IfOk, string_bytes};
ghost use Rattle.cg_cause.specs.Cause as spec;
ghost use Rattle.cg_cause.specs.Cause.{cause_text};

use cg_bits::{BitsFault, bits_fault_text, first_fault_text};
use cg_datapath::{SimFault, sim_fault_text};
use cg_depend::{DependFault, depend_fault_text};
use cg_gates::{GateFault, gate_fault_text};
use cg_grid::{TilesFault, tiles_fault_text};
use cg_image_text::{TextFault, text_fault_text};
use cg_kernel::{KernelFault, kernel_fault_text};
use cg_loop_reader::{LoopFault, loop_fault_text};
use cg_mapping::{MappingFault, mapping_fault_text};
use cg_netlist_reader::{VerilogFault, verilog_fault_text};
use cg_pad::{ImageFault, image_fault_text};
use std::alloc::{AllocError, Global};

/// The fault for which a file is refused, by what was read or begun.
#[derive(Drop)]
pub enum Cause {
    /// The file contains no valid architecture.
    Arch(TilesFault),
    /// The file contains no valid kernel.
    Kernel(KernelFault),
    /// The file contains no mapping of the kernel to the architecture.
    Mapping(MappingFault),
    /// The file contains no valid configuration of the architecture.
    Bits(BitsFault),
    /// The file contains no valid configuration of the architecture in the first format.
    FirstBits(BitsFault),
    /// The file contains no valid image.
    Image(ImageFault),
    /// The file contains no text of an image.
    ImageText(TextFault),
    /// The file contains no loop body, or its loop has no kernel.
    Loop(LoopFault),
    /// The file contains no valid netlist.
    Netlist(VerilogFault),
    /// The netlist in the file has no meaning over the architecture.
    Gates(GateFault),
    /// The kernel in the file needs too many order edges.
    Depend(DependFault),
    /// The array can't be run from the image in the file.
    Run(SimFault),
    /// The architecture in the file has fewer contexts than the interval that is asked for has cycles.
    IntervalAboveContexts {
        /// The number of contexts.
        contexts: u32,
    },
}

impl Cause {
    /// Returns the code, the name and the place of the fault, as text.
    pub fn text(&self, alloc: Global) -> Result<String, AllocError>
        ensures { IfOk result (λ s. string_bytes s ≡ cause_text self.now) }
    {
        match self {
            Cause::Arch(fault) => tiles_fault_text(alloc, fault),
            Cause::Kernel(fault) => kernel_fault_text(alloc, fault),
            Cause::Mapping(fault) => mapping_fault_text(alloc, fault),
            Cause::Bits(fault) => bits_fault_text(alloc, *fault),
            Cause::FirstBits(fault) => first_fault_text(alloc, *fault),
            Cause::Image(fault) => image_fault_text(alloc, *fault),
            Cause::ImageText(fault) => text_fault_text(alloc, *fault),
            Cause::Loop(fault) => loop_fault_text(alloc, fault),
            Cause::Netlist(fault) => verilog_fault_text(alloc, fault),
            Cause::Gates(fault) => gate_fault_text(alloc, fault),
            Cause::Depend(fault) => depend_fault_text(alloc, *fault),
            Cause::Run(fault) => sim_fault_text(alloc, *fault),
            Cause::IntervalAboveContexts { contexts } => interval_fault_text(alloc, *contexts),
        }
    }
}

/// Returns the text of the fault of an interval above `contexts`, the number of contexts.
fn interval_fault_text(alloc: Global, contexts: u32) -> Result<String, AllocError>
    ensures { IfOk result (λ s. string_bytes s ≡ spec.interval_fault_text contexts) }
{
    format!(in alloc; "G2 IntervalAboveContexts contexts {contexts}")
}
