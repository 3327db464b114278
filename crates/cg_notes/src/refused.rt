//! Notes on refused files.

use crate::given::{arch_of, kernel_of, refused_file};
use cg_bits::BitsFault;
use cg_cause::Cause;
use cg_command::Command;
use cg_datapath::SimFault;
use cg_depend::DependFault;
use cg_effects::File;
use cg_grid::TilesFault;
use cg_kernel::KernelFault;
use cg_mapping::MappingFault;
use cg_notes_arch::arch_findings;
use cg_notes_kernel::{MappingCall, kernel_findings, mapping_findings};
use cg_notes_runs::{BitsCall, find_in_bits, find_in_image, find_in_text};
use cg_notes_texts::{find_in_gates, find_in_json, find_in_loop, find_in_netlist, find_in_toml};
use cg_spans::{Finding, Findings};
use std::alloc::{AllocError, Global};

/// Adds to `notes` what is wrong in the file `name` of `command`, which is refused for `cause`. Adds nothing if a line
/// feed in its name would break the lines.
pub(crate) fn add_refused(
    alloc: Global,
    command: &Command<&File, &str>,
    name: &str,
    cause: &Cause,
    notes: &mut Vec<String>,
) -> Result<(), AllocError> {
    match refused_file(command, cause) {
        Some(file) if !name.contains('\n') => {
            let findings = findings_of(alloc, command, file.bytes.as_slice(), cause)?;
            findings.note(alloc, name, notes)
        }
        _ => Ok(()),
    }
}

/// Returns what is wrong in `bytes`, a file of `command` that is refused for `cause`.
fn findings_of(
    alloc: Global,
    command: &Command<&File, &str>,
    bytes: &[u8],
    cause: &Cause,
) -> Result<Findings, AllocError> {
    match cause {
        Cause::Arch(TilesFault::NotToml) => only(alloc, find_in_toml(alloc, bytes)?),
        Cause::Arch(fault) => arch_findings(alloc, bytes, fault),
        Cause::Kernel(KernelFault::NotJson) => only(alloc, find_in_json(alloc, bytes, "kernel")?),
        Cause::Kernel(fault) => kernel_findings(alloc, bytes, fault),
        Cause::Mapping(MappingFault::NotJson) => {
            only(alloc, find_in_json(alloc, bytes, "mapping")?)
        }
        Cause::Mapping(fault) => findings_in_mapping(alloc, command, bytes, fault),
        _ => only(alloc, find_in_other(alloc, command, bytes, cause)?),
    }
}

/// Returns `finding` alone, if there is one.
fn only(alloc: Global, finding: Option<Finding>) -> Result<Findings, AllocError> {
    let mut findings = Findings::new(alloc);
    findings.add(finding)?;
    Ok(findings)
}

/// Returns what is wrong in `bytes`, the mapping of `command`, which is refused for `fault`.
fn findings_in_mapping(
    alloc: Global,
    command: &Command<&File, &str>,
    bytes: &[u8],
    fault: &MappingFault,
) -> Result<Findings, AllocError> {
    match (arch_of(command), kernel_of(command)) {
        (Some(arch), Some(kernel)) => {
            let call = MappingCall {
                arch: arch.bytes.as_slice(),
                kernel: kernel.bytes.as_slice(),
                kernel_name: kernel.name.as_str(),
                mapping: bytes,
            };
            mapping_findings(alloc, call, fault)
        }
        _ => Ok(Findings::new(alloc)),
    }
}

/// Returns what is wrong in `bytes`, a file of `command` that is refused for `cause` and is no architecture, kernel or
/// mapping.
fn find_in_other(
    alloc: Global,
    command: &Command<&File, &str>,
    bytes: &[u8],
    cause: &Cause,
) -> Result<Option<Finding>, AllocError> {
    match cause {
        Cause::Bits(fault) | Cause::FirstBits(fault) => {
            find_in_bits_of(alloc, command, bytes, *fault)
        }
        Cause::Image(fault) => Ok(Some(find_in_image(alloc, bytes, *fault)?)),
        Cause::ImageText(fault) => find_in_text(alloc, bytes, *fault),
        Cause::Loop(fault) => find_in_loop(alloc, bytes, fault),
        Cause::Netlist(fault) => find_in_netlist(alloc, bytes, fault),
        Cause::Gates(fault) => find_in_gates(alloc, bytes, fault),
        Cause::Depend(DependFault::TooManyEdges(count)) => {
            let text = format!(in alloc;
                "the kernel would have {count} order edges, but at most 4096 are allowed"
            )?;
            Ok(Some(Finding { place: None, text }))
        }
        Cause::Run(SimFault::ImageTooLarge(count)) => {
            let text = format!(in alloc;
                "memory words of the image: {count}, more than the architecture has by its key memory"
            )?;
            Ok(Some(Finding { place: None, text }))
        }
        Cause::IntervalAboveContexts { contexts } => {
            let text = format!(in alloc;
                "the interval given by --ii is greater than the number of contexts of the architecture, {contexts}"
            )?;
            Ok(Some(Finding { place: None, text }))
        }
        _ => Ok(None),
    }
}

/// Returns what is wrong with `bits`, those of `command`, which are refused for `fault`.
fn find_in_bits_of(
    alloc: Global,
    command: &Command<&File, &str>,
    bits: &[u8],
    fault: BitsFault,
) -> Result<Option<Finding>, AllocError> {
    let Some(arch) = arch_of(command) else {
        return Ok(None);
    };
    let call = BitsCall {
        arch: arch.bytes.as_slice(),
        bits,
        is_first: matches!(command, Command::Migrate { .. }),
    };
    Ok(Some(find_in_bits(alloc, call, fault)?))
}
