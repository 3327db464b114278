//! What is wrong in a refused mapping file.

use crate::ends::Uses;
use crate::known::Known;
use crate::missing::note_missing;
use crate::other::note_other;
use crate::places::note_shapes;
use cg_arch::Arch;
use cg_json::json_value;
use cg_kernel::read_kernel;
use cg_lints::{Rule, Slips, find_in_file, find_item};
use cg_mapping::{MappingFault, MappingPlace};
use cg_model::Kernel;
use cg_spans::{Finding, Findings, MOST_PARSED};
use cg_tiles::read_arch;
use serde_json::Value;
use std::alloc::{AllocError, Global};

/// The files of a call in which a mapping is refused.
#[derive(Clone, Copy, Drop)]
pub struct MappingCall<'a> {
    /// The architecture's file.
    pub arch: &'a [u8],
    /// The kernel's file.
    pub kernel: &'a [u8],
    /// The name of the kernel's file.
    pub kernel_name: &'a str,
    /// The mapping's file.
    pub mapping: &'a [u8],
}

impl MappingCall<'_> {
    /// Checks whether the files are short enough to be read again for a note.
    fn is_short(self) -> bool {
        self.arch.len() <= MOST_PARSED
            && self.kernel.len() <= MOST_PARSED
            && self.mapping.len() <= MOST_PARSED
    }
}

/// Returns what is wrong in the mapping's file of `call`, which is refused for `fault`: each place at which its rule is
/// broken, and then further faults. Returns nothing for a text that isn't JSON.
pub fn mapping_findings(
    alloc: Global,
    call: MappingCall<'_>,
    fault: &MappingFault,
) -> Result<Findings, AllocError> {
    let (rule, place) = match fault {
        MappingFault::Memory | MappingFault::NotJson => return Ok(Findings::new(alloc)),
        MappingFault::WrongShape(place) => (Rule::WrongShape, Some(*place)),
        MappingFault::UnknownKey(place) => (Rule::UnknownKey, Some(*place)),
        MappingFault::UnknownName(place) => (Rule::UnknownName, Some(*place)),
        MappingFault::TooLarge(place) => (Rule::TooLarge, Some(*place)),
        MappingFault::Incomplete(_) => (Rule::Incomplete, None),
    };
    let mut findings = mapping_slips(alloc, call)?.findings(call.mapping, rule)?;
    if findings.own.is_empty() {
        findings.add(find_at(alloc, call.mapping, place, sentence_of(rule))?)?;
    }
    Ok(findings)
}

/// Returns the general sentence on a mapping that breaks `rule`.
fn sentence_of(rule: Rule) -> &'static str {
    match rule {
        Rule::WrongShape => "a key is missing, or a value is of another kind or out of its range",
        Rule::UnknownKey => "a key isn't one of the format's",
        Rule::UnknownName =>
            "there is no node, unit, resource or argument with this name or number",
        Rule::TooLarge => "a number or the length of the path is above its limit",
        _ => "it has no place or route, or more than one",
    }
}

/// Returns the finding with `sentence` at `place` of the mapping file `bytes`; on the file if there is no place.
fn find_at(
    alloc: Global,
    bytes: &[u8],
    place: Option<MappingPlace>,
    sentence: &str,
) -> Result<Option<Finding>, AllocError> {
    match place {
        None => Ok(Some(Finding::on_file(alloc, sentence)?)),
        Some(MappingPlace::File) => Ok(Some(find_in_file(alloc, bytes, "mapping", sentence)?)),
        Some(MappingPlace::Place(place)) => find_item(alloc, bytes, "places", place, sentence),
        Some(MappingPlace::Route(route)) => find_item(alloc, bytes, "routes", route, sentence),
    }
}

/// Returns the faults in the mapping's file of `call`, a JSON text, except those of its top-level keys: for each kind of
/// fault, the places in the order of the file. Returns none if the files are long.
fn mapping_slips(alloc: Global, call: MappingCall<'_>) -> Result<Slips, AllocError> {
    let mut slips = Slips::new(alloc);
    if !call.is_short() {
        return Ok(slips);
    }
    let Ok(value) = json_value(alloc, call.mapping) else {
        return Ok(slips);
    };
    note_shapes(&mut slips, &value)?;
    let Ok(arch) = read_arch(alloc, call.arch) else {
        return Ok(slips);
    };
    match read_kernel(alloc, call.kernel) {
        Ok(kernel) => wrong_uses(slips, &arch, &kernel, call.kernel_name, &value),
        Err(_) => Ok(slips),
    }
}

/// Returns `slips`, and the faults in `value`, a mapping file, by `arch` and `kernel`, which the file `kernel_name`
/// contains: unknown names, and what is missing.
fn wrong_uses(
    mut slips: Slips,
    arch: &Arch,
    kernel: &Kernel,
    kernel_name: &str,
    value: &Value,
) -> Result<Slips, AllocError> {
    let mut known = Known::new(slips.alloc, arch, kernel)?;
    known.is_other = note_other(&mut slips, &known, kernel_name, value)?;
    if !known.is_other {
        return with_missing(wrong_names(slips, known, value)?, kernel, value);
    }
    wrong_names(slips, known, value)
}

/// Returns `slips`, and the names in `value`, a mapping file, that aren't `known`.
fn wrong_names<'a>(slips: Slips, known: Known<'a>, value: &'a Value) -> Result<Slips, AllocError> {
    let mut uses = Uses {
        slips,
        known,
        value,
    };
    uses.note()?;
    Ok(uses.slips)
}

/// Returns `slips`, and the nodes and edges of `kernel` that lack a place or a route in `value`, a mapping file.
fn with_missing(mut slips: Slips, kernel: &Kernel, value: &Value) -> Result<Slips, AllocError> {
    note_missing(&mut slips, kernel, value)?;
    Ok(slips)
}
