//! Reads a mapping from bytes.
ghost use Rattle.std.specs.Prelude.{◌≡◌, IfOk};
ghost use Rattle.serde_json.specs.View.{view};
ghost use Rattle.cg_model.specs.Answers.{Gives};
ghost use Rattle.cg_model.specs.Kernel.{IsKernel};
ghost use Rattle.cg_model.specs.Mapping.{IsShaped};
ghost use Rattle.cg_mapping.specs.Answer as spec;
ghost use Rattle.cg_mapping.specs.Ends.{AreShort};
ghost use Rattle.cg_mapping.specs.Names as names;
ghost use Rattle.cg_mapping.specs.Rules as rules;
ghost use Rattle.cg_mapping.specs.Sound.{NamesParts, IsWithinLimits};
ghost use Rattle.cg_mapping.specs.Written as written_form;

use crate::complete::mapping_of;
use crate::directory::Directory;
use crate::fault::MappingFault;
use crate::named::NamedMapping;
use crate::names::named_of;
use crate::reading::written_of;
use crate::rules::{too_large, unknown_key};
use crate::written::WrittenMapping;
use cg_arch::Arch;
use cg_json::{JsonFault, json_value};
use cg_model::{Kernel, Mapping};
use cg_reading::Misfit;
use serde_json::Value;
use std::alloc::Global;

/// Returns the mapping of the kernel on the architecture that the bytes describe, with its places and routes in order
/// whatever their order in the file; or the lowest fault that applies, at its first place. The mapping need not be
/// legal.
pub fn read_mapping(
    alloc: Global,
    arch: &Arch,
    kernel: &Kernel,
    bytes: &[u8],
) -> Result<Mapping, MappingFault>
    ensures answer { Gives MappingFault.Memory result (spec.answer_of arch.now kernel.now bytes.now) }
    ensures shaped { IfOk result (λ mapping. IsShaped kernel.now mapping) }
    ensures named { IfOk result (λ mapping. NamesParts arch.now mapping) }
    ensures within { IfOk result IsWithinLimits }
{
    answer(alloc, arch, kernel, bytes)
}

fn answer(
    alloc: Global,
    arch: &Arch,
    kernel: &Kernel,
    bytes: &[u8],
) -> Result<Mapping, MappingFault>
    ensures { Gives MappingFault.Memory result (spec.answer_of arch.now kernel.now bytes.now) }
{
    match json_value(alloc, bytes) {
        Ok(value) => mapping_in(alloc, arch, kernel, &value),
        Err(JsonFault::NotJson) => Err(MappingFault::NotJson),
        Err(JsonFault::Memory) => Err(MappingFault::Memory),
    }
}

fn mapping_in(
    alloc: Global,
    arch: &Arch,
    kernel: &Kernel,
    value: &Value,
) -> Result<Mapping, MappingFault>
    ensures { Gives MappingFault.Memory result (spec.answer_written arch.now kernel.now (written_form.written_of (view value.now))) }
{
    match written_of(alloc, value) {
        Ok(written) => known(alloc, arch, kernel, &written),
        Err(Misfit::WrongShape(place)) => Err(MappingFault::WrongShape(place)),
        Err(Misfit::Memory) => Err(MappingFault::Memory),
    }
}

/// Returns the result of the checks from P3 on.
fn known(
    alloc: Global,
    arch: &Arch,
    kernel: &Kernel,
    written: &WrittenMapping,
) -> Result<Mapping, MappingFault>
    ensures { Gives MappingFault.Memory result (spec.answer_known arch.now kernel.now written.now (rules.unknown_key written.now)) }
{
    match unknown_key(written) {
        Some(place) => Err(MappingFault::UnknownKey(place)),
        None => looked_up(alloc, arch, kernel, written),
    }
}

/// Returns the result of the checks from P4 on.
fn looked_up(
    alloc: Global,
    arch: &Arch,
    kernel: &Kernel,
    written: &WrittenMapping,
) -> Result<Mapping, MappingFault>
    ensures { Gives MappingFault.Memory result (spec.answer_named kernel.now (names.named_of arch.now kernel.now written.now)) }
{
    let directory = Directory::of(alloc, arch, kernel)?;
    found_in(alloc, kernel, &directory, written)
}

fn found_in(
    alloc: Global,
    kernel: &Kernel,
    directory: &Directory,
    written: &WrittenMapping,
) -> Result<Mapping, MappingFault>
    requires kernel { directory.now.kernel ≡ kernel.now }
    requires valid { IsKernel kernel.now }
    ensures { Gives MappingFault.Memory result (spec.answer_named kernel.now (names.named_of directory.now.arch kernel.now written.now)) }
{
    match named_of(alloc, directory, written) {
        Ok(named) => within(alloc, kernel, &named),
        Err(Misfit::WrongShape(place)) => Err(MappingFault::UnknownName(place)),
        Err(Misfit::Memory) => Err(MappingFault::Memory),
    }
}

/// Returns the result of the checks from P5 on.
fn within(alloc: Global, kernel: &Kernel, named: &NamedMapping) -> Result<Mapping, MappingFault>
    requires { AreShort named.now.routes }
    ensures { Gives MappingFault.Memory result (spec.answer_within kernel.now named.now (rules.too_large named.now)) }
{
    if let Some(place) = too_large(named) {
        return Err(MappingFault::TooLarge(place));
    }
    mapping_of(alloc, kernel, named)
}
