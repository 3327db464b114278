//! `emit ARCH KERNEL MAPPING OUT`.
ghost use Rattle.std.specs.Prelude.{◌≡◌, IfOk};
ghost use Rattle.cg_model.specs.Mapping.{IsShaped};
ghost use Rattle.cg_cause.specs.Allowed.{Allows};
ghost use Rattle.cg_effects.specs.Outcome.{file_of};
ghost use Rattle.cg_check.specs.Rules.{violation};
ghost use Rattle.cg_command_judge.specs.Emit.{IsEmit, IsEmitted, IsEmittedBy, emit_report};

use crate::checking::illegal;
use cg_cause::Stop;
use cg_check::{Arch, CheckVerdict, Kernel, LegalMapping, Mapping, check as judge};
use cg_effects::{File, Outcome, Status};
use cg_emit::{emit as emit_bits, stages};
use cg_inputs::{Sources, sources_in};
use std::alloc::{AllocError, Global};

/// Returns the outcome of `emit`: the bits of the mapping in the file `mapping`, of the kernel in `kernel` to the
/// architecture in `arch`, to be written under the name `out`.
pub fn emit(
    alloc: Global,
    arch: &File,
    kernel: &File,
    mapping: &File,
    out: &str,
) -> Result<Outcome, Stop>
    ensures { Allows (IsEmit (file_of arch.now) (file_of kernel.now) (file_of mapping.now) out.now) result }
{
    let sources = sources_in(alloc, arch, kernel, mapping)?;
    let Sources {
        arch,
        kernel,
        mapping,
    } = sources;
    emitted(alloc, &arch, &kernel, mapping, out)
}

/// Returns the outcome for `mapping`: its bits where it is legal, and otherwise the rule that it violates.
fn emitted(
    alloc: Global,
    array: &Arch,
    kernel: &Kernel,
    mapping: Mapping,
    out: &str,
) -> Result<Outcome, Stop>
    requires { IsShaped kernel.now mapping }
    ensures { Allows (IsEmittedBy out.now (record { arch = array.now; kernel = kernel.now; mapping = mapping })
        (violation array.now kernel.now mapping)) result }
{
    match judge(alloc, array, kernel, mapping)? {
        CheckVerdict::Legal(legal) => written(alloc, &legal, out),
        CheckVerdict::Illegal { rule, place, .. } => illegal(alloc, array, kernel, rule, place),
    }
}

/// Returns the outcome where the mapping is legal: its bits, to be written under `out`, and the report on them.
fn written(alloc: Global, legal: &LegalMapping<'_>, out: &str) -> Result<Outcome, Stop>
    ensures { Allows (IsEmitted out.now legal.now) result }
{
    let report = emit_report(alloc, legal)?;
    let bits = emit_bits(alloc, legal)?;
    Ok(Outcome::with_file(alloc, Status::Done, report, out, bits)?)
}

/// Returns the report on the configuration of `legal`: its interval, in cycles, and its number of stages.
pub fn emit_report(alloc: Global, legal: &LegalMapping<'_>) -> Result<Vec<u8>, AllocError>
    ensures { IfOk result (λ v. v.items ≡ emit_report legal.now) }
{
    let ii = legal.mapping().ii();
    let stages = stages(legal);
    let report = format!(in alloc; "ii {ii}\nstages {stages}\n")?;
    Ok(report.into_bytes())
}
