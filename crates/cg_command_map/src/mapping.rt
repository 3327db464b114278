//! `map ARCH KERNEL OUT [--ii N] [--seed N] [--moves N] [--mapping FILE]`.
ghost use Rattle.std.specs.Prelude.{◌≡◌, false, IfOk};
ghost use Rattle.cg_cause.specs.Allowed.{Allows};
ghost use Rattle.cg_effects.specs.Outcome.{file_of, outcome_of};
ghost use Rattle.cg_model.specs.Array.{IsArch};
ghost use Rattle.cg_model.specs.Request.{IsInRange};
ghost use Rattle.cg_command_map.specs.Map.{IsMap, IsWalk, IsAnswerOf};
ghost use Rattle.cg_command_map.specs.Searches.{is_above, outputs_of};

use crate::finding::found;
use crate::refusing::{check_asked, impossible};
use crate::spending::{left_report, spent};
use cg_arch::Arch;
use cg_cause::Stop;
use cg_command::MapperCall;
use cg_diagnostics::Aside;
use cg_effects::{File, Outcome};
use cg_inputs::{arch_in, kernel_in};
use cg_intervals::Answer;
use cg_map::{Costs, map_answer};
use cg_model::Kernel;
use std::alloc::{AllocError, Global};

/// Searches by the walk for a mapping of the kernel in the file of `call` to the architecture in the other, and returns the
/// outcome. `aside` receives the progress.
pub fn map(
    alloc: Global,
    call: &MapperCall<&File, &str>,
    aside: &mut dyn Aside,
) -> Result<Outcome, Stop>
    requires { IsInRange call.now.request }
    ensures { Allows (IsMap call.now.request (file_of call.now.arch.now) (file_of call.now.kernel.now) (outputs_of call.now)) result }
{
    let arch = arch_in(alloc, call.arch)?;
    let kernel = kernel_in(alloc, call.kernel)?;
    check_asked(alloc, call.request, &arch, call.arch)?;
    let answer = map_answer(alloc, &arch, &kernel, call.request, aside)?;
    Ok(answered(alloc, call, &arch, &kernel, &answer)?)
}

/// Returns the outcome of `call` for `arch` and `kernel`, for which the search has that `answer`.
fn answered(
    alloc: Global,
    call: &MapperCall<&File, &str>,
    arch: &Arch,
    kernel: &Kernel,
    answer: &Answer<'_, Costs>,
) -> Result<Outcome, AllocError>
    requires valid { IsArch arch.now }
    requires range { IsInRange call.now.request }
    requires within { is_above call.now.request.ii arch.now ≡ false }
    requires answer { IsAnswerOf call.now.request (record { arch = arch.now; kernel = kernel.now }) answer.now }
    ensures { IfOk result (λ o. IsWalk call.now.request (outputs_of call.now)
        (record { arch = arch.now; kernel = kernel.now }) (outcome_of o)) }
{
    match answer {
        Answer::Impossible(certificate) => impossible(
            alloc,
            call.request,
            arch,
            kernel,
            certificate,
        ),
        Answer::Mapped(mapping, found_by) => found(alloc, "walk", mapping, *found_by, call),
        Answer::Unmapped(left) => {
            let report = left_report(alloc, "cost", left.first, left.costs.as_slice())?;
            Ok(spent(alloc, report))
        }
    }
}
