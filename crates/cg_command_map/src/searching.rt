//! `search ARCH KERNEL OUT [--ii N] [--seed N] [--moves N] [--mapping FILE]`.
ghost use Rattle.std.specs.Prelude.{◌≡◌, false, IfOk};
ghost use Rattle.cg_cause.specs.Allowed.{Allows};
ghost use Rattle.cg_effects.specs.Outcome.{file_of, outcome_of};
ghost use Rattle.cg_model.specs.Array.{IsArch};
ghost use Rattle.cg_model.specs.Request.{IsInRange};
ghost use Rattle.cg_command_map.specs.Search.{IsSearch, IsSearched, IsAnswerOf};
ghost use Rattle.cg_command_map.specs.Searches.{is_above, outputs_of};

use crate::finding::found;
use crate::refusing::{check_asked, impossible};
use crate::reporting::failure_report;
use crate::spending::spent;
use cg_arch::Arch;
use cg_cause::Stop;
use cg_command::MapperCall;
use cg_diagnostics::Aside;
use cg_effects::{File, Outcome};
use cg_inputs::{arch_in, kernel_in};
use cg_intervals::Answer;
use cg_model::Kernel;
use cg_search::{Failure, search_answer};
use std::alloc::{AllocError, Global};

/// Searches by best responses for a mapping of the kernel in the file of `call` to the architecture in the other, and
/// returns the outcome. `aside` receives the progress.
pub fn search(
    alloc: Global,
    call: &MapperCall<&File, &str>,
    aside: &mut dyn Aside,
) -> Result<Outcome, Stop>
    requires { IsInRange call.now.request }
    ensures { Allows (IsSearch call.now.request (file_of call.now.arch.now) (file_of call.now.kernel.now) (outputs_of call.now)) result }
{
    let arch = arch_in(alloc, call.arch)?;
    let kernel = kernel_in(alloc, call.kernel)?;
    check_asked(alloc, call.request, &arch, call.arch)?;
    let answer = search_answer(alloc, &arch, &kernel, call.request, aside)?;
    Ok(answered(alloc, call, &arch, &kernel, &answer)?)
}

/// Returns the outcome of `call` for `arch` and `kernel`, for which the search has that `answer`.
fn answered(
    alloc: Global,
    call: &MapperCall<&File, &str>,
    arch: &Arch,
    kernel: &Kernel,
    answer: &Answer<'_, Failure>,
) -> Result<Outcome, AllocError>
    requires valid { IsArch arch.now }
    requires range { IsInRange call.now.request }
    requires within { is_above call.now.request.ii arch.now ≡ false }
    requires answer { IsAnswerOf call.now.request (record { arch = arch.now; kernel = kernel.now }) answer.now }
    ensures { IfOk result (λ o. IsSearched call.now.request (outputs_of call.now)
        (record { arch = arch.now; kernel = kernel.now }) (outcome_of o)) }
{
    match answer {
        Answer::Impossible(certificate) => impossible(
            alloc,
            call.request,
            arch,
            kernel,
            certificate,
        ),
        Answer::Mapped(mapping, found_by) => found(alloc, "search", mapping, *found_by, call),
        Answer::Unmapped(failure) => {
            let report = failure_report(alloc, arch, kernel, failure)?;
            Ok(spent(alloc, report))
        }
    }
}
