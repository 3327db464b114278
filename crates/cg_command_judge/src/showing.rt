//! `show ARCH KERNEL MAPPING [OUT]`.
ghost use Rattle.std.specs.Prelude.{map, string_bytes, length, ◌≡◌, ◌≤◌, IfOk};
ghost use Rattle.cg_model.specs.Mapping.{IsShaped};
ghost use Rattle.cg_effects.specs.declared.outcome.Status.TheVariants.{Done};
ghost use Rattle.cg_cause.specs.Allowed.{Allows};
ghost use Rattle.cg_effects.specs.Outcome.{file_of, outcome_of};
ghost use Rattle.cg_check.specs.Rules.{violation};
ghost use Rattle.cg_command_judge.specs.Show.{IsShow, IsShown, IsShownBy, show_report, show_writes};

use crate::checking::illegal;
use cg_cause::Stop;
use cg_check::{Arch, CheckVerdict, Kernel, LegalMapping, Mapping, check as judge};
use cg_effects::{File, Outcome, Status};
use cg_inputs::{Sources, sources_in};
use cg_occupancy::Marks;
use cg_show::picture;
use cg_show_table::{Margin, margin_of, table_lines, table_text};
use std::alloc::{AllocError, Global};

/// Returns the outcome of `show`: the report on the mapping in the file `mapping`, of the kernel in `kernel` to the
/// architecture in `arch`, and its picture, to be written under the name in `outputs`, if there is one.
pub fn show(
    alloc: Global,
    arch: &File,
    kernel: &File,
    mapping: &File,
    outputs: &[String],
) -> Result<Outcome, Stop>
    requires { length outputs.now ≤ 1 }
    ensures { Allows (IsShow (file_of arch.now) (file_of kernel.now) (file_of mapping.now) (map string_bytes outputs.now)) result }
{
    let sources = sources_in(alloc, arch, kernel, mapping)?;
    let Sources {
        arch,
        kernel,
        mapping,
    } = sources;
    judged(alloc, &arch, &kernel, mapping, outputs)
}

/// Returns the outcome for `mapping`: the report and the picture where it is legal, and otherwise the rule that it
/// violates.
fn judged(
    alloc: Global,
    array: &Arch,
    kernel: &Kernel,
    mapping: Mapping,
    outputs: &[String],
) -> Result<Outcome, Stop>
    requires { IsShaped kernel.now mapping }
    ensures { Allows (IsShownBy (map string_bytes outputs.now) (record { arch = array.now; kernel = kernel.now; mapping = mapping })
        (violation array.now kernel.now mapping)) result }
{
    match judge(alloc, array, kernel, mapping)? {
        CheckVerdict::Legal(legal) => Ok(shown(alloc, legal, outputs)?),
        CheckVerdict::Illegal { rule, place, .. } => illegal(alloc, array, kernel, rule, place),
    }
}

/// Returns the outcome for the legal mapping `legal`, with what a lower interval would need.
fn shown(alloc: Global, legal: LegalMapping<'_>, outputs: &[String]) -> Result<Outcome, AllocError>
    ensures { IfOk result (λ o. IsShown (map string_bytes outputs.now) legal.entry (outcome_of o)) }
{
    let needs = margin_of(alloc, &legal)?;
    let marks = Marks::of(alloc, legal)?;
    drawn(alloc, &marks, &needs, outputs)
}

/// Returns the outcome that reports `marks` and `needs`, and writes their picture under the name in `outputs`, if there
/// is one.
fn drawn(
    alloc: Global,
    marks: &Marks<'_>,
    needs: &Margin,
    outputs: &[String],
) -> Result<Outcome, AllocError>
    ensures { IfOk result (λ o. outcome_of o ≡ record {
      status = Done;
      report = show_report marks.now needs.now;
      writes = show_writes marks.now needs.now (map string_bytes outputs.now);
    }) }
{
    let lines = table_lines(alloc, marks, needs)?;
    let report = table_text(alloc, lines.as_slice())?;
    match outputs {
        [out] => {
            let text = picture(alloc, marks, lines.as_slice())?;
            Outcome::with_file(alloc, Status::Done, report, out.as_str(), text)
        }
        _ => Ok(Outcome::new(alloc, Status::Done, report)),
    }
}
