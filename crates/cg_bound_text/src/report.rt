//! The whole report.
ghost use Rattle.std.specs.Prelude.{◌≡◌, ◌++◌, IfOk, OnOk};
ghost use Rattle.cg_bound_all.specs.Why.{hops_at, Shows, IsWhy};
ghost use Rattle.cg_bound_text.specs.Text.{free_line, why_text, excluded_line as line_of_excluded};

use crate::instances::AtInterval;
use crate::lines::{Row, push_line, push_lines};
use crate::reasons::push_reason;
use cg_bound_all::{HopTables, Instance, Reason, Why};
use cg_bound_registers::{Times, all_stays, count_registers};
use cg_recur::{Arch, Kernel};
use std::alloc::{AllocError, Global};

/// Adds to `text` the number of register slots that `times` need at the least interval `least`, if there is one.
fn push_free(
    alloc: Global,
    text: &mut Vec<u8>,
    instance: Instance,
    least: Option<u32>,
    times: &Option<Times>,
) -> Result<(), AllocError>
    ensures { OnOk result (text.new.items ≡ text.old.items ++ free_line instance.entry.arch.now instance.entry.kernel.now least times.now) }
{
    let (Some(interval), Some(times)) = (least, times) else {
        return Ok(());
    };
    let need = all_stays(times, instance.kernel.nodes().len() as u32);
    let room = interval as u64 * count_registers(instance.arch) as u64;
    let line = format!(in alloc; "free {interval}: {need} of {room} register slots are enough\n")?;
    text.extend_from_slice(line.as_bytes())?;
    Ok(())
}

/// Returns the line that says that interval `ii` is impossible by `reason`, which excludes it by the numbers `tables`.
pub fn excluded_line(
    alloc: Global,
    arch: &Arch,
    kernel: &Kernel,
    tables: &HopTables,
    ii: u32,
    reason: &Reason,
) -> Result<Vec<u8>, AllocError>
    requires { Shows arch.now kernel.now (hops_at tables.now ii) ii reason.now }
    ensures { IfOk result (λ line. line.items ≡ line_of_excluded arch.now kernel.now tables.now ii reason.now) }
{
    let begin = format!(in alloc; "ii {ii} impossible: ")?;
    let numbers = tables.at(ii);
    let mut line = Vec::new(alloc);
    line.extend_from_slice(begin.as_bytes())?;
    let at = AtInterval {
        arch,
        kernel,
        hops: numbers.hops.as_slice(),
        ii,
    };
    push_reason(alloc, &mut line, at, reason)?;
    line.push(b'\n')?;
    Ok(line)
}

/// Returns the report on `why`, in lines: the least interval that no reason excludes; those of the kinds of reasons,
/// the greatest first, each with what excludes the interval below it; and the number of register slots that are enough
/// at the least one.
pub fn why_report(
    alloc: Global,
    arch: &Arch,
    kernel: &Kernel,
    why: &Why,
) -> Result<Vec<u8>, AllocError>
    requires { IsWhy arch.now kernel.now why.now }
    ensures { IfOk result (λ text. text.items ≡ why_text arch.now kernel.now why.now) }
{
    let instance = Instance {
        arch,
        kernel,
        tables: &why.tables,
    };
    let least = Row {
        name: "least ",
        least: why.least.interval,
        below: &why.least.below,
    };
    let mut text = Vec::new(alloc);
    push_line(alloc, &mut text, instance, least)?;
    push_lines(alloc, &mut text, instance, &why.bounds)?;
    push_free(
        alloc,
        &mut text,
        instance,
        why.least.interval,
        &why.least.times,
    )?;
    Ok(text)
}
