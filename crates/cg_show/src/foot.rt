//! The part of a picture below the panels.
ghost use Rattle.std.specs.Prelude.{◌≡◌, ◌++◌, ◌<◌, ◌^◌, IfOk, OnOk, map, string_bytes};
ghost use Rattle.cg_show.specs.Foot as spec;

use crate::schedule::push_schedule;
use cg_occupancy::Marks;
use std::alloc::{AllocError, Global};

/// Returns where the report begins, from the top of the foot.
pub(crate) fn report_top(marks: &Marks<'_>) -> u64
    ensures value { result ≡ spec.report_top marks.now }
    ensures small { result < 2 ^ 38 }
{
    46 + 28 * u64::from(marks.busy_units()) + 40
}

/// Adds the line `line` of the report to `text`, at `top`.
fn push_report_line(
    alloc: Global,
    text: &mut Vec<u8>,
    top: u64,
    line: &str,
) -> Result<(), AllocError>
    ensures { OnOk result (text.new.items ≡ text.old.items ++ spec.report_line top line.now) }
{
    let element = format!(in alloc;
        "<text class='m' xml:space='preserve' x='0' y='{top}'>{line}</text>\n"
    )?;
    text.extend_from_slice(element.as_bytes())
}

/// Adds the lines `lines` of the report to `text`, from `top` on.
fn push_report(
    alloc: Global,
    text: &mut Vec<u8>,
    top: u64,
    lines: &[String],
) -> Result<(), AllocError>
    requires { top < 2 ^ 38 }
    ensures { OnOk result (text.new.items ≡ text.old.items ++ spec.report_text top (map string_bytes lines.now)) }
{
    let mut y = top;
    for line in lines {
        push_report_line(alloc, text, y, line.as_str())?;
        y += 16;
    }
    Ok(())
}

/// Returns the text of the part below the panels: one iteration in time, and the lines `lines` of the report.
pub(crate) fn foot(
    alloc: Global,
    marks: &Marks<'_>,
    lines: &[String],
) -> Result<Vec<u8>, AllocError>
    ensures { IfOk result (λ text. text.items ≡ spec.foot_text marks.now (map string_bytes lines.now)) }
{
    let mut text = Vec::new(alloc);
    push_schedule(alloc, &mut text, marks)?;
    push_report(alloc, &mut text, report_top(marks), lines)?;
    Ok(text)
}
