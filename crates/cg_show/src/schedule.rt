//! One iteration in time.
ghost use Rattle.std.specs.Prelude.{◌≡◌, ◌++◌, ◌<◌, ◌≤◌, ◌^◌, suc, OnOk, length};
ghost use Rattle.cg_check.specs.Legal.{config_of};
ghost use Rattle.cg_list_laws.specs.Below.{lists_below};
ghost use Rattle.cg_show.specs.Schedule as spec;

use crate::words::{colour, latency_of, node_name, push_name, start_title, time_of, unit_name};
use cg_emit::stages;
use cg_layout::{Area, push_mark, push_rect, push_words};
use cg_occupancy::Marks;
use std::alloc::{AllocError, Global};

/// Returns the number of cycles of an iteration: one more than the last cycle in which a unit works on a node.
pub(crate) fn cycles(marks: &Marks<'_>) -> u64
    ensures value { result ≡ spec.cycles marks.now }
    ensures few { result < 2 ^ 33 }
{
    let mut most = 0;
    for node in 0..marks.kernel().nodes().len() {
        let end = u64::from(time_of(marks, node as u32))
            + u64::from(latency_of(marks, node as u32));
        most = most.max(end);
    }
    most
}

/// Adds the numbers of the cycles to `text`.
fn push_cycles(alloc: Global, text: &mut Vec<u8>, marks: &Marks<'_>) -> Result<(), AllocError>
    ensures { OnOk result (text.new.items ≡ text.old.items ++ spec.cycles_text marks.now) }
{
    for cycle in 0..cycles(marks) {
        let number = format!(in alloc; "{cycle}")?;
        push_words(alloc, text, "o", 284 + 48 * cycle, 36, number.as_str())?;
    }
    Ok(())
}

/// Returns the interval of the mapping in `marks`: at most the number of contexts that an architecture may have.
fn interval(marks: &Marks<'_>) -> u64
    ensures value { result ≡ marks.now.mapping.ii }
    ensures few { result ≤ 64 }
{
    let _contexts = marks.arch().contexts();
    u64::from(marks.mapping().ii())
}

/// Adds the way of the line before `stage` to `ways`, over a height of `rows` rows.
fn push_stage_way(
    alloc: Global,
    ways: &mut Vec<u8>,
    marks: &Marks<'_>,
    rows: u32,
    stage: u32,
) -> Result<(), AllocError>
    ensures { OnOk result (ways.new.items ≡ ways.old.items ++ spec.stage_line marks.now rows stage) }
{
    let x = 260 + 48 * (interval(marks) * u64::from(stage));
    let bottom = 46 + 28 * u64::from(rows);
    let way = format!(in alloc; "M{x} 42V{bottom}")?;
    ways.extend_from_slice(way.as_bytes())
}

/// Adds the ways of the lines between stages to `ways`, over a height of `rows` rows.
fn push_stage_ways(
    alloc: Global,
    ways: &mut Vec<u8>,
    marks: &Marks<'_>,
    rows: u32,
) -> Result<(), AllocError>
    ensures { OnOk result (ways.new.items ≡ ways.old.items ++ lists_below (spec.stage_line marks.now rows) (suc (config_of marks.now).stages)) }
{
    let stages = stages(marks.legal());
    for stage in 0..stages {
        push_stage_way(alloc, ways, marks, rows, stage)?;
    }
    push_stage_way(alloc, ways, marks, rows, stages)?;
    Ok(())
}

/// Adds the lines between stages to `text`.
fn push_stages(alloc: Global, text: &mut Vec<u8>, marks: &Marks<'_>) -> Result<(), AllocError>
    ensures { OnOk result (text.new.items ≡ text.old.items ++ spec.stages_text marks.now) }
{
    text.extend_from_slice(b"<path class='g' d='")?;
    push_stage_ways(alloc, text, marks, marks.busy_units())?;
    text.extend_from_slice(b"'/>")?;
    Ok(())
}

/// Adds to `text` the line of the cycles after the first, for a node that begins at `time` in the row at `top` and
/// takes `latency` cycles.
fn push_tail(
    alloc: Global,
    text: &mut Vec<u8>,
    time: u32,
    latency: u32,
    top: u64,
) -> Result<(), AllocError>
    requires { top < 2 ^ 40 }
    ensures { OnOk result (text.new.items ≡ text.old.items ++ spec.tail_text time latency top) }
{
    if 1 < latency {
        let area = Area {
            x: 260 + 48 * (u64::from(time) + 1),
            y: top + 17 + 2 * u64::from(time % 4),
            width: 48 * (u64::from(latency) - 1) - 2,
            height: 1,
        };
        push_rect(alloc, text, "k", area)?;
    }
    Ok(())
}

/// Adds the bar of `node` on `unit` in the row at `top` to `text`.
fn push_bar(
    alloc: Global,
    text: &mut Vec<u8>,
    marks: &Marks<'_>,
    unit: u32,
    top: u64,
    node: u32,
) -> Result<(), AllocError>
    requires { top < 2 ^ 40 }
    ensures { OnOk result (text.new.items ≡ text.old.items ++ spec.bar_text marks.now unit top node) }
{
    let time = time_of(marks, node);
    let left = 260 + 48 * u64::from(time);
    let title = start_title(alloc, marks, unit, node)?;
    push_mark(alloc, text, colour(node), title.as_str())?;
    let area = Area {
        x: left + 1,
        y: top,
        width: 46,
        height: 16,
    };
    push_rect(alloc, text, "b", area)?;
    push_name(
        alloc,
        text,
        "o",
        (left + 24, top + 12),
        8,
        node_name(marks, node),
    )?;
    push_tail(alloc, text, time, latency_of(marks, node), top)?;
    text.extend_from_slice(b"</g>\n")?;
    Ok(())
}

/// Adds the bars of `unit` in the row at `top` to `text`.
fn push_unit_bars(
    alloc: Global,
    text: &mut Vec<u8>,
    marks: &Marks<'_>,
    unit: u32,
    top: u64,
) -> Result<(), AllocError>
    requires unit { unit < length marks.now.arch.units }
    requires top { top < 2 ^ 40 }
    ensures { OnOk result (text.new.items ≡ text.old.items ++ lists_below (spec.bar_in marks.now unit top) marks.now.mapping.ii) }
{
    for slot in 0..marks.mapping().ii() {
        if let Some(node) = marks.start(unit, slot) {
            push_bar(alloc, text, marks, unit, top, node)?;
        }
    }
    Ok(())
}

/// Adds the row of `unit` at `top` to `text`.
fn push_unit_row(
    alloc: Global,
    text: &mut Vec<u8>,
    marks: &Marks<'_>,
    unit: u32,
    top: u64,
) -> Result<(), AllocError>
    requires unit { unit < length marks.now.arch.units }
    requires top { top < 2 ^ 40 }
    ensures { OnOk result (text.new.items ≡ text.old.items ++ spec.unit_row marks.now unit top) }
{
    push_words(alloc, text, "a", 252, top + 12, unit_name(marks, unit))?;
    push_unit_bars(alloc, text, marks, unit, top)?;
    Ok(())
}

/// Adds the rows of all units that begin a node to `text`.
fn push_bars(alloc: Global, text: &mut Vec<u8>, marks: &Marks<'_>) -> Result<(), AllocError>
    ensures { OnOk result (text.new.items ≡ text.old.items ++ spec.bars_text marks.now) }
{
    let mut row: u32 = 0;
    for unit in 0..marks.arch().units().len() {
        if 0 < marks.starts_of(unit as u32) {
            push_unit_row(alloc, text, marks, unit as u32, 46 + 28 * u64::from(row))?;
            row += 1;
        }
    }
    Ok(())
}

/// Adds the schedule to `text`: its title, the cycles, the lines between stages, and the rows.
pub(crate) fn push_schedule(
    alloc: Global,
    text: &mut Vec<u8>,
    marks: &Marks<'_>,
) -> Result<(), AllocError>
    ensures { OnOk result (text.new.items ≡ text.old.items ++ spec.schedule_text marks.now) }
{
    let count = cycles(marks);
    let title = format!(in alloc; "one turn in time: {count} cycles")?;
    push_words(alloc, text, "h", 0, 12, title.as_str())?;
    push_cycles(alloc, text, marks)?;
    push_stages(alloc, text, marks)?;
    push_bars(alloc, text, marks)?;
    Ok(())
}
