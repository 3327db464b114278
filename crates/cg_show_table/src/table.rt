//! The lines of the report.
ghost use Rattle.std.specs.Prelude.{◌≡◌, ◌++◌, IfOk, OnOk, map, string_bytes};
ghost use Rattle.std.specs.Str.{IsUtf8};
ghost use Rattle.cg_show_table.specs.Table as spec;

use crate::columns::push_grid;
use crate::margin::{FullClass, LongChain, Margin};
use cg_arch::Arch;
use cg_bound::{push_chain, push_set};
use cg_emit::stages;
use cg_model::{Kernel, Kind};
use cg_occupancy::Marks;
use std::alloc::{AllocError, Global};

/// Returns the lines of the report on `marks` and `margin`, without their ends.
#[tactic(auto, unfolding(crate::specs::Table::table_lines))]
pub fn table_lines(
    alloc: Global,
    marks: &Marks<'_>,
    margin: &Margin,
) -> Result<Vec<String>, AllocError>
    ensures { IfOk result (λ lines. map string_bytes lines.items ≡ spec.table_lines marks.now margin.now) }
{
    let mut lines = Vec::new(alloc);
    push_counts(alloc, &mut lines, marks)?;
    push_grid(alloc, &mut lines, marks)?;
    push_margin(alloc, &mut lines, marks.arch(), marks.kernel(), margin)?;
    Ok(lines)
}

/// Adds the lines before the table to `lines`.
fn push_counts(alloc: Global, lines: &mut Vec<String>, marks: &Marks<'_>) -> Result<(), AllocError>
    ensures { OnOk result (map string_bytes lines.new.items ≡ map string_bytes lines.old.items ++ spec.count_lines marks.now) }
{
    let interval = interval_line(alloc, marks)?;
    lines.push(interval)?;
    let units = units_line(alloc, marks)?;
    lines.push(units)?;
    let resources = resources_line(alloc, marks)?;
    lines.push(resources)?;
    Ok(())
}

/// Returns the line of the interval and the stages.
fn interval_line(alloc: Global, marks: &Marks<'_>) -> Result<String, AllocError>
    ensures { IfOk result (λ line. string_bytes line ≡ spec.interval_line marks.now) }
{
    let ii = marks.mapping().ii();
    let stages = stages(marks.legal());
    format!(in alloc; "ii {ii}  stages {stages}")
}

/// Returns the line of the units that begin a node.
fn units_line(alloc: Global, marks: &Marks<'_>) -> Result<String, AllocError>
    ensures { IfOk result (λ line. string_bytes line ≡ spec.units_line marks.now) }
{
    let units = marks.busy_units();
    let all = marks.arch().units().len();
    let slots = marks.busy_slots();
    let all_slots = all as u64 * u64::from(marks.mapping().ii());
    format!(in alloc; "units {units} of {all}  busy {slots} of {all_slots} slots")
}

/// Returns the line of the resources that carry a value.
fn resources_line(alloc: Global, marks: &Marks<'_>) -> Result<String, AllocError>
    ensures { IfOk result (λ line. string_bytes line ≡ spec.resources_line marks.now) }
{
    let registers = taken_text(alloc, marks, Kind::Register)?;
    let wires = taken_text(alloc, marks, Kind::Wire)?;
    let ports = taken_text(alloc, marks, Kind::Port)?;
    format!(in alloc; "registers {registers} slots  wires {wires}  ports {ports}")
}

/// Returns the text of the share of slots in which the resources of `kind` carry a value.
fn taken_text(alloc: Global, marks: &Marks<'_>, kind: Kind) -> Result<String, AllocError>
    ensures { IfOk result (λ text. string_bytes text ≡ spec.taken_text marks.now kind) }
{
    let taken = marks.taken_slots(kind);
    let slots = u64::from(marks.resources_of(kind)) * u64::from(marks.mapping().ii());
    format!(in alloc; "{taken} of {slots}")
}

/// Adds the lines of `margin` to `lines`.
fn push_margin(
    alloc: Global,
    lines: &mut Vec<String>,
    arch: &Arch,
    kernel: &Kernel,
    margin: &Margin,
) -> Result<(), AllocError>
    ensures { OnOk result (map string_bytes lines.new.items ≡ map string_bytes lines.old.items ++ spec.margin_lines arch.now kernel.now margin.now) }
{
    let chain = chain_line(alloc, arch, kernel, &margin.chain)?;
    lines.push(chain)?;
    let class = class_line(alloc, arch, kernel, &margin.class)?;
    lines.push(class)?;
    Ok(())
}

/// Returns the line of the longest recurrence, if there is one.
fn chain_line(
    alloc: Global,
    arch: &Arch,
    kernel: &Kernel,
    chain: &Option<LongChain>,
) -> Result<String, AllocError>
    ensures { IfOk result (λ line. string_bytes line ≡ spec.chain_line arch.now kernel.now chain.now) }
{
    match chain {
        Some(chain) => longest_line(alloc, arch, kernel, chain),
        None => String::from_str(alloc, "recurrence: none"),
    }
}

/// Returns the line of the recurrence `chain`.
fn longest_line(
    alloc: Global,
    arch: &Arch,
    kernel: &Kernel,
    chain: &LongChain,
) -> Result<String, AllocError>
    ensures { IfOk result (λ line. string_bytes line ≡ spec.longest_line arch.now kernel.now chain.now) }
{
    let _nodes = kernel.nodes();
    let bytes = chain_bytes(alloc, arch, kernel, chain)?;
    Ok(text_of(bytes))
}

/// Returns the bytes of the line of the recurrence `chain`.
fn chain_bytes(
    alloc: Global,
    arch: &Arch,
    kernel: &Kernel,
    chain: &LongChain,
) -> Result<Vec<u8>, AllocError>
    ensures { IfOk result (λ bytes. bytes.items ≡ spec.longest_line arch.now kernel.now chain.now) }
{
    let mut bytes = Vec::from_slice(alloc, b"recurrence:")?;
    push_chain(alloc, &mut bytes, arch, kernel, &chain.edges)?;
    push_least(alloc, &mut bytes, chain.least)?;
    Ok(bytes)
}

/// Returns the line of the fullest class of operations, if there is one.
fn class_line(
    alloc: Global,
    arch: &Arch,
    kernel: &Kernel,
    class: &Option<FullClass>,
) -> Result<String, AllocError>
    ensures { IfOk result (λ line. string_bytes line ≡ spec.class_line arch.now kernel.now «class».now) }
{
    match class {
        Some(class) => fullest_line(alloc, arch, kernel, class),
        None => String::from_str(alloc, "fullest class: none"),
    }
}

/// Returns the line of `class`.
fn fullest_line(
    alloc: Global,
    arch: &Arch,
    kernel: &Kernel,
    class: &FullClass,
) -> Result<String, AllocError>
    ensures { IfOk result (λ line. string_bytes line ≡ spec.fullest_line arch.now kernel.now «class».now) }
{
    let bytes = class_bytes(alloc, arch, kernel, class)?;
    Ok(text_of(bytes))
}

/// Returns the bytes of the line of `class`.
fn class_bytes(
    alloc: Global,
    arch: &Arch,
    kernel: &Kernel,
    class: &FullClass,
) -> Result<Vec<u8>, AllocError>
    ensures { IfOk result (λ bytes. bytes.items ≡ spec.fullest_line arch.now kernel.now «class».now) }
{
    let mut bytes = Vec::from_slice(alloc, b"fullest class:")?;
    push_set(alloc, &mut bytes, arch, kernel, class.ops)?;
    push_least(alloc, &mut bytes, class.least)?;
    Ok(bytes)
}

/// Adds the interval `least` to `bytes`.
fn push_least(alloc: Global, bytes: &mut Vec<u8>, least: u32) -> Result<(), AllocError>
    ensures { OnOk result (bytes.new.items ≡ bytes.old.items ++ spec.least_text least) }
{
    let text = format!(in alloc; " (least interval {least})")?;
    bytes.extend_from_slice(text.as_bytes())?;
    Ok(())
}

/// Returns `bytes` as text.
fn text_of(bytes: Vec<u8>) -> String
    requires { IsUtf8 bytes.items }
    ensures { string_bytes result ≡ bytes.items }
{
    match String::from_utf8(bytes) {
        Ok(text) => text,
        Err(_) => unreachable!(),
    }
}

/// Returns `lines` as a text, each with a line feed.
#[tactic(auto, unfolding(crate::specs::Table::text_of))]
pub fn table_text(alloc: Global, lines: &[String]) -> Result<Vec<u8>, AllocError>
    ensures { IfOk result (λ text. text.items ≡ spec.text_of (map string_bytes lines.now)) }
{
    let mut text = Vec::new(alloc);
    for line in lines {
        text.extend_from_slice(line.as_bytes())?;
        text.push(b'\n')?;
    }
    Ok(text)
}
