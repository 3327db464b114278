//! The text of a flat architecture.
ghost use Rattle.std.specs.Prelude.{◌≡◌, ◌++◌, ◌∷◌, [], codes, flat_map, IfOk, OnOk};
ghost use Rattle.cg_flat.specs.Text as spec;

use crate::flat::Flat;
use cg_model::{Kind, Resource, Unit};
use cg_word::{Op, OpSet};
use std::alloc::{AllocError, Global};

/// Returns the text of an architecture, in lines that end with LF.
#[tactic(auto, unfolding(crate::specs::Text::text_of))]
pub fn flat_text(alloc: Global, flat: &Flat) -> Result<Vec<u8>, AllocError>
    ensures { IfOk result (λ text. text.items ≡ spec.text_of flat.now) }
{
    let mut text = head_lines(alloc, flat)?;
    push_resources(alloc, &mut text, flat.resources())?;
    push_units(alloc, &mut text, flat.units())?;
    push_hub(alloc, &mut text, flat.hub())?;
    Ok(text)
}

/// Returns the lines before the resources.
fn head_lines(alloc: Global, flat: &Flat) -> Result<Vec<u8>, AllocError>
    ensures { IfOk result (λ text. text.items ≡ spec.head_lines flat.now.name flat.now.contexts flat.now.memory) }
{
    let name = flat.name().as_str();
    let contexts = flat.contexts();
    let memory = flat.memory();
    let head = format!(in alloc; "cgaflat1\nname {name}\ncontexts {contexts}\nmemory {memory}\n")?;
    Ok(head.into_bytes())
}

/// Appends a line for each resource.
fn push_resources(
    alloc: Global,
    text: &mut Vec<u8>,
    resources: &[Resource],
) -> Result<(), AllocError>
    ensures { OnOk result (text.new.items ≡ text.old.items ++ flat_map spec.resource_line resources.now) }
{
    for resource in resources {
        push_resource(alloc, text, resource)?;
    }
    Ok(())
}

/// Appends the line of `resource` to `text`.
fn push_resource(alloc: Global, text: &mut Vec<u8>, resource: &Resource) -> Result<(), AllocError>
    ensures { OnOk result (text.new.items ≡ text.old.items ++ spec.resource_line resource.now) }
{
    text.extend_from_slice(kind_word(resource.kind).as_bytes())?;
    text.extend_from_slice(resource.name.as_str().as_bytes())?;
    push_numbers(alloc, text, resource.drivers.as_slice())?;
    text.push(b'\n')?;
    Ok(())
}

/// Returns the first word of the line of a resource of kind `kind`.
fn kind_word(kind: Kind) -> &'static str
    ensures { result.now ≡ spec.kind_word kind }
{
    match kind {
        Kind::Wire => "wire ",
        Kind::Register => "reg ",
        Kind::Port => "port ",
        Kind::Out => "out ",
    }
}

/// Appends `numbers` to `text`, each after a blank.
fn push_numbers(alloc: Global, text: &mut Vec<u8>, numbers: &[u32]) -> Result<(), AllocError>
    ensures { OnOk result (text.new.items ≡ text.old.items ++ spec.numbers numbers.now) }
{
    for number in numbers {
        push_number(alloc, text, *number)?;
    }
    Ok(())
}

/// Appends a blank and `number` to `text`.
fn push_number(alloc: Global, text: &mut Vec<u8>, number: u32) -> Result<(), AllocError>
    ensures { OnOk result (text.new.items ≡ text.old.items ++ spec.spaced number) }
{
    let word = format!(in alloc; " {number}")?;
    text.extend_from_slice(word.as_bytes())?;
    Ok(())
}

/// Appends a line for each unit of `units` to `text`.
fn push_units(alloc: Global, text: &mut Vec<u8>, units: &[Unit]) -> Result<(), AllocError>
    ensures { OnOk result (text.new.items ≡ text.old.items ++ flat_map spec.unit_line units.now) }
{
    for unit in units {
        push_unit(alloc, text, unit)?;
    }
    Ok(())
}

/// Appends the line of `unit` to `text`.
fn push_unit(alloc: Global, text: &mut Vec<u8>, unit: &Unit) -> Result<(), AllocError>
    ensures { OnOk result (text.new.items ≡ text.old.items ++ spec.unit_line unit.now) }
{
    push_unit_head(alloc, text, unit.name.as_str(), unit.latency)?;
    push_numbers(alloc, text, unit.ports.as_slice())?;
    push_unit_out(alloc, text, unit.out)?;
    push_ops(text, unit.ops)?;
    text.push(b'\n')?;
    Ok(())
}

/// Appends the part of a unit's line before its ports.
fn push_unit_head(
    alloc: Global,
    text: &mut Vec<u8>,
    name: &str,
    latency: u32,
) -> Result<(), AllocError>
    ensures { OnOk result (text.new.items ≡ text.old.items ++ spec.unit_head name.now latency) }
{
    let head = format!(in alloc; "unit {name} latency {latency} ports")?;
    text.extend_from_slice(head.as_bytes())?;
    Ok(())
}

/// Appends the part of a unit's line between its ports and its operations.
fn push_unit_out(alloc: Global, text: &mut Vec<u8>, out: u32) -> Result<(), AllocError>
    ensures { OnOk result (text.new.items ≡ text.old.items ++ spec.unit_out out) }
{
    let word = format!(in alloc; " out {out} ops")?;
    text.extend_from_slice(word.as_bytes())?;
    Ok(())
}

/// Appends the names of `ops` to `text` in the order of their codes, each after a blank.
fn push_ops(text: &mut Vec<u8>, ops: OpSet) -> Result<(), AllocError>
    ensures { OnOk result (text.new.items ≡ text.old.items ++ spec.op_words ops) }
{
    for op in &Op::ALL {
        push_op(text, ops, *op)?;
    }
    Ok(())
}

/// Appends a blank and the name of `op` to `text`, if `op` is in `ops`.
fn push_op(text: &mut Vec<u8>, ops: OpSet, op: Op) -> Result<(), AllocError>
    ensures { OnOk result (text.new.items ≡ text.old.items ++ spec.op_word ops op) }
{
    if ops.has(op) {
        text.push(b' ')?;
        text.extend_from_slice(op.name().as_bytes())?;
    }
    Ok(())
}

/// Appends the line of the hub.
fn push_hub(alloc: Global, text: &mut Vec<u8>, hub: &[u32]) -> Result<(), AllocError>
    ensures { OnOk result (text.new.items ≡ text.old.items ++ (codes "hub" ++ (spec.numbers hub.now ++ 10 ∷ []))) }
{
    text.extend_from_slice(b"hub")?;
    push_numbers(alloc, text, hub)?;
    text.push(b'\n')?;
    Ok(())
}
