//! Reads the parts of tiles from TOML values.
ghost use Rattle.std.specs.Prelude.{◌≡◌, map};
ghost use Rattle.std.specs.Option.{option_copied};
ghost use Rattle.toml.specs.Data as toml;
ghost use Rattle.toml.specs.View.{view};
ghost use Rattle.cg_reading.specs.Reads.{IsRead};
ghost use Rattle.cg_grid.specs.Parts as spec;

use crate::reading::TextReader;
use crate::written::{Part, Reference, References, Side, WrittenPart};
use cg_model::{Items, Name, is_identifier};
use cg_parts::Names;
use cg_reading::{ItemReader, Misfit, WRONG_SHAPE, all_of};
use cg_toml::{has_other_keys, items_at, items_in, text_at, word_at};
use cg_word::{Op, OpSet};
use std::alloc::Global;
use toml::Value;

/// Reads parts.
pub(crate) struct PartReader;

impl ItemReader for PartReader {
    type Value = Value;

    type Item = WrittenPart;

    ghost Data = { toml.Data };

    ghost data_of = { view };

    ghost item_in = { spec.part_in };

    fn read(alloc: Global, value: &Value) -> Result<WrittenPart, Misfit<()>> {
        match (has(value, "wire"), has(value, "reg"), has(value, "unit")) {
            (true, false, false) => {
                let part = wire_in(alloc, value)?;
                Ok(keyed(value, &["wire", "from"], part))
            }
            (false, true, false) => {
                let part = register_in(alloc, value)?;
                Ok(keyed(value, &["reg", "from"], part))
            }
            (false, false, true) => {
                let part = unit_in(alloc, value)?;
                Ok(keyed(value, &["unit", "ops", "latency", "ports"], part))
            }
            _ => Err(WRONG_SHAPE),
        }
    }
}

fn has(value: &Value, key: &str) -> bool
    ensures { result ≡ spec.has key.now (view value.now) }
{
    value.get(key).is_some()
}

/// Returns `part`, with whether its table has other keys than `known`, those of its shape.
fn keyed(value: &Value, known: &[&str], part: Part) -> WrittenPart
    ensures { result ≡ spec.keyed (map (λ key. key.now) known.now) (view value.now) part }
{
    WrittenPart {
        part,
        other_keys: has_other_keys(value, known),
    }
}

fn wire_in(alloc: Global, value: &Value) -> Result<Part, Misfit<()>>
    ensures { IsRead (spec.wire_in (view value.now)) result }
{
    let name = text_at(value, "wire").ok_or(WRONG_SHAPE)?;
    let from = references_at(alloc, value, "from")?;
    let name = Name::copy_of(alloc, name)?;
    Ok(Part::Wire { name, from })
}

fn register_in(alloc: Global, value: &Value) -> Result<Part, Misfit<()>>
    ensures { IsRead (spec.register_in (view value.now)) result }
{
    let name = text_at(value, "reg").ok_or(WRONG_SHAPE)?;
    let from = references_at(alloc, value, "from")?;
    let name = Name::copy_of(alloc, name)?;
    Ok(Part::Register { name, from })
}

fn unit_in(alloc: Global, value: &Value) -> Result<Part, Misfit<()>>
    ensures { IsRead (spec.unit_in (view value.now)) result }
{
    let name = text_at(value, "unit").ok_or(WRONG_SHAPE)?;
    let ops = ops_at(alloc, value)?;
    let latency = word_at(value, "latency").ok_or(WRONG_SHAPE)?;
    let ports = ports_at(alloc, value)?;
    Ok(Part::Unit {
        name: Name::copy_of(alloc, name)?,
        ops: ops_named(ops.as_slice()),
        other_ops: has_other_ops(ops.as_slice()),
        latency,
        ports,
    })
}

fn ops_at(alloc: Global, value: &Value) -> Result<Names, Misfit<()>>
    ensures { IsRead (spec.ops_at (view value.now)) result }
{
    let items = items_at(value, "ops").ok_or(WRONG_SHAPE)?;
    all_of::<TextReader>(alloc, items)
}

fn ports_at(alloc: Global, value: &Value) -> Result<Items<References>, Misfit<()>>
    ensures { IsRead (spec.ports_at (view value.now)) result }
{
    let items = items_at(value, "ports").ok_or(WRONG_SHAPE)?;
    all_of::<PortReader>(alloc, items)
}

/// Returns the set of the operations named by `texts`.
fn ops_named(texts: &[Name]) -> OpSet
    ensures { result ≡ spec.ops_named texts.now }
{
    let mut ops = OpSet::empty();
    for text in texts {
        if let Some(op) = Op::from_name(text.as_str()) {
            ops = ops.with(op);
        }
    }
    ops
}

/// Returns whether one of `texts` isn't the name of an operation.
fn has_other_ops(texts: &[Name]) -> bool
    ensures { result ≡ spec.has_other_ops texts.now }
{
    texts
        .iter()
        .any(|text| Op::from_name(text.as_str()).is_none())
}

fn references_at(alloc: Global, value: &Value, key: &str) -> Result<References, Misfit<()>>
    ensures { IsRead (spec.references_at key.now (view value.now)) result }
{
    let items = items_at(value, key).ok_or(WRONG_SHAPE)?;
    all_of::<ReferenceReader>(alloc, items)
}

/// Reads the references of ports.
struct PortReader;

impl ItemReader for PortReader {
    type Value = Value;

    type Item = References;

    ghost Data = { toml.Data };

    ghost data_of = { view };

    ghost item_in = { spec.references_in };

    fn read(alloc: Global, value: &Value) -> Result<References, Misfit<()>> {
        let items = items_in(value).ok_or(WRONG_SHAPE)?;
        all_of::<ReferenceReader>(alloc, items)
    }
}

/// Reads references.
struct ReferenceReader;

impl ItemReader for ReferenceReader {
    type Value = Value;

    type Item = Reference;

    ghost Data = { toml.Data };

    ghost data_of = { view };

    ghost item_in = { spec.reference_in };

    fn read(alloc: Global, value: &Value) -> Result<Reference, Misfit<()>> {
        let text = value.as_str().ok_or(WRONG_SHAPE)?;
        reference_of(alloc, text)
    }
}

fn reference_of(alloc: Global, text: &str) -> Result<Reference, Misfit<()>>
    ensures { IsRead (spec.reference_of text.now) result }
{
    let (side, name) = sided(text);
    if !is_identifier(name) {
        return Err(WRONG_SHAPE);
    }
    let name = Name::copy_of(alloc, name)?;
    Ok(Reference { side, name })
}

/// Returns the side given by the prefix of `text`, and the name after it.
fn sided(text: &str) -> (Side, &str)
    ensures { (result.0, result.1.now) ≡ spec.sided text.now }
{
    if let Some(name) = after_front(text, "/") {
        return (Side::Anywhere, name);
    }
    if let Some(name) = after_front(text, "N.") {
        return (Side::North, name);
    }
    if let Some(name) = after_front(text, "E.") {
        return (Side::East, name);
    }
    if let Some(name) = after_front(text, "S.") {
        return (Side::South, name);
    }
    if let Some(name) = after_front(text, "W.") {
        return (Side::West, name);
    }
    (Side::Here, text)
}

/// Returns the rest of `text` after the prefix `front`.
fn after_front<'a>(text: &'a str, front: &str) -> Option<&'a str>
    ensures { option_copied result ≡ spec.after_front front.now text.now }
{
    text.strip_prefix(front)
}
