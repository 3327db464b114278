//! The words in a picture.
ghost use Rattle.std.specs.Prelude.{◌≡◌, ◌++◌, ◌<◌, IfOk, OnOk, string_bytes};
ghost use Rattle.cg_model.specs.Array.{resource as resource_at, unit as unit_at};
ghost use Rattle.cg_model.specs.Kernel.{node as node_at};
ghost use Rattle.cg_model.specs.Mapping.{place as place_at};
ghost use Rattle.cg_occupancy.specs.Marks.{position_of};
ghost use Rattle.cg_layout.specs.Svg as svg;
ghost use Rattle.cg_show.specs.Words as spec;

use cg_model::{Kind, Place};
use cg_occupancy::{Marks, Stay};
use std::alloc::{AllocError, Global};

/// Returns the number of the colour of `node`'s value.
pub(crate) fn colour(node: u32) -> u32
    ensures { result ≡ spec.colour node }
{
    node % 7
}

/// Returns the name of `node`; empty past the last one.
pub(crate) fn node_name<'m>(marks: &'m Marks<'_>, node: u32) -> &'m str
    ensures { result.now ≡ spec.node_name marks.now node }
{
    match marks.kernel().nodes().get(node as usize) {
        Some(node) => node.name.as_str(),
        None => "",
    }
}

/// Returns the name of the operation of `node`.
pub(crate) fn op_name(marks: &Marks<'_>, node: u32) -> &'static str
    ensures { result.now ≡ spec.op_name marks.now node }
{
    match marks.kernel().nodes().get(node as usize) {
        Some(node) => node.op.name(),
        None => "const",
    }
}

/// Returns the name of `resource`; empty past the last one.
pub(crate) fn resource_name<'m>(marks: &'m Marks<'_>, resource: u32) -> &'m str
    ensures { result.now ≡ spec.resource_name marks.now resource }
{
    match marks.arch().resources().get(resource as usize) {
        Some(resource) => resource.name.as_str(),
        None => "",
    }
}

/// Returns the kind of `resource`; past the last one it is a wire.
pub(crate) fn kind_of(marks: &Marks<'_>, resource: u32) -> Kind
    ensures { result ≡ (resource_at marks.now.arch resource).kind }
{
    match marks.arch().resources().get(resource as usize) {
        Some(resource) => resource.kind,
        None => Kind::Wire,
    }
}

/// Returns the name of `unit`; empty past the last one.
pub(crate) fn unit_name<'m>(marks: &'m Marks<'_>, unit: u32) -> &'m str
    ensures { result.now ≡ spec.unit_name marks.now unit }
{
    match marks.arch().units().get(unit as usize) {
        Some(unit) => unit.name.as_str(),
        None => "",
    }
}

/// Returns the latency of `unit`; 1 past the last one.
fn latency(marks: &Marks<'_>, unit: u32) -> u32
    ensures { result ≡ (unit_at marks.now.arch unit).latency }
{
    match marks.arch().units().get(unit as usize) {
        Some(unit) => unit.latency,
        None => 1,
    }
}

/// Returns the place of `node`; past the last one, unit 0 at time 0.
fn place(marks: &Marks<'_>, node: u32) -> Place
    ensures { result ≡ place_at marks.now.mapping node }
{
    match marks.mapping().places().get(node as usize) {
        Some(place) => *place,
        None => Place { unit: 0, time: 0 },
    }
}

/// Returns the cycle in which `node` begins in iteration 0.
pub(crate) fn time_of(marks: &Marks<'_>, node: u32) -> u32
    ensures { result ≡ spec.time_of marks.now node }
{
    place(marks, node).time
}

/// Returns the latency of the unit of `node`.
pub(crate) fn latency_of(marks: &Marks<'_>, node: u32) -> u32
    ensures { result ≡ (unit_at marks.now.arch (place_at marks.now.mapping node).unit).latency }
{
    latency(marks, place(marks, node).unit)
}

/// Returns the stage of `time`: the number of whole intervals before it.
pub(crate) fn round_of(marks: &Marks<'_>, time: u64) -> u64
    ensures { result ≡ spec.round_of marks.now time }
{
    let ii = u64::from(marks.mapping().ii());
    time / ii
}

/// Adds `name` to `text`, cut to `most` characters.
pub(crate) fn push_cut(text: &mut Vec<u8>, most: usize, name: &str) -> Result<(), AllocError>
    ensures { OnOk result (text.new.items ≡ text.old.items ++ spec.cut most name.now) }
{
    let signs = name.as_bytes();
    if signs.len() <= most {
        return text.extend_from_slice(signs);
    }
    text.extend_from_slice(&signs[..most.saturating_sub(1)])?;
    text.push(b'.')?;
    Ok(())
}

/// Returns the operation of `node` with its stage, as `load @1`.
pub(crate) fn op_text(alloc: Global, marks: &Marks<'_>, node: u32) -> Result<String, AllocError>
    ensures { IfOk result (λ text. string_bytes text ≡ spec.op_text marks.now node) }
{
    let op = op_name(marks, node);
    let stage = round_of(marks, u64::from(time_of(marks, node)));
    format!(in alloc; "{op} @{stage}")
}

/// Returns the title of the mark of `node` on `unit`, as `x1 load on r0c1_f at 3, stage 1`.
pub(crate) fn start_title(
    alloc: Global,
    marks: &Marks<'_>,
    unit: u32,
    node: u32,
) -> Result<String, AllocError>
    ensures { IfOk result (λ text. string_bytes text ≡ spec.start_title marks.now unit node) }
{
    let name = node_name(marks, node);
    let op = op_name(marks, node);
    let place = unit_name(marks, unit);
    let time = time_of(marks, node);
    let stage = round_of(marks, u64::from(time));
    format!(in alloc; "{name} {op} on {place} at {time}, stage {stage}")
}

/// Returns where a value comes from, as `, from r0c0_f_o`; empty where it begins its path.
fn from_text(alloc: Global, marks: &Marks<'_>, from: Option<u32>) -> Result<String, AllocError>
    ensures { IfOk result (λ text. string_bytes text ≡ spec.from_text marks.now from) }
{
    match from {
        Some(from) => {
            let name = resource_name(marks, from);
            format!(in alloc; ", from {name}")
        }
        None => String::from_str(alloc, ""),
    }
}

/// Returns the title of the mark of `stay`, as `x1 on r0c1_h at 3, from r0c0_f_o`.
pub(crate) fn stay_title(alloc: Global, marks: &Marks<'_>, stay: Stay) -> Result<String, AllocError>
    ensures { IfOk result (λ text. string_bytes text ≡ spec.stay_title marks.now (position_of stay)) }
{
    let name = node_name(marks, stay.source);
    let place = resource_name(marks, stay.resource);
    let time = stay.time;
    let from = from_text(alloc, marks, stay.from)?;
    let way = from.as_str();
    format!(in alloc; "{name} on {place} at {time}{way}")
}

/// Returns the title of the line of `stay` from the resource `from`, as `x1: r0c0_f_o to r0c1_h at 3`.
pub(crate) fn link_title(
    alloc: Global,
    marks: &Marks<'_>,
    stay: Stay,
    from: u32,
) -> Result<String, AllocError>
    ensures { IfOk result (λ text. string_bytes text ≡ spec.link_title marks.now (position_of stay) from) }
{
    let name = node_name(marks, stay.source);
    let begin = resource_name(marks, from);
    let end = resource_name(marks, stay.resource);
    let time = stay.time;
    format!(in alloc; "{name}: {begin} to {end} at {time}")
}

/// Adds the head of words of the class `class` at `x` and `y` to `text`.
fn push_words_head(
    alloc: Global,
    text: &mut Vec<u8>,
    class: &str,
    x: u64,
    y: u64,
) -> Result<(), AllocError>
    ensures { OnOk result (text.new.items ≡ text.old.items ++ svg.words_head class.now x y) }
{
    let head = format!(in alloc; "<text class='{class}' x='{x}' y='{y}'>")?;
    text.extend_from_slice(head.as_bytes())
}

/// Adds `name`, cut to `most` characters, to `text`: words of the class `class` at `x` and `y`.
pub(crate) fn push_name(
    alloc: Global,
    text: &mut Vec<u8>,
    class: &str,
    at: (u64, u64),
    most: usize,
    name: &str,
) -> Result<(), AllocError>
    ensures { OnOk result (text.new.items ≡ text.old.items ++ svg.words_text class.now at.0 at.1 (spec.cut most name.now)) }
{
    push_words_head(alloc, text, class, at.0, at.1)?;
    push_cut(text, most, name)?;
    text.extend_from_slice(b"</text>")
}

/// Adds `name`, cut to `most` characters, and `rest` after it to `text`: words of the class `class` at `x` and `y`.
pub(crate) fn push_name_with(
    alloc: Global,
    text: &mut Vec<u8>,
    class: &str,
    at: (u64, u64),
    most: usize,
    name: &str,
    rest: &str,
) -> Result<(), AllocError>
    ensures { OnOk result (text.new.items ≡ text.old.items ++ svg.words_text class.now at.0 at.1 (spec.cut most name.now ++ rest.now)) }
{
    push_words_head(alloc, text, class, at.0, at.1)?;
    push_cut(text, most, name)?;
    text.extend_from_slice(rest.as_bytes())?;
    text.extend_from_slice(b"</text>")?;
    Ok(())
}
