//! Reads the description of a kernel from a JSON value.
ghost use Rattle.std.specs.Prelude.{◌≡◌, IfOk, map};
ghost use Rattle.serde_json.specs.View.{view};
ghost use Rattle.cg_reading.specs.Items.{all_or_first};
ghost use Rattle.cg_reading.specs.Reads.{IsRead, IsReadAt};
ghost use Rattle.cg_kernel.specs.Words.{HasAllWords};
ghost use Rattle.cg_kernel.specs.Written as spec;

use crate::fault::KernelPlace;
use crate::written::{Format, WrittenArg, WrittenEdge, WrittenKernel, WrittenNode};
use cg_json::{
    WordReader, has_other_keys, items_at, items_or_none, optional_word_at, text_at, word_in,
    word_or,
};
use cg_model::Name;
use cg_reading::{ItemReader, Misfit, WRONG_SHAPE, all_of, all_or_first};
use serde_json::Value;
use std::alloc::Global;

/// The misfit of a file that has a wrong shape outside of its nodes and order edges.
const WRONG_FILE: Misfit<KernelPlace> = Misfit::WrongShape(KernelPlace::File);

/// Returns the description of a kernel in `value`, or the first place of a wrong shape.
pub fn written_of(alloc: Global, value: &Value) -> Result<WrittenKernel, Misfit<KernelPlace>>
    ensures value { IsReadAt (spec.written_of (view value.now)) result }
    ensures words { IfOk result HasAllWords }
{
    whole_of(alloc, value)
}

#[tactic(auto, unfolding(crate::specs::Written::written_of))]
fn whole_of(alloc: Global, value: &Value) -> Result<WrittenKernel, Misfit<KernelPlace>>
    ensures { IsReadAt (spec.written_of (view value.now)) result }
{
    let format = format_in(value).ok_or(WRONG_FILE)?;
    let nodes = items_at(value, "nodes").ok_or(WRONG_FILE)?;
    let order = items_or_none(value, "order").ok_or(WRONG_FILE)?;
    let other_keys = has_other_keys(value, &["format", "nodes", "order"]);
    joined(alloc, format, other_keys, nodes, order)
}

fn joined(
    alloc: Global,
    format: Format,
    other_keys: bool,
    nodes: &[Value],
    order: &[Value],
) -> Result<WrittenKernel, Misfit<KernelPlace>>
    ensures { IsReadAt (spec.joined format other_keys
        (all_or_first spec.node_in 0 (map view nodes.now))
        (all_or_first spec.edge_in 0 (map view order.now))) result }
{
    let nodes = all_or_first::<NodeReader>(alloc, nodes).map_err(|misfit| misfit.at(
        KernelPlace::Node,
    ))?;
    let order = all_or_first::<EdgeReader>(alloc, order).map_err(|misfit| misfit.at(
        KernelPlace::Order,
    ))?;
    Ok(WrittenKernel {
        format,
        nodes,
        order,
        other_keys,
    })
}

fn format_in(value: &Value) -> Option<Format>
    ensures { result ≡ spec.format_in (view value.now) }
{
    match text_at(value, "format") {
        Some("cgk1") => Some(Format::First),
        Some("cgk2") => Some(Format::Second),
        _ => None,
    }
}

/// Reads nodes.
struct NodeReader;

impl ItemReader for NodeReader {
    ghost use Rattle.serde_json.specs.Data as json;

    type Value = Value;

    type Item = WrittenNode;

    ghost Data = { json.Data };

    ghost data_of = { view };

    ghost item_in = { spec.node_in };

    fn read(alloc: Global, value: &Value) -> Result<WrittenNode, Misfit<()>> {
        let name = text_at(value, "name").ok_or(WRONG_SHAPE)?;
        let op = text_at(value, "op").ok_or(WRONG_SHAPE)?;
        let args = items_or_none(value, "args").ok_or(WRONG_SHAPE)?;
        let args = all_of::<ArgReader>(alloc, args)?;
        let port = optional_word_at(value, "port").ok_or(WRONG_SHAPE)?;
        let other_keys = has_other_keys(value, &["name", "op", "args", "port"]);
        Ok(WrittenNode {
            name: Name::copy_of(alloc, name)?,
            op: Name::copy_of(alloc, op)?,
            args,
            port,
            other_keys,
        })
    }
}

/// Reads order edges.
struct EdgeReader;

impl ItemReader for EdgeReader {
    ghost use Rattle.serde_json.specs.Data as json;

    type Value = Value;

    type Item = WrittenEdge;

    ghost Data = { json.Data };

    ghost data_of = { view };

    ghost item_in = { spec.edge_in };

    fn read(alloc: Global, value: &Value) -> Result<WrittenEdge, Misfit<()>> {
        let from = text_at(value, "from").ok_or(WRONG_SHAPE)?;
        let to = text_at(value, "to").ok_or(WRONG_SHAPE)?;
        let distance = word_or(value, "distance", 0).ok_or(WRONG_SHAPE)?;
        let other_keys = has_other_keys(value, &["from", "to", "distance"]);
        Ok(WrittenEdge {
            from: Name::copy_of(alloc, from)?,
            to: Name::copy_of(alloc, to)?,
            distance,
            other_keys,
        })
    }
}

/// Reads arguments of nodes.
struct ArgReader;

impl ItemReader for ArgReader {
    ghost use Rattle.serde_json.specs.Data as json;

    type Value = Value;

    type Item = WrittenArg;

    ghost Data = { json.Data };

    ghost data_of = { view };

    ghost item_in = { spec.arg_in };

    fn read(alloc: Global, value: &Value) -> Result<WrittenArg, Misfit<()>> {
        match word_in(value) {
            Some(number) => Ok(WrittenArg::Number(number)),
            None => source_in(alloc, value),
        }
    }
}

fn source_in(alloc: Global, value: &Value) -> Result<WrittenArg, Misfit<()>>
    ensures { IsRead (spec.source_in (view value.now)) result }
{
    let from = text_at(value, "from").ok_or(WRONG_SHAPE)?;
    let distance = word_or(value, "distance", 0).ok_or(WRONG_SHAPE)?;
    let init = items_or_none(value, "init").ok_or(WRONG_SHAPE)?;
    let init = all_of::<WordReader>(alloc, init)?;
    let other_keys = has_other_keys(value, &["from", "distance", "init"]);
    Ok(WrittenArg::Source {
        from: Name::copy_of(alloc, from)?,
        distance,
        init,
        other_keys,
    })
}
