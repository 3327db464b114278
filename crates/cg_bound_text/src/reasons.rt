//! Reasons as text.
ghost use Rattle.std.specs.Prelude.{◌≡◌, ◌++◌, IfOk, OnOk, string_bytes, flat_map, sum_by};
ghost use Rattle.cg_bound_registers.specs.Sums.{table, IsShort};
ghost use Rattle.cg_bound_recurrence.specs.WayCycles.{registers_of as registers_on};
ghost use Rattle.cg_bound_all.specs.Why.{HasShortLists};
ghost use Rattle.cg_bound_text.specs.Text.{way_cycle_text, stay_word, pull_word, tie_word, circulation_text, registers_text, reason_text, no_way_text, weight_word, heading};

use crate::instances::AtInterval;
use cg_bound::{edge_word, push_chain, push_edges, push_set, sums};
use cg_bound_all::Reason;
use cg_bound_recurrence::least_registers;
use cg_bound_registers::{Pressure, Pull, Stay, Tie, count_registers, least_stays};
use cg_bound_routes::Missing;
use cg_recur::{EdgeId, Kernel};
use std::alloc::{AllocError, Global};

/// Adds the text of `reason`, which excludes the interval of `at`, to `text`, as `cycle x.0 a.0 latency 3 distance 1`.
pub fn push_reason(
    alloc: Global,
    text: &mut Vec<u8>,
    at: AtInterval,
    reason: &Reason,
) -> Result<(), AllocError>
    requires short { HasShortLists reason.now }
    ensures { OnOk result (text.new.items ≡ text.old.items ++ reason_text at.entry.arch.now at.entry.kernel.now (table at.entry.hops.now) at.entry.ii reason.now) }
{
    match reason {
        Reason::Recurrence(ids) => {
            text.extend_from_slice(b"cycle")?;
            push_chain(alloc, text, at.arch, at.kernel, ids)
        }
        Reason::Class(set) => {
            text.extend_from_slice(b"class")?;
            push_set(alloc, text, at.arch, at.kernel, *set)
        }
        Reason::NoWay(missing) => push_no_way(alloc, text, at.kernel, *missing),
        Reason::Ways(ids) => push_way_cycle(alloc, text, at, ids),
        Reason::Registers(pressure) => push_registers(alloc, text, at, pressure),
    }
}

/// Adds an edge without a way.
fn push_no_way(
    alloc: Global,
    text: &mut Vec<u8>,
    kernel: &Kernel,
    missing: Missing,
) -> Result<(), AllocError>
    ensures { OnOk result (text.new.items ≡ text.old.items ++ no_way_text kernel.now missing) }
{
    let Missing { node, arg } = missing;
    text.extend_from_slice(b"no way")?;
    push_word(
        text,
        edge_word(alloc, kernel, EdgeId::Arg { node, arg })?.as_str(),
    )
}

/// Adds `word` to `text`.
fn push_word(text: &mut Vec<u8>, word: &str) -> Result<(), AllocError>
    ensures { OnOk result (text.new.items ≡ text.old.items ++ word.now) }
{
    text.extend_from_slice(word.as_bytes())?;
    Ok(())
}

/// Returns the sum of the least numbers of registers that the values of the edges `ids` cross.
fn sum_of_registers(hops: &[u32], ids: &[EdgeId]) -> u128
    ensures { result ≡ sum_by (registers_on (table hops.now)) ids.now }
{
    let mut sum: u128 = 0;
    for id in ids {
        sum += least_registers(hops, *id) as u128;
    }
    sum
}

/// Adds a closed chain with the registers on its ways.
fn push_way_cycle(
    alloc: Global,
    text: &mut Vec<u8>,
    at: AtInterval,
    ids: &[EdgeId],
) -> Result<(), AllocError>
    ensures { OnOk result (text.new.items ≡ text.old.items ++ way_cycle_text at.entry.arch.now at.entry.kernel.now (table at.entry.hops.now) ids.now) }
{
    let (latency, distance) = sums(at.arch, at.kernel, ids);
    let ways = sum_of_registers(at.hops, ids);
    text.extend_from_slice(b"cycle")?;
    push_edges(alloc, text, at.kernel, ids)?;
    let word = format!(in alloc; " latency {latency} ways {ways} distance {distance}")?;
    push_word(text, word.as_str())
}

/// Adds a weight after a blank.
fn push_weight(alloc: Global, text: &mut Vec<u8>, weight: u32) -> Result<(), AllocError>
    ensures { OnOk result (text.new.items ≡ text.old.items ++ weight_word weight) }
{
    let word = format!(in alloc; " {weight}")?;
    push_word(text, word.as_str())
}

/// Adds the edges whose stays count, each after a blank.
fn push_stays(
    alloc: Global,
    text: &mut Vec<u8>,
    kernel: &Kernel,
    stays: &[Stay],
) -> Result<(), AllocError>
    ensures { OnOk result (text.new.items ≡ text.old.items ++ flat_map (stay_word kernel.now) stays.now) }
{
    for stay in stays {
        let Stay { node, arg } = *stay;
        push_word(
            text,
            edge_word(alloc, kernel, EdgeId::Arg { node, arg })?.as_str(),
        )?;
    }
    Ok(())
}

/// Adds the opposite data edges, each with its weight.
fn push_pulls(
    alloc: Global,
    text: &mut Vec<u8>,
    kernel: &Kernel,
    pulls: &[Pull],
) -> Result<(), AllocError>
    ensures { OnOk result (text.new.items ≡ text.old.items ++ flat_map (pull_word kernel.now) pulls.now) }
{
    for pull in pulls {
        let Pull { node, arg, weight } = *pull;
        push_word(
            text,
            edge_word(alloc, kernel, EdgeId::Arg { node, arg })?.as_str(),
        )?;
        push_weight(alloc, text, weight)?;
    }
    Ok(())
}

/// Adds the opposite order edges, each with its weight.
fn push_ties(
    alloc: Global,
    text: &mut Vec<u8>,
    kernel: &Kernel,
    ties: &[Tie],
) -> Result<(), AllocError>
    ensures { OnOk result (text.new.items ≡ text.old.items ++ flat_map (tie_word kernel.now) ties.now) }
{
    for tie in ties {
        let Tie { edge, weight } = *tie;
        push_word(
            text,
            edge_word(alloc, kernel, EdgeId::Order(edge))?.as_str(),
        )?;
        push_weight(alloc, text, weight)?;
    }
    Ok(())
}

/// Adds `name`, the name of a list of `count` edges, if `count` isn't 0.
fn push_heading(text: &mut Vec<u8>, name: &str, count: usize) -> Result<(), AllocError>
    ensures { OnOk result (text.new.items ≡ text.old.items ++ heading name.now count) }
{
    if count == 0 {
        return Ok(());
    }
    push_word(text, name)
}

/// Adds the edges of a circulation.
fn push_circulation(
    alloc: Global,
    text: &mut Vec<u8>,
    kernel: &Kernel,
    pressure: &Pressure,
) -> Result<(), AllocError>
    ensures { OnOk result (text.new.items ≡ text.old.items ++ circulation_text kernel.now pressure.now) }
{
    push_heading(text, " stay", pressure.stays.len())?;
    push_stays(alloc, text, kernel, &pressure.stays)?;
    push_heading(text, " pull", pressure.pulls.len())?;
    push_pulls(alloc, text, kernel, &pressure.pulls)?;
    push_heading(text, " tie", pressure.ties.len())?;
    push_ties(alloc, text, kernel, &pressure.ties)
}

/// Adds the least number of register slots that the values need, the number that there are, and the circulation that
/// shows it.
fn push_registers(
    alloc: Global,
    text: &mut Vec<u8>,
    at: AtInterval,
    pressure: &Pressure,
) -> Result<(), AllocError>
    requires short { IsShort pressure.now }
    ensures { OnOk result (text.new.items ≡ text.old.items ++ registers_text at.entry.arch.now at.entry.kernel.now (table at.entry.hops.now) at.entry.ii pressure.now) }
{
    let need = least_stays(at.arch, at.kernel, at.hops, at.ii, pressure);
    let room = at.ii as u64 * count_registers(at.arch) as u64;
    let words = format!(in alloc; "registers {need} of {room}")?;
    push_word(text, words.as_str())?;
    push_circulation(alloc, text, at.kernel, pressure)
}
