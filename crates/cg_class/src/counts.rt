//! Counts of the nodes and units of a set of operations.
ghost use Rattle.std.specs.Prelude.{◌≡◌, ◌≤◌, length};
ghost use Rattle.cg_class.specs.Class.{offers_one, nodes_in, units_for, load};

use cg_model::{Node, Unit};
use cg_word::{Op, OpSet};

/// Returns whether some operation of `set` is in `offered`.
#[tactic(auto, unfolding(crate::specs::Class::offers_one))]
fn offers_one(set: OpSet, offered: OpSet) -> bool
    ensures { result ≡ offers_one set offered }
{
    Op::ALL
        .iter()
        .copied()
        .any(move |op: Op| set.has(op) && offered.has(op))
}

/// Returns the number of `nodes` whose operation is in `set`.
pub(crate) fn count_nodes(nodes: &[Node], set: OpSet) -> usize
    ensures exact { result ≡ nodes_in nodes.now set }
    ensures bound { result ≤ length nodes.now }
{
    let mut count = 0;
    for node in nodes {
        if set.has(node.op) {
            count += 1;
        }
    }
    count
}

/// Returns the number of `units` that offer an operation of `set`.
pub(crate) fn count_units(units: &[Unit], set: OpSet) -> usize
    ensures exact { result ≡ units_for units.now set }
    ensures bound { result ≤ length units.now }
{
    let mut count = 0;
    for unit in units {
        if offers_one(set, unit.ops) {
            count += 1;
        }
    }
    count
}

/// Returns the number of nodes on `unit`.
pub(crate) fn count_on(places: &[u32], unit: u32) -> usize
    ensures exact { result ≡ load places.now unit }
    ensures bound { result ≤ length places.now }
{
    let mut count = 0;
    for place in places {
        if *place == unit {
            count += 1;
        }
    }
    count
}
