//! Accesses that no edges order.
ghost use Rattle.std.specs.Prelude.{◌≡◌, ◌<◌, ◌≤◌, ◌+◌, ◌*◌, ◌↔◌, [], IsTrue};
ghost use Rattle.cg_model.specs.Kernel.{size as size_of};
ghost use Rattle.cg_model.specs.Limits.{most_nodes};
ghost use Rattle.cg_model.specs.Order.{IsOrdered};
ghost use Rattle.cg_turns.specs.Pairs.{step_of};
ghost use Rattle.cg_turns.specs.Trace.{later_access, IsLatest, IsLooked, paired as paired_of};

use cg_distance::DistanceTable;

/// A node in a turn that accesses a word of the memory.
#[derive(Clone, Copy, Debug, PartialEq, Eq, Drop)]
pub struct Access {
    pub node: u32,
    pub turn: u32,
}

/// Two accesses of one word, at least one of them a store, that no edges order.
#[derive(Clone, Copy, Debug, PartialEq, Eq, Drop)]
pub struct UnorderedPair {
    pub earlier: Access,
    pub later: Access,
}

/// Returns whether the edges order `earlier` before `later`.
fn is_ordered(table: &DistanceTable, earlier: Access, later: Access) -> bool
    ensures { IsTrue result ↔ IsOrdered table.now earlier.node earlier.turn later.node later.turn }
{
    if earlier.node == later.node && earlier.turn < later.turn {
        return true;
    }
    match table.get(earlier.node, later.node) {
        Some(distance) => u64::from(earlier.turn) + u64::from(distance) <= u64::from(later.turn),
        None => false,
    }
}

/// Returns the number of the step of `access`.
fn step_number(size: usize, access: Access) -> u64
    requires { size ≤ most_nodes }
    ensures { result ≡ step_of size access }
{
    u64::from(access.turn) * size as u64 + u64::from(access.node)
}

/// Returns the later of the access `known`, if any, and `access`.
fn later_of(size: usize, known: Option<Access>, access: Access) -> Option<Access>
    requires { size ≤ most_nodes }
    ensures { result ≡ later_access size known access }
{
    match known {
        Some(known) => {
            if step_number(size, known) < step_number(size, access) {
                Some(access)
            } else {
                Some(known)
            }
        }
        None => Some(access),
    }
}

/// Returns the latest access that isn't ordered before another, after one more access was considered.
fn looked_at(
    table: &DistanceTable,
    size: usize,
    latest: Option<Access>,
    earlier: Access,
    later: Access,
) -> Option<Access>
    requires { size ≤ most_nodes }
    ensures { IsLooked table.now size later earlier latest result }
{
    if is_ordered(table, earlier, later) {
        latest
    } else {
        later_of(size, latest, earlier)
    }
}

/// Returns the store, if there is one and it isn't ordered before an access.
fn unordered_store(
    table: &DistanceTable,
    size: usize,
    store: Option<Access>,
    later: Access,
) -> Option<Access>
    requires size { size ≡ size_of table.now }
    requires few { size ≤ most_nodes }
    ensures { IsLatest table.now later store [] result }
{
    match store {
        Some(store) => looked_at(table, size, None, store, later),
        None => None,
    }
}

/// Returns the latest of an optional store and loads that isn't ordered before an access.
pub(crate) fn latest_unordered(
    table: &DistanceTable,
    size: usize,
    store: Option<Access>,
    loads: &[Access],
    later: Access,
) -> Option<Access>
    requires size { size ≡ size_of table.now }
    requires few { size ≤ most_nodes }
    ensures { IsLatest table.now later store loads.now result }
{
    let mut latest = unordered_store(table, size, store, later);
    for place in 0..loads.len() {
        latest = looked_at(table, size, latest, loads[place], later);
    }
    latest
}

/// Returns the pair of `earlier`, if there is one, and `later`.
pub(crate) fn paired(earlier: Option<Access>, later: Access) -> Option<UnorderedPair>
    ensures { result ≡ paired_of later earlier }
{
    match earlier {
        Some(earlier) => Some(UnorderedPair { earlier, later }),
        None => None,
    }
}
