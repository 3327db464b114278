//! The accesses of a kernel by their nodes.
ghost use Rattle.std.specs.Prelude.{◌≡◌, ◌<◌, IfOk, None, length, slice_index_or};
ghost use Rattle.cg_c_order.specs.Accesses.{access_of, both_conflict, by_node, conflict_at};

use crate::access::Access;
use std::alloc::{AllocError, Global};

/// Returns for each of `count` nodes its access among `accesses`, if it is one.
pub(crate) fn by_node(
    alloc: Global,
    count: usize,
    accesses: &[Access],
) -> Result<Vec<Option<Access>>, AllocError>
    ensures { IfOk result (λ table. table.items ≡ by_node count accesses.now) }
{
    let mut table = Vec::new(alloc);
    for node in 0..count {
        table.push(access_of(accesses, node))?;
    }
    Ok(table)
}

/// Returns the access of node `node` among `accesses`, if it is one.
fn access_of(accesses: &[Access], node: usize) -> Option<Access>
    ensures { result ≡ access_of accesses.now node }
{
    for access in accesses {
        if access.node as usize == node {
            return Some(*access);
        }
    }
    None
}

/// Returns whether the nodes `first` and `second` of `table` are accesses to one array, of which one stores.
pub(crate) fn conflict_at(table: &[Option<Access>], first: usize, second: usize) -> bool
    requires first { first < length table.now }
    requires second { second < length table.now }
    ensures { result ≡ conflict_at table.now first second }
{
    both_conflict(table[first], table[second])
}

/// Returns whether `first` and `second` are accesses to one array, of which one stores.
fn both_conflict(first: Option<Access>, second: Option<Access>) -> bool
    ensures { result ≡ both_conflict first second }
{
    match (first, second) {
        (Some(a), Some(b)) => a.array == b.array && (a.stores || b.stores),
        _ => false,
    }
}
