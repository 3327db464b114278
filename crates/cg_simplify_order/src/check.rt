//! Checks that a kernel's edges order all that has to be ordered.
ghost use Rattle.std.specs.Prelude.{IfOk, IsTrue};
ghost use Rattle.cg_simplify_order.specs.Found.{AreWithin};

use cg_depend::is_within;
use cg_distance::{DistanceTable, min_distance};
use cg_model::{Kernel, OrderEdge};
use std::alloc::{AllocError, Global};

/// Returns whether chains of edges of `kernel` give all of `needs`.
pub(crate) fn meets(alloc: Global, kernel: &Kernel, needs: &[OrderEdge]) -> Result<bool, AllocError>
    ensures { IfOk result (λ all. IsTrue all → AreWithin kernel.now needs.now) }
{
    let table = min_distance(alloc, kernel)?;
    Ok(are_within(&table, needs))
}

/// Returns whether chains of `table` give all of `needs`.
fn are_within(table: &DistanceTable, needs: &[OrderEdge]) -> bool
    ensures { IsTrue result → AreWithin table.now needs.now }
{
    for number in 0..needs.len() {
        let need = needs[number];
        if !is_within(table, need.from, need.to, need.distance) {
            return false;
        }
    }
    true
}
