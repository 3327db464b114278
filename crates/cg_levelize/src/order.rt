//! The order of resources.
ghost use Rattle.std.specs.Prelude.{◌≤◌, ◌^◌, IfOk, IfErr, length};
ghost use Rattle.cg_levelize.specs.Topological.{AreKnown, IsTopological};
ghost use Rattle.cg_levelize.specs.Fault.{IsFaultOf};

use crate::fault::OrderFault;
use crate::walk::Walk;
use cg_model::{Resource, Words};
use std::alloc::Global;

/// Returns an order of all resources in which each comes after those that drive it in the same cycle. Where there is
/// none, the fault names a loop.
pub fn topological_order(alloc: Global, resources: &[Resource]) -> Result<Words, OrderFault>
    // Each number fits 32 bits.
    requires few { length resources.now ≤ 2 ^ 32 }
    requires known { AreKnown resources.now }
    ensures order { IfOk result (IsTopological resources.now) }
    ensures ring { IfErr result (IsFaultOf resources.now) }
{
    let mut walk = Walk::new(alloc, resources.len())?;
    for start in 0..resources.len() {
        walk.place(alloc, resources, start as u32)?;
    }
    Ok(Words::new(walk.order))
}
