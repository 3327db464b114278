//! Least total distances of chains of edges.

use crate::totals::all_totals;
use cg_model::{Items, Kernel};
use std::alloc::{AllocError, Global};
use std::marker::Model;

/// The least total distances of the chains of a kernel's edges, which contracts see as the kernel.
#[derive(Drop)]
pub struct DistanceTable<'k> {
    kernel: &'k Kernel,
    rows: Vec<Items<Option<u32>>>,
}

impl<'k> Model for DistanceTable<'k> {
    ghost use Rattle.cg_model.specs.Kernel as kernels;
    ghost use Rattle.cg_distance.specs.Table.{IsTable};

    ghost Value = { kernels.Kernel };

    ghost view = { λ t. t.kernel.now };

    ghost invariant = { λ t. IsTable t.kernel.now t.rows.items };
}

impl<'k> DistanceTable<'k> {
    ghost use Rattle.std.specs.Prelude.{IfSome, IfNone};
    ghost use Rattle.cg_distance.specs.Least.{IsLeast, HasNoChain};

    /// Returns the least total distance of a non-empty chain of data and order edges from node `from` to node `to`.
    pub fn get(&self, from: u32, to: u32) -> Option<u32>
        ensures least { IfSome result (IsLeast self.now from to) }
        ensures none { IfNone result (HasNoChain self.now from to) }
    {
        let size = self.kernel.nodes().len();
        if from as usize >= size || to as usize >= size {
            return None;
        }
        let row = self.rows[from as usize].as_slice();
        row[to as usize]
    }
}

ghost use Rattle.std.specs.Prelude.{◌≡◌, IfOk};

/// Returns the least total distances of the chains of the edges of `kernel`.
pub fn min_distance<'k>(alloc: Global, kernel: &'k Kernel) -> Result<DistanceTable<'k>, AllocError>
    ensures { IfOk result (λ t. t ≡ kernel.now) }
{
    Ok(DistanceTable {
        kernel,
        rows: all_totals(alloc, kernel)?,
    })
}
