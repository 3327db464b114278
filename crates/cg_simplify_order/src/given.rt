//! The given kernel of a rewriting.

use cg_distance::{DistanceTable, min_distance};
use cg_model::Kernel;
use std::alloc::{AllocError, Global};
use std::marker::Model;

/// A kernel that is rewritten, with the least distances of the chains of its edges. Contracts see it as the kernel.
#[derive(Drop)]
pub struct GivenKernel<'k> {
    kernel: &'k Kernel,
    distances: DistanceTable<'k>,
}

impl<'k> Model for GivenKernel<'k> {
    ghost use Rattle.std.specs.Prelude.{◌≡◌};
    ghost use Rattle.cg_model.specs.Kernel as kernels;

    ghost Value = { kernels.Kernel };

    ghost view = { λ g. g.kernel.now };

    ghost invariant = { λ g. g.distances ≡ g.kernel.now };
}

impl<'k> GivenKernel<'k> {
    ghost use Rattle.std.specs.Prelude.{◌≡◌, IfNone, IfOk, IfSome};
    ghost use Rattle.cg_distance.specs.Least.{HasNoChain, IsLeast};

    /// Returns `kernel` with the least distances of the chains of its edges.
    pub fn of(alloc: Global, kernel: &'k Kernel) -> Result<GivenKernel<'k>, AllocError>
        ensures { IfOk result (λ g. g ≡ kernel.now) }
    {
        let distances = min_distance(alloc, kernel)?;
        Ok(GivenKernel { kernel, distances })
    }

    /// Returns the kernel.
    pub fn kernel(&self) -> &Kernel
        ensures { result.now ≡ self.now }
    {
        self.kernel
    }

    /// Returns the least total distance of a non-empty chain of data and order edges from node `from` to node `to`.
    pub(crate) fn distance(&self, from: u32, to: u32) -> Option<u32>
        ensures least { IfSome result (IsLeast self.now from to) }
        ensures none { IfNone result (HasNoChain self.now from to) }
    {
        self.distances.get(from, to)
    }
}
