//! A kernel on an architecture, at an interval.

use cg_arch::Arch;
use cg_model::Kernel;
use cg_recur::earliest_times;
use std::alloc::{AllocError, Global};
use std::marker::Model;

/// A kernel that is to be mapped on an architecture, at an interval that no recurrence forbids; and the earliest times
/// of its nodes there. Each of its operations is offered by some unit.
#[derive(Drop)]
pub struct Task<'a> {
    arch: &'a Arch,
    kernel: &'a Kernel,
    ii: u32,
    early: Vec<u32>,
}

impl<'a> Model for Task<'a> {
    ghost use Rattle.cg_place.specs.Posed.{Posed, IsTask};

    ghost Value = { Posed };

    ghost view = { λ t. record { arch = t.arch.now; kernel = t.kernel.now; ii = t.ii; early = t.early.items } };

    ghost invariant = { λ t. IsTask (record { arch = t.arch.now; kernel = t.kernel.now; ii = t.ii; early = t.early.items }) };
}

impl<'a> Task<'a> {
    ghost use Rattle.std.specs.Prelude.{◌≡◌, ◌<◌, ◌≤◌, IfOk};
    ghost use Rattle.cg_recur.specs.Recurrences.{HasNoRecurrence};
    ghost use Rattle.cg_place.specs.Placed.{IsOffered};
    ghost use Rattle.cg_place.specs.Posed.{IsTask};

    /// Returns the task of `kernel` on `arch`, at the interval `ii`.
    pub fn new(
        alloc: Global,
        arch: &'a Arch,
        kernel: &'a Kernel,
        ii: u32,
    ) -> Result<Task<'a>, AllocError>
        requires some { 0 < ii }
        requires contexts { ii ≤ arch.now.contexts }
        requires offered { IsOffered arch.now kernel.now }
        requires free { HasNoRecurrence arch.now kernel.now ii }
        ensures { IfOk result (λ t. t ≡ record { arch = arch.now; kernel = kernel.now; ii = ii; early = t.early }) }
    {
        arch.contexts();
        kernel.nodes();
        let early = earliest_times(alloc, arch, kernel, ii)?;
        Ok(Task {
            arch,
            kernel,
            ii,
            early,
        })
    }

    /// Returns the architecture.
    pub fn arch(&self) -> &'a Arch
        ensures { result.now ≡ self.now.arch }
    {
        self.arch
    }

    /// Returns the kernel.
    pub fn kernel(&self) -> &'a Kernel
        ensures { result.now ≡ self.now.kernel }
    {
        self.kernel
    }

    /// Returns the interval, in cycles.
    pub fn interval(&self) -> u32
        ensures { result ≡ self.now.ii }
    {
        self.ii
    }

    /// Returns the earliest time of each node, in cycles.
    pub fn early(&self) -> &[u32]
        ensures { result.now ≡ self.now.early }
    {
        self.early.as_slice()
    }

    /// States what holds of the task; the call does nothing.
    pub fn holds(&self)
        ensures { IsTask self.now }
    {
        let _ = &self.early;
    }
}
