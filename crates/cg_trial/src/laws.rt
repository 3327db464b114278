//! Laws of the trial. Every function here has an empty body, and its clauses are about the definitions alone.
ghost use Rattle.cg_trial.specs.Laws.{AreOrdered, IsEnough};

/// States that the accesses of the kernel are ordered, for every number of iterations and every image.
pub fn ordered()
    ensures { AreOrdered }
{}

/// States that at an interval of 64 cycles the hub suffices for the kernel.
pub fn enough()
    ensures { IsEnough }
{}
