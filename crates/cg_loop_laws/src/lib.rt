//! What a loop does, what its kernel is, and that the kernel does the same as the loop.
//!
//! The laws are about values of definitions; they are the contracts of functions with empty bodies.
#![tactic(auto)]

ghost use Rattle.cg_loop_laws.specs.Laws.{AreLoops, AreKernels, DoLoops, AreUnaliased};

/// States that each loop body keeps what the laws below require of a body.
pub fn bodies_are_loops()
    ensures { AreLoops }
{}

/// States that the kernel of a loop is valid, if it is within the size limits of kernels.
pub fn kernels_are_valid()
    ensures { AreKernels }
{}

/// States that the iterations of the kernel of a loop leave what the loop leaves, on each image whose memory has the
/// words of all arrays.
pub fn turns_are_the_loop()
    ensures { DoLoops }
{}

/// States that no run of the kernel of a loop is aliased, whatever the image.
pub fn runs_are_unaliased()
    ensures { AreUnaliased }
{}
