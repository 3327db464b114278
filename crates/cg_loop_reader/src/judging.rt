//! The faults in the names and the ports of a text.
ghost use Rattle.std.specs.Prelude.{◌≡◌, None, map, IfErr, OnOk};
ghost use Rattle.cg_loop_syntax.specs.Uses.{fault_of};
ghost use Rattle.cg_loop_reader.specs.Used.{use_of};
ghost use Rattle.cg_loop_reader.specs.Judged.{IsFaultOf};

use crate::arrays::first_misplaced;
use crate::assignments::first_misassigned;
use crate::declarations::{first_repeated, first_unknown};
use crate::naming::number_names;
use crate::ports::first_bad_port;
use crate::uses::Use;
use cg_loop_syntax::LoopFault;
use std::alloc::Global;

/// Checks `uses`, the names and ports of a text in order. The fault is the one of the lowest number, at its first
/// place.
pub fn judge(alloc: Global, uses: &[Use<'_>]) -> Result<(), LoopFault>
    ensures ok { OnOk result (fault_of (map use_of uses.now) ≡ None) }
    ensures fault { IfErr result (λ e. IsFaultOf e (fault_of (map use_of uses.now))) }
{
    let numbered = number_names(alloc, uses)?;
    if let Some(place) = first_unknown(alloc, &numbered)? {
        return Err(LoopFault::UnknownName(place));
    }
    if let Some(place) = first_repeated(alloc, &numbered)? {
        return Err(LoopFault::RepeatedName(place));
    }
    if let Some(place) = first_misassigned(alloc, &numbered)? {
        return Err(LoopFault::CarryAssign(place));
    }
    if let Some(place) = first_misplaced(alloc, &numbered)? {
        return Err(LoopFault::BadArray(place));
    }
    if let Some(place) = first_bad_port(&numbered) {
        return Err(LoopFault::BadPort(place));
    }
    Ok(())
}
