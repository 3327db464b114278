//! Long searches at the intervals nearest to a mapping.
ghost use Rattle.std.specs.Prelude.{◌≡◌, ◌+◌, ◌<◌, ◌≤◌, ◌^◌, IfOk, IfSome, length};
ghost use Rattle.cg_model.specs.Limits.{most_moves};
ghost use Rattle.cg_intervals.specs.Intervals.{last_tried};
ghost use Rattle.cg_search.specs.Search.{AreMissedFrom};
ghost use Rattle.cg_search.specs.Course.{IsPosed, Comes};

use crate::misses::{Miss, lessen};
use crate::trying::{Call, Found, Outcome, search_long};
use cg_diagnostics::Aside;
use cg_search_respond::Responded;
use std::alloc::{AllocError, Global};

/// The greatest number of intervals at which long searches are made where no probe found a mapping.
const NEAREST: u32 = 3;

/// The result of the long searches at the nearest intervals.
#[derive(Drop)]
pub(crate) struct Retried<'a> {
    /// The result of all intervals.
    pub(crate) outcome: Outcome<'a>,
    /// The intervals at which a long search found no mapping.
    pub(crate) failed: Vec<u32>,
}

/// Makes long searches at the intervals of `call` at which the fewest faults are left, one after the other, until one
/// finds a mapping. The probes left `misses` at each interval; `aside` takes the progress.
pub(crate) fn retry<'a>(
    alloc: Global,
    call: &Call<'a, '_>,
    misses: Vec<Miss>,
    aside: &mut dyn Aside,
) -> Result<Retried<'a>, AllocError>
    requires posed { IsPosed call.now.arch.now call.now.kernel.now call.now.request.ii call.now.first }
    requires few { call.now.request.moves ≤ most_moves }
    requires misses { AreMissedFrom call.now.arch.now call.now.kernel.now call.now.first misses.items }
    requires all { call.now.first + length misses.items ≡ last_tried call.now.arch.now call.now.request.ii + 1 }
    ensures { IfOk result (λ r. Comes call.now.arch.now call.now.kernel.now call.now.request.ii call.now.request.moves call.now.first r.outcome) }
{
    call.arch.contexts();
    let mut misses = misses;
    let mut failed = Vec::new(alloc);
    for _number in 0..NEAREST {
        let Some(at) = nearest(call.first, misses.as_slice(), failed.as_slice()) else {
            break;
        };
        let ii = call.first + at as u32;
        match search_long(alloc, call, ii, aside)? {
            Responded::Mapped(mapping, moves) => {
                let outcome = Outcome::Found(Found { mapping, moves });
                return Ok(Retried { outcome, failed });
            }
            Responded::Spent { faults, mapping } => {
                lessen(call, &mut misses, at, faults, mapping);
                failed.push(ii)?;
            }
        }
    }
    let outcome = Outcome::Left(misses);
    Ok(Retried { outcome, failed })
}

/// Returns the position in `misses` of the first least number of faults, except at the `failed` intervals; None where
/// there are no other intervals. The list begins with the interval `first`.
fn nearest(first: u32, misses: &[Miss], failed: &[u32]) -> Option<usize>
    requires { first + length misses.now < 2 ^ 32 }
    ensures { IfSome result (λ at. at < length misses.now) }
{
    let mut nearest = None;
    let mut least = u64::MAX;
    for (at, miss) in misses.iter().enumerate() {
        let faults = u64::from(miss.faults);
        if faults < least && !failed.contains(&(first + at as u32)) {
            nearest = Some(at);
            least = faults;
        }
    }
    nearest
}
