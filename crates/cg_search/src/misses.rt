//! The results of searches that find no mapping.
ghost use Rattle.std.specs.Prelude.{◌≡◌, ◌+◌, ◌<◌, OnOk, length};
ghost use Rattle.cg_search_respond.specs.Faults.{faults_of};
ghost use Rattle.cg_search_respond.specs.Responded.{IsMissed};
ghost use Rattle.cg_search.specs.Search.{AreMissedFrom};

use crate::trying::Call;
use cg_model::Mapping;
use std::alloc::AllocError;

/// The result at an interval at which no mapping was found.
#[derive(Drop)]
pub struct Miss {
    /// The least number of faults that was reached.
    pub faults: u32,
    /// The mapping with that number of faults. It isn't legal.
    pub mapping: Mapping,
}

/// Adds to `misses` that `mapping` has `faults` faults at its next interval of `call`.
pub(crate) fn add(
    call: &Call<'_, '_>,
    misses: &mut Vec<Miss>,
    faults: u32,
    mapping: Mapping,
) -> Result<(), AllocError>
    requires misses { AreMissedFrom call.now.arch.now call.now.kernel.now call.now.first misses.old.items }
    requires counted { faults ≡ faults_of call.now.arch.now call.now.kernel.now mapping }
    requires missed { IsMissed call.now.arch.now call.now.kernel.now (call.now.first + length misses.old.items) mapping }
    ensures more { OnOk result (length misses.new.items ≡ length misses.old.items + 1) }
    ensures misses { OnOk result (AreMissedFrom call.now.arch.now call.now.kernel.now call.now.first misses.new.items) }
{
    misses.push(Miss { faults, mapping })?;
    Ok(())
}

/// Replaces interval number `at` of `misses` by `mapping` with `faults` faults, where these are fewer.
pub(crate) fn lessen(
    call: &Call<'_, '_>,
    misses: &mut Vec<Miss>,
    at: usize,
    faults: u32,
    mapping: Mapping,
)
    requires misses { AreMissedFrom call.now.arch.now call.now.kernel.now call.now.first misses.old.items }
    requires at { at < length misses.old.items }
    requires counted { faults ≡ faults_of call.now.arch.now call.now.kernel.now mapping }
    requires missed { IsMissed call.now.arch.now call.now.kernel.now (call.now.first + at) mapping }
    ensures same { length misses.new.items ≡ length misses.old.items }
    ensures misses { AreMissedFrom call.now.arch.now call.now.kernel.now call.now.first misses.new.items }
{
    if faults < misses[at].faults {
        misses[at] = Miss { faults, mapping };
    }
}
