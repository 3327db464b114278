//! The state of a run before its first cycle.
ghost use Rattle.std.specs.Prelude.{◌≡◌, ◌<◌, ◌≤◌, ◌^◌, IfOk};
ghost use Rattle.cg_model.specs.Canonical.{IsCanonical};
ghost use Rattle.cg_model.specs.Config as configs;
ghost use Rattle.cg_model.specs.Limits.{most_turns};
ghost use Rattle.cg_model.specs.Machine.{cycles};
ghost use Rattle.cg_datapath.specs.State.{IsFresh};

use crate::effects::Effects;
use crate::streams::reserve_streams;
use cg_arch::Arch;
use cg_config::Contexts;
use cg_pad::{Image, Scratchpad};
use std::alloc::{AllocError, Global};

/// Returns the effects of a run of `n` iterations from `image` before its first cycle, with room for all effects of the
/// units of `arch` under `contexts`.
pub fn no_effects<C: Contexts>(
    alloc: Global,
    arch: &Arch,
    contexts: &C,
    n: u32,
    image: &Image,
) -> Result<Effects, AllocError>
    requires { IsCanonical arch.now (C.config contexts.now) }
    ensures { IfOk result (IsFresh arch.now (C.config contexts.now) n image.now) }
{
    let memory = Scratchpad::new(alloc, image.memory())?;
    let pending = Vec::with_capacity(alloc, arch.units().len())?;
    let streams = reserve_streams(alloc, arch, contexts, n)?;
    Ok(Effects {
        memory,
        pending,
        streams,
        outside: 0,
    })
}

/// Returns the number of cycles of a run of `n` iterations, of `stages` stages at the interval `ii`.
pub fn length_in_cycles(n: u32, stages: u32, ii: u32) -> u64
    requires turns { n ≤ most_turns }
    requires stages { (0 < stages) × (stages ≤ 65535) }
    requires ii { ii ≤ 64 }
    ensures value { (C : configs.Config) → C.ii ≡ ii → C.stages ≡ stages → result ≡ cycles C n }
    ensures few { result ≤ 2 ^ 27 }
{
    if n == 0 {
        0
    } else {
        (u64::from(n) + u64::from(stages) - 1) * u64::from(ii)
    }
}
