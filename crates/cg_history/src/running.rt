//! A whole run.
ghost use Rattle.std.specs.Prelude.{◌≡◌, ◌≢◌, ◌<◌, ◌≤◌, ◌↔◌, ℕ, Err, IfOk, length};
ghost use Rattle.cg_model.specs.Canonical.{IsCanonical};
ghost use Rattle.cg_model.specs.Limits.{most_turns};
ghost use Rattle.cg_model.specs.Machine.{cycles, machine_left};
ghost use Rattle.cg_pad.specs.Bytes.{IsStorable};

use crate::replay::{Run, replay};
use cg_arch::Arch;
use cg_config::Contexts;
use cg_datapath::{RunEnd, SimFault, check_run};
use cg_origins::tasks_of;
use cg_pad::Image;
use cg_sim::Sim;
use std::alloc::Global;

/// Runs `n` iterations of `arch` under `contexts` from `image`, and returns what they leave.
///
/// It is fast where each operand is a result of at most 255 cycles ago, and else runs every resource in every cycle.
pub fn run<C: Contexts>(
    alloc: Global,
    arch: &Arch,
    contexts: &C,
    n: u32,
    image: &Image,
) -> Result<RunEnd, SimFault>
    requires { IsCanonical arch.now (C.config contexts.now) }
    ensures cycles { IfOk result (λ end. end.cycles ≡ cycles (C.config contexts.now) n) }
    ensures left { IfOk result (λ end. record { image = end.image; outside = end.outside } ≡ machine_left arch.now (C.config contexts.now) n image.now) }
    ensures storable { IfOk result (λ end. IsStorable end.image) }
    ensures many { (t : ℕ) → (result ≡ Err (SimFault.TooManyTurns t)) ↔ ((t ≡ n) × (most_turns < n)) }
    ensures large { (w : ℕ) → (result ≡ Err (SimFault.ImageTooLarge w)) ↔ ((w ≡ length image.now.memory) × (n ≤ most_turns) × (arch.now.memory < w)) }
{
    match check_run(arch, n, image) {
        Ok(()) => run_fitting(
            alloc,
            &Run {
                arch,
                contexts,
                n,
                image,
            },
        ),
        Err(fault) => Err(fault),
    }
}

/// Runs `run`, whose number of iterations is within the limit and whose image fits the memory, and returns what it
/// leaves.
fn run_fitting<C: Contexts>(alloc: Global, run: &Run<'_, C>) -> Result<RunEnd, SimFault>
    requires canonical { IsCanonical run.now.arch.now (C.config run.now.contexts.now) }
    requires turns { run.now.n ≤ most_turns }
    requires fits { length run.now.image.now.memory ≤ run.now.arch.now.memory }
    ensures cycles { IfOk result (λ end. end.cycles ≡ cycles (C.config run.now.contexts.now) run.now.n) }
    ensures left { IfOk result (λ end. record { image = end.image; outside = end.outside } ≡ machine_left run.now.arch.now (C.config run.now.contexts.now) run.now.n run.now.image.now) }
    ensures storable { IfOk result (λ end. IsStorable end.image) }
    ensures few { (t : ℕ) → result ≢ Err (SimFault.TooManyTurns t) }
    ensures small { (w : ℕ) → result ≢ Err (SimFault.ImageTooLarge w) }
{
    match tasks_of(alloc, run.arch, run.contexts)? {
        Some(tasks) => Ok(replay(alloc, run, &tasks)?),
        None => simulate(alloc, run),
    }
}

/// Runs all resources in all cycles of `run`, whose number of iterations is within the limit and whose image fits the
/// memory, and returns what they leave.
fn simulate<C: Contexts>(alloc: Global, run: &Run<'_, C>) -> Result<RunEnd, SimFault>
    requires canonical { IsCanonical run.now.arch.now (C.config run.now.contexts.now) }
    requires turns { run.now.n ≤ most_turns }
    requires fits { length run.now.image.now.memory ≤ run.now.arch.now.memory }
    ensures cycles { IfOk result (λ end. end.cycles ≡ cycles (C.config run.now.contexts.now) run.now.n) }
    ensures left { IfOk result (λ end. record { image = end.image; outside = end.outside } ≡ machine_left run.now.arch.now (C.config run.now.contexts.now) run.now.n run.now.image.now) }
    ensures storable { IfOk result (λ end. IsStorable end.image) }
    ensures few { (t : ℕ) → result ≢ Err (SimFault.TooManyTurns t) }
    ensures small { (w : ℕ) → result ≢ Err (SimFault.ImageTooLarge w) }
{
    match Sim::new(alloc, run.arch, run.contexts, run.n, run.image) {
        Ok(sim) => Ok(finished(sim)),
        Err(fault) => Err(fault),
    }
}

/// Runs all cycles of `sim`, and returns what they leave.
fn finished<C: Contexts>(sim: Sim<'_, C>) -> RunEnd
    requires { sim.done ≡ 0 }
    ensures cycles { result.cycles ≡ cycles sim.entry.config sim.entry.n }
    ensures left { record { image = result.image; outside = result.outside } ≡ machine_left sim.entry.arch sim.entry.config sim.entry.n sim.entry.image }
    ensures storable { IsStorable result.image }
{
    let mut sim = sim;
    let cycles = sim.left();
    sim.finish();
    let outside = sim.outside();
    let image = sim.into_image();
    RunEnd {
        cycles,
        image,
        outside,
    }
}
