//! `run ARCH BITS TURNS IN OUT --netlist FILE`.
ghost use Rattle.std.specs.Prelude.{◌≡◌, ◌≤◌};
ghost use Rattle.cg_model.specs.Canonical.{IsCanonical};
ghost use Rattle.cg_model.specs.Limits.{most_turns};
ghost use Rattle.cg_cause.specs.Allowed.{Allows};
ghost use Rattle.cg_effects.specs.Outcome.{file_of};
ghost use Rattle.cg_inputs.specs.Answered.{ReadThen};
ghost use Rattle.cg_command_run.specs.Run.{run_by_size};
ghost use Rattle.cg_command_run.specs.Netlist.{IsNetlistRun, ReadsOn, RunsGates, gates_ran};

use crate::reading_netlist::{gates_in, netlist_in};
use crate::simulating::{left_outcome, too_large};
use cg_arch::Arch;
use cg_bits::Config;
use cg_cause::Stop;
use cg_command::ArrayCall;
use cg_datapath::RunEnd;
use cg_effects::{File, Outcome};
use cg_gates_run::{GateRun, Gates};
use cg_inputs::{array_in, image_in};
use cg_pad::Image;
use std::alloc::Global;

/// Returns the outcome of `run`, called by `call`, with the netlist in `netlist` in place of the array.
pub fn run_netlist(
    alloc: Global,
    call: &ArrayCall<&File, &str>,
    netlist: &File,
) -> Result<Outcome, Stop>
    requires { call.now.turns ≤ most_turns }
    ensures { Allows (IsNetlistRun call.now.turns (file_of call.now.arch.now) (file_of call.now.bits.now) (file_of call.now.image.now) (file_of netlist.now) call.now.out.now) result }
{
    let array = array_in(alloc, call.arch, call.bits)?;
    run_configured(alloc, call, netlist, &array.arch, &array.config)
}

/// Returns the outcome of the netlist in `netlist` over `arch` under `config`, which were read from files of `call`.
fn run_configured(
    alloc: Global,
    call: &ArrayCall<&File, &str>,
    netlist: &File,
    arch: &Arch,
    config: &Config,
) -> Result<Outcome, Stop>
    requires turns { call.now.turns ≤ most_turns }
    requires canonical { IsCanonical arch.now config.now }
    ensures { Allows (ReadThen (ReadsOn (file_of call.now.image.now) (file_of netlist.now) arch.now)
        (λ s. RunsGates call.now.turns (file_of call.now.image.now).name call.now.out.now ((arch.now, config.now), s))) result }
{
    let image = image_in(alloc, call.image)?;
    let graph = netlist_in(alloc, netlist)?;
    let gates = gates_in(alloc, arch, &graph, netlist)?;
    run_gates(alloc, call, &gates, config, &image)
}

/// Runs the iterations of `call` by `gates` under `config` from `image`, which was read from its file, and returns the
/// outcome.
fn run_gates(
    alloc: Global,
    call: &ArrayCall<&File, &str>,
    gates: &Gates<'_>,
    config: &Config,
    image: &Image,
) -> Result<Outcome, Stop>
    requires turns { call.now.turns ≤ most_turns }
    requires canonical { IsCanonical gates.now.arch config.now }
    ensures { Allows (λ o. o ≡ run_by_size gates.now.arch (file_of call.now.image.now).name image.now
        (gates_ran call.now.turns gates.now.arch gates.now.netlist config.now image.now call.now.out.now)) result }
{
    match GateRun::new(alloc, gates, config, call.turns, image) {
        Ok(run) => gates_ran(alloc, run, call.out),
        Err(fault) => Err(too_large(alloc, fault, call.image)),
    }
}

/// Runs all cycles of `run`, whose image fits the memory, and returns the outcome; the result image is to be written
/// under `out`.
fn gates_ran(alloc: Global, run: GateRun<'_, Config>, out: &str) -> Result<Outcome, Stop>
    requires { run.done ≡ 0 }
    ensures { Allows (λ o. o ≡ gates_ran run.entry.n run.entry.arch run.entry.netlist run.entry.config run.entry.image out.now) result }
{
    let mut run = run;
    let cycles = run.left();
    run.finish();
    let outside = run.outside();
    let image = run.into_image();
    let end = RunEnd {
        cycles,
        image,
        outside,
    };
    left_outcome(alloc, &end, out)
}
