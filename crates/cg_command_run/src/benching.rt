//! `bench ARCH BITS TURNS IN OUT`.
ghost use Rattle.std.specs.Prelude.{◌≤◌};
ghost use Rattle.cg_model.specs.Canonical.{IsCanonical};
ghost use Rattle.cg_model.specs.Limits.{most_turns};
ghost use Rattle.cg_cause.specs.Allowed.{Allows};
ghost use Rattle.cg_effects.specs.Outcome.{file_of};
ghost use Rattle.cg_inputs.specs.Answered.{ReadThen};
ghost use Rattle.cg_inputs.specs.Readings.{ReadsImage};
ghost use Rattle.cg_command_run.specs.Run.{RunsFrom};
ghost use Rattle.cg_command_run.specs.Bench.{IsBench, benched};

use crate::simulating::{end_of, ended};
use cg_arch::Arch;
use cg_bits::Config;
use cg_cause::Stop;
use cg_command::ArrayCall;
use cg_effects::{File, Outcome};
use cg_inputs::{array_in, image_in};
use cg_testbench::bench_of;
use std::alloc::Global;

/// Returns the outcome of `bench`, called by `call`: the test bench of the array, and the report on its run.
pub fn bench(alloc: Global, call: &ArrayCall<&File, &str>) -> Result<Outcome, Stop>
    requires { call.now.turns ≤ most_turns }
    ensures { Allows (IsBench call.now.turns (file_of call.now.arch.now) (file_of call.now.bits.now) (file_of call.now.image.now) call.now.out.now) result }
{
    let array = array_in(alloc, call.arch, call.bits)?;
    bench_on(alloc, call, &array.arch, &array.config)
}

/// Returns the outcome of `bench`, called by `call`, for `arch` under `config`, which were read from its files.
fn bench_on(
    alloc: Global,
    call: &ArrayCall<&File, &str>,
    arch: &Arch,
    config: &Config,
) -> Result<Outcome, Stop>
    requires turns { call.now.turns ≤ most_turns }
    requires canonical { IsCanonical arch.now config.now }
    ensures { Allows (ReadThen (ReadsImage (file_of call.now.image.now))
        (RunsFrom (benched call.now.turns call.now.out.now) (file_of call.now.image.now).name arch.now config.now)) result }
{
    let image = image_in(alloc, call.image)?;
    let end = end_of(alloc, call, arch, config, &image)?;
    let text = bench_of(alloc, arch, config, call.turns, &image, &end)?;
    Ok(ended(alloc, &end, call.out, text)?)
}
