//! Notes on `run`.
ghost use Rattle.std.specs.Prelude.{◌≡◌, ◌<◌, ℕ, length};
ghost use Rattle.cg_model.specs.Canonical.{IsCanonical};
ghost use Rattle.cg_config.specs.Known.{HasUnit};

use crate::streams::{add_short_streams, mark};
use cg_arch::Arch;
use cg_model::{PORTS, Unit, UnitFields};
use cg_pad::{Image, Work, read_image};
use cg_sim::{Sim, SimFault};
use cg_tiles::read_arch;
use cg_view::{ConfigView, Contexts};
use cg_word::Op;
use std::alloc::{AllocError, Global};

/// The maximum work of resources and units, over all cycles, that is repeated for a note.
const MOST_WORK: u64 = 50_000_000;

/// A run of an array, by the bytes of its files.
#[derive(Clone, Copy, Drop)]
pub struct ArrayRun<'a> {
    /// The architecture.
    pub arch: &'a [u8],
    /// The bits that configure it.
    pub bits: &'a [u8],
    /// The image from which it runs.
    pub image: &'a [u8],
    /// The number of iterations.
    pub turns: u32,
    /// Whether the first access outside the memory is sought.
    pub reaches_outside: bool,
}

/// A run of an array.
#[derive(Clone, Copy, Drop)]
struct Run<'a> {
    arch: &'a Arch,
    turns: u32,
    image: &'a Image,
}

/// Adds to `notes` the notes on `run`: on its first access outside the memory, if that is sought, and on the inputs that
/// read past their streams.
pub fn array_notes(
    alloc: Global,
    run: ArrayRun<'_>,
    notes: &mut Vec<String>,
) -> Result<(), AllocError> {
    let Ok(arch) = read_arch(alloc, run.arch) else {
        return Ok(());
    };
    let Ok(view) = ConfigView::of(&arch, run.bits) else {
        return Ok(());
    };
    let Ok(image) = read_image(alloc, run.image) else {
        return Ok(());
    };
    let inputs = inputs_of(&arch, &view);
    if run.reaches_outside {
        let run = Run {
            arch: &arch,
            turns: run.turns,
            image: &image,
        };
        add_first(alloc, run, &view, notes)?;
    }
    add_short_streams(alloc, &image, run.turns, &inputs, notes)
}

/// Returns which ports the inputs of `arch` under `view` read.
fn inputs_of(arch: &Arch, view: &ConfigView<'_>) -> [bool; PORTS]
    requires { IsCanonical arch.now view.now }
{
    let mut inputs = [false; PORTS];
    let units = arch.units().len() as u32;
    for slot in 0..view.ii() {
        mark_slot(view, units, slot, &mut inputs);
    }
    inputs
}

/// Marks in `inputs` the ports that the inputs of the first `units` units read in `slot` of `view`.
fn mark_slot(view: &ConfigView<'_>, units: u32, slot: u32, inputs: &mut [bool; PORTS])
    requires { (x : ℕ) → x < units → HasUnit view.now x slot }
{
    for unit in 0..units {
        let head = view.head(unit, slot);
        if head.op == Some(Op::Input) {
            mark(inputs, head.port);
        }
    }
}

/// Adds to `notes` the first access outside the memory of `run` under `view`, unless it comes too late in the run.
fn add_first(
    alloc: Global,
    run: Run<'_>,
    view: &ConfigView<'_>,
    notes: &mut Vec<String>,
) -> Result<(), AllocError>
    requires { IsCanonical run.arch.now view.now }
{
    let mut sim = match Sim::new(alloc, run.arch, view, run.turns, run.image) {
        Ok(sim) => sim,
        Err(SimFault::Memory) => return Err(AllocError),
        Err(_) => return Ok(()),
    };
    let Some(cycle) = cycle_outside(&mut sim, most_cycles(run.arch)) else {
        return Ok(());
    };
    match access_in(run, view, &sim, cycle) {
        Some(access) => add_access(alloc, run, access, notes),
        None => Ok(()),
    }
}

/// Returns the maximum number of cycles of `arch` that are repeated.
fn most_cycles(arch: &Arch) -> u64 {
    let units = (arch.units().len() as u64).saturating_mul(8);
    let work = (arch.resources().len() as u64).saturating_add(units);
    match MOST_WORK.checked_div(work) {
        Some(cycles) => cycles,
        None => 0,
    }
}

/// Runs `sim` up to and including the first cycle with an access outside the memory, and returns the number of that
/// cycle; None if the first `most` cycles have no such access.
fn cycle_outside(sim: &mut Sim<'_, ConfigView<'_>>, most: u64) -> Option<u64>
    ensures { sim.new.arch ≡ sim.old.arch }
{
    for cycle in 0..most {
        if sim.left() == 0 {
            return None;
        }
        sim.cycle();
        if sim.outside() > 0 {
            return Some(cycle);
        }
    }
    None
}

/// An access outside the memory.
#[derive(Clone, Copy, Drop)]
struct Access {
    /// The number of its unit.
    unit: u32,
    /// What the unit begins.
    work: Work,
}

/// Returns the first access outside the memory that a unit of `run` begins under `view` in `cycle`, the last cycle of
/// `sim`.
fn access_in(
    run: Run<'_>,
    view: &ConfigView<'_>,
    sim: &Sim<'_, ConfigView<'_>>,
    cycle: u64,
) -> Option<Access>
    requires canonical { IsCanonical run.arch.now view.now }
    requires arch { sim.now.arch ≡ run.arch.now }
{
    let ii = u64::from(view.ii());
    if ii == 0 {
        return None;
    }
    let slot = (cycle % ii) as u32;
    let units = run.arch.units().len() as u32;
    for unit in 0..units {
        let fields = view.unit(unit, slot);
        if let Some(work) = work_of(run, sim, unit, fields, cycle / ii) {
            if work.missed(run.image.memory().len()) > 0 {
                return Some(Access { unit, work });
            }
        }
    }
    None
}

/// Returns the work that unit number `unit` of `run`, with the fields `fields`, begins in the last cycle of `sim`, which
/// is in round `round`; None if it begins none.
fn work_of(
    run: Run<'_>,
    sim: &Sim<'_, ConfigView<'_>>,
    unit: u32,
    fields: UnitFields,
    round: u64,
) -> Option<Work>
    requires { sim.now.arch ≡ run.arch.now }
{
    let turn = round.checked_sub(u64::from(fields.stage))?;
    if turn >= u64::from(run.turns) {
        return None;
    }
    let begun = Begun {
        unit: run.arch.units().get(unit as usize)?,
        fields,
        turn: turn as u32,
    };
    Some(Work {
        op: fields.op?,
        port: fields.port,
        turn: begun.turn,
        args: [
            argument(run, sim, begun, 0),
            argument(run, sim, begun, 1),
            argument(run, sim, begun, 2),
        ],
    })
}

/// What a unit begins.
#[derive(Clone, Copy, Drop)]
struct Begun<'a> {
    unit: &'a Unit,
    fields: UnitFields,
    /// The iteration.
    turn: u32,
}

/// Returns argument `number` of `begun`, in the last cycle of `sim`, which simulates `run`.
fn argument(run: Run<'_>, sim: &Sim<'_, ConfigView<'_>>, begun: Begun<'_>, number: usize) -> u32
    requires { sim.now.arch ≡ run.arch.now }
{
    let Some(arg) = begun.fields.args.get(number) else {
        return 0;
    };
    if arg.fixed {
        return begun.fields.immediate;
    }
    if begun.turn < arg.count {
        return match arg.init.get(begun.turn as usize) {
            Some(word) => *word,
            None => 0,
        };
    }
    match begun.unit.ports.as_slice().get(number) {
        Some(port) => word_on(run, sim, *port),
        None => 0,
    }
}

/// Returns the word on `resource` of `run` in the last cycle of `sim`.
fn word_on(run: Run<'_>, sim: &Sim<'_, ConfigView<'_>>, resource: u32) -> u32
    requires { sim.now.arch ≡ run.arch.now }
{
    if (resource as usize) < run.arch.resources().len() {
        sim.value(resource)
    } else {
        0
    }
}

/// Adds to `notes` that `access` is outside the memory of the image of `run`.
fn add_access(
    alloc: Global,
    run: Run<'_>,
    access: Access,
    notes: &mut Vec<String>,
) -> Result<(), AllocError> {
    let Access { unit, work } = access;
    let words = run.image.memory().len();
    let name = match run.arch.units().get(unit as usize) {
        Some(unit) => unit.name.as_str(),
        None => "",
    };
    let op = work.op.name();
    let turn = work.turn;
    let address = work.address();
    let note = format!(in alloc;
        "first access outside the memory: {op} of unit {name} in turn {turn} at address {address}; the memory ends before address {words}"
    )?;
    notes.push(note)?;
    Ok(())
}
