//! What the units begin in each slot, with the sources of their operands.
ghost use Rattle.std.specs.Prelude.{◌≡◌, ◌<◌, ◌≤◌, Some, IfOk, IfSome, length};
ghost use Rattle.cg_model.specs.Array as arrays;
ghost use Rattle.cg_model.specs.Config as configs;
ghost use Rattle.cg_model.specs.Canonical.{IsCanonical, arity_of};
ghost use Rattle.cg_origins.specs.Source.{IsFrom, IsReadable, delay_of};
ghost use Rattle.cg_origins.specs.Tasks.{AreAllTasks, AreTasks, IsOperand, IsTask};

use crate::indexed::IndexedArch;
use crate::linking::source_of;
use crate::source::Source;
use cg_arch::Arch;
use cg_config::{Contexts, Op, Row, UnitFields};
use std::alloc::{AllocError, Global};

/// The greatest number of links that the walks to all operands have in all.
const MOST_LINKS: u32 = 1 << 24;

/// What a unit begins in the cycles of a slot.
#[derive(Clone, Copy)]
pub struct Task {
    /// The number of the unit.
    pub unit: u32,
    /// The operation.
    pub op: Op,
    /// The stream of an input, output or outputif; 0 for all other operations.
    pub port: u32,
    /// The round in which it works on turn 0.
    pub stage: u32,
    /// The first turn from which on no operand is an initial word.
    pub warm: u32,
    /// The sources of the operands, where they are no initial words; past the last one, the word 0.
    pub sources: [Source; 3],
}

/// What the units of an array begin under a configuration, slot by slot.
#[derive(Drop)]
pub struct Tasks {
    /// The tasks of each slot, in the order of the units.
    pub slots: Vec<Row<Task>>,
    /// One more than the greatest age of a result that is an operand, 1 where there is none.
    pub rows: u32,
}

/// A slot of a configuration of an array.
#[derive(Drop)]
struct Slot<'s, 'a, C: Contexts> {
    /// The array.
    arch: &'s IndexedArch<'a>,
    /// The configuration.
    contexts: &'s C,
    /// The number of the slot.
    number: u32,
}

/// How far the search for the sources of all operands has come.
#[derive(Drop)]
struct Progress {
    /// The number of links that the walks may still have.
    links: u32,
    /// One more than the greatest age of a result that is an operand so far, 1 where there is none.
    rows: u32,
}

/// An operand of a unit in a slot.
#[derive(Clone, Copy)]
struct Operand {
    /// Its source, where it is no initial word.
    source: Source,
    /// The first turn from which on it is no initial word.
    warm: u32,
}

/// Returns the age of the result that is `source`, 0 for a word.
fn delay_of(source: Source) -> u32
    ensures { result ≡ delay_of source }
{
    match source {
        Source::Word(_) => 0,
        Source::Result(_, delay) => delay,
    }
}

/// Returns the resource that is port `place` of `unit` of `arch`.
fn port_of(arch: &Arch, unit: u32, place: usize) -> u32
    requires unit { unit < length arch.now.units }
    requires place { place < length (arrays.unit arch.now unit).ports }
    ensures port { result ≡ arrays.port arch.now unit place }
    ensures known { result < length arch.now.resources }
{
    arch.units()[unit as usize].ports.as_slice()[place]
}

/// Returns the source of the word on `resource` in `slot`. `None`: the source is more than 255 cycles ago, or the links
/// of `progress` are used up.
fn noted_source<C: Contexts>(
    slot: &Slot<'_, '_, C>,
    resource: u32,
    progress: &mut Progress,
) -> Option<Source>
    requires canonical { IsCanonical slot.now.arch.now (C.config slot.now.contexts.now) }
    requires slot { slot.now.number < (C.config slot.now.contexts.now).ii }
    requires resource { resource < length slot.now.arch.now.resources }
    requires few { progress.old.rows ≤ 256 }
    ensures from { IfSome result (λ s. IsFrom slot.now.arch.now (C.config slot.now.contexts.now) slot.now.number resource s) }
    ensures readable { IfSome result (λ s. IsReadable slot.now.arch.now (C.config slot.now.contexts.now) slot.now.number s) }
    ensures near { IfSome result (λ s. delay_of s < progress.new.rows) }
    ensures grows { progress.old.rows ≤ progress.new.rows }
    ensures few { progress.new.rows ≤ 256 }
{
    let source = source_of(
        slot.arch,
        slot.contexts,
        resource,
        slot.number,
        &mut progress.links,
    )?;
    progress.rows = progress.rows.max(delay_of(source) + 1);
    Some(source)
}

/// Returns operand `place` of `unit`, which has these `fields` in `slot`. `None`: its source is more than 255 cycles ago,
/// or the links of `progress` are used up.
fn operand_of<C: Contexts>(
    slot: &Slot<'_, '_, C>,
    unit: u32,
    fields: &UnitFields,
    place: usize,
    progress: &mut Progress,
) -> Option<Operand>
    requires canonical { IsCanonical slot.now.arch.now (C.config slot.now.contexts.now) }
    requires slot { slot.now.number < (C.config slot.now.contexts.now).ii }
    requires unit { unit < length slot.now.arch.now.units }
    requires fields { fields.now ≡ configs.fields (C.config slot.now.contexts.now) unit slot.now.number }
    requires place { place < arity_of fields.now.op }
    requires some { 0 < progress.old.rows }
    requires few { progress.old.rows ≤ 256 }
    ensures operand { IfSome result (λ o. IsOperand slot.now.arch.now (C.config slot.now.contexts.now) slot.now.number unit place o.warm progress.new.rows o.source) }
    ensures grows { progress.old.rows ≤ progress.new.rows }
    ensures few { progress.new.rows ≤ 256 }
{
    let arg = fields.args[place];
    if arg.fixed {
        return Some(Operand {
            source: Source::Word(fields.immediate),
            warm: 0,
        });
    }
    let port = port_of(slot.arch.arch(), unit, place);
    let source = noted_source(slot, port, progress)?;
    Some(Operand {
        source,
        warm: arg.count,
    })
}

/// Returns what `unit`, whose operation is `op`, begins in `slot`. `None`: the source of an operand is more than 255
/// cycles ago, or the links of `progress` are used up.
fn task_of<C: Contexts>(
    slot: &Slot<'_, '_, C>,
    unit: u32,
    op: Op,
    progress: &mut Progress,
) -> Option<Task>
    requires canonical { IsCanonical slot.now.arch.now (C.config slot.now.contexts.now) }
    requires slot { slot.now.number < (C.config slot.now.contexts.now).ii }
    requires unit { unit < length slot.now.arch.now.units }
    requires op { (configs.fields (C.config slot.now.contexts.now) unit slot.now.number).op ≡ Some op }
    requires some { 0 < progress.old.rows }
    requires few { progress.old.rows ≤ 256 }
    ensures task { IfSome result (λ t. IsTask slot.now.arch.now (C.config slot.now.contexts.now) slot.now.number progress.new.rows t) }
    ensures unit { IfSome result (λ t. t.unit ≡ unit) }
    ensures grows { progress.old.rows ≤ progress.new.rows }
    ensures few { progress.new.rows ≤ 256 }
{
    let fields = slot.contexts.unit(unit, slot.number);
    let mut sources = [Source::Word(0); 3];
    let mut warm = 0;
    for place in 0..op.arity() as usize {
        let operand = operand_of(slot, unit, &fields, place, progress)?;
        sources[place] = operand.source;
        warm = warm.max(operand.warm);
    }
    Some(Task {
        unit,
        op,
        port: fields.port,
        stage: fields.stage,
        warm,
        sources,
    })
}

/// Returns what the units begin in `slot`. `None`: the source of an operand is more than 255 cycles ago, or the links of
/// `progress` are used up.
fn slot_tasks<C: Contexts>(
    alloc: Global,
    slot: &Slot<'_, '_, C>,
    progress: &mut Progress,
) -> Result<Option<Vec<Task>>, AllocError>
    requires canonical { IsCanonical slot.now.arch.now (C.config slot.now.contexts.now) }
    requires slot { slot.now.number < (C.config slot.now.contexts.now).ii }
    requires some { 0 < progress.old.rows }
    requires few { progress.old.rows ≤ 256 }
    ensures tasks { IfOk result (λ all. IfSome all (λ ts. AreTasks slot.now.arch.now (C.config slot.now.contexts.now) slot.now.number progress.new.rows ts.items)) }
    ensures grows { progress.old.rows ≤ progress.new.rows }
    ensures few { progress.new.rows ≤ 256 }
{
    let mut tasks = Vec::new(alloc);
    for unit in 0..slot.arch.arch().units().len() as u32 {
        if let Some(op) = slot.contexts.head(unit, slot.number).op {
            let Some(task) = task_of(slot, unit, op, progress) else {
                return Ok(None);
            };
            tasks.push(task)?;
        }
    }
    Ok(Some(tasks))
}

/// Returns what the units of `arch` begin under `contexts`. `None`: an operand is a result of more than 255 cycles ago, or
/// the walks to all operands have more than 2^24 links in all.
pub fn tasks_of<C: Contexts>(
    alloc: Global,
    arch: &Arch,
    contexts: &C,
) -> Result<Option<Tasks>, AllocError>
    requires { IsCanonical arch.now (C.config contexts.now) }
    ensures { IfOk result (λ all. IfSome all (λ tasks. AreAllTasks arch.now (C.config contexts.now) tasks)) }
{
    let arch = IndexedArch::new(alloc, arch)?;
    let mut progress = Progress {
        links: MOST_LINKS,
        rows: 1,
    };
    let mut slots = Vec::new(alloc);
    for number in 0..contexts.ii() {
        let slot = Slot {
            arch: &arch,
            contexts,
            number,
        };
        let Some(tasks) = slot_tasks(alloc, &slot, &mut progress)? else {
            return Ok(None);
        };
        slots.push(Row::new(tasks))?;
    }
    Ok(Some(Tasks {
        slots,
        rows: progress.rows,
    }))
}
