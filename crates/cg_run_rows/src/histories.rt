//! Runs by the results of the last cycles compared with runs by the words of all resources, under configurations that
//! are drawn at random.
ghost use Rattle.std.specs.Prelude.{◌≡◌, ◌<◌, ◌≤◌, IfOk, length};
ghost use Rattle.cg_model.specs.Canonical.{IsCanonical};

use cg_arch::{Arch, OpSet};
use cg_bits::{Config, Contexts};
use cg_config::{ArgFields, NO_ARG, Op, UnitFields, are_fields};
use cg_datapath::RunEnd;
use cg_history::run;
use cg_origins::tasks_of;
use cg_pad::Image;
use cg_sim::{Sim, SimFault};
use rand_core::utils::NextWord;
use rand_pcg::Lcg64Xsh32;
use std::alloc::{AllocError, Global};

/// The greatest interval that is drawn.
const MOST_SLOTS: u32 = 5;

/// The number of operations that are drawn for a unit before it stays off.
const TRIES: u32 = 40;

/// What was found of configurations.
#[derive(Clone, Copy)]
pub(crate) struct Found {
    /// How many of them leave something else by results than by words, or can't be run.
    pub(crate) unlike: u32,
    /// How many of them can be run by results alone.
    pub(crate) by_results: u32,
    /// How many of them leave another memory than that of the image, or an output word that isn't 0.
    pub(crate) leaving: u32,
}

/// An array, and an image from which it runs.
#[derive(Clone, Copy)]
pub(crate) struct Setting<'a> {
    pub(crate) arch: &'a Arch,
    pub(crate) image: &'a Image,
}

/// Draws `number` configurations of the array of `setting`, runs each for 1 to 12 iterations in both ways, and returns
/// what was found.
pub(crate) fn found_of(
    alloc: Global,
    setting: &Setting<'_>,
    number: u32,
) -> Result<Found, AllocError> {
    let mut generator = Lcg64Xsh32::new(1, 0);
    let mut found = Found {
        unlike: 0,
        by_results: 0,
        leaving: 0,
    };
    for _number in 0..number {
        let config = drawn_config(alloc, setting.arch, &mut generator)?;
        let turns = 1 + below(&mut generator, 12);
        found = with_config(alloc, found, setting, &config, turns)?;
    }
    Ok(found)
}

/// Returns `found` with what `turns` iterations under `config` show.
fn with_config<C: Contexts>(
    alloc: Global,
    found: Found,
    setting: &Setting<'_>,
    config: &C,
    turns: u32,
) -> Result<Found, AllocError>
    requires { IsCanonical setting.now.arch.now (C.config config.now) }
{
    let tasks = tasks_of(alloc, setting.arch, config)?;
    let results = by_results(alloc, setting, config, turns)?;
    let words = by_words(alloc, setting, config, turns)?;
    Ok(Found {
        unlike: one_more(found.unlike, !are_alike(&results, &words)),
        by_results: one_more(found.by_results, tasks.is_some()),
        leaving: one_more(found.leaving, leaves_something(setting.image, &words)),
    })
}

/// Returns `count`, one greater where `more` holds.
fn one_more(count: u32, more: bool) -> u32 {
    if more { count.saturating_add(1) } else { count }
}

/// Returns what `turns` iterations under `config` leave, by the results of the last cycles; None where they can't be
/// run.
fn by_results<C: Contexts>(
    alloc: Global,
    setting: &Setting<'_>,
    config: &C,
    turns: u32,
) -> Result<Option<RunEnd>, AllocError>
    requires { IsCanonical setting.now.arch.now (C.config config.now) }
{
    match run(alloc, setting.arch, config, turns, setting.image) {
        Ok(end) => Ok(Some(end)),
        Err(SimFault::Memory) => Err(AllocError),
        Err(_) => Ok(None),
    }
}

/// Returns what `turns` iterations under `config` leave, by the words of all resources; None where they can't be run.
fn by_words<C: Contexts>(
    alloc: Global,
    setting: &Setting<'_>,
    config: &C,
    turns: u32,
) -> Result<Option<RunEnd>, AllocError>
    requires { IsCanonical setting.now.arch.now (C.config config.now) }
{
    match Sim::new(alloc, setting.arch, config, turns, setting.image) {
        Ok(sim) => {
            let mut run = sim;
            let cycles = run.left();
            run.finish();
            let outside = run.outside();
            let image = run.into_image();
            Ok(Some(RunEnd {
                cycles,
                image,
                outside,
            }))
        }
        Err(SimFault::Memory) => Err(AllocError),
        Err(_) => Ok(None),
    }
}

/// Checks whether two runs were made, and have left the same.
fn are_alike(one: &Option<RunEnd>, other: &Option<RunEnd>) -> bool {
    match (one, other) {
        (Some(one), Some(other)) => one.cycles == other.cycles
            && one.outside == other.outside
            && one.image.memory() == other.image.memory()
            && are_same_streams(&one.image, &other.image),
        _ => false,
    }
}

/// Checks whether the streams of two images have the same words.
fn are_same_streams(one: &Image, other: &Image) -> bool {
    for port in 0..one.streams().len() {
        let words = one.streams()[port].as_slice();
        match other.streams().get(port) {
            Some(stream) => if stream.as_slice() != words {
                return false;
            },
            None => return false,
        }
    }
    true
}

/// Checks whether a run from `image` was made, and has left another memory or an output word that isn't 0.
fn leaves_something(image: &Image, end: &Option<RunEnd>) -> bool {
    let Some(end) = end else {
        return false;
    };
    if end.image.memory() != image.memory() {
        return true;
    }
    for stream in end.image.streams() {
        if has_word(stream.as_slice()) {
            return true;
        }
    }
    false
}

/// Checks whether one of `words` isn't 0.
fn has_word(words: &[u32]) -> bool {
    for word in words {
        if *word != 0 {
            return true;
        }
    }
    false
}

/// Returns a random number below `n`.
fn below(generator: &mut Lcg64Xsh32, n: u32) -> u32
    requires { 0 < n }
    ensures { result < n }
{
    generator.next_word() % n
}

/// Returns a random word: mostly a small one, so that it is an address of the memory.
fn drawn_word(generator: &mut Lcg64Xsh32) -> u32 {
    if below(generator, 4) == 0 {
        generator.next_word()
    } else {
        below(generator, 10)
    }
}

/// Returns a random word where `used` holds, else 0.
fn word_if(generator: &mut Lcg64Xsh32, used: bool) -> u32 {
    if used { drawn_word(generator) } else { 0 }
}

/// Returns a random configuration of `arch`.
fn drawn_config(
    alloc: Global,
    arch: &Arch,
    generator: &mut Lcg64Xsh32,
) -> Result<Config, AllocError>
    ensures { IfOk result (λ config. IsCanonical arch.now config) }
{
    let most = arch.contexts().min(MOST_SLOTS);
    let ii = 1 + below(generator, most);
    let mut config = Config::new(alloc, arch, ii)?;
    for slot in 0..ii {
        draw_selects(generator, arch, &mut config, slot);
        draw_units(generator, arch, &mut config, slot);
    }
    Ok(config)
}

/// Sets random selects in `slot` of `config`.
fn draw_selects(generator: &mut Lcg64Xsh32, arch: &Arch, config: &mut Config, slot: u32)
    requires canonical { IsCanonical arch.now config.old }
    requires slot { slot < config.old.ii }
    ensures canonical { IsCanonical arch.now config.new }
    ensures interval { config.new.ii ≡ config.old.ii }
{
    for r in 0..arch.resources().len() {
        let drivers = arch.resources()[r].drivers.as_slice().len();
        let select = drawn_select(generator, drivers);
        config.set_select(arch, r as u32, slot, select);
    }
}

/// Returns a random select of a resource that has `drivers`.
fn drawn_select(generator: &mut Lcg64Xsh32, drivers: usize) -> u32
    ensures { result ≤ drivers }
{
    match u32::try_from(drivers) {
        Ok(most) => below(generator, most.saturating_add(1)),
        Err(_) => 0,
    }
}

/// Sets random fields of all units in `slot` of `config`.
fn draw_units(generator: &mut Lcg64Xsh32, arch: &Arch, config: &mut Config, slot: u32)
    requires canonical { IsCanonical arch.now config.old }
    requires slot { slot < config.old.ii }
    ensures canonical { IsCanonical arch.now config.new }
    ensures interval { config.new.ii ≡ config.old.ii }
{
    for x in 0..arch.units().len() {
        draw_unit(generator, arch, config, x as u32, slot);
    }
}

/// Sets random fields of `unit` in `slot` of `config`, or leaves it off.
fn draw_unit(generator: &mut Lcg64Xsh32, arch: &Arch, config: &mut Config, unit: u32, slot: u32)
    requires canonical { IsCanonical arch.now config.old }
    requires unit { unit < length arch.now.units }
    requires slot { slot < config.old.ii }
    ensures canonical { IsCanonical arch.now config.new }
    ensures interval { config.new.ii ≡ config.old.ii }
{
    let ops = arch.units()[unit as usize].ops;
    let Some(op) = drawn_op(generator, ops) else {
        return;
    };
    let fields = drawn_fields(generator, op);
    if config.head(unit, slot).op.is_none()
        && are_fields(ops, &fields)
        && config.leaves_ports_free(&fields)
    {
        config.set_unit(arch, unit, slot, fields);
    }
}

/// Returns a random operation among `ops`; None now and then.
fn drawn_op(generator: &mut Lcg64Xsh32, ops: OpSet) -> Option<Op> {
    if below(generator, 5) == 0 {
        return None;
    }
    for _try in 0..TRIES {
        let op = Op::ALL[below(generator, 25) as usize];
        if ops.has(op) {
            return Some(op);
        }
    }
    None
}

/// Returns random fields of a unit that begins `op`, of a stage of 0 to 3.
fn drawn_fields(generator: &mut Lcg64Xsh32, op: Op) -> UnitFields {
    let arity = op.arity();
    let fixed = below(generator, 6);
    let stage = below(generator, 4);
    let port = if op.has_port() {
        below(generator, 16)
    } else {
        0
    };
    let immediate = word_if(generator, fixed < arity);
    let args = [
        drawn_arg(generator, 0 < arity, fixed == 0),
        drawn_arg(generator, 1 < arity, fixed == 1),
        drawn_arg(generator, 2 < arity, fixed == 2),
    ];
    UnitFields {
        op: Some(op),
        stage,
        port,
        immediate,
        args,
    }
}

/// Returns random fields of an argument, where `used` says that the operation has it and `fixed` that it is the
/// immediate.
fn drawn_arg(generator: &mut Lcg64Xsh32, used: bool, fixed: bool) -> ArgFields {
    if !used {
        return NO_ARG;
    }
    let count = if fixed {
        0
    } else {
        below(generator, 10).saturating_sub(5)
    };
    ArgFields {
        fixed,
        count,
        init: [
            word_if(generator, 0 < count),
            word_if(generator, 1 < count),
            word_if(generator, 2 < count),
            word_if(generator, 3 < count),
        ],
    }
}
