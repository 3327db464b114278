//! The whole bench.
ghost use Rattle.std.specs.Prelude.{◌≡◌, ◌++◌, ◌<◌, ◌≤◌, IfOk, OnOk, length};
ghost use Rattle.cg_model.specs.Canonical.{IsCanonical};
ghost use Rattle.cg_model.specs.Limits.{most_stream, most_turns};
ghost use Rattle.cg_model.specs.Machine.{cycles};
ghost use Rattle.cg_netlist.specs.Netlist.{netlist_of};
ghost use Rattle.cg_pad.specs.Bytes.{IsStorable};
ghost use Rattle.cg_testbench.specs.Array.{modules_text};
ghost use Rattle.cg_testbench.specs.Bench as spec;
ghost use Rattle.cg_testbench.specs.Bench.{bench_text};

use crate::array::{push_modules, push_trace_lines, push_units};
use crate::frame::{
    CELLS, CHECKS, EDGE, IMAGE, LEFT, NEXT, NO_MORE_CELLS, RUN, START, TASKS, TIME,
};
use crate::setup::{push_configuration, push_image, push_left};
use crate::sizes::{depth, room};
use cg_arch::Arch;
use cg_config::Contexts;
use cg_datapath::RunEnd;
use cg_netlist::netlist;
use cg_pad::Image;
use std::alloc::{AllocError, Global};

/// A run of an array under a configuration.
#[derive(Drop)]
struct Run<'r, C: Contexts> {
    /// The array.
    arch: &'r Arch,
    /// The configuration.
    contexts: &'r C,
    /// The number of iterations.
    turns: u32,
    /// The image from which it starts.
    image: &'r Image,
    /// The expected result.
    end: &'r RunEnd,
}

/// Adds to `text` the line that describes `run`.
fn push_head<C: Contexts>(
    alloc: Global,
    text: &mut Vec<u8>,
    run: &Run<'_, C>,
) -> Result<(), AllocError>
    requires { run.now.end.now.cycles ≡ cycles (C.config run.now.contexts.now) run.now.turns }
    ensures { OnOk result (text.new.items ≡ text.old.items ++ spec.head_text run.now.arch.now (C.config run.now.contexts.now) run.now.turns) }
{
    let name = run.arch.name().as_str();
    let turns = run.turns;
    let ii = run.contexts.ii();
    let cycles = run.end.cycles;
    let head = format!(in alloc;
        "// The array {name} under one configuration: {turns} turns at interval {ii}, in {cycles} cycles.\n"
    )?;
    text.extend_from_slice(head.as_bytes())
}

/// Adds the modules of the cells of `arch` to `text`.
fn push_modules_of(alloc: Global, text: &mut Vec<u8>, arch: &Arch) -> Result<(), AllocError>
    ensures { OnOk result (text.new.items ≡ text.old.items ++ modules_text (netlist_of arch.now).cells) }
{
    let graph = netlist(alloc, arch)?;
    push_modules(alloc, text, graph.cells())
}

/// Adds to `text` the modules of the cells of `arch`, which are left out where others are given.
fn push_cells(alloc: Global, text: &mut Vec<u8>, arch: &Arch) -> Result<(), AllocError>
    ensures { OnOk result (text.new.items ≡ text.old.items ++ spec.cells_text arch.now) }
{
    text.extend_from_slice(CELLS.as_bytes())?;
    push_modules_of(alloc, text, arch)?;
    text.extend_from_slice(NO_MORE_CELLS.as_bytes())?;
    Ok(())
}

/// Adds to `text` the clock and the counters of `turns` iterations at interval `ii`.
fn push_time(alloc: Global, text: &mut Vec<u8>, ii: u32, turns: u32) -> Result<(), AllocError>
    requires { 0 < ii }
    ensures { OnOk result (text.new.items ≡ text.old.items ++ spec.time_text ii turns) }
{
    let last = ii - 1;
    let time = format!(in alloc;
        "module cgra_bench;
  // cycle C has slot C % {ii} and round C / {ii}{TIME}{last} ? 0 : slot + 1;
  wire [31:0] turns = {turns};

"
    )?;
    text.extend_from_slice(time.as_bytes())
}

/// Adds the memory of `words` words to `text`.
fn push_memory(alloc: Global, text: &mut Vec<u8>, words: usize) -> Result<(), AllocError>
    ensures { OnOk result (text.new.items ≡ text.old.items ++ spec.memory_text words) }
{
    let last = words.max(1) - 1;
    let memory = format!(in alloc;
        "  // the memory, and sixteen streams each way, one after another
  wire [31:0] words = {words};
  reg [31:0] memory [0:{last}];
"
    )?;
    text.extend_from_slice(memory.as_bytes())
}

/// Adds input streams of `depth` words each and output streams of `room` words each to `text`.
fn push_streams(alloc: Global, text: &mut Vec<u8>, depth: u64, room: u64) -> Result<(), AllocError>
    requires inputs { (1 ≤ depth) × (depth ≤ most_stream) }
    requires outputs { (1 ≤ room) × (room ≤ most_stream) }
    ensures { OnOk result (text.new.items ≡ text.old.items ++ spec.streams_text depth room) }
{
    let last_input = 16 * depth - 1;
    let last_output = 16 * room - 1;
    let streams = format!(in alloc;
        "  wire [31:0] depth = {depth};
  reg [31:0] inputs [0:{last_input}];
  wire [31:0] room = {room};
  reg [31:0] outputs [0:{last_output}];
  reg [31:0] sent [0:15];
  reg [63:0] outside;

"
    )?;
    text.extend_from_slice(streams.as_bytes())
}

/// Adds to `text` the expected contents of a memory of `words` words and of output streams of `room` words each.
fn push_expected(
    alloc: Global,
    text: &mut Vec<u8>,
    words: usize,
    room: u64,
) -> Result<(), AllocError>
    requires { (1 ≤ room) × (room ≤ most_stream) }
    ensures { OnOk result (text.new.items ≡ text.old.items ++ spec.left_text words room) }
{
    let last = words.max(1) - 1;
    let last_output = 16 * room - 1;
    let expected = format!(in alloc;
        "  // what is to be left of them
  reg [31:0] left_memory [0:{last}];
  reg [31:0] left_outputs [0:{last_output}];
  reg [31:0] left_sent [0:15];
  reg [63:0] left_outside;

"
    )?;
    text.extend_from_slice(expected.as_bytes())
}

/// Adds the declarations of the bench of `run` to `text`.
fn push_declarations<C: Contexts>(
    alloc: Global,
    text: &mut Vec<u8>,
    run: &Run<'_, C>,
) -> Result<(), AllocError>
    requires canonical { IsCanonical run.now.arch.now (C.config run.now.contexts.now) }
    requires turns { run.now.turns ≤ most_turns }
    requires left { IsStorable run.now.end.now.image }
    ensures { OnOk result (text.new.items ≡ text.old.items ++ spec.declarations (C.config run.now.contexts.now) run.now.turns run.now.image.now (record { image = run.now.end.now.image; outside = run.now.end.now.outside })) }
{
    let words = run.image.memory().len();
    let room = room(run.end);
    push_time(alloc, text, run.contexts.ii(), run.turns)?;
    push_memory(alloc, text, words)?;
    push_streams(alloc, text, depth(run.turns, run.image), room)?;
    push_expected(alloc, text, words, room)?;
    Ok(())
}

/// Adds to `text` the actions in `arch` when a cycle ends.
fn push_edge(alloc: Global, text: &mut Vec<u8>, arch: &Arch) -> Result<(), AllocError>
    ensures { OnOk result (text.new.items ≡ text.old.items ++ spec.edge_text arch.now) }
{
    text.extend_from_slice(TASKS.as_bytes())?;
    push_trace_lines(alloc, text, arch)?;
    text.extend_from_slice(EDGE.as_bytes())?;
    push_units(alloc, text, arch)?;
    text.extend_from_slice(NEXT.as_bytes())?;
    Ok(())
}

/// Adds to `text` the assignments before `run`.
fn push_setup<C: Contexts>(
    alloc: Global,
    text: &mut Vec<u8>,
    run: &Run<'_, C>,
) -> Result<(), AllocError>
    requires { IsCanonical run.now.arch.now (C.config run.now.contexts.now) }
    ensures { OnOk result (text.new.items ≡ text.old.items ++ spec.setup_text run.now.arch.now (C.config run.now.contexts.now) run.now.turns run.now.image.now (record { image = run.now.end.now.image; outside = run.now.end.now.outside })) }
{
    text.extend_from_slice(START.as_bytes())?;
    push_configuration(alloc, text, run.arch, run.contexts)?;
    text.extend_from_slice(IMAGE.as_bytes())?;
    push_image(alloc, text, run.turns, run.image)?;
    text.extend_from_slice(LEFT.as_bytes())?;
    push_left(alloc, text, run.image, run.end)?;
    Ok(())
}

/// Adds the run of `cycles` cycles and the comparison to `text`.
fn push_run(alloc: Global, text: &mut Vec<u8>, cycles: u64) -> Result<(), AllocError>
    ensures { OnOk result (text.new.items ≡ text.old.items ++ spec.run_text cycles) }
{
    let run = format!(in alloc; "{RUN}    repeat ({cycles}) begin\n{CHECKS}")?;
    text.extend_from_slice(run.as_bytes())
}

/// Adds the bench of `run` to `text`.
fn push_bench<C: Contexts>(
    alloc: Global,
    text: &mut Vec<u8>,
    run: &Run<'_, C>,
) -> Result<(), AllocError>
    requires canonical { IsCanonical run.now.arch.now (C.config run.now.contexts.now) }
    requires turns { run.now.turns ≤ most_turns }
    requires cycles { run.now.end.now.cycles ≡ cycles (C.config run.now.contexts.now) run.now.turns }
    requires left { IsStorable run.now.end.now.image }
    ensures { OnOk result (text.new.items ≡ text.old.items ++ bench_text run.now.arch.now (C.config run.now.contexts.now) run.now.turns run.now.image.now (record { image = run.now.end.now.image; outside = run.now.end.now.outside })) }
{
    push_head(alloc, text, run)?;
    push_cells(alloc, text, run.arch)?;
    push_declarations(alloc, text, run)?;
    push_edge(alloc, text, run.arch)?;
    push_setup(alloc, text, run)?;
    push_run(alloc, text, run.end.cycles)?;
    Ok(())
}

/// Returns the bench of `turns` iterations of the array `arch` under `contexts` from `image`, with the expected result
/// `end`.
pub fn bench_of<C: Contexts>(
    alloc: Global,
    arch: &Arch,
    contexts: &C,
    turns: u32,
    image: &Image,
    end: &RunEnd,
) -> Result<Vec<u8>, AllocError>
    requires canonical { IsCanonical arch.now (C.config contexts.now) }
    requires turns { turns ≤ most_turns }
    requires cycles { end.now.cycles ≡ cycles (C.config contexts.now) turns }
    requires left { IsStorable end.now.image }
    ensures { IfOk result (λ text. text.items ≡ bench_text arch.now (C.config contexts.now) turns image.now (record { image = end.now.image; outside = end.now.outside })) }
{
    let mut text = Vec::new(alloc);
    let run = Run {
        arch,
        contexts,
        turns,
        image,
        end,
    };
    push_bench(alloc, &mut text, &run)?;
    Ok(text)
}
