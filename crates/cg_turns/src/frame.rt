//! The state of a run from step to step.
ghost use Rattle.std.specs.Prelude.{◌≡◌, ◌<◌, ◌≤◌, ◌+◌, ◌*◌, ◌^◌, IfOk, OnOk, length};
ghost use Rattle.cg_model.specs.Kernel.{IsKernel, size};
ghost use Rattle.cg_model.specs.Limits.{most_nodes, most_turns, port_count};
ghost use Rattle.cg_turns.specs.Frame.{IsAt};
ghost use Rattle.cg_turns.specs.Step.{Steps, work_in};
ghost use Rattle.cg_turns.specs.Watched.{IsReached, IsWatched};

use crate::pair::Access;
use crate::watch::{Watch, reached, watch_step};
use crate::window::{ROWS, Turn, Window, argument};
use cg_distance::DistanceTable;
use cg_model::{Kernel, Words};
use cg_pad::{Image, Scratchpad, Work, empty_streams};
use std::alloc::{AllocError, Global};

/// The effects of the steps so far: the values of the last turns, the scratchpad, the output streams and the outside
/// count.
#[derive(Drop)]
pub(crate) struct Frame {
    pub(crate) window: Vec<u32>,
    pub(crate) memory: Scratchpad,
    pub(crate) streams: Vec<Words>,
    pub(crate) outside: u64,
}

/// Returns the frame before the first step.
pub(crate) fn start(alloc: Global, kernel: &Kernel, image: &Image) -> Result<Frame, AllocError>
    ensures at { IfOk result (λ f. IsAt kernel.now image.now 0 0 f) }
    ensures outside { IfOk result (λ f. f.outside ≡ 0) }
    ensures valid { IsKernel kernel.now }
{
    let size = kernel.nodes().len();
    Ok(Frame {
        window: vec![in alloc; 0; ROWS * size]?,
        memory: Scratchpad::new(alloc, image.memory())?,
        streams: empty_streams(alloc)?.into_vec(),
        outside: 0,
    })
}

/// A kernel with its distances, and the image that it runs on.
#[derive(Clone, Copy)]
pub(crate) struct Program<'a> {
    pub(crate) kernel: &'a Kernel,
    pub(crate) table: &'a DistanceTable<'a>,
    pub(crate) image: &'a Image,
    ghost distances: { table.now ≡ kernel.now },
}

/// Executes one step, a node in a turn, and returns the memory word that it accesses, if any.
fn step(
    program: Program,
    turn: Turn,
    place: usize,
    frame: &mut Frame,
) -> Result<Option<u32>, AllocError>
    requires place { place < size program.kernel.now }
    requires window { length frame.old.window.items ≡ 5 * size program.kernel.now }
    requires streams { length frame.old.streams.items ≡ port_count }
    requires outside { frame.old.outside < 2 ^ 63 }
    ensures steps { OnOk result (Steps program.entry.kernel.now program.entry.image.now place turn.number turn.row frame.old frame.new) }
    ensures outside { OnOk result (frame.new.outside ≤ frame.old.outside + 1) }
    ensures reached { IfOk result (IsReached (length frame.old.memory) (work_in program.entry.kernel.now place turn.number turn.row frame.old)) }
{
    let nodes = program.kernel.nodes();
    let size = nodes.len();
    let node = &nodes[place];
    let operands = node.operands.as_slice();
    let window = Window {
        values: &frame.window,
        size,
        turn,
    };
    let a = argument(operands, 0, window);
    let b = argument(operands, 1, window);
    let c = argument(operands, 2, window);
    let work = Work {
        op: node.op,
        port: node.port,
        turn: turn.number,
        args: [a, b, c],
    };
    let word = reached(work, frame.memory.size());
    let value = work.value(program.image, &frame.memory);
    frame.outside += work.missed(frame.memory.size());
    work.send(&mut frame.streams)?;
    work.store(&mut frame.memory);
    frame.window[turn.row * size + place] = value;
    Ok(word)
}

/// Executes one turn: the nodes in program order.
pub(crate) fn one_turn(
    program: Program,
    turn: Turn,
    frame: &mut Frame,
    watch: &mut Watch,
) -> Result<(), AllocError>
    requires watched { IsWatched program.kernel.now program.image.now (turn.number * size program.kernel.now + 0) watch.old }
    requires at { IsAt program.kernel.now program.image.now turn.number 0 frame.old }
    requires turn { turn.number < most_turns }
    requires outside { frame.old.outside ≤ most_nodes * turn.number }
    ensures at { OnOk result (IsAt program.entry.kernel.now program.entry.image.now turn.number (size program.entry.kernel.now) frame.new) }
    ensures outside { OnOk result (frame.new.outside ≤ most_nodes * turn.number + most_nodes) }
    ensures watched { OnOk result (IsWatched program.entry.kernel.now program.entry.image.now (turn.number * size program.entry.kernel.now + size program.entry.kernel.now) watch.new) }
{
    let size = program.kernel.nodes().len();
    for place in 0..size {
        let word = step(program, turn, place, frame)?;
        let access = Access {
            node: place as u32,
            turn: turn.number,
        };
        watch_step(program.kernel, program.table, word, access, watch)?;
    }
    Ok(())
}
