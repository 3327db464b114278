//! Notes on `turns`.

use crate::outside::{Access, first_outside};
use crate::streams::{add_short_streams, mark};
use cg_kernel::read_kernel;
use cg_model::{Kernel, PORTS};
use cg_pad::{Image, read_image};
use cg_word::Op;
use std::alloc::{AllocError, Global};

/// Adds to `notes` what `turns KERNEL TURNS` leaves out of the kernel whose file has the bytes `kernel`: its inputs and
/// its accesses, for which there is no image.
pub fn turns_notes(
    alloc: Global,
    kernel: &[u8],
    notes: &mut Vec<String>,
) -> Result<(), AllocError> {
    let Ok(kernel) = read_kernel(alloc, kernel) else {
        return Ok(());
    };
    let nodes = kernel.nodes();
    let has_input = nodes.iter().any(|node| node.op == Op::Input);
    let has_access = nodes.iter().any(|node| node.op.is_access());
    let what = match (has_input, has_access) {
        (true, true) => "inputs and loads read 0",
        (true, false) => "inputs read 0",
        (false, true) => "loads read 0",
        (false, false) => return Ok(()),
    };
    let note = format!(in alloc;
        "there is no image, so {what}: to run from an image, use turns KERNEL TURNS IN OUT"
    )?;
    notes.push(note)?;
    Ok(())
}

/// A run of a kernel, by the bytes of its files.
#[derive(Clone, Copy, Drop)]
pub struct KernelRun<'a> {
    /// The kernel.
    pub kernel: &'a [u8],
    /// The image from which it runs.
    pub image: &'a [u8],
    /// The number of iterations.
    pub turns: u32,
    /// Whether the first access outside the memory is sought.
    pub reaches_outside: bool,
}

/// Adds to `notes` the notes on `run`: on its first access outside the memory, if that is sought, and on the inputs that
/// read past their streams.
pub fn image_notes(
    alloc: Global,
    run: KernelRun<'_>,
    notes: &mut Vec<String>,
) -> Result<(), AllocError> {
    let Ok(kernel) = read_kernel(alloc, run.kernel) else {
        return Ok(());
    };
    let Ok(image) = read_image(alloc, run.image) else {
        return Ok(());
    };
    if run.reaches_outside {
        if let Some(access) = first_outside(alloc, &kernel, &image, run.turns)? {
            add_access(alloc, &kernel, &image, access, notes)?;
        }
    }
    add_short_streams(alloc, &image, run.turns, &inputs_of(&kernel), notes)
}

/// Returns which ports the inputs of `kernel` read.
fn inputs_of(kernel: &Kernel) -> [bool; PORTS] {
    let mut inputs = [false; PORTS];
    for node in kernel.nodes() {
        if node.op == Op::Input {
            mark(&mut inputs, node.port);
        }
    }
    inputs
}

/// Adds to `notes` that `access` of `kernel` is outside the memory of `image`.
fn add_access(
    alloc: Global,
    kernel: &Kernel,
    image: &Image,
    access: Access,
    notes: &mut Vec<String>,
) -> Result<(), AllocError> {
    let Access {
        node,
        turn,
        address,
    } = access;
    let words = image.memory().len();
    let name = match kernel.nodes().get(node) {
        Some(node) => node.name.as_str(),
        None => "",
    };
    let note = format!(in alloc;
        "first access outside the memory: {name} in turn {turn} at address {address}; the memory ends before address {words}"
    )?;
    notes.push(note)?;
    Ok(())
}
