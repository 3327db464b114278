//! Inputs that read past their streams.

use cg_model::PORTS;
use cg_pad::Image;
use std::alloc::{AllocError, Global};

/// Adds to `notes`, for each port that `inputs` marks, the iteration from which its input reads past its stream of
/// `image`, if that is one of the `turns` iterations.
pub(crate) fn add_short_streams(
    alloc: Global,
    image: &Image,
    turns: u32,
    inputs: &[bool; PORTS],
    notes: &mut Vec<String>,
) -> Result<(), AllocError> {
    for (port, stream) in image.streams().iter().enumerate() {
        let words = stream.as_slice().len();
        if is_marked(inputs, port) && words < turns as usize {
            add_short(alloc, port, words, notes)?;
        }
    }
    Ok(())
}

/// Checks whether `inputs` marks `port`.
fn is_marked(inputs: &[bool; PORTS], port: usize) -> bool {
    match inputs.get(port) {
        Some(mark) => *mark,
        None => false,
    }
}

/// Adds to `notes` that the stream of `port` has `words` words.
fn add_short(
    alloc: Global,
    port: usize,
    words: usize,
    notes: &mut Vec<String>,
) -> Result<(), AllocError> {
    let note = format!(in alloc;
        "stream {port} has {words} words: its input reads 0 from turn {words} on"
    )?;
    notes.push(note)?;
    Ok(())
}

/// Marks `port` in `inputs`.
pub(crate) fn mark(inputs: &mut [bool; PORTS], port: u32) {
    if let Some(mark) = inputs.get_mut(port as usize) {
        *mark = true;
    }
}
