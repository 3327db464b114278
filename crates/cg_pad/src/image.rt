//! Images of memory and streams.
ghost use Rattle.std.specs.Prelude.{◌≡◌, [], IfOk, replicate};
ghost use Rattle.cg_model.specs.Limits.{port_count};

use cg_model::{Items, MOST_MEMORY, MOST_STREAM, PORTS, Words};
use std::alloc::{AllocError, Global};
use std::marker::Model;

/// Streams of words, by port.
pub type Streams = Items<Words>;

/// The words of a memory, and sixteen streams: the input or the result of a run.
#[derive(Drop)]
pub struct Image {
    pub memory: Words,
    pub streams: Streams,
}

impl Model for Image {
    ghost use Rattle.std.specs.Prelude.{◌≡◌, length};
    ghost use Rattle.cg_model.specs.Limits.{port_count};
    ghost use Rattle.cg_model.specs.Work as works;

    ghost Value = { works.Image };

    ghost view = { λ i. record { memory = i.memory; streams = i.streams } };

    ghost invariant = { λ i. length i.streams ≡ port_count };
}

impl Image {
    ghost use Rattle.std.specs.Prelude.{◌≡◌, ◌↔◌, [], IfOk, IsTrue, length, replicate};
    ghost use Rattle.cg_pad.specs.Bytes.{IsStorable, HasStorableStreams};

    /// Returns an image without words.
    pub fn empty(alloc: Global) -> Result<Image, AllocError>
        ensures { IfOk result (λ i. i ≡ record { memory = []; streams = replicate port_count [] }) }
    {
        Ok(Image {
            memory: Words::new(Vec::new(alloc)),
            streams: empty_streams(alloc)?,
        })
    }

    /// Returns the words of the memory.
    pub fn memory(&self) -> &[u32]
        ensures { result.now ≡ self.now.memory }
    {
        self.memory.as_slice()
    }

    /// Returns the streams, by port.
    pub fn streams(&self) -> &[Words]
        ensures streams { result.now ≡ self.now.streams }
        ensures sixteen { length self.now.streams ≡ port_count }
    {
        self.streams.as_slice()
    }

    /// Returns whether a file can hold it, as `write_image` requires.
    pub fn is_storable(&self) -> bool
        ensures { IsTrue result ↔ IsStorable self.now }
    {
        self.memory().len() <= MOST_MEMORY as usize && self.streams_are_storable()
    }

    fn streams_are_storable(&self) -> bool
        ensures { IsTrue result ↔ HasStorableStreams self.now }
    {
        for stream in self.streams() {
            if stream.as_slice().len() > MOST_STREAM as usize {
                return false;
            }
        }
        true
    }
}

/// Returns sixteen streams without words.
pub fn empty_streams(alloc: Global) -> Result<Streams, AllocError>
    ensures { IfOk result (λ s. s ≡ replicate port_count []) }
{
    let mut streams = Vec::with_capacity(alloc, PORTS)?;
    for _port in 0..PORTS {
        streams.push(Words::new(Vec::new(alloc)))?;
    }
    Ok(Streams::new(streams))
}
