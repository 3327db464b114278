//! The sizes of the memory and the streams of a bench.
ghost use Rattle.std.specs.Prelude.{◌≡◌, ◌≤◌, ◌<◌};
ghost use Rattle.cg_model.specs.Limits.{most_stream, most_turns};
ghost use Rattle.cg_pad.specs.Bytes.{IsStorable};
ghost use Rattle.cg_testbench.specs.Sizes as spec;

use cg_datapath::RunEnd;
use cg_pad::{Image, PORTS};

/// Returns the words of stream `port` of `image`.
pub(crate) fn stream(image: &Image, port: usize) -> &[u32]
    ensures { result.now ≡ spec.stream image.now.streams port }
{
    match image.streams().get(port) {
        Some(stream) => stream.as_slice(),
        None => &[],
    }
}

/// Returns the number of words of stream `port` of `image` that `turns` iterations can take.
pub(crate) fn taken(turns: u32, image: &Image, port: usize) -> usize
    ensures value { result ≡ spec.taken turns image.now.streams port }
    ensures few { result ≤ turns }
{
    stream(image, port).len().min(turns as usize)
}

/// Returns the number of words of stream `port` of `image`.
pub(crate) fn sent(image: &Image, port: usize) -> usize
    ensures { result ≡ spec.sent image.now.streams port }
{
    stream(image, port).len()
}

/// Returns the number of words for which the bench of `turns` iterations from `image` has room in each input stream.
pub(crate) fn depth(turns: u32, image: &Image) -> u64
    requires { turns ≤ most_turns }
    ensures value { result ≡ spec.depth turns image.now }
    ensures least { 1 ≤ result }
    ensures few { result ≤ most_stream }
{
    let mut most = 0;
    for port in 0..PORTS {
        most = most.max(taken(turns, image, port));
    }
    most.max(1) as u64
}

/// Returns the number of words for which the bench has room in each output stream, where `end` is the expected result.
pub(crate) fn room(end: &RunEnd) -> u64
    requires { IsStorable end.now.image }
    ensures value { result ≡ spec.room (record { image = end.now.image; outside = end.now.outside }) }
    ensures least { 1 ≤ result }
    ensures few { result ≤ most_stream }
{
    let mut most = 0;
    for port in 0..PORTS {
        most = most.max(sent(&end.image, port));
    }
    most.max(1) as u64
}
