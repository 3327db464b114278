//! Reads images from bytes.
ghost use Rattle.std.specs.Prelude.{◌≡◌, ◌≤◌, IfOk, length};
ghost use Rattle.cg_model.specs.Answers.{Gives};
ghost use Rattle.cg_model.specs.Limits.{most_memory, most_stream, port_count};
ghost use Rattle.cg_pad.specs.Bytes.{answer_of};

use crate::fault::{ImageFault, TooLargePlace};
use crate::image::{Image, Streams};
use crate::writing::MAGIC;
use cg_model::{MOST_MEMORY, MOST_STREAM, PORTS, Words};
use std::alloc::{AllocError, Global};

/// Returns the image that `bytes` encode: `CGI1`, the memory, and the sixteen streams, each as its number of words
/// followed by the words.
#[tactic(auto, unfolding(crate::specs::Bytes::answer_of))]
pub fn read_image(alloc: Global, bytes: &[u8]) -> Result<Image, ImageFault>
    ensures answer { Gives ImageFault.Memory result (answer_of bytes.now) }
    ensures small { IfOk result (λ image. length image.memory ≤ most_memory) }
{
    let mut cursor = Cursor {
        size: bytes.len(),
        rest: bytes,
    };
    cursor.magic()?;
    cursor.image(alloc)
}

/// The remaining bytes of a file, with the file's size.
#[derive(Drop)]
struct Cursor<'a> {
    size: usize,
    rest: &'a [u8],
}

impl Cursor<'_> {
    ghost use Rattle.std.specs.Prelude.{◌≡◌, ◌<◌, ◌≤◌, ℕ, IfOk, length};
    ghost use Rattle.cg_model.specs.Answers.{Gives};
    ghost use Rattle.cg_model.specs.Limits.{most_memory, most_stream, port_count};
    ghost use Rattle.cg_pad.specs.Bytes.{take_number, take_words, or_truncated, read_magic, memory_too_large, stream_too_large, read_block, read_streams, at_end, read_blocks};
    ghost use Rattle.cg_pad.specs.Cursor.{with_rest, bytes_after, Takes};

    /// Reads the letters `CGI1`.
    fn magic(&mut self) -> Result<(), ImageFault>
        ensures answer { Gives ImageFault.Memory (bytes_after result self.new.rest.now) (read_magic self.old.size self.old.rest.now) }
        ensures size { self.new.size ≡ self.old.size }
    {
        let bytes = self.rest;
        let first = &bytes[..bytes.len().min(MAGIC.len())];
        if !MAGIC.starts_with(first) {
            return Err(ImageFault::Magic);
        }
        if bytes.len() < MAGIC.len() {
            return Err(ImageFault::Truncated(self.size));
        }
        self.rest = &bytes[MAGIC.len()..];
        Ok(())
    }

    /// Reads the memory and the streams, and checks that the bytes end there.
    fn image(&mut self, alloc: Global) -> Result<Image, ImageFault>
        ensures small { IfOk result (λ image. length image.memory ≤ most_memory) }
        ensures answer { Gives ImageFault.Memory result (read_blocks self.old.size self.old.rest.now) }
    {
        let memory = self.memory(alloc)?;
        let streams = self.streams(alloc)?;
        self.end(memory, streams)
    }

    /// Checks that no bytes follow, and returns the image of `memory` and `streams`.
    fn end(&self, memory: Words, streams: Streams) -> Result<Image, ImageFault>
        requires { length streams ≡ port_count }
        ensures memory { IfOk result (λ image. image.memory ≡ memory) }
        ensures answer { result ≡ at_end self.now.size (record { memory = memory; streams = streams }) self.now.rest.now }
    {
        if !self.rest.is_empty() {
            return Err(ImageFault::Trailing(self.size.saturating_sub(self.rest.len())));
        }
        Ok(Image { memory, streams })
    }

    /// Reads the words of the memory.
    fn memory(&mut self, alloc: Global) -> Result<Words, ImageFault>
        ensures answer { Gives ImageFault.Memory (with_rest result self.new.rest.now) (read_block most_memory memory_too_large self.old.size self.old.rest.now) }
        ensures size { self.new.size ≡ self.old.size }
        ensures small { IfOk result (λ words. length words ≤ most_memory) }
    {
        let count = self.count()?;
        if count > MOST_MEMORY {
            return Err(ImageFault::TooLarge(TooLargePlace::Memory(count)));
        }
        self.block(alloc, count)
    }

    /// Reads the words of the stream of `port`.
    fn stream(&mut self, alloc: Global, port: u32) -> Result<Words, ImageFault>
        ensures answer { Gives ImageFault.Memory (with_rest result self.new.rest.now) (read_block most_stream (stream_too_large port) self.old.size self.old.rest.now) }
        ensures size { self.new.size ≡ self.old.size }
    {
        let count = self.count()?;
        if count > MOST_STREAM {
            return Err(ImageFault::TooLarge(TooLargePlace::Stream(port, count)));
        }
        self.block(alloc, count)
    }

    /// Reads the words of all streams, by port.
    fn streams(&mut self, alloc: Global) -> Result<Streams, ImageFault>
        ensures answer { Gives ImageFault.Memory (with_rest result self.new.rest.now) (read_streams self.old.size 0 port_count self.old.rest.now) }
        ensures sixteen { IfOk result (λ streams. length streams ≡ port_count) }
        ensures size { self.new.size ≡ self.old.size }
    {
        let mut streams = Vec::with_capacity(alloc, PORTS)?;
        for port in 0..PORTS as u32 {
            streams.push(self.stream(alloc, port)?)?;
        }
        Ok(Streams::new(streams))
    }

    /// Reads a number of words.
    fn count(&mut self) -> Result<u32, ImageFault>
        ensures answer { Gives ImageFault.Memory (with_rest result self.new.rest.now) (or_truncated self.old.size (take_number self.old.rest.now)) }
        ensures size { self.new.size ≡ self.old.size }
    {
        let size = self.size;
        self.number().ok_or(ImageFault::Truncated(size))
    }

    /// Reads `count` words.
    fn block(&mut self, alloc: Global, count: u32) -> Result<Words, ImageFault>
        ensures answer { Gives ImageFault.Memory (with_rest result self.new.rest.now) (or_truncated self.old.size (take_words count self.old.rest.now)) }
        ensures size { self.new.size ≡ self.old.size }
        ensures count { IfOk result (λ words. length words ≡ count) }
    {
        let size = self.size;
        let mut words = Vec::new(alloc);
        for _word in 0..count {
            let Some(word) = self.number() else {
                return Err(ImageFault::Truncated(size));
            };
            words.push(word)?;
        }
        Ok(Words::new(words))
    }

    /// Reads the next four bytes as a number.
    fn number(&mut self) -> Option<u32>
        ensures taken { Takes result self.new.rest.now (take_number self.old.rest.now) }
        ensures size { self.new.size ≡ self.old.size }
    {
        match self.rest {
            [a, b, c, d, rest @ ..] => {
                let number = u32::from_be_bytes([*a, *b, *c, *d]);
                self.rest = rest;
                Some(number)
            }
            _ => None,
        }
    }
}
