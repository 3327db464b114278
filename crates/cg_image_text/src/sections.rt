//! The sections of a text, field by field.
ghost use Rattle.std.specs.Prelude.{◌≡◌, ◌<◌, ◌≤◌, ◌^◌, IfSome};
ghost use Rattle.cg_model.specs.Answers.{Gives};
ghost use Rattle.cg_model.specs.Limits.{port_count};
ghost use Rattle.cg_image_text.specs.Places.{place_behind};
ghost use Rattle.cg_image_text.specs.Sections.{added, port_of};
ghost use Rattle.cg_image_text.specs.Steps.{state_after};

use crate::fault::{Misread, TextFault};
use crate::field::{Piece, next_field};
use crate::number::numeral;
use crate::place::place_behind;
use crate::run::{Run, push_run, run_of};
use cg_model::{MOST_MEMORY, MOST_STREAM, PORTS, Words};
use cg_pad::{Image, Streams, empty_streams};
use std::alloc::{AllocError, Global};
use std::marker::Model;

/// The destination of words.
#[derive(Clone, Copy, Debug, PartialEq, Eq, Drop)]
pub enum Section {
    /// The memory.
    Memory,
    /// The stream of that port.
    Stream(u32),
}

/// The state of reading a text.
#[derive(Drop)]
pub(crate) struct Reader {
    /// The words of the memory.
    memory: Words,
    /// The words of each stream.
    streams: Vec<Words>,
    /// The section that receives the words that follow.
    section: Option<Section>,
    /// The position of the word `stream`, if its port comes next.
    open_stream: Option<usize>,
}

impl Model for Reader {
    ghost use Rattle.std.specs.Prelude.{◌≡◌, ◌<◌, length};
    ghost use Rattle.cg_model.specs.Limits.{port_count};
    ghost use Rattle.cg_image_text.specs.Sections.{Reading};
    ghost use Rattle.cg_image_text.specs.Steps.{section_port};

    ghost Value = { Reading };

    ghost view = { λ r. record { image = record { memory = r.memory; streams = r.streams.items }; section = r.section; open_stream = r.open_stream } };

    ghost invariant = { λ r. record { sixteen : length r.streams.items ≡ port_count; port : section_port r.section < port_count } };
}

/// Returns the port that `text` denotes.
fn port_of(text: &[u8]) -> Option<u32>
    ensures value { result ≡ port_of text.now }
    ensures small { IfSome result (λ port. port < port_count) }
{
    match numeral(10, text) {
        Ok(port) if port < PORTS as u32 => Some(port),
        _ => None,
    }
}

/// Adds the words of `run`, which begins at `place` in `text`, to `words`, which may have at most `most` words.
fn extend(
    words: &mut Words,
    most: u32,
    text: &[u8],
    place: usize,
    run: Run,
) -> Result<(), TextFault>
    requires { run.count ≤ 2 ^ 32 }
    ensures { Gives TextFault.Memory (state_after result words.new) (added most words.old (place_behind text.now place) run) }
{
    if (most as u64) < words.as_slice().len() as u64 + run.count {
        return Err(TextFault::TooLarge(place_behind(text, place)));
    }
    push_run(words, run)?;
    Ok(())
}

impl Reader {
    ghost use Rattle.std.specs.Prelude.{◌≡◌, ◌<◌, ◌≤◌, ◌^◌, IfOk};
    ghost use Rattle.cg_model.specs.Answers.{Gives};
    ghost use Rattle.cg_model.specs.Limits.{port_count};
    ghost use Rattle.cg_image_text.specs.Fields.{fields_of, seen};
    ghost use Rattle.cg_image_text.specs.Places.{place_behind};
    ghost use Rattle.cg_image_text.specs.Runs.{run_of};
    ghost use Rattle.cg_image_text.specs.Sections.{begun, port_of, to_stream, read_plain, read_field, read_fields, add_words, add_run, add_to, ended};
    ghost use Rattle.cg_image_text.specs.Steps.{section_port, state_after};

    /// Returns the state before the first field.
    pub(crate) fn new(alloc: Global) -> Result<Reader, AllocError>
        ensures { IfOk result (λ reader. reader ≡ begun) }
    {
        Ok(Reader {
            memory: Words::new(Vec::new(alloc)),
            streams: empty_streams(alloc)?.into_vec(),
            section: None,
            open_stream: None,
        })
    }

    /// Returns the image that was read, at the end of `text`.
    #[tactic(auto, unfolding(crate::specs::Sections::ended))]
    pub(crate) fn image(self, text: &[u8]) -> Result<Image, TextFault>
        ensures { result ≡ ended text.now self.image self.open_stream }
    {
        match self.open_stream {
            Some(stream) => Err(TextFault::BadPort(place_behind(text, stream))),
            None => Ok(Image {
                memory: self.memory,
                streams: Streams::new(self.streams),
            }),
        }
    }

    /// Reads the fields of `text` up to the first fault.
    pub(crate) fn read_fields(&mut self, text: &[u8]) -> Result<(), TextFault>
        ensures { Gives TextFault.Memory (state_after result self.new) (read_fields text.now self.old (fields_of text.now)) }
    {
        let mut at = 0;
        while let Some(piece) = next_field(text, at) {
            self.read_field(text, piece)?;
            at = piece.place + piece.text.len();
        }
        Ok(())
    }

    /// Reads `field` of `text`.
    #[tactic(auto, unfolding(crate::specs::Sections::read_field))]
    fn read_field(&mut self, text: &[u8], field: Piece<'_>) -> Result<(), TextFault>
        ensures { Gives TextFault.Memory (state_after result self.new) (read_field text.now self.old (seen field.entry)) }
    {
        match self.open_stream {
            Some(_) => self.to_stream(text, field),
            None => self.read_plain(text, field),
        }
    }

    /// Selects the stream whose port is `field` of `text`.
    fn to_stream(&mut self, text: &[u8], field: Piece<'_>) -> Result<(), TextFault>
        ensures { Gives TextFault.Memory (state_after result self.new) (to_stream self.old (place_behind text.now field.entry.place) (port_of field.entry.text.now)) }
    {
        match port_of(field.text) {
            Some(port) => {
                self.section = Some(Section::Stream(port));
                self.open_stream = None;
                Ok(())
            }
            None => Err(TextFault::BadPort(place_behind(text, field.place))),
        }
    }

    /// Reads `field` of `text`, which is not a port.
    fn read_plain(&mut self, text: &[u8], field: Piece<'_>) -> Result<(), TextFault>
        ensures { Gives TextFault.Memory (state_after result self.new) (read_plain text.now self.old (seen field.entry)) }
    {
        if field.text == b"memory".as_slice() {
            self.section = Some(Section::Memory);
            Ok(())
        } else if field.text == b"stream".as_slice() {
            self.open_stream = Some(field.place);
            Ok(())
        } else {
            self.add_words(text, field)
        }
    }

    /// Adds the words of `field` of `text`.
    fn add_words(&mut self, text: &[u8], field: Piece<'_>) -> Result<(), TextFault>
        ensures { Gives TextFault.Memory (state_after result self.new) (add_words self.old (place_behind text.now field.entry.place) (run_of field.entry.text.now)) }
    {
        match run_of(field.text) {
            Ok(run) => self.add_run(text, field.place, run),
            Err(Misread::Unknown) => Err(TextFault::UnknownWord(place_behind(text, field.place))),
            Err(Misread::Large) => Err(TextFault::TooLarge(place_behind(text, field.place))),
        }
    }

    /// Adds the words of `run`, which begins at `place` in `text`.
    fn add_run(&mut self, text: &[u8], place: usize, run: Run) -> Result<(), TextFault>
        requires { run.count ≤ 2 ^ 32 }
        ensures { Gives TextFault.Memory (state_after result self.new) (add_run self.old self.old.section (place_behind text.now place) run) }
    {
        match self.section {
            Some(section) => self.add_to(section, text, place, run),
            None => Err(TextFault::NoSection(place_behind(text, place))),
        }
    }

    /// Adds the words of `run`, which begins at `place` in `text`, to `section`.
    fn add_to(
        &mut self,
        section: Section,
        text: &[u8],
        place: usize,
        run: Run,
    ) -> Result<(), TextFault>
        requires port { section_port (Some section) < port_count }
        requires count { run.count ≤ 2 ^ 32 }
        ensures { Gives TextFault.Memory (state_after result self.new) (add_to self.old section (place_behind text.now place) run) }
    {
        match section {
            Section::Memory => extend(&mut self.memory, MOST_MEMORY, text, place, run),
            Section::Stream(port) => {
                let stream = &mut self.streams[port as usize];
                extend(stream, MOST_STREAM, text, place, run)
            }
        }
    }
}
