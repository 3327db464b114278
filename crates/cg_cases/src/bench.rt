//! A store and a sink in memory, and the calls made on them.

use cg_diagnostics::Aside;
use cg_files::{MemSink, MemStore};
use cg_top::run_line_with;
use std::alloc::{AllocError, Global};

/// A file that is held in each case.
#[derive(Drop)]
struct Shared {
    name: String,
    bytes: Vec<u8>,
}

/// A recorder of the notes and the progress of a call.
#[derive(Drop)]
struct Recorder {
    /// The notes, each with a line feed.
    text: Vec<u8>,
    /// The progress, a line for each report, and a line `end` for its end.
    progress: String,
}

impl Aside for Recorder {
    fn note(&mut self, text: &str) {
        // A note for which memory runs out is missing, which a case shows.
        let _ = self.text.extend_from_slice(text.as_bytes());
        let _ = self.text.push(b'\n');
    }

    fn progress(&mut self, ii: u32, moves: u32, least: u32) {
        // As with notes.
        let _ = write!(self.progress, "ii {ii} moves {moves} least {least}\n");
    }

    fn end_progress(&mut self) {
        let _ = self.progress.push_str("end\n");
    }
}

/// The state on which the calls of a case work.
#[derive(Drop)]
pub(crate) struct Bench {
    store: MemStore,
    sink: MemSink,
    shared: Vec<Shared>,
    /// The number of bytes that were put before the last call.
    put_before: usize,
    /// The notes and the progress of the last call.
    recorder: Recorder,
}

impl Bench {
    /// Returns a bench whose store holds nothing.
    pub(crate) fn new(alloc: Global) -> Bench {
        Bench {
            store: MemStore::new(alloc),
            sink: MemSink::new(alloc),
            shared: Vec::new(alloc),
            put_before: 0,
            recorder: Recorder {
                text: Vec::new(alloc),
                progress: String::new(alloc),
            },
        }
    }

    /// Begins a case: only the shared files are held, and nothing was put.
    pub(crate) fn clear(&mut self, alloc: Global) -> Result<(), AllocError> {
        let mut store = MemStore::new(alloc);
        for file in &self.shared {
            store.hold(alloc, file.name.as_str(), file.bytes.as_slice())?;
        }
        self.store = store;
        self.sink = MemSink::new(alloc);
        self.put_before = 0;
        Ok(())
    }

    /// Holds `bytes` under `name` in each case that begins from now on.
    pub(crate) fn share(
        &mut self,
        alloc: Global,
        name: &str,
        bytes: &[u8],
    ) -> Result<(), AllocError> {
        let name = String::from_str(alloc, name)?;
        let bytes = Vec::from_slice(alloc, bytes)?;
        self.shared.push(Shared { name, bytes })?;
        Ok(())
    }

    /// Holds `bytes` under `name` in this case.
    pub(crate) fn hold(
        &mut self,
        alloc: Global,
        name: &str,
        bytes: &[u8],
    ) -> Result<(), AllocError> {
        self.store.hold(alloc, name, bytes)
    }

    /// Cuts the file `name` to its first `count` bytes. Returns false where nothing is held.
    pub(crate) fn cut(
        &mut self,
        alloc: Global,
        name: &str,
        count: usize,
    ) -> Result<bool, AllocError> {
        let Some(bytes) = self.store.held(name) else {
            return Ok(false);
        };
        let first = Vec::from_slice(alloc, bytes.get(..count).unwrap_or(bytes))?;
        self.store.hold(alloc, name, first.as_slice())?;
        Ok(true)
    }

    /// Inverts bit `bit` of the file `name`, counted from the most significant bit of its first byte. Returns false
    /// where there is no such bit.
    pub(crate) fn flip(
        &mut self,
        alloc: Global,
        name: &str,
        bit: usize,
    ) -> Result<bool, AllocError> {
        let Some(bytes) = self.store.held(name) else {
            return Ok(false);
        };
        let mut turned = Vec::from_slice(alloc, bytes)?;
        match turned.get_mut(bit / 8) {
            None => return Ok(false),
            Some(byte) => *byte ^= 128 >> (bit % 8),
        }
        self.store.hold(alloc, name, turned.as_slice())?;
        Ok(true)
    }

    /// Returns what is held under `name`.
    pub(crate) fn held(&self, name: &str) -> Option<&[u8]> {
        self.store.held(name)
    }

    /// Returns the first `count` bytes of what is held under `name`; None where there are not that many.
    pub(crate) fn beginning(&self, name: &str, count: usize) -> Option<&[u8]> {
        self.store.held(name)?.get(..count)
    }

    /// Makes call `number` of the store fail.
    pub(crate) fn fail_store(&mut self, number: u32) -> Result<(), AllocError> {
        self.store.fail_at(&[number])
    }

    /// Makes call `number` of the sink fail.
    pub(crate) fn fail_sink(&mut self, number: u32) -> Result<(), AllocError> {
        self.sink.fail_at(&[number])
    }

    /// Calls the program with `words`, and returns its exit status.
    pub(crate) fn run(&mut self, alloc: Global, words: &[String]) -> u8 {
        self.put_before = self.sink.taken().len();
        self.recorder.text.clear();
        self.recorder.progress.clear();
        let status = run_line_with(
            alloc,
            words,
            &mut self.store,
            &mut self.sink,
            &mut self.recorder,
        );
        status.number()
    }

    /// Returns the notes of the last call, each with a line feed.
    pub(crate) fn notes(&self) -> &[u8] {
        self.recorder.text.as_slice()
    }

    /// Returns the progress of the last call, a line for each report, and a line `end` for its end.
    pub(crate) fn progress(&self) -> &[u8] {
        self.recorder.progress.as_bytes()
    }

    /// Returns what the last call put.
    pub(crate) fn report(&self) -> &[u8] {
        self.sink.taken().get(self.put_before..).unwrap_or(&[])
    }
}
