//! The system's files and its standard output. Their contracts reveal neither content nor names.
ghost use Rattle.std.specs.Prelude.{◌≡◌, ◌+◌, ◌-◌, ◌^◌, ◌<◌, ◌≤◌, ◌++◌, ℕ, List, [], Err, Ok, IfOk, IfSome, IsErrOf, OnOk, length, min};
ghost use Rattle.std.specs.Io.KnownBytes.{Consumes, IsAtEnd};

use crate::fail::{SinkFail, StoreFail};
use crate::sink::Sink;
use crate::store::Store;
use std::alloc::Global;
use std::io::{Read, Write};
use std::rt::Files;
use std::{fs, io};

/// The files of the system. Each error of the system raises a count; a missing file is one of these errors.
#[derive(Drop)]
pub struct DiskStore<'a, R: Files> {
    rt: &'a R,
    read_faults: u64,
    write_faults: u64,
}

impl<'a, R: Files> DiskStore<'a, R> {
    /// Returns the files of the runtime `rt`.
    pub fn new(rt: &'a R) -> DiskStore<'a, R>
        ensures reads { ⟦<DiskStore<'a, R> as Store>⟧.read_faults result ≡ 0 }
        ensures writes { ⟦<DiskStore<'a, R> as Store>⟧.write_faults result ≡ 0 }
    {
        DiskStore {
            rt,
            read_faults: 0,
            write_faults: 0,
        }
    }

    /// Returns the number of failed writes.
    pub fn write_faults(&self) -> u64
        ensures { result ≡ ⟦<DiskStore<'a, R> as Store>⟧.write_faults self.now }
    {
        self.write_faults
    }

    /// Returns the bytes of the file `name`, if they are at most `limit`.
    fn read_file(&mut self, alloc: Global, name: &str, limit: u64) -> Result<Vec<u8>, StoreFail>
        ensures ok { IfOk result (λ bytes. length bytes.items ≤ limit) }
        ensures too_long { (got : ℕ) → result ≡ Err (StoreFail.TooLong got)
            → (limit < got) × (got ≤ limit + 4096) }

        // The count rises by one where the answer is `Failed`, and nowhere else.
        ensures raised { IsErrOf result StoreFail.Failed
            → self.new.read_faults ≡ min (self.old.read_faults + 1) (2 ^ 64 - 1) }
        ensures still { ¬ IsErrOf result StoreFail.Failed
            → self.new.read_faults ≡ self.old.read_faults }
        ensures reads { self.old.read_faults ≤ self.new.read_faults }
        ensures writes { self.new.write_faults ≡ self.old.write_faults }
    {
        let answer = match fs::open(self.rt, name) {
            Ok(file) => read_up_to(alloc, file, limit),
            Err(_) => Err(StoreFail::Failed),
        };
        if let Err(StoreFail::Failed) = answer {
            self.read_faults = self.read_faults.saturating_add(1);
        }
        answer
    }
}

impl<'a, R: Files> Store for DiskStore<'a, R> {
    ghost use Rattle.std.specs.Prelude.{None};

    ghost held = { λ _. None };

    ghost asked = { λ _. None };

    ghost wrote = { λ _. None };

    ghost read_faults = { λ s. s.read_faults };

    ghost write_faults = { λ s. s.write_faults };

    fn read(&mut self, alloc: Global, name: &str, limit: u64) -> Result<Vec<u8>, StoreFail> {
        self.read_file(alloc, name, limit)
    }

    fn write(&mut self, _alloc: Global, name: &str, bytes: &[u8]) -> Result<(), StoreFail> {
        match fs::write(self.rt, name, bytes) {
            Ok(()) => Ok(()),
            Err(_) => {
                self.write_faults = self.write_faults.saturating_add(1);
                Err(StoreFail::Failed)
            }
        }
    }
}

/// Reads `file` to its end and returns the bytes. Stops at the first piece that goes past `limit`.
fn read_up_to<F: Read + Drop>(alloc: Global, mut file: F, limit: u64) -> Result<Vec<u8>, StoreFail>
    ensures short { IfOk result (λ v. length v.items ≤ limit) }
    ensures too_long { (got : ℕ) → result ≡ Err (StoreFail.TooLong got)
        → (limit < got) × (got ≤ limit + 4096) }

    // Where the reader reveals its remaining bytes, these are the bytes read.
    ensures whole { IfSome (F.remaining file) (λ bytes. IfOk result (λ v. v.items ≡ bytes)) }
    ensures longer { IfSome (F.remaining file) (λ bytes. (got : ℕ)
        → result ≡ Err (StoreFail.TooLong got) → limit < length bytes) }
{
    let mut bytes = Vec::new(alloc);
    read_pieces(&mut file, limit, &mut bytes)?;
    Ok(bytes)
}

/// Reads `file` to its end into the empty vector `bytes`.
fn read_pieces<F: Read>(file: &mut F, limit: u64, bytes: &mut Vec<u8>) -> Result<(), StoreFail>
    requires { bytes.old.items ≡ [] }
    ensures short { OnOk result (length bytes.new.items ≤ limit) }
    ensures too_long { (got : ℕ) → result ≡ Err (StoreFail.TooLong got)
        → (limit < got) × (got ≤ limit + 4096) }
    ensures whole { IfSome (F.remaining file.old) (λ all. OnOk result (bytes.new.items ≡ all)) }
    ensures longer { IfSome (F.remaining file.old) (λ all. (got : ℕ)
        → result ≡ Err (StoreFail.TooLong got) → limit < length all) }
{
    for _ in 0..u64::MAX {
        let count = read_piece(file, bytes)?;
        if count == 0 {
            return Ok(());
        }
        let len = bytes.len() as u64;
        if len > limit {
            return Err(StoreFail::TooLong(len));
        }
    }
    Err(StoreFail::Failed)
}

/// Reads the next piece, and returns its length, which is 0 only at the file's end.
fn read_piece<F: Read>(file: &mut F, bytes: &mut Vec<u8>) -> Result<usize, StoreFail>
    ensures ok { IfOk result (λ count. (piece : List ℕ) × (length piece ≡ count)
        × (count ≤ 4096) × (bytes.new.items ≡ bytes.old.items ++ piece)
        × Consumes (F.remaining file.old) (F.remaining file.new) piece) }
    ensures end { result ≡ Ok 0 → IsAtEnd (F.remaining file.new) }
    ensures err { (got : ℕ) → result ≡ Err (StoreFail.TooLong got) → ⊥ }
{
    let mut piece = [0u8; 4096];
    let Ok(count) = file.read(&mut piece) else {
        return Err(StoreFail::Failed);
    };
    bytes.extend_from_slice(&piece[..count])?;
    Ok(count)
}

/// The standard output. Each error of the system raises the count.
#[derive(Drop)]
pub struct StdSink<'a, R: Print> {
    rt: &'a R,
    faults: u64,
}

impl<'a, R: Print> StdSink<'a, R> {
    /// Returns the standard output of the runtime `rt`.
    pub fn new(rt: &'a R) -> StdSink<'a, R>
        ensures { ⟦<StdSink<'a, R> as Sink>⟧.faults result ≡ 0 }
    {
        StdSink { rt, faults: 0 }
    }

    /// Returns the number of failed puts.
    pub fn faults(&self) -> u64
        ensures { result ≡ ⟦<StdSink<'a, R> as Sink>⟧.faults self.now }
    {
        self.faults
    }
}

impl<'a, R: Print> Sink for StdSink<'a, R> {
    ghost use Rattle.std.specs.Prelude.{None};

    ghost taken = { λ _. None };

    ghost faults = { λ s. s.faults };

    fn put(&mut self, _alloc: Global, bytes: &[u8]) -> Result<(), SinkFail> {
        match io::writer(self.rt).write_all(bytes) {
            Ok(()) => Ok(()),
            Err(_) => {
                self.faults = self.faults.saturating_add(1);
                Err(SinkFail::Failed)
            }
        }
    }
}
