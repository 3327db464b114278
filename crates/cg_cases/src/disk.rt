//! Calls on the files of the system and the standard output, and what they write there.

use cg_files::{DiskStore, StdSink, Store, StoreFail};
use cg_top::run_line;
use std::alloc::{AllocError, Global};
use std::rt::Files;
use std::{fs, io};

/// A call that writes one file.
#[derive(Clone, Copy)]
struct DiskCall {
    line: &'static str,
    status: u8,
    name: &'static str,
    /// The name of the file with the expected contents.
    wanted: &'static str,
}

/// The calls: `flat` on an architecture of one unit, and `turns` on a kernel that leaves another image than it began
/// with.
const CALLS: [DiskCall; 2] = [
    DiskCall {
        line: "flat one_unit.toml out.flat",
        status: 0,
        name: "out.flat",
        wanted: "one_unit.flat",
    },
    DiskCall {
        line: "turns swap.json 2 before.img out.img",
        status: 8,
        name: "out.img",
        wanted: "after.img",
    },
];

/// Makes the calls of `CALLS`, and prints how many differ from what is expected.
pub(crate) fn run_calls<R: Files + Print + AllocGlobal>(rt: &R) -> io::Result<()> {
    let mut differing = 0u32;
    for call in &CALLS {
        if !is_as_wanted(rt, call)? {
            differing = differing.saturating_add(1);
        }
    }
    let count = CALLS.len();
    let line = format!(in rt.alloc(); "disk: {count} calls, {differing} differ\n")?;
    rt.print(line.as_str())
}

/// Checks whether `call` ends with its status and writes the expected contents, and removes the file that it writes.
fn is_as_wanted<R: Files + Print + AllocGlobal>(rt: &R, call: &DiskCall) -> io::Result<bool> {
    let words = words_of(rt.alloc(), call.line)?;
    let mut store = DiskStore::new(rt);
    let mut out = StdSink::new(rt);
    let status = run_line(rt.alloc(), words.as_slice(), &mut store, &mut out);
    let written = fs::read(rt, call.name)?;
    fs::remove_file(rt, call.name)?;
    let wanted = fs::read(rt, call.wanted)?;
    Ok(status.number() == call.status && written.as_slice() == wanted.as_slice())
}

/// Returns the words of `line`, separated by single blanks.
fn words_of(alloc: Global, line: &str) -> Result<Vec<String>, AllocError> {
    let mut words = Vec::new(alloc);
    for word in line.split(' ') {
        words.push(String::from_str(alloc, word)?)?;
    }
    Ok(words)
}

/// The lengths, in bytes, of the texts that the system's store is to keep, one after another under one name.
const LENGTHS: [u32; 4] = [11, 70_000, 10_000, 7];

/// Writes texts over one another, and prints how many checks differ: whether each text is read back as it was written,
/// and whether the store reports a failure at a file that doesn't exist and at one that can't be written.
pub(crate) fn keep_files<R: Files + Print + AllocGlobal>(rt: &R) -> io::Result<()> {
    let mut store = DiskStore::new(rt);
    let mut differing = 0u32;
    for length in LENGTHS {
        if !is_kept(rt.alloc(), &mut store, length)? {
            differing = differing.saturating_add(1);
        }
    }
    fs::remove_file(rt, KEPT)?;
    if !says_what_failed(rt.alloc(), &mut store) || store.write_faults() != 1 {
        differing = differing.saturating_add(1);
    }
    let line = format!(in rt.alloc(); "disk: 4 files and 2 faults, {differing} differ\n")?;
    rt.print(line.as_str())
}

/// The name under which the texts are kept.
const KEPT: &str = "kept.txt";

/// Checks whether `store` reads a text of `length` bytes back as it was written, and reports at a limit of one byte
/// less that it is too long.
fn is_kept<S: Store>(alloc: Global, store: &mut S, length: u32) -> Result<bool, AllocError> {
    let text = text_of(alloc, length)?;
    if store.write(alloc, KEPT, text.as_slice()).is_err() {
        return Ok(false);
    }
    let limit = u64::from(length);
    Ok(gives(alloc, store, text.as_slice(), limit) && is_too_long(alloc, store, limit))
}

/// Returns a text of `length` bytes, in which bytes whose distance is the length of a piece differ.
fn text_of(alloc: Global, length: u32) -> Result<Vec<u8>, AllocError> {
    (0..length)
        .map(|place| (place % 89) as u8 + 33)
        .collect(alloc)
}

/// Checks whether `store` reads `bytes` under the limit `limit`.
fn gives<S: Store>(alloc: Global, store: &mut S, bytes: &[u8], limit: u64) -> bool {
    match store.read(alloc, KEPT, limit) {
        Ok(read) => read.as_slice() == bytes,
        Err(_) => false,
    }
}

/// Checks whether `store` reports that the held file of `length` bytes is too long by one byte.
fn is_too_long<S: Store>(alloc: Global, store: &mut S, length: u64) -> bool {
    match store.read(alloc, KEPT, length.saturating_sub(1)) {
        Err(StoreFail::TooLong(got)) => got == length,
        _ => false,
    }
}

/// Checks whether `store` reports that a file doesn't exist, and that one can't be written.
fn says_what_failed<S: Store>(alloc: Global, store: &mut S) -> bool {
    let missing = match store.read(alloc, "missing.txt", 7) {
        Err(fail) => fail == StoreFail::Failed,
        Ok(_) => false,
    };
    let nowhere = store.write(alloc, "missing/kept.txt", b"one") == Err(StoreFail::Failed);
    missing && nowhere
}
