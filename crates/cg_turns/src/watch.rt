//! Watches the accesses: the last ones of each word, and the first unordered pair.
ghost use Rattle.std.specs.Prelude.{◌≡◌, ◌<◌, ◌⊎◌, ◌↔◌, IfOk, IsTrue, OnOk, length, replicate};
ghost use Rattle.std.specs.List.{list_any};
ghost use Rattle.cg_word.specs.Word.{is_store as is_store_op};
ghost use Rattle.cg_model.specs.declared.kernel.Node.{Node};
ghost use Rattle.cg_model.specs.Kernel.{size, node as node_of};
ghost use Rattle.cg_turns.specs.Trace.{nothing_kept};
ghost use Rattle.cg_turns.specs.Watched.{HasNoStore, IsOpen, IsUnwatched, Watches, WatchesWord, WatchesStep, IsReached};
ghost use Rattle.cg_word.specs.Word as word;
ghost use Rattle.cg_pad.specs.Work.{work_of};

use crate::last::LastAccesses;
use crate::pair::{Access, UnorderedPair, paired};
use cg_distance::DistanceTable;
use cg_model::Kernel;
use cg_pad::Work;
use std::alloc::{AllocError, Global};

/// The last accesses of each word, and the first unordered pair.
///
/// Once there is a pair nothing more is watched. Where no node is a store, so that there can't be a pair, no words are
/// watched.
#[derive(Drop)]
pub(crate) struct Watch {
    pub(crate) words: Vec<LastAccesses>,
    pub(crate) pair: Option<UnorderedPair>,
    places: Vec<usize>,
}

/// Returns the watch before the first access to a memory of `size` words.
pub(crate) fn unwatched(alloc: Global, kernel: &Kernel, size: usize) -> Result<Watch, AllocError>
    ensures { IfOk result (IsUnwatched kernel.now size) }
{
    let words = no_accesses(alloc, watched_words(kernel, size))?;
    let places = vec![in alloc; 0; kernel.nodes().len()]?;
    Ok(Watch {
        words,
        pair: None,
        places,
    })
}

/// Returns the number of words that are watched, of a memory of `size` words.
fn watched_words(kernel: &Kernel, size: usize) -> usize
    ensures { (result ≡ size) ⊎ HasNoStore kernel.now }
{
    if has_store(kernel) { size } else { 0 }
}

/// Returns whether a node of the kernel is a store.
fn has_store(kernel: &Kernel) -> bool
    ensures { result ≡ list_any (λ (v : Node). is_store_op v.op) kernel.now.nodes }
{
    kernel.nodes().iter().any(|node| node.op.is_store())
}

/// Returns `size` words without accesses.
fn no_accesses(alloc: Global, size: usize) -> Result<Vec<LastAccesses>, AllocError>
    ensures { IfOk result (λ w. w.items ≡ replicate size nothing_kept) }
{
    let mut words = Vec::new(alloc);
    for _word in 0..size {
        words.push(LastAccesses::new(alloc))?;
    }
    Ok(words)
}

/// Returns whether `node` is a store.
fn is_store(kernel: &Kernel, node: u32) -> bool
    requires { node < size kernel.now }
    ensures { result ≡ is_store_op (node_of kernel.now node).op }
{
    let nodes = kernel.nodes();
    nodes[node as usize].op.is_store()
}

/// Watches an access.
fn watch_access(
    kernel: &Kernel,
    table: &DistanceTable,
    address: usize,
    access: Access,
    watch: &mut Watch,
) -> Result<(), AllocError>
    requires address { address < length watch.old.words.items }
    requires table { table.now ≡ kernel.now }
    requires access { access.node < size kernel.now }
    ensures { OnOk result (Watches kernel.now address access watch.old watch.new) }
{
    let nodes = kernel.nodes();
    let stores = is_store(kernel, access.node);
    let last = &mut watch.words[address];
    let found = last.latest_unordered(table, nodes.len(), stores, access);
    last.take(stores, access, &mut watch.places)?;
    watch.pair = paired(found, access);
    Ok(())
}

/// Returns whether accesses of the word at `address` are watched.
fn is_open(watch: &Watch, address: usize) -> bool
    ensures { IsTrue result ↔ IsOpen watch.now address }
{
    watch.pair.is_none() && address < watch.words.len()
}

/// Watches an access, if no pair is known and the word is one of those watched.
fn watch_word(
    kernel: &Kernel,
    table: &DistanceTable,
    address: usize,
    access: Access,
    watch: &mut Watch,
) -> Result<(), AllocError>
    requires table { table.now ≡ kernel.now }
    requires access { access.node < size kernel.now }
    ensures { OnOk result (WatchesWord kernel.now address access watch.old watch.new) }
{
    if !is_open(watch, address) {
        return Ok(());
    }
    watch_access(kernel, table, address, access, watch)?;
    Ok(())
}

/// Watches a step, which accesses at most one word.
pub(crate) fn watch_step(
    kernel: &Kernel,
    table: &DistanceTable,
    reached: Option<u32>,
    access: Access,
    watch: &mut Watch,
) -> Result<(), AllocError>
    requires table { table.now ≡ kernel.now }
    requires access { access.node < size kernel.now }
    ensures { OnOk result (WatchesStep kernel.now reached access watch.old watch.new) }
{
    match reached {
        Some(address) => watch_word(kernel, table, address as usize, access, watch),
        None => Ok(()),
    }
}

/// Returns the address of the word that `work` accesses in a memory of `size` words, None where it accesses none.
pub(crate) fn reached(work: Work, size: usize) -> Option<u32>
    ensures { IsReached size (work_of work) result }
{
    let address = work.address();
    if work.op.is_access() && work.acts() && (address as usize) < size {
        Some(address)
    } else {
        None
    }
}
