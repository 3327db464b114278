//! The last accesses to the words of the memory.

use crate::pair::{Access, latest_unordered};
use cg_distance::DistanceTable;
use std::alloc::{AllocError, Global};
use std::marker::Model;

/// The placeholder for a word's last store where there is none: no node has this number.
const NO_STORE: Access = Access {
    node: u32::MAX,
    turn: 0,
};

/// The number of accesses for which a word's first list has room.
const LEAST_ROOM: usize = 3;

/// The last store to a word, and the loads of it since: the latest load of each node, and possibly earlier ones.
///
/// They are kept in one list, so that a word takes 24 bytes until it is accessed: first the store, or `NO_STORE` where
/// there were only loads.
#[derive(Drop)]
pub(crate) struct LastAccesses {
    accesses: Vec<Access>,
}

impl Model for LastAccesses {
    ghost use Rattle.cg_turns.specs.Trace.{Kept};
    ghost use Rattle.cg_turns.specs.Last.{kept_in};

    ghost Value = { Kept };

    ghost view = { λ l. kept_in l.accesses.items };
}

impl LastAccesses {
    ghost use Rattle.std.specs.Prelude.{◌≡◌, ◌<◌, ◌≤◌, OnOk};
    ghost use Rattle.cg_model.specs.Kernel.{size as size_of};
    ghost use Rattle.cg_model.specs.Limits.{most_nodes};
    ghost use Rattle.cg_turns.specs.Last.{no_store};
    ghost use Rattle.cg_turns.specs.Trace.{nothing_kept, rivals_of, IsLatest, Keeps};

    /// Returns the value without accesses.
    pub(crate) fn new(alloc: Global) -> LastAccesses
        ensures { result ≡ nothing_kept }
    {
        LastAccesses {
            accesses: Vec::new(alloc),
        }
    }

    /// Returns the latest access that is unordered with an access: among the store, and the loads where the access is a
    /// store.
    pub(crate) fn latest_unordered(
        &self,
        table: &DistanceTable,
        size: usize,
        stores: bool,
        later: Access,
    ) -> Option<Access>
        requires size { size ≡ size_of table.now }
        requires few { size ≤ most_nodes }
        ensures { IsLatest table.now later self.now.store (rivals_of stores self.now) result }
    {
        latest_unordered(table, size, self.store(), self.rivals(stores), later)
    }

    /// Returns the last store.
    fn store(&self) -> Option<Access>
        ensures { result ≡ self.now.store }
    {
        match self.accesses.first() {
            Some(first) => {
                if first.node == NO_STORE.node {
                    None
                } else {
                    Some(*first)
                }
            }
            None => None,
        }
    }

    /// Returns the loads since the last store.
    fn loads(&self) -> &[Access]
        ensures { result.now ≡ self.now.loads }
    {
        match self.accesses.split_first() {
            Some((_, loads)) => loads,
            None => &[],
        }
    }

    /// Returns the loads with which an access can form a pair: all for a store, none for a load.
    fn rivals(&self, stores: bool) -> &[Access]
        ensures { result.now ≡ rivals_of stores self.now }
    {
        if stores { self.loads() } else { &[] }
    }

    /// Records an access: a store replaces everything, a load replaces its node's last load or is added.
    ///
    /// The places give the position of each node's last load in the list of some word.
    pub(crate) fn take(
        &mut self,
        stores: bool,
        access: Access,
        places: &mut Vec<usize>,
    ) -> Result<(), AllocError>
        requires { access.node < no_store.node }
        ensures { OnOk result (Keeps stores access self.old self.new) }
    {
        if stores {
            store_alone(&mut self.accesses, access)?;
            return Ok(());
        }
        put_store_place(&mut self.accesses)?;
        make_room(&mut self.accesses, places)?;
        take_in(&mut self.accesses, access, places)?;
        Ok(())
    }
}

ghost use Rattle.std.specs.Prelude.{◌≡◌, ◌<◌, ◌∷◌, [], IfOk, IfSome, OnOk, length, slice_index_or};
ghost use Rattle.cg_turns.specs.Last.{with_store_place, IsThinnedBehind, TakesBehind};
ghost use Rattle.cg_turns.specs.Trace.{no_access};

/// Replaces everything by `store`.
fn store_alone(accesses: &mut Vec<Access>, store: Access) -> Result<(), AllocError>
    ensures { OnOk result (accesses.new.items ≡ store ∷ []) }
{
    accesses.clear();
    accesses.reserve_exact(LEAST_ROOM)?;
    accesses.push(store)?;
    Ok(())
}

/// Adds the placeholder for the last store, if there was no access yet.
fn put_store_place(accesses: &mut Vec<Access>) -> Result<(), AllocError>
    ensures { OnOk result (accesses.new.items ≡ with_store_place accesses.old.items) }
{
    if accesses.is_empty() {
        accesses.reserve_exact(LEAST_ROOM)?;
        accesses.push(NO_STORE)?;
    }
    Ok(())
}

/// Where the list is full, thins the loads and reserves room to double the thinned list.
fn make_room(accesses: &mut Vec<Access>, places: &mut Vec<usize>) -> Result<(), AllocError>
    requires { 0 < length accesses.old.items }
    ensures { OnOk result (IsThinnedBehind accesses.old.items accesses.new.items) }
{
    if accesses.len() < accesses.capacity() {
        return Ok(());
    }
    let mut latest = thinned(accesses, places)?;
    latest.reserve(latest.len())?;
    *accesses = latest;
    Ok(())
}

/// Returns the entry of the store, and the latest load of each node.
fn thinned(accesses: &Vec<Access>, places: &mut Vec<usize>) -> Result<Vec<Access>, AllocError>
    requires { 0 < length accesses.now.items }
    ensures { IfOk result (λ t. IsThinnedBehind accesses.now.items t.items) }
{
    let mut latest = Vec::new(*accesses.allocator());
    latest.push(accesses[0])?;
    for place in 1..accesses.len() {
        take_in(&mut latest, accesses[place], places)?;
    }
    Ok(latest)
}

/// Records `load` after the store's entry: it replaces the load of its node if that is found and earlier, and is
/// appended if none is found.
fn take_in(
    accesses: &mut Vec<Access>,
    load: Access,
    places: &mut Vec<usize>,
) -> Result<(), AllocError>
    requires { 0 < length accesses.old.items }
    ensures { OnOk result (TakesBehind load accesses.old.items accesses.new.items) }
{
    match place_of(accesses, load.node, places) {
        Some(place) => {
            if accesses[place].turn < load.turn {
                accesses[place] = load;
            }
        }
        None => {
            put_place(places, load.node, accesses.len());
            accesses.push(load)?;
        }
    }
    Ok(())
}

/// Returns the position of a node's load, if it is where `places` says.
fn place_of(accesses: &[Access], node: u32, places: &[usize]) -> Option<usize>
    ensures { IfSome result (λ p. (0 < p) × (p < length accesses.now) × ((slice_index_or accesses.now p no_access).node ≡ node)) }
{
    let place = *places.get(node as usize)?;
    if 0 < place && place < accesses.len() && accesses[place].node == node {
        Some(place)
    } else {
        None
    }
}

/// Records the position of a node's load.
fn put_place(places: &mut Vec<usize>, node: u32, place: usize) {
    if (node as usize) < places.len() {
        places[node as usize] = place;
    }
}
