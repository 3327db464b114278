//! Lists of numbers.

use std::alloc::{AllocError, Global};

/// A list of numbers for each thing of a kind.
#[derive(Drop)]
pub struct Lists {
    lists: Vec<Vec<u32>>,
}

impl Lists {
    /// Returns an empty list for each of `things` things.
    pub fn new(alloc: Global, things: u32) -> Result<Lists, AllocError> {
        let mut lists = Vec::new(alloc);
        for _ in 0..things {
            lists.push(Vec::new(alloc))?;
        }
        Ok(Lists { lists })
    }

    /// Adds `number` to the list of `thing`.
    pub fn add(&mut self, thing: u32, number: u32) -> Result<(), AllocError> {
        if let Some(list) = self.lists.get_mut(thing as usize) {
            list.push(number)?;
        }
        Ok(())
    }

    /// Returns the list of `thing`; empty where there is no such thing.
    pub fn of(&self, thing: u32) -> &[u32] {
        match self.lists.get(thing as usize) {
            Some(list) => list.as_slice(),
            None => &[],
        }
    }
}

/// Returns the number of the entries of `list`, or the greatest word where it has more.
pub fn count<T>(list: &[T]) -> u32 {
    list.len().min(u32::MAX as usize) as u32
}

/// Returns the entry of `list` at `place`; 0 past its end.
pub fn number_at(list: &[u32], place: usize) -> u32 {
    match list.get(place) {
        Some(number) => *number,
        None => 0,
    }
}

/// Adds `by` to the entry of `list` at `place`, where there is one, up to the greatest word.
pub fn raise(list: &mut [u32], place: usize, by: u32) {
    if let Some(number) = list.get_mut(place) {
        *number = number.saturating_add(by);
    }
}
