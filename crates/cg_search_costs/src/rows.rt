//! Lists of numbers, stored one after another.
ghost use Rattle.std.specs.Prelude.{◌≤◌, length};
ghost use Rattle.cg_model.specs.Limits.{most_resources};

use cg_arch::Resource;
use std::alloc::{AllocError, Global};

/// The position of a list among the items.
#[derive(Clone, Copy, Debug, PartialEq, Eq)]
struct Span {
    start: usize,
    end: usize,
}

/// Lists of numbers, stored one after another in one list.
#[derive(Drop)]
pub(crate) struct Rows {
    spans: Vec<Span>,
    items: Vec<u32>,
}

impl Rows {
    /// Returns no lists.
    pub(crate) fn new(alloc: Global) -> Rows {
        Rows {
            spans: Vec::new(alloc),
            items: Vec::new(alloc),
        }
    }

    /// Adds a list.
    pub(crate) fn push(&mut self, list: &[u32]) -> Result<(), AllocError> {
        let start = self.items.len();
        self.items.extend_from_slice(list)?;
        let end = self.items.len();
        self.spans.push(Span { start, end })?;
        Ok(())
    }

    /// Returns the list with that number; empty past the last one.
    #[inline]
    pub(crate) fn row(&self, number: u32) -> &[u32] {
        match self.spans.get(number as usize) {
            Some(span) => part(&self.items, span.start, span.end),
            None => &[],
        }
    }
}

/// Returns the items from `start` up to `end`; empty where this is not a valid range.
#[inline]
fn part(items: &[u32], start: usize, end: usize) -> &[u32] {
    match items.get(start..end) {
        Some(part) => part,
        None => &[],
    }
}

/// Returns the drivers of each resource.
pub(crate) fn drivers_of(alloc: Global, resources: &[Resource]) -> Result<Rows, AllocError> {
    let mut rows = Rows::new(alloc);
    for resource in resources {
        rows.push(resource.drivers.as_slice())?;
    }
    Ok(rows)
}

/// Returns the resources that each resource drives, ascending.
pub(crate) fn users_of(alloc: Global, resources: &[Resource]) -> Result<Rows, AllocError>
    requires { length resources.now ≤ most_resources }
{
    let mut lists = no_lists(alloc, resources.len())?;
    for number in 0..resources.len() {
        add_user(
            resources[number].drivers.as_slice(),
            number as u32,
            &mut lists,
        )?;
    }
    joined(alloc, &lists)
}

/// Returns `count` empty lists.
fn no_lists(alloc: Global, count: usize) -> Result<Vec<Vec<u32>>, AllocError> {
    let mut lists = Vec::new(alloc);
    for _ in 0..count {
        let list: Vec<u32> = Vec::new(alloc);
        lists.push(list)?;
    }
    Ok(lists)
}

/// Adds the resource `user` to the lists of its drivers.
fn add_user(drivers: &[u32], user: u32, lists: &mut [Vec<u32>]) -> Result<(), AllocError> {
    for driver in drivers {
        add(lists, *driver, user)?;
    }
    Ok(())
}

/// Adds `number` to the list at `place`.
fn add(lists: &mut [Vec<u32>], place: u32, number: u32) -> Result<(), AllocError> {
    if let Some(list) = lists.get_mut(place as usize) {
        list.push(number)?;
    }
    Ok(())
}

/// Returns the lists joined in one list.
fn joined(alloc: Global, lists: &[Vec<u32>]) -> Result<Rows, AllocError> {
    let mut rows = Rows::new(alloc);
    for list in lists {
        rows.push(list.as_slice())?;
    }
    Ok(rows)
}
