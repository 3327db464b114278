//! The search backward along links for the least number of registers on a way between resources.
ghost use Rattle.std.specs.Prelude.{◌≡◌, ℕ, ◌+◌, ◌<◌, ◌≤◌, List, IfOk, OnOk, IfSome, IfNone, length};
ghost use Rattle.cg_model.specs.Array as arrays;
ghost use Rattle.cg_bound_routes.specs.Search.{AreBelow, IsNext, AreMarks, IsBegun, IsSkipped, IsRisen, IsSearch, IsOpen, IsOver, IsSettled, Joins, IsFound};

use cg_arch::{Arch, Kind};
use std::alloc::{AllocError, Global};
use std::mem::swap;

/// The state of the search: the resources whose least number of registers on a way to its ends is known, and those that
/// wait for a number.
#[derive(Drop)]
struct Search {
    /// The number of each resource; `None` if it isn't known yet.
    numbers: Vec<Option<u32>>,
    /// The number for which the resources at the front wait.
    level: u32,
    /// The resources at the front.
    front: Vec<u32>,
    /// The index in the front from which on resources may lack a number.
    at: usize,
    /// The resources that wait for the next number.
    later: Vec<u32>,
}

/// Marks the resources of `list` among `count` resources.
fn marks(alloc: Global, count: usize, list: &[u32]) -> Result<Vec<bool>, AllocError>
    requires { AreBelow count list.now }
    ensures { IfOk result (λ marks. AreMarks list.now (length list.now) count marks.items) }
{
    let mut marks = vec![in alloc; false; count]?;
    for place in 0..list.len() {
        marks[list[place] as usize] = true;
    }
    Ok(marks)
}

/// Finds the first index from `at` on of a resource without a number, or the end of the front.
fn next_lacking(front: &[u32], at: usize, numbers: &[Option<u32>]) -> usize
    requires at { at ≤ length front.now }
    requires known { AreBelow (length numbers.now) front.now }
    ensures { IsNext numbers.now front.now at result }
{
    let mut place = at;
    while place < front.len() && numbers[front[place] as usize].is_some() {
        place += 1;
    }
    place
}

impl Search {
    /// Begins the search at `ends`, among `count` resources.
    fn new(alloc: Global, count: usize, ends: &[u32]) -> Result<Search, AllocError>
        ensures { IfOk result (IsBegun ends.now count) }
    {
        let numbers = vec![in alloc; None; count]?;
        let front = ends.to_vec(alloc)?;
        Ok(Search {
            numbers,
            level: 0,
            front,
            at: 0,
            later: Vec::new(alloc),
        })
    }

    /// Advances to the first resource at the front without a number.
    fn skip(&mut self)
        requires at { self.old.at ≤ length self.old.front.items }
        requires known { AreBelow (length self.old.numbers.items) self.old.front.items }
        ensures { IsSkipped self.old self.new }
    {
        self.at = next_lacking(&self.front, self.at, &self.numbers);
    }

    /// Advances to the next number.
    fn rise(&mut self)
        requires { self.old.level < 4294967295 }
        ensures { IsRisen self.old self.new }
    {
        swap(&mut self.front, &mut self.later);
        self.later.clear();
        self.at = 0;
        self.level += 1;
    }

    /// Advances to a resource with the least number among those that wait and have none, and returns it.
    fn take(&mut self) -> Option<u32>
        requires at { self.old.at ≤ length self.old.front.items }
        requires front { AreBelow (length self.old.numbers.items) self.old.front.items }
        requires later { AreBelow (length self.old.numbers.items) self.old.later.items }
        requires level { self.old.level < 4294967295 }
        ensures numbers { self.new.numbers.items ≡ self.old.numbers.items }
        ensures level { self.new.level ≤ self.old.level + 1 }
        ensures kept { (A : arrays.Arch) (ends : List ℕ) → IsSearch A ends self.old → IsSearch A ends self.new }
        ensures some { IfSome result (λ r. IsOpen r self.new) }
        ensures none { IfNone result (IsOver self.new) }
    {
        self.skip();
        if self.at == self.front.len() {
            self.rise();
            self.skip();
        }
        if self.at < self.front.len() {
            Some(self.front[self.at])
        } else {
            None
        }
    }

    /// Gives `resource` the number of the front, and adds its drivers to those that wait.
    fn settle(&mut self, arch: &Arch, resource: u32) -> Result<(), AllocError>
        requires known { resource < length arch.now.resources }
        requires each { length self.old.numbers.items ≡ length arch.now.resources }
        ensures { OnOk result (IsSettled arch.now resource self.old self.new) }
    {
        let here = &arch.resources()[resource as usize];
        let drivers = here.drivers.as_slice();
        if here.kind == Kind::Register {
            self.later.extend_from_slice(drivers)?;
        } else {
            self.front.extend_from_slice(drivers)?;
        }
        self.numbers[resource as usize] = Some(self.level);
        Ok(())
    }
}

/// Finds the least number of registers on a way from one of the resources `from` to one of `ends`; `None` if there is
/// no way.
pub(crate) fn least(
    alloc: Global,
    arch: &Arch,
    from: &[u32],
    ends: &[u32],
) -> Result<Option<u32>, AllocError>
    requires from { AreBelow (length arch.now.resources) from.now }
    requires ends { AreBelow (length arch.now.resources) ends.now }
    ensures { IfOk result (IsFound arch.now (Joins arch.now from.now ends.now)) }
{
    let count = arch.resources().len();
    let marks = marks(alloc, count, from)?;
    let mut search = Search::new(alloc, count, ends)?;
    while let Some(resource) = search.take() {
        if marks[resource as usize] {
            return Ok(Some(search.level));
        }
        search.settle(arch, resource)?;
    }
    Ok(None)
}
