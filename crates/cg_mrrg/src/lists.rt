//! Lists of links, stored one after another.
ghost use Rattle.std.specs.Prelude.{◌≡◌, ℕ, suc, ◌<◌, ◌≤◌, ◌+◌, ◌∷◌, ◌++◌, List, [], IfOk, OnOk, length, slice_index, slice_range};
ghost use Rattle.cg_mrrg.specs.declared.links.Link as links;
ghost use Rattle.cg_mrrg.specs.Lists.{AreParts};

use crate::links::Link;
use std::alloc::{AllocError, Global};

/// Lists of links in one list, with the index at which each begins.
#[derive(Drop)]
pub(crate) struct LinkLists {
    pub links: Vec<Link>,
    pub starts: Vec<usize>,
}

impl LinkLists {
    /// Returns the empty collection of lists.
    pub(crate) fn new(alloc: Global) -> Result<LinkLists, AllocError>
        ensures { IfOk result (λ l. (part : ℕ → List links.Link) → AreParts part 0 l.links.items l.starts.items) }
    {
        let mut starts = Vec::new(alloc);
        starts.push(0usize)?;
        Ok(LinkLists {
            links: Vec::new(alloc),
            starts,
        })
    }

    /// Ends a list: it has the links added since the last end.
    pub(crate) fn end(&mut self) -> Result<(), AllocError>
        ensures links { self.new.links.items ≡ self.old.links.items }
        ensures starts { OnOk result (self.new.starts.items ≡ self.old.starts.items ++ length self.old.links.items ∷ []) }
    {
        self.starts.push(self.links.len())?;
        Ok(())
    }

    /// Returns list number `number`.
    pub(crate) fn get(&self, number: usize) -> &[Link]
        requires known { number + 1 < length self.now.starts.items }
        requires order { slice_index self.now.starts.items number ≤ slice_index self.now.starts.items (number + 1) }
        requires within { slice_index self.now.starts.items (number + 1) ≤ length self.now.links.items }
        ensures { result.now ≡ slice_range self.now.links.items (slice_index self.now.starts.items number) (slice_index self.now.starts.items (number + 1)) }
    {
        &self.links[self.starts[number]..self.starts[number + 1]]
    }
}
