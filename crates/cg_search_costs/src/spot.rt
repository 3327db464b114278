//! A resource in a slot: its claims, and the price of one more.
use std::alloc::{AllocError, Global};

/// The factor of the first price by which each claim raises the price.
const CLAIM_FACTOR: u32 = 3;

/// The amount by which each claim above one raises the price permanently, in each sweep.
const HISTORY_STEP: u32 = 3;

/// A claim: the value of a source on the resource at a time.
#[derive(Clone, Copy, Debug, PartialEq, Eq)]
struct Claim {
    source: u32,
    time: u32,
    /// The number of routes with this claim.
    uses: u32,
}

/// A resource in a slot.
#[derive(Drop)]
pub(crate) struct Spot {
    claims: Vec<Claim>,
    base: u32,
    history: u32,
}

impl Spot {
    /// Returns a spot with the first price `base` and without claims.
    pub(crate) fn new(alloc: Global, base: u32) -> Spot {
        Spot {
            claims: Vec::new(alloc),
            base,
            history: 0,
        }
    }

    /// Adds a use of a claim, and returns whether the claim is new.
    pub(crate) fn claim(&mut self, source: u32, time: u32) -> Result<bool, AllocError> {
        if add_use(&mut self.claims, source, time) {
            return Ok(false);
        }
        self.claims.push(Claim {
            source,
            time,
            uses: 1,
        })?;
        Ok(true)
    }

    /// Removes a use of a claim, and returns whether the number of claims decreases; does nothing where there is no
    /// such claim.
    pub(crate) fn release(&mut self, source: u32, time: u32) -> bool {
        match position(&self.claims, source, time) {
            Some(place) => self.release_at(place),
            None => false,
        }
    }

    /// Removes a use of the claim at `place`, and returns whether the number of claims decreases.
    fn release_at(&mut self, place: usize) -> bool {
        let is_last = drop_use(&mut self.claims, place) && place < self.claims.len();
        if is_last {
            self.claims.swap_remove(place);
        }
        is_last
    }

    /// Checks whether the value of `source` has a claim at `time`.
    #[inline]
    pub(crate) fn is_claimed(&self, source: u32, time: u32) -> bool {
        position(&self.claims, source, time).is_some()
    }

    /// Returns the number of claims.
    #[inline]
    pub(crate) fn count(&self) -> u32 {
        self.claims.len().min(u32::MAX as usize) as u32
    }

    /// Returns the number of claims above one.
    #[inline]
    pub(crate) fn excess(&self) -> u32 {
        self.count().saturating_sub(1)
    }

    /// Returns the price of one more claim.
    #[inline]
    pub(crate) fn price(&self) -> u32 {
        let base = self.base.saturating_add(self.history);
        let factor = self.count().saturating_mul(CLAIM_FACTOR).saturating_add(1);
        product(base, factor)
    }

    /// Adds to the history for each claim above one.
    pub(crate) fn age(&mut self) {
        let step = self.excess().saturating_mul(HISTORY_STEP);
        self.history = self.history.saturating_add(step);
    }

    /// Removes all claims, and the history.
    pub(crate) fn clear(&mut self) {
        self.claims.clear();
        self.history = 0;
    }
}

/// Returns the product of two numbers, or the greatest number where it overflows.
#[inline]
fn product(a: u32, b: u32) -> u32 {
    let product = u64::from(a) * u64::from(b);
    product.min(u64::from(u32::MAX)) as u32
}

/// Adds a use of a claim that exists already, and returns whether it does.
fn add_use(claims: &mut [Claim], source: u32, time: u32) -> bool {
    match position(claims, source, time) {
        Some(place) => {
            use_more(claims, place);
            true
        }
        None => false,
    }
}

/// Adds a use of the claim at a place.
fn use_more(claims: &mut [Claim], place: usize) {
    if let Some(claim) = claims.get_mut(place) {
        claim.uses = claim.uses.saturating_add(1);
    }
}

/// Removes a use of the claim at `place`, and returns whether none is left.
fn drop_use(claims: &mut [Claim], place: usize) -> bool {
    match claims.get_mut(place) {
        Some(claim) => {
            let left = claim.uses.saturating_sub(1);
            claim.uses = left;
            left == 0
        }
        None => false,
    }
}

/// Finds the position of a claim.
fn position(claims: &[Claim], source: u32, time: u32) -> Option<usize> {
    claims
        .iter()
        .position(|claim| claim.source == source && claim.time == time)
}
