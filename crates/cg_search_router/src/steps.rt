//! The data from which a layer is filled.
use crate::buffers::UNREACHED;
use cg_search_costs::Wiring;

/// The data from which a layer is filled, forward in time.
#[derive(Clone, Copy)]
pub(crate) struct Ahead<'a> {
    /// The resources and their connections.
    pub wiring: &'a Wiring,
    /// The layer.
    pub layer: u32,
    /// The place where its entries begin.
    pub row: usize,
    /// The layer from which its resources are entered.
    pub from: u32,
    /// The place where the entries of layer `from` begin.
    pub from_row: usize,
    /// The number of layers after it.
    pub left: u32,
    /// The slot of its cycle.
    pub slot: u32,
    /// The interval, in cycles.
    pub interval: u32,
    /// The prices in that slot.
    pub prices: &'a [u32],
    /// The price from which on a way is of no use.
    pub worth: u32,
    /// The least numbers of registers on ways to the target; empty where all ways are searched.
    pub ways: &'a [u8],
}

/// The data from which a layer is filled, backward in time.
#[derive(Clone, Copy)]
pub(crate) struct Back<'a> {
    /// The resources and their connections.
    pub wiring: &'a Wiring,
    /// The layer, counted from the end.
    pub layer: u32,
    /// The place where its entries begin.
    pub row: usize,
    /// The place where the entries of the cycle after it begin; for layer 0, where its own entries begin.
    pub later_row: usize,
    /// The slot of its cycle.
    pub slot: u32,
    /// The interval, in cycles.
    pub interval: u32,
    /// The prices in that slot.
    pub prices: &'a [u32],
    /// The price from which on a way is of no use.
    pub worth: u32,
}

/// A resource in the slot of the layer that is filled.
#[derive(Clone, Copy)]
pub(crate) struct Spot {
    /// The resource.
    pub resource: u32,
    /// Its bits in that slot.
    pub mark: u128,
}

impl Spot {
    /// Returns `resource` in `slot`.
    #[inline]
    pub(crate) fn new(resource: u32, slot: u32) -> Spot {
        Spot {
            resource,
            mark: bit(resource, slot),
        }
    }
}

/// Returns where the entries of `layer` begin, where there are `width` resources.
#[inline]
pub(crate) fn row_of(layer: u32, width: u32) -> usize {
    layer as usize * width as usize
}

/// Returns the place of the entry of `resource` in a row.
#[inline]
pub(crate) fn place_in(row: usize, resource: u32) -> usize {
    row.wrapping_add(resource as usize)
}

/// Returns the two bits of `resource` in `slot`: other resources and slots may share one or both of them.
#[inline]
pub(crate) fn bit(resource: u32, slot: u32) -> u128 {
    let mixed = (resource ^ slot << 16).wrapping_mul(0x9E37_79B1);
    1u128 << (mixed >> 25) | 1u128 << (mixed >> 18 & 127)
}

/// Returns the price of a resource in a slot.
#[inline]
pub(crate) fn price_in(prices: &[u32], resource: u32) -> u32 {
    match prices.get(resource as usize) {
        Some(price) => *price,
        None => UNREACHED,
    }
}

/// Checks whether two different layers are a multiple of the interval apart.
#[inline]
pub(crate) fn is_turns_apart(layer: u32, earlier: u32, interval: u32) -> bool {
    layer != earlier && layer.wrapping_sub(earlier).checked_rem(interval) == Some(0)
}
