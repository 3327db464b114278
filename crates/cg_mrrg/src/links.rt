//! Nodes and links of the graph.
ghost use Rattle.std.specs.Prelude.{◌≡◌, ◌<◌, ◌≤◌, ◌+◌, ◌-◌, ◌%◌};
ghost use Rattle.cg_mrrg.specs.Graph as spec;

/// A resource in a slot of the interval.
#[derive(Clone, Copy, Debug, PartialEq, Eq, Drop)]
pub struct MNode {
    /// The resource's number.
    pub resource: u32,
    /// The slot, from 0 and below the interval.
    pub slot: u32,
}

/// A link, from one of its ends.
#[derive(Clone, Copy, Debug, PartialEq, Eq, Drop)]
pub struct Link {
    /// The node at its other end.
    pub node: MNode,
    /// The delay of the link, in cycles: 1 into a register, else 0.
    pub delay: u32,
}

/// Returns the link by which the word of `driver` comes to a resource in `slot`, after `delay` cycles.
pub(crate) fn link_from(driver: u32, delay: u32, slot: u32, interval: u32) -> Link
    requires few { interval ≤ 64 }
    requires slot { slot < interval }
    requires delay { delay ≤ 1 }
    ensures { result ≡ spec.link_from delay slot interval driver }
{
    Link {
        node: MNode {
            resource: driver,
            slot: (slot + interval - delay) % interval,
        },
        delay,
    }
}

/// Returns the link by which a word goes in `delay` cycles from `slot` to the resource `user`, which takes it.
pub(crate) fn link_to(user: u32, delay: u32, slot: u32, interval: u32) -> Link
    requires few { interval ≤ 64 }
    requires slot { slot < interval }
    requires delay { delay ≤ 1 }
    ensures { result ≡ record { node = record { resource = user; slot = (slot + delay) % interval }; delay = delay } }
{
    Link {
        node: MNode {
            resource: user,
            slot: (slot + delay) % interval,
        },
        delay,
    }
}
