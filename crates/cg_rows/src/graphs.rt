//! The modulo routing resource graph of one unit, whose links no command reports.

use cg_arch::Arch;
use cg_mrrg::{Link, MNode, Mrrg};
use std::alloc::{AllocError, Global};

/// Returns a link of `delay` cycles, whose other end is the node of `resource` and `slot`.
fn link(resource: u32, slot: u32, delay: u32) -> Link {
    let node = MNode { resource, slot };
    Link { node, delay }
}

/// Checks whether the links of one unit at interval 3 are those that its drivers determine. The register is resource 0,
/// the ports are 1 and 2, and the unit's out is 3.
pub(crate) fn links_of_one_unit(alloc: Global, arch: &Arch) -> Result<bool, AllocError> {
    let graph = Mrrg::expand(alloc, arch, 3)?;
    if graph.resources() != 4 {
        return Ok(false);
    }
    let register = MNode {
        resource: 0,
        slot: 1,
    };
    let port = MNode {
        resource: 1,
        slot: 1,
    };
    let given = MNode {
        resource: 3,
        slot: 0,
    };
    let given_last = MNode {
        resource: 3,
        slot: 2,
    };
    let into = graph.links_into(register);
    let out = graph.links_out_of(given_last);
    // Both slices are borrowed at once.
    Ok(
        into == [link(3, 0, 1), link(0, 0, 1)].as_slice()
            && out == [link(0, 0, 1), link(1, 2, 0), link(2, 2, 0)].as_slice()
            && graph.links_into(port) == [link(3, 1, 0), link(0, 1, 0)].as_slice()
            && graph.links_into(given).is_empty(),
    )
}
