//! Least paths and claims on the graph of one unit, whose tables no command reports.
ghost use Rattle.std.specs.Prelude.{◌≡◌, ◌≤◌, OnOk, length};

use cg_arch::Arch;
use cg_congestion::laws::PlainUsage;
use cg_congestion::{ClaimUse, MNode, Mrrg, Usage};
use cg_route::least_path;
use std::alloc::{AllocError, Global};

/// Checks whether `found` is `path`.
fn is(found: Option<Vec<u32>>, path: &[u32]) -> bool {
    match found {
        Some(found) => found.as_slice() == path,
        None => false,
    }
}

/// Returns a claim of `source` at time 2, at the beginning of its path.
fn first(source: u32) -> ClaimUse {
    ClaimUse {
        source,
        time: 2,
        before: None,
        uses: 1,
    }
}

/// Checks the paths of a value alone. The register is resource 0, the ports are 1 and 2, and the unit's out is 3.
fn alone(alloc: Global, graph: &Mrrg, usage: &Usage) -> Result<bool, AllocError>
    requires arch { graph.now.arch ≡ usage.now.arch }
    requires interval { graph.now.interval ≡ usage.now.interval }
    requires four { length graph.now.arch.resources ≡ 4 }
{
    let later = least_path(alloc, graph, usage, 1, 2, 3, 1, 4)?;
    let at_once = least_path(alloc, graph, usage, 1, 2, 3, 1, 2)?;
    let before = least_path(alloc, graph, usage, 1, 2, 3, 1, 1)?;
    // The longest path is six intervals and 32 cycles: fifty cycles in the register.
    let mut long = vec![in alloc; 0; 52]?;
    long[0] = 3;
    long[51] = 1;
    let longest = least_path(alloc, graph, usage, 1, 2, 3, 1, 52)?;
    let too_long = least_path(alloc, graph, usage, 1, 2, 3, 1, 53)?;
    Ok(
        is(later, &[3, 0, 0, 1])
            && is(at_once, &[3, 1])
            && before.is_none()
            && is(longest, &long)
            && too_long.is_none(),
    )
}

/// Checks that the value is routed to the other port through the register in which it already is, so that only the last
/// link costs 1.
fn shared(alloc: Global, graph: &Mrrg, usage: &mut Usage) -> Result<bool, AllocError>
    requires arch { graph.now.arch ≡ usage.old.arch }
    requires interval { graph.now.interval ≡ usage.old.interval }
    requires three { usage.old.interval ≡ 3 }
    requires four { length usage.old.arch.resources ≡ 4 }
    requires none { length usage.old.positions ≡ 0 }
    ensures arch { OnOk result (usage.new.arch ≡ usage.old.arch) }
    ensures interval { OnOk result (usage.new.interval ≡ usage.old.interval) }
    ensures few { OnOk result (length usage.new.positions ≤ 4) }
{
    usage.add(1, 2, &[3, 0, 0, 1])?;
    let path = least_path(alloc, graph, usage, 1, 2, 3, 2, 4)?;
    let port = MNode {
        resource: 2,
        slot: 1,
    };
    Ok(
        is(path, &[3, 0, 0, 2])
            && usage.has_claim(1, 0, 3, 3)
            && usage.has_claim(1, 0, 4, 0)
            && !usage.has_claim(1, 2, 4, 0)
            && usage.toll(port) == 1
            && usage.excess() == 0,
    )
}

/// Checks the table where another value is on the unit's out, in the same slot.
fn crowded(usage: &mut Usage) -> Result<bool, AllocError>
    requires three { usage.old.interval ≡ 3 }
    requires four { length usage.old.arch.resources ≡ 4 }
    requires few { length usage.old.positions ≤ 4 }
{
    usage.add(0, 2, &[3, 2])?;
    let given = MNode {
        resource: 3,
        slot: 2,
    };
    let port = MNode {
        resource: 1,
        slot: 2,
    };
    let more = usage.excess() == 1
        && usage.claims_at(given) == [first(0), first(1)].as_slice()
        && usage.claims_at(port).is_empty();
    usage.remove(0, 2, &[3, 2]);
    Ok(more && usage.excess() == 0)
}

/// Checks the plain table in the case of `crowded`, where a third value in that slot would pay 8 for each of the two
/// others, and 1.
fn crowded_plainly(usage: &mut PlainUsage) -> Result<bool, AllocError>
    requires three { usage.old.interval ≡ 3 }
    requires four { length usage.old.arch.resources ≡ 4 }
    requires few { length usage.old.positions ≤ 4 }
{
    usage.add(0, 2, &[3, 2])?;
    let given = MNode {
        resource: 3,
        slot: 2,
    };
    let more = usage.excess() == 1 && usage.toll(given) == 17;
    usage.remove(0, 2, &[3, 2]);
    Ok(more && usage.excess() == 0)
}

/// Adds the claims of a value alone to the plain table, and checks that there is no excess.
fn alone_plainly(usage: &mut PlainUsage) -> Result<bool, AllocError>
    requires three { usage.old.interval ≡ 3 }
    requires four { length usage.old.arch.resources ≡ 4 }
    requires none { length usage.old.positions ≡ 0 }
    ensures arch { OnOk result (usage.new.arch ≡ usage.old.arch) }
    ensures interval { OnOk result (usage.new.interval ≡ usage.old.interval) }
    ensures few { OnOk result (length usage.new.positions ≤ 4) }
{
    usage.add(1, 2, &[3, 0, 0, 1])?;
    Ok(usage.excess() == 0)
}

/// Checks the plain table with a value alone, and with a second value.
fn claims_plainly(usage: &mut PlainUsage) -> Result<bool, AllocError>
    requires three { usage.old.interval ≡ 3 }
    requires four { length usage.old.arch.resources ≡ 4 }
    requires none { length usage.old.positions ≡ 0 }
{
    let alone = alone_plainly(usage)?;
    let crowded = crowded_plainly(usage)?;
    Ok(alone && crowded)
}

/// Checks whether the paths of one unit at interval 3 are those that the prices determine, and its table has their
/// claims.
pub(crate) fn paths_of_one_unit(alloc: Global, arch: &Arch) -> Result<bool, AllocError> {
    let graph = Mrrg::expand(alloc, arch, 3)?;
    if graph.resources() != 4 {
        return Ok(false);
    }
    let mut usage = Usage::new(alloc, &graph)?;
    let first = alone(alloc, &graph, &usage)?;
    let second = shared(alloc, &graph, &mut usage)?;
    let third = crowded(&mut usage)?;
    Ok(first && second && third)
}

/// Checks whether the plain table of one unit at interval 3 has the claims of these paths.
pub(crate) fn plain_claims_of_one_unit(alloc: Global, arch: &Arch) -> Result<bool, AllocError> {
    let graph = Mrrg::expand(alloc, arch, 3)?;
    if graph.resources() != 4 {
        return Ok(false);
    }
    let mut usage = PlainUsage::new(alloc, &graph)?;
    claims_plainly(&mut usage)
}
