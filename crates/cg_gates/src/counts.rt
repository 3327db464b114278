//! The number of cells that drive each net.
ghost use Rattle.std.specs.Prelude.{◌≡◌, ◌<◌, ◌+◌, ◌^◌, ℕ, List, IfOk, OnOk, bytes_eq, find, map, if◌then◌else◌};
ghost use Rattle.std.specs.Option.{option_map};
ghost use Rattle.cg_netlist.specs.declared.parts.Net.{Net};
ghost use Rattle.cg_gates.specs.Shape.{shape_of, shapes};
ghost use Rattle.cg_gates.specs.Accepts as spec;
ghost use Rattle.cg_gates.specs.Numbers.{AreCounts, counted, is_uncounted};

use crate::pins::driven_net;
use cg_model::Name;
use cg_netlist::{Cell, Net, NetGraph};
use cg_reading::{Numbers, number_in};
use std::alloc::{AllocError, Global};

/// Finds the first net of `netlist` that isn't driven by exactly one cell.
pub(crate) fn miscounted(alloc: Global, netlist: &NetGraph) -> Result<Option<Name>, AllocError>
    ensures { IfOk result (λ found. found ≡ spec.miscounted netlist.now) }
{
    let counts = driver_counts(alloc, netlist.cells())?;
    first_miscounted(alloc, &counts, netlist.nets())
}

/// Finds the first of `nets` whose count among `counts` isn't 1.
fn first_miscounted(
    alloc: Global,
    counts: &Numbers,
    nets: &[Net],
) -> Result<Option<Name>, AllocError>
    ensures { IfOk result (λ found. found ≡ option_map (λ (n : Net). n.name) (find (is_uncounted counts.now) nets.now)) }
{
    for net in nets {
        if count_in(counts, net.name.as_str()) != 1 {
            return Ok(Some(Name::copy_of(alloc, net.name.as_str())?));
        }
    }
    Ok(None)
}

/// Counts the `cells` that drive each net.
fn driver_counts(alloc: Global, cells: &[Cell]) -> Result<Numbers, AllocError>
    ensures { IfOk result (λ counts. AreCounts counts (map shape_of cells.now)) }
{
    let mut counts = Numbers::new(alloc);
    for cell in cells {
        add_one(alloc, &mut counts, driven_net(cell))?;
    }
    Ok(counts)
}

/// Adds 1 to the count of `name`.
fn add_one(alloc: Global, counts: &mut Numbers, name: &str) -> Result<(), AllocError>
    requires { counted counts.old name.now < 2 ^ 63 }
    ensures { OnOk result ((other : List ℕ) → counted counts.new other ≡ counted counts.old other + (if bytes_eq name.now other then 1 else 0)) }
{
    let count = count_in(counts, name);
    counts.insert(name.to_string(alloc)?, count + 1)?;
    Ok(())
}

/// Returns the count of `name`.
fn count_in(counts: &Numbers, name: &str) -> usize
    ensures { result ≡ counted counts.now name.now }
{
    number_in(counts, name).unwrap_or(0)
}
