//! Whether each unit has a cell.
ghost use Rattle.std.specs.Prelude.{◌≡◌, IfOk, find};
ghost use Rattle.std.specs.Option.{option_map};
ghost use Rattle.cg_model.specs.declared.array.Unit.{Unit};
ghost use Rattle.cg_gates.specs.Accepts as spec;
ghost use Rattle.cg_gates.specs.Numbers.{has_no_number};

use crate::firsts::{cell_of_unit, unit_cells};
use cg_arch::Arch;
use cg_model::{Name, Unit};
use cg_netlist::NetGraph;
use cg_reading::Numbers;
use std::alloc::{AllocError, Global};

/// Finds the first unit of `arch` that has no cell in `netlist`.
pub(crate) fn missing_unit(
    alloc: Global,
    arch: &Arch,
    netlist: &NetGraph,
) -> Result<Option<Name>, AllocError>
    ensures { IfOk result (λ found. found ≡ spec.missing_unit arch.now netlist.now) }
{
    let cells = unit_cells(alloc, netlist.cells())?;
    first_missing(alloc, arch.units(), &cells)
}

/// Finds the first of `units` that has no number in `cells`, which maps the names of units' cells to their numbers.
fn first_missing(alloc: Global, units: &[Unit], cells: &Numbers) -> Result<Option<Name>, AllocError>
    ensures { IfOk result (λ found. found ≡ option_map (λ (u : Unit). u.name) (find (has_no_number cells.now) units.now)) }
{
    for unit in units {
        if cell_of_unit(alloc, cells, unit)?.is_none() {
            return Ok(Some(Name::copy_of(alloc, unit.name.as_str())?));
        }
    }
    Ok(None)
}
