//! The nets that units read and write, by their numbers.
ghost use Rattle.std.specs.Prelude.{◌≡◌, ◌∷◌, [], true, IfOk, map, slice_get};
ghost use Rattle.cg_netlist.specs.declared.parts.Pin.{Pin};
ghost use Rattle.cg_netlist.specs.Graph.{IsNetGraph};
ghost use Rattle.cg_gates.specs.Accepts.{has_cell, IsAccepted};
ghost use Rattle.cg_gates.specs.Gates.{is_instance};
ghost use Rattle.cg_gates_run.specs.Kept as spec;
ghost use Rattle.cg_gates_run.specs.Kept.{IsUnitCell};
ghost use Rattle.cg_gates.specs.Numbers.{AreFirst};
ghost use Rattle.cg_gates.specs.Shape.{shape_of, shapes};
ghost use Rattle.cg_gates.specs.Tables.{AreTerminals};

use crate::nets::Nets;
use cg_arch::Arch;
use cg_datapath::Terminals;
use cg_gates::{cell_of_unit, driven_net, ins_of, unit_cells};
use cg_model::Unit;
use cg_netlist::{Cell, Pin};
use cg_reading::Numbers;
use std::alloc::{AllocError, Global};

/// Returns the nets of the cell in `nets` of each unit of `arch`.
pub(crate) fn terminals_of(
    alloc: Global,
    arch: &Arch,
    nets: &Nets<'_>,
) -> Result<Vec<Terminals>, AllocError>
    requires { IsAccepted arch.now nets.now }
    ensures { IfOk result (λ list. AreTerminals arch.now nets.now list.items) }
{
    let cells = unit_cells(alloc, nets.netlist().cells())?;
    terminals_by(alloc, arch, nets, &cells)
}

/// Returns the nets of the cell in `nets` of each unit of `arch`. `cells` maps the names of units' cells to their
/// numbers.
fn terminals_by(
    alloc: Global,
    arch: &Arch,
    nets: &Nets<'_>,
    cells: &Numbers,
) -> Result<Vec<Terminals>, AllocError>
    requires graph { IsNetGraph nets.now }
    requires accepted { IsAccepted arch.now nets.now }
    requires cells { AreFirst cells.now is_instance (shapes nets.now) }
    ensures { IfOk result (λ list. AreTerminals arch.now nets.now list.items) }
{
    let mut list = Vec::new(alloc);
    for unit in arch.units() {
        list.push(unit_terminals(alloc, nets, cells, unit)?)?;
    }
    Ok(list)
}

/// Returns the nets of the cell of `unit` in `nets`. `cells` maps the names of units' cells to their numbers.
fn unit_terminals(
    alloc: Global,
    nets: &Nets<'_>,
    cells: &Numbers,
    unit: &Unit,
) -> Result<Terminals, AllocError>
    requires cells { AreFirst cells.now is_instance (shapes nets.now) }
    requires there { has_cell nets.now unit.now ≡ true }
    ensures { IfOk result (IsUnitCell nets.now unit.now) }
{
    match cell_of_unit(alloc, cells, unit)? {
        Some(number) => {
            let all = nets.netlist().cells();
            prove!(number < all.len());
            Ok(cell_terminals(nets, &all[number], unit.latency))
        }
        None => unreachable!(),
    }
}

/// Returns the nets of `cell` in `nets` as those of a unit of that `latency`.
fn cell_terminals(nets: &Nets<'_>, cell: &Cell, latency: u32) -> Terminals
    ensures { result ≡ spec.terminals_of nets.now (shape_of cell.now) latency }
{
    let ins = ins_of(cell);
    Terminals {
        ports: [
            pin_number(nets, ins, 0),
            pin_number(nets, ins, 1),
            pin_number(nets, ins, 2),
        ],
        out: nets.number(driven_net(cell)),
        latency,
    }
}

/// Returns the number of the net on the pin at `place` among `pins`, or the number of nets where there is no such pin.
fn pin_number(nets: &Nets<'_>, pins: &[Pin], place: usize) -> u32
    ensures { result ≡ spec.pin_number nets.now (slice_get (map (λ (p : Pin). p.net) pins.now) place) }
{
    if place < pins.len() {
        nets.number(pins[place].net.as_str())
    } else {
        nets.count()
    }
}
