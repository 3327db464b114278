//! The first cells that drive nets, and the first cells of units by name.
ghost use Rattle.std.specs.Prelude.{◌≡◌, ℕ, List, Some, None, IfOk, OnOk, map, if◌then◌else◌};
ghost use Rattle.std.specs.Option.{option_or};
ghost use Rattle.cg_reading.specs.Numbers.{found_in};
ghost use Rattle.cg_gates.specs.Shape.{is_unit, shape_of};
ghost use Rattle.cg_gates.specs.Gates.{is_instance, unit_instance};
ghost use Rattle.cg_gates.specs.Numbers.{AreFirst, by_net};

use crate::pins::{driven_net, form_said};
use cg_model::Unit;
use cg_netlist::{Cell, Form};
use cg_reading::{Numbers, add_first, number_in};
use std::alloc::{AllocError, Global};

/// Returns the number of the first of `cells` that drives each net.
pub fn drivers_of(alloc: Global, cells: &[Cell]) -> Result<Numbers, AllocError>
    ensures { IfOk result (λ numbers. AreFirst numbers by_net (map shape_of cells.now)) }
{
    let mut numbers = Numbers::new(alloc);
    for (number, cell) in cells.iter().enumerate() {
        add_first(alloc, &mut numbers, driven_net(cell), number)?;
    }
    Ok(numbers)
}

/// Returns the number of the first unit's cell of each name among `cells`.
pub fn unit_cells(alloc: Global, cells: &[Cell]) -> Result<Numbers, AllocError>
    ensures { IfOk result (λ numbers. AreFirst numbers is_instance (map shape_of cells.now)) }
{
    let mut numbers = Numbers::new(alloc);
    for (number, cell) in cells.iter().enumerate() {
        add_unit(alloc, &mut numbers, cell, number)?;
    }
    Ok(numbers)
}

/// Adds the `number` of `cell` to `numbers` under its name, where it is a unit's cell and the name has no number yet.
#[tactic(auto, unfolding(crate::specs::Shape::shape_of))]
fn add_unit(
    alloc: Global,
    numbers: &mut Numbers,
    cell: &Cell,
    number: usize,
) -> Result<(), AllocError>
    ensures { OnOk result ((name : List ℕ) → found_in numbers.new name
        ≡ option_or (found_in numbers.old name) (if is_instance name (shape_of cell.now) then Some number else None)) }
{
    if is_unit(form_said(cell)) {
        add_first(alloc, numbers, cell.name.as_str(), number)?;
    }
    Ok(())
}

/// Checks whether `form` is that of units.
fn is_unit(form: Form) -> bool
    ensures { result ≡ is_unit form }
{
    matches!(form, Form::FunctionalUnit { .. })
}

/// Finds the number of the cell of `unit` in `cells`, which maps the names of units' cells to their numbers.
pub fn cell_of_unit(
    alloc: Global,
    cells: &Numbers,
    unit: &Unit,
) -> Result<Option<usize>, AllocError>
    ensures { IfOk result (λ found. found ≡ found_in cells.now (unit_instance unit.now.name)) }
{
    let unit = unit.name.as_str();
    let name = format!(in alloc; "u_{unit}")?;
    Ok(number_in(cells, name.as_str()))
}
