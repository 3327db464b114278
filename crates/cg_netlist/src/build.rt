//! The netlist of an architecture.
ghost use Rattle.std.specs.Prelude.{◌≡◌, ◌++◌, ◌≤◌, length, map, flat_map, All, IfOk, OnOk};
ghost use Rattle.cg_model.specs.Array.{IsArch};
ghost use Rattle.cg_netlist.specs.Netlist as spec;
ghost use Rattle.cg_netlist.specs.Built.{IsDriven, IsPlaced};
ghost use Rattle.cg_netlist.specs.Graph.{IsNetGraph, HasDistinctNames};

use crate::cells::{context_cell, mux_cell, preselect_cell, register_cell, unit_cell, zero_cell};
use crate::graph::NetGraph;
use crate::parts::{Cell, Net};
use crate::pins::prefixed;
use cg_arch::Arch;
use cg_flat::select_bits;
use cg_model::{Kind, Resource};
use std::alloc::{AllocError, Global};

/// Returns the netlist of `arch`. No two of its nets and cells have the same name.
pub fn netlist(alloc: Global, arch: &Arch) -> Result<NetGraph, AllocError>
    ensures graph { IfOk result (λ graph. graph ≡ spec.netlist_of arch.now) }
    ensures valid { OnOk result (IsNetGraph (spec.netlist_of arch.now)) }
    ensures names { IfOk result HasDistinctNames }
{
    let nets = nets_of(alloc, arch)?;
    let mut cells = Vec::new(alloc);
    push_cells_of_resources(alloc, &mut cells, arch)?;
    push_cells_of_units(alloc, &mut cells, arch)?;
    Ok(NetGraph::new(nets, cells))
}

/// Returns the nets of all resources.
fn nets_of(alloc: Global, arch: &Arch) -> Result<Vec<Net>, AllocError>
    ensures nets { IfOk result (λ nets. nets.items ≡ flat_map spec.nets_of arch.now.resources) }
    ensures valid { IsArch arch.now }
{
    let mut nets = Vec::new(alloc);
    let resources = arch.resources();
    for resource in resources {
        push_nets(alloc, &mut nets, resource)?;
    }
    Ok(nets)
}

/// Adds the nets of a resource.
fn push_nets(alloc: Global, nets: &mut Vec<Net>, resource: &Resource) -> Result<(), AllocError>
    requires { length resource.now.drivers ≤ 65536 }
    ensures { OnOk result (nets.new.items ≡ nets.old.items ++ spec.nets_of resource.now) }
{
    let name = prefixed(alloc, "n_", &resource.name)?;
    nets.push(Net { name, width: 32 })?;
    let drivers = resource.drivers.as_slice();
    if drivers.len() == 0 {
        return Ok(());
    }
    let name = prefixed(alloc, "s_", &resource.name)?;
    let width = select_bits(drivers);
    nets.push(Net { name, width })?;
    Ok(())
}

/// Adds the cells of all resources.
fn push_cells_of_resources(
    alloc: Global,
    cells: &mut Vec<Cell>,
    arch: &Arch,
) -> Result<(), AllocError>
    ensures { OnOk result (cells.new.items ≡ cells.old.items ++ flat_map (spec.resource_cells arch.now) arch.now.resources) }
{
    let resources = arch.resources();
    for resource in resources {
        push_resource_cells(alloc, cells, arch, resource)?;
    }
    Ok(())
}

/// Adds the cells of a resource.
fn push_resource_cells(
    alloc: Global,
    cells: &mut Vec<Cell>,
    arch: &Arch,
    resource: &Resource,
) -> Result<(), AllocError>
    requires { IsDriven arch.now resource.now }
    ensures { OnOk result (cells.new.items ≡ cells.old.items ++ spec.resource_cells arch.now resource.now) }
{
    match resource.kind {
        Kind::Wire | Kind::Port => push_wire_cells(alloc, cells, arch, resource),
        Kind::Register => push_register_cells(alloc, cells, arch, resource),
        Kind::Out => Ok(()),
    }
}

/// Adds the cells of a wire or a port.
fn push_wire_cells(
    alloc: Global,
    cells: &mut Vec<Cell>,
    arch: &Arch,
    resource: &Resource,
) -> Result<(), AllocError>
    requires { IsDriven arch.now resource.now }
    ensures { OnOk result (cells.new.items ≡ cells.old.items ++ spec.wire_cells arch.now resource.now) }
{
    if resource.drivers.as_slice().len() == 0 {
        cells.push(zero_cell(alloc, resource)?)?;
        return Ok(());
    }
    cells.push(context_cell(alloc, resource)?)?;
    cells.push(mux_cell(alloc, arch, resource)?)?;
    Ok(())
}

/// Adds the cells of a register.
fn push_register_cells(
    alloc: Global,
    cells: &mut Vec<Cell>,
    arch: &Arch,
    resource: &Resource,
) -> Result<(), AllocError>
    requires { IsDriven arch.now resource.now }
    ensures { OnOk result (cells.new.items ≡ cells.old.items ++ spec.register_cells arch.now resource.now) }
{
    if resource.drivers.as_slice().len() == 0 {
        cells.push(zero_cell(alloc, resource)?)?;
        return Ok(());
    }
    cells.push(preselect_cell(alloc, resource)?)?;
    cells.push(register_cell(alloc, arch, resource)?)?;
    Ok(())
}

/// Adds the cells of all units.
fn push_cells_of_units(alloc: Global, cells: &mut Vec<Cell>, arch: &Arch) -> Result<(), AllocError>
    ensures { OnOk result (cells.new.items ≡ cells.old.items ++ map (spec.unit_cell arch.now) arch.now.units) }
{
    let units = arch.units();
    for unit in units {
        cells.push(unit_cell(alloc, arch, unit)?)?;
    }
    Ok(())
}
