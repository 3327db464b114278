//! The cells of resources and units.
ghost use Rattle.std.specs.Prelude.{◌≡◌, ◌≤◌, ◌++◌, codes, length, IfOk};
ghost use Rattle.cg_netlist.specs.Forms as forms;
ghost use Rattle.cg_netlist.specs.Netlist as spec;
ghost use Rattle.cg_netlist.specs.Built.{IsDriven, IsPlaced};

use crate::operations::bits_of;
use crate::parts::{Cell, Pin};
use crate::pins::{
    prefixed, push_argument_pins, push_choice_pins, push_clock_pins, push_out_pin, push_output_pin,
};
use cg_arch::Arch;
use cg_flat::select_bits;
use cg_model::{Items, Name, Resource, Unit};
use std::alloc::{AllocError, Global};

/// Returns the cell that drives the select of `resource` in each cycle.
pub(crate) fn context_cell(alloc: Global, resource: &Resource) -> Result<Cell, AllocError>
    requires { length resource.now.drivers ≤ 65536 }
    ensures { IfOk result (λ cell. cell ≡ spec.context_cell resource.now) }
{
    let width = select_bits(resource.drivers.as_slice());
    let module = Name::new(format!(in alloc; "cg_ctx_{width}")?);
    let name = prefixed(alloc, "c_", &resource.name)?;
    let pins = select_pins(alloc, resource)?;
    Ok(Cell { module, name, pins })
}

/// Returns the cell that drives the select of the register `resource` for the next slot in each cycle.
pub(crate) fn preselect_cell(alloc: Global, resource: &Resource) -> Result<Cell, AllocError>
    requires { length resource.now.drivers ≤ 65536 }
    ensures { IfOk result (λ cell. cell ≡ spec.preselect_cell resource.now) }
{
    let width = select_bits(resource.drivers.as_slice());
    let module = Name::new(format!(in alloc; "cg_pre_{width}")?);
    let name = prefixed(alloc, "p_", &resource.name)?;
    let pins = select_pins(alloc, resource)?;
    Ok(Cell { module, name, pins })
}

/// Returns the pins of a context or preselect cell of `resource`.
fn select_pins(alloc: Global, resource: &Resource) -> Result<Items<Pin>, AllocError>
    ensures { IfOk result (λ pins. pins ≡ spec.select_pins resource.now) }
{
    let mut pins = Vec::new(alloc);
    push_clock_pins(alloc, &mut pins)?;
    push_output_pin(alloc, &mut pins, prefixed(alloc, "s_", &resource.name)?)?;
    Ok(Items::new(pins))
}

/// Returns the cell that gives a wire or a port the word of its selected driver.
pub(crate) fn mux_cell(alloc: Global, arch: &Arch, resource: &Resource) -> Result<Cell, AllocError>
    requires { IsDriven arch.now resource.now }
    ensures { IfOk result (λ cell. cell ≡ spec.mux_cell arch.now resource.now) }
{
    let count = resource.drivers.as_slice().len();
    let module = Name::new(format!(in alloc; "cg_mux_{count}")?);
    let name = prefixed(alloc, "m_", &resource.name)?;
    let pins = mux_pins(alloc, arch, resource)?;
    Ok(Cell { module, name, pins })
}

fn mux_pins(alloc: Global, arch: &Arch, resource: &Resource) -> Result<Items<Pin>, AllocError>
    requires { IsDriven arch.now resource.now }
    ensures { IfOk result (λ pins. pins ≡ spec.choice_pins arch.now resource.now) }
{
    let mut pins = Vec::new(alloc);
    push_choice_pins(alloc, &mut pins, arch, resource)?;
    Ok(Items::new(pins))
}

/// Returns the cell that gives a register the word of its selected driver.
pub(crate) fn register_cell(
    alloc: Global,
    arch: &Arch,
    resource: &Resource,
) -> Result<Cell, AllocError>
    requires { IsDriven arch.now resource.now }
    ensures { IfOk result (λ cell. cell ≡ spec.register_cell arch.now resource.now) }
{
    let count = resource.drivers.as_slice().len();
    let module = Name::new(format!(in alloc; "cg_reg_{count}")?);
    let name = prefixed(alloc, "r_", &resource.name)?;
    let pins = register_pins(alloc, arch, resource)?;
    Ok(Cell { module, name, pins })
}

fn register_pins(alloc: Global, arch: &Arch, resource: &Resource) -> Result<Items<Pin>, AllocError>
    requires { IsDriven arch.now resource.now }
    ensures { IfOk result (λ pins. pins ≡ spec.clock_pins ++ spec.choice_pins arch.now resource.now) }
{
    let mut pins = Vec::new(alloc);
    push_clock_pins(alloc, &mut pins)?;
    push_choice_pins(alloc, &mut pins, arch, resource)?;
    Ok(Items::new(pins))
}

/// Returns the cell that gives a resource without drivers the word 0.
pub(crate) fn zero_cell(alloc: Global, resource: &Resource) -> Result<Cell, AllocError>
    ensures { IfOk result (λ cell. cell ≡ spec.zero_cell resource.now) }
{
    let module = Name::copy_of(alloc, "cg_zero")?;
    let name = prefixed(alloc, "z_", &resource.name)?;
    let pins = zero_pins(alloc, resource)?;
    Ok(Cell { module, name, pins })
}

fn zero_pins(alloc: Global, resource: &Resource) -> Result<Items<Pin>, AllocError>
    ensures { IfOk result (λ pins. pins ≡ spec.output_pins (codes "n_" ++ resource.now.name)) }
{
    let mut pins = Vec::new(alloc);
    push_output_pin(alloc, &mut pins, prefixed(alloc, "n_", &resource.name)?)?;
    Ok(Items::new(pins))
}

/// Returns the cell of `unit`.
pub(crate) fn unit_cell(alloc: Global, arch: &Arch, unit: &Unit) -> Result<Cell, AllocError>
    requires { IsPlaced arch.now unit.now }
    ensures { IfOk result (λ cell. cell ≡ spec.unit_cell arch.now unit.now) }
{
    let module = unit_module(alloc, unit)?;
    let name = prefixed(alloc, "u_", &unit.name)?;
    let pins = unit_pins(alloc, arch, unit)?;
    Ok(Cell { module, name, pins })
}

fn unit_pins(alloc: Global, arch: &Arch, unit: &Unit) -> Result<Items<Pin>, AllocError>
    requires { IsPlaced arch.now unit.now }
    ensures { IfOk result (λ pins. pins ≡ spec.unit_pins arch.now unit.now) }
{
    let mut pins = Vec::new(alloc);
    push_clock_pins(alloc, &mut pins)?;
    push_argument_pins(alloc, &mut pins, arch, unit.ports.as_slice())?;
    push_out_pin(alloc, &mut pins, arch, unit.out)?;
    Ok(Items::new(pins))
}

/// Returns the name of the module of `unit`.
fn unit_module(alloc: Global, unit: &Unit) -> Result<Name, AllocError>
    ensures { IfOk result (λ name. name ≡ forms.form_name (spec.unit_form unit.now)) }
{
    let ports = unit.ports.as_slice().len();
    let latency = unit.latency;
    let bits = bits_of(unit.ops);
    Ok(Name::new(format!(in alloc; "cg_unit_{ports}_{latency}_{bits:x}")?))
}
