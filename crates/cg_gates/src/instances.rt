//! Whether cells are named after the resources and units to which they belong, each by a different name.
ghost use Rattle.std.specs.Prelude.{◌≡◌, ◌≤◌, IfOk, length, Some, None, drop, if◌then◌else◌};
ghost use Rattle.std.specs.Option.{option_copied};
ghost use Rattle.cg_model.specs.First.{first_from};
ghost use Rattle.cg_netlist.specs.Forms.{begins};
ghost use Rattle.cg_gates.specs.Numbers.{AreCells, AreResources, AreUnits, is_repeated, is_unknown};
ghost use Rattle.cg_gates.specs.Shape.{form_said};
ghost use Rattle.cg_gates.specs.Accepts as spec;

use crate::numbers::{named, numbers_of};
use crate::pins::form_said;
use cg_arch::Arch;
use cg_flat::select_bits;
use cg_model::{Resource, Unit};
use cg_netlist::{Cell, Form, bits_of};
use cg_reading::{Numbers, is_before, number_in};
use std::alloc::{AllocError, Global};

/// Finds the first of `cells` that has the same name as an earlier one.
pub(crate) fn repeated_instance(alloc: Global, cells: &[Cell]) -> Result<Option<usize>, AllocError>
    ensures { IfOk result (λ found. found ≡ first_from (is_repeated cells.now) 0 cells.now) }
{
    let numbers = numbers_of(alloc, cells)?;
    Ok(first_repeated(&numbers, cells))
}

/// Finds the first of `cells` that has the same name as an earlier one. `numbers` has the number of the first cell of
/// each name.
fn first_repeated(numbers: &Numbers, cells: &[Cell]) -> Option<usize>
    requires { AreCells numbers.now cells.now }
    ensures { result ≡ first_from (is_repeated cells.now) 0 cells.now }
{
    for (number, cell) in cells.iter().enumerate() {
        if is_before(number_in(numbers, cell.name.as_str()), number) {
            return Some(number);
        }
    }
    None
}

/// Finds the first of `cells` that isn't named after a resource or a unit of `arch` to which it fits.
pub(crate) fn unknown_instance(
    alloc: Global,
    arch: &Arch,
    cells: &[Cell],
) -> Result<Option<usize>, AllocError>
    ensures { IfOk result (λ found. found ≡ first_from (is_unknown arch.now) 0 cells.now) }
{
    let resources = numbers_of(alloc, arch.resources())?;
    let units = numbers_of(alloc, arch.units())?;
    Ok(first_unknown(arch, &resources, &units, cells))
}

/// Finds the first of `cells` that isn't named after a resource or a unit of `arch` to which it fits. `resources` and
/// `units` map their names to their numbers.
fn first_unknown(arch: &Arch, resources: &Numbers, units: &Numbers, cells: &[Cell]) -> Option<usize>
    requires resources { AreResources resources.now arch.now.resources }
    requires units { AreUnits units.now arch.now.units }
    ensures { result ≡ first_from (is_unknown arch.now) 0 cells.now }
{
    for (number, cell) in cells.iter().enumerate() {
        if !is_known(arch, resources, units, cell) {
            return Some(number);
        }
    }
    None
}

/// Checks whether `cell` has a name that is allowed for its form. `resources` and `units` map the names of those of
/// `arch` to their numbers.
fn is_known(arch: &Arch, resources: &Numbers, units: &Numbers, cell: &Cell) -> bool
    requires resources { AreResources resources.now arch.now.resources }
    requires units { AreUnits units.now arch.now.units }
    ensures { result ≡ spec.is_known arch.now cell.now.name (form_said cell.now) }
{
    let name = cell.name.as_str();
    match form_said(cell) {
        Form::Context(width) => names_resource(arch, resources, "c_", width, name),
        Form::Preselect(width) => names_resource(arch, resources, "p_", width, name),
        Form::FunctionalUnit {
            ports,
            latency,
            operations,
        } => names_unit(arch, units, ports, latency, operations, name),
        Form::Mux(_) | Form::Register(_) | Form::Zero => true,
    }
}

/// Checks whether `name` is `front` followed by the name of a resource of `arch` with drivers, whose select has `width`
/// bits. `resources` maps the resources' names to their numbers.
fn names_resource(arch: &Arch, resources: &Numbers, front: &str, width: u32, name: &str) -> bool
    requires resources { AreResources resources.now arch.now.resources }
    requires two { length front.now ≡ 2 }
    ensures { result ≡ spec.names_resource arch.now front.now width name.now }
{
    match after_front(name, front) {
        Some(stem) => match named(resources, arch.resources(), stem) {
            Some(resource) => gives_select(width, resource),
            None => false,
        },
        None => false,
    }
}

/// Checks whether `resource` has drivers and a select of `width` bits.
fn gives_select(width: u32, resource: &Resource) -> bool
    requires { length resource.now.drivers ≤ 65536 }
    ensures { result ≡ spec.gives_select width resource.now }
{
    let drivers = resource.drivers.as_slice();
    !drivers.is_empty() && select_bits(drivers) == width
}

/// Checks whether `name` is `u_` followed by the name of a unit of `arch` with `ports` ports, the latency `latency` and
/// the set of operations `operations`. `units` maps the units' names to their numbers.
fn names_unit(
    arch: &Arch,
    units: &Numbers,
    ports: u32,
    latency: u32,
    operations: u32,
    name: &str,
) -> bool
    requires { AreUnits units.now arch.now.units }
    ensures { result ≡ spec.names_unit arch.now ports latency operations name.now }
{
    match after_front(name, "u_") {
        Some(stem) => match named(units, arch.units(), stem) {
            Some(unit) => is_unit_of(ports, latency, operations, unit),
            None => false,
        },
        None => false,
    }
}

/// Checks whether `unit` has `ports` ports, the latency `latency` in cycles, and the set of operations `operations`,
/// bit k for the operation of code k.
fn is_unit_of(ports: u32, latency: u32, operations: u32, unit: &Unit) -> bool
    ensures { result ≡ spec.is_unit_of ports latency operations unit.now }
{
    unit.ports.as_slice().len() == ports as usize
        && unit.latency == latency
        && bits_of(unit.ops) == operations
}

/// Returns the part of `text` after `front`, if it begins with `front`.
pub fn after_front<'a>(text: &'a str, front: &str) -> Option<&'a str>
    ensures { option_copied result ≡ (if begins front.now text.now then Some (drop (length front.now) text.now) else None) }
{
    text.strip_prefix(front)
}
