//! The names of nets, and pins that are connected to them.
ghost use Rattle.std.specs.Prelude.{◌≡◌, ◌++◌, ◌∷◌, [], ◌<◌, ◌≤◌, length, slice_index, EachIndex, codes, IfOk, OnOk};
ghost use Rattle.cg_model.specs.Array as arrays;
ghost use Rattle.cg_netlist.specs.Forms as forms;
ghost use Rattle.cg_netlist.specs.Netlist as spec;
ghost use Rattle.cg_netlist.specs.Built.{IsDriven};

use crate::parts::Pin;
use cg_arch::Arch;
use cg_model::{Name, Resource};
use std::alloc::{AllocError, Global};

/// Returns `name` after `prefix`.
pub(crate) fn prefixed(alloc: Global, prefix: &str, name: &Name) -> Result<Name, AllocError>
    ensures { IfOk result (λ text. text ≡ prefix.now ++ name.now) }
{
    let own = name.as_str();
    Ok(Name::new(format!(in alloc; "{prefix}{own}")?))
}

/// Returns the name of the net of the word of `resource`.
fn word_net(alloc: Global, arch: &Arch, resource: u32) -> Result<Name, AllocError>
    requires { resource < length arch.now.resources }
    ensures { IfOk result (λ net. net ≡ spec.word_net (arrays.resource arch.now resource)) }
{
    let resources = arch.resources();
    prefixed(alloc, "n_", &resources[resource as usize].name)
}

/// Adds a pin.
fn push_pin(alloc: Global, pins: &mut Vec<Pin>, port: &str, net: Name) -> Result<(), AllocError>
    ensures { OnOk result (pins.new.items ≡ pins.old.items ++ spec.pin port.now net ∷ []) }
{
    let port = Name::copy_of(alloc, port)?;
    pins.push(Pin { port, net })?;
    Ok(())
}

/// Adds the pins of the clock and the reset.
pub(crate) fn push_clock_pins(alloc: Global, pins: &mut Vec<Pin>) -> Result<(), AllocError>
    ensures { OnOk result (pins.new.items ≡ pins.old.items ++ spec.clock_pins) }
{
    push_pin(alloc, pins, "clk", Name::copy_of(alloc, "clk")?)?;
    push_pin(alloc, pins, "rst", Name::copy_of(alloc, "rst")?)?;
    Ok(())
}

/// Adds the pin of a cell's output.
pub(crate) fn push_output_pin(
    alloc: Global,
    pins: &mut Vec<Pin>,
    net: Name,
) -> Result<(), AllocError>
    ensures { OnOk result (pins.new.items ≡ pins.old.items ++ spec.output_pins net) }
{
    push_pin(alloc, pins, "q", net)
}

/// Adds the pins for a resource's drivers.
fn push_driver_pins(
    alloc: Global,
    pins: &mut Vec<Pin>,
    arch: &Arch,
    drivers: &[u32],
) -> Result<(), AllocError>
    requires { EachIndex drivers.now (λ k. slice_index drivers.now k < length arch.now.resources) }
    ensures { OnOk result (pins.new.items ≡ pins.old.items ++ spec.driver_pins arch.now 1 drivers.now) }
{
    for (place, driver) in drivers.iter().enumerate() {
        let net = word_net(alloc, arch, *driver)?;
        push_driver_pin(alloc, pins, place + 1, net)?;
    }
    Ok(())
}

/// Adds the pin for the driver of that number.
fn push_driver_pin(
    alloc: Global,
    pins: &mut Vec<Pin>,
    number: usize,
    net: Name,
) -> Result<(), AllocError>
    ensures { OnOk result (pins.new.items ≡ pins.old.items ++ spec.pin (forms.driver_port number) net ∷ []) }
{
    let port = format!(in alloc; "d{number}")?;
    push_pin(alloc, pins, port.as_str(), net)
}

/// Adds the pins that choose a resource's word among those of its drivers.
pub(crate) fn push_choice_pins(
    alloc: Global,
    pins: &mut Vec<Pin>,
    arch: &Arch,
    resource: &Resource,
) -> Result<(), AllocError>
    requires { IsDriven arch.now resource.now }
    ensures { OnOk result (pins.new.items ≡ pins.old.items ++ spec.choice_pins arch.now resource.now) }
{
    push_pin(alloc, pins, "s", prefixed(alloc, "s_", &resource.name)?)?;
    push_driver_pins(alloc, pins, arch, resource.drivers.as_slice())?;
    push_output_pin(alloc, pins, prefixed(alloc, "n_", &resource.name)?)?;
    Ok(())
}

/// Adds the pins for a unit's ports.
pub(crate) fn push_argument_pins(
    alloc: Global,
    pins: &mut Vec<Pin>,
    arch: &Arch,
    ports: &[u32],
) -> Result<(), AllocError>
    requires few { length ports.now ≤ 3 }
    requires known { EachIndex ports.now (λ k. slice_index ports.now k < length arch.now.resources) }
    ensures { OnOk result (pins.new.items ≡ pins.old.items ++ spec.argument_pins arch.now 0 ports.now) }
{
    for (place, port) in ports.iter().enumerate() {
        let net = word_net(alloc, arch, *port)?;
        push_pin(alloc, pins, argument_port(place), net)?;
    }
    Ok(())
}

/// Returns the name of the port of argument number `place`.
fn argument_port(place: usize) -> &'static str
    requires { place < 3 }
    ensures { result.now ≡ forms.argument_port place }
{
    match place {
        0 => "a",
        1 => "b",
        _ => "c",
    }
}

/// Adds the pin for the word of a unit's out.
pub(crate) fn push_out_pin(
    alloc: Global,
    pins: &mut Vec<Pin>,
    arch: &Arch,
    out: u32,
) -> Result<(), AllocError>
    requires { out < length arch.now.resources }
    ensures { OnOk result (pins.new.items ≡ pins.old.items ++ spec.output_pins (spec.word_net (arrays.resource arch.now out))) }
{
    let net = word_net(alloc, arch, out)?;
    push_output_pin(alloc, pins, net)
}
