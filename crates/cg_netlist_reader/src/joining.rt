//! Whether each net is declared once, and each pin's net is declared.
ghost use Rattle.std.specs.Prelude.{◌≡◌, ◌++◌, ◌∷◌, [], None, Some, is_some, if◌then◌else◌, IfOk, IfErr, OnOk};
ghost use Rattle.std.specs.List.{flat_map};
ghost use Rattle.cg_reading.specs.Numbers.{found_in};
ghost use Rattle.cg_netlist.specs.Graph.{names};
ghost use Rattle.cg_netlist_reader.specs.Reading as spec;
ghost use Rattle.cg_netlist_reader.specs.Looked.{IsSet, IsAdded, unknown_by};
ghost use Rattle.cg_netlist_reader.specs.Wrong.{IsOfNet};

use crate::fault::VerilogFault;
use cg_model::Name;
use cg_netlist::{Cell, Net, Pin};
use cg_reading::{Numbers, add_first, number_in};
use std::alloc::{AllocError, Global};

/// Finds the first net that is declared again, or else the first pin whose net is not declared.
#[tactic(auto, using(crate::proofs::Looks::whole_fault))]
pub(crate) fn check_nets(alloc: Global, nets: &[Net], cells: &[Cell]) -> Result<(), VerilogFault>
    ensures ok { OnOk result (spec.unknown_net (record { nets = nets.now; cells = cells.now }) ≡ None) }
    ensures fault { IfErr result (λ e. IsOfNet e (spec.unknown_net (record { nets = nets.now; cells = cells.now }))) }
{
    let numbers = declared(alloc, nets)?;
    match check_cells(alloc, &numbers, cells) {
        Ok(()) => Ok(()),
        Err(fault) => Err(fault),
    }
}

/// Returns the names of `nets`, if each is declared once.
#[tactic(auto, using(crate::proofs::Looks::next_set, crate::proofs::Looks::next_rest))]
fn declared(alloc: Global, nets: &[Net]) -> Result<Numbers, VerilogFault>
    ensures once { OnOk result (spec.repeated spec.given (names nets.now) ≡ None) }
    ensures known { IfOk result (λ numbers. IsSet numbers (spec.given ++ names nets.now)) }
    ensures fault { IfErr result (λ e. IsOfNet e (spec.repeated spec.given (names nets.now))) }
{
    let mut numbers = given(alloc)?;
    for net in nets {
        declare(alloc, &mut numbers, net.name.as_str())?;
    }
    Ok(numbers)
}

/// Returns the names of the clock and the reset.
fn given(alloc: Global) -> Result<Numbers, AllocError>
    ensures { IfOk result (λ numbers. IsSet numbers spec.given) }
{
    let mut numbers = Numbers::new(alloc);
    add_first(alloc, &mut numbers, "clk", 0)?;
    add_first(alloc, &mut numbers, "rst", 1)?;
    Ok(numbers)
}

/// Adds `name`, unless it is declared already.
fn declare(alloc: Global, numbers: &mut Numbers, name: &str) -> Result<(), VerilogFault>
    ensures ok { OnOk result (IsAdded numbers.old numbers.new name.now) }
    ensures fault { IfErr result (λ e. IsOfNet e (if is_some (found_in numbers.old name.now) then Some name.now else None)) }
{
    if number_in(numbers, name).is_some() {
        return Err(fault_of(alloc, name));
    }
    add_first(alloc, numbers, name, 2)?;
    Ok(())
}

/// Returns the fault of the net called `name`.
fn fault_of(alloc: Global, name: &str) -> VerilogFault
    ensures { IsOfNet result (Some name.now) }
{
    match Name::copy_of(alloc, name) {
        Ok(name) => VerilogFault::UnknownNet(name),
        Err(_) => VerilogFault::Memory,
    }
}

/// Finds the first pin of cells whose net is not declared.
#[tactic(auto, using(crate::proofs::Looks::item_fault, crate::proofs::Looks::item_more))]
fn check_cells(alloc: Global, numbers: &Numbers, cells: &[Cell]) -> Result<(), VerilogFault>
    ensures ok { OnOk result (unknown_by numbers.now (flat_map spec.pin_nets cells.now) ≡ None) }
    ensures fault { IfErr result (λ e. IsOfNet e (unknown_by numbers.now (flat_map spec.pin_nets cells.now))) }
{
    for cell in cells {
        match check_pins(alloc, numbers, cell.pins.as_slice()) {
            Ok(()) => {}
            Err(fault) => return Err(fault),
        }
    }
    Ok(())
}

/// Finds the first of these pins whose net is not declared.
#[tactic(auto, using(crate::proofs::Looks::item_fault, crate::proofs::Looks::item_more))]
fn check_pins(alloc: Global, numbers: &Numbers, pins: &[Pin]) -> Result<(), VerilogFault>
    ensures ok { OnOk result (unknown_by numbers.now (flat_map spec.pin_net pins.now) ≡ None) }
    ensures fault { IfErr result (λ e. IsOfNet e (unknown_by numbers.now (flat_map spec.pin_net pins.now))) }
{
    for pin in pins {
        match check_net(alloc, numbers, pin.net.as_str()) {
            Ok(()) => {}
            Err(fault) => return Err(fault),
        }
    }
    Ok(())
}

/// Checks whether a net called `name` is declared.
fn check_net(alloc: Global, numbers: &Numbers, name: &str) -> Result<(), VerilogFault>
    ensures ok { OnOk result (unknown_by numbers.now (name.now ∷ []) ≡ None) }
    ensures fault { IfErr result (λ e. IsOfNet e (unknown_by numbers.now (name.now ∷ []))) }
{
    if number_in(numbers, name).is_some() {
        return Ok(());
    }
    Err(fault_of(alloc, name))
}
