//! Muxes and registers, by the numbers of their nets.
ghost use Rattle.std.specs.Prelude.{◌≡◌, ◌<◌, ◌≤◌, ◌++◌, [], None, Contains, IfOk, OnOk, length, map, slice_index_or};
ghost use Rattle.cg_netlist.specs.declared.parts.Pin.{Pin};
ghost use Rattle.cg_netlist.specs.Graph.{IsNetGraph};
ghost use Rattle.cg_levelize.specs.Topological.{IsTopological};
ghost use Rattle.cg_gates.specs.Accepts.{fault_before_loops, net_name};
ghost use Rattle.cg_gates.specs.Gates.{driving};
ghost use Rattle.cg_gates_run.specs.Kept as spec;
ghost use Rattle.cg_gates_run.specs.Kept.{IsPushed, PushesIf, PushesMux};
ghost use Rattle.cg_gates.specs.Order.{mux_graph, net_number};
ghost use Rattle.cg_gates.specs.Shape.{form_said, is_mux, is_register, shape_of, shapes};
ghost use Rattle.cg_gates.specs.Tables.{AreChoices, AreRising};

use crate::nets::Nets;
use cg_gates::{Choice, Choices, after_first, driven_net, form_said, ins_of};
use cg_netlist::{Cell, Form, Pin};
use std::alloc::{AllocError, Global};

/// Registers and muxes.
#[derive(Drop)]
pub(crate) struct Chosen {
    /// The registers.
    pub(crate) registers: Choices,
    /// The muxes, each after the muxes that it hears.
    pub(crate) muxes: Choices,
}

/// Returns the registers and the muxes of `nets`, by an `order` of these.
pub(crate) fn all_choices(
    alloc: Global,
    nets: &Nets<'_>,
    order: &[u32],
) -> Result<Chosen, AllocError>
    requires graph { IsNetGraph nets.now }
    requires early { fault_before_loops nets.now ≡ None }
    requires order { IsTopological (mux_graph nets.now) order.now }
    ensures registers { IfOk result (λ chosen. AreChoices nets.now is_register chosen.registers) }
    ensures muxes { IfOk result (λ chosen. AreChoices nets.now is_mux chosen.muxes) }
    ensures rising { IfOk result (λ chosen. AreRising chosen.muxes) }
{
    let registers = registers_of(alloc, nets)?;
    let muxes = muxes_of(alloc, nets, order)?;
    Ok(Chosen { registers, muxes })
}

/// Returns the registers of `nets`.
fn registers_of(alloc: Global, nets: &Nets<'_>) -> Result<Choices, AllocError>
    requires { fault_before_loops nets.now ≡ None }
    ensures { IfOk result (AreChoices nets.now is_register) }
{
    let mut choices = Choices {
        entries: Vec::new(alloc),
        heard: Vec::new(alloc),
    };
    for cell in nets.netlist().cells() {
        if is_register(form_said(cell)) {
            push_choice(nets, &mut choices, cell)?;
        }
    }
    Ok(choices)
}

/// Returns the muxes of `nets`, each after the muxes that it hears, by an `order` of the nets.
fn muxes_of(alloc: Global, nets: &Nets<'_>, order: &[u32]) -> Result<Choices, AllocError>
    requires graph { IsNetGraph nets.now }
    requires early { fault_before_loops nets.now ≡ None }
    requires order { IsTopological (mux_graph nets.now) order.now }
    ensures all { IfOk result (AreChoices nets.now is_mux) }
    ensures rising { IfOk result AreRising }
{
    let mut choices = Choices {
        entries: Vec::new(alloc),
        heard: Vec::new(alloc),
    };
    for number in order {
        push_mux(nets, &mut choices, *number)?;
    }
    Ok(choices)
}

/// Adds the driver of net `number` of `nets` to `choices`, where it is a mux.
fn push_mux(nets: &Nets<'_>, choices: &mut Choices, number: u32) -> Result<(), AllocError>
    requires graph { IsNetGraph nets.now }
    requires early { fault_before_loops nets.now ≡ None }
    ensures { OnOk result (PushesMux nets.now (driving (net_name nets.now number) (shapes nets.now)) choices.old choices.new) }
{
    match nets.driving(nets.name(number)) {
        Some(cell) => push_if_mux(nets, choices, cell),
        None => Ok(()),
    }
}

/// Adds `cell` of `nets` to `choices`, where it is a mux.
fn push_if_mux(nets: &Nets<'_>, choices: &mut Choices, cell: &Cell) -> Result<(), AllocError>
    requires graph { IsNetGraph nets.now }
    requires early { fault_before_loops nets.now ≡ None }
    requires there { Contains (shapes nets.now) (shape_of cell.now) }
    ensures { OnOk result (PushesIf (is_mux (form_said cell.now)) nets.now (shape_of cell.now) choices.old choices.new) }
{
    if is_mux(form_said(cell)) {
        return push_choice(nets, choices, cell);
    }
    Ok(())
}

/// Adds `cell` of `nets` to `choices`.
fn push_choice(nets: &Nets<'_>, choices: &mut Choices, cell: &Cell) -> Result<(), AllocError>
    requires graph { IsNetGraph nets.now }
    requires early { fault_before_loops nets.now ≡ None }
    requires there { Contains (shapes nets.now) (shape_of cell.now) }
    ensures { OnOk result (IsPushed nets.now (shape_of cell.now) choices.old choices.new) }
{
    let entry = entry_of(nets, cell, choices.heard.len());
    push_numbers(nets, &mut choices.heard, after_first(ins_of(cell)))?;
    choices.entries.push(entry)?;
    Ok(())
}

/// Returns the entry of `cell` of `nets` whose data begin at place `first`.
fn entry_of(nets: &Nets<'_>, cell: &Cell, first: usize) -> Choice
    requires { length (shape_of cell.now).ins ≤ 65537 }
    ensures { result ≡ spec.entry_of nets.now (shape_of cell.now) first }
{
    let ins = ins_of(cell);
    Choice {
        net: nets.number(driven_net(cell)),
        select: nets.number(first_net(ins)),
        first,
        count: after_first(ins).len() as u32,
    }
}

/// Returns the net of the first of `pins`.
fn first_net(pins: &[Pin]) -> &str
    ensures { result.now ≡ slice_index_or (map (λ (p : Pin). p.net) pins.now) 0 [] }
{
    if pins.is_empty() {
        return "";
    }
    pins[0].net.as_str()
}

/// Adds to `list` the numbers of the nets to which `pins` are connected.
fn push_numbers(nets: &Nets<'_>, list: &mut Vec<u32>, pins: &[Pin]) -> Result<(), AllocError>
    ensures { OnOk result (list.new.items ≡ list.old.items ++ map (net_number nets.now) (map (λ (p : Pin). p.net) pins.now)) }
{
    for pin in pins {
        list.push(nets.number(pin.net.as_str()))?;
    }
    Ok(())
}

/// Checks whether `form` is that of muxes.
fn is_mux(form: Form) -> bool
    ensures { result ≡ is_mux form }
{
    matches!(form, Form::Mux(_))
}

/// Checks whether `form` is that of registers.
fn is_register(form: Form) -> bool
    ensures { result ≡ is_register form }
{
    matches!(form, Form::Register(_))
}
