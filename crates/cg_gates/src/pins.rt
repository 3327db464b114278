//! The forms of cells, and the nets to which they are connected.
ghost use Rattle.std.specs.Prelude.{◌≡◌, ◌≤◌, drop, map};
ghost use Rattle.cg_netlist.specs.declared.parts.Pin.{Pin};
ghost use Rattle.cg_gates.specs.Accepts.{data_now};
ghost use Rattle.cg_gates.specs.Shape as spec;

use cg_netlist::{Cell, Form, Pin, form_of};

/// Returns the form that the name of the module of `cell` denotes.
pub fn form_said(cell: &Cell) -> Form
    ensures { result ≡ spec.form_said cell.now }
{
    match form_of(cell.module.as_str()) {
        Some(form) => form,
        None => Form::Zero,
    }
}

/// Returns the net that `cell` drives: that of its last pin.
pub fn driven_net(cell: &Cell) -> &str
    ensures { result.now ≡ (spec.shape_of cell.now).q }
{
    let pins = cell.pins.as_slice();
    if pins.is_empty() {
        return "";
    }
    pins[pins.len() - 1].net.as_str()
}

/// Returns the number of first pins of `form` that are on the clock and the reset.
fn clock_count(form: Form) -> usize
    ensures count { result ≡ spec.clock_count form }
    ensures few { result ≤ 2 }
{
    match form {
        Form::Context(_) | Form::Preselect(_) | Form::Register(_) | Form::FunctionalUnit { .. } =>
            2,
        Form::Mux(_) | Form::Zero => 0,
    }
}

/// Returns the pins of `cell` between those of the clock and the reset and the last.
#[tactic(auto, using(crate::proofs::Shapes::ins_between, crate::proofs::Shapes::no_ins))]
pub fn ins_of(cell: &Cell) -> &[Pin]
    ensures { map (λ (p : Pin). p.net) result.now ≡ (spec.shape_of cell.now).ins }
{
    let pins = cell.pins.as_slice();
    let first = clock_count(form_said(cell));
    if pins.len() < first + 1 {
        return &[];
    }
    &pins[first..pins.len() - 1]
}

/// Returns the pins of `cell` on nets among which it chooses in the same cycle.
#[tactic(auto, using(crate::proofs::Shapes::data_of_mux, crate::proofs::Shapes::data_of_none))]
pub fn data_of(cell: &Cell) -> &[Pin]
    ensures { map (λ (p : Pin). p.net) result.now ≡ data_now (spec.shape_of cell.now).form (spec.shape_of cell.now).ins }
{
    match form_said(cell) {
        Form::Mux(_) => after_first(ins_of(cell)),
        Form::Context(_)
        | Form::Preselect(_)
        | Form::Register(_)
        | Form::Zero
        | Form::FunctionalUnit { .. } => &[],
    }
}

/// Returns `pins` without the first.
pub fn after_first(pins: &[Pin]) -> &[Pin]
    ensures { result.now ≡ drop 1 pins.now }
{
    if pins.is_empty() {
        return &[];
    }
    &pins[1..]
}
