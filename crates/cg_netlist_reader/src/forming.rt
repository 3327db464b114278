//! Whether cells have the names and the ports of forms.
ghost use Rattle.std.specs.Prelude.{◌≡◌, ◌↔◌, ◌+◌, All, IsTrue, MatchOption, map, length, drop};
ghost use Rattle.std.specs.List.{AllByRecursion};
ghost use Rattle.cg_verilog.specs.Module as texts;
ghost use Rattle.cg_verilog.specs.Read as modules;
ghost use Rattle.cg_netlist.specs.Forms as forms;
ghost use Rattle.cg_netlist_reader.specs.Reading as spec;
ghost use Rattle.cg_netlist_reader.specs.Ported as ported;

use crate::ports::{is_called, port_at, port_count};
use crate::taken::text_of;
use cg_netlist::{Form, form_of};
use cg_verilog::{Cell, Pin};

/// Finds the first of the `cells` of a text that has no form.
pub(crate) fn unknown_cell(cells: &[Cell<'_>]) -> Option<usize>
    requires { AllByRecursion texts.IsCell (map modules.cell_of cells.now) }
    ensures { MatchOption result (All spec.IsFormed (map ported.cell_taken (map modules.cell_of cells.now))) (λ i. spec.IsUnknownCell (map ported.cell_taken (map modules.cell_of cells.now)) i) }
{
    for (number, cell) in cells.iter().enumerate() {
        if !is_formed(cell) {
            return Some(number);
        }
    }
    None
}

/// Checks whether `cell` has the form that its module's name denotes.
#[tactic(auto, using(crate::proofs::Shapes::formed_found, crate::proofs::Shapes::formed_missed))]
fn is_formed(cell: &Cell<'_>) -> bool
    requires { texts.IsCell (modules.cell_of cell.now) }
    ensures { IsTrue result ↔ spec.IsFormed (ported.cell_taken (modules.cell_of cell.now)) }
{
    match form_of(text_of(cell.form)) {
        Some(form) => has_ports(cell, form),
        None => false,
    }
}

/// Checks whether the ports of the pins of `cell` are those of `form`, in order.
fn has_ports(cell: &Cell<'_>, form: Form) -> bool
    requires { texts.IsCell (modules.cell_of cell.now) }
    ensures { IsTrue result ↔ (spec.ports (ported.cell_taken (modules.cell_of cell.now)) ≡ forms.form_ports form) }
{
    if cell.rest.len() != port_count(form) - 1 {
        return false;
    }
    if !is_called(port_at(form, 0), text_of(cell.first.port)) {
        return false;
    }
    has_further_ports(&cell.rest, form)
}

/// Checks whether the ports of `pins` are those of `form` after the first, in order.
fn has_further_ports(pins: &[Pin<'_>], form: Form) -> bool
    requires pins { AllByRecursion texts.IsPin (map modules.pin_of pins.now) }
    requires many { length pins.now + 1 ≡ length (forms.form_ports form) }
    ensures { IsTrue result ↔ (ported.lent_ports pins.now ≡ drop 1 (forms.form_ports form)) }
{
    for (place, pin) in pins.iter().enumerate() {
        if !is_called(port_at(form, place + 1), text_of(pin.port)) {
            return false;
        }
    }
    true
}
