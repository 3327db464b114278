//! Whether pins are on nets that are allowed for them.
ghost use Rattle.std.specs.Prelude.{◌≡◌, ◌<◌, ◌^◌};
ghost use Rattle.cg_flat.specs.Slots.{width};
ghost use Rattle.cg_model.specs.First.{first_from};
ghost use Rattle.cg_gates.specs.Numbers.{AreNets, is_misjoined};
ghost use Rattle.cg_gates.specs.Accepts as spec;

use crate::numbers::named;
use crate::pins::form_said;
use cg_netlist::{Cell, Form, Net, Pin};
use cg_reading::Numbers;

/// Finds the first of `cells` with a pin on a net that isn't allowed for it. `numbers` maps the names of `nets` to
/// their numbers.
pub(crate) fn misjoined(nets: &[Net], numbers: &Numbers, cells: &[Cell]) -> Option<usize>
    requires { AreNets numbers.now nets.now }
    ensures { result ≡ first_from (is_misjoined nets.now) 0 cells.now }
{
    for (number, cell) in cells.iter().enumerate() {
        if !is_joined(nets, numbers, cell) {
            return Some(number);
        }
    }
    None
}

/// Checks whether each pin of `cell` is on a net that is allowed for it. `numbers` maps the names of `nets` to their
/// numbers.
fn is_joined(nets: &[Net], numbers: &Numbers, cell: &Cell) -> bool
    requires { AreNets numbers.now nets.now }
    ensures { result ≡ spec.is_joined nets.now cell.now }
{
    let form = form_said(cell);
    for pin in cell.pins.as_slice() {
        if !is_joined_pin(nets, numbers, form, pin) {
            return false;
        }
    }
    true
}

/// Checks whether a `pin` of a cell of that `form` is on a net that is allowed for it. `numbers` maps the names of
/// `nets` to their numbers.
fn is_joined_pin(nets: &[Net], numbers: &Numbers, form: Form, pin: &Pin) -> bool
    requires { AreNets numbers.now nets.now }
    ensures { result ≡ spec.is_joined_pin nets.now form pin.now }
{
    let port = pin.port.as_str();
    let net = pin.net.as_str();
    if is_clock(port) {
        return net == port;
    }
    has_width(nets, numbers, net, port_width(form, port))
}

/// Checks whether `port` is that of the clock or of the reset.
fn is_clock(port: &str) -> bool
    ensures { result ≡ spec.is_clock port.now }
{
    port == "clk" || port == "rst"
}

/// Checks whether a net of that `name` and `width` is declared. `numbers` maps the names of `nets` to their numbers.
fn has_width(nets: &[Net], numbers: &Numbers, name: &str, width: u32) -> bool
    requires { AreNets numbers.now nets.now }
    ensures { result ≡ spec.has_width nets.now name.now width }
{
    match named(numbers, nets, name) {
        Some(net) => net.width == width,
        None => false,
    }
}

/// Returns the width of a `port` of `form`.
fn port_width(form: Form, port: &str) -> u32
    ensures { result ≡ spec.port_width form port.now }
{
    if port == "s" {
        return width_of(ways(form));
    }
    if port == "q" {
        return output_width(form);
    }
    32
}

/// Returns the number of drivers among which `form` chooses.
fn ways(form: Form) -> u32
    ensures { result ≡ spec.ways form }
{
    match form {
        Form::Mux(count) | Form::Register(count) => count,
        Form::Context(_) | Form::Preselect(_) | Form::Zero | Form::FunctionalUnit { .. } => 0,
    }
}

/// Returns the width of the output of `form`.
fn output_width(form: Form) -> u32
    ensures { result ≡ spec.output_width form }
{
    match form {
        Form::Context(width) | Form::Preselect(width) => width,
        Form::Mux(_) | Form::Register(_) | Form::Zero | Form::FunctionalUnit { .. } => 32,
    }
}

/// Returns the number of bits that distinguish 0 to `count`.
#[tactic(auto, using(cg_flat::proofs::Widths::width_is))]
fn width_of(count: u32) -> u32
    ensures { result ≡ width count }
{
    32 - count.leading_zeros()
}
