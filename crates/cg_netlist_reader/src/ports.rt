//! The ports of forms, one by one.
ghost use Rattle.std.specs.Prelude.{◌≡◌, ◌∷◌, [], ◌++◌, ◌↔◌, ◌+◌, ◌<◌, ◌≤◌, length, map, slice_index_or, codes, IsTrue};
ghost use Rattle.std.specs.List.{range_with_len};
ghost use Rattle.cg_netlist.specs.Forms as forms;
ghost use Rattle.cg_netlist_reader.specs.Ported as spec;

use crate::port::Port;
use cg_netlist::{Form, is_driver_port};

/// Returns the number of ports of `form`.
#[tactic(auto, using(crate::proofs::Places::drivers_length, crate::proofs::Places::arguments_length))]
pub(crate) fn port_count(form: Form) -> usize
    ensures count { result ≡ length (forms.form_ports form) }
    ensures some { 0 < result }
{
    match form {
        Form::Context(_) => 3,
        Form::Preselect(_) => 3,
        Form::Mux(count) => count as usize + 2,
        Form::Register(count) => count as usize + 4,
        Form::Zero => 1,
        Form::FunctionalUnit { ports, .. } => ports as usize + 3,
    }
}

/// Returns the port of `form` at the place `place`, from 0 on.
pub(crate) fn port_at(form: Form, place: usize) -> Port
    requires { place < length (forms.form_ports form) }
    ensures { spec.port_text result ≡ slice_index_or (forms.form_ports form) place [] }
{
    match form {
        Form::Context(_) => select_port(place),
        Form::Preselect(_) => select_port(place),
        Form::Mux(count) => choice_port(count, place),
        Form::Register(count) => register_port(count, place),
        Form::Zero => Port::Output,
        Form::FunctionalUnit { ports, .. } => unit_port(ports, place),
    }
}

/// Returns the port at `place` of a context or preselect.
fn select_port(place: usize) -> Port
    requires { place < 3 }
    ensures { spec.port_text result ≡ slice_index_or (codes "clk" ∷ codes "rst" ∷ codes "q" ∷ []) place [] }
{
    match place {
        0 => Port::Clock,
        1 => Port::Reset,
        _ => Port::Output,
    }
}

/// Returns the port at `place` of a mux of `count` drivers.
#[tactic(auto, using(crate::proofs::Places::driver_at, crate::proofs::Places::choice_end))]
fn choice_port(count: u32, place: usize) -> Port
    requires { place < count + 2 }
    ensures { spec.port_text result ≡ slice_index_or (forms.form_ports (Form.Mux count)) place [] }
{
    if place == 0 {
        return Port::Select;
    }
    if place <= count as usize {
        return Port::Driver(place as u32);
    }
    Port::Output
}

/// Returns the port at `place` of a register with `count` drivers.
#[tactic(auto, using(crate::proofs::Places::behind_clock))]
fn register_port(count: u32, place: usize) -> Port
    requires { place < count + 4 }
    ensures { spec.port_text result ≡ slice_index_or (forms.form_ports (Form.Register count)) place [] }
{
    if place == 0 {
        return Port::Clock;
    }
    if place == 1 {
        return Port::Reset;
    }
    choice_port(count, place - 2)
}

/// Returns the port at `place` of a unit with `count` arguments.
#[tactic(auto, using(crate::proofs::Places::argument_at, crate::proofs::Places::unit_end))]
fn unit_port(count: u32, place: usize) -> Port
    requires { place < count + 3 }
    ensures { spec.port_text result ≡ slice_index_or (codes "clk" ∷ codes "rst" ∷ (map forms.argument_port (range_with_len 0 count) ++ codes "q" ∷ [])) place [] }
{
    if place == 0 {
        return Port::Clock;
    }
    if place == 1 {
        return Port::Reset;
    }
    if place - 2 < count as usize {
        return Port::Argument((place - 2) as u32);
    }
    Port::Output
}

/// Checks whether `text` is the name of `port`.
pub(crate) fn is_called(port: Port, text: &str) -> bool
    ensures { IsTrue result ↔ (text.now ≡ spec.port_text port) }
{
    match port {
        Port::Clock => same(text, "clk"),
        Port::Reset => same(text, "rst"),
        Port::Select => same(text, "s"),
        Port::Driver(number) => is_driver_port(text, number),
        Port::Argument(number) => is_argument_port(text.as_bytes(), number),
        Port::Output => same(text, "q"),
    }
}

/// Checks whether two texts are equal.
#[tactic(auto, using(crate::proofs::Places::same_found))]
fn same(left: &str, right: &str) -> bool
    ensures { IsTrue result ↔ (left.now ≡ right.now) }
{
    left.as_bytes() == right.as_bytes()
}

/// Checks whether `text` is the port of argument number `number`.
#[tactic(auto, using(crate::proofs::Places::letter_found, crate::proofs::Places::letter_missed))]
fn is_argument_port(text: &[u8], number: u32) -> bool
    ensures { IsTrue result ↔ (text.now ≡ forms.argument_port number) }
{
    if text.len() != 1 {
        return false;
    }
    text[0] as usize == 97 + number as usize
}
