//! The form that the name of a module denotes.
ghost use Rattle.std.specs.Prelude.{◌≡◌, ◌++◌, ◌↔◌, ◌≤◌, ℕ, List, drop, codes, IsTrue};
ghost use Rattle.std.specs.Option.{option_copied};
ghost use Rattle.cg_netlist.specs.Forms as spec;
ghost use Rattle.cg_netlist.specs.Reads as reads;

use crate::forms::Form;
use crate::written::{is_written, number_of};

/// Returns the form with exactly the name `name`, if there is one.
#[tactic(auto, using(crate::proofs::Called::form_named, crate::proofs::Called::form_only))]
pub fn form_of(name: &str) -> Option<Form>
    ensures form { result ≡ spec.form_of name.now }
    // Each form is found by its name.
    ensures named { (f : spec.Form) → spec.IsForm f → spec.form_of (spec.form_name f) ≡ Some f }
    // The form that is found has this name, and is valid.
    ensures only { (text : List ℕ) (f : spec.Form) → spec.form_of text ≡ Some f → (text ≡ spec.form_name f) × spec.IsForm f }
{
    form_by(name.as_bytes())
}

/// Returns the form with the name `name`, by its prefix.
#[tactic(auto, using(crate::proofs::Called::some_after, crate::proofs::Called::some_zero, crate::proofs::Called::none_begun))]
fn form_by(name: &[u8]) -> Option<Form>
    ensures { result ≡ spec.form_of name.now }
{
    if let Some(width) = after(name, b"cg_ctx_") {
        return context_form(width);
    }
    if let Some(width) = after(name, b"cg_pre_") {
        return preselect_form(width);
    }
    if let Some(count) = after(name, b"cg_mux_") {
        return mux_form(count);
    }
    if let Some(count) = after(name, b"cg_reg_") {
        return register_form(count);
    }
    if let Some(numbers) = after(name, b"cg_unit_") {
        return unit_form(numbers);
    }
    if name == b"cg_zero".as_slice() {
        return Some(Form::Zero);
    }
    None
}

/// Checks whether `port` is that of driver number `number`.
#[tactic(auto, using(crate::proofs::Called::driver_found, crate::proofs::Called::driver_missed))]
pub fn is_driver_port(port: &str, number: u32) -> bool
    ensures { IsTrue result ↔ (port.now ≡ spec.driver_port number) }
{
    match after(port.as_bytes(), b"d") {
        Some(digits) => is_written(digits, 10, number),
        None => false,
    }
}

/// Returns the part of `name` after `prefix`.
fn after<'a>(name: &'a [u8], prefix: &[u8]) -> Option<&'a [u8]>
    ensures { reads.IsAfter name.now prefix.now (option_copied result) }
{
    match name.strip_prefix(prefix) {
        Some(rest) => Some(rest),
        None => None,
    }
}

/// Returns the context form whose number of bits `width` writes.
#[tactic(auto, using(crate::proofs::Called::some_context, crate::proofs::Called::no_context))]
fn context_form(width: &[u8]) -> Option<Form>
    ensures { result ≡ spec.form_of (codes "cg_ctx_" ++ width.now) }
{
    match count_of(width, 17) {
        Some(width) => Some(Form::Context(width)),
        None => None,
    }
}

/// Returns the preselect form whose number of bits `width` writes.
#[tactic(auto, using(crate::proofs::Called::some_preselect, crate::proofs::Called::no_preselect))]
fn preselect_form(width: &[u8]) -> Option<Form>
    ensures { result ≡ spec.form_of (codes "cg_pre_" ++ width.now) }
{
    match count_of(width, 17) {
        Some(width) => Some(Form::Preselect(width)),
        None => None,
    }
}

/// Returns the mux form whose number of drivers `count` writes.
#[tactic(auto, using(crate::proofs::Called::some_mux, crate::proofs::Called::no_mux))]
fn mux_form(count: &[u8]) -> Option<Form>
    ensures { result ≡ spec.form_of (codes "cg_mux_" ++ count.now) }
{
    match count_of(count, 65536) {
        Some(count) => Some(Form::Mux(count)),
        None => None,
    }
}

/// Returns the register form whose number of drivers `count` writes.
#[tactic(auto, using(crate::proofs::Called::some_register, crate::proofs::Called::no_register))]
fn register_form(count: &[u8]) -> Option<Form>
    ensures { result ≡ spec.form_of (codes "cg_reg_" ++ count.now) }
{
    match count_of(count, 65536) {
        Some(count) => Some(Form::Register(count)),
        None => None,
    }
}

/// Returns the number that `text` writes, if it is one of 1 to `most`.
fn count_of(text: &[u8], most: u32) -> Option<u32>
    ensures { reads.IsCount most text.now result }
{
    match number_of(text, 10) {
        Some(number) => {
            if 0 < number && number <= most {
                Some(number)
            } else {
                None
            }
        }
        None => None,
    }
}

/// Returns the unit form whose ports, latency and operations `numbers` writes.
fn unit_form(numbers: &[u8]) -> Option<Form>
    ensures { result ≡ spec.form_of (codes "cg_unit_" ++ numbers.now) }
{
    match digit_of(numbers, 3) {
        Some(ports) => unit_with(numbers, ports),
        None => None,
    }
}

/// Returns the unit form of `numbers`, whose first number is `ports`.
fn unit_with(numbers: &[u8], ports: u32) -> Option<Form>
    requires { reads.IsDigit 3 numbers.now (Some ports) }
    ensures { result ≡ spec.form_of (codes "cg_unit_" ++ numbers.now) }
{
    let rest = &numbers[2..];
    match digit_of(rest, 4) {
        Some(latency) => unit_within(numbers, ports, rest, latency),
        None => None,
    }
}

/// Returns the unit form of `numbers`, where `latency` is the first number of the `rest`.
fn unit_within(numbers: &[u8], ports: u32, rest: &[u8], latency: u32) -> Option<Form>
    requires first { reads.IsDigit 3 numbers.now (Some ports) }
    requires rest { rest.now ≡ drop 2 numbers.now }
    requires second { reads.IsDigit 4 rest.now (Some latency) }
    ensures { result ≡ spec.form_of (codes "cg_unit_" ++ numbers.now) }
{
    match number_of(&rest[2..], 16) {
        Some(operations) => {
            if latency == 0 {
                return None;
            }
            if operations == 0 {
                return None;
            }
            Some(Form::FunctionalUnit {
                ports,
                latency,
                operations,
            })
        }
        None => None,
    }
}

/// Returns the digit with which `text` begins, if it is at most `most` and a `_` follows.
fn digit_of(text: &[u8], most: u32) -> Option<u32>
    requires { most ≤ 9 }
    ensures { reads.IsDigit most text.now result }
{
    if text.len() < 2 {
        return None;
    }
    let digit = text[0] as u32;
    if text[1] != 95 {
        return None;
    }
    if digit < 48 {
        return None;
    }
    if 48 + most < digit {
        return None;
    }
    Some(digit - 48)
}
