//! The parts of modules.
ghost use Rattle.std.specs.Prelude.{◌≡◌, IfOk, string_bytes};
ghost use Rattle.cg_testbench.specs.Pieces as spec;

use std::alloc::{AllocError, Global};

/// Returns the module `name` with the note `note`, the ports `ports` and the body `body`. It is read only where its
/// macro isn't defined.
pub(crate) fn module_text(
    alloc: Global,
    name: &str,
    note: &str,
    ports: &str,
    body: &str,
) -> Result<String, AllocError>
    ensures { IfOk result (λ text. string_bytes text ≡ spec.module_text name.now note.now ports.now body.now) }
{
    format!(in alloc;
        "\n`ifndef OWN_{name}\n// {note}\nmodule {name} ({ports});\n{body}endmodule\n`endif\n"
    )
}

// ---- drivers, numbered from 1 on

/// Returns the port of driver number `driver` + 1, as written in a list of ports.
fn driver_name(alloc: Global, driver: u32) -> Result<String, AllocError>
    ensures { IfOk result (λ text. string_bytes text ≡ spec.driver_name driver) }
{
    let number = u64::from(driver) + 1;
    format!(in alloc; "d{number}, ")
}

/// Returns the declaration of the port of driver number `driver` + 1.
fn driver_input(alloc: Global, driver: u32) -> Result<String, AllocError>
    ensures { IfOk result (λ text. string_bytes text ≡ spec.driver_input driver) }
{
    let number = u64::from(driver) + 1;
    format!(in alloc; "  input [31:0] d{number};\n")
}

/// Returns the choice of driver number `driver` + 1.
fn driver_choice(alloc: Global, driver: u32) -> Result<String, AllocError>
    ensures { IfOk result (λ text. string_bytes text ≡ spec.driver_choice driver) }
{
    let number = u64::from(driver) + 1;
    format!(in alloc; "    s == {number} ? d{number} :\n")
}

/// Returns the ports of `drivers` drivers, as written in a list of ports.
pub(crate) fn driver_names(alloc: Global, drivers: u32) -> Result<String, AllocError>
    ensures { IfOk result (λ text. string_bytes text ≡ spec.driver_names drivers) }
{
    let mut text = String::new(alloc);
    for driver in 0..drivers {
        let name = driver_name(alloc, driver)?;
        text.push_str(name.as_str())?;
    }
    Ok(text)
}

/// Returns the declarations of the ports of `drivers` drivers.
pub(crate) fn driver_inputs(alloc: Global, drivers: u32) -> Result<String, AllocError>
    ensures { IfOk result (λ text. string_bytes text ≡ spec.driver_inputs drivers) }
{
    let mut text = String::new(alloc);
    for driver in 0..drivers {
        let input = driver_input(alloc, driver)?;
        text.push_str(input.as_str())?;
    }
    Ok(text)
}

/// Returns the choices of `drivers` drivers.
pub(crate) fn driver_choices(alloc: Global, drivers: u32) -> Result<String, AllocError>
    ensures { IfOk result (λ text. string_bytes text ≡ spec.driver_choices drivers) }
{
    let mut text = String::new(alloc);
    for driver in 0..drivers {
        let choice = driver_choice(alloc, driver)?;
        text.push_str(choice.as_str())?;
    }
    Ok(text)
}

/// Returns the greatest bit of a select among `drivers` drivers.
pub(crate) fn top_bit(drivers: u32) -> u32
    ensures { result ≡ spec.top_bit drivers }
{
    let width = 32 - drivers.leading_zeros();
    width.saturating_sub(1)
}

// ---- arguments

/// Returns the letter of the port of argument `argument`.
pub(crate) fn port_letter(argument: u32) -> &'static str
    ensures { result.now ≡ spec.port_letter argument }
{
    match argument {
        0 => "a",
        1 => "b",
        _ => "c",
    }
}

/// Returns the letter of the word that a unit takes for argument `argument`.
pub(crate) fn argument_letter(argument: u32) -> &'static str
    ensures { result.now ≡ spec.argument_letter argument }
{
    match argument {
        0 => "x",
        1 => "y",
        _ => "z",
    }
}

/// Returns the port of argument `argument`, as written in a list of ports.
pub(crate) fn port_name(alloc: Global, argument: u32) -> Result<String, AllocError>
    ensures { IfOk result (λ text. string_bytes text ≡ spec.port_name argument) }
{
    let letter = port_letter(argument);
    format!(in alloc; "{letter}, ")
}

/// Returns the declaration of the port of argument `argument`.
pub(crate) fn port_input(alloc: Global, argument: u32) -> Result<String, AllocError>
    ensures { IfOk result (λ text. string_bytes text ≡ spec.port_input argument) }
{
    let letter = port_letter(argument);
    format!(in alloc; "  input [31:0] {letter};\n")
}
