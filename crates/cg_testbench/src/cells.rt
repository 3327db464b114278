//! The modules of cells.
ghost use Rattle.std.specs.Prelude.{◌≡◌, IfOk, string_bytes};
ghost use Rattle.cg_testbench.specs.Cells as spec;

use crate::pieces::{driver_choices, driver_inputs, driver_names, module_text, top_bit};
use crate::unit::{unit_body, unit_note, unit_ports};
use cg_netlist::Form;
use std::alloc::{AllocError, Global};

/// Returns the body of a cell that keeps a select of `width` bits for each slot, and outputs that of the slot `slot` of
/// the bench.
fn select_body(alloc: Global, slot: &str, width: u32) -> Result<String, AllocError>
    ensures { IfOk result (λ text. string_bytes text ≡ spec.select_body slot.now width) }
{
    let top = width.saturating_sub(1);
    format!(in alloc;
        "  input clk;\n  input rst;\n  output [{top}:0] q;\n  reg [{top}:0] select [0:63];\n  integer i;\n  initial for (i = 0; i < 64; i = i + 1) select[i] = 0;\n  assign q = select[cgra_bench.{slot}];\n"
    )
}

/// Returns the body of a cell that chooses among `drivers` drivers.
fn mux_body(alloc: Global, drivers: u32) -> Result<String, AllocError>
    ensures { IfOk result (λ text. string_bytes text ≡ spec.mux_body drivers) }
{
    let top = top_bit(drivers);
    let inputs = driver_inputs(alloc, drivers)?;
    let choices = driver_choices(alloc, drivers)?;
    format!(in alloc;
        "  input [{top}:0] s;\n{inputs}  output [31:0] q;\n  assign q =\n{choices}    0;\n"
    )
}

/// Returns the body of a cell that holds the word that it chose among `drivers` drivers a cycle ago.
fn register_body(alloc: Global, drivers: u32) -> Result<String, AllocError>
    ensures { IfOk result (λ text. string_bytes text ≡ spec.register_body drivers) }
{
    let top = top_bit(drivers);
    let inputs = driver_inputs(alloc, drivers)?;
    let choices = driver_choices(alloc, drivers)?;
    format!(in alloc;
        "  input clk;\n  input rst;\n  input [{top}:0] s;\n{inputs}  output [31:0] q;\n  reg [31:0] q;\n  always @(posedge clk) q <=\n    rst ? 0 :\n{choices}    0;\n"
    )
}

/// Returns the module `name` of a context cell with a select of `width` bits, for the current cycle.
fn context_text(alloc: Global, name: &str, width: u32) -> Result<String, AllocError>
    ensures { IfOk result (λ text. string_bytes text ≡ spec.cell_text name.now (Form.Context width)) }
{
    let note = "the select of a wire or a port in the slot of the cycle, by slot";
    let body = select_body(alloc, "slot", width)?;
    module_text(alloc, name, note, "clk, rst, q", body.as_str())
}

/// Returns the module `name` of a preselect cell with a select of `width` bits, for the next cycle.
fn preselect_text(alloc: Global, name: &str, width: u32) -> Result<String, AllocError>
    ensures { IfOk result (λ text. string_bytes text ≡ spec.cell_text name.now (Form.Preselect width)) }
{
    let note = "the select of a register in the slot of the next cycle, by slot";
    let body = select_body(alloc, "next_slot", width)?;
    module_text(alloc, name, note, "clk, rst, q", body.as_str())
}

/// Returns the module `name` of a mux of `drivers` drivers.
fn mux_text(alloc: Global, name: &str, drivers: u32) -> Result<String, AllocError>
    ensures { IfOk result (λ text. string_bytes text ≡ spec.cell_text name.now (Form.Mux drivers)) }
{
    let note = "the word of the selected driver, 0 for none";
    let names = driver_names(alloc, drivers)?;
    let ports = format!(in alloc; "s, {names}q")?;
    let body = mux_body(alloc, drivers)?;
    module_text(alloc, name, note, ports.as_str(), body.as_str())
}

/// Returns the module `name` of a register with a choice among `drivers` drivers.
fn register_text(alloc: Global, name: &str, drivers: u32) -> Result<String, AllocError>
    ensures { IfOk result (λ text. string_bytes text ≡ spec.cell_text name.now (Form.Register drivers)) }
{
    let note = "the word that the selected driver had a cycle ago, 0 for none";
    let names = driver_names(alloc, drivers)?;
    let ports = format!(in alloc; "clk, rst, s, {names}q")?;
    let body = register_body(alloc, drivers)?;
    module_text(alloc, name, note, ports.as_str(), body.as_str())
}

/// Returns the module `name` of a cell with the word 0.
fn zero_text(alloc: Global, name: &str) -> Result<String, AllocError>
    ensures { IfOk result (λ text. string_bytes text ≡ spec.cell_text name.now Form.Zero) }
{
    let body = "  output [31:0] q;\n  assign q = 0;\n";
    module_text(alloc, name, "the word 0", "q", body)
}

/// Returns the module `name` of a unit with `ports` ports, the latency `latency` and `operations`.
fn unit_text(
    alloc: Global,
    name: &str,
    ports: u32,
    latency: u32,
    operations: u32,
) -> Result<String, AllocError>
    ensures { IfOk result (λ text. string_bytes text ≡ spec.cell_text name.now (Form.FunctionalUnit ports latency operations)) }
{
    let note = unit_note(alloc, ports, latency, operations)?;
    let list = unit_ports(alloc, ports)?;
    let body = unit_body(alloc, ports, latency, operations)?;
    module_text(alloc, name, note.as_str(), list.as_str(), body.as_str())
}

/// Returns the module of the cells of the form `form`, called `name`.
pub(crate) fn cell_text(alloc: Global, name: &str, form: Form) -> Result<String, AllocError>
    ensures { IfOk result (λ text. string_bytes text ≡ spec.cell_text name.now form) }
{
    match form {
        Form::Context(width) => context_text(alloc, name, width),
        Form::Preselect(width) => preselect_text(alloc, name, width),
        Form::Mux(drivers) => mux_text(alloc, name, drivers),
        Form::Register(drivers) => register_text(alloc, name, drivers),
        Form::Zero => zero_text(alloc, name),
        Form::FunctionalUnit {
            ports,
            latency,
            operations,
        } => unit_text(alloc, name, ports, latency, operations),
    }
}
