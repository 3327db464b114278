//! The text of a netlist.
ghost use Rattle.std.specs.Prelude.{◌≡◌, ◌<◌, ◌++◌, All, string_bytes, IfOk, OnOk};
ghost use Rattle.std.specs.List.{flat_map};
ghost use Rattle.cg_verilog.specs.Module.{IsModule};
ghost use Rattle.cg_verilog.specs.Printed as printed;
ghost use Rattle.cg_netlist.specs.Built.{HasBits, HasPins};
ghost use Rattle.cg_netlist.specs.Text as spec;

use crate::graph::NetGraph;
use crate::parts::{Cell, Net, Pin};
use std::alloc::{AllocError, Global};

/// Returns the text of `netlist` as a module of structural Verilog.
pub fn verilog(alloc: Global, netlist: &NetGraph) -> Result<Vec<u8>, AllocError>
    ensures text { IfOk result (λ text. text.items ≡ printed.module_text (spec.module_of netlist.now)) }
    ensures valid { IsModule (spec.module_of netlist.now) }
{
    let nets = netlist.nets();
    let cells = netlist.cells();
    module_text(alloc, nets, cells)
}

/// Returns the text of `nets` and `cells` as a module.
fn module_text(alloc: Global, nets: &[Net], cells: &[Cell]) -> Result<Vec<u8>, AllocError>
    requires bits { All HasBits nets.now }
    requires pins { All HasPins cells.now }
    ensures { IfOk result (λ text. text.items ≡ printed.module_text (spec.module_of (record { nets = nets.now; cells = cells.now }))) }
{
    let mut text = header(alloc)?;
    push_nets(alloc, &mut text, nets)?;
    push_cells(alloc, &mut text, cells)?;
    text.extend_from_slice(b"endmodule\n")?;
    Ok(text)
}

/// Returns the first lines of the text.
fn header(alloc: Global) -> Result<Vec<u8>, AllocError>
    ensures { IfOk result (λ text. text.items ≡ printed.header_text) }
{
    let mut text = Vec::new(alloc);
    text.extend_from_slice(b"module cgra_array (clk, rst);\n")?;
    text.extend_from_slice(b"  input clk;\n  input rst;\n")?;
    Ok(text)
}

/// Adds the lines of all nets.
fn push_nets(alloc: Global, text: &mut Vec<u8>, nets: &[Net]) -> Result<(), AllocError>
    requires { All HasBits nets.now }
    ensures { OnOk result (text.new.items ≡ text.old.items ++ flat_map spec.net_line nets.now) }
{
    for net in nets {
        push_net(alloc, text, net)?;
    }
    Ok(())
}

/// Adds the line of a net.
fn push_net(alloc: Global, text: &mut Vec<u8>, net: &Net) -> Result<(), AllocError>
    requires { HasBits net.now }
    ensures { OnOk result (text.new.items ≡ text.old.items ++ spec.net_line net.now) }
{
    let line = net_line(alloc, net.name.as_str(), net.width)?;
    text.extend_from_slice(line.as_bytes())?;
    Ok(())
}

/// Returns the line of a net called `name` with `width` bits.
#[tactic(auto, using(crate::proofs::Lines::wire_line))]
fn net_line(alloc: Global, name: &str, width: u32) -> Result<String, AllocError>
    requires { 0 < width }
    ensures { IfOk result (λ line. string_bytes line ≡ printed.wire_text (record { width = width; name = name.now })) }
{
    let top = width - 1;
    format!(in alloc; "  wire [{top}:0] {name};\n")
}

/// Adds the lines of all cells.
fn push_cells(alloc: Global, text: &mut Vec<u8>, cells: &[Cell]) -> Result<(), AllocError>
    requires { All HasPins cells.now }
    ensures { OnOk result (text.new.items ≡ text.old.items ++ flat_map spec.cell_line cells.now) }
{
    for cell in cells {
        push_cell(alloc, text, cell)?;
    }
    Ok(())
}

/// Adds the line of a cell.
#[tactic(auto, using(crate::proofs::Lines::pushed_cell))]
fn push_cell(alloc: Global, text: &mut Vec<u8>, cell: &Cell) -> Result<(), AllocError>
    requires { HasPins cell.now }
    ensures { OnOk result (text.new.items ≡ text.old.items ++ spec.cell_line cell.now) }
{
    push_head(alloc, text, cell.module.as_str(), cell.name.as_str())?;
    push_pins(alloc, text, cell.pins.as_slice())?;
    text.extend_from_slice(b");\n")?;
    Ok(())
}

/// Adds the text before the pins of a cell.
fn push_head(alloc: Global, text: &mut Vec<u8>, form: &str, name: &str) -> Result<(), AllocError>
    ensures { OnOk result (text.new.items ≡ text.old.items ++ spec.head_text form.now name.now) }
{
    let head = format!(in alloc; "  {form} {name} (")?;
    text.extend_from_slice(head.as_bytes())?;
    Ok(())
}

/// Adds the pins of a cell.
fn push_pins(alloc: Global, text: &mut Vec<u8>, pins: &[Pin]) -> Result<(), AllocError>
    ensures { OnOk result (text.new.items ≡ text.old.items ++ spec.pins_text pins.now) }
{
    match pins {
        [] => Ok(()),
        [first, rest @ ..] => {
            push_pin(alloc, text, first)?;
            push_further_pins(alloc, text, rest)?;
            Ok(())
        }
    }
}

/// Adds pins, each after a comma and a blank.
fn push_further_pins(alloc: Global, text: &mut Vec<u8>, pins: &[Pin]) -> Result<(), AllocError>
    ensures { OnOk result (text.new.items ≡ text.old.items ++ flat_map spec.further_text pins.now) }
{
    for pin in pins {
        push_further_pin(alloc, text, pin)?;
    }
    Ok(())
}

/// Adds a pin after a comma and a blank.
fn push_further_pin(alloc: Global, text: &mut Vec<u8>, pin: &Pin) -> Result<(), AllocError>
    ensures { OnOk result (text.new.items ≡ text.old.items ++ spec.further_text pin.now) }
{
    text.extend_from_slice(b", ")?;
    push_pin(alloc, text, pin)?;
    Ok(())
}

/// Adds a pin.
fn push_pin(alloc: Global, text: &mut Vec<u8>, pin: &Pin) -> Result<(), AllocError>
    ensures { OnOk result (text.new.items ≡ text.old.items ++ spec.first_text pin.now) }
{
    let word = pin_word(alloc, pin.port.as_str(), pin.net.as_str())?;
    text.extend_from_slice(word.as_bytes())?;
    Ok(())
}

/// Returns the printed text of a pin with the port `port` and the net `net`.
#[tactic(auto, using(crate::proofs::Lines::pin_word))]
fn pin_word(alloc: Global, port: &str, net: &str) -> Result<String, AllocError>
    ensures { IfOk result (λ word. string_bytes word ≡ printed.pin_text (record { port = port.now; net = net.now })) }
{
    format!(in alloc; ".{port}({net})")
}
