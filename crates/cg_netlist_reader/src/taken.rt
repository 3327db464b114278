//! The nets and cells of a text.
ghost use Rattle.std.specs.Prelude.{◌≡◌, ◌++◌, true, map, IfOk, OnOk};
ghost use Rattle.std.specs.List.{AllByRecursion};
ghost use Rattle.cg_verilog.specs.Module as texts;
ghost use Rattle.cg_verilog.specs.Read as modules;
ghost use Rattle.cg_verilog.specs.Words.{is_name};
ghost use Rattle.cg_netlist.specs.Text.{wire_of, cell_of, pin_of};

use cg_model::{Items, Name};
use cg_netlist::{Cell, Net, Pin};
use std::alloc::{AllocError, Global};

/// Returns the text of the name `bytes`.
pub(crate) fn text_of(bytes: &[u8]) -> &str
    requires { is_name bytes.now ≡ true }
    ensures { result.now ≡ bytes.now }
{
    match std::str::from_utf8(bytes) {
        Ok(text) => text,
        Err(_) => "",
    }
}

/// Returns an owned name with the bytes `bytes`.
fn name_of(alloc: Global, bytes: &[u8]) -> Result<Name, AllocError>
    requires { is_name bytes.now ≡ true }
    ensures { IfOk result (λ name. name ≡ bytes.now) }
{
    Name::copy_of(alloc, text_of(bytes))
}

/// Returns the nets of `wires`.
pub(crate) fn nets_of(alloc: Global, wires: &[cg_verilog::Wire<'_>]) -> Result<Vec<Net>, AllocError>
    requires { AllByRecursion texts.IsWire (map modules.wire_of wires.now) }
    ensures { IfOk result (λ nets. map wire_of nets.items ≡ map modules.wire_of wires.now) }
{
    let mut nets = Vec::new(alloc);
    for wire in wires {
        nets.push(net_of(alloc, wire)?)?;
    }
    Ok(nets)
}

/// Returns the net of `wire`.
fn net_of(alloc: Global, wire: &cg_verilog::Wire<'_>) -> Result<Net, AllocError>
    requires { texts.IsWire (modules.wire_of wire.now) }
    ensures { IfOk result (λ net. wire_of net ≡ modules.wire_of wire.now) }
{
    let name = name_of(alloc, wire.name)?;
    let width = wire.width;
    Ok(Net { name, width })
}

/// Returns the cells of the cells of a text.
pub(crate) fn cells_of(
    alloc: Global,
    cells: &[cg_verilog::Cell<'_>],
) -> Result<Vec<Cell>, AllocError>
    requires { AllByRecursion texts.IsCell (map modules.cell_of cells.now) }
    ensures { IfOk result (λ own. map cell_of own.items ≡ map modules.cell_of cells.now) }
{
    let mut own = Vec::new(alloc);
    for cell in cells {
        own.push(cell_of(alloc, cell)?)?;
    }
    Ok(own)
}

/// Returns the cell of the text's cell `cell`.
fn cell_of(alloc: Global, cell: &cg_verilog::Cell<'_>) -> Result<Cell, AllocError>
    requires { texts.IsCell (modules.cell_of cell.now) }
    ensures { IfOk result (λ own. cell_of own ≡ modules.cell_of cell.now) }
{
    let module = name_of(alloc, cell.form)?;
    let name = name_of(alloc, cell.name)?;
    let mut pins = Vec::new(alloc);
    pins.push(pin_of(alloc, &cell.first)?)?;
    push_pins(alloc, &mut pins, &cell.rest)?;
    let pins = Items::new(pins);
    Ok(Cell { module, name, pins })
}

/// Adds the pins of a text's cell.
fn push_pins(
    alloc: Global,
    pins: &mut Vec<Pin>,
    more: &[cg_verilog::Pin<'_>],
) -> Result<(), AllocError>
    requires { AllByRecursion texts.IsPin (map modules.pin_of more.now) }
    ensures { OnOk result (map pin_of pins.new.items ≡ map pin_of pins.old.items ++ map modules.pin_of more.now) }
{
    for pin in more {
        pins.push(pin_of(alloc, pin)?)?;
    }
    Ok(())
}

/// Returns the pin of the text's pin `pin`.
fn pin_of(alloc: Global, pin: &cg_verilog::Pin<'_>) -> Result<Pin, AllocError>
    requires { texts.IsPin (modules.pin_of pin.now) }
    ensures { IfOk result (λ own. pin_of own ≡ modules.pin_of pin.now) }
{
    let port = name_of(alloc, pin.port)?;
    let net = name_of(alloc, pin.net)?;
    Ok(Pin { port, net })
}
